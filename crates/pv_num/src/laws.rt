//! That each number is one of the format, and what rounding is, as contracts.
ghost use Rattle.std.specs.Prelude.{ℕ, ℤ, ◌<◌};
ghost use Rattle.pv_num.specs.Parts.{IsNumber};
ghost use Rattle.pv_num.specs.Rounding.{IsTheRounded};
ghost use Rattle.pv_num.specs.declared.num.End.{End as Side};

use crate::num::Num;

/// Each number is a format number or an infinite end. It holds by its contract alone; the call does
/// nothing.
#[inline]
pub fn is_number(n: Num)
    ensures { IsNumber n }
{
    let _mantissa = n.mantissa;
}

/// For each side and each ratio the rounded number is the greatest of the format that is not above
/// it, or the least that is not below it, and the only one. It holds by its contract alone; the
/// call does nothing.
pub fn rounding()
    ensures { (side : Side) (a : ℤ) (b : ℕ) → 0 < b → IsTheRounded side a b }
{}
