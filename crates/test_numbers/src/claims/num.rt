//! What numbers promise.
ghost use Rattle.std.specs.Prelude.{◌≡◌, ◌≢◌, ◌≤◌, ◌<◌, ◌*◌, ◌^◌, pos, unsigned_abs, IsTrue, IfSome};
ghost use Rattle.pv_num.specs.Extended.{Fin, NegInf, PosInf};
ghost use Rattle.pv_num.specs.Order.{le, lt};
ghost use Rattle.pv_num.specs.Grid.{unit};
ghost use Rattle.pv_num.specs.Parts.{number_text, IsFin};
ghost use Rattle.pv_num.specs.Arithmetic.{add_of, mul_of, div_of, ratio_of, pow_of, root_of, middle_of, floor_of};
ghost use Rattle.pv_num.specs.declared.num.End.TheVariants.{Down};

use pv_num::{End, Num};

/// The sum, rounded to a side.
pub fn sum(a: Num, b: Num, side: End) -> Num
    ensures { result ≡ add_of side a b }
{
    a.add(b, side)
}

/// The product, rounded to a side.
pub fn product(a: Num, b: Num, side: End) -> Num
    ensures { result ≡ mul_of side a b }
{
    a.mul(b, side)
}

/// The quotient, rounded to a side.
pub fn quotient(a: Num, b: Num, side: End) -> Num
    requires { b ≢ Fin (pos 0) }
    ensures { result ≡ div_of side a b }
{
    a.div(b, side)
}

/// The ratio of two whole numbers, rounded to a side.
pub fn ratio(p: i128, q: u128, side: End) -> Num
    requires p_fits { unsigned_abs p < 10 ^ 37 }
    requires q_positive { 1 ≤ q }
    requires q_fits { q ≤ 10 ^ 36 }
    ensures { result ≡ ratio_of side p q }
{
    Num::from_ratio(p, q, side)
}

/// The power of a number that is not negative, rounded to a side.
pub fn power(a: Num, n: u8, side: End) -> Num
    requires not_negative { IsTrue (le (Fin (pos 0)) a) }
    requires exponent { n ≤ 32 }
    ensures { result ≡ pow_of side a n }
{
    a.pow(n, side)
}

/// The root of a number that is not negative, rounded to a side.
pub fn root(a: Num, n: u8, side: End) -> Num
    requires not_negative { IsTrue (le (Fin (pos 0)) a) }
    requires exponent { (1 ≤ n) × (n ≤ 32) }
    requires finite_below { side ≡ Down → a ≢ PosInf }
    ensures { result ≡ root_of side a n }
{
    a.root(n, side)
}

/// A cut strictly between two finite numbers.
pub fn middle(lo: Num, hi: Num) -> Option<Num>
    requires lo_finite { (lo ≢ NegInf) × (lo ≢ PosInf) }
    requires hi_finite { (hi ≢ NegInf) × (hi ≢ PosInf) }
    requires ordered { IsTrue (le lo hi) }
    ensures { result ≡ middle_of lo hi }
{
    Num::middle(lo, hi)
}

/// The greatest whole number that is not above.
pub fn floor(a: Num, top: u64) -> u64
    requires low { IsTrue (le (Fin (pos 0)) a) }
    requires high { IsTrue (le a (Fin (pos (top * unit)))) }
    ensures { result ≡ floor_of a }
{
    a.floor(top)
}

/// The number m·2^e; None where it is none of the format.
pub fn finite(m: i64, e: i16) -> Option<Num>
    ensures { IsFin m e result }
{
    Num::fin(m, e)
}

/// Whether the first number is below the second.
pub fn is_less(a: Num, b: Num) -> bool
    ensures { result ≡ lt a b }
{
    a < b
}

/// The number with this spelling; None where it is none's.
pub fn read(bytes: &[u8]) -> Option<Num>
    ensures { IfSome result (λ x. bytes.now ≡ number_text x) }
{
    Num::read_text(bytes)
}
