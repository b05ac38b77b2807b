//! Equality and order: the lower end first, then the numbers, then the upper end.
ghost use Rattle.std.specs.Prelude.{◌≡◌, ◌↔◌, ℕ, ◌*◌, ◌^◌, ◌<◌, ◌≤◌, IsTrue, refl};
ghost use Rattle.std.specs.Ordering.{eq_by_cmp, as_partial_cmp, nat_cmp, is_eq};
ghost use Rattle.std.specs.Cmp.{po};
ghost use Rattle.pv_num.specs.Order.{order_of};
ghost use Rattle.pv_num.specs.Laws.{order_of-total, equality, equivalence};

use crate::num::{Class, Num};
use std::cmp::Ordering;

impl PartialEq for Num {
    ghost eq = { eq_by_cmp order_of };

    ghost laws = { equality };

    #[inline]
    fn eq(&self, other: &Num) -> bool
        ensures same { IsTrue result ↔ (self.now ≡ other.now) }
        ensures value { result ≡ eq_by_cmp order_of self.now other.now }
    {
        self.cmp(other).is_eq()
    }
}

impl Eq for Num {
    ghost laws = { equivalence };
}

impl PartialOrd for Num {
    ghost partial_cmp = { as_partial_cmp order_of };

    ghost laws = { po order_of-total (λ _ _. refl) };

    #[inline]
    fn partial_cmp(&self, other: &Num) -> Option<Ordering> {
        Some(self.cmp(other))
    }
}

impl Ord for Num {
    ghost cmp = { order_of };

    ghost total = { order_of-total };

    ghost matches_partial_cmp = { λ _ _. refl };

    ghost matches_eq = { λ _ _. refl };

    #[inline]
    fn cmp(&self, other: &Num) -> Ordering {
        match self.class {
            Class::MinusOo => match other.class {
                Class::MinusOo => Ordering::Equal,
                _ => Ordering::Less,
            },
            Class::Negative => match other.class {
                Class::MinusOo => Ordering::Greater,
                Class::Negative => {
                    compare_sizes(other.exponent, other.mantissa, self.exponent, self.mantissa)
                }
                _ => Ordering::Less,
            },
            Class::NonNegative => match other.class {
                Class::NonNegative => {
                    compare_sizes(self.exponent, self.mantissa, other.exponent, other.mantissa)
                }
                Class::PlusOo => Ordering::Less,
                Class::MinusOo => Ordering::Greater,
                Class::Negative => Ordering::Greater,
            },
            Class::PlusOo => match other.class {
                Class::PlusOo => Ordering::Equal,
                _ => Ordering::Greater,
            },
        }
    }
}

// Left-justified mantissas order the sizes by exponent first.
#[inline]
fn compare_sizes(e: u16, m: u64, f: u16, n: u64) -> Ordering
    requires m_fits { m < 2 ^ 62 }
    requires n_fits { n < 2 ^ 62 }
    requires m_justified { 0 < e → 2 ^ 61 ≤ m }
    requires n_justified { 0 < f → 2 ^ 61 ≤ n }
    ensures { result ≡ nat_cmp (m * 2 ^ e) (n * 2 ^ f) }
{
    if e < f {
        Ordering::Less
    } else if f < e {
        Ordering::Greater
    } else {
        m.cmp(&n)
    }
}
