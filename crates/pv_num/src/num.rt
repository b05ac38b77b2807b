//! The number type.
ghost use Rattle.std.specs.Prelude.{◌≡◌, ◌↔◌, ◌≢◌, ◌^◌, ◌*◌, ◌-◌, ◌<◌, pos, IsTrue, Some, true, false};
ghost use Rattle.pv_num.specs.Extended.{Fin};
ghost use Rattle.pv_num.specs.Arithmetic.{neg_of, abs_of};
ghost use Rattle.pv_num.specs.View.{opposite_of};
ghost use Rattle.pv_num.specs.Sizes.{size_of, magnitude_of, is_negative_of, is_infinite_of, infinite_of, signed_of, toward_of};

use crate::magnitude::{Magnitude, Toward};
use std::marker::Model;

/// The side of an exact value on which a rounded one lies.
#[derive(Clone, Copy, Debug, PartialEq, Eq)]
pub enum End {
    /// At most the exact value.
    Down,
    /// At least the exact value.
    Up,
}

#[derive(Clone, Copy, Debug, PartialEq, Eq)]
pub(crate) enum Class {
    MinusOo,
    Negative,
    NonNegative,
    PlusOo,
}

impl Class {
    // The class of a number that is not zero with the other sign.
    #[inline(always)]
    fn opposite(self) -> Class
        ensures { result ≡ opposite_of self }
    {
        match self {
            Class::MinusOo => Class::PlusOo,
            Class::Negative => Class::NonNegative,
            Class::NonNegative => Class::Negative,
            Class::PlusOo => Class::MinusOo,
        }
    }
}

/// A number m * 2^e with whole m below 2^62 in size and e from -512 to 450, or one of the two
/// infinite ends.
#[derive(Clone, Copy, Debug)]
pub struct Num {
    pub(crate) class: Class,
    pub(crate) exponent: u16,
    pub(crate) mantissa: u64,
}

impl Model for Num {
    ghost use Rattle.pv_num.specs.Extended.{Extended};

    ghost Value = { Extended };

    ghost use Rattle.pv_num.specs.View.{value_of, inside_of, IsJustified};
    ghost use Rattle.pv_num.specs.Inside.{inside_of-value_of};

    ghost view = { value_of };

    ghost invariant = { IsJustified };

    ghost inverse = { inside_of };

    ghost inverse_ok = { inside_of-value_of };
}

impl Num {
    /// Zero.
    pub const ZERO: Num = Num {
        class: Class::NonNegative,
        exponent: 0,
        mantissa: 0,
    };

    /// One.
    pub const ONE: Num = Num {
        class: Class::NonNegative,
        exponent: 451,
        mantissa: 0x2000_0000_0000_0000,
    };

    /// The greatest number, (2^62 - 1) * 2^450.
    pub const MAX: Num = Num {
        class: Class::NonNegative,
        exponent: 962,
        mantissa: 0x3fff_ffff_ffff_ffff,
    };

    /// Below all numbers.
    pub const NEG_INF: Num = Num {
        class: Class::MinusOo,
        exponent: 0,
        mantissa: 0,
    };

    /// Above all numbers.
    pub const POS_INF: Num = Num {
        class: Class::PlusOo,
        exponent: 0,
        mantissa: 0,
    };

    /// The number with the other sign.
    #[inline]
    pub fn neg(self) -> Num
        ensures { result ≡ neg_of self }
    {
        if self.is_zero() {
            return self;
        }
        Num {
            class: self.class.opposite(),
            exponent: self.exponent,
            mantissa: self.mantissa,
        }
    }

    /// The number without its sign.
    #[inline]
    pub fn abs(self) -> Num
        ensures { result ≡ abs_of self }
    {
        match self.class {
            Class::MinusOo => Num::POS_INF,
            Class::Negative => Num {
                class: Class::NonNegative,
                exponent: self.exponent,
                mantissa: self.mantissa,
            },
            _ => self,
        }
    }

    #[inline]
    pub(crate) fn is_negative(self) -> bool
        ensures { result ≡ is_negative_of self }
    {
        match self.class {
            Class::MinusOo => true,
            Class::Negative => true,
            Class::NonNegative => false,
            Class::PlusOo => false,
        }
    }

    #[inline]
    pub(crate) fn is_infinite(self) -> bool
        ensures { result ≡ is_infinite_of self }
    {
        match self.class {
            Class::MinusOo => true,
            Class::Negative => false,
            Class::NonNegative => false,
            Class::PlusOo => true,
        }
    }

    // Whether this is a finite number of the sign that a finite one has.
    #[inline(always)]
    pub(crate) fn is_alike(self, other: Num) -> bool
        requires other_finite { is_infinite_of other ≡ false }
        ensures finite { IsTrue result → is_infinite_of self ≡ false }
        ensures alike { IsTrue result → is_negative_of self ≡ is_negative_of other }
        ensures unlike { result ≡ false → is_infinite_of self ≡ false →
            is_negative_of self ≢ is_negative_of other }
    {
        self.class == other.class
    }

    #[inline]
    pub(crate) fn is_zero(self) -> bool
        ensures { IsTrue result ↔ (self ≡ Fin (pos 0)) }
    {
        match self.class {
            Class::NonNegative => self.mantissa == 0,
            _ => false,
        }
    }

    #[inline]
    pub(crate) fn size(self) -> Magnitude
        ensures { size_of result ≡ magnitude_of self }
    {
        Magnitude {
            mantissa: self.mantissa,
            exponent: self.exponent,
        }
    }

    // The number of this one's sign with another size.
    #[inline(always)]
    pub(crate) fn with_size(self, size: Magnitude) -> Num
        requires finite { is_infinite_of self ≡ false }
        requires not_zero { is_negative_of self ≡ true → 0 < size_of size }
        ensures { result ≡ signed_of (is_negative_of self) (Some size) }
    {
        Num {
            class: self.class,
            exponent: size.exponent,
            mantissa: size.mantissa,
        }
    }
}

// The infinite end of a sign.
#[inline]
pub(crate) fn infinite(negative: bool) -> Num
    ensures { result ≡ infinite_of negative }
{
    if negative { Num::NEG_INF } else { Num::POS_INF }
}

// The number of a sign and a size; none stands for the infinite end.
#[inline]
pub(crate) fn signed(negative: bool, size: Option<Magnitude>) -> Num
    ensures { result ≡ signed_of negative size }
{
    match size {
        None => infinite(negative),
        Some(m) => {
            if negative && m.mantissa > 0 {
                Num {
                    class: Class::Negative,
                    exponent: m.exponent,
                    mantissa: m.mantissa,
                }
            } else {
                Num {
                    class: Class::NonNegative,
                    exponent: m.exponent,
                    mantissa: m.mantissa,
                }
            }
        }
    }
}

// The number of a sign and a size that is not 0.
#[inline(always)]
pub(crate) fn nonzero(negative: bool, size: Magnitude) -> Num
    requires { 0 < size_of size }
    ensures { result ≡ signed_of negative (Some size) }
{
    if negative {
        Num {
            class: Class::Negative,
            exponent: size.exponent,
            mantissa: size.mantissa,
        }
    } else {
        Num {
            class: Class::NonNegative,
            exponent: size.exponent,
            mantissa: size.mantissa,
        }
    }
}

// How the size of a number is rounded so that the number is rounded to a side.
#[inline]
pub(crate) fn toward(side: End, negative: bool) -> Toward
    ensures { result ≡ toward_of side negative }
{
    match side {
        End::Down => { if negative { Toward::Away } else { Toward::Zero } }
        End::Up => { if negative { Toward::Zero } else { Toward::Away } }
    }
}
