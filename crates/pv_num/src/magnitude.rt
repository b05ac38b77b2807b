//! Sizes of numbers.
ghost use Rattle.std.specs.Prelude.{◌≡◌, ◌^◌, ◌<◌, ◌≤◌};

/// Which of the two sizes next to an exact one is taken.
#[derive(Clone, Copy, Debug, PartialEq, Eq)]
pub(crate) enum Toward {
    Zero,
    Away,
}

impl Toward {
    // The way in which a part is rounded that is taken off.
    #[inline(always)]
    pub(crate) fn other(self) -> Toward
        ensures zero { self ≡ Toward.Zero → result ≡ Toward.Away }
        ensures away { self ≡ Toward.Away → result ≡ Toward.Zero }
    {
        match self {
            Toward::Zero => Toward::Away,
            Toward::Away => Toward::Zero,
        }
    }

    // What is taken off before a shift to the right, and put on behind it.
    #[inline(always)]
    pub(crate) fn up(self) -> u64
        ensures zero { self ≡ Toward.Zero → result ≡ 0 }
        ensures away { self ≡ Toward.Away → result ≡ 1 }
    {
        match self {
            Toward::Zero => 0,
            Toward::Away => 1,
        }
    }
}

/// The size mantissa * 2^(exponent - 512), left-justified.
#[derive(Clone, Copy, Debug)]
pub(crate) struct Magnitude {
    pub(crate) mantissa: u64,
    pub(crate) exponent: u16,
    ghost mantissa_fits: { mantissa < 2 ^ 62 },
    ghost exponent_fits: { exponent ≤ 962 },
    ghost justified: { 0 < exponent → 2 ^ 61 ≤ mantissa },
}

pub(crate) const MANTISSA_BITS: u16 = 62;

pub(crate) const TOP_EXPONENT: u16 = 962;

/// A value in `round` is counted in units of 2^-1024 beyond the exponent 0, so that quotients stay
/// whole.
pub(crate) const FINE_BITS: u16 = 1024;

pub(crate) const LARGEST: Magnitude = Magnitude {
    mantissa: 0x3fff_ffff_ffff_ffff,
    exponent: 962,
};
