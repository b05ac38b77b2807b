//! Small sets of numbers.

ghost use Rattle.std.specs.Prelude.{◌≡◌, ◌↔◌, ℕ, ◌<◌, IsTrue, ◌||◌, ◌&&◌, not, false, nat_eq};
ghost use Rattle.pv_hc4.specs.MarkSets.{is_marked};

/// So many numbers may be in a set.
pub const MOST_MARKS: u8 = 64;

/// A set of numbers below `MOST_MARKS`.
#[derive(Clone, Copy, Debug, PartialEq, Eq)]
pub struct Marks {
    word: u64,
}

impl Marks {
    /// No number.
    pub fn none() -> Marks
        ensures { (k : ℕ) → is_marked result k ≡ false }
    {
        Marks { word: 0 }
    }

    /// Whether a number is in the set.
    #[inline(always)]
    pub fn has(self, i: u8) -> bool
        requires { i < MOST_MARKS }
        ensures { result ≡ is_marked self i }
    {
        (self.word >> u32::from(i)) & 1 == 1
    }

    /// The set with a number.
    #[inline(always)]
    pub fn with(self, i: u8) -> Marks
        requires { i < MOST_MARKS }
        ensures { (k : ℕ) → is_marked result k ≡ (nat_eq i k || is_marked self k) }
    {
        Marks {
            word: self.word | (1 << u32::from(i)),
        }
    }

    /// The set without the numbers of another.
    #[inline(always)]
    pub fn without(self, other: Marks) -> Marks
        ensures { (k : ℕ) → is_marked result k ≡ (is_marked self k && not (is_marked other k)) }
    {
        Marks {
            word: self.word ^ (self.word & other.word),
        }
    }
}
