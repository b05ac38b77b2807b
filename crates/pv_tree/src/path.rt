//! Paths from the root of a tree.
ghost use Rattle.pv_tree.specs.PathText.{path_text};
ghost use Rattle.std.specs.Prelude.{if◌then◌else◌, is_ok, ◌≡◌, ◌+◌, ◌<◌, ◌≤◌, ◌↔◌, ◌++◌, [], ◌∷◌, true, false, length, IsTrue, slice_index_or, string_bytes, IfOk, OnErr};

use pv_num::Memory;
use std::marker::Model;

/// The most steps that a path has.
pub const MOST_STEPS: u32 = 200;

/// The most levels that a tree has, so many as nodes on a path: the root and one for each step.
pub const MOST_LEVELS: u32 = 201;

/// A path of at most `MOST_STEPS` steps from a tree's root, each to the low or the high child.
/// Paths are ordered as their nodes in preorder.
#[derive(Clone, Copy, PartialEq, Eq, PartialOrd, Ord)]
pub struct Path {
    // Step i is bit 63 - i % 64 of word i / 64, so that the words' order is that of the steps; the
    // bits after it are 0.
    words: [u64; 4],
    len: u8,
}

impl Model for Path {
    ghost use Rattle.pv_tree.specs.PathText.{path_text};
    ghost use Rattle.std.specs.Prelude.{if◌then◌else◌, is_ok, List, Bool};

    ghost Value = { List Bool };

    ghost use Rattle.pv_tree.specs.Paths.{steps_of, IsPadded, padded, padded-steps_of};

    ghost view = { steps_of };

    ghost invariant = { IsPadded };

    ghost inverse = { padded };

    ghost inverse_ok = { padded-steps_of };
}

impl Path {
    /// The path of the root, which has no step.
    pub const ROOT: Path = Path {
        words: [0; 4],
        len: 0,
    };

    /// The empty path, as a call.
    pub fn root() -> Path
        ensures { result ≡ [] }
    {
        Path::ROOT
    }

    /// The number of steps.
    pub fn len(self) -> u32
        ensures count { result ≡ length self }
        ensures few { length self ≤ MOST_STEPS }
    {
        u32::from(self.len)
    }

    /// The path with a step to the low child at its end.
    pub fn low(self) -> Path
        requires { length self < MOST_STEPS }
        ensures { result ≡ self ++ false ∷ [] }
    {
        let words = self.words;
        Path {
            words,
            len: self.len + 1,
        }
    }

    /// The path with a step to the high child at its end.
    pub fn high(self) -> Path
        requires { length self < MOST_STEPS }
        ensures { result ≡ self ++ true ∷ [] }
    {
        let mut words = self.words;
        words[(self.len / 64) as usize] |= 1u64 << (63 - self.len % 64);
        Path {
            words,
            len: self.len + 1,
        }
    }

    /// The step at a place, true for high.
    pub fn step(self, i: u32) -> bool
        requires { i < length self }
        ensures { result ≡ slice_index_or self i false }
    {
        (self.words[(i / 64) as usize] >> (63 - i % 64)) & 1 == 1
    }

    // Appends a step, where the path lies.
    fn push(&mut self, high: bool)
        requires { length self.old < MOST_STEPS }
        ensures { self.new ≡ self.old ++ high ∷ [] }
    {
        if high {
            self.words[(self.len / 64) as usize] |= 1u64 << (63 - self.len % 64);
        }
        self.len += 1;
    }

    /// The steps of this path, and then those of another.
    pub fn then(self, tail: Path) -> Path
        requires { length self + length tail ≤ MOST_STEPS }
        ensures { result ≡ self ++ tail }
    {
        let mut path = self;
        for i in 0..tail.len() {
            path.push(tail.step(i));
        }
        path
    }

    /// Appends a digit a step, 0 for low and 1 for high; of the root a dot.
    pub fn write_text(self, out: &mut Vec<u8>) -> Result<(), Memory>
        ensures written { out.new.items ≡ (if is_ok result
            then out.old.items ++ path_text self
            else out.old.items) }
    {
        let steps = self.len();
        out.reserve(1 + steps as usize)?;
        if steps == 0 {
            out.push_reserved(b'.');
        }
        for i in 0..steps {
            out.push_reserved(if self.step(i) { b'1' } else { b'0' });
        }
        Ok(())
    }
}
