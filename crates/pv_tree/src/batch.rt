//! A short list that never needs memory once it is made.
ghost use Rattle.std.specs.Prelude.{◌≡◌, ◌<◌, ◌≤◌, ◌++◌, ◌↔◌, [], ◌∷◌, length, IfOk, IsSome, option_to_list};

use pv_num::Memory;
use std::alloc::Global;
use std::marker::Model;

/// The most values of a batch.
pub const MOST_BATCH: usize = 17;

/// A list of at most `MOST_BATCH` values, with all its room from the start.
#[derive(Drop)]
pub struct Batch<T> {
    values: Vec<T>,
}

impl<T> Model for Batch<T> {
    ghost use Rattle.std.specs.Prelude.{List, length, vec_capacity, ◌≤◌};
    ghost use Rattle.pv_tree.specs.declared.batch.TheConstants.{MOST_BATCH};

    ghost Value = { List T };

    ghost view = { λ a. a.values.items };

    ghost invariant = { λ a. (length a.values.items ≤ MOST_BATCH) × (MOST_BATCH ≤ vec_capacity a.values) };
}

impl<T> Batch<T> {
    /// An empty batch.
    pub fn new(alloc: Global) -> Result<Batch<T>, Memory>
        ensures { IfOk result (λ b. b ≡ []) }
    {
        let values = Vec::with_capacity(alloc, MOST_BATCH)?;
        Ok(Batch { values })
    }

    /// Appends a value.
    pub fn push(&mut self, value: T)
        requires { length self.old < MOST_BATCH }
        ensures { self.new ≡ self.old ++ value ∷ [] }
    {
        self.values.push_reserved(value);
    }

    /// Takes the last value. None exactly where the batch is empty.
    pub fn pop(&mut self) -> Option<T>
        ensures last { self.old ≡ self.new ++ option_to_list result }
        ensures some { IsSome result ↔ (0 < length self.old) }
    {
        self.values.pop()
    }

    /// How many values there are.
    pub fn len(&self) -> u32
        ensures count { result ≡ length self.now }
        ensures few { length self.now ≤ MOST_BATCH }
    {
        self.values.len() as u32
    }
}
