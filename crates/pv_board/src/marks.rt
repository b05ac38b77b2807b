//! The marks of issued paths.
ghost use Rattle.std.specs.Prelude.{◌≡◌, ◌+◌, ◌<◌, ◌≤◌, ◌^◌, ◌↔◌, IsTrue, ℕ, Some, None, [], IfOk, IfSome, IfNone};
ghost use Rattle.slab.specs.Slab.{get, values, ContainsKey};
ghost use Rattle.pv_board.specs.Marks.{HasMore, issued, granted};

use crate::mark::Mark;
use pv_num::Memory;
use pv_tree::Path;
use slab::Slab;
use std::alloc::Global;

/// The marks of a board, each in a slot that it keeps. All their room is made at once.
#[derive(Drop)]
pub(crate) struct Marks {
    pub(crate) slots: Slab<Mark>,
    extra: u64,
    ghost extra_is: { extra ≡ granted (values slots) },
}

/// Whether a mark is this one.
fn is_mark(mark: &Mark, path: Path, grant: u64) -> bool
    ensures { IsTrue result ↔ (mark.now ≡ record { path = path; grant = grant }) }
{
    is_path(mark.path, path) && mark.grant == grant
}

/// Whether two paths are the same.
fn is_path(a: Path, b: Path) -> bool
    ensures { IsTrue result ↔ (a ≡ b) }
{
    a == b
}

impl Marks {
    /// No marks, with room for `room` of them.
    pub(crate) fn new(alloc: Global, room: usize) -> Result<Marks, Memory>
        ensures none { IfOk result (λ m. values m.slots ≡ []) }
        ensures room { IfOk result (λ m. room ≤ m.slots.capacity) }
    {
        let slots = Slab::with_capacity(alloc, room)?;
        Ok(Marks { slots, extra: 0 })
    }

    /// How many paths are issued.
    pub(crate) fn len(&self) -> u64
        ensures count { result ≡ issued (values self.now.slots) }
    {
        self.slots.len() as u64
    }

    /// How many paths can be issued in all.
    pub(crate) fn room(&self) -> usize
        ensures { result ≡ self.now.slots.capacity }
    {
        self.slots.capacity()
    }

    /// The sum of the grants.
    pub(crate) fn granted(&self) -> u64
        ensures sum { result ≡ granted (values self.now.slots) }
        ensures small { result < 2 ^ 64 }
    {
        self.extra
    }

    /// Gives a path a mark, and answers its slot.
    pub(crate) fn issue(&mut self, path: Path, grant: u64) -> usize
        requires room { issued (values self.old.slots) + 1 ≤ self.old.slots.capacity }
        requires small { granted (values self.old.slots) + grant < 2 ^ 64 }
        ensures more { HasMore (values self.old.slots) (record { path = path; grant = grant })
            (values self.new.slots) }
        ensures room { self.new.slots.capacity ≡ self.old.slots.capacity }
    {
        let slot = self.slots.insert_reserved(Mark { path, grant });
        self.extra += grant;
        slot
    }

    /// Takes the mark out of a slot.
    pub(crate) fn close(&mut self, slot: usize) -> Mark
        requires { ContainsKey self.old.slots slot }
        ensures mark { get self.old.slots slot ≡ Some result }
        ensures less { HasMore (values self.new.slots) result (values self.old.slots) }
        ensures room { self.new.slots.capacity ≡ self.old.slots.capacity }
    {
        let mark = self.slots.remove(slot);
        self.extra -= mark.grant;
        mark
    }

    /// Takes all marks away.
    pub(crate) fn clear(&mut self)
        ensures none { values self.new.slots ≡ [] }
        ensures room { self.new.slots.capacity ≡ self.old.slots.capacity }
    {
        self.slots.clear();
        self.extra = 0;
    }

    /// Whether a slot has this mark.
    fn is_at(&self, slot: usize, path: Path, grant: u64) -> bool
        ensures { IsTrue result ↔ (get self.now.slots slot ≡
            Some (record { path = path; grant = grant })) }
    {
        match self.slots.get(slot) {
            Some(mark) => is_mark(mark, path, grant),
            None => false,
        }
    }

    /// The slot of a mark: the one given, where the mark is there, or else any.
    pub(crate) fn find(&self, slot: usize, path: Path, grant: u64) -> Option<usize>
        ensures found { IfSome result (λ k. get self.now.slots k ≡
            Some (record { path = path; grant = grant })) }
        ensures none { IfNone result ((k : ℕ) → get self.now.slots k ≡
            Some (record { path = path; grant = grant }) → ⊥) }
    {
        if self.is_at(slot, path, grant) {
            return Some(slot);
        }
        self.search(path, grant)
    }

    /// The slot of a mark, sought among all.
    fn search(&self, path: Path, grant: u64) -> Option<usize>
        ensures found { IfSome result (λ k. get self.now.slots k ≡
            Some (record { path = path; grant = grant })) }
        ensures none { IfNone result ((k : ℕ) → get self.now.slots k ≡
            Some (record { path = path; grant = grant }) → ⊥) }
    {
        for slot in 0..self.slots.capacity() {
            if self.is_at(slot, path, grant) {
                return Some(slot);
            }
        }
        None
    }
}
