//! The open leaves of a board's paving: which are issued, and which are free.
ghost use Rattle.std.specs.Prelude.{◌≡◌, ◌+◌, ◌<◌, ◌≤◌, ◌++◌, [], ◌∷◌, true, false, is_some, nat_lt, length, vec_len, vec_capacity, IfOk, IfNone, IsSome, IsTrue, IfSome, option_to_list, map, take, min, Some, ℕ, suc, nat_eq, List, Bool};
ghost use Rattle.slab.specs.Slab.{values, get, ContainsKey};
ghost use Rattle.pv_board.specs.declared.mark.Mark.{Mark};
ghost use Rattle.pv_board.specs.Marks.{HasMore, marked, holds, issued, granted};
ghost use Rattle.pv_board.specs.Rules.{settled_in};
ghost use Rattle.pv_board.specs.Events.{free_units, fresh};
ghost use Rattle.pv_board.specs.Leaves.{marks_of, HasRoom, AreOpen, AreOffered, IsIssued, IsClosed, IsFreed, IsRaised, children_of};
ghost use Rattle.pv_tree.specs.declared.path.TheConstants.{MOST_STEPS};

use crate::mark::Mark;
use crate::marks::Marks;
use crate::pile::pile_all;
use crate::ticket::Ticket;
use pv_num::Memory;
use pv_tree::{NodeLimit, Path, Paving};
use std::alloc::Global;

/// The open leaves, issued or free, and how many more may be issued.
#[derive(Drop)]
pub(crate) struct Leaves {
    pub(crate) marks: Marks,
    pub(crate) free: Vec<Path>,
    pub(crate) left: u64,
    pub(crate) stopped: bool,
}

impl Leaves {
    /// The open leaves of a paving, all of them free, with room for every open leaf that so many
    /// settlings can bring.
    pub(crate) fn open(
        alloc: Global,
        paving: &Paving,
        left: u64,
        limit: NodeLimit,
    ) -> Result<Leaves, Memory>
        requires { settled_in paving.now.tree + left ≤ limit }
        ensures leaves { IfOk result (λ l. AreOpen l paving.now.tree) }
        ensures none { IfOk result (λ l. marks_of l ≡ []) }
        ensures left { IfOk result (λ l. l.left ≡ left) }
        ensures stopped { IfOk result (λ l. l.stopped ≡ false) }
        ensures room { IfOk result HasRoom }
        ensures for_free { IfOk result (λ l.
            settled_in paving.now.tree + left < vec_capacity l.free) }
    {
        let _places = paving.dims();
        let _most = limit.nodes();
        let most = paving.counts().settled() + left;
        let marks = Marks::new(alloc, left as usize)?;
        let mut free = Vec::with_capacity(alloc, most as usize + 1)?;
        pile_all(paving, &mut free);
        Ok(Leaves {
            marks,
            free,
            left,
            stopped: false,
        })
    }

    /// How many units are not used: those of the issued leaves with their grants, and those that
    /// are left.
    pub(crate) fn unused(&self) -> u64
        requires { HasRoom self.now }
        ensures { result ≡ issued (marks_of self.now) + granted
            (marks_of self.now) + self.now.left }
    {
        let _room = self.marks.room();
        self.marks.len() + self.marks.granted() + self.left
    }

    /// Frees every issued leaf.
    pub(crate) fn recall(&mut self, paving: &Paving)
        requires few { settled_in paving.now.tree < vec_capacity self.old.free }
        requires room { HasRoom self.old }
        ensures leaves { AreOpen self.new paving.now.tree }
        ensures none { marks_of self.new ≡ [] }
        ensures left { self.new.left ≡
            self.old.left + issued (marks_of self.old) + granted (marks_of self.old) }
        ensures stopped { self.new.stopped ≡ self.old.stopped }
        ensures room { HasRoom self.new }
        ensures for_free { vec_capacity self.new.free ≡ vec_capacity self.old.free }
    {
        let _places = paving.dims();
        let _room = self.marks.room();
        self.left += self.marks.len() + self.marks.granted();
        self.marks.clear();
        self.free.clear();
        pile_all(paving, &mut self.free);
    }

    /// Whether a path may be issued.
    fn may_issue(&self) -> bool
        ensures { result ≡ nat_lt 0 (free_units self.now.stopped self.now.left) }
    {
        !self.stopped && self.left > 0
    }

    /// Issues a path with no grant.
    fn issue(&mut self, path: Path) -> Ticket
        requires some { 0 < self.old.left }
        requires room { HasRoom self.old }
        ensures ticket { result ≡ fresh path }
        ensures marks { HasMore (marks_of self.old) (fresh path) (marks_of self.new) }
        ensures left { self.new.left + 1 ≡ self.old.left }
        ensures stopped { self.new.stopped ≡ self.old.stopped }
        ensures free { self.new.free.items ≡ self.old.free.items }
        ensures room { HasRoom self.new }
        ensures for_free { vec_capacity self.new.free ≡ vec_capacity self.old.free }
    {
        let _granted = self.marks.granted();
        let slot = self.marks.issue(path, 0);
        self.left -= 1;
        Ticket::fresh(path, slot)
    }

    /// Adds an open leaf: issued, if one more may be, and free otherwise.
    pub(crate) fn offer(&mut self, path: Path) -> Option<Ticket>
        requires few { vec_len self.old.free < vec_capacity self.old.free }
        requires room { HasRoom self.old }
        ensures given { is_some result ≡ nat_lt 0 (free_units self.old.stopped self.old.left) }
        ensures ticket { IfSome result (λ t. t ≡ fresh path) }
        ensures offered { AreOffered self.old self.new (path ∷ []) }
    {
        if self.may_issue() {
            return Some(self.issue(path));
        }
        self.free.push_reserved(path);
        None
    }

    /// Issues some free leaf, if one may be issued.
    pub(crate) fn take(&mut self) -> Option<Ticket>
        requires { HasRoom self.old }
        ensures issued { IfSome result (λ t. IsIssued self.old self.new t) }
        ensures none { IfNone result (0 < free_units self.old.stopped self.old.left →
            self.old.free.items ≡ []) }
        ensures same { IfNone result (self.new ≡ self.old) }
    {
        if self.free.is_empty() || !self.may_issue() {
            return None;
        }
        let path = self.free.pop().unwrap();
        Some(self.issue(path))
    }

    /// The slot of a ticket's mark, where the ticket is current.
    pub(crate) fn find(&self, ticket: &Ticket) -> Option<usize>
        requires { (q : List Bool) → marked (marks_of self.now) q ≤ 1 }
        ensures current { is_some result ≡
            nat_eq (holds (marks_of self.now) ticket.now.path) (suc ticket.now.grant) }
        ensures found { IfSome result (λ k. get self.now.marks.slots k ≡ Some ticket.now) }
    {
        self.marks
            .find(ticket.slot(), ticket.path(), ticket.grant())
    }

    /// Takes the mark out of a slot. Its units are left again but for those that are spent.
    pub(crate) fn close(&mut self, slot: usize, spent: u64) -> Mark
        requires room { HasRoom self.old }
        requires there { ContainsKey self.old.marks.slots slot }
        requires few { (m : Mark) → get self.old.marks.slots slot ≡ Some m →
            spent ≤ self.old.left + m.grant + 1 }
        ensures mark { get self.old.marks.slots slot ≡ Some result }
        ensures closed { IsClosed self.old self.new result spent }
    {
        let _room = self.marks.room();
        let mark = self.marks.close(slot);
        self.left = self.left + mark.grant + 1 - spent;
        mark
    }

    /// Adds the children of a leaf that was cut, the low one first.
    pub(crate) fn offer_children(
        &mut self,
        path: Path,
        cuts: bool,
    ) -> (Option<Ticket>, Option<Ticket>)
        requires depth { IsTrue cuts → length path < MOST_STEPS }
        requires few { vec_len self.old.free + 2 ≤ vec_capacity self.old.free }
        requires room { HasRoom self.old }
        ensures offered { AreOffered self.old self.new (children_of path cuts) }
        ensures tickets { option_to_list result.0 ++ option_to_list result.1 ≡
            map fresh (take (free_units self.old.stopped self.old.left) (children_of path cuts)) }
        ensures low { IfSome result.0 (λ t. t ≡ fresh (path ++ false ∷ [])) }
        ensures high { IfSome result.1 (λ t. t ≡ fresh (path ++ true ∷ [])) }
    {
        if !cuts {
            return (None, None);
        }
        let low = self.offer(path.low());
        let high = self.offer(path.high());
        (low, high)
    }

    /// Frees the leaf whose mark is in a slot.
    pub(crate) fn release(&mut self, slot: usize) -> Mark
        requires room { HasRoom self.old }
        requires there { ContainsKey self.old.marks.slots slot }
        requires few { vec_len self.old.free < vec_capacity self.old.free }
        ensures mark { get self.old.marks.slots slot ≡ Some result }
        ensures freed { IsFreed self.old self.new result }
    {
        let mark = self.close(slot, 0);
        self.free.push_reserved(mark.path);
        mark
    }

    /// How many of the units that are wanted can be had.
    pub(crate) fn within(&self, want: u64) -> u64
        ensures { result ≡ min want (free_units self.now.stopped self.now.left) }
    {
        if self.stopped { 0 } else { want.min(self.left) }
    }

    /// Adds units to the mark in a slot, and answers its slot.
    pub(crate) fn raise(&mut self, slot: usize, units: u64) -> usize
        requires room { HasRoom self.old }
        requires there { ContainsKey self.old.marks.slots slot }
        requires left { units ≤ self.old.left }
        ensures { (m : Mark) → get self.old.marks.slots slot ≡ Some m →
            IsRaised self.old self.new m (record { path = m.path; grant = m.grant + units }) units }
    {
        let _room = self.marks.room();
        let mark = self.marks.close(slot);
        let _granted = self.marks.granted();
        self.left -= units;
        self.marks.issue(mark.path, mark.grant + units)
    }
}
