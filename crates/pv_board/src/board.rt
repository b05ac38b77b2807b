//! The board's calls, each of them one event.
ghost use Rattle.std.specs.Prelude.{◌≡◌, ◌+◌, ◌-◌, ◌%◌, ◌^◌, ◌<◌, ◌≤◌, [], ◌∷◌, ◌++◌, true, false, IsTrue, is_some, IfOk, IfErr, OnOk, OnErr, IfSome, IfNone, IsSome, ℕ, suc, length, min, ◌↔◌, if◌then◌else◌, nat_eq, option_to_list, List, Bool};
ghost use Rattle.pv_tree.specs.Trees.{Tree, Seen, leaf, subtree, graft, settled, box_of, counts_of, settled_of, Fits};
ghost use Rattle.pv_tree.specs.Stages.{full_of, IsStage};
ghost use Rattle.pv_board.specs.Marks.{issued, granted, holds};
ghost use Rattle.pv_board.specs.Rules.{IsFitting, IsStageBelow, settled_in};
ghost use Rattle.pv_board.specs.Core.{Core, IsCore, IsOpening};
ghost use Rattle.pv_board.specs.Events.{is_current, may_issue, next_step, IsDry, IsOver, IsTake, IsExtend, IsSettling, IsHandedIn, IsGiveBack, IsRecall, IsLook, HasRisen, fresh, leaves_at, taken_by};
ghost use Rattle.pv_board.specs.Absorbing.{IsAbsorbed, IsAbsorbRefusal};
ghost use Rattle.pv_tree.specs.Arena.{is_a_cut};
ghost use Rattle.pv_tree.specs.declared.outcome.Shape.TheVariants.{Absent};
ghost use Rattle.pv_board.specs.Leaves.{IsBoard, seen};
ghost use Rattle.pv_board.specs.declared.ticket.TheConstants.{MOST_GRANT};
ghost use Rattle.pv_tree.specs.declared.batch.TheConstants.{MOST_BATCH};

use crate::absorbing::{AbsorbRefused, fill_all, leaves_below};
use crate::ceiling::Ceiling;
use crate::deal::deal;
use crate::leaves::Leaves;
use crate::naming::Naming;
use crate::ticket::{Handed, Look, Settled, Ticket};
use pv_box::IBox;
use pv_tree::{Batch, Counts, Outcome, Path, Paving, Shape};
use std::alloc::Global;
use std::marker::Model;

/// A paving that is being settled: which of its open leaves are issued, and what is left of the
/// budget.
#[derive(Drop)]
pub struct Board<N: Naming> {
    paving: Paving,
    leaves: Leaves,
    used: u64,
    steps: u64,
    ceiling: Ceiling<N>,
}

impl<N: Naming> Model for Board<N> {
    ghost use Rattle.pv_board.specs.Core.{Core, coded_core};
    ghost use Rattle.pv_board.specs.Leaves.{IsBoard, seen};

    ghost Value = { Core };

    ghost coded = { coded_core };

    ghost view = { λ a. seen a.paving a.leaves a.used a.steps };

    ghost invariant = { λ a. IsBoard N.rule N.depth N.dims N.root N.opening N.budget N.limit (seen a.paving a.leaves a.used a.steps) a.leaves };
}

impl<N: Naming> Board<N> {
    /// A board of a paving and its open leaves, with nothing used.
    pub(crate) fn of_parts(paving: Paving, leaves: Leaves, ceiling: Ceiling<N>) -> Board<N>
        requires { IsBoard N.rule N.depth N.dims N.root N.opening N.budget N.limit
            (seen paving leaves 0 0) leaves }
        ensures { result ≡ seen paving leaves 0 0 }
    {
        Board {
            paving,
            leaves,
            used: 0,
            steps: 0,
            ceiling,
        }
    }

    /// How many nodes were settled.
    pub fn used(&self) -> u64
        ensures used { result ≡ self.now.used }
        ensures opening { IsOpening N.rule N.depth N.dims N.root N.opening }
        ensures core { IsCore N.rule N.depth N.root N.opening N.budget N.limit self.now }
    {
        self.used
    }

    /// What is left of the budget.
    pub fn left(&self) -> u64
        ensures left { result ≡ self.now.left }
        ensures core { IsCore N.rule N.depth N.root N.opening N.budget N.limit self.now }
    {
        self.leaves.left
    }

    /// Whether it was stopped.
    pub fn is_stopped(&self) -> bool
        ensures { result ≡ self.now.stopped }
    {
        self.leaves.stopped
    }

    /// How many leaves are issued.
    pub fn issued(&self) -> u64
        ensures issued { result ≡ issued self.now.marks }
        ensures core { IsCore N.rule N.depth N.root N.opening N.budget N.limit self.now }
    {
        self.leaves.marks.len()
    }

    /// How many nodes there are of each kind.
    pub fn counts(&self) -> Counts
        ensures counts { result ≡ counts_of self.now.tree }
        ensures few { settled_in self.now.tree ≤ N.limit }
        ensures fit { settled_of result + result.open_leaves < 2 ^ 63 }
    {
        self.paving.counts()
    }

    /// Issues some open leaf that is not issued, with no grant. None exactly where nothing is left,
    /// every open leaf is issued, or the board was stopped.
    pub fn take(&mut self) -> Option<Ticket>
        ensures taken { IfSome result (λ t. IsTake self.old self.new t) }
        ensures none { IfNone result (IsDry self.old) }
        ensures same { IfNone result (self.new ≡ self.old) }
        ensures rose { HasRisen self.old self.new 0 }
        ensures over { IsOver self.old → IsOver self.new }
    {
        self.leaves.take()
    }

    /// Marks the board as stopped: nothing is issued from now on.
    pub fn stop(&mut self)
        ensures is { self.new ≡ record self.old { stopped = true } }
        ensures rose { HasRisen self.old self.new 0 }
        ensures over { IsOver self.old → IsOver self.new }
    {
        self.leaves.stopped = true;
    }

    /// Changes the number that idle workers look at.
    pub fn announce(&mut self)
        ensures is { self.new ≡ record self.old { steps = next_step self.old.steps } }
        ensures rose { HasRisen self.old self.new 0 }
        ensures over { IsOver self.old → IsOver self.new }
    {
        self.steps = self.steps.wrapping_add(1);
    }

    /// Settles a ticket's leaf. `fresh` is true exactly where the ticket is current; else nothing
    /// changes. After a cut the low child is issued if one more may be, and then the high child. It
    /// takes no memory.
    pub fn settle(&mut self, ticket: Ticket, outcome: Outcome) -> Settled
        requires there { IsSome (subtree (full_of N.rule N.depth N.root N.opening 0) ticket.path) }
        requires due { outcome ≡ N.rule
            (box_of N.root (full_of N.rule N.depth N.root N.opening 0) ticket.path)
            (N.depth - length ticket.path) (length ticket.path) }
        ensures fresh { result.fresh ≡ is_current self.old ticket }
        ensures settled { IsTrue result.fresh →
            IsSettling self.old self.new ticket (settled outcome)
            (option_to_list result.low ++ option_to_list result.high) }
        ensures low { IfSome result.low (λ t. t ≡ fresh (ticket.path ++ false ∷ [])) }
        ensures high { IfSome result.high (λ t. t ≡ fresh (ticket.path ++ true ∷ [])) }
        ensures stale { result.fresh ≡ false → (self.new ≡ self.old) ×
            (option_to_list result.low ++ option_to_list result.high ≡ []) }
        ensures rose { HasRisen self.old self.new (if result.fresh then 1 else 0) }
        ensures over { IsOver self.old → IsOver self.new }
    {
        let Some(slot) = self.leaves.find(&ticket) else {
            return Settled::STALE;
        };
        let _places = self.paving.dims();
        let path = ticket.path();
        let _steps = path.len();
        let cuts = is_cut(&outcome);
        self.paving.put_in_room(path, outcome);
        self.leaves.close(slot, 1);
        self.used += 1;
        self.steps = self.steps.wrapping_add(1);
        let (low, high) = self.leaves.offer_children(path, cuts);
        Settled {
            fresh: true,
            low,
            high,
        }
    }

    /// Puts a stage of a ticket's leaf in the leaf's place, and issues the stage's open leaves in
    /// preorder, as many as may be. The units that the stage took beyond the ticket's are taken of
    /// what is left; where there are fewer, the leaf is given back. `leaves` has the paths of the
    /// stage's open leaves from the root of the board's tree. It takes no memory.
    pub fn settle_stage(
        &mut self,
        ticket: Ticket,
        stage: &Paving,
        leaves: &[Path],
        children: &mut Batch<Ticket>,
    ) -> Handed
        requires there { IsSome (subtree (full_of N.rule N.depth N.root N.opening 0) ticket.path) }
        requires root { stage.now.root ≡
            box_of N.root (full_of N.rule N.depth N.root N.opening 0) ticket.path }
        requires stage { IsStageBelow N.rule N.depth stage.now.root
            (length ticket.path) stage.now.tree }
        requires some { 1 ≤ settled_in stage.now.tree }
        requires leaves { leaves.now ≡ leaves_at ticket.path stage.now.tree }
        requires few { length leaves.now ≤ MOST_BATCH }
        requires empty { children.old ≡ [] }
        ensures handed { IsHandedIn self.old self.new ticket stage.now.tree children.new result }
        ensures rose { HasRisen self.old self.new (taken_by result (settled_in stage.now.tree)) }
        ensures over { IsOver self.old → IsOver self.new }
    {
        let Some(slot) = self.leaves.find(&ticket) else {
            return Handed::Stale;
        };
        let _places = self.paving.dims();
        let _sides = stage.dims();
        let settled = stage.counts().settled();
        let own = 1 + ticket.grant();
        if self.leaves.left < settled.saturating_sub(own) {
            self.give_back(ticket);
            return Handed::Short;
        }
        let path = ticket.path();
        let _steps = path.len();
        self.paving.graft(path, stage);
        self.leaves.close(slot, settled);
        self.used += settled;
        self.steps = self.steps.wrapping_add(1);
        deal(&mut self.leaves, leaves, children);
        Handed::Taken
    }

    /// Takes a current ticket's leaf back: it is no longer issued, and its units are left again.
    /// Else nothing changes.
    pub fn give_back(&mut self, ticket: Ticket)
        ensures given { IsTrue (is_current self.old ticket) → IsGiveBack self.old self.new ticket }
        ensures stale { is_current self.old ticket ≡ false → self.new ≡ self.old }
        ensures rose { HasRisen self.old self.new 0 }
        ensures over { IsOver self.old → IsOver self.new }
    {
        let Some(slot) = self.leaves.find(&ticket) else {
            return;
        };
        self.leaves.release(slot);
        self.steps = self.steps.wrapping_add(1);
    }

    /// Moves units from what is left to a current ticket's grant: as many as are wanted and left,
    /// and none where the board was stopped.
    pub fn extend(&mut self, ticket: &mut Ticket, want: u64) -> u64
        requires { ticket.old.grant + want ≤ MOST_GRANT }
        ensures units { result ≡ (if is_current self.old ticket.old then min want
            (may_issue self.old) else 0) }
        ensures extended { IsTrue (is_current self.old ticket.old) →
            IsExtend self.old self.new ticket.old ticket.new result }
        ensures stale { is_current self.old ticket.old ≡ false → (self.new ≡ self.old) ×
            (ticket.new ≡ ticket.old) }
        ensures rose { HasRisen self.old self.new 0 }
        ensures over { IsOver self.old → IsOver self.new }
    {
        let Some(slot) = self.leaves.find(ticket) else {
            return 0;
        };
        let units = self.leaves.within(want);
        let slot = self.leaves.raise(slot, units);
        ticket.raise(units, slot);
        units
    }

    /// Takes every issued leaf back: afterwards nothing is issued.
    pub fn recall(&mut self)
        ensures recalled { IsRecall self.old self.new }
        ensures rose { HasRisen self.old self.new 0 }
        ensures over { IsOver self.old → IsOver self.new }
    {
        let _places = self.paving.dims();
        let issued = self.leaves.marks.len();
        if issued == 0 {
            return;
        }
        self.leaves.recall(&self.paving);
        self.steps = self.steps.wrapping_add(issued);
    }

    /// Writes the box of a ticket's path over another box. False exactly where the tree has no such
    /// path; then nothing changes.
    pub fn box_of(&self, ticket: &Ticket, into: &mut IBox) -> bool
        requires dims { length into.old ≡ length self.now.root }
        ensures there { IsTrue result ↔ IsSome (subtree self.now.tree ticket.now.path) }
        ensures is { IsTrue result → into.new ≡
            box_of N.root (full_of N.rule N.depth N.root N.opening 0) ticket.now.path }
        ensures in_full { IsTrue result →
            IsSome (subtree (full_of N.rule N.depth N.root N.opening 0) ticket.now.path) }
        ensures same { result ≡ false → into.new ≡ into.old }
        ensures places { length into.new ≡ length into.old }
    {
        let path = ticket.path();
        if is_absent(self.paving.shape_at(path)) {
            return false;
        }
        self.paving.box_at(path, into);
        true
    }

    /// Issues a leaf as `take` does, or says why not: `Done` where nothing is issued, `Changed`
    /// where `steps` differs from `seen`, and else `Same`.
    pub fn look(&mut self, seen: u64) -> Look
        ensures look { IsLook self.old self.new seen result }
        ensures rose { HasRisen self.old self.new 0 }
        ensures over { IsOver self.old → IsOver self.new }
    {
        if let Some(ticket) = self.take() {
            return Look::Work(ticket);
        }
        if self.leaves.marks.len() == 0 {
            return Look::Done;
        }
        if self.steps != seen {
            return Look::Changed(self.steps);
        }
        Look::Same
    }

    /// Takes in what a stage of the opening has settled: the paving becomes its join with the
    /// stage, except that issued leaves stay open with nothing below them. Answers how many settled
    /// nodes were added. A refusal changes nothing.
    pub fn absorb(&mut self, alloc: Global, stage: &Paving) -> Result<u64, AbsorbRefused>
        requires root { stage.now.root ≡ N.root }
        requires stage { IsStage N.rule N.depth N.root N.opening stage.now.tree }
        ensures absorbed { IfOk result (λ added.
            IsAbsorbed N.limit self.old self.new stage.now.tree added) }
        ensures refused { IfErr result (λ e.
            IsAbsorbRefusal N.limit self.old stage.now.tree e) }
        ensures same { OnErr result (self.new ≡ self.old) }
        ensures over { IsOver self.old → IsOver self.new }
    {
        let mut joined = self.paving.clone_of(alloc)?;
        fill_all(alloc, &mut joined, stage, &self.leaves.free)?;
        let settled = joined.counts().settled();
        let unused = self.leaves.unused();
        let most = self.ceiling.nodes();
        if settled + unused > most {
            return Err(AbsorbRefused::TreeLimit { settled });
        }
        joined.reserve(unused)?;
        let room = (settled + unused) as usize + 1;
        let free = leaves_below(alloc, &joined, &self.leaves.free, room)?;
        let added = settled - self.paving.counts().settled();
        self.leaves.free = free;
        self.paving = joined;
        Ok(added)
    }

    /// The paving.
    pub fn into_paving(self) -> Paving
        requires { issued self.marks ≡ 0 }
        ensures root { result.root ≡ self.root }
        ensures tree { result.tree ≡ self.tree }
        ensures core { IsCore N.rule N.depth N.root N.opening N.budget N.limit self }
    {
        self.paving
    }
}

/// Whether an outcome is a cut.
fn is_cut(outcome: &Outcome) -> bool
    ensures { result ≡ is_a_cut outcome.now }
{
    match outcome {
        Outcome::Cut { .. } => true,
        _ => false,
    }
}

/// Whether a shape is of no node.
pub(crate) fn is_absent(shape: Shape) -> bool
    ensures { IsTrue result ↔ (shape ≡ Absent) }
{
    match shape {
        Shape::Absent => true,
        _ => false,
    }
}
