//! The search for the least value.
ghost use Rattle.std.specs.Prelude.{◌≡◌, ◌↔◌, ◌<◌, ◌≤◌, IsTrue, [], length, reverse, IfOk, IfErr, IfSome, OnOk, None};
ghost use Rattle.pv_tree.specs.Trees.{counts_of, settled_of};
ghost use Rattle.pv_tree.specs.Holes.{IsNext, growth_over};
ghost use Rattle.pv_tree.specs.KnownLeaves.{AreKnown};
ghost use Rattle.pv_least.specs.Objectives.{aim_of, admits};
ghost use Rattle.pv_least.specs.Searches.{searched, lower_of, best_of, next_of};
ghost use Rattle.pv_least.specs.Running.{IsEnded, IsSearch, nothing_found, steps_left};
ghost use Rattle.pv_least.specs.Promises.{NoneIsBelow, IsWitness};
ghost use Rattle.pv_tree.specs.declared.limit.TheConstants.{MOST_SETTLED};

use crate::found::{Least, Room};
use crate::objective::Objective;
use pv_box::IBox;
use pv_hc4::Scratch;
use pv_num::{Memory, Num};
use pv_tree::{Forgetful, Grower, KnowingSettler, Path, Settler, Workspace};
use std::alloc::Global;

// A search so far.
#[derive(Drop)]
struct Search<S: KnowingSettler> {
    grower: Grower,
    workspace: Workspace<S>,
    room: Room,
    found: Least,
}

/// The least value of an objective over the members of a box, as far as `budget` settled boxes
/// tell. The budget is from 1 to 100,000,000.
pub fn least<S: Settler>(
    alloc: Global,
    settler: &S,
    objective: &Objective,
    root: &IBox,
    budget: u64,
) -> Result<Least, Memory>
    requires settler_dims { length root.now ≡ S.dims settler.now }
    requires objective_dims { length root.now ≡ objective.now.dims }
    requires budget_some { 1 ≤ budget }
    requires budget_few { budget ≤ MOST_SETTLED }
    ensures lower { IfOk result (λ l. l.lower ≡ lower_of (aim_of objective.now) root.now
        (searched (S.settle_of settler.now) (S.depth_of settler.now)
        (aim_of objective.now) root.now budget)) }
    ensures best { IfOk result (λ l. l.best ≡ best_of (aim_of objective.now) root.now
        (searched (S.settle_of settler.now) (S.depth_of settler.now)
        (aim_of objective.now) root.now budget)) }
    ensures settled { IfOk result (λ l. l.settled ≡ settled_of (counts_of
        (searched (S.settle_of settler.now) (S.depth_of settler.now)
        (aim_of objective.now) root.now budget))) }
    ensures done { IfOk result (λ l. IsTrue l.done ↔ (next_of (aim_of objective.now) root.now
        (searched (S.settle_of settler.now) (S.depth_of settler.now)
        (aim_of objective.now) root.now budget) ≡ None)) }
    ensures none_below { IfOk result (λ l.
        NoneIsBelow (S.inside settler.now) (aim_of objective.now) root.now l.lower) }
    ensures witness { IfOk result (λ l. IfSome l.best
        (IsWitness (S.inside settler.now) (aim_of objective.now) root.now)) }
{
    objective.learn();
    let _places = root.dims();
    let found = run(alloc, &Forgetful { settler }, objective, root, budget)?;
    Ok(found)
}

// Searches a box to the end.
fn run<S: KnowingSettler>(
    alloc: Global,
    settler: &S,
    objective: &Objective,
    root: &IBox,
    budget: u64,
) -> Result<Least, Memory>
    requires settler_dims { length root.now ≡ S.dims settler.now }
    requires objective_dims { length root.now ≡ objective.now.dims }
    requires budget { budget ≤ MOST_SETTLED }
    ensures { IfOk result (IsEnded (S.settle_of settler.now) (S.depth_of settler.now)
        (aim_of objective.now) root.now budget) }
{
    let mut search = Search::open(alloc, settler, root)?;
    while let Some(path) = search.grower.next() {
        search.visit(alloc, settler, objective, budget, path)?;
    }
    Ok(search.found)
}

impl<S: KnowingSettler> Search<S> {
    // A search of a box of which nothing is known.
    fn open(alloc: Global, settler: &S, root: &IBox) -> Result<Search<S>, Memory>
        requires dims { length root.now ≡ S.dims settler.now }
        ensures growth { IfOk result (λ s. s.grower.growth ≡ growth_over root.now) }
        ensures at { IfOk result (λ s. s.grower.at ≡ []) }
        ensures found { IfOk result (λ s. s.found ≡ nothing_found) }
        ensures scratch { IfOk result (λ s. length s.workspace.scratch ≡ length root.now) }
        ensures facts { IfOk result (λ s. AreKnown (S.knows settler.now)
            (reverse s.workspace.facts.items) s.grower.growth.holes) }
        ensures probe { IfOk result (λ s. length s.room.probe ≡ length root.now) }
    {
        let mut workspace = Workspace::of(alloc, settler, root.dims())?;
        workspace.scratch.copy_from(root);
        let known = settler.nothing();
        Ok(Search {
            grower: Grower::open(alloc, settler, Path::root(), known, &mut workspace)?,
            workspace,
            room: Room {
                scratch: Scratch::new(alloc),
                probe: root.clone_of(alloc)?,
            },
            found: Least::nothing(),
        })
    }

    // Settles the leaf that comes next or passes it.
    fn visit(
        &mut self,
        alloc: Global,
        settler: &S,
        objective: &Objective,
        budget: u64,
        path: Path,
    ) -> Result<(), Memory>
        requires next { IsNext self.old.grower.growth path }
        requires at { self.old.grower.at ≡ [] }
        requires settler_dims { length self.old.grower.growth.root ≡ S.dims settler.now }
        requires objective_dims { length self.old.grower.growth.root ≡ objective.now.dims }
        requires scratch { length self.old.workspace.scratch ≡ objective.now.dims }
        requires facts { AreKnown (S.knows settler.now)
            (reverse self.old.workspace.facts.items) self.old.grower.growth.holes }
        requires probe { length self.old.room.probe ≡ objective.now.dims }
        requires budget { budget ≤ MOST_SETTLED }
        requires search { IsSearch (S.settle_of settler.now) (S.depth_of settler.now)
            (aim_of objective.now) self.old.grower.growth.root budget
            self.old.grower.growth self.old.found }
        ensures at { self.new.grower.at ≡ self.old.grower.at }
        ensures search { OnOk result (IsSearch (S.settle_of settler.now)
            (S.depth_of settler.now) (aim_of objective.now) self.old.grower.growth.root budget
            self.new.grower.growth self.new.found) }
        ensures fewer { OnOk result (steps_left budget self.new.grower.growth self.new.found
            < steps_left budget self.old.grower.growth self.old.found) }
        ensures scratch { length self.new.workspace.scratch ≡ length self.old.workspace.scratch }
        ensures facts { OnOk result (AreKnown (S.knows settler.now)
            (reverse self.new.workspace.facts.items) self.new.grower.growth.holes) }
        ensures probe { length self.new.room.probe ≡ length self.old.room.probe }
    {
        let _places = self.grower.growth.dims();
        self.grower.look(&mut self.workspace);
        let low = objective.low(&mut self.room.scratch, &self.workspace.scratch)?;
        let is_next = is_admitted(&low, self.found.upper());
        if is_next && self.found.settled < budget {
            let settled = self
                .grower
                .settle(alloc, settler, &mut self.workspace, path)?;
            self.found
                .settle(alloc, objective, &settled.outcome, &mut self.room)?;
            self.grower.lay(settler, &mut self.workspace, settled)?;
            return Ok(());
        }
        self.found.pass(low, is_next);
        self.grower.pass(settler, &mut self.workspace);
        Ok(())
    }
}

// Whether the objective may be as low as a bound.
fn is_admitted(low: &Option<Num>, upper: Num) -> bool
    ensures { result ≡ admits low.now upper }
{
    match low {
        Some(low) => *low <= upper,
        None => false,
    }
}
