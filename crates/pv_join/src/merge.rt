//! Joins of pavings.
ghost use Rattle.std.specs.Prelude.{◌≡◌, IfErr, IfOk, OnOk, IsSome, length};
ghost use Rattle.pv_tree.specs.Trees.{Tree, subtree, outcome_at, box_of, Fits, HasDepth};
ghost use Rattle.pv_join.specs.Joins.{IsJoin, IsOverlaid, IsRefusal, IsReady, IsSettledAs, IsMismatch, IsJoinRefusal, HasJoinLaws, AreNoStages, is_a_cut};

use crate::meeting::{lay, one_of, outcome_from, step_past};
use crate::outcomes::{outcome_of, same_outcome};
use pv_num::Memory;
use pv_tree::{Growth, Outcome, Path, Paving, Walk, blank};
use std::alloc::Global;

/// Why two pavings have no join.
#[derive(Drop)]
pub enum JoinRefused {
    /// Want of memory.
    Memory,
    /// Both are settled at a path, and differently. It is the first such path in preorder.
    Disagree { path: Path },
}

impl From<Memory> for JoinRefused {
    ghost use Rattle.std.specs.Prelude.{◌≡◌};
    ghost use Rattle.pv_join.specs.declared.merge.JoinRefused.TheVariants as refused;

    ghost from_gives = { λ _ r. r ≡ refused.Memory };

    fn from(_: Memory) -> JoinRefused {
        JoinRefused::Memory
    }
}

pub(crate) fn is_cut(outcome: &Outcome) -> bool
    ensures { result ≡ is_a_cut outcome.now }
{
    match outcome {
        Outcome::Cut { .. } => true,
        _ => false,
    }
}

/// Settles the node at a path, or finds that it is settled so.
fn settle_as(
    alloc: Global,
    into: &mut Paving,
    path: Path,
    theirs: Outcome,
) -> Result<(), JoinRefused>
    requires there { IsSome (subtree into.old.tree path) }
    requires fits { Fits (box_of into.old.root into.old.tree path) theirs }
    requires depth { HasDepth path theirs }
    ensures root { into.new.root ≡ into.old.root }
    ensures ok { OnOk result (IsSettledAs into.old.tree into.new.tree path theirs) }
    ensures differ { IfErr result (λ e. IsMismatch into.old.tree path theirs e) }
{
    match outcome_of(alloc, into, path)? {
        None => match into.put(path, theirs) {
            Ok(()) => Ok(()),
            Err(_) => Err(JoinRefused::Memory),
        },
        Some(mine) => {
            if same_outcome(&mine, &theirs) {
                Ok(())
            } else {
                Err(JoinRefused::Disagree { path })
            }
        }
    }
}

/// Lays a paving over another from a path down: each node that is open there takes the other's
/// outcome. A refusal leaves what was laid so far.
pub fn overlay(
    alloc: Global,
    into: &mut Paving,
    over: &Paving,
    path: Path,
) -> Result<(), JoinRefused>
    requires { IsReady into.old over.now path }
    ensures root { into.new.root ≡ into.old.root }
    ensures ok { OnOk result (IsOverlaid into.old.tree over.now.tree into.new.tree path) }
    ensures refusal { IfErr result (λ e. IsRefusal into.old.tree over.now.tree path e) }
{
    let _places = over.dims();
    let Some(theirs) = outcome_of(alloc, over, path)? else {
        return Ok(());
    };
    let goes_on = is_cut(&theirs);
    match settle_as(alloc, into, path, theirs) {
        Ok(()) => {}
        Err(refusal) => return Err(refusal),
    }
    if !goes_on {
        return Ok(());
    }
    match overlay(alloc, into, over, path.low()) {
        Ok(()) => {}
        Err(refusal) => return Err(refusal),
    }
    overlay(alloc, into, over, path.high())
}

/// The join of two pavings over one box: at each path the settled side. It takes time for the nodes
/// of both.
pub fn join(alloc: Global, a: &Paving, b: &Paving) -> Result<Paving, JoinRefused>
    requires { a.now.root ≡ b.now.root }
    ensures root { IfOk result (λ p. p.root ≡ a.now.root) }
    ensures is_join { IfOk result (λ p. IsJoin a.now.tree b.now.tree p.tree) }
    ensures refusal { IfErr result (λ e. IsJoinRefusal a.now.tree b.now.tree e) }
    ensures laws { IfOk result (λ p. HasJoinLaws a.now.tree b.now.tree p.tree) }
    ensures no_stages { IfErr result (λ e. AreNoStages a.now.tree b.now.tree e) }
{
    let mut root = blank(alloc, a.dims())?;
    a.box_at(Path::root(), &mut root);
    let mut scratch = root.clone_of(alloc)?;
    let mut joined = Growth::open(alloc, root)?;
    let mut left = Walk::of(alloc, a)?;
    let mut right = Walk::of(alloc, b)?;
    let mut left_seen = left.next();
    let mut right_seen = right.next();
    while let Some(path) = joined.next_leaf() {
        let mine = outcome_from(alloc, &left, &left_seen, path, &mut scratch)?;
        let theirs = outcome_from(alloc, &right, &right_seen, path, &mut scratch)?;
        let outcome = match one_of(mine, theirs, path) {
            Ok(outcome) => outcome,
            Err(refused) => return Err(refused),
        };
        lay(&mut joined, outcome)?;
        left_seen = step_past(&mut left, left_seen, path);
        right_seen = step_past(&mut right, right_seen, path);
    }
    Ok(joined.finish())
}
