//! Walks over two pavings whose nodes are laid into a growing one.
ghost use Rattle.std.specs.Prelude.{◌≡◌, IfOk, OnOk, IfErr, IsSome, [], Some, length};
ghost use Rattle.pv_tree.specs.Trees.{outcome_at, to_at, top};
ghost use Rattle.pv_join.specs.Meetings.{IsMet, IsSeen, IsOneOf, IsApart, CanLay, laid_next, HasStepped};

use crate::merge::JoinRefused;
use crate::outcomes::same_outcome;
use pv_box::IBox;
use pv_num::Memory;
use pv_tree::{Growth, Outcome, Path, Shape, Walk};
use std::alloc::Global;

/// The outcome at a path of the tree that a walk goes through, where the walk stands at the next
/// node of this shape that is to be laid. None where the node is open, or the tree has no such
/// path. `scratch` is written over.
pub(crate) fn outcome_from(
    alloc: Global,
    walk: &Walk<'_>,
    seen: &Option<Shape>,
    path: Path,
    scratch: &mut IBox,
) -> Result<Option<Outcome>, Memory>
    requires met { IsMet walk.now seen.now path }
    requires scratch { length scratch.old ≡ length walk.now.root }
    ensures outcome { IfOk result (λ o. o ≡ outcome_at walk.now.tree path) }
    ensures scratch { length scratch.new ≡ length scratch.old }
{
    match seen {
        None => Ok(None),
        Some(shape) => {
            if walk.path() == path {
                outcome_here(alloc, walk, shape, scratch)
            } else {
                Ok(None)
            }
        }
    }
}

// The outcome of the node that a walk visited, which has this shape.
fn outcome_here(
    alloc: Global,
    walk: &Walk<'_>,
    shape: &Shape,
    scratch: &mut IBox,
) -> Result<Option<Outcome>, Memory>
    requires seen { IsSeen walk.now shape.now }
    requires scratch { length scratch.old ≡ length walk.now.root }
    ensures outcome { IfOk result (λ o. o ≡ top walk.now.here.tree) }
    ensures scratch { length scratch.new ≡ length scratch.old }
{
    match shape {
        Shape::Absent => Ok(None),
        Shape::OpenLeaf => Ok(None),
        Shape::Removed => Ok(Some(Outcome::Removed)),
        Shape::Inner => {
            let to = kept_here(alloc, walk, scratch)?;
            Ok(Some(Outcome::Inner { to }))
        }
        Shape::Small => {
            let to = kept_here(alloc, walk, scratch)?;
            Ok(Some(Outcome::Small { to }))
        }
        Shape::Cut { var, at } => {
            let to = kept_here(alloc, walk, scratch)?;
            Ok(Some(Outcome::Cut {
                to,
                var: *var,
                at: *at,
            }))
        }
    }
}

// What the settled node that a walk visited kept of its box. `scratch` is written over.
fn kept_here(alloc: Global, walk: &Walk<'_>, scratch: &mut IBox) -> Result<IBox, Memory>
    requires there { IsSome (to_at walk.now.here.tree []) }
    requires scratch { length scratch.old ≡ length walk.now.root }
    ensures kept { IfOk result (λ b. to_at walk.now.here.tree [] ≡ Some b) }
    ensures scratch { length scratch.new ≡ length scratch.old }
{
    walk.write_to(scratch);
    scratch.clone_of(alloc)
}

/// The one of two outcomes that is there, or both, where they are the same.
pub(crate) fn one_of(
    mine: Option<Outcome>,
    theirs: Option<Outcome>,
    path: Path,
) -> Result<Option<Outcome>, JoinRefused>
    ensures one { IfOk result (λ o. IsOneOf mine theirs o) }
    ensures apart { IfErr result (λ e. IsApart mine theirs path e) }
{
    let Some(mine) = mine else {
        return Ok(theirs);
    };
    let Some(theirs) = theirs else {
        return Ok(Some(mine));
    };
    if same_outcome(&mine, &theirs) {
        Ok(Some(mine))
    } else {
        Err(JoinRefused::Disagree { path })
    }
}

/// Settles the leaf that comes next, or leaves it open.
pub(crate) fn lay(joined: &mut Growth, outcome: Option<Outcome>) -> Result<(), Memory>
    requires { CanLay joined.old outcome }
    ensures { OnOk result (joined.new ≡ laid_next joined.old outcome) }
{
    match outcome {
        None => {
            joined.pass();
            Ok(())
        }
        Some(outcome) => match joined.settle(outcome) {
            Ok(()) => Ok(()),
            Err(_) => Err(Memory),
        },
    }
}

/// Goes on to the next node where the walk stands at a path's node, and answers the shape of the
/// node at which it then stands.
pub(crate) fn step_past(walk: &mut Walk<'_>, seen: Option<Shape>, path: Path) -> Option<Shape>
    ensures stepped { HasStepped walk.old seen path walk.new result }
    ensures root { walk.new.root ≡ walk.old.root }
{
    match seen {
        None => None,
        Some(shape) => {
            if walk.path() == path {
                walk.next()
            } else {
                Some(shape)
            }
        }
    }
}
