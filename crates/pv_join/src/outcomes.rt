//! Outcomes of a paving's nodes, and when two outcomes are the same.
ghost use Rattle.std.specs.Prelude.{◌≡◌, ◌+◌, ◌<◌, ◌≤◌, ◌↔◌, IsTrue, IfOk, IsSome, Some, length, vec_len};
ghost use Rattle.pv_tree.specs.Trees.{subtree, outcome_at, to_at};

use pv_box::IBox;
use pv_num::Memory;
use pv_tree::{Outcome, Path, Paving, Shape, blank};
use std::alloc::Global;

/// What the settled node at a path kept.
fn kept(alloc: Global, paving: &Paving, path: Path) -> Result<IBox, Memory>
    requires { IsSome (to_at paving.now.tree path) }
    ensures { IfOk result (λ b. to_at paving.now.tree path ≡ Some b) }
{
    let mut to = blank(alloc, paving.dims())?;
    paving.to_at(path, &mut to);
    Ok(to)
}

/// The outcome of the node at a path; None where it is not settled or not there.
pub(crate) fn outcome_of(
    alloc: Global,
    paving: &Paving,
    path: Path,
) -> Result<Option<Outcome>, Memory>
    ensures { IfOk result (λ o. o ≡ outcome_at paving.now.tree path) }
{
    match paving.shape_at(path) {
        Shape::Absent => Ok(None),
        Shape::OpenLeaf => Ok(None),
        Shape::Removed => Ok(Some(Outcome::Removed)),
        Shape::Inner => {
            let to = kept(alloc, paving, path)?;
            Ok(Some(Outcome::Inner { to }))
        }
        Shape::Small => {
            let to = kept(alloc, paving, path)?;
            Ok(Some(Outcome::Small { to }))
        }
        Shape::Cut { var, at } => {
            let to = kept(alloc, paving, path)?;
            Ok(Some(Outcome::Cut { to, var, at }))
        }
    }
}

/// Two outcomes are the same.
pub(crate) fn same_outcome(a: &Outcome, b: &Outcome) -> bool
    ensures { IsTrue result ↔ (a.now ≡ b.now) }
{
    match a {
        Outcome::Removed => match b {
            Outcome::Removed => true,
            _ => false,
        },
        Outcome::Inner { to } => match b {
            Outcome::Inner { to: other } => to.is_same(other),
            _ => false,
        },
        Outcome::Small { to } => match b {
            Outcome::Small { to: other } => to.is_same(other),
            _ => false,
        },
        Outcome::Cut { to, var, at } => match b {
            Outcome::Cut {
                to: other,
                var: other_var,
                at: other_at,
            } => *var == *other_var && *at == *other_at && to.is_same(other),
            _ => false,
        },
    }
}
