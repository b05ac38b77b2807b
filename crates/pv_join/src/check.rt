//! The audit of a paving against a settler.
ghost use Rattle.std.specs.Prelude.{◌≡◌, ◌↔◌, IfOk, IsTrue, Some, length};
ghost use Rattle.pv_tree.specs.Trees.{top, shape_of};
ghost use Rattle.pv_tree.specs.Sets.{IsSound, Covers};
ghost use Rattle.pv_tree.specs.Pieces.{IsPiece};
ghost use Rattle.pv_join.specs.Audits.{IsVerdict, IsChecked, IsSoundIfHonest};

use crate::verdict::Audit;
use pv_box::IBox;
use pv_num::Memory;
use pv_tree::{Outcome, Paving, Settler, Shape, Walk, blank, settle_at};
use std::alloc::Global;

/// Whether the node just visited, which has this shape, is settled so. `scratch` takes what the
/// node kept.
fn shows(walk: &Walk<'_>, shape: Shape, outcome: &Outcome, scratch: &mut IBox) -> bool
    requires shape { shape ≡ shape_of (Some walk.now.here.tree) }
    requires scratch { length scratch.old ≡ length walk.now.root }
    ensures shows { IsTrue result ↔ (top walk.now.here.tree ≡ Some outcome.now) }
    ensures scratch { length scratch.new ≡ length scratch.old }
{
    match shape {
        Shape::Absent => false,
        Shape::OpenLeaf => false,
        Shape::Removed => match outcome {
            Outcome::Removed => true,
            _ => false,
        },
        Shape::Inner => {
            walk.write_to(scratch);
            match outcome {
                Outcome::Inner { to } => scratch.is_same(to),
                _ => false,
            }
        }
        Shape::Small => {
            walk.write_to(scratch);
            match outcome {
                Outcome::Small { to } => scratch.is_same(to),
                _ => false,
            }
        }
        Shape::Cut { var, at } => {
            walk.write_to(scratch);
            match outcome {
                Outcome::Cut {
                    to,
                    var: other_var,
                    at: other_at,
                } => var == *other_var && at == *other_at && scratch.is_same(to),
                _ => false,
            }
        }
    }
}

/// The settler's outcome for the node just visited, which has this shape, where the node is settled
/// otherwise.
pub fn differing<S: Settler>(
    alloc: Global,
    settler: &S,
    walk: &Walk<'_>,
    shape: Shape,
    scratch: &mut IBox,
) -> Result<Option<Outcome>, Memory>
    requires shape { shape ≡ shape_of (Some walk.now.here.tree) }
    requires piece { IsPiece walk.now.root walk.now.tree walk.now.here }
    requires dims { length walk.now.root ≡ S.dims settler.now }
    requires scratch { length scratch.old ≡ length walk.now.root }
    ensures checked { IfOk result (λ o.
        IsChecked (S.settle_of settler.now) (S.depth_of settler.now) walk.now.here o) }
    ensures scratch { length scratch.new ≡ length scratch.old }
{
    if let Shape::OpenLeaf = shape {
        return Ok(None);
    }
    walk.write_box(scratch);
    let outcome = settle_at(alloc, settler, scratch, walk.path())?;
    if shows(walk, shape, &outcome, scratch) {
        Ok(None)
    } else {
        Ok(Some(outcome))
    }
}

/// Whether a paving is a stage of its open root box by a settler. Then it covers its box, and it is
/// sound.
pub fn audit<S: Settler>(alloc: Global, settler: &S, paving: &Paving) -> Result<Audit, Memory>
    requires { length paving.now.root ≡ S.dims settler.now }
    ensures verdict { IfOk result (λ v.
        IsVerdict (S.settle_of settler.now) (S.depth_of settler.now)
        paving.now.root paving.now.tree v) }
    ensures covers { Covers paving.now.root paving.now.tree }
    ensures sound { IfOk result (λ v.
        IsSoundIfHonest (S.inside settler.now) paving.now.root paving.now.tree v) }
{
    let mut scratch = blank(alloc, paving.dims())?;
    let mut walk = Walk::of(alloc, paving)?;
    while let Some(shape) = walk.next() {
        match differing(alloc, settler, &walk, shape, &mut scratch)? {
            None => {}
            Some(outcome) => {
                let path = walk.path();
                return Ok(Audit::DiffersAt { path, outcome });
            }
        }
    }
    Ok(Audit::Honest)
}
