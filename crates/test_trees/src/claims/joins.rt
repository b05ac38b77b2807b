//! What joins and audits promise.
ghost use Rattle.std.specs.Prelude.{◌≡◌, length, IfOk, IfErr, Some};
ghost use Rattle.pv_tree.specs.Trees.{shape_of};
ghost use Rattle.pv_tree.specs.Pieces.{IsPiece};
ghost use Rattle.pv_join.specs.Audits.{IsVerdict, IsChecked};
ghost use Rattle.pv_join.specs.Joins.{IsJoin, IsJoinRefusal};

use pv_box::IBox;
use pv_join::{Audit, JoinRefused, audit, differing, join};
use pv_num::Memory;
use pv_tree::{Outcome, Paving, Settler, Shape, Walk};
use std::alloc::Global;

/// The join of two pavings.
pub fn joined(alloc: Global, a: &Paving, b: &Paving) -> Result<Paving, JoinRefused>
    requires { a.now.root ≡ b.now.root }
    ensures is_join { IfOk result (λ p. IsJoin a.now.tree b.now.tree p.tree) }
    ensures refusal { IfErr result (λ e. IsJoinRefusal a.now.tree b.now.tree e) }
{
    join(alloc, a, b)
}

/// Whether a paving is a settler's, and the first difference.
pub fn audited<S: Settler>(alloc: Global, settler: &S, paving: &Paving) -> Result<Audit, Memory>
    requires { length paving.now.root ≡ S.dims settler.now }
    ensures { IfOk result (λ v.
        IsVerdict (S.settle_of settler.now) (S.depth_of settler.now)
        paving.now.root paving.now.tree v) }
{
    audit(alloc, settler, paving)
}

/// The settler's outcome for the node where a walk is, where the node is settled otherwise.
pub fn difference<S: Settler>(
    alloc: Global,
    settler: &S,
    walk: &Walk<'_>,
    shape: Shape,
    scratch: &mut IBox,
) -> Result<Option<Outcome>, Memory>
    requires shape { shape ≡ shape_of (Some walk.now.here.tree) }
    requires piece { IsPiece walk.now.root walk.now.tree walk.now.here }
    requires dims { length walk.now.root ≡ S.dims settler.now }
    requires scratch { length scratch.old ≡ length walk.now.root }
    ensures { IfOk result (λ o.
        IsChecked (S.settle_of settler.now) (S.depth_of settler.now) walk.now.here o) }
{
    differing(alloc, settler, walk, shape, scratch)
}
