//! Hulls of what several programs left of a box.

ghost use Rattle.std.specs.Prelude.{◌≡◌, ◌↔◌, ◌<◌, ◌≤◌, length, IfOk, All, IsTrue, Some};
ghost use Rattle.pv_ctc.specs.Contracting.{hull_all, hull_with, q_hull_all};
ghost use Rattle.pv_ctc.specs.Steps.{IsStep};

use pv_box::IBox;
use pv_hc4::Revised;
use pv_num::Memory;
use std::alloc::Global;

// Makes the box the hull of others; empty where there are none.
pub(crate) fn take_hull(alloc: Global, found: &[IBox], bx: &mut IBox) -> Result<Revised, Memory>
    requires { All (λ b. length b ≡ length bx.old) found.now }
    ensures dims { length bx.new ≡ length bx.old }
    ensures step { IfOk result (λ r. IsStep (hull_all found.now) r bx.old bx.new) }
{
    if found.is_empty() {
        return Ok(Revised::Empty);
    }
    let mut hull = found[0].clone_of(alloc)?;
    for i in 1..found.len() {
        hull.hull(&found[i]);
    }
    Ok(replace(bx, &hull))
}

// Makes the box the q-hull of others; empty where that is.
pub(crate) fn take_q_hull(
    alloc: Global,
    q: u32,
    found: &[IBox],
    bx: &mut IBox,
) -> Result<Revised, Memory>
    requires q { 1 ≤ q }
    requires dims { All (λ b. length b ≡ length bx.old) found.now }
    ensures dims { length bx.new ≡ length bx.old }
    ensures step { IfOk result (λ r. IsStep (q_hull_all q found.now) r bx.old bx.new) }
{
    if found.is_empty() {
        return Ok(Revised::Empty);
    }
    match IBox::q_hull(alloc, q, found)? {
        Some(hull) => Ok(replace(bx, &hull)),
        None => Ok(Revised::Empty),
    }
}

// Makes the box another one.
fn replace(bx: &mut IBox, by: &IBox) -> Revised
    requires { length by.now ≡ length bx.old }
    ensures dims { length bx.new ≡ length bx.old }
    ensures step { IsStep (Some by.now) result bx.old bx.new }
{
    if bx.is_same(by) {
        return Revised::Kept;
    }
    bx.copy_from(by);
    Revised::Changed
}
