//! Worked trees on the box [0,1]: made by `put`, in reserved room and from a stage, joined and
//! audited.
ghost use Rattle.std.specs.Prelude.{◌≡◌, ◌≤◌, Some, IsSome, [], length, IfOk};
ghost use Rattle.pv_tree.specs.Trees.{subtree, leaf, box_of, shape_of, to_at};

use pv_box::IBox;
use pv_interval::Interval;
use pv_join::{Audit, JoinRefused, audit, join};
use pv_num::{Memory, Num};
use pv_tree::{Path, Paving, Shape, Walk};
use std::alloc::Global;
use std::test::Fail;
use test_sample::{Above, grow, settle_first, settle_in_room};

/// The tree of the points from 1/4 on, as far as two cuts.
const QUARTER: &str = "C 0 1:-1 0:0 1:0\nC 0 1:-2 0:0 1:-1\nS 0:0 1:-2\nI 1:-2 1:-1\nI 1:-1 1:0\n";

fn number(m: i64, e: i16) -> Num {
    Num::fin(m, e).unwrap_or(Num::ZERO)
}

/// The box [0,1].
fn unit_box(alloc: Global) -> Result<IBox, Memory>
    ensures { IfOk result (λ b. length b ≡ 1) }
{
    let mut parts = Vec::new(alloc);
    parts.push(Interval::new(Num::ZERO, Num::ONE).unwrap_or(Interval::ALL))?;
    Ok(IBox::new(parts))
}

/// The settler of the points from a limit on.
fn from_limit(limit: Num, depth: u32) -> Above
    requires some { 1 ≤ depth }
    requires few { depth ≤ 200 }
    ensures dims { result.dims ≡ 1 }
{
    Above::new(1, limit, 0, depth)
}

/// The paving of a box after `most` settlings.
fn paved(alloc: Global, root: &IBox, settler: &Above, most: u32) -> Result<Paving, Memory>
    requires { length root.now ≡ settler.now.dims }
    ensures { IfOk result (λ p. p.root ≡ root.now) }
{
    let mut scratch = root.clone_of(alloc)?;
    let mut paving = Paving::open(alloc, root.clone_of(alloc)?)?;
    settle_first(alloc, settler, &mut paving, most, &mut scratch)?;
    Ok(paving)
}

/// Writes a space and the ends of the box's one place.
fn write_ends(bx: &IBox, out: &mut Vec<u8>) -> Result<(), Memory> {
    let _places = bx.dims();
    let place = bx.get(0);
    out.push(b' ')?;
    place.lo().write_text(out)?;
    out.push(b' ')?;
    place.hi().write_text(out)
}

/// Writes what the node just visited kept of its box.
fn write_to(walk: &Walk<'_>, scratch: &mut IBox, out: &mut Vec<u8>) -> Result<(), Memory>
    requires there { IsSome (to_at walk.now.here.tree []) }
    requires scratch { length scratch.old ≡ length walk.now.root }
    ensures { length scratch.new ≡ length scratch.old }
{
    walk.write_to(scratch);
    write_ends(scratch, out)
}

/// Writes the line of the node just visited, which has this shape.
fn write_node(
    walk: &Walk<'_>,
    shape: Shape,
    scratch: &mut IBox,
    out: &mut Vec<u8>,
) -> Result<(), Memory>
    requires shape { shape ≡ shape_of (Some walk.now.here.tree) }
    requires scratch { length scratch.old ≡ length walk.now.root }
    ensures { length scratch.new ≡ length scratch.old }
{
    match shape {
        Shape::Absent => return Ok(()),
        Shape::OpenLeaf => out.push(b'O')?,
        Shape::Removed => out.push(b'R')?,
        Shape::Inner => {
            out.push(b'I')?;
            write_to(walk, scratch, out)?;
        }
        Shape::Small => {
            out.push(b'S')?;
            write_to(walk, scratch, out)?;
        }
        Shape::Cut { var: _, at } => {
            out.extend_from_slice(b"C 0 ")?;
            at.write_text(out)?;
            write_to(walk, scratch, out)?;
        }
    }
    out.push(b'\n')?;
    Ok(())
}

/// Whether a paving's nodes have these lines in preorder.
fn has_lines(alloc: Global, paving: &Paving, text: &str) -> Result<bool, Memory>
    requires { length paving.now.root ≡ 1 }
{
    let mut scratch = unit_box(alloc)?;
    let mut out = Vec::new(alloc);
    let mut walk = Walk::of(alloc, paving)?;
    while let Some(shape) = walk.next() {
        write_node(&walk, shape, &mut scratch, &mut out)?;
    }
    Ok(out.as_slice() == text.as_bytes())
}

/// Whether a path has this text.
fn is_path(alloc: Global, path: Path, text: &str) -> Result<bool, Memory> {
    let mut out = Vec::new(alloc);
    path.write_text(&mut out)?;
    Ok(out.as_slice() == text.as_bytes())
}

/// A stage over the box of an open leaf.
fn stage_of(alloc: Global, settler: &Above, paving: &Paving, path: Path) -> Result<Paving, Memory>
    requires open { subtree paving.now.tree path ≡ Some leaf }
    requires dims { length paving.now.root ≡ 1 }
    requires settler { settler.now.dims ≡ 1 }
    ensures { IfOk result (λ p. p.root ≡ box_of paving.now.root paving.now.tree path) }
{
    let mut root = unit_box(alloc)?;
    paving.box_at(path, &mut root);
    let mut scratch = unit_box(alloc)?;
    let mut stage = Paving::open(alloc, root)?;
    settle_first(alloc, settler, &mut stage, 10, &mut scratch)?;
    Ok(stage)
}

/// Settles the leaf at the high child of the root.
fn settle_last(alloc: Global, settler: &Above, paving: &mut Paving) -> Result<(), Memory>
    requires dims { length paving.old.root ≡ settler.now.dims }
    requires place { length paving.old.root ≡ 1 }
    ensures root { paving.new.root ≡ paving.old.root }
{
    let mut scratch = unit_box(alloc)?;
    let high = Path::ROOT.high();
    if let Shape::OpenLeaf = paving.shape_at(high) {
        paving.settle_leaf(alloc, settler, high, &mut scratch)?;
    }
    Ok(())
}

/// Puts a stage in the place of the first open leaf, at a depth of one step.
fn graft_first(alloc: Global, paving: &mut Paving) -> Result<(), Fail>
    requires { length paving.old.root ≡ 1 }
    ensures { paving.new.root ≡ paving.old.root }
{
    match paving.first_open() {
        Some(path) => {
            let stage = stage_of(alloc, &from_limit(number(1, -2), 1), paving, path)?;
            graft_short(paving, path, &stage)
        }
        None => Err("no open leaf".into()),
    }
}

/// Grafts a stage with few nodes.
fn graft_short(paving: &mut Paving, path: Path, stage: &Paving) -> Result<(), Fail>
    requires open { subtree paving.old.tree path ≡ Some leaf }
    requires root { stage.now.root ≡ box_of paving.old.root paving.old.tree path }
    ensures root { paving.new.root ≡ paving.old.root }
{
    let settled = stage.counts().settled();
    if settled > 100 || path.len() > 100 {
        return Err("a long stage".into());
    }
    paving.reserve(settled)?;
    paving.graft(path, stage);
    Ok(())
}

/// Whether an audit finds its first difference at the path of this text; none where the text is
/// empty.
fn audits_to(alloc: Global, settler: &Above, paving: &Paving, text: &str) -> Result<bool, Memory>
    requires { length paving.now.root ≡ settler.now.dims }
{
    match audit(alloc, settler, paving)? {
        Audit::Honest => Ok(text.is_empty()),
        Audit::DiffersAt { path, outcome: _ } => is_path(alloc, path, text),
    }
}

/// Whether a refusal is a disagreement at the path of this text.
fn is_disagreement(alloc: Global, refusal: JoinRefused, text: &str) -> Result<bool, Memory> {
    match refusal {
        JoinRefused::Memory => Err(Memory),
        JoinRefused::Disagree { path } => is_path(alloc, path, text),
    }
}

/// Whether the join of two pavings has these lines, or the path of this text is where they
/// disagree.
fn joins_to(alloc: Global, a: &Paving, b: &Paving, text: &str) -> Result<bool, Memory>
    requires same { a.now.root ≡ b.now.root }
    requires places { length a.now.root ≡ 1 }
{
    match join(alloc, a, b) {
        Ok(joined) => has_lines(alloc, &joined, text),
        Err(refusal) => is_disagreement(alloc, refusal, text),
    }
}

/// A stage of the open box after `most` settlings is honest.
fn is_honest(alloc: Global, root: &IBox, settler: &Above, most: u32) -> Result<bool, Memory>
    requires { length root.now ≡ settler.now.dims }
{
    let stage = paved(alloc, root, settler, most)?;
    audits_to(alloc, settler, &stage, "")
}

#[test]
fn reserved_room_makes_the_tree_of_put(rt: HostRuntime) -> Result<(), Fail> {
    let alloc = rt.alloc();
    let settler = from_limit(number(1, -2), 2);
    let root = unit_box(alloc)?;
    let put = paved(alloc, &root, &settler, 100)?;
    assert!(rt; has_lines(alloc, &put, QUARTER)?);
    let mut scratch = root.clone_of(alloc)?;
    let mut reserved = Paving::open(alloc, root)?;
    reserved.reserve(5)?;
    settle_in_room(alloc, &settler, &mut reserved, 5, &mut scratch)?;
    assert!(rt; has_lines(alloc, &reserved, QUARTER)?);
    assert!(rt; reserved.counts() == put.counts() && reserved.first_open().is_none());
    Ok(())
}

#[test]
fn a_paving_grows_in_preorder(rt: HostRuntime) -> Result<(), Fail> {
    let alloc = rt.alloc();
    let settler = from_limit(number(1, -2), 2);
    let root = unit_box(alloc)?;
    let mut scratch = root.clone_of(alloc)?;
    let grown = grow(alloc, &settler, root, 100, &mut scratch)?;
    assert!(rt; has_lines(alloc, &grown, QUARTER)?);
    assert!(rt; grown.counts().settled() == 5 && grown.first_open().is_none());
    Ok(())
}

#[test]
fn a_copy_is_equal(rt: HostRuntime) -> Result<(), Fail> {
    let alloc = rt.alloc();
    let settler = from_limit(number(1, -2), 2);
    let root = unit_box(alloc)?;
    let copy = paved(alloc, &root, &settler, 100)?.clone_of(alloc)?;
    assert!(rt; has_lines(alloc, &copy, QUARTER)?);
    Ok(())
}

#[test]
fn a_stage_grows_in_a_leaf(rt: HostRuntime) -> Result<(), Fail> {
    let alloc = rt.alloc();
    let settler = from_limit(number(1, -2), 2);
    let root = unit_box(alloc)?;
    let mut paving = paved(alloc, &root, &settler, 1)?;
    graft_first(alloc, &mut paving)?;
    graft_first(alloc, &mut paving)?;
    assert!(rt; has_lines(alloc, &paving, QUARTER)?);
    assert!(rt; paving.counts().settled() == 5 && paving.first_open().is_none());
    Ok(())
}

#[test]
fn an_audit_finds_the_first_difference(rt: HostRuntime) -> Result<(), Fail> {
    let alloc = rt.alloc();
    let root = unit_box(alloc)?;
    let settler = from_limit(number(1, -2), 2);
    for most in 0..6 {
        assert!(rt; is_honest(alloc, &root, &settler, most)?);
    }
    let paving = paved(alloc, &root, &settler, 5)?;
    let later = from_limit(number(3, -3), 2);
    assert!(rt; audits_to(alloc, &later, &paving, "00")?);
    let shallow = from_limit(number(1, -2), 1);
    assert!(rt; audits_to(alloc, &shallow, &paving, "0")?);
    Ok(())
}

#[test]
fn stages_join_in_both_orders(rt: HostRuntime) -> Result<(), Fail> {
    let alloc = rt.alloc();
    let root = unit_box(alloc)?;
    let settler = from_limit(number(1, -2), 2);
    let left = paved(alloc, &root, &settler, 4)?;
    let mut right = paved(alloc, &root, &settler, 1)?;
    settle_last(alloc, &settler, &mut right)?;
    assert!(rt; joins_to(alloc, &left, &right, QUARTER)?);
    assert!(rt; joins_to(alloc, &right, &left, QUARTER)?);
    Ok(())
}

#[test]
fn other_settlers_disagree_first_where_preorder_says(rt: HostRuntime) -> Result<(), Fail> {
    let alloc = rt.alloc();
    let root = unit_box(alloc)?;
    let left = paved(alloc, &root, &from_limit(number(1, -2), 2), 100)?;
    let right = paved(alloc, &root, &from_limit(number(3, -3), 2), 100)?;
    assert!(rt; joins_to(alloc, &left, &right, "00")?);
    assert!(rt; joins_to(alloc, &right, &left, "00")?);
    Ok(())
}
