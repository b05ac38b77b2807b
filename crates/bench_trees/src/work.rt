//! What is measured.
ghost use Rattle.std.specs.Prelude.{◌≡◌, length, IfOk, IsSome, Some};
ghost use Rattle.pv_tree.specs.Trees.{subtree, shape_of};
ghost use Rattle.bench_trees.specs.Kept.{keeps_shape};

use pv_box::IBox;
use pv_interval::Interval;
use pv_join::{Audit, JoinRefused, audit, join};
use pv_num::{Memory, Num};
use pv_tree::{Counts, Path, Paving, Shape, Walk};
use std::alloc::Global;
use test_sample::{Above, grow, settle_first};

/// What is done to the tree.
#[derive(Clone, Copy, PartialEq, Eq)]
pub enum Work {
    Nothing,
    /// Builds the tree by `put` at the first open leaf.
    Settle,
    /// Builds it in preorder.
    Grow,
    /// Goes over its nodes in preorder, and reads each one's shape and boxes.
    Walk,
    /// Reads the same of each node by its path.
    Find,
    Count,
    Clone,
    Join,
    Audit,
}

impl Work {
    pub fn named(word: &str) -> Option<Work> {
        match word {
            "none" => Some(Work::Nothing),
            "settle" => Some(Work::Settle),
            "grow" => Some(Work::Grow),
            "walk" => Some(Work::Walk),
            "find" => Some(Work::Find),
            "count" => Some(Work::Count),
            "clone" => Some(Work::Clone),
            "join" => Some(Work::Join),
            "audit" => Some(Work::Audit),
            _ => None,
        }
    }
}

/// The settler of the combs: 8 cuts in the second place, and then 192 toward the first place's
/// lower end.
fn settler() -> Above
    ensures { result.dims ≡ 2 }
{
    Above::new(2, Num::fin(1, -500).unwrap_or(Num::ONE), 8, 200)
}

/// The box of [0,1] and [0,256].
fn root(alloc: Global) -> Result<IBox, Memory>
    ensures { IfOk result (λ b. length b ≡ 2) }
{
    let many = Num::fin(1, 8).unwrap_or(Num::ONE);
    let mut parts = Vec::new(alloc);
    parts.push(Interval::new(Num::ZERO, Num::ONE).unwrap_or(Interval::ALL))?;
    parts.push(Interval::new(Num::ZERO, many).unwrap_or(Interval::ALL))?;
    Ok(IBox::new(parts))
}

/// The tree, settled leaf after leaf.
fn combs(alloc: Global, settler: &Above) -> Result<Paving, Memory>
    requires { settler.now.dims ≡ 2 }
    ensures { IfOk result (λ p. length p.root ≡ 2) }
{
    let bx = root(alloc)?;
    let mut scratch = bx.clone_of(alloc)?;
    let mut paving = Paving::open(alloc, bx)?;
    settle_first(alloc, settler, &mut paving, 100_000, &mut scratch)?;
    Ok(paving)
}

/// The tree, grown in preorder.
fn grown(alloc: Global, settler: &Above) -> Result<Paving, Memory>
    requires { settler.now.dims ≡ 2 }
    ensures { IfOk result (λ p. length p.root ≡ 2) }
{
    let bx = root(alloc)?;
    let mut scratch = bx.clone_of(alloc)?;
    grow(alloc, settler, bx, 100_000, &mut scratch)
}

/// The counts with one more node of a shape.
fn counted(counts: Counts, shape: &Shape) -> Counts {
    let mut more = counts;
    match *shape {
        Shape::Absent => {}
        Shape::OpenLeaf => more.open_leaves = more.open_leaves.saturating_add(1),
        Shape::Removed => more.removed = more.removed.saturating_add(1),
        Shape::Inner => more.inner = more.inner.saturating_add(1),
        Shape::Small => more.small = more.small.saturating_add(1),
        Shape::Cut { .. } => more.cut = more.cut.saturating_add(1),
    }
    more
}

/// Whether a node of this shape kept something.
fn keeps(shape: &Shape) -> bool
    ensures { result ≡ keeps_shape shape.now }
{
    match *shape {
        Shape::Absent => false,
        Shape::OpenLeaf => false,
        Shape::Removed => false,
        Shape::Inner => true,
        Shape::Small => true,
        Shape::Cut { .. } => true,
    }
}

/// Reads the boxes of the node just visited.
fn read_here(walk: &Walk<'_>, shape: &Shape, scratch: &mut IBox)
    requires shape { shape.now ≡ shape_of (Some walk.now.here.tree) }
    requires scratch { length scratch.old ≡ length walk.now.root }
    ensures { length scratch.new ≡ length scratch.old }
{
    walk.write_box(scratch);
    if keeps(shape) {
        walk.write_to(scratch);
    }
}

/// Reads the boxes of the node at a path.
fn read_at(tree: &Paving, path: Path, scratch: &mut IBox)
    requires there { IsSome (subtree tree.now.tree path) }
    requires scratch { length scratch.old ≡ length tree.now.root }
    ensures { length scratch.new ≡ length scratch.old }
{
    let shape = tree.shape_at(path);
    tree.box_at(path, scratch);
    if keeps(&shape) {
        tree.to_at(path, scratch);
    }
}

/// Reads the boxes of each node in one walk.
fn walk_over(alloc: Global, tree: &Paving) -> Result<Counts, Memory>
    requires { length tree.now.root ≡ 2 }
{
    let mut scratch = root(alloc)?;
    let mut counts = NONE;
    let mut walk = Walk::of(alloc, tree)?;
    while let Some(shape) = walk.next() {
        read_here(&walk, &shape, &mut scratch);
        counts = counted(counts, &shape);
    }
    Ok(counts)
}

/// Reads the boxes of each node by its path.
fn find_each(alloc: Global, tree: &Paving) -> Result<Counts, Memory>
    requires { length tree.now.root ≡ 2 }
{
    let mut scratch = root(alloc)?;
    let mut counts = NONE;
    let mut walk = Walk::of(alloc, tree)?;
    while let Some(shape) = walk.next() {
        read_at(tree, walk.path(), &mut scratch);
        counts = counted(counts, &shape);
    }
    Ok(counts)
}

/// Does the work once, and counts the nodes of what comes of it.
fn once(alloc: Global, work: Work, settler: &Above, tree: &Paving) -> Result<Counts, Memory>
    requires dims { settler.now.dims ≡ 2 }
    requires root { length tree.now.root ≡ 2 }
{
    match work {
        Work::Nothing => Ok(tree.counts()),
        Work::Count => Ok(tree.counts()),
        Work::Settle => {
            let again = combs(alloc, settler)?;
            Ok(again.counts())
        }
        Work::Grow => {
            let again = grown(alloc, settler)?;
            Ok(again.counts())
        }
        Work::Walk => walk_over(alloc, tree),
        Work::Find => find_each(alloc, tree),
        Work::Clone => {
            let copy = tree.clone_of(alloc)?;
            Ok(copy.counts())
        }
        Work::Join => match join(alloc, tree, tree) {
            Ok(joined) => Ok(joined.counts()),
            Err(JoinRefused::Memory) => Err(Memory),
            Err(JoinRefused::Disagree { path: _ }) => Ok(NONE),
        },
        Work::Audit => match audit(alloc, settler, tree)? {
            Audit::Honest => Ok(tree.counts()),
            Audit::DiffersAt {
                path: _,
                outcome: _,
            } => Ok(NONE),
        },
    }
}

const NONE: Counts = Counts {
    cut: 0,
    removed: 0,
    inner: 0,
    small: 0,
    open_leaves: 0,
};

/// The counts after the work was done `times` times.
pub fn after(alloc: Global, work: Work, times: u64) -> Result<Counts, Memory> {
    let settler = settler();
    let tree = combs(alloc, &settler)?;
    let mut counts = tree.counts();
    for _ in 0..times {
        counts = once(alloc, work, &settler, &tree)?;
    }
    Ok(counts)
}
