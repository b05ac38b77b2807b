//! Paths as text and in order, a batch, and a growth whose leaf is passed.
use pv_box::IBox;
use pv_interval::Interval;
use pv_tree::{Batch, Growth, Path, Shape, Walk};
use std::test::Fail;

#[test]
fn paths_and_batches(rt: HostRuntime) -> Result<(), Fail> {
    let mut text = Vec::new(rt.alloc());
    let path = Path::ROOT.low().high();
    Path::ROOT.write_text(&mut text)?;
    path.then(path).write_text(&mut text)?;
    assert_eq!(rt; text.as_slice(), b".0101".as_slice());
    assert!(rt; Path::ROOT < path && path < Path::ROOT.high());
    let mut batch = Batch::new(rt.alloc())?;
    batch.push(7u8);
    assert_eq!(rt; batch.len(), 1);
    assert_eq!(rt; batch.pop(), Some(7));
    assert_eq!(rt; batch.pop(), None);
    Ok(())
}

#[test]
fn a_leaf_is_passed(rt: HostRuntime) -> Result<(), Fail> {
    let mut parts = Vec::new(rt.alloc());
    parts.push(Interval::ALL)?;
    let mut growth = Growth::open(rt.alloc(), IBox::new(parts))?;
    assert!(rt; growth.next_leaf() == Some(Path::ROOT));
    growth.pass();
    assert!(rt; growth.next_leaf().is_none());
    assert_eq!(rt; growth.counts().open_leaves, 1);
    let paving = growth.finish();
    assert!(rt; paving.first_open() == Some(Path::ROOT));
    let mut walk = Walk::of(rt.alloc(), &paving)?;
    assert!(rt; matches!(walk.next(), Some(Shape::OpenLeaf)));
    assert!(rt; walk.next().is_none());
    Ok(())
}
