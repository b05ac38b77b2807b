//! Two open pavings join.
use pv_box::IBox;
use pv_interval::Interval;
use pv_join::join;
use pv_tree::{Path, Paving};
use std::test::Fail;

#[test]
fn open_pavings_join(rt: HostRuntime) -> Result<(), Fail> {
    let mut parts = Vec::new(rt.alloc());
    parts.push(Interval::ALL)?;
    let root = IBox::new(parts);
    let copy = root.clone_of(rt.alloc())?;
    let left = Paving::open(rt.alloc(), root)?;
    let right = Paving::open(rt.alloc(), copy)?;
    let joined = join(rt.alloc(), &left, &right).ok().ok_or("no join")?;
    assert!(rt; joined.first_open() == Some(Path::ROOT));
    Ok(())
}
