//! A worked paving with a node of every shape, whose lines several workers make.
ghost use Rattle.std.specs.Prelude.{◌≡◌, ◌≤◌};

use crate::rounds::{nodes_of, write_nodes, write_rounds};
use crate::spread::spread;
use crate::texts::no_texts;
use pv_box::IBox;
use pv_file::{Version, read};
use pv_interval::Interval;
use pv_io::{FileWriteRefused, MemSink, PlainSink, Sink};
use pv_num::{Memory, Num};
use pv_tree::Paving;
use std::alloc::Global;
use std::test::Fail;
use std::thread::Threads;

const HEADER: &str =
    "paving 1\nidentity 2a2a2a2a2a2a2a2a2a2a2a2a2a2a2a2a2a2a2a2a2a2a2a2a2a2a2a2a2a2a2a2a\n";

const ONE: &str =
    "C 0 1:-1 0:0 1:0\nC 0 1:-2 0:0 1:-1\nX\nO\nC 0 3:-2 1:-1 1:0\nS 1:-1 3:-2\nI 7:-3 1:0\n";

const TWO: &str = "C 0 1:-1 = =\nC 0 1:-2 = =\nX\nO\nC 0 3:-2 = =\nS = =\nI 7:-3 =\n";

const FIRST_THREE: &str = "C 0 1:-1 0:0 1:0\nC 0 1:-2 0:0 1:-1\nX\n";

// The box [0,1].
fn unit(alloc: Global) -> Result<IBox, Memory> {
    let part = Interval::new(Num::ZERO, Num::ONE).unwrap_or(Interval::ALL);
    Ok(IBox::new(vec![in alloc; part]?))
}

// The paving of [0,1] with these lines.
fn paving(alloc: Global) -> Result<Paving, Fail> {
    let root = unit(alloc)?;
    let mut text = Vec::from_slice(alloc, HEADER.as_bytes())?;
    text.extend_from_slice(ONE.as_bytes())?;
    Ok(read(alloc, &text, [0x2a; 32], &root)?)
}

// The lines by `workers` workers.
fn lines_by<R: Threads + Sync>(
    rt: &R,
    alloc: Global,
    p: &Paving,
    version: Version,
    workers: u32,
) -> Result<PlainSink, Fail>
    requires one { 1 ≤ workers }
    requires few { workers ≤ 16 }
{
    let mut sink = PlainSink::new(alloc);
    write_nodes(rt, alloc, p, version, workers, &mut sink)?;
    Ok(sink)
}

#[test]
fn lines_by_one_two_four_and_sixteen(rt: HostRuntime) -> Result<(), Fail> {
    let alloc = rt.alloc();
    let p = paving(alloc)?;
    for workers in [1u32, 2, 4, 16] {
        let one = lines_by(&rt, alloc, &p, Version::One, workers)?;
        assert_eq!(rt; one.bytes(), ONE.as_bytes(), "{workers}");
        let two = lines_by(&rt, alloc, &p, Version::Two, workers)?;
        assert_eq!(rt; two.bytes(), TWO.as_bytes(), "{workers}");
    }
    Ok(())
}

// The lines by scribes that take so many nodes at a turn.
fn lines_in_shares<K: Sink, R: Threads + Sync>(
    rt: &R,
    alloc: Global,
    p: &Paving,
    scribes: u32,
    share: u64,
    sink: &mut K,
) -> Result<(), FileWriteRefused>
    requires one { 1 ≤ scribes }
    requires few { scribes ≤ 16 }
    requires some { 1 ≤ share }
    requires small { share ≤ 10 }
{
    let mut row = spread(alloc, p, scribes, share)?;
    let mut texts = no_texts(alloc, scribes)?;
    write_rounds(
        rt,
        p,
        Version::One,
        nodes_of(p),
        share,
        row.as_mut_slice(),
        texts.as_mut_slice(),
        sink,
    )
}

#[test]
fn shares_that_divide_the_nodes_and_others(rt: HostRuntime) -> Result<(), Fail> {
    let alloc = rt.alloc();
    let p = paving(alloc)?;
    for (scribes, share) in [(1u32, 1u64), (2, 1), (2, 3), (3, 2), (4, 7), (16, 1)] {
        let mut sink = PlainSink::new(alloc);
        lines_in_shares(&rt, alloc, &p, scribes, share, &mut sink)?;
        assert_eq!(rt; sink.bytes(), ONE.as_bytes(), "{scribes} {share}");
    }
    Ok(())
}

#[test]
fn one_node(rt: HostRuntime) -> Result<(), Fail> {
    let alloc = rt.alloc();
    let p = Paving::open(alloc, unit(alloc)?)?;
    let lines = lines_by(&rt, alloc, &p, Version::Two, 4)?;
    assert_eq!(rt; lines.bytes(), b"O\n".as_slice());
    Ok(())
}

#[test]
fn sink_that_fails_under_way(rt: HostRuntime) -> Result<(), Fail> {
    let alloc = rt.alloc();
    let p = paving(alloc)?;
    let mut sink = MemSink::new(alloc, vec![in alloc; 3]?);
    let answer = lines_in_shares(&rt, alloc, &p, 2, 1, &mut sink);
    assert_eq!(rt; answer, Err(FileWriteRefused::WriteFailed));
    assert_eq!(rt; sink.bytes(), FIRST_THREE.as_bytes());
    Ok(())
}
