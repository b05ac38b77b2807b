//! Worked files on the boxes [0,1] and [0,4]: read, written again, and faults with their lines.
ghost use Rattle.std.specs.Prelude.{◌≡◌, ◌<◌, ◌≤◌, IfOk, length};

use itoa::Buffer;
use pv_box::IBox;
use pv_file::*;
use pv_interval::Interval;
use pv_io::{MemSink, PlainSink, Sink};
use pv_num::{Memory, Num};
use pv_tree::{NodeLimit, Path, Paving};
use std::alloc::Global;
use std::process::Abort;
use std::test::Fail;

/// The lines of the tree of the points from 1/4 on, as far as two cuts, in both versions.
const QUARTER: &str = "C 0 1:-1 0:0 1:0\nC 0 1:-2 0:0 1:-1\nS 0:0 1:-2\nI 1:-2 1:-1\nI 1:-1 1:0\n";

const QUARTER_TWO: &str = "C 0 1:-1 = =\nC 0 1:-2 = =\nS = =\nI = =\nI = =\n";

const IDENTITY: [u8; 32] = [0x2a; 32];

const HEADER_ONE: &str =
    "paving 1\nidentity 2a2a2a2a2a2a2a2a2a2a2a2a2a2a2a2a2a2a2a2a2a2a2a2a2a2a2a2a2a2a2a2a\n";

const HEADER_TWO: &str =
    "paving 2\nidentity 2a2a2a2a2a2a2a2a2a2a2a2a2a2a2a2a2a2a2a2a2a2a2a2a2a2a2a2a2a2a2a2a\n";

/// The box [0,hi].
fn box_to(alloc: Global, hi: Num) -> Result<IBox, Memory> {
    let mut parts = Vec::new(alloc);
    parts.push(Interval::new(Num::ZERO, hi).unwrap_or(Interval::ALL))?;
    Ok(IBox::new(parts))
}

fn text_of(alloc: Global, header: &str, lines: &str) -> Result<Vec<u8>, Memory> {
    let mut text = Vec::from_slice(alloc, header.as_bytes())?;
    text.extend_from_slice(lines.as_bytes())?;
    Ok(text)
}

fn refusal_of(alloc: Global, text: &[u8], root: &IBox) -> Option<FileRefused> {
    read(alloc, text, IDENTITY, root).err()
}

fn read_lines(
    alloc: Global,
    header: &str,
    lines: &str,
    root: &IBox,
) -> Result<Option<FileRefused>, Memory> {
    let text = text_of(alloc, header, lines)?;
    Ok(refusal_of(alloc, &text, root))
}

fn bad(line: u64) -> Option<FileRefused> {
    Some(FileRefused::BadLine { line })
}

fn written(alloc: Global, paving: &Paving) -> Result<PlainSink, Fail> {
    let mut sink = PlainSink::new(alloc);
    write(alloc, paving, IDENTITY, &mut sink)?;
    Ok(sink)
}

#[test]
fn both_versions_are_read(rt: HostRuntime) -> Result<(), Fail> {
    let alloc = rt.alloc();
    let root = box_to(alloc, Num::ONE)?;
    let two = text_of(alloc, HEADER_TWO, QUARTER_TWO)?;
    let first = text_of(alloc, HEADER_ONE, QUARTER)?;
    for text in [&first, &two] {
        let paving = read(alloc, text, IDENTITY, &root)?;
        assert_eq!(rt; written(alloc, &paving)?.bytes(), two.as_slice());
        let mut lines = PlainSink::new(alloc);
        write_lines(alloc, &paving, &mut lines)?;
        assert_eq!(rt; lines.bytes(), QUARTER.as_bytes());
    }
    Ok(())
}

#[test]
fn faults_have_their_lines(rt: HostRuntime) -> Result<(), Fail> {
    let alloc = rt.alloc();
    let unit = box_to(alloc, Num::ONE)?;
    let four = box_to(alloc, Num::fin(1, 2).unwrap_or(Num::ONE))?;
    let faults = [
        (HEADER_ONE, "C 0 2:-2 0:0 1:0\nO\nO\n", &unit, 3),
        (HEADER_ONE, "C 0 1:0 0:0 1:0\nO\nO\n", &unit, 3),
        (HEADER_TWO, "I 0:0 1:0\n", &four, 3),
        (HEADER_ONE, "I = 1:0\n", &four, 3),
        (HEADER_ONE, "O\nO\n", &unit, 4),
        (HEADER_TWO, "C 0 1:-1 = =\nO\n", &unit, 5),
        ("", "", &unit, 1),
    ];
    for (header, lines, root, line) in faults {
        assert_eq!(rt;
            read_lines(alloc, header, lines, root)?,
            bad(line),
            "{lines}"
        );
    }
    assert_eq!(rt; read_lines(alloc, HEADER_TWO, "I = 1:0\n", &four)?, None);
    let other = text_of(alloc, HEADER_TWO, QUARTER_TWO)?;
    let refusal = read(alloc, &other, [0x2b; 32], &unit).err();
    assert_eq!(rt; refusal, Some(FileRefused::WrongIdentity));
    Ok(())
}

// How many line feeds there are before a byte.
fn feeds(text: &[u8], end: usize) -> u64 {
    let mut count = 0u64;
    for (i, byte) in text.iter().enumerate() {
        if i < end && *byte == b'\n' {
            count = count.saturating_add(1);
        }
    }
    count
}

#[test]
fn a_cut_is_in_its_line(rt: HostRuntime) -> Result<(), Fail> {
    let alloc = rt.alloc();
    let root = box_to(alloc, Num::ONE)?;
    let text = text_of(alloc, HEADER_TWO, QUARTER_TWO)?;
    for end in 0..text.len() {
        let line = feeds(&text, end).saturating_add(1);
        let front = text.get(..end).unwrap_or(&[]);
        assert_eq!(rt; refusal_of(alloc, front, &root), bad(line), "{end}");
    }
    Ok(())
}

// Each byte of a text, made another one, is bad in its line.
fn no_byte_is_another(rt: &impl Abort, alloc: Global, text: &[u8]) -> Result<(), Fail> {
    let root = box_to(alloc, Num::ONE)?;
    for at in 0..text.len() {
        let mut changed = text.to_vec(alloc)?;
        if let Some(byte) = changed.get_mut(at) {
            *byte = b'#';
        }
        let line = feeds(text, at).saturating_add(1);
        assert_eq!(rt; refusal_of(alloc, &changed, &root), bad(line), "{at}");
    }
    Ok(())
}

#[test]
fn another_byte_is_bad_in_its_line(rt: HostRuntime) -> Result<(), Fail> {
    let alloc = rt.alloc();
    no_byte_is_another(&rt, alloc, &text_of(alloc, HEADER_ONE, QUARTER)?)?;
    no_byte_is_another(&rt, alloc, &text_of(alloc, HEADER_TWO, QUARTER_TWO)?)
}

#[test]
fn lines_of_outcomes(rt: HostRuntime) -> Result<(), Fail> {
    let alloc = rt.alloc();
    let root = box_to(alloc, Num::ONE)?;
    for line in ["X", "I 0:0 1:-1", "S 1:-2 1:0", "C 0 3:-2 1:-1 1:0"] {
        let mut text = Vec::new(alloc);
        match read_outcome(alloc, line.as_bytes(), &root)? {
            Some(outcome) => write_outcome(&outcome, &mut text)?,
            None => text.push(b'?')?,
        }
        assert_eq!(rt; text.as_slice(), line.as_bytes());
    }
    Ok(())
}

#[test]
fn lines_of_no_outcome(rt: HostRuntime) -> Result<(), Fail> {
    let alloc = rt.alloc();
    let root = box_to(alloc, Num::ONE)?;
    for line in [
        "",
        "O",
        "X ",
        "I 0:0",
        "I 0:0 2:0",
        "I = 1:0",
        "C 1 3:-2 1:-1 1:0",
        "C 00 3:-2 1:-1 1:0",
    ] {
        let outcome = read_outcome(alloc, line.as_bytes(), &root)?;
        assert!(rt; outcome.is_none(), "{line}");
    }
    Ok(())
}

#[test]
fn an_open_root_and_a_full_disk(rt: HostRuntime) -> Result<(), Fail> {
    let alloc = rt.alloc();
    let paving = Paving::open(alloc, box_to(alloc, Num::ONE)?)?;
    let mut line = Vec::new(alloc);
    write_node(alloc, &paving, Path::ROOT, &mut line)?;
    assert_eq!(rt; line.as_slice(), b"O".as_slice());
    let mut sink = MemSink::new(alloc, vec![in alloc; 0]?);
    assert_eq!(rt;
        write(alloc, &paving, IDENTITY, &mut sink),
        Err(FileWriteRefused::WriteFailed)
    );
    assert_eq!(rt; write_lines(alloc, &paving, &mut sink), Ok(()));
    assert_eq!(rt; sink.bytes(), b"O\n".as_slice());
    Ok(())
}

fn push_cut(index: u32, level: u32, out: &mut Vec<u8>) -> Result<(), Memory> {
    let mut digits = Buffer::new();
    out.extend_from_slice(b"C 0 ")?;
    out.extend_from_slice(digits.format(index).as_bytes())?;
    out.extend_from_slice(b":-")?;
    out.extend_from_slice(digits.format(level).as_bytes())?;
    out.extend_from_slice(b" = =\n")?;
    Ok(())
}

/// The cuts that come before a leaf of the tree that is cut in halves on 16 levels, and the leaf.
fn push_leaf(leaf: u32, out: &mut Vec<u8>) -> Result<(), Memory> {
    let first = 16u32.saturating_sub(leaf.trailing_zeros());
    for level in first..16 {
        push_cut(((leaf >> (16 - level)) << 1) | 1, level + 1, out)?;
    }
    out.extend_from_slice(b"X\n")?;
    Ok(())
}

// The text of the tree that is cut in halves on 16 levels: 65,535 cuts and 65,536 leaves.
fn large_text(alloc: Global) -> Result<Vec<u8>, Memory> {
    let mut text = text_of(alloc, HEADER_TWO, "")?;
    for leaf in 0..65_536 {
        push_leaf(leaf, &mut text)?;
    }
    Ok(text)
}

// How many nodes are settled in a file that is read within a limit, or why it is refused.
fn read_to(
    alloc: Global,
    text: &[u8],
    root: &IBox,
    nodes: u64,
) -> Result<Result<u64, FileRefused>, Fail> {
    let limit = NodeLimit::new(nodes).ok_or("no limit")?;
    match read_within(alloc, text, IDENTITY, root, limit) {
        Ok(paving) => Ok(Ok(paving.counts().settled())),
        Err(refused) => Ok(Err(refused)),
    }
}

#[test]
fn a_large_tree_is_read_within_a_large_limit(rt: HostRuntime) -> Result<(), Fail> {
    let alloc = rt.alloc();
    let root = box_to(alloc, Num::ONE)?;
    let text = large_text(alloc)?;
    let many = FileRefused::TooManyNodes { line: 100_003 };
    assert_eq!(rt; refusal_of(alloc, &text, &root), Some(many));
    let last = FileRefused::TooManyNodes { line: 131_073 };
    assert_eq!(rt; read_to(alloc, &text, &root, 131_070)?, Err(last));
    assert_eq!(rt; read_to(alloc, &text, &root, 131_071)?, Ok(131_071));
    Ok(())
}

#[test]
fn the_greatest_length_follows_the_limit(rt: HostRuntime) -> Result<(), Fail> {
    assert_eq!(rt; most_bytes(NodeLimit::DEFAULT), 70_000_000);
    let greatest = NodeLimit::new(100_000_000).ok_or("no limit")?;
    assert_eq!(rt; most_bytes(greatest), 66_203_800_000);
    Ok(())
}
