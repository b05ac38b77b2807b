//! A paving's lines, in rounds.
ghost use Rattle.std.specs.Prelude.{◌≡◌, ℕ, ◌+◌, ◌*◌, ◌<◌, ◌≤◌, ◌^◌, OnOk, OnErr, IsErrOf, length, get_or, [], ◌∷◌};
ghost use Rattle.pv_io.specs.Outside.{Rose, appended, AppendsFront};
ghost use Rattle.pv_tree.specs.Pieces.{root_piece, all_nodes};
ghost use Rattle.pv_file.specs.Lines.{lines_of};
ghost use Rattle.pv_file.specs.Scribes.{Scribed};
ghost use Rattle.pv_lines.specs.Turns.{AreSpread, HasTurned, joined};
ghost use Rattle.pv_tree.specs.declared.limit.TheConstants.{MOST_WORKERS};

use crate::spread::{spread, turn_all};
use crate::texts::{Text, hand_from, no_texts, take_texts};
use pv_file::{Scribe, Version};
use pv_io::{FileWriteRefused, Sink};
use pv_tree::Paving;
use std::alloc::Global;
use std::thread::{Threads, join_mut};

// The lines of at most some more nodes are held at once. A round begins threads anew, so there are
// few: the lines of a million nodes are made in two.
const MOST_HELD: u64 = 524_288;

/// A scribe takes at most so many nodes at a turn.
pub const MOST_SHARE: u64 = 600_000;

/// The others take at most so many nodes between two turns of a scribe.
pub const MOST_GAP: u64 = 9_000_000;

// Each scribe passes the nodes of all others, so that with more of them more is passed than made.
const MOST_SCRIBES: u64 = 8;

// A scribe for fewer nodes is not worth its thread.
const LEAST_NODES: u64 = 1_000;

/// Hands the lines of all nodes to a sink, made by `workers` workers.
pub(crate) fn write_nodes<K: Sink, R: Threads + Sync>(
    rt: &R,
    alloc: Global,
    p: &Paving,
    version: Version,
    workers: u32,
    sink: &mut K,
) -> Result<(), FileWriteRefused>
    requires one { 1 ≤ workers }
    requires few { workers ≤ MOST_WORKERS }
    ensures whole { OnOk result
        (K.written sink.new
        ≡ appended (K.written sink.old) (lines_of version p.now.root p.now.tree)) }
    ensures front { OnErr result
        (AppendsFront (K.written sink.old) (K.written sink.new)
        (lines_of version p.now.root p.now.tree)) }
    ensures cause { IsErrOf result FileWriteRefused.WriteFailed
        → Rose (K.faults sink.old) (K.faults sink.new) }
    ensures counts_on { K.faults sink.old ≤ K.faults sink.new }
{
    let nodes = nodes_of(p);
    let count = scribes_for(nodes, workers);
    let share = share_of(nodes, count);
    let mut scribes = spread(alloc, p, count, share)?;
    let mut texts = no_texts(alloc, count)?;
    write_rounds(
        rt,
        p,
        version,
        nodes,
        share,
        scribes.as_mut_slice(),
        texts.as_mut_slice(),
        sink,
    )
}

/// How many nodes a paving has.
pub(crate) fn nodes_of(p: &Paving) -> u64
    ensures is { result ≡ all_nodes p.now.tree }
    ensures fits { result < 2 ^ 63 }
{
    let counts = p.counts();
    counts.settled() + counts.open_leaves
}

// How many scribes make the lines of so many nodes.
fn scribes_for(nodes: u64, workers: u32) -> u32
    requires one { 1 ≤ workers }
    requires few { workers ≤ MOST_WORKERS }
    ensures one { 1 ≤ result }
    ensures few { result ≤ MOST_WORKERS }
{
    let worth = (nodes / LEAST_NODES).clamp(1, MOST_SCRIBES) as u32;
    workers.min(worth)
}

// How many nodes a scribe takes at a turn: as many in each round.
fn share_of(nodes: u64, workers: u32) -> u64
    requires fits { nodes < 2 ^ 63 }
    requires one { 1 ≤ workers }
    requires few { workers ≤ MOST_WORKERS }
    ensures some { 1 ≤ result }
    ensures small { result ≤ MOST_SHARE }
{
    let rounds = nodes / MOST_HELD + 1;
    MOST_HELD.min(nodes / (rounds * u64::from(workers))) + 1
}

/// Turn by turn, until all nodes were written.
pub(crate) fn write_rounds<K: Sink, R: Threads + Sync>(
    rt: &R,
    p: &Paving,
    version: Version,
    nodes: u64,
    share: u64,
    scribes: &mut [Scribe<'_>],
    texts: &mut [Text],
    sink: &mut K,
) -> Result<(), FileWriteRefused>
    requires nodes { nodes ≡ all_nodes p.now.tree }
    requires fits { nodes < 2 ^ 63 }
    requires share { 1 ≤ share }
    requires small { share ≤ MOST_SHARE }
    requires some { 0 < length scribes.old }
    requires few { length scribes.old ≤ MOST_WORKERS }
    requires texts { length texts.old ≡ length scribes.old }
    requires spread { AreSpread share (root_piece p.now.root p.now.tree ∷ []) scribes.old }
    ensures whole { OnOk result
        (K.written sink.new
        ≡ appended (K.written sink.old) (lines_of version p.now.root p.now.tree)) }
    ensures front { OnErr result
        (AppendsFront (K.written sink.old) (K.written sink.new)
        (lines_of version p.now.root p.now.tree)) }
    ensures cause { IsErrOf result FileWriteRefused.WriteFailed
        → Rose (K.faults sink.old) (K.faults sink.new) }
    ensures counts_on { K.faults sink.old ≤ K.faults sink.new }
{
    let gap = gap_of(share, scribes.len());
    turn_all(rt, version, share, gap, scribes);
    let mut at = 0;
    while at < nodes {
        take_texts(scribes, texts)?;
        turn_and_hand(rt, version, share, gap, scribes, texts, sink)?;
        at += share + gap;
    }
    Ok(())
}

// While the scribes take a turn, this thread hands over what they made at the one before.
fn turn_and_hand<K: Sink, R: Threads + Sync>(
    rt: &R,
    version: Version,
    share: u64,
    gap: u64,
    scribes: &mut [Scribe<'_>],
    texts: &[Text],
    sink: &mut K,
) -> Result<(), FileWriteRefused>
    requires some { 0 < length scribes.old }
    ensures count { length scribes.new ≡ length scribes.old }
    ensures turned { (i : ℕ) (d : Scribed) → i < length scribes.old →
        HasTurned version share gap (get_or scribes.old i d) (get_or scribes.new i d) }
    ensures whole { OnOk result
        (K.written sink.new ≡ appended (K.written sink.old) (joined texts.now)) }
    ensures front { OnErr result
        (AppendsFront (K.written sink.old) (K.written sink.new) (joined texts.now)) }
    ensures cause { IsErrOf result FileWriteRefused.WriteFailed
        → Rose (K.faults sink.old) (K.faults sink.new) }
    ensures counts_on { K.faults sink.old ≤ K.faults sink.new }
{
    let mut turn = ||
        requires { 0 < length scribes.now }
        ensures count { length scribes.exit.now ≡ length scribes.entry.now }
        ensures turned { (i : ℕ) (d : Scribed) → i < length scribes.entry.now →
            HasTurned version share gap (get_or scribes.entry.now i d)
            (get_or scribes.exit.now i d) }
    { turn_all(rt, version, share, gap, scribes) };
    let mut hand = || hand_from(texts, 0, sink);
    let (_, handed) = join_mut(rt, &mut turn, &mut hand);
    handed
}

// How many nodes the others take.
fn gap_of(share: u64, scribes: usize) -> u64
    requires small { share ≤ MOST_SHARE }
    requires some { 0 < scribes }
    requires few { scribes ≤ MOST_WORKERS }
    ensures is { share + result ≡ share * scribes }
    ensures small { result ≤ MOST_GAP }
{
    let mut gap = 0;
    for _other in 1..scribes {
        gap += share;
    }
    gap
}
