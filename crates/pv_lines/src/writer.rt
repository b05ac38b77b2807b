//! A paving's text, by one worker or several.
ghost use Rattle.std.specs.Prelude.{◌≡◌, ◌≤◌, OnOk, OnErr, IsErrOf};
ghost use Rattle.pv_io.specs.Outside.{Rose, appended, AppendsFront};
ghost use Rattle.pv_file.specs.Lines.{lines_of};
ghost use Rattle.pv_file.specs.Texts.{file_text};
ghost use Rattle.pv_file.specs.declared.version.Version.TheVariants as version;
ghost use Rattle.pv_tree.specs.declared.limit.TheConstants.{MOST_WORKERS};

use crate::rounds::{nodes_of, write_nodes};
use pv_file::{Version, write, write_header, write_lines};
use pv_io::{FileWriteRefused, Sink};
use pv_tree::Paving;
use std::alloc::Global;
use std::thread::Threads;

// The lines of fewer nodes are made by one worker.
const FEW: u64 = 2_000;

/// As `write` of `pv_file`, by 1 to 16 workers.
pub fn write_by<K: Sink, R: Threads + Sync>(
    rt: &R,
    alloc: Global,
    p: &Paving,
    identity: [u8; 32],
    workers: u32,
    sink: &mut K,
) -> Result<(), FileWriteRefused>
    requires one { 1 ≤ workers }
    requires few { workers ≤ MOST_WORKERS }
    ensures whole { OnOk result
        (K.written sink.new ≡
        appended (K.written sink.old) (file_text version.Two identity p.now.root p.now.tree)) }
    ensures front { OnErr result
        (AppendsFront (K.written sink.old) (K.written sink.new)
        (file_text version.Two identity p.now.root p.now.tree)) }
    ensures cause { IsErrOf result FileWriteRefused.WriteFailed
        → Rose (K.faults sink.old) (K.faults sink.new) }
    ensures counts_on { K.faults sink.old ≤ K.faults sink.new }
{
    if is_for_one(p, workers) {
        return write(alloc, p, identity, sink);
    }
    write_header(alloc, Version::Two, &identity, sink)?;
    write_nodes(rt, alloc, p, Version::Two, workers, sink)
}

/// As `write_lines` of `pv_file`, by 1 to 16 workers.
pub fn write_lines_by<K: Sink, R: Threads + Sync>(
    rt: &R,
    alloc: Global,
    p: &Paving,
    workers: u32,
    sink: &mut K,
) -> Result<(), FileWriteRefused>
    requires one { 1 ≤ workers }
    requires few { workers ≤ MOST_WORKERS }
    ensures whole { OnOk result
        (K.written sink.new
        ≡ appended (K.written sink.old) (lines_of version.One p.now.root p.now.tree)) }
    ensures front { OnErr result
        (AppendsFront (K.written sink.old) (K.written sink.new)
        (lines_of version.One p.now.root p.now.tree)) }
    ensures cause { IsErrOf result FileWriteRefused.WriteFailed
        → Rose (K.faults sink.old) (K.faults sink.new) }
    ensures counts_on { K.faults sink.old ≤ K.faults sink.new }
{
    if is_for_one(p, workers) {
        return write_lines(alloc, p, sink);
    }
    write_nodes(rt, alloc, p, Version::One, workers, sink)
}

fn is_for_one(p: &Paving, workers: u32) -> bool {
    workers == 1 || nodes_of(p) < FEW
}
