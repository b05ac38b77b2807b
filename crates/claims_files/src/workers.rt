//! What a paving's text by several workers promises.
ghost use Rattle.std.specs.Prelude.{◌≡◌, ◌≤◌, OnOk, IsErrOf};
ghost use Rattle.pv_io.specs.Outside.{Rose, appended};
ghost use Rattle.pv_file.specs.Lines.{lines_of};
ghost use Rattle.pv_file.specs.Texts.{file_text};
ghost use Rattle.pv_file.specs.declared.version.Version.TheVariants as version;
ghost use Rattle.pv_tree.specs.declared.limit.TheConstants.{MOST_WORKERS};

use pv_io::{FileWriteRefused, Sink};
use pv_lines::{write_by, write_lines_by};
use pv_tree::Paving;
use std::alloc::Global;
use std::thread::Threads;

/// A paving's file is written in version 2, with its identity.
pub fn write_together<K: Sink, R: Threads + Sync>(
    rt: &R,
    alloc: Global,
    p: &Paving,
    identity: [u8; 32],
    workers: u32,
    sink: &mut K,
) -> Result<(), FileWriteRefused>
    requires one { 1 ≤ workers }
    requires few { workers ≤ MOST_WORKERS }
    ensures { OnOk result
        (K.written sink.new ≡
        appended (K.written sink.old) (file_text version.Two identity p.now.root p.now.tree)) }
{
    write_by(rt, alloc, p, identity, workers, sink)
}

/// The lines of all nodes are written, in version 1. Only a sink that failed is a failure.
pub fn list_together<K: Sink, R: Threads + Sync>(
    rt: &R,
    alloc: Global,
    p: &Paving,
    workers: u32,
    sink: &mut K,
) -> Result<(), FileWriteRefused>
    requires one { 1 ≤ workers }
    requires few { workers ≤ MOST_WORKERS }
    ensures whole { OnOk result
        (K.written sink.new
        ≡ appended (K.written sink.old) (lines_of version.One p.now.root p.now.tree)) }
    ensures cause { IsErrOf result FileWriteRefused.WriteFailed
        → Rose (K.faults sink.old) (K.faults sink.new) }
{
    write_lines_by(rt, alloc, p, workers, sink)
}
