//! What sinks take.
ghost use Rattle.std.specs.Prelude.{◌≡◌, ◌↔◌, Some, OnOk, IsErrOf, IsTrue, Contains};
ghost use Rattle.std.specs.Io.KnownBytes.{Appends};
ghost use Rattle.pv_io.specs.Outside.{Rose, appended};
ghost use Rattle.pv_io.specs.Real.{sink_faults};

use pv_io::{
    FileWriteRefused, IoRefused, MemSink, PlainSink, RealSink, Sink, hand_over, takes_all,
};
use std::io::Write;

/// A piece that is taken stands behind those before it.
pub fn put(plain: &mut PlainSink, bytes: &[u8]) -> Result<(), IoRefused>
    ensures { OnOk result (Some plain.new ≡ appended (Some plain.old) bytes.now) }
{
    plain.write(bytes)
}

/// The calls of the list fail, and no others.
pub fn put_or_fail(failing: &mut MemSink, bytes: &[u8]) -> Result<(), IoRefused>
    ensures { IsErrOf result IoRefused.Failed
        ↔ Contains failing.old.turns.failing failing.old.turns.next }
{
    failing.write(bytes)
}

/// A sink has met no fault at first.
pub fn begin<W: Write>(inner: W) -> RealSink<W>
    ensures { sink_faults result ≡ 0 }
{
    RealSink::new(inner)
}

/// Where a writer has taken a piece, it has taken all of it.
pub fn pass_on<W: Write>(inner: &mut W, bytes: &[u8]) -> bool
    ensures { IsTrue result → Appends (W.contents inner.old) (W.contents inner.new) bytes.now }
{
    takes_all(inner, bytes)
}

/// Only a sink that failed is a failure.
pub fn deliver<K: Sink>(text: &[u8], sink: &mut K) -> Result<(), FileWriteRefused>
    ensures { IsErrOf result FileWriteRefused.WriteFailed
        → Rose (K.faults sink.old) (K.faults sink.new) }
{
    hand_over(text, sink)
}
