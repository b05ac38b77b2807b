//! A sink over a writer of the machine.
ghost use Rattle.std.specs.Prelude.{◌≡◌, ℕ, ◌≤◌, List, Option, None, OnOk, IsErrOf, IsTrue, length, take, drop};
ghost use Rattle.std.specs.Io.KnownBytes.{Appends};
ghost use Rattle.pv_io.specs.Outside.{Rose};
ghost use Rattle.pv_io.specs.Real.{AppendsSome, sink_faults, writer_of};

use crate::{IoRefused, Sink};
use std::io::{ErrorKind, Write};

/// A sink over a writer of the machine. It tells nothing of what was written.
#[derive(Drop)]
pub struct RealSink<W> {
    inner: W,
    faults: u64,
}

impl<W: Write> RealSink<W> {
    /// A sink that has met no fault.
    pub fn new(inner: W) -> Self
        ensures no_fault { sink_faults result ≡ 0 }
        ensures writer { writer_of result ≡ inner }
    {
        RealSink { inner, faults: 0 }
    }
}

impl<W: Write> Sink for RealSink<W> {
    ghost written = { λ _. None };

    ghost faults = { sink_faults };

    fn write(&mut self, bytes: &[u8]) -> Result<(), IoRefused>
        ensures cause { IsErrOf result IoRefused.Failed
            → Rose (sink_faults self.old) (sink_faults self.new) }
        ensures no_fault { IsErrOf result IoRefused.Memory
            → sink_faults self.new ≡ sink_faults self.old }
        ensures counts_on { sink_faults self.old ≤ sink_faults self.new }

        // Beyond what every sink says: what went to the writer, where the writer tells it.
        ensures taken { OnOk result
            (Appends (W.contents (writer_of self.old)) (W.contents (writer_of self.new)) bytes.now) }
        ensures taken_front { IsErrOf result IoRefused.Failed
            → AppendsSome (W.contents (writer_of self.old)) (W.contents (writer_of self.new))
            bytes.now }
    {
        if takes_all(&mut self.inner, bytes) {
            return Ok(());
        }
        self.faults = self.faults.saturating_add(1);
        Err(IoRefused::Failed)
    }
}

/// Hands the whole piece to a writer, and says whether it was taken. A writer that takes nothing of
/// what is left has failed. A write that a signal cut short is tried again.
pub fn takes_all<W: Write>(inner: &mut W, bytes: &[u8]) -> bool
    ensures all { IsTrue result → Appends (W.contents inner.old) (W.contents inner.new) bytes.now }
    ensures front { AppendsSome (W.contents inner.old) (W.contents inner.new) bytes.now }
{
    let mut rest = bytes;
    for _ in 0..u64::MAX {
        if rest.is_empty() {
            return true;
        }
        match inner.write(rest) {
            Ok(0) => return false,
            Ok(taken) => rest = behind(rest, taken),
            Err(e) if e.kind() == ErrorKind::Interrupted => {}
            Err(_) => return false,
        }
    }
    false
}

fn behind(bytes: &[u8], taken: usize) -> &[u8]
    requires { taken ≤ length bytes.now }
    ensures { result.now ≡ drop taken bytes.now }
{
    &bytes[taken..]
}
