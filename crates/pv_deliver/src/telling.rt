//! Tells refusals on the standard error.
ghost use Rattle.std.specs.Prelude.{◌≡◌};
ghost use Rattle.pv_io.specs.Outside.{AppendsFront};
ghost use Rattle.pv_request.specs.Refusals.{line_of};
ghost use Rattle.pv_product.specs.Ends.{stream, Tells};
ghost use Rattle.pv_deliver.specs.Telling.{refusal_for, TellsLine};

use pv_io::{IoRefused, Sink};
use pv_request::{Refusal, Status};
use std::alloc::Global;

/// Why the words of a command line can't be read.
#[derive(Clone, Copy, Debug, PartialEq, Eq)]
pub enum Unread {
    /// A word is not UTF-8.
    NoText,
    /// There was no memory.
    Memory,
}

/// Tells that the words of a command line can't be read, and answers the status with which the
/// program ends. It takes no memory.
pub fn tell_unread<E: Sink>(err: &mut E, why: Unread) -> Status
    ensures { Tells (refusal_for why) result (stream (E.written err.old) (E.faults err.old))
        (stream (E.written err.new) (E.faults err.new)) }
{
    match why {
        Unread::NoText => tell_line(
            err,
            b"usage: paver COMMAND SYSTEM [OPTIONS] [PAVING..]\n",
            Status::Usage,
        ),
        Unread::Memory => tell_memory(err),
    }
}

/// Writes the line of a refusal, and answers the status with which the command ends. A failed write
/// changes no status.
pub fn tell<E: Sink>(alloc: Global, err: &mut E, refusal: &Refusal<'_>) -> Status
    ensures { Tells refusal.now result (stream (E.written err.old) (E.faults err.old))
        (stream (E.written err.new) (E.faults err.new)) }
{
    let Ok(line) = refusal.line(alloc) else {
        return tell_memory(err);
    };
    tell_line(err, &line, refusal.status())
}

fn tell_line<E: Sink>(err: &mut E, line: &[u8], status: Status) -> Status
    ensures { TellsLine line.now status result (stream (E.written err.old) (E.faults err.old))
        (stream (E.written err.new) (E.faults err.new)) }
{
    match err.write(line) {
        Err(IoRefused::Memory) => Status::WantOfMemory,
        Ok(()) | Err(IoRefused::Failed) => status,
    }
}

fn tell_memory<E: Sink>(err: &mut E) -> Status
    ensures memory { result ≡ Status.WantOfMemory }
    ensures front { AppendsFront (E.written err.old) (E.written err.new) (line_of Refusal.Memory) }
{
    let _ = err.write(b"want of memory\n");
    Status::WantOfMemory
}
