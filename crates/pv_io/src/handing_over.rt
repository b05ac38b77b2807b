//! Texts that go to a sink piece by piece.
ghost use Rattle.std.specs.Prelude.{◌≡◌, ◌≤◌, [], OnOk, OnErr, IsErrOf};
ghost use Rattle.pv_io.specs.Outside.{Rose, HandsOver, appended, AppendsFront};

use crate::refused::IoRefused;
use crate::sink::Sink;
use pv_num::Memory;
use std::alloc::{AllocError, AllocFailed};

/// So many bytes are gathered before a sink gets them.
pub const PIECE: usize = 65_536;

/// Why a text wasn't written whole. A first part of it may have been taken then.
#[derive(Clone, Copy, Debug, PartialEq, Eq)]
pub enum FileWriteRefused {
    /// There was no memory.
    Memory,
    /// The outside failed.
    WriteFailed,
}

impl From<Memory> for FileWriteRefused {
    ghost use Rattle.pv_io.specs.declared.handing_over.FileWriteRefused.TheVariants.{Memory};

    ghost from_gives = { λ _ e. e ≡ Memory };

    fn from(_: Memory) -> Self {
        FileWriteRefused::Memory
    }
}

impl From<AllocError> for FileWriteRefused {
    ghost use Rattle.pv_io.specs.declared.handing_over.FileWriteRefused.TheVariants.{Memory};

    ghost from_gives = { λ _ e. e ≡ Memory };

    fn from(_: AllocError) -> Self {
        FileWriteRefused::Memory
    }
}

/// Hands a text over to a sink.
pub fn hand_over<K: Sink>(text: &[u8], sink: &mut K) -> Result<(), FileWriteRefused>
    ensures whole { OnOk result (K.written sink.new ≡ appended (K.written sink.old) text.now) }
    ensures front { OnErr result (AppendsFront (K.written sink.old) (K.written sink.new) text.now) }
    ensures cause { IsErrOf result FileWriteRefused.WriteFailed
        → Rose (K.faults sink.old) (K.faults sink.new) }
    ensures counts_on { K.faults sink.old ≤ K.faults sink.new }
{
    match sink.write(text) {
        Ok(()) => Ok(()),
        Err(IoRefused::Failed) => Err(FileWriteRefused::WriteFailed),
        Err(IoRefused::Memory) => Err(FileWriteRefused::Memory),
    }
}

/// Hands over the bytes that are held, of which none are held then.
pub fn hand_over_held<K: Sink>(held: &mut Vec<u8>, sink: &mut K) -> Result<(), FileWriteRefused>
    ensures whole { OnOk result
        (K.written sink.new ≡ appended (K.written sink.old) held.old.items) }
    ensures empty { OnOk result (held.new.items ≡ []) }
    ensures front { OnErr result
        (AppendsFront (K.written sink.old) (K.written sink.new) held.old.items) }
    ensures cause { IsErrOf result FileWriteRefused.WriteFailed
        → Rose (K.faults sink.old) (K.faults sink.new) }
    ensures counts_on { K.faults sink.old ≤ K.faults sink.new }
{
    hand_over(held, sink)?;
    held.clear();
    Ok(())
}

/// Hands over the bytes that are held, once they are a piece.
pub fn hand_over_piece<K: Sink>(held: &mut Vec<u8>, sink: &mut K) -> Result<(), FileWriteRefused>
    ensures part { OnOk result
        (HandsOver (K.written sink.old) (K.written sink.new) held.old.items held.new.items) }
    ensures front { OnErr result
        (AppendsFront (K.written sink.old) (K.written sink.new) held.old.items) }
    ensures cause { IsErrOf result FileWriteRefused.WriteFailed
        → Rose (K.faults sink.old) (K.faults sink.new) }
    ensures counts_on { K.faults sink.old ≤ K.faults sink.new }
{
    if held.len() < PIECE {
        return Ok(());
    }
    hand_over_held(held, sink)
}
