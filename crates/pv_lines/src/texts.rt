//! What scribes made at a turn, until a sink has it.
ghost use Rattle.std.specs.Prelude.{◌≡◌, ◌≤◌, IfOk, length, vec_len, drop, Some, OnOk, OnErr, IsErrOf};
ghost use Rattle.pv_io.specs.Outside.{Rose, appended, AppendsFront};
ghost use Rattle.pv_lines.specs.Turns.{AreTaken, AreStill, joined};
ghost use Rattle.pv_tree.specs.declared.limit.TheConstants.{MOST_WORKERS};

use pv_file::Scribe;
use pv_io::{FileWriteRefused, Sink, hand_over};
use pv_num::Memory;
use std::alloc::Global;
use std::marker::Model;

/// What one scribe made at a turn.
#[derive(Drop)]
pub(crate) struct Text {
    bytes: Vec<u8>,
}

impl Model for Text {
    ghost use Rattle.std.specs.Prelude.{ℕ, List};

    ghost Value = { List ℕ };

    ghost view = { λ t. t.bytes.items };
}

impl Text {
    // Takes what a scribe made last.
    fn take_of(&mut self, scribe: &mut Scribe<'_>) -> Result<(), Memory>
        ensures come { scribe.new.pending ≡ scribe.old.pending }
        ensures text { OnOk result (scribe.old.text ≡ Some self.new) }
    {
        scribe.take_text(&mut self.bytes)
    }

    fn bytes(&self) -> &[u8]
        ensures { result.now ≡ self.now }
    {
        &self.bytes
    }
}

/// As many texts as there are scribes.
pub(crate) fn no_texts(alloc: Global, scribes: u32) -> Result<Vec<Text>, Memory>
    requires { scribes ≤ MOST_WORKERS }
    ensures { IfOk result (λ v. vec_len v ≡ scribes) }
{
    let mut texts = Vec::with_capacity(alloc, scribes as usize)?;
    for _scribe in 0..scribes {
        texts.push_reserved(Text {
            bytes: Vec::new(alloc),
        });
    }
    Ok(texts)
}

/// Takes of each scribe what it made last, and leaves it a text to write over.
pub(crate) fn take_texts(scribes: &mut [Scribe<'_>], texts: &mut [Text]) -> Result<(), Memory>
    requires { length texts.old ≡ length scribes.old }
    ensures scribes { length scribes.new ≡ length scribes.old }
    ensures texts { length texts.new ≡ length texts.old }
    ensures still { OnOk result (AreStill scribes.old scribes.new) }
    ensures taken { OnOk result (AreTaken scribes.old texts.new) }
{
    for i in 0..scribes.len() {
        texts[i].take_of(&mut scribes[i])?;
    }
    Ok(())
}

/// Hands the texts from the i-th on to a sink.
pub(crate) fn hand_from<K: Sink>(
    texts: &[Text],
    i: usize,
    sink: &mut K,
) -> Result<(), FileWriteRefused>
    requires { i ≤ length texts.now }
    ensures whole { OnOk result
        (K.written sink.new ≡ appended (K.written sink.old) (joined (drop i texts.now))) }
    ensures front { OnErr result
        (AppendsFront (K.written sink.old) (K.written sink.new) (joined (drop i texts.now))) }
    ensures cause { IsErrOf result FileWriteRefused.WriteFailed
        → Rose (K.faults sink.old) (K.faults sink.new) }
    ensures counts_on { K.faults sink.old ≤ K.faults sink.new }
{
    if i == texts.len() {
        return Ok(());
    }
    hand_over(texts[i].bytes(), sink)?;
    hand_from(texts, i + 1, sink)
}
