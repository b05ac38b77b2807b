//! A sink in memory whose calls fail by a list.
ghost use Rattle.std.specs.Prelude.{◌≡◌, ◌↔◌, [], ℕ, ◌≤◌, List, Some, OnOk, IsErrOf, Contains};
ghost use Rattle.pv_io.specs.Outside.{Rose, appended, AppendsFront};
ghost use Rattle.pv_io.specs.Answers.{spool_after};

use crate::script::Script;
use crate::{IoRefused, PlainSink, Sink};
use std::alloc::Global;
use std::marker::Model;

/// A sink in memory whose calls fail by a list of their numbers.
#[derive(Drop)]
pub struct MemSink {
    plain: PlainSink,
    script: Script,
    faults: u64,
}

impl Model for MemSink {
    ghost use Rattle.pv_io.specs.Scripted.{Spool};

    ghost Value = { Spool };

    ghost view = { λ s. record { bytes = s.plain; turns = s.script; faults = s.faults } };
}

impl MemSink {
    /// A sink that has taken nothing. Its calls are numbered from 0, and those in the list fail.
    pub fn new(alloc: Global, fail: Vec<u64>) -> Self
        ensures { result
            ≡ record { bytes = []; turns = record { failing = fail.items; next = 0 }; faults = 0 } }
    {
        MemSink {
            plain: PlainSink::new(alloc),
            script: Script::new(fail),
            faults: 0,
        }
    }

    /// The bytes that were taken so far.
    pub fn bytes(&self) -> &[u8]
        ensures { result.now ≡ self.now.bytes }
    {
        self.plain.bytes()
    }
}

impl Sink for MemSink {
    ghost written = { λ s. Some s.bytes };

    ghost faults = { λ s. s.faults };

    fn write(&mut self, bytes: &[u8]) -> Result<(), IoRefused>
        ensures fails { IsErrOf result IoRefused.Failed
            ↔ Contains self.old.turns.failing self.old.turns.next }
        ensures counts_on { self.old.faults ≤ self.new.faults }
        ensures state { self.new ≡ spool_after result bytes.now self.old }
    {
        if self.script.fails() {
            self.script.advance();
            self.faults = self.faults.saturating_add(1);
            return Err(IoRefused::Failed);
        }
        self.plain.write(bytes)?;
        self.script.advance();
        Ok(())
    }
}
