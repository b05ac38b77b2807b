//! A sink in memory that never fails.
ghost use Rattle.std.specs.Prelude.{◌≡◌, [], ℕ, List, Some};

use crate::{IoRefused, Sink};
use std::alloc::Global;
use std::marker::Model;

/// A sink in memory that never fails. Contracts see it as the bytes that it has taken.
#[derive(Drop)]
pub struct PlainSink {
    bytes: Vec<u8>,
}

impl Model for PlainSink {
    ghost Value = { List ℕ };

    ghost view = { λ s. s.bytes.items };
}

impl PlainSink {
    /// A sink that has taken nothing.
    pub fn new(alloc: Global) -> Self
        ensures { result ≡ [] }
    {
        PlainSink {
            bytes: Vec::new(alloc),
        }
    }

    /// The bytes that were taken so far.
    pub fn bytes(&self) -> &[u8]
        ensures { result.now ≡ self.now }
    {
        &self.bytes
    }
}

impl Sink for PlainSink {
    ghost written = { λ s. Some s };

    ghost faults = { λ _. 0 };

    fn write(&mut self, bytes: &[u8]) -> Result<(), IoRefused> {
        self.bytes.extend_from_slice(bytes)?;
        Ok(())
    }
}
