//! A sink that leaves no line of the progress beside its own bytes.
ghost use Rattle.std.specs.Prelude.{◌≡◌};
ghost use Rattle.pv_progress.specs.Clearings.{sink_of};

use crate::progress::Progress;
use pv_io::{IoRefused, Sink};

/// A sink before each of whose pieces the line of a progress is wiped. What it takes is what the
/// sink within takes.
#[derive(Drop)]
pub struct Clearing<'a, K: Drop> {
    sink: K,
    progress: &'a Progress<'a>,
}

impl<'a, K: Sink + Drop> Clearing<'a, K> {
    /// The sink over another one.
    pub fn new(sink: K, progress: &'a Progress<'a>) -> Self
        ensures { sink_of result ≡ sink }
    {
        Clearing { sink, progress }
    }
}

impl<K: Sink + Drop> Sink for Clearing<'_, K> {
    ghost use Rattle.pv_progress.specs.Clearings.{sink_of};

    ghost written = { λ s. K.written (sink_of s) };

    ghost faults = { λ s. K.faults (sink_of s) };

    fn write(&mut self, bytes: &[u8]) -> Result<(), IoRefused> {
        self.progress.clear();
        self.sink.write(bytes)
    }
}
