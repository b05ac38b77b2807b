//! What takes bytes, and why it may not.
ghost use Rattle.std.specs.Prelude.{◌≡◌, ℕ, ◌≤◌, List, Option, OnOk, IsErrOf};
ghost use Rattle.pv_io.specs.Outside.{Rose, appended, AppendsFront};

use crate::refused::IoRefused;

/// Why a sink didn't take a piece. Where the outside failed, a first part of it may have been taken.
pub type WriteRefused = IoRefused;

/// What takes bytes, one piece after another.
pub trait Sink {
    /// The bytes that were taken so far, where the sink tells them.
    ghost written: { Self → Option (List ℕ) };

    /// How often the outside has failed, up to 2^64 - 1.
    ghost faults: { Self → ℕ };

    /// Takes the whole piece, or says why not.
    fn write(&mut self, bytes: &[u8]) -> Result<(), IoRefused>
        ensures whole { OnOk result (written self.new ≡ appended (written self.old) bytes.now) }
        ensures front { IsErrOf result IoRefused.Failed
            → AppendsFront (written self.old) (written self.new) bytes.now }
        ensures cause { IsErrOf result IoRefused.Failed
            → Rose (faults self.old) (faults self.new) }
        ensures unchanged { IsErrOf result IoRefused.Memory
            → written self.new ≡ written self.old }
        ensures no_fault { IsErrOf result IoRefused.Memory → faults self.new ≡ faults self.old }
        ensures counts_on { faults self.old ≤ faults self.new };
}
