//! What a scribe makes and passes.
ghost use Rattle.std.specs.Prelude.{◌≡◌, IfSome, OnOk, Some};
ghost use Rattle.pv_file.specs.Walks.{after_steps, AreWritten};

use pv_file::{Scribe, Version};
use pv_num::Memory;

/// So many nodes are passed.
pub fn pass(scribe: &mut Scribe<'_>, nodes: u64)
    ensures { scribe.new.pending ≡ after_steps nodes scribe.old.pending }
{
    scribe.pass(nodes);
}

/// The lines are those of the version.
pub fn make(scribe: &mut Scribe<'_>, version: Version, nodes: u64)
    ensures { IfSome scribe.new.text
        (λ t. AreWritten version nodes scribe.old.pending scribe.new.pending t) }
{
    scribe.make(version, nodes);
}

/// The lines made last are handed over.
pub fn take(scribe: &mut Scribe<'_>, into: &mut Vec<u8>) -> Result<(), Memory>
    ensures { OnOk result (scribe.old.text ≡ Some into.new.items) }
{
    scribe.take_text(into)
}
