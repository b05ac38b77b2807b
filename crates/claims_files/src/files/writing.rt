//! What is written of a paving.
ghost use Rattle.std.specs.Prelude.{◌≡◌, OnOk};
ghost use Rattle.pv_io.specs.Outside.{appended};
ghost use Rattle.pv_file.specs.Texts.{file_text, header_text};
ghost use Rattle.pv_file.specs.declared.version.Version.TheVariants as version;

use pv_file::{Version, write, write_header};
use pv_io::{FileWriteRefused, Sink};
use pv_tree::Paving;
use std::alloc::Global;

/// A paving's file is written in version 2, with its identity.
pub fn write_file<K: Sink>(
    alloc: Global,
    p: &Paving,
    identity: [u8; 32],
    sink: &mut K,
) -> Result<(), FileWriteRefused>
    ensures { OnOk result
        (K.written sink.new
        ≡ appended (K.written sink.old) (file_text version.Two identity p.now.root p.now.tree)) }
{
    write(alloc, p, identity, sink)
}

/// The lines before the nodes are those of the version.
pub fn write_front<K: Sink>(
    alloc: Global,
    version: Version,
    identity: &[u8; 32],
    sink: &mut K,
) -> Result<(), FileWriteRefused>
    ensures { OnOk result
        (K.written sink.new ≡ appended (K.written sink.old) (header_text version identity.now)) }
{
    write_header(alloc, version, identity, sink)
}
