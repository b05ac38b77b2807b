//! Lines of settled nodes.
ghost use Rattle.std.specs.Prelude.{◌≡◌, ◌<◌, ◌≤◌, IfOk, IfSome, None, length};

use pv_file::LONGEST_LINE;
use pv_num::Memory;
use std::alloc::Global;
use std::marker::Model;

/// The line of a settled node, without a line feed: at most `LONGEST_LINE` bytes.
#[derive(Drop)]
pub struct Line {
    bytes: Vec<u8>,
}

impl Model for Line {
    ghost use Rattle.std.specs.Prelude.{ℕ, ◌≤◌, List, length};
    ghost use Rattle.pv_file.specs.declared.writer.TheConstants.{LONGEST_LINE};

    ghost Value = { List ℕ };

    ghost view = { λ l. l.bytes.items };

    ghost invariant = { λ l. length l.bytes.items ≤ LONGEST_LINE };
}

impl Line {
    /// The line of these bytes. None exactly where there are more than `LONGEST_LINE`.
    pub fn of(alloc: Global, bytes: &[u8]) -> Result<Option<Line>, Memory>
        ensures same { IfOk result (λ found. IfSome found (λ line. line ≡ bytes.now)) }
        ensures few { IfOk result
            (λ found. IfSome found (λ line. length bytes.now ≤ LONGEST_LINE)) }
        ensures none { IfOk result (λ found. found ≡ None → LONGEST_LINE < length bytes.now) }
    {
        if bytes.len() > LONGEST_LINE {
            return Ok(None);
        }
        let bytes = bytes.to_vec(alloc)?;
        Ok(Some(Line { bytes }))
    }

    /// The bytes.
    pub fn bytes(&self) -> &[u8]
        ensures same { result.now ≡ self.now }
        ensures few { length result.now ≤ LONGEST_LINE }
    {
        &self.bytes
    }

    /// An equal line.
    pub(crate) fn clone_of(&self, alloc: Global) -> Result<Line, Memory>
        ensures { IfOk result (λ line. line ≡ self.now) }
    {
        let bytes = self.bytes.as_slice().to_vec(alloc)?;
        Ok(Line { bytes })
    }
}
