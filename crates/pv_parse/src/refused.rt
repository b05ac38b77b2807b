// Why a text is refused, and where.

use pv_grammar::Cause;
use pv_num::Memory;
use std::alloc::AllocFailed;
use std::error::Error;
use std::fmt;

/// Why a text was not read.
#[derive(Clone, Copy, Debug, PartialEq, Eq)]
pub enum ParseRefused {
    /// Memory ran out.
    Memory,
    /// The first fault of the text. `byte` is counted from 0, `line` and `column`, in bytes, from
    /// 1.
    Fault {
        byte: u32,
        line: u32,
        column: u32,
        cause: Cause,
    },
}

impl fmt::Display for ParseRefused {
    fn fmt<W: fmt::Write>(&self, f: &mut fmt::Formatter<W>) -> fmt::Result {
        match self {
            ParseRefused::Memory => f.write_str("out of memory"),
            ParseRefused::Fault {
                byte,
                line,
                column,
                cause,
            } => write!(f, "line {line} column {column} byte {byte}: {cause}"),
        }
    }
}

impl Error for ParseRefused {}

impl<T: Drop> From<AllocFailed<T>> for ParseRefused {
    ghost use Rattle.std.specs.Prelude.{◌≡◌};
    ghost use Rattle.pv_parse.specs.declared.refused.ParseRefused.TheVariants.{Memory};

    ghost from_gives = { λ _ e. e ≡ Memory };

    fn from(_e: AllocFailed<T>) -> ParseRefused {
        ParseRefused::Memory
    }
}

impl From<Memory> for ParseRefused {
    ghost use Rattle.std.specs.Prelude.{◌≡◌};
    ghost use Rattle.pv_parse.specs.declared.refused.ParseRefused.TheVariants.{Memory};

    ghost from_gives = { λ _ e. e ≡ Memory };

    fn from(_e: Memory) -> ParseRefused {
        ParseRefused::Memory
    }
}
