//! What ends a command early.
ghost use Rattle.std.specs.Prelude.{◌≡◌, ◌++◌, codes, IfOk, OnOk, decimal};
ghost use Rattle.pv_tree.specs.PathText.{path_text};
ghost use Rattle.pv_request.specs.Refusals.{status_of, words_of, line_of, fault_words};

use crate::Status;
use crate::decimal::push_decimal;
use pv_ctc::ProgramRefused;
use pv_num::Memory;
use pv_parse::{Cause, ParseRefused};
use pv_tree::Path;
use std::alloc::{AllocError, AllocFailed, Global};

/// What ends a command before all its work is done and printed.
#[derive(Drop)]
pub enum Refusal<'a> {
    /// The words are no command, a value in them is refused, or the system has no such plane.
    Usage,
    /// The text of the system has a fault. Lines and columns are counted from 1, bytes from 0.
    System {
        line: u32,
        column: u32,
        byte: u32,
        cause: Cause,
    },
    /// The contractor program is refused at a byte, counted from 0.
    Contract {
        byte: u32,
    },
    /// The text of the expression whose least value is sought has a fault at a byte, counted from
    /// 0.
    Objective {
        byte: u32,
        cause: Cause,
    },
    /// There is no file of this name.
    NoFile {
        name: &'a str,
    },
    /// The file of this name is no paving file of the system by the settings, or what is kept under
    /// this name is no campaign of them.
    Paving {
        name: &'a str,
        fault: FileFault,
    },
    /// The file of this name could not be read.
    ReadFault {
        name: &'a str,
    },
    /// The file of this name could not be written.
    NotStored {
        name: &'a str,
    },
    /// The keeper failed over the campaign of this name.
    KeeperFault {
        name: &'a str,
    },
    /// The standard output could not be written.
    NotPrinted,
    /// There was no memory.
    Memory,
    /// The tree of the files or of a campaign has `settled` settled nodes, and with the budget too
    /// many.
    TreeLimit {
        settled: u64,
    },
    /// A file has another outcome at a path than the join of those before it. Both outcomes are
    /// lines of files.
    Disagree {
        path: Path,
        joined: Vec<u8>,
        file: Vec<u8>,
    },
    /// A file has another outcome at a path than its system gives. Both outcomes are lines of
    /// files.
    Differs {
        path: Path,
        file: Vec<u8>,
        due: Vec<u8>,
    },
}

/// Why a file is no paving file of a system by settings, or what is kept no campaign of them. Lines
/// are counted from 1, rows from 0.
#[derive(Clone, Copy, Debug, PartialEq, Eq)]
pub enum FileFault {
    /// It is longer than 70,000,000 bytes.
    TooLong,
    /// It was made for another system or by other settings.
    WrongIdentity,
    /// This line is the first that no such file has.
    BadLine { line: u64 },
    /// This line is that of the 100,001st settled node.
    TooManyNodes { line: u64 },
    /// This row is the first that is bad.
    BadRow { row: u64 },
    /// More than 100,000 rows are kept.
    TooManyRows,
}

impl<'a> From<AllocError> for Refusal<'a> {
    ghost use Rattle.pv_request.specs.declared.refusal.Refusal.TheVariants.{Memory};

    ghost from_gives = { λ _ e. e ≡ Memory };

    fn from(_: AllocError) -> Self {
        Refusal::Memory
    }
}

impl<'a, T: Drop> From<AllocFailed<T>> for Refusal<'a> {
    ghost use Rattle.pv_request.specs.declared.refusal.Refusal.TheVariants.{Memory};

    ghost from_gives = { λ _ e. e ≡ Memory };

    fn from(_: AllocFailed<T>) -> Self {
        Refusal::Memory
    }
}

impl<'a> From<Memory> for Refusal<'a> {
    ghost use Rattle.pv_request.specs.declared.refusal.Refusal.TheVariants.{Memory};

    ghost from_gives = { λ _ e. e ≡ Memory };

    fn from(_: Memory) -> Self {
        Refusal::Memory
    }
}

impl<'a> From<ParseRefused> for Refusal<'a> {
    ghost use Rattle.pv_request.specs.Refusals.{refusal_of};

    ghost from_gives = { λ fault e. e ≡ refusal_of fault };

    fn from(refused: ParseRefused) -> Self {
        match refused {
            ParseRefused::Memory => Refusal::Memory,
            ParseRefused::Fault {
                byte,
                line,
                column,
                cause,
            } => Refusal::System {
                line,
                column,
                byte,
                cause,
            },
        }
    }
}

impl<'a> From<ProgramRefused> for Refusal<'a> {
    ghost use Rattle.pv_request.specs.Refusals.{program_refusal_of};

    ghost from_gives = { λ fault e. e ≡ program_refusal_of fault };

    fn from(refused: ProgramRefused) -> Self {
        match refused {
            ProgramRefused::Memory => Refusal::Memory,
            ProgramRefused::Bad { byte } => Refusal::Contract { byte },
        }
    }
}

impl<'a> Refusal<'a> {
    /// The status with which the command ends.
    pub fn status(&self) -> Status
        ensures { result ≡ status_of self.now }
    {
        match self {
            Refusal::Usage | Refusal::Contract { .. } | Refusal::Objective { .. } => Status::Usage,
            Refusal::System { .. } => Status::SystemRefused,
            Refusal::NoFile { .. } => Status::NoFile,
            Refusal::ReadFault { .. } => Status::ReadFault,
            Refusal::NotStored { .. } | Refusal::NotPrinted => Status::WriteFault,
            Refusal::Paving { .. } => Status::PavingRefused,
            Refusal::KeeperFault { .. } => Status::KeeperFault,
            Refusal::Memory => Status::WantOfMemory,
            Refusal::TreeLimit { .. } => Status::TreeLimit,
            Refusal::Disagree { .. } | Refusal::Differs { .. } => Status::Disagree,
        }
    }

    /// The line for the standard error.
    pub fn line(&self, alloc: Global) -> Result<Vec<u8>, Memory>
        ensures { IfOk result (λ line. line.items ≡ line_of self.now) }
    {
        let mut line = self.words(alloc)?;
        line.push(b'\n')?;
        Ok(line)
    }

    fn words(&self, alloc: Global) -> Result<Vec<u8>, Memory>
        ensures { IfOk result (λ line. line.items ≡ words_of self.now) }
    {
        match self {
            Refusal::Usage => joined(
                alloc,
                b"usage: paver COMMAND SYSTEM [OPTIONS] [PAVING..]",
                "",
            ),
            Refusal::System {
                line,
                column,
                byte,
                cause,
            } => system_words(alloc, *line, *column, *byte, *cause),
            Refusal::Contract { byte } => {
                let mut words = Vec::from_slice(alloc, b"contract: refused at byte ")?;
                push_decimal(&mut words, u64::from(*byte))?;
                Ok(words)
            }
            Refusal::Objective { byte, cause } => objective_words(alloc, *byte, *cause),
            Refusal::NoFile { name } => joined(alloc, b"no file: ", name),
            Refusal::ReadFault { name } => joined(alloc, b"read fault: ", name),
            Refusal::NotStored { name } => joined(alloc, b"write fault: ", name),
            Refusal::KeeperFault { name } => joined(alloc, b"keeper fault: ", name),
            Refusal::NotPrinted => joined(alloc, b"write fault: standard output", ""),
            Refusal::Paving { name, fault } => fault.words(alloc, name),
            Refusal::Memory => joined(alloc, b"want of memory", ""),
            Refusal::TreeLimit { settled } => {
                let mut words = Vec::from_slice(alloc, b"tree limit: ")?;
                push_decimal(&mut words, *settled)?;
                words.extend_from_slice(b" settled")?;
                Ok(words)
            }
            Refusal::Disagree { path, joined, file } => {
                apart(alloc, b"disagree ", *path, joined, file)
            }
            Refusal::Differs { path, file, due } => apart(alloc, b"differs ", *path, file, due),
        }
    }
}

impl FileFault {
    fn words(self, alloc: Global, name: &str) -> Result<Vec<u8>, Memory>
        ensures { IfOk result
            (λ words. words.items ≡ codes "paving "
            ++ (name.now ++ (codes ": " ++ fault_words self))) }
    {
        let mut words = Vec::from_slice(alloc, b"paving ")?;
        words.extend_from_slice(name.as_bytes())?;
        words.extend_from_slice(b": ")?;
        self.push_words(&mut words)?;
        Ok(words)
    }

    fn push_words(self, words: &mut Vec<u8>) -> Result<(), Memory>
        ensures { OnOk result (words.new.items ≡ words.old.items ++ fault_words self) }
    {
        match self {
            FileFault::TooLong => words.extend_from_slice(b"too long")?,
            FileFault::WrongIdentity => words.extend_from_slice(b"wrong identity")?,
            FileFault::BadLine { line } => push_numbered(words, b"bad line ", line)?,
            FileFault::TooManyNodes { line } => {
                push_numbered(words, b"too many nodes at line ", line)?;
            }
            FileFault::BadRow { row } => push_numbered(words, b"bad row ", row)?,
            FileFault::TooManyRows => words.extend_from_slice(b"too many rows")?,
        }
        Ok(())
    }
}

fn push_numbered(words: &mut Vec<u8>, front: &[u8], n: u64) -> Result<(), Memory>
    ensures { OnOk result (words.new.items ≡ words.old.items ++ (front.now ++ decimal n)) }
{
    words.extend_from_slice(front)?;
    push_decimal(words, n)?;
    Ok(())
}

// Two outcomes at a path.
fn apart(
    alloc: Global,
    front: &[u8],
    path: Path,
    one: &[u8],
    other: &[u8],
) -> Result<Vec<u8>, Memory>
    ensures { IfOk result
        (λ words. words.items ≡ front.now
        ++ (path_text path ++ (codes ": " ++ (one.now ++ (codes " | " ++ other.now))))) }
{
    let mut words = Vec::from_slice(alloc, front)?;
    path.write_text(&mut words)?;
    words.extend_from_slice(b": ")?;
    words.extend_from_slice(one)?;
    words.extend_from_slice(b" | ")?;
    words.extend_from_slice(other)?;
    Ok(words)
}

fn joined(alloc: Global, front: &[u8], name: &str) -> Result<Vec<u8>, Memory>
    ensures { IfOk result (λ words. words.items ≡ front.now ++ name.now) }
{
    let mut words = Vec::from_slice(alloc, front)?;
    words.extend_from_slice(name.as_bytes())?;
    Ok(words)
}

fn objective_words(alloc: Global, byte: u32, cause: Cause) -> Result<Vec<u8>, Memory>
    ensures { IfOk result (λ words. words.items ≡ words_of (Refusal.Objective byte cause)) }
{
    let mut words = Vec::from_slice(alloc, b"objective: byte ")?;
    push_decimal(&mut words, u64::from(byte))?;
    words.extend_from_slice(b": ")?;
    words.extend_from_slice(cause.name().as_bytes())?;
    Ok(words)
}

fn system_words(
    alloc: Global,
    line: u32,
    column: u32,
    byte: u32,
    cause: Cause,
) -> Result<Vec<u8>, Memory>
    ensures { IfOk result
        (λ words. words.items ≡ words_of (Refusal.System line column byte cause)) }
{
    let mut words = Vec::from_slice(alloc, b"system: line ")?;
    push_decimal(&mut words, u64::from(line))?;
    words.extend_from_slice(b" column ")?;
    push_decimal(&mut words, u64::from(column))?;
    words.extend_from_slice(b" byte ")?;
    push_decimal(&mut words, u64::from(byte))?;
    words.extend_from_slice(b": ")?;
    words.extend_from_slice(cause.name().as_bytes())?;
    Ok(words)
}
