//! Steps: calls one after another over a folder, and what comes of each.
use crate::calling::{Answer, NONE, call, holds, shelf};
use pv_io::{MemFolder, Sink};
use std::alloc::Global;
use std::sync::Wait;
use std::test::Fail;
use std::thread::Threads;

pub const USAGE: &str = "usage: paver COMMAND SYSTEM [OPTIONS] [PAVING..]\n";

/// What comes of a call.
#[derive(Clone, Copy)]
pub enum Comes {
    /// A status, and what is printed.
    Prints(u8, &'static str),
    /// A status, and what is told on the standard error.
    Tells(u8, &'static str),
    /// A status, what is printed, and a file with what it holds then.
    Stores(u8, &'static str, &'static str, &'static str),
}

/// The words, and what comes of them.
pub type Step = (&'static str, Comes);

impl Comes {
    pub fn status(self) -> u8 {
        match self {
            Comes::Prints(status, _) => status,
            Comes::Tells(status, _) => status,
            Comes::Stores(status, _, _, _) => status,
        }
    }

    pub fn out(self) -> &'static str {
        match self {
            Comes::Prints(_, out) => out,
            Comes::Tells(_, _) => "",
            Comes::Stores(_, out, _, _) => out,
        }
    }

    pub fn err(self) -> &'static str {
        match self {
            Comes::Tells(_, err) => err,
            _ => "",
        }
    }
}

/// Whether a call came to this.
pub fn came_to(answer: &Answer, comes: Comes) -> bool {
    answer.is(comes.status(), comes.out(), comes.err())
}

// Whether a step came to what it is to, and stored what it is to.
fn took<R: Threads + Wait + Sync>(
    rt: &R,
    alloc: Global,
    folder: &mut MemFolder,
    step: &Step,
) -> Result<bool, Fail> {
    let (words, comes) = *step;
    let answer = call(rt, alloc, words, folder, NONE)?;
    let is_stored = match comes {
        Comes::Stores(_, _, file, text) => holds(alloc, folder, file, text),
        Comes::Prints(_, _) | Comes::Tells(_, _) => true,
    };
    Ok(is_stored && came_to(&answer, comes))
}

/// Takes steps over a folder with these files, which fails by a list. Answers the words of the
/// first step that came to something else than it is to.
pub fn follow<R: Threads + Wait + Sync>(
    rt: &R,
    alloc: Global,
    files: &[(&str, &str)],
    fails: &[u64],
    steps: &[Step],
) -> Result<Option<&'static str>, Fail> {
    let mut folder = shelf(alloc, files, fails)?;
    for step in steps {
        if !took(rt, alloc, &mut folder, step)? {
            let (words, _) = *step;
            return Ok(Some(words));
        }
    }
    Ok(None)
}

/// Of a call whose output fails at a write: whether there was such a write. What was printed before
/// is the front of what is printed where none fails. None where something else came of it.
pub fn output_failed(answer: &mut Answer, comes: Comes) -> Option<bool> {
    let whole = comes.out().as_bytes();
    let said = answer.out.bytes();
    let is_front = whole.starts_with(said);
    let is_whole = said == whole;
    if answer.out.write(b"").is_err() {
        let is_so = is_whole && came_to(answer, comes);
        return if is_so { Some(false) } else { None };
    }
    let line = b"write fault: standard output\n";
    let is_so = is_front && answer.status == 6 && answer.err.bytes() == line.as_slice();
    if is_so { Some(true) } else { None }
}
