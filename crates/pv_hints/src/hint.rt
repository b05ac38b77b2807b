//! Which hint follows a refusal's line.
use crate::pavings::hint_on_pavings;
use crate::systems::hint_on_system;
use crate::wish::wants_hints;
use crate::words::hint_on_words;
use pv_args::read;
use pv_io::{Folder, Sink};
use pv_num::Memory;
use pv_request::{Request, Status};
use std::alloc::Global;

/// Writes the hint on how a command ended, of which word 0 is the program's name. It is written where
/// standard error is a terminal, or `PAVER_HINTS` is `1`; where that is `0`, never. The files of a
/// refused command are read once more for it; where memory is wanting then, there is no hint.
pub fn tell_hint<F: Folder, E: Sink>(
    rt: &HostRuntime,
    words: &[String],
    status: Status,
    folder: &mut F,
    err: &mut E,
) {
    if status != Status::Done && wants_hints(rt) {
        if let Ok(line) = line_on(rt.alloc(), words, status, folder) {
            let _ = err.write(&line);
        }
    }
}

// The whole hint, or nothing.
fn line_on<F: Folder>(
    alloc: Global,
    words: &[String],
    status: Status,
    folder: &mut F,
) -> Result<Vec<u8>, Memory> {
    let mut line = Vec::new(alloc);
    if let Some(hint) = hint_on(alloc, words, status, folder)? {
        line.extend_from_slice(b"hint: ")?;
        line.extend_from_slice(&hint)?;
    }
    Ok(line)
}

fn hint_on<F: Folder>(
    alloc: Global,
    words: &[String],
    status: Status,
    folder: &mut F,
) -> Result<Option<Vec<u8>>, Memory> {
    let request = match read(alloc, words) {
        Ok(request) => request,
        Err(_) => return hint_on_words(alloc, words),
    };
    let found = match status {
        Status::Usage | Status::SystemRefused => hint_on_system(alloc, folder, &request)?,
        Status::PavingRefused => hint_on_pavings(alloc, folder, &request)?,
        _ => None,
    };
    match found {
        Some(hint) => Ok(Some(hint)),
        None => plain(alloc, sentence_on(status, &request)),
    }
}

fn plain(alloc: Global, sentence: &str) -> Result<Option<Vec<u8>>, Memory> {
    let mut out = Vec::from_slice(alloc, sentence.as_bytes())?;
    out.push(b'\n')?;
    Ok(Some(out))
}

// What can be said by the status alone.
fn sentence_on(status: Status, request: &Request<'_>) -> &'static str {
    match status {
        Status::OpenLeft => how_to_go_on(request),
        Status::PavingRefused => {
            "give the file as paver stored it by --out; a paving of over 100,000 settled nodes wants --limit"
        }
        Status::ReadFault => "a file has to be one that can be read, and no folder",
        Status::WriteFault => "see whether the folder is there and may be written, and has room",
        Status::WantOfMemory => "give a smaller --boxes or a larger --eps, or more memory",
        Status::TreeLimit => "give a larger --limit, up to 100000000, or a smaller --boxes",
        Status::Disagree => "one file was altered or is not of this program: ask each by audit",
        Status::KeeperFault =>
            "the name after --keep has to be a database that paver made, or none yet",
        Status::NoFile => "names count from the folder in which the command is called",
        Status::Done | Status::Usage | Status::SystemRefused => {
            "paver COMMAND SYSTEM [OPTIONS] [PAVING..]: docs/USING.md has each command"
        }
    }
}

// How a command goes on whose budget ended.
fn how_to_go_on(request: &Request<'_>) -> &'static str {
    match request {
        Request::Run { out: Some(_), .. } => {
            "the budget ended: go on by resume with the stored file and the same settings, or give more --boxes"
        }
        Request::Resume { .. } | Request::Merge { .. } => {
            "leaves are open: go on by resume with the stored files and the same settings"
        }
        Request::Campaign { .. } => "the rounds ended: call it again to go on",
        Request::Least { .. } => "the bounds hold; more --boxes bring them closer",
        _ => "the budget ended: give more --boxes, or --out FILE and go on by resume",
    }
}
