//! Commands over a folder in memory, whose workers enter a gate.
use pv_cli::{Gate, paver_main};
use pv_io::{Folder, MemFolder, MemSink};
use pv_keep::MemKeeper;
use pv_num::Memory;
use std::alloc::Global;
use std::collections::BTreeMap;
use std::sync::Wait;
use std::thread::Threads;

/// How a command ended, and what it printed and told.
#[derive(Drop)]
pub(crate) struct Ended {
    status: u8,
    out: MemSink,
    err: MemSink,
}

impl Ended {
    /// Whether it has a status, told nothing, and printed what begins like this.
    pub(crate) fn is(&self, status: u8, front: &str) -> bool {
        self.status == status
            && self.err.bytes().is_empty()
            && self.out.bytes().starts_with(front.as_bytes())
    }
}

/// A folder that holds the system `s`.
pub(crate) fn folder_with(alloc: Global, system: &str) -> Result<MemFolder, Memory> {
    let mut files = BTreeMap::new(alloc);
    files.insert(
        String::from_str(alloc, "s")?,
        system.as_bytes().to_vec(alloc)?,
    )?;
    Ok(MemFolder::new(alloc, files, Vec::new(alloc)))
}

/// What a line of words comes to, of which the first is the program's name.
pub(crate) fn call<R: Threads + Wait + Sync, G: Gate + Sync>(
    rt: &R,
    alloc: Global,
    line: &str,
    folder: &mut MemFolder,
    gate: &G,
) -> Result<Ended, Memory> {
    let mut words = Vec::new(alloc);
    for word in line.split(' ') {
        words.push(String::from_str(alloc, word)?)?;
    }
    Ok(answer(rt, alloc, &words, folder, gate))
}

// The top call by itself, so that no proof but this one carries what it promises.
fn answer<R: Threads + Wait + Sync, G: Gate + Sync>(
    rt: &R,
    alloc: Global,
    words: &[String],
    folder: &mut MemFolder,
    gate: &G,
) -> Ended {
    let mut out = MemSink::new(alloc, Vec::new(alloc));
    let mut err = MemSink::new(alloc, Vec::new(alloc));
    let mut keeper = MemKeeper::new(alloc, Vec::new(alloc));
    let status = paver_main(
        rt,
        alloc,
        words,
        folder,
        &mut out,
        &mut err,
        gate,
        &mut keeper,
    );
    Ended {
        status: status.code(),
        out,
        err,
    }
}

/// The bytes of a file. None where there is no such file, or a longer one than a megabyte.
pub(crate) fn stored(alloc: Global, folder: &mut MemFolder, name: &str) -> Option<Vec<u8>> {
    let mut bytes = Vec::new(alloc);
    folder.fetch(name, 1_000_000, &mut bytes).ok()?;
    Some(bytes)
}
