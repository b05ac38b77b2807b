//! Calls of the top call over a folder, a keeper and streams in memory, whose calls fail by lists.
use pv_cli::{Gate, NoGate, paver_main};
use pv_io::{FetchRefused, Folder, MemFolder, MemSink};
use pv_keep::{Keeper, MemKeeper};
use std::alloc::Global;
use std::collections::BTreeMap;
use std::sync::Wait;
use std::test::Fail;
use std::thread::Threads;

/// The numbers of the calls that fail, of each part of the outside.
#[derive(Clone, Copy)]
pub struct Fails<'a> {
    pub folder: &'a [u64],
    pub out: &'a [u64],
    pub err: &'a [u64],
    pub keeper: &'a [u64],
}

pub const NONE: Fails<'static> = Fails {
    folder: &[],
    out: &[],
    err: &[],
    keeper: &[],
};

/// What a call came to.
#[derive(Drop)]
pub struct Answer {
    pub status: u8,
    pub out: MemSink,
    pub err: MemSink,
}

impl Answer {
    /// Whether the call ended with this status, and printed and told this.
    pub fn is(&self, status: u8, out: &str, err: &str) -> bool {
        self.status == status
            && self.out.bytes() == out.as_bytes()
            && self.err.bytes() == err.as_bytes()
    }
}

// The words of a command line, behind the program's name.
fn words_of(alloc: Global, words: &str) -> Result<Vec<String>, Fail> {
    let mut list = vec![in alloc; String::from_str(alloc, "paver")?]?;
    for word in words.split(' ').filter(|w| !w.is_empty()) {
        list.push(String::from_str(alloc, word)?)?;
    }
    Ok(list)
}

// The top call by itself, so that no proof but this one carries what it promises.
fn paver<R: Threads + Wait + Sync, G: Gate + Sync, P: Keeper>(
    rt: &R,
    alloc: Global,
    words: &[String],
    folder: &mut MemFolder,
    out: &mut MemSink,
    err: &mut MemSink,
    gate: &G,
    keeper: &mut P,
) -> u8 {
    paver_main(rt, alloc, words, folder, out, err, gate, keeper).code()
}

/// What the words come to, where the streams fail.
pub fn call<R: Threads + Wait + Sync>(
    rt: &R,
    alloc: Global,
    words: &str,
    folder: &mut MemFolder,
    fails: Fails<'_>,
) -> Result<Answer, Fail> {
    let mut keeper = MemKeeper::new(alloc, Vec::new(alloc));
    call_keeping(rt, alloc, words, folder, fails, &mut keeper)
}

/// What they come to over a keeper.
pub fn call_keeping<R: Threads + Wait + Sync, P: Keeper>(
    rt: &R,
    alloc: Global,
    words: &str,
    folder: &mut MemFolder,
    fails: Fails<'_>,
    keeper: &mut P,
) -> Result<Answer, Fail> {
    call_at(rt, alloc, words, folder, fails, &NoGate, keeper)
}

/// What they come to over a keeper, where each worker enters a gate.
pub fn call_at<R: Threads + Wait + Sync, G: Gate + Sync, P: Keeper>(
    rt: &R,
    alloc: Global,
    words: &str,
    folder: &mut MemFolder,
    fails: Fails<'_>,
    gate: &G,
    keeper: &mut P,
) -> Result<Answer, Fail> {
    let list = words_of(alloc, words)?;
    let mut out = MemSink::new(alloc, fails.out.to_vec(alloc)?);
    let mut err = MemSink::new(alloc, fails.err.to_vec(alloc)?);
    let status = paver(rt, alloc, &list, folder, &mut out, &mut err, gate, keeper);
    Ok(Answer { status, out, err })
}

/// A folder with these files, which fails by a list.
pub fn shelf(alloc: Global, files: &[(&str, &str)], fails: &[u64]) -> Result<MemFolder, Fail> {
    let mut map = BTreeMap::new(alloc);
    for (name, text) in files {
        let name = String::from_str(alloc, name)?;
        map.insert(name, text.as_bytes().to_vec(alloc)?)?;
    }
    Ok(MemFolder::new(alloc, map, fails.to_vec(alloc)?))
}

/// Whether a file holds this.
pub fn holds(alloc: Global, folder: &mut MemFolder, name: &str, text: &str) -> bool {
    let mut held = Vec::new(alloc);
    let found = folder.fetch(name, 100_000, &mut held);
    found.is_ok() && held.as_slice() == text.as_bytes()
}

/// Whether there is no such file.
pub fn lacks(alloc: Global, folder: &mut MemFolder, name: &str) -> bool {
    let mut none = Vec::new(alloc);
    let found = folder.fetch(name, 100_000, &mut none);
    matches!(found, Err(FetchRefused::Absent))
}
