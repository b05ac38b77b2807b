//! The folder of the machine.
ghost use Rattle.std.specs.Prelude.{◌≡◌, ◌≢◌, ℕ, [], ◌+◌, ◌≤◌, ◌<◌, length, IsErrOf, OnOk};
ghost use Rattle.std.specs.Io.KnownBytes.{Consumes, IsAtEnd};
ghost use Rattle.pv_io.specs.Outside.{untold};
ghost use Rattle.pv_io.specs.Real.{TakesIn, real_fetch_faults, real_store_faults};

use crate::replaced::{is_one_file, store_whole};
use crate::{FetchRefused, Folder, IoRefused};
use std::fs;
use std::fs::File;
use std::io::{ErrorKind, Read};

const CHUNK: usize = 16384;

/// What leads to the streams to which a program prints.
const STREAMS: [&str; 2] = ["/dev/stdout", "/dev/stderr"];

/// What takes all bytes and keeps none.
const NOWHERE: &str = "/dev/null";

/// The folder in which the program runs. It tells nothing of what its files hold.
#[derive(Drop)]
pub struct RealFolder<'a> {
    rt: &'a HostRuntime,
    fetch_faults: u64,
    store_faults: u64,
}

impl<'a> RealFolder<'a> {
    /// A folder that has met no fault, over the machine's files.
    pub fn new(rt: &'a HostRuntime) -> Self
        ensures no_fetch_fault { real_fetch_faults result ≡ 0 }
        ensures no_store_fault { real_store_faults result ≡ 0 }
    {
        RealFolder {
            rt,
            fetch_faults: 0,
            store_faults: 0,
        }
    }
}

// What one read gave.
enum Turn {
    More,
    End,
    Fault,
    Memory,
}

impl Folder for RealFolder<'_> {
    ghost content = { λ _ _. untold };

    ghost fetch_faults = { real_fetch_faults };

    ghost store_faults = { real_store_faults };

    fn fetch(&mut self, name: &str, limit: u64, into: &mut Vec<u8>) -> Result<(), FetchRefused> {
        let answer = read_file(self.rt, name, limit, into);
        match answer {
            Ok(()) | Err(FetchRefused::TooLong) => {}
            Err(FetchRefused::Failed) => {
                into.clear();
                self.fetch_faults = self.fetch_faults.saturating_add(1);
            }
            Err(_) => into.clear(),
        }
        answer
    }

    fn store(&mut self, name: &str, bytes: &[u8]) -> Result<(), IoRefused> {
        let answer = store_whole(self.rt, name, bytes);
        if answer == Err(IoRefused::Failed) {
            self.store_faults = self.store_faults.saturating_add(1);
        }
        answer
    }

    fn are_one(&self, one: &str, other: &str) -> bool {
        one == other || lead_to_one(self.rt, one, other)
    }

    fn is_stream(&self, name: &str) -> bool {
        STREAMS
            .iter()
            .any(|stream| lead_to_one(self.rt, name, stream))
            && !lead_to_one(self.rt, name, NOWHERE)
    }
}

// Whether two names lead to one file, as far as the machine tells.
fn lead_to_one(rt: &HostRuntime, one: &str, other: &str) -> bool {
    match (fs::metadata(rt, one), fs::metadata(rt, other)) {
        (Ok(one), Ok(other)) => is_one_file(&one, &other),
        _ => false,
    }
}

fn read_file(
    rt: &HostRuntime,
    name: &str,
    limit: u64,
    into: &mut Vec<u8>,
) -> Result<(), FetchRefused>
    requires { into.old.items ≡ [] }
    ensures whole { OnOk result (length into.new.items ≤ limit) }
    ensures too_long { IsErrOf result FetchRefused.TooLong → length into.new.items ≡ limit + 1 }
{
    match File::open(rt, name) {
        Ok(mut file) => read_up_to(&mut file, limit, into),
        Err(e) if e.kind() == ErrorKind::NotFound => Err(FetchRefused::Absent),
        Err(_) => Err(FetchRefused::Failed),
    }
}

/// Reads to the end, and no more than one byte past the limit. A read that a signal cut short is
/// tried again.
pub fn read_up_to<F: Read>(file: &mut F, limit: u64, into: &mut Vec<u8>) -> Result<(), FetchRefused>
    requires { into.old.items ≡ [] }
    ensures whole { OnOk result (length into.new.items ≤ limit) }
    ensures too_long { IsErrOf result FetchRefused.TooLong → length into.new.items ≡ limit + 1 }
    ensures read { OnOk result (Consumes (F.remaining file.old)
        (F.remaining file.new) into.new.items) }
    ensures end { OnOk result (IsAtEnd (F.remaining file.new)) }
    ensures front { IsErrOf result FetchRefused.TooLong
        → Consumes (F.remaining file.old) (F.remaining file.new) into.new.items }
{
    let mut buffer = [0u8; CHUNK];
    for _ in 0..u64::MAX {
        let have = into.len() as u64;
        if have > limit {
            return Err(FetchRefused::TooLong);
        }
        let room = (limit - have).min(CHUNK as u64 - 1) as usize + 1;
        match read_some(file, &mut buffer[..room], into) {
            Turn::More => {}
            Turn::End => return Ok(()),
            Turn::Fault => return Err(FetchRefused::Failed),
            Turn::Memory => return Err(FetchRefused::Memory),
        }
    }
    Err(FetchRefused::Failed)
}

// One read, whose bytes go after those that are there. A read that a signal cut short is tried
// again.
fn read_some<F: Read>(file: &mut F, buffer: &mut [u8], into: &mut Vec<u8>) -> Turn
    requires { 0 < length buffer.old }
    ensures no_more { length into.new.items ≤ length into.old.items + length buffer.old }
    ensures end { result ≡ Turn.End
        → (into.new.items ≡ into.old.items) × IsAtEnd (F.remaining file.new) }
    ensures read { result ≢ Turn.Memory
        → TakesIn (F.remaining file.old) (F.remaining file.new) into.old.items into.new.items }
{
    match file.read(buffer) {
        Ok(0) => Turn::End,
        Ok(count) => match into.extend_from_slice(&buffer[..count]) {
            Ok(()) => Turn::More,
            Err(_) => Turn::Memory,
        },
        Err(e) if e.kind() == ErrorKind::Interrupted => Turn::More,
        Err(_) => Turn::Fault,
    }
}
