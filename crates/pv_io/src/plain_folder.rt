//! A folder in memory that never fails.
ghost use Rattle.std.specs.Prelude.{◌≡◌, ◌≢◌, [], ◌++◌, ℕ, ◌+◌, ◌<◌, ◌≤◌, List, length, take, IfSome, OnOk, OnErr, IsErrOf};
ghost use Rattle.pv_io.specs.Outside.{Content, IsWhole, IsTooLong, MayBeAbsent, holds};
ghost use Rattle.pv_io.specs.Scripted.{content_of};
ghost use Rattle.pv_io.specs.Shelf.{kept};

use crate::{FetchRefused, Folder, IoRefused};
use std::alloc::{AllocError, Global};
use std::collections::BTreeMap;

/// A folder in memory that never fails. It tells what each name holds.
#[derive(Drop)]
pub struct PlainFolder {
    alloc: Global,
    files: BTreeMap<String, Vec<u8>>,
}

impl PlainFolder {
    /// A folder with these files.
    pub fn new(alloc: Global, files: BTreeMap<String, Vec<u8>>) -> Self
        ensures { (name : List ℕ) → kept result name ≡ content_of files name }
    {
        PlainFolder { alloc, files }
    }
}

// Copies at most `limit` bytes and one more.
fn copy_front(whole: &[u8], limit: u64, into: &mut Vec<u8>) -> Result<(), FetchRefused>
    requires { into.old.items ≡ [] }
    ensures whole { OnOk result ((into.new.items ≡ whole.now) × (length whole.now ≤ limit)) }
    ensures too_long { IsErrOf result FetchRefused.TooLong
        → (into.new.items ≡ take (limit + 1) whole.now) × (limit < length whole.now) }
    ensures absent { result ≢ Err FetchRefused.Absent }
    ensures failed { result ≢ Err FetchRefused.Failed }
    ensures memory { IsErrOf result FetchRefused.Memory → into.new.items ≡ [] }
{
    if whole.len() as u64 <= limit {
        into.extend_from_slice(whole)?;
        return Ok(());
    }
    into.extend_from_slice(&whole[..limit as usize + 1])?;
    Err(FetchRefused::TooLong)
}

fn put(
    alloc: Global,
    files: &mut BTreeMap<String, Vec<u8>>,
    name: &str,
    bytes: &[u8],
) -> Result<(), AllocError>
    ensures whole { OnOk result (content_of files.new name.now ≡ holds bytes.now) }
    ensures err { OnErr result (content_of files.new name.now ≡ content_of files.old name.now) }
    ensures others { (other : List ℕ)
        → other ≢ name.now → content_of files.new other ≡ content_of files.old other }
{
    let key = String::from_str(alloc, name)?;
    files.insert(key, bytes.to_vec(alloc)?)?;
    Ok(())
}

impl Folder for PlainFolder {
    ghost content = { kept };

    ghost fetch_faults = { λ _. 0 };

    ghost store_faults = { λ _. 0 };

    fn fetch(&mut self, name: &str, limit: u64, into: &mut Vec<u8>) -> Result<(), FetchRefused> {
        match self.files.get(name) {
            None => Err(FetchRefused::Absent),
            Some(whole) => copy_front(whole, limit, into),
        }
    }

    fn store(&mut self, name: &str, bytes: &[u8]) -> Result<(), IoRefused> {
        put(self.alloc, &mut self.files, name, bytes)?;
        Ok(())
    }
}
