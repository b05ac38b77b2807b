//! A folder in memory whose calls fail by a list.
ghost use Rattle.std.specs.Prelude.{◌≡◌, ◌≢◌, ◌↔◌, ℕ, ◌≤◌, List, [], OnOk, IsErrOf, Contains};
ghost use Rattle.pv_io.specs.Outside.{Rose, IsWhole, IsTooLong, MayBeAbsent, IsOldOrNew, stored};
ghost use Rattle.pv_io.specs.Answers.{turns_after_fetch, faults_after_fetch, turns_after_store, faults_after_store};
ghost use Rattle.pv_io.specs.Scripted.{content_of};
ghost use Rattle.pv_io.specs.Shelf.{kept_in, turns_of, fetch_faults_of, store_faults_of};

use crate::script::Script;
use crate::{FetchRefused, Folder, IoRefused, PlainFolder};
use std::alloc::Global;
use std::collections::BTreeMap;

/// A folder in memory whose calls fail by a list of their numbers.
#[derive(Drop)]
pub struct MemFolder {
    plain: PlainFolder,
    script: Script,
    fetch_faults: u64,
    store_faults: u64,
}

impl MemFolder {
    /// A folder with these files. Its calls are numbered from 0, and those in the list fail.
    pub fn new(alloc: Global, files: BTreeMap<String, Vec<u8>>, fail: Vec<u64>) -> Self
        ensures content { (name : List ℕ) → kept_in result name ≡ content_of files name }
        ensures turns { turns_of result ≡ record { failing = fail.items; next = 0 } }
        ensures no_fetch_fault { fetch_faults_of result ≡ 0 }
        ensures no_store_fault { store_faults_of result ≡ 0 }
    {
        MemFolder {
            plain: PlainFolder::new(alloc, files),
            script: Script::new(fail),
            fetch_faults: 0,
            store_faults: 0,
        }
    }
}

impl Folder for MemFolder {
    ghost content = { kept_in };

    ghost fetch_faults = { fetch_faults_of };

    ghost store_faults = { store_faults_of };

    fn fetch(&mut self, name: &str, limit: u64, into: &mut Vec<u8>) -> Result<(), FetchRefused>
        requires { into.old.items ≡ [] }
        ensures whole { OnOk result (IsWhole (kept_in self.old name.now) limit into.new.items) }
        ensures too_long { IsErrOf result FetchRefused.TooLong
            → IsTooLong (kept_in self.old name.now) limit into.new.items }
        ensures absent { IsErrOf result FetchRefused.Absent
            → MayBeAbsent (kept_in self.old name.now) }
        ensures cause { IsErrOf result FetchRefused.Failed
            → Rose (fetch_faults_of self.old) (fetch_faults_of self.new) }
        ensures empty_absent { IsErrOf result FetchRefused.Absent → into.new.items ≡ [] }
        ensures empty_failed { IsErrOf result FetchRefused.Failed → into.new.items ≡ [] }
        ensures empty_memory { IsErrOf result FetchRefused.Memory → into.new.items ≡ [] }
        ensures no_fault { IsErrOf result FetchRefused.Memory
            → fetch_faults_of self.new ≡ fetch_faults_of self.old }
        ensures unchanged { (other : List ℕ) → kept_in self.new other ≡ kept_in self.old other }
        ensures counts_on { fetch_faults_of self.old ≤ fetch_faults_of self.new }
        ensures no_store_fault { store_faults_of self.new ≡ store_faults_of self.old }

        // Beyond what every folder says: which calls fail, and what is counted.
        ensures fails { IsErrOf result FetchRefused.Failed
            ↔ Contains (turns_of self.old).failing (turns_of self.old).next }
        ensures turns { turns_of self.new ≡ turns_after_fetch result (turns_of self.old) }
        ensures faults { fetch_faults_of self.new ≡
            faults_after_fetch result (fetch_faults_of self.old) }
    {
        if self.script.fails() {
            self.script.advance();
            self.fetch_faults = self.fetch_faults.saturating_add(1);
            return Err(FetchRefused::Failed);
        }
        let answer = self.plain.fetch(name, limit, into);
        if answer != Err(FetchRefused::Memory) {
            self.script.advance();
        }
        answer
    }

    fn store(&mut self, name: &str, bytes: &[u8]) -> Result<(), IoRefused>
        ensures whole { OnOk result (kept_in self.new name.now ≡
            stored (kept_in self.old name.now) bytes.now) }
        ensures cause { IsErrOf result IoRefused.Failed
            → Rose (store_faults_of self.old) (store_faults_of self.new) }
        ensures old_or_new { IsErrOf result IoRefused.Failed
            → IsOldOrNew (kept_in self.old name.now) (kept_in self.new name.now) bytes.now }
        ensures unchanged { IsErrOf result IoRefused.Memory
            → kept_in self.new name.now ≡ kept_in self.old name.now }
        ensures no_fault { IsErrOf result IoRefused.Memory
            → store_faults_of self.new ≡ store_faults_of self.old }
        ensures others { (other : List ℕ)
            → other ≢ name.now → kept_in self.new other ≡ kept_in self.old other }
        ensures counts_on { store_faults_of self.old ≤ store_faults_of self.new }
        ensures no_fetch_fault { fetch_faults_of self.new ≡ fetch_faults_of self.old }

        // Beyond what every folder says: which calls fail, and what is counted.
        ensures fails { IsErrOf result IoRefused.Failed
            ↔ Contains (turns_of self.old).failing (turns_of self.old).next }
        ensures turns { turns_of self.new ≡ turns_after_store result (turns_of self.old) }
        ensures faults { store_faults_of self.new ≡
            faults_after_store result (store_faults_of self.old) }
    {
        if self.script.fails() {
            self.script.advance();
            self.store_faults = self.store_faults.saturating_add(1);
            return Err(IoRefused::Failed);
        }
        self.plain.store(name, bytes)?;
        self.script.advance();
        Ok(())
    }
}
