//! A keeper in memory whose calls fail by a list.
ghost use Rattle.std.specs.Prelude.{◌≡◌, ◌≢◌, ◌↔◌, ℕ, ◌≤◌, List, [], Option, Some, None, Err, IsSome, OnOk, OnErr, IsErrOf, Contains};
ghost use Rattle.pv_io.specs.Outside.{Rose};
ghost use Rattle.pv_io.specs.Scripted.{advanced, one_more};
ghost use Rattle.pv_keep.specs.Rows.{AreDistinct};
ghost use Rattle.pv_keep.specs.Keeping.{absent, holds, IsBegun, HasOther, MayBeThere, IsOrdered, AreAll, AreTooMany, MayBeNew, with_rows};
ghost use Rattle.pv_keep.specs.Shelves.{content_of, kept_in, begun_in, name_of, turns_of, faults_of, turns_after_begin, faults_after_begin, turns_after_load, faults_after_load, turns_after_save, faults_after_save};

use crate::keeper::{BeginRefused, Keeper, LoadRefused};
use crate::kept_rows::KeptRows;
use crate::row::Rows;
use pv_io::{IoRefused, Script};
use pv_num::Memory;
use std::alloc::{AllocError, Global};
use std::collections::BTreeMap;

/// What is kept under one name.
#[derive(Drop)]
pub(crate) struct Shelf {
    identity: [u8; 32],
    rows: KeptRows,
}

/// A keeper in memory whose calls fail by a list of their numbers. It tells what it keeps.
#[derive(Drop)]
pub struct MemKeeper {
    alloc: Global,
    shelves: BTreeMap<String, Shelf>,
    begun: Option<String>,
    script: Script,
    faults: u64,
}

// An empty shelf under a name that was absent.
fn add_shelf(
    alloc: Global,
    shelves: &mut BTreeMap<String, Shelf>,
    name: &str,
    identity: [u8; 32],
) -> Result<(), AllocError>
    requires { content_of shelves.old name.now ≡ absent }
    ensures there { OnOk result (content_of shelves.new name.now ≡ holds identity []) }
    ensures refused { OnErr result (content_of shelves.new name.now ≡ absent) }
    ensures others { (other : List ℕ)
        → other ≢ name.now → content_of shelves.new other ≡ content_of shelves.old other }
{
    let key = String::from_str(alloc, name)?;
    let shelf = Shelf {
        identity,
        rows: KeptRows::new(alloc),
    };
    shelves.insert(key, shelf)?;
    Ok(())
}

// Sees to it that a name is there with an identity.
fn find_or_add(
    alloc: Global,
    shelves: &mut BTreeMap<String, Shelf>,
    name: &str,
    identity: [u8; 32],
) -> Result<(), BeginRefused>
    ensures there { OnOk result (IsBegun (content_of shelves.old name.now)
        (content_of shelves.new name.now) identity) }
    ensures other { (found : List ℕ) → result ≡ Err (BeginRefused.OtherIdentity found)
        → HasOther (content_of shelves.old name.now) identity found }
    ensures not_failed { result ≢ Err BeginRefused.Failed }
    ensures unchanged { OnErr result (content_of shelves.new name.now ≡
        content_of shelves.old name.now) }
    ensures others { (other : List ℕ)
        → other ≢ name.now → content_of shelves.new other ≡ content_of shelves.old other }
{
    match shelves.get(name) {
        None => add_shelf(alloc, shelves, name, identity)?,
        Some(shelf) => {
            if shelf.identity != identity {
                return Err(BeginRefused::OtherIdentity {
                    kept: shelf.identity,
                });
            }
        }
    }
    Ok(())
}

fn shelf_of<'a>(shelves: &'a BTreeMap<String, Shelf>, name: &str) -> &'a Shelf
    requires { MayBeThere (content_of shelves.now name.now) }
    ensures { content_of shelves.now name.now ≡ holds result.now.identity result.now.rows }
{
    match shelves.get(name) {
        Some(shelf) => shelf,
        None => unreachable!(),
    }
}

// Puts further rows on the shelf under a name.
fn add_rows(
    alloc: Global,
    shelves: &mut BTreeMap<String, Shelf>,
    name: &str,
    rows: &Rows,
) -> Result<(), Memory>
    requires there { MayBeThere (content_of shelves.old name.now) }
    requires distinct { AreDistinct rows.now }
    requires new { MayBeNew (content_of shelves.old name.now) rows.now }
    ensures added { OnOk result (content_of shelves.new name.now ≡
        with_rows (content_of shelves.old name.now) rows.now) }
    ensures refused { OnErr result (content_of shelves.new name.now ≡
        content_of shelves.old name.now) }
    ensures others { (other : List ℕ)
        → other ≢ name.now → content_of shelves.new other ≡ content_of shelves.old other }
{
    match shelves.get_mut(name) {
        Some(shelf) => shelf.rows.add(alloc, rows),
        None => unreachable!(),
    }
}

impl MemKeeper {
    /// A keeper that keeps nothing. Its calls are numbered from 0, and those in the list fail.
    pub fn new(alloc: Global, fail: Vec<u64>) -> MemKeeper
        ensures kept { (name : List ℕ) → kept_in result name ≡ absent }
        ensures begun { begun_in result ≡ None }
        ensures turns { turns_of result ≡ record { failing = fail.items; next = 0 } }
        ensures no_fault { faults_of result ≡ 0 }
    {
        MemKeeper {
            alloc,
            shelves: BTreeMap::new(alloc),
            begun: None,
            script: Script::new(fail),
            faults: 0,
        }
    }

    // Counts a call that fails.
    fn fail(&mut self)
        ensures kept { (name : List ℕ) → kept_in self.new name ≡ kept_in self.old name }
        ensures begun { begun_in self.new ≡ begun_in self.old }
        ensures turns { turns_of self.new ≡ advanced (turns_of self.old) }
        ensures faults { faults_of self.new ≡ one_more (faults_of self.old) }
        ensures rose { Rose (faults_of self.old) (faults_of self.new) }
        ensures counts_on { faults_of self.old ≤ faults_of self.new }
    {
        self.script.advance();
        self.faults = self.faults.saturating_add(1);
    }

    // Begins a name in a call that does not fail.
    fn begin_name(&mut self, name: &str, identity: [u8; 32]) -> Result<(), BeginRefused>
        ensures begun { OnOk result (begun_in self.new ≡ Some name.now) }
        ensures there { OnOk result
            (IsBegun (kept_in self.old name.now) (kept_in self.new name.now) identity) }
        ensures other { (found : List ℕ) → result ≡ Err (BeginRefused.OtherIdentity found)
            → HasOther (kept_in self.old name.now) identity found }
        ensures not_failed { result ≢ Err BeginRefused.Failed }
        ensures none { OnErr result (begun_in self.new ≡ None) }
        ensures unchanged { OnErr result (kept_in self.new name.now ≡ kept_in self.old name.now) }
        ensures others { (other : List ℕ)
            → other ≢ name.now → kept_in self.new other ≡ kept_in self.old other }
        ensures turns { turns_of self.new ≡ turns_of self.old }
        ensures faults { faults_of self.new ≡ faults_of self.old }
    {
        self.begun = None;
        let begun = String::from_str(self.alloc, name)?;
        find_or_add(self.alloc, &mut self.shelves, name, identity)?;
        self.begun = Some(begun);
        Ok(())
    }
}

impl Keeper for MemKeeper {
    ghost begun = { begun_in };

    ghost kept = { kept_in };

    ghost faults = { faults_of };

    fn begin(&mut self, name: &str, identity: [u8; 32]) -> Result<(), BeginRefused>
        ensures begun { OnOk result (begun_in self.new ≡ Some name.now) }
        ensures there { OnOk result
            (IsBegun (kept_in self.old name.now) (kept_in self.new name.now) identity) }
        ensures other { (found : List ℕ) → result ≡ Err (BeginRefused.OtherIdentity found)
            → HasOther (kept_in self.old name.now) identity found }
        ensures none { OnErr result (begun_in self.new ≡ None) }
        ensures unchanged { OnErr result (kept_in self.new name.now ≡ kept_in self.old name.now) }
        ensures others { (other : List ℕ)
            → other ≢ name.now → kept_in self.new other ≡ kept_in self.old other }
        ensures cause { IsErrOf result BeginRefused.Failed →
            Rose (faults_of self.old) (faults_of self.new) }
        ensures no_fault { IsErrOf result BeginRefused.Memory → faults_of self.new ≡
            faults_of self.old }
        ensures counts_on { faults_of self.old ≤ faults_of self.new }

        // Beyond what every keeper says: which calls fail, and what is counted.
        ensures fails { IsErrOf result BeginRefused.Failed
            ↔ Contains (turns_of self.old).failing (turns_of self.old).next }
        ensures turns { turns_of self.new ≡ turns_after_begin result (turns_of self.old) }
        ensures faults { faults_of self.new ≡ faults_after_begin result (faults_of self.old) }
    {
        if self.script.fails() {
            self.begun = None;
            self.fail();
            return Err(BeginRefused::Failed);
        }
        let answer = self.begin_name(name, identity);
        if answer != Err(BeginRefused::Memory) {
            self.script.advance();
        }
        answer
    }

    fn load(&mut self, limit: u64, into: &mut Rows) -> Result<(), LoadRefused>
        requires begun { IsSome (begun_in self.old) }
        requires there { (name : List ℕ) → begun_in self.old ≡ Some name →
            MayBeThere (kept_in self.old name) }
        requires empty { into.old ≡ [] }
        ensures all { (name : List ℕ) → begun_in self.old ≡ Some name
            → OnOk result (AreAll (kept_in self.old name) limit into.new) }
        ensures too_many { (name : List ℕ) → begun_in self.old ≡ Some name
            → IsErrOf result LoadRefused.TooMany
            → AreTooMany (kept_in self.old name) limit into.new }
        ensures ordered { (name : List ℕ) → begun_in self.old ≡ Some name
            → OnOk result (IsOrdered (kept_in self.old name)) }
        ensures empty_failed { IsErrOf result LoadRefused.Failed → into.new ≡ [] }
        ensures empty_memory { IsErrOf result LoadRefused.Memory → into.new ≡ [] }
        ensures begun { begun_in self.new ≡ begun_in self.old }
        ensures unchanged { (name : List ℕ) → kept_in self.new name ≡ kept_in self.old name }
        ensures cause { IsErrOf result LoadRefused.Failed →
            Rose (faults_of self.old) (faults_of self.new) }
        ensures no_fault { IsErrOf result LoadRefused.Memory → faults_of self.new ≡
            faults_of self.old }
        ensures counts_on { faults_of self.old ≤ faults_of self.new }

        // Beyond what every keeper says: which calls fail, and what is counted.
        ensures fails { IsErrOf result LoadRefused.Failed
            ↔ Contains (turns_of self.old).failing (turns_of self.old).next }
        ensures turns { turns_of self.new ≡ turns_after_load result (turns_of self.old) }
        ensures faults { faults_of self.new ≡ faults_after_load result (faults_of self.old) }
    {
        if self.script.fails() {
            self.fail();
            return Err(LoadRefused::Failed);
        }
        let Some(name) = &self.begun else {
            unreachable!()
        };
        let shelf = shelf_of(&self.shelves, name.as_str());
        let answer = shelf.rows.load(self.alloc, limit, into);
        if answer != Err(LoadRefused::Memory) {
            self.script.advance();
        }
        answer
    }

    fn save(&mut self, rows: &Rows) -> Result<(), IoRefused>
        requires begun { IsSome (begun_in self.old) }
        requires there { (name : List ℕ) → begun_in self.old ≡ Some name →
            MayBeThere (kept_in self.old name) }
        requires distinct { AreDistinct rows.now }
        requires new { (name : List ℕ) → begun_in self.old ≡ Some name →
            MayBeNew (kept_in self.old name) rows.now }
        ensures saved { (name : List ℕ) → begun_in self.old ≡ Some name
            → OnOk result (kept_in self.new name ≡ with_rows (kept_in self.old name) rows.now) }
        ensures unchanged { (name : List ℕ) → begun_in self.old ≡ Some name
            → OnErr result (kept_in self.new name ≡ kept_in self.old name) }
        ensures others { (name other : List ℕ) → begun_in self.old ≡ Some name
            → other ≢ name → kept_in self.new other ≡ kept_in self.old other }
        ensures begun { begun_in self.new ≡ begun_in self.old }
        ensures cause { IsErrOf result IoRefused.Failed →
            Rose (faults_of self.old) (faults_of self.new) }
        ensures no_fault { IsErrOf result IoRefused.Memory → faults_of self.new ≡
            faults_of self.old }
        ensures counts_on { faults_of self.old ≤ faults_of self.new }

        // Beyond what every keeper says: which calls fail, and what is counted.
        ensures fails { IsErrOf result IoRefused.Failed
            ↔ Contains (turns_of self.old).failing (turns_of self.old).next }
        ensures turns { turns_of self.new ≡ turns_after_save result (turns_of self.old) }
        ensures faults { faults_of self.new ≡ faults_after_save result (faults_of self.old) }
    {
        if self.script.fails() {
            self.fail();
            return Err(IoRefused::Failed);
        }
        let Some(name) = &self.begun else {
            unreachable!()
        };
        add_rows(self.alloc, &mut self.shelves, name.as_str(), rows)?;
        self.script.advance();
        Ok(())
    }
}
