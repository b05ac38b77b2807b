//! Rows in memory, in preorder of their paths.
ghost use Rattle.std.specs.Prelude.{◌≡◌, ◌≢◌, ◌+◌, ◌≤◌, ◌<◌, [], ◌∷◌, ◌++◌, List, Err, OnOk, OnErr, IfOk, IsErrOf, is_ok, if◌then◌else◌, length, reverse, take, vec_len, vec_capacity};
ghost use Rattle.pv_keep.specs.Rows.{InPreorder, AreDistinct, AreNew, HasNoRow, placed, all_placed, IsSplit};

use crate::keeper::LoadRefused;
use crate::order::is_before;
use crate::row::{Row, Rows};
use pv_num::Memory;
use pv_tree::Path;
use std::alloc::Global;
use std::marker::Model;

/// Rows in preorder of their paths.
#[derive(Drop)]
pub(crate) struct KeptRows {
    rows: Vec<Row>,
}

impl Model for KeptRows {
    ghost use Rattle.std.specs.Prelude.{List};
    ghost use Rattle.pv_keep.specs.declared.row.Row.{Row};
    ghost use Rattle.pv_keep.specs.Rows.{InPreorder};

    ghost Value = { List Row };

    ghost view = { λ r. r.rows.items };

    ghost invariant = { λ r. InPreorder r.rows.items };
}

// Copies of all rows, the last one first.
fn copies_of(alloc: Global, rows: &Rows) -> Result<Vec<Row>, Memory>
    ensures { IfOk result (λ copies. copies.items ≡ reverse rows.now) }
{
    let mut copies = Vec::new(alloc);
    for i in 0..rows.len() {
        copies.push(rows.get(i).clone_of(alloc)?)?;
    }
    copies.reverse();
    Ok(copies)
}

// Puts a row at its place in preorder, in reserved room.
fn place(rows: &mut Vec<Row>, row: Row)
    requires ordered { InPreorder rows.old.items }
    requires new { HasNoRow row.path rows.old.items }
    requires room { vec_len rows.old < vec_capacity rows.old }
    ensures placed { rows.new.items ≡ placed row rows.old.items }
    ensures ordered { InPreorder rows.new.items }
    ensures count { vec_len rows.new ≡ vec_len rows.old + 1 }
    ensures capacity { vec_capacity rows.new ≡ vec_capacity rows.old }
{
    let at = place_of(rows, row.path);
    match rows.insert(at, row) {
        Ok(()) => {}
        Err(_) => unreachable!(),
    }
}

// How many rows stand before a path.
fn place_of(rows: &[Row], path: Path) -> usize
    requires { InPreorder rows.now }
    ensures bound { result ≤ length rows.now }
    ensures split { IsSplit path rows.now result }
{
    rows.partition_point(|row| is_before(row.path, path))
}

// Puts rows at their places, the last one first, in reserved room.
fn place_all(rows: &mut Vec<Row>, more: Vec<Row>)
    requires ordered { InPreorder rows.old.items }
    requires distinct { AreDistinct (reverse more.items) }
    requires new { AreNew rows.old.items (reverse more.items) }
    requires room { vec_len rows.old + vec_len more ≤ vec_capacity rows.old }
    ensures placed { rows.new.items ≡ all_placed rows.old.items (reverse more.items) }
    ensures ordered { InPreorder rows.new.items }
{
    let mut more = more;
    while let Some(row) = more.pop() {
        place(rows, row);
    }
}

// Copies the first `count` rows.
fn copy_front(alloc: Global, rows: &[Row], count: usize, into: &mut Rows) -> Result<(), Memory>
    requires count { count ≤ length rows.now }
    requires empty { into.old ≡ [] }
    ensures front { OnOk result (into.new ≡ take count rows.now) }
    ensures empty { OnErr result (into.new ≡ []) }
{
    for row in &rows[..count] {
        let copied = copy_one(alloc, row, into);
        if copied.is_err() {
            into.clear();
            return copied;
        }
    }
    Ok(())
}

fn copy_one(alloc: Global, row: &Row, into: &mut Rows) -> Result<(), Memory>
    ensures copied { OnOk result (into.new ≡ into.old ++ row.now ∷ []) }
{
    let copy = row.clone_of(alloc)?;
    match into.push(copy) {
        Ok(()) => Ok(()),
        Err(_) => Err(Memory),
    }
}

impl KeptRows {
    /// No row.
    pub(crate) fn new(alloc: Global) -> KeptRows
        ensures { result ≡ [] }
    {
        KeptRows {
            rows: Vec::new(alloc),
        }
    }

    /// Puts all rows into an empty list, or the first `limit + 1` where there are more than the
    /// limit.
    pub(crate) fn load(&self, alloc: Global, limit: u64, into: &mut Rows) -> Result<(), LoadRefused>
        requires { into.old ≡ [] }
        ensures all { OnOk result ((into.new ≡ self.now) × (length self.now ≤ limit)) }
        ensures too_many { IsErrOf result LoadRefused.TooMany
            → (into.new ≡ take (limit + 1) self.now) × (limit < length self.now) }
        ensures not_failed { result ≢ Err LoadRefused.Failed }
        ensures memory { IsErrOf result LoadRefused.Memory → into.new ≡ [] }
        ensures ordered { InPreorder self.now }
    {
        let count = self.rows.len();
        if count as u64 <= limit {
            copy_front(alloc, &self.rows, count, into)?;
            return Ok(());
        }
        copy_front(alloc, &self.rows, limit as usize + 1, into)?;
        Err(LoadRefused::TooMany)
    }

    /// Takes further rows. After a refusal all is as before.
    pub(crate) fn add(&mut self, alloc: Global, rows: &Rows) -> Result<(), Memory>
        requires distinct { AreDistinct rows.now }
        requires new { AreNew self.old rows.now }
        ensures { self.new ≡ (if is_ok result then all_placed self.old rows.now else self.old) }
    {
        let copies = copies_of(alloc, rows)?;
        self.rows.reserve(copies.len())?;
        place_all(&mut self.rows, copies);
        Ok(())
    }
}
