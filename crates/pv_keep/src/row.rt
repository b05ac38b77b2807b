//! Rows: the paths of settled nodes, each with the node's line.
ghost use Rattle.std.specs.Prelude.{◌≡◌, ◌<◌, ◌^◌, ◌++◌, [], ◌∷◌, IfOk, IfErr, if◌then◌else◌, is_ok, length, slice_index_or};

use crate::line::Line;
use pv_num::Memory;
use pv_tree::Path;
use std::alloc::Global;
use std::marker::Model;

/// A settled node: its path and its line.
#[derive(Drop)]
pub struct Row {
    pub path: Path,
    pub line: Line,
}

impl Row {
    /// An equal row.
    pub(crate) fn clone_of(&self, alloc: Global) -> Result<Row, Memory>
        ensures { IfOk result (λ row. row ≡ self.now) }
    {
        let line = self.line.clone_of(alloc)?;
        Ok(Row {
            path: self.path,
            line,
        })
    }
}

/// A row that found no memory.
#[derive(Drop)]
pub struct RowRefused {
    pub row: Row,
}

/// A list of rows.
#[derive(Drop)]
pub struct Rows {
    items: Vec<Row>,
}

impl Model for Rows {
    ghost use Rattle.std.specs.Prelude.{List};
    ghost use Rattle.pv_keep.specs.declared.row.Row.{Row};

    ghost Value = { List Row };

    ghost view = { λ r. r.items.items };
}

impl Rows {
    /// No row.
    pub fn new(alloc: Global) -> Rows
        ensures { result ≡ [] }
    {
        Rows {
            items: Vec::new(alloc),
        }
    }

    /// The number of rows.
    pub fn len(&self) -> u64
        ensures count { result ≡ length self.now }
        ensures few { length self.now < 2 ^ 63 }
    {
        self.items.len() as u64
    }

    /// The row with a number, counted from 0.
    pub fn get(&self, i: u64) -> &Row
        requires { i < length self.now }
        ensures { result.now ≡ slice_index_or self.now i result.now }
    {
        &self.items[i as usize]
    }

    /// Appends a row. Want of memory hands the row back.
    pub fn push(&mut self, row: Row) -> Result<(), RowRefused>
        ensures appended { self.new ≡ (if is_ok result then self.old ++ row ∷ [] else self.old) }
        ensures back { IfErr result (λ e. e.row ≡ row) }
    {
        match self.items.push(row) {
            Ok(()) => Ok(()),
            Err(refused) => Err(RowRefused { row: refused.value }),
        }
    }

    /// Drops all rows.
    pub(crate) fn clear(&mut self)
        ensures { self.new ≡ [] }
    {
        self.items.clear();
    }
}
