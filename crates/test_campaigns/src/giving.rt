//! A keeper that gives some rows once, whatever they are, and tells nothing.
ghost use Rattle.pv_keep.specs.Keeping.{untold};
ghost use Rattle.pv_keep.specs.Shelves.{name_of};

use pv_keep::{BeginRefused, KeepRefused, Keeper, Line, LoadRefused, Row, Rows};
use pv_tree::Path;
use std::alloc::Global;
use std::test::Fail;

/// A keeper that has some rows, and keeps no more.
#[derive(Drop)]
pub(crate) struct Giving {
    pub alloc: Global,
    pub rows: Rows,
    pub begun: Option<String>,
}

impl Keeper for Giving {
    ghost begun = { λ k. name_of k.begun };

    ghost kept = { λ _ _. untold };

    ghost faults = { λ _. 0 };

    fn begin(&mut self, name: &str, _identity: [u8; 32]) -> Result<(), BeginRefused> {
        self.begun = None;
        let name = String::from_str(self.alloc, name)?;
        self.begun = Some(name);
        Ok(())
    }

    fn load(&mut self, limit: u64, into: &mut Rows) -> Result<(), LoadRefused> {
        let rows = std::mem::replace(&mut self.rows, Rows::new(self.alloc));
        let count = rows.len();
        if count <= limit {
            *into = rows;
            return Ok(());
        }
        if count == limit + 1 {
            *into = rows;
            return Err(LoadRefused::TooMany);
        }
        Err(LoadRefused::Memory)
    }

    fn save(&mut self, _rows: &Rows) -> Result<(), KeepRefused> {
        Err(KeepRefused::Memory)
    }
}

/// So many rows of one path.
pub(crate) fn rows_of(alloc: Global, path: Path, count: u32) -> Result<Rows, Fail> {
    let mut rows = Rows::new(alloc);
    for _ in 0..count {
        let line = match Line::of(alloc, b"X") {
            Ok(Some(line)) => line,
            _ => return Err("no line")?,
        };
        if rows.push(Row { path, line }).is_err() {
            return Err("no memory")?;
        }
    }
    Ok(rows)
}
