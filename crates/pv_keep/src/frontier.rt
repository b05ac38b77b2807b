//! The leaves of a paving that are still open.
ghost use Rattle.std.specs.Prelude.{◌≡◌, IfOk};
ghost use Rattle.pv_tree.specs.Trees.{opens};

use pv_num::Memory;
use pv_tree::{Path, Paving};
use std::alloc::Global;
use std::marker::Model;

/// The open leaves of a paving, in preorder.
#[derive(Drop)]
pub struct Frontier {
    leaves: Vec<Path>,
}

impl Model for Frontier {
    ghost use Rattle.std.specs.Prelude.{List, Bool};

    ghost Value = { List (List Bool) };

    ghost view = { λ f. f.leaves.items };
}

impl Frontier {
    /// The open leaves of a paving. It passes over what is closed.
    ///
    /// # Errors
    ///
    /// Want of memory.
    pub fn of(alloc: Global, paving: &Paving) -> Result<Frontier, Memory>
        ensures { IfOk result (λ f. f ≡ opens paving.now.tree) }
    {
        let mut leaves = Vec::new(alloc);
        let mut open = paving.first_open();
        while let Some(path) = open {
            leaves.push(path)?;
            open = paving.next_open(path);
        }
        Ok(Frontier { leaves })
    }

    /// The leaves.
    pub(crate) fn leaves(&self) -> &[Path]
        ensures { result.now ≡ self.now }
    {
        &self.leaves
    }
}
