//! One worker's part of a paving's lines.
ghost use Rattle.std.specs.Prelude.{◌≡◌, [], ◌∷◌, IfOk, IfSome, OnOk, Some, length};
ghost use Rattle.pv_tree.specs.Pieces.{root_piece};
ghost use Rattle.pv_file.specs.Walks.{after_steps, AreWritten};

use crate::lines::scratch_box;
use crate::version::Version;
use crate::writer::push_visited;
use pv_box::IBox;
use pv_num::Memory;
use pv_tree::{Paving, Walk};
use std::alloc::Global;
use std::marker::Model;
use std::mem;

/// Goes over a paving's nodes in preorder, and makes the lines of some of them.
#[derive(Drop)]
pub struct Scribe<'a> {
    walk: Walk<'a>,
    bx: IBox,
    to: IBox,
    text: Vec<u8>,
    whole: bool,
    // Far from the next scribe's fields in memory, so that no two scribes write to one cache line.
    _apart: [u64; 16],
}

impl<'a> Model for Scribe<'a> {
    ghost use Rattle.std.specs.Prelude.{◌≡◌, length};
    ghost use Rattle.pv_file.specs.Scribes.{Scribed, coded_scribed, scribed};

    ghost Value = { Scribed };

    ghost coded = { coded_scribed };

    ghost view = { λ a. scribed a.walk a.whole a.text.items };

    ghost invariant = { λ a. (length a.bx ≡ length a.walk.root) × (length a.to ≡ length a.walk.root) };
}

impl<'a> Scribe<'a> {
    /// A scribe to whom all nodes are to come.
    pub fn of(alloc: Global, p: &'a Paving) -> Result<Scribe<'a>, Memory>
        ensures { IfOk result (λ s. s.pending ≡ root_piece p.now.root p.now.tree ∷ []) }
    {
        let walk = Walk::of(alloc, p)?;
        let bx = scratch_box(alloc, p.dims())?;
        let to = scratch_box(alloc, p.dims())?;
        Ok(Scribe {
            walk,
            bx,
            to,
            text: Vec::new(alloc),
            whole: true,
            _apart: [0; 16],
        })
    }

    /// A scribe that stands where this one does, and has made no lines.
    pub fn clone_of(&self, alloc: Global) -> Result<Scribe<'a>, Memory>
        ensures { IfOk result (λ s. s.pending ≡ self.now.pending) }
    {
        let walk = self.walk.clone_of(alloc)?;
        let bx = scratch_box(alloc, self.bx.dims())?;
        let to = scratch_box(alloc, self.bx.dims())?;
        Ok(Scribe {
            walk,
            bx,
            to,
            text: Vec::new(alloc),
            whole: true,
            _apart: [0; 16],
        })
    }

    /// Passes `nodes` nodes, or all that are to come.
    pub fn pass(&mut self, nodes: u64)
        ensures come { self.new.pending ≡ after_steps nodes self.old.pending }
        ensures text { self.new.text ≡ self.old.text }
    {
        skip(&mut self.walk, nodes);
    }

    /// Makes the lines of `nodes` nodes, or of all that are to come, in place of those made before.
    pub fn make(&mut self, version: Version, nodes: u64)
        ensures { IfSome self.new.text
            (λ t. AreWritten version nodes self.old.pending self.new.pending t) }
    {
        self.text.clear();
        let made = push_lines(
            &mut self.walk,
            version,
            nodes,
            &mut self.bx,
            &mut self.to,
            &mut self.text,
        );
        self.whole = made.is_ok();
    }

    /// Hands over the lines made last, and gets a text in exchange whose room serves the next ones.
    /// There are none where memory was wanting.
    pub fn take_text(&mut self, into: &mut Vec<u8>) -> Result<(), Memory>
        ensures come { self.new.pending ≡ self.old.pending }
        ensures text { OnOk result (self.old.text ≡ Some into.new.items) }
    {
        if !self.whole {
            return Err(Memory);
        }
        mem::swap(&mut self.text, into);
        Ok(())
    }
}

// Takes `nodes` steps of a walk, or all that are left.
fn skip(walk: &mut Walk<'_>, nodes: u64)
    ensures root { walk.new.root ≡ walk.old.root }
    ensures come { walk.new.pending ≡ after_steps nodes walk.old.pending }
{
    let mut left = nodes;
    while left > 0 {
        let Some(_) = walk.next() else {
            return;
        };
        left -= 1;
    }
}

// Writes the lines of `nodes` nodes, or of all that are to come.
fn push_lines(
    walk: &mut Walk<'_>,
    version: Version,
    nodes: u64,
    bx: &mut IBox,
    to: &mut IBox,
    out: &mut Vec<u8>,
) -> Result<(), Memory>
    requires bx { length bx.old ≡ length walk.old.root }
    requires to { length to.old ≡ length walk.old.root }
    requires empty { out.old.items ≡ [] }
    ensures root { walk.new.root ≡ walk.old.root }
    ensures bx { length bx.new ≡ length bx.old }
    ensures to { length to.new ≡ length to.old }
    ensures written { OnOk result
        (AreWritten version nodes walk.old.pending walk.new.pending out.new.items) }
{
    let mut left = nodes;
    while left > 0 {
        let Some(shape) = walk.next() else {
            return Ok(());
        };
        push_visited(walk, shape, version, bx, to, out)?;
        left -= 1;
    }
    Ok(())
}
