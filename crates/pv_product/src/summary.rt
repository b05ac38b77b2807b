//! The summary line of a paving.
ghost use Rattle.std.specs.Prelude.{◌≡◌, ◌+◌, ◌^◌, ◌<◌, ◌++◌, IfOk, OnOk, decimal};
ghost use Rattle.pv_tree.specs.Trees.{counts_of};
ghost use Rattle.pv_product.specs.Products.{summary_of};

use pv_num::Memory;
use pv_request::push_decimal;
use pv_tree::{Counts, Paving};
use std::alloc::Global;

/// How many nodes a paving has of each kind, as a line.
pub fn summary(alloc: Global, p: &Paving) -> Result<Vec<u8>, Memory>
    ensures { IfOk result (λ text. text.items ≡ summary_of (counts_of p.now.tree)) }
{
    let mut text = Vec::new(alloc);
    push_counts(p.counts(), &mut text)?;
    Ok(text)
}

#[tactic(auto, unfolding(crate::specs::Products::summary_of))]
/// Appends how many nodes there are of each kind.
pub fn push_counts(counts: Counts, out: &mut Vec<u8>) -> Result<(), Memory>
    requires { counts.cut + counts.removed + counts.inner + counts.small < 2 ^ 64 }
    ensures { OnOk result (out.new.items ≡ out.old.items ++ summary_of counts) }
{
    push_count(b"settled ", counts.settled(), out)?;
    push_count(b" cut ", counts.cut, out)?;
    push_count(b" removed ", counts.removed, out)?;
    push_count(b" inner ", counts.inner, out)?;
    push_count(b" small ", counts.small, out)?;
    push_count(b" open ", counts.open_leaves, out)?;
    out.push(b'\n')?;
    Ok(())
}

fn push_count(word: &[u8], count: u64, out: &mut Vec<u8>) -> Result<(), Memory>
    ensures { OnOk result (out.new.items ≡ out.old.items ++ (word.now ++ decimal count)) }
{
    out.extend_from_slice(word)?;
    push_decimal(out, count)?;
    Ok(())
}
