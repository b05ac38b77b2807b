//! A paving by several workers of boxes that cost next to nothing to settle, so that tickets are
//! what is measured: prints how many nodes were settled, and by how many tickets.
//!
//!     bench_workers 14 4
//!
//! The first number says into how many strips a square is cut, 2 to the power of it, from 1 to 22,
//! before each strip is cut once more; the second is that of the workers, of which there are 1 to
//! 16. The first cut is made beforehand, so that one worker goes by tickets too.
#![tactic(auto)]

mod strips;

use std::{env, io};
use strips::pave_strips;

fn main(rt: HostRuntime) -> io::Result<()> {
    let mut cuts = 0;
    let mut workers = 0;
    for word in env::args(&rt)? {
        let number = word.as_str().parse().unwrap_or(0);
        if cuts == 0 {
            cuts = number;
        } else {
            workers = number;
        }
    }
    match pave_strips(&rt, rt.alloc(), cuts, workers) {
        Ok(paved) => println!(rt; "{} nodes, {} tickets", paved.nodes, paved.tickets),
        Err(_) => println!(rt; "no memory"),
    }
}
