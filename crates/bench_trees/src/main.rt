//! Work on a large tree, for measuring: prints how many nodes of each kind were counted.
//!
//!     bench_trees join 10
//!
//! The tree has 98,815 settled nodes: 256 combs under a binary tree of 8 levels, with paths of up
//! to 200 steps. It is made once, and then the named work is done as often as the words say.
#![tactic(auto)]

mod work;

use std::{env, io};
use work::{Work, after};

fn main(rt: HostRuntime) -> io::Result<()> {
    let mut work = Work::Nothing;
    let mut times = 0;
    for word in env::args(&rt)? {
        match Work::named(word.as_str()) {
            Some(named) => work = named,
            None => times = word.as_str().parse().unwrap_or(0),
        }
    }
    match after(rt.alloc(), work, times) {
        Ok(counts) => println!(rt; "{counts:?}"),
        Err(_) => println!(rt; "no memory"),
    }
}
