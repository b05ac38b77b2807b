//! Dependent chains of operations on numbers, for measuring: prints the last number.
//!
//!     bench_numbers add 10000000
#![tactic(auto)]

mod chain;

use chain::{Operation, last_of};
use std::{env, io};

fn main(rt: HostRuntime) -> io::Result<()> {
    let mut operation = Operation::Nothing;
    let mut steps = 0;
    for word in env::args(&rt)? {
        match Operation::named(word.as_str()) {
            Some(named) => operation = named,
            None => steps = word.as_str().parse().unwrap_or(0),
        }
    }
    let last = last_of(rt.alloc(), operation, steps);
    println!(rt; "{:?}", last.parts())
}
