//! Work on a paving file, for measuring: prints how many settled nodes it has, and how many bytes
//! were written.
//!
//!     bench_files paving write 10
//!
//! The file is one over [0,1] in 4 variables, for the identity of 32 bytes 2a. It is read once, and
//! then the named work is done as often as the words say.
#![tactic(auto)]

mod work;

use pv_io::{Folder, RealFolder};
use std::{env, io};
use work::{Work, after};

fn main(rt: HostRuntime) -> io::Result<()> {
    let mut work = Work::Nothing;
    let mut times = 0;
    let mut text = Vec::new(rt.alloc());
    let mut folder = RealFolder::new(&rt);
    for word in env::args(&rt)? {
        match Work::named(word.as_str()) {
            Some(named) => work = named,
            None => match word.as_str().parse() {
                Ok(count) => times = count,
                Err(_) => {
                    text.clear();
                    let _ = folder.fetch(word.as_str(), 70_000_000, &mut text);
                }
            },
        }
    }
    match after(rt.alloc(), work, times, &text) {
        Ok(done) => println!(rt; "settled {} bytes {}", done.settled, done.bytes),
        Err(_) => println!(rt; "no paving"),
    }
}
