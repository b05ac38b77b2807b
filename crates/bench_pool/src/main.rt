//! Many small jobs by the workers of a pool, for measuring: prints how many were worked.
//!
//!     bench_pool 1000000 4
//!
//! The first number is that of the jobs, the second that of the workers, of which there are 1 to
//! 16.
#![tactic(auto)]

mod jobs;

use jobs::work_all;
use std::{env, io};

fn main(rt: HostRuntime) -> io::Result<()> {
    let mut jobs = 0;
    let mut workers = 0;
    for word in env::args(&rt)? {
        let number = word.as_str().parse().unwrap_or(0);
        if jobs == 0 {
            jobs = number;
        } else {
            workers = number;
        }
    }
    match work_all(&rt, rt.alloc(), jobs, workers) {
        Ok(worked) => println!(rt; "{worked} jobs"),
        Err(_) => println!(rt; "no memory"),
    }
}
