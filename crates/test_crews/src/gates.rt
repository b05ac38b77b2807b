//! Gates that see what workers do at once.
use pv_pool::Gate;
use pv_tree::Path;
use std::sync::atomic::{AtomicBool, AtomicU64, Ordering};
use std::thread;
use std::time::{Clock, Duration};

// The places for counts. A worker counts in the place of its number.
const PLACES: usize = 16;

// So often a worker looks whether the others came. It sleeps in between, so that is 10 seconds at
// least.
const LOOKS: u32 = 100_000;

const MICROSECONDS_BETWEEN: u64 = 100;

/// A gate at which `many` workers wait for each other, for a bounded time. A worker comes to it at
/// the first node that it settles at `from` steps or more, and waits from its settling number
/// `free` of such nodes on, counted from 0, until `many` workers came.
#[derive(Drop)]
pub struct Meeting<'a, C> {
    clock: &'a C,
    many: u64,
    from: u32,
    free: u64,
    settled: [AtomicU64; PLACES],
    came: AtomicU64,
    missed: AtomicBool,
}

impl<'a, C: Clock> Meeting<'a, C> {
    /// Nobody came yet.
    pub fn new(clock: &'a C, many: u64, from: u32, free: u64) -> Self {
        Meeting {
            clock,
            many,
            from,
            free,
            settled: std::array::from_fn(|_| AtomicU64::new(0)),
            came: AtomicU64::new(0),
            missed: AtomicBool::new(false),
        }
    }

    /// Whether all came, and nobody waited for too long.
    pub fn has_met(&self) -> bool {
        self.are_there() && !self.missed.load(Ordering::SeqCst)
    }

    fn are_there(&self) -> bool {
        self.many <= self.came.load(Ordering::SeqCst)
    }

    fn wait(&self) {
        for _ in 0..LOOKS {
            if self.are_there() || self.missed.load(Ordering::SeqCst) {
                return;
            }
            thread::sleep(self.clock, Duration::from_micros(MICROSECONDS_BETWEEN));
        }
        self.missed.store(true, Ordering::SeqCst);
    }
}

impl<'a, C: Clock> Gate for Meeting<'a, C> {
    fn enter(&self, worker: u64, path: Path) {
        if path.len() < self.from {
            return;
        }
        let own = count_at(&self.settled, worker);
        if own == 0 {
            self.came.fetch_add(1, Ordering::SeqCst);
        }
        if self.free <= own {
            self.wait();
        }
    }
}

/// A gate that counts the settlings of each worker. Each 16th takes some time more, until `many`
/// workers settled something.
#[derive(Drop)]
pub struct Pace<'a, C> {
    clock: &'a C,
    many: u64,
    time: Duration,
    settled: [AtomicU64; PLACES],
}

impl<'a, C: Clock> Pace<'a, C> {
    /// Nothing was settled yet.
    pub fn new(clock: &'a C, many: u64, time: Duration) -> Self {
        Pace {
            clock,
            many,
            time,
            settled: std::array::from_fn(|_| AtomicU64::new(0)),
        }
    }

    /// How many workers settled a node.
    pub fn workers(&self) -> u64 {
        let mut workers = 0u64;
        for settled in &self.settled {
            let own = settled.load(Ordering::SeqCst);
            workers = workers.saturating_add(own.min(1));
        }
        workers
    }
}

impl<'a, C: Clock> Gate for Pace<'a, C> {
    fn enter(&self, worker: u64, _path: Path) {
        if count_at(&self.settled, worker) % 16 == 15 && self.workers() < self.many {
            thread::sleep(self.clock, self.time);
        }
    }
}

// Counts a settling of a worker, and answers how many it had before.
fn count_at(settled: &[AtomicU64; PLACES], worker: u64) -> u64 {
    settled[worker as usize % PLACES].fetch_add(1, Ordering::SeqCst)
}
