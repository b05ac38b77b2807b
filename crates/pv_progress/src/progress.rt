//! The count of a run, by its workers.
use crate::line::line_of;
use pv_io::takes_all;
use pv_pool::Gate;
use pv_tree::Path;
use std::alloc::AllocError;
use std::env::Env;
use std::io::IsTerminal;
use std::sync::atomic::{AtomicU64, Ordering};
use std::time::Instant;

// The places for counts. A worker counts in the place of its number.
const PLACES: usize = 16;

// A worker looks at the clock each time that it has settled so many nodes more.
const BETWEEN_LOOKS: u64 = 32;

// The milliseconds between two lines, and until the first one.
const BETWEEN_LINES: u64 = 500;

const UNTIL_FIRST: u64 = 1000;

// At least as many blanks as a line has bytes.
const BLANKS: [u8; 96] = [b' '; 96];

// One worker's count, far from the others' in memory, so that no two workers write to one cache
// line.
#[derive(Drop)]
struct Place {
    settled: AtomicU64,
    _apart: [u64; 15],
}

impl Place {
    fn new() -> Place {
        Place {
            settled: AtomicU64::new(0),
            _apart: [0; 15],
        }
    }
}

// What the environment says of the line.
enum Wish {
    Shown,
    Hidden,
    OnTerminals,
}

/// Counts what workers settle, and shows the count on standard error in one line that is written
/// anew twice a second.
///
/// It is shown where standard error is a terminal, from a second after the beginning on. Where
/// `PAVER_PROGRESS` is `1` it is shown from the first settling on, terminal or not, and where it is
/// `0` not at all.
#[derive(Drop)]
pub struct Progress<'a> {
    rt: &'a HostRuntime,
    // None where no line is to be shown.
    begun: Option<Instant>,
    places: [Place; PLACES],
    // When the next line is due, in milliseconds after the beginning.
    due: AtomicU64,
    // How many bytes the line has that is shown now.
    shown: AtomicU64,
}

impl<'a> Progress<'a> {
    /// Nothing was settled yet.
    pub fn new(rt: &'a HostRuntime) -> Self {
        let (shows, first) = match asked(rt) {
            Wish::Shown => (true, 0),
            Wish::Hidden => (false, 0),
            Wish::OnTerminals => (rt.stderr().is_terminal(), UNTIL_FIRST),
        };
        let begun = if shows { Instant::now(rt).ok() } else { None };
        Progress {
            rt,
            begun,
            places: std::array::from_fn(|_| Place::new()),
            due: AtomicU64::new(first),
            shown: AtomicU64::new(0),
        }
    }

    /// Wipes the line, where one is shown. It is to be called while no worker is at work.
    pub fn clear(&self) {
        if self.shown.load(Ordering::SeqCst) == 0 {
            return;
        }
        let width = self.shown.swap(0, Ordering::SeqCst);
        self.put(b"\r");
        self.put(blanks(width));
        self.put(b"\r");
    }

    // Shows a line, where one is due.
    fn look(&self, begun: &Instant) {
        let Ok(passed) = begun.elapsed(self.rt) else {
            return;
        };
        let now = u64::try_from(passed.as_millis()).unwrap_or(u64::MAX);
        let due = self.due.load(Ordering::SeqCst);
        let next = now.saturating_add(BETWEEN_LINES);
        if now < due {
            return;
        }
        // Of workers that look at once, one shows the line.
        let is_first = self
            .due
            .compare_exchange(due, next, Ordering::SeqCst, Ordering::SeqCst)
            .is_ok();
        if is_first {
            // Where memory is wanting there is no line.
            let _ = self.show(now);
        }
    }

    fn show(&self, milliseconds: u64) -> Result<(), AllocError> {
        let (settled, workers) = self.counted();
        let line = line_of(self.rt.alloc(), settled, milliseconds, workers)?;
        let width = line.len() as u64;
        let before = self.shown.swap(width, Ordering::SeqCst);
        let mut text = Vec::new(self.rt.alloc());
        text.push(b'\r')?;
        text.extend_from_slice(&line)?;
        text.extend_from_slice(blanks(before.saturating_sub(width)))?;
        self.put(&text);
        Ok(())
    }

    // How much was settled, and by how many workers.
    fn counted(&self) -> (u64, u64) {
        let mut settled = 0u64;
        let mut workers = 0u64;
        for place in &self.places {
            let own = place.settled.load(Ordering::SeqCst);
            settled = settled.saturating_add(own);
            workers = workers.saturating_add(own.min(1));
        }
        (settled, workers)
    }

    // Writes to standard error. What it doesn't take is lost, as the line is of no account.
    fn put(&self, bytes: &[u8]) {
        let mut err = self.rt.stderr();
        takes_all(&mut err, bytes);
    }
}

impl Gate for Progress<'_> {
    fn enter(&self, worker: u64, _path: Path) {
        if let Some(begun) = &self.begun
            && count_at(&self.places, worker) % BETWEEN_LOOKS == 0
        {
            self.look(begun);
        }
    }
}

// Counts a settling of a worker, and answers how many it had before.
fn count_at(places: &[Place; PLACES], worker: u64) -> u64 {
    places[worker as usize % PLACES]
        .settled
        .fetch_add(1, Ordering::SeqCst)
}

fn asked(rt: &HostRuntime) -> Wish {
    let mut value = [0u8; 2];
    match rt.var("PAVER_PROGRESS", &mut value) {
        Ok(1) if value[0] == b'1' => Wish::Shown,
        Ok(1) if value[0] == b'0' => Wish::Hidden,
        _ => Wish::OnTerminals,
    }
}

fn blanks(width: u64) -> &'static [u8] {
    &BLANKS[..(width as usize).min(BLANKS.len())]
}
