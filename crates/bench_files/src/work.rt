//! What is measured.

use pv_box::IBox;
use pv_file::{FileRefused, read, write, write_lines};
use pv_interval::Interval;
use pv_io::PlainSink;
use pv_num::{Memory, Num};
use pv_tree::Paving;
use std::alloc::Global;

/// What is done with the file.
#[derive(Clone, Copy, PartialEq, Eq)]
pub enum Work {
    Nothing,
    Read,
    Write,
    Lines,
}

impl Work {
    pub fn named(word: &str) -> Option<Work> {
        match word {
            "none" => Some(Work::Nothing),
            "read" => Some(Work::Read),
            "write" => Some(Work::Write),
            "lines" => Some(Work::Lines),
            _ => None,
        }
    }
}

const IDENTITY: [u8; 32] = [0x2a; 32];

/// What came of the work.
#[derive(Clone, Copy)]
pub struct Done {
    pub settled: u64,
    pub bytes: usize,
}

/// The box of [0,1] four times.
fn root(alloc: Global) -> Result<IBox, Memory> {
    let place = Interval::new(Num::ZERO, Num::ONE).unwrap_or(Interval::ALL);
    Ok(IBox::new(vec![in alloc; place, place, place, place]?))
}

fn settled(paving: &Paving) -> u64 {
    paving.counts().settled()
}

fn once(alloc: Global, work: Work, text: &[u8], paving: &Paving) -> Result<Done, FileRefused> {
    let mut sink = PlainSink::new(alloc);
    let done = settled(paving);
    match work {
        Work::Nothing => {}
        Work::Read => {
            let root = root(alloc)?;
            let again = read(alloc, text, IDENTITY, &root)?;
            return Ok(Done {
                settled: settled(&again),
                bytes: text.len(),
            });
        }
        Work::Write => {
            let _ = write(alloc, paving, IDENTITY, &mut sink);
        }
        Work::Lines => {
            let _ = write_lines(alloc, paving, &mut sink);
        }
    }
    Ok(Done {
        settled: done,
        bytes: sink.bytes().len(),
    })
}

/// Reads the file, and then does the work `times` times.
pub fn after(alloc: Global, work: Work, times: u64, text: &[u8]) -> Result<Done, FileRefused> {
    let root = root(alloc)?;
    let paving = read(alloc, text, IDENTITY, &root)?;
    let mut done = Done {
        settled: settled(&paving),
        bytes: 0,
    };
    for _ in 0..times {
        done = once(alloc, work, text, &paving)?;
    }
    Ok(done)
}
