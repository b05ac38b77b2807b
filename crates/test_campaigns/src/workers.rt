//! Commands that several workers work on.
ghost use Rattle.std.specs.Prelude.{◌≡◌, length, IfOk};
ghost use Rattle.pv_settle.specs.Rules.{dims_of};
ghost use Rattle.pv_settle.specs.Settlers.{rule_of};
ghost use Rattle.pv_board.specs.Rules.{settled_in};

use crate::settings::settler_of;
use pv_box::IBox;
use pv_cli::{Gate, NoGate, pave};
use pv_io::{Folder, MemFolder};
use pv_keep::MemKeeper;
use pv_num::{Memory, Num};
use pv_settle::SystemSettler;
use pv_tree::{Outcome, Path, Paving, Settler};
use std::alloc::Global;
use std::process::Abort;
use std::sync::Wait;
use std::sync::atomic::{AtomicBool, Ordering};
use std::test::Fail;
use std::thread;
use std::thread::Threads;
use std::time::{Clock, Duration};
use test_calls::Comes::{self, Prints, Stores};
use test_calls::texts::{PART, SUMMARY, SYSTEM, TWO_DISCS, WHOLE};
use test_calls::{Answer, NONE, Step, call, call_at, holds, shelf};

// The command with `workers` workers. It tells nothing on the standard error.
fn call_by<R: Abort + Threads + Wait + Sync>(
    rt: &R,
    alloc: Global,
    folder: &mut MemFolder,
    words: &str,
    workers: u32,
) -> Result<Answer, Fail> {
    let words = format!(in alloc; "{words} --workers {workers}")?;
    let answer = call(rt, alloc, &words, folder, NONE)?;
    assert_eq!(rt; answer.err.bytes(), "".as_bytes(), "{words}");
    Ok(answer)
}

// The bytes of a file.
fn held(alloc: Global, folder: &mut MemFolder, name: &str) -> Result<Vec<u8>, Fail> {
    let mut bytes = Vec::new(alloc);
    let _found = folder.fetch(name, 100_000, &mut bytes);
    Ok(bytes)
}

// A budget of one and the whole, stored, and gone on with. What is printed begins like this.
const TURNS: [Step; 6] = [
    ("run s --eps 0.25", Prints(0, SUMMARY)),
    (
        "run s --eps 0.25 --boxes 1 --out a",
        Stores(1, "settled 1 ", "a", PART),
    ),
    (
        "run s --eps 0.25 --boxes 5 --out b",
        Stores(0, SUMMARY, "b", WHOLE),
    ),
    ("run s --eps 0.25 --boxes 4", Prints(1, "settled 4 ")),
    (
        "resume s a --eps 0.25 --boxes 4 --out c",
        Stores(0, SUMMARY, "c", WHOLE),
    ),
    ("resume s a --eps 0.25 --boxes 3", Prints(1, "settled 4 ")),
];

fn take_turn<R: Abort + Threads + Wait + Sync>(
    rt: &R,
    alloc: Global,
    folder: &mut MemFolder,
    turn: &Step,
    workers: u32,
) -> Result<(), Fail> {
    let (words, comes) = *turn;
    let answer = call_by(rt, alloc, folder, words, workers)?;
    assert_eq!(rt; answer.status, comes.status(), "{words}");
    assert!(rt;
        answer.out.bytes().starts_with(comes.out().as_bytes()),
        "{words}"
    );
    if let Comes::Stores(_, _, file, text) = comes {
        assert!(rt; holds(alloc, folder, file, text), "{words}");
    }
    Ok(())
}

fn take_turns<R: Abort + Threads + Wait + Sync>(
    rt: &R,
    alloc: Global,
    workers: u32,
) -> Result<(), Fail> {
    let mut folder = shelf(alloc, &[("s", SYSTEM)], &[])?;
    for turn in &TURNS {
        take_turn(rt, alloc, &mut folder, turn, workers)?;
    }
    Ok(())
}

#[test]
fn the_line_by_one_two_and_eight(rt: HostRuntime) -> Result<(), Fail> {
    let alloc = rt.alloc();
    for workers in [1u32, 2, 8] {
        take_turns(&rt, alloc, workers)?;
    }
    Ok(())
}

// The two discs, stored under another name than by one worker, are the same bytes.
fn paves_as_one<R: Abort + Threads + Wait + Sync>(
    rt: &R,
    alloc: Global,
    folder: &mut MemFolder,
    workers: u32,
) -> Result<(), Fail> {
    let more = call_by(rt, alloc, folder, "run s --out q", workers)?;
    assert_eq!(rt; more.status, 0);
    let one = held(alloc, folder, "p")?;
    let other = held(alloc, folder, "q")?;
    assert_eq!(rt; other.as_slice(), one.as_slice());
    Ok(())
}

#[test]
fn two_discs_by_one_two_and_eight(rt: HostRuntime) -> Result<(), Fail> {
    let alloc = rt.alloc();
    let mut folder = shelf(alloc, &[("s", TWO_DISCS)], &[])?;
    let one = call_by(&rt, alloc, &mut folder, "run s --out p", 1)?;
    assert_eq!(rt; one.status, 0);
    for workers in [2u32, 8] {
        paves_as_one(&rt, alloc, &mut folder, workers)?;
    }
    Ok(())
}

#[test]
fn a_budget_ends_eight_workers(rt: HostRuntime) -> Result<(), Fail> {
    let alloc = rt.alloc();
    let mut folder = shelf(alloc, &[("s", TWO_DISCS)], &[])?;
    let answer = call_by(&rt, alloc, &mut folder, "run s --boxes 100", 8)?;
    assert_eq!(rt; answer.status, 1);
    assert!(rt; answer.out.bytes().starts_with(b"settled 100 "));
    Ok(())
}

// The open search box of a settler.
fn opened(alloc: Global, settler: &SystemSettler) -> Result<Paving, Memory>
    ensures dims { IfOk result (λ p. length p.root ≡ dims_of (rule_of settler.now)) }
    ensures none { IfOk result (λ p. settled_in p.tree ≡ 0) }
{
    let root = settler.search_box(alloc)?;
    Paving::open(alloc, root)
}

// Whether a paving has so many cuts, inner and small boxes, and nothing else.
fn has(paving: &Paving, cut: u64, inner: u64, small: u64) -> bool {
    let counts = paving.counts();
    counts.cut == cut
        && counts.removed == 0
        && counts.inner == inner
        && counts.small == small
        && counts.open_leaves == 0
}

// Whether one worker hands in fewer tickets than there are nodes, and makes the paving of 323
// settled nodes.
fn hands_stages_in<R: Threads + Wait + Sync>(rt: &R, alloc: Global) -> Option<bool> {
    let settler = settler_of(alloc, TWO_DISCS, -3)?;
    let opening = opened(alloc, &settler).ok()?;
    let paved = pave(rt, alloc, &settler, opening, 20000, 1, &NoGate).ok()?;
    Some(paved.spent < 323 && has(&paved.paving, 161, 74, 88))
}

#[test]
fn one_worker_hands_stages_in(rt: HostRuntime) {
    assert_eq!(rt; hands_stages_in(&rt, rt.alloc()), Some(true));
}

// Two marks, each of which is set by one that then waits for the other, for a bounded time. As a
// gate it lets a path that begins low wait for one that begins high, and the other way round.
#[derive(Drop)]
struct Meeting<'a, C> {
    clock: &'a C,
    low: AtomicBool,
    high: AtomicBool,
    missed: AtomicBool,
}

impl<'a, C: Clock> Meeting<'a, C> {
    fn of(clock: &'a C) -> Meeting<'a, C> {
        Meeting {
            clock,
            low: AtomicBool::new(false),
            high: AtomicBool::new(false),
            missed: AtomicBool::new(false),
        }
    }

    fn meet(&self, mine: &AtomicBool, other: &AtomicBool) {
        mine.store(true, Ordering::SeqCst);
        for _ in 0..100_000u32 {
            if other.load(Ordering::SeqCst) {
                return;
            }
            thread::sleep(self.clock, Duration::from_micros(100));
        }
        self.missed.store(true, Ordering::SeqCst);
    }
}

impl<'a, C: Clock> Gate for Meeting<'a, C> {
    fn enter(&self, _worker: u64, path: Path) {
        if path.len() == 0 {
            return;
        }
        if path.step(0) {
            self.meet(&self.high, &self.low);
        } else {
            self.meet(&self.low, &self.high);
        }
    }
}

// Whether two workers meet at a gate, and the paving has five settled nodes.
fn meets_at_a_gate<R: Threads + Wait + Clock + Sync>(rt: &R, alloc: Global) -> Option<bool> {
    let gate = Meeting::of(rt);
    let settler = settler_of(alloc, SYSTEM, -2)?;
    let opening = opened(alloc, &settler).ok()?;
    let paved = pave(rt, alloc, &settler, opening, 20, 2, &gate).ok()?;
    Some(!gate.missed.load(Ordering::SeqCst) && has(&paved.paving, 2, 2, 1))
}

#[test]
fn two_workers_meet_at_a_gate(rt: HostRuntime) -> Result<(), Fail> {
    let alloc = rt.alloc();
    assert_eq!(rt; meets_at_a_gate(&rt, alloc), Some(true));
    let mut folder = shelf(alloc, &[("s", SYSTEM)], &[])?;
    let mut keeper = MemKeeper::new(alloc, Vec::new(alloc));
    let gate = Meeting::of(&rt);
    let words = "run s --eps 0.25 --workers 2 --out b";
    let answer = call_at(&rt, alloc, words, &mut folder, NONE, &gate, &mut keeper)?;
    assert!(rt; answer.is(0, SUMMARY, ""));
    assert!(rt; !gate.missed.load(Ordering::SeqCst));
    assert!(rt; holds(alloc, &mut folder, "b", WHOLE));
    Ok(())
}

// A settler that hands on another one. Its boxes in the two halves of [0,1] wait for each other.
#[derive(Drop)]
struct Halves<'a, S, C> {
    settler: S,
    meeting: Meeting<'a, C>,
}

impl<'a, S: Settler, C: Clock> Settler for Halves<'a, S, C> {
    ghost dims = { λ s. S.dims s.settler };

    ghost depth_of = { λ s. S.depth_of s.settler };

    ghost settle_of = { λ s. S.settle_of s.settler };

    ghost inside = { λ s. S.inside s.settler };

    fn depth(&self) -> u32 {
        self.settler.depth()
    }

    fn settle(
        &self,
        alloc: Global,
        bx: &IBox,
        depth_left: u32,
        path_len: u32,
    ) -> Result<Outcome, Memory> {
        let _places = bx.dims();
        let first = bx.get(0);
        let half = Num::fin(1, -1).unwrap_or(Num::ZERO);
        if first.hi() <= half {
            self.meeting.meet(&self.meeting.low, &self.meeting.high);
        }
        if half <= first.lo() {
            self.meeting.meet(&self.meeting.high, &self.meeting.low);
        }
        self.settler.settle(alloc, bx, depth_left, path_len)
    }

    ghost dims_fit = { λ s. S.dims_fit s.settler };

    ghost depth_fits = { λ s. S.depth_fits s.settler };

    ghost fits = { λ s. S.fits s.settler };

    ghost keeps_box = { λ s. S.keeps_box s.settler };

    ghost ends = { λ s. S.ends s.settler };

    ghost sound = { λ s. S.sound s.settler };
}

// Whether boxes of both halves were settled at the same time, and the paving has five settled
// nodes.
fn meets_in_a_settler<R: Threads + Wait + Clock + Sync>(rt: &R, alloc: Global) -> Option<bool> {
    let settler = Halves {
        settler: settler_of(alloc, SYSTEM, -2)?,
        meeting: Meeting::of(rt),
    };
    let opening = opened(alloc, &settler.settler).ok()?;
    let paved = pave(rt, alloc, &settler, opening, 20000, 2, &NoGate).ok()?;
    Some(!settler.meeting.missed.load(Ordering::SeqCst) && has(&paved.paving, 2, 2, 1))
}

#[test]
fn two_workers_meet_in_a_settler(rt: HostRuntime) {
    assert_eq!(rt; meets_in_a_settler(&rt, rt.alloc()), Some(true));
}
