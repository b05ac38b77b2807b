//! Threads that one thread begins, and waits for.
#![tactic(auto)]

ghost use Rattle.std.specs.Prelude.{◌≡◌, ◌+◌, length};
ghost use Rattle.std.specs.Fork.{AcceptsAt, ChangesAt, AcceptsEach, ChangesEach};
ghost use Rattle.pv_fork.specs.Places.{AllFrom, ChangesFrom};

use std::sync::Wait;
use std::sync::atomic::{AtomicBool, Ordering};
use std::thread::{Parker, Threads, join_mut};
use std::time::Duration;

// How long the first call may take before the others begin: about what it costs to begin them.
const PATIENCE_MILLIS: u64 = 1;

/// Calls `f(i, &mut s[i])` at each place, each in a thread of its own if one can be made. The
/// caller begins them all, and waits; a single call is its own.
///
/// `for_each_mut` of `std::thread` has the caller work, too. The kernel may leave a new thread on its
/// maker's processor for milliseconds, so that the two take turns while other processors idle.
pub fn for_each_apart<R: Threads + Sync, T: Send, F: Fn(usize, &mut T) + Sync>(
    rt: &R,
    s: &mut [T],
    f: &F,
)
    requires { AcceptsEach F.Fn f.now s.old }
    ensures { ChangesEach F.Fn f.now s.old s.new }
{
    if s.len() == 1 {
        call_one(f, 0, s);
        return;
    }
    begin_from(rt, f, 0, s);
}

/// Calls `f(i, &mut s[i])` at each place, at most `threads` of them at once. The first begins in a
/// thread of its own, the others once it has taken a millisecond: for calls that find nothing to do
/// if the first ends before. The caller makes those, and those that are too many, one by one
/// after the others.
pub fn for_each_late<R: Threads + Wait + Sync, T: Send, F: Fn(usize, &mut T) + Sync>(
    rt: &R,
    s: &mut [T],
    threads: usize,
    f: &F,
)
    requires { AcceptsEach F.Fn f.now s.old }
    ensures { ChangesEach F.Fn f.now s.old s.new }
{
    begin_first(rt, f, threads.saturating_sub(1), s);
}

// After the first call, at most so many are made at once.
fn begin_first<R: Threads + Wait + Sync, T: Send, F: Fn(usize, &mut T) + Sync>(
    rt: &R,
    f: &F,
    most: usize,
    s: &mut [T],
)
    requires { AllFrom (AcceptsAt F.Fn f.now) 0 s.old }
    ensures { ChangesFrom (ChangesAt F.Fn f.now) 0 s.old s.new }
{
    if s.len() < 2 {
        call_from(f, 0, s);
        return;
    }
    let end = End::new();
    let (first, rest) = s.split_at_mut(1);
    begin_late(rt, f, &end, most, first, rest);
}

// The first call goes to a new thread, and this one waits for it before it begins the others.
fn begin_late<R: Threads + Wait + Sync, T: Send, F: Fn(usize, &mut T) + Sync>(
    rt: &R,
    f: &F,
    end: &End,
    most: usize,
    first: &mut [T],
    rest: &mut [T],
)
    requires one { length first.old ≡ 1 }
    requires first { AllFrom (AcceptsAt F.Fn f.now) 0 first.old }
    requires rest { AllFrom (AcceptsAt F.Fn f.now) 1 rest.old }
    ensures first { ChangesFrom (ChangesAt F.Fn f.now) 0 first.old first.new }
    ensures rest { ChangesFrom (ChangesAt F.Fn f.now) 1 rest.old rest.new }
{
    let mut one = ||
        requires { (length first.now ≡ 1) × AllFrom (AcceptsAt F.Fn f.now) 0 first.now }
        ensures { ChangesFrom (ChangesAt F.Fn f.entry.now) 0 first.entry.now first.exit.now }
    {
        call_one(f, 0, first);
        end.tell();
    };
    let mut others = ||
        requires { AllFrom (AcceptsAt F.Fn f.now) 1 rest.now }
        ensures { ChangesFrom (ChangesAt F.Fn f.entry.now) 1 rest.entry.now rest.exit.now }
    { begin_some(rt, f, end, most, rest) };
    join_mut(rt, &mut one, &mut others);
}

// Begins some of the calls, or none where the first one ends soon, and makes the others itself.
fn begin_some<R: Threads + Wait + Sync, T: Send, F: Fn(usize, &mut T) + Sync>(
    rt: &R,
    f: &F,
    end: &End,
    most: usize,
    s: &mut [T],
)
    requires { AllFrom (AcceptsAt F.Fn f.now) 1 s.old }
    ensures { ChangesFrom (ChangesAt F.Fn f.now) 1 s.old s.new }
{
    let most = if end.is_soon(rt) { 0 } else { most };
    let (begun, later) = s.split_at_mut(most.min(s.len()));
    let next = 1 + begun.len();
    begin_from(rt, f, 1, begun);
    call_from(f, next, later);
}

// What the first call's thread tells its maker.
#[derive(Drop)]
struct End {
    is_there: AtomicBool,
    parker: Parker,
}

impl End {
    fn new() -> End {
        End {
            is_there: AtomicBool::new(false),
            parker: Parker::new(),
        }
    }

    fn tell(&self) {
        self.is_there.store(true, Ordering::SeqCst);
        self.parker.unpark();
    }

    fn is_soon<R: Wait>(&self, rt: &R) -> bool {
        self.parker
            .park_timeout(rt, Duration::from_millis(PATIENCE_MILLIS));
        self.is_there.load(Ordering::SeqCst)
    }
}

// Makes the calls one by one.
fn call_from<T, F: Fn(usize, &mut T)>(f: &F, base: usize, s: &mut [T])
    requires { AllFrom (AcceptsAt F.Fn f.now) base s.old }
    ensures { ChangesFrom (ChangesAt F.Fn f.now) base s.old s.new }
{
    if s.is_empty() {
        return;
    }
    let (first, rest) = s.split_at_mut(1);
    call_one(f, base, first);
    call_from(f, base + 1, rest);
}

#[cycle(begun)]
fn begin_from<R: Threads + Sync, T: Send, F: Fn(usize, &mut T) + Sync>(
    rt: &R,
    f: &F,
    base: usize,
    s: &mut [T],
)
    requires accepts { AllFrom (AcceptsAt F.Fn f.now) base s.old }
    ensures { ChangesFrom (ChangesAt F.Fn f.now) base s.old s.new }
{
    if s.is_empty() {
        return;
    }
    let (first, rest) = s.split_at_mut(1);
    begin_both(rt, f, base, first, base + 1, rest);
}

// The first call goes to a new thread, and this one begins the others.
#[cycle(begun)]
fn begin_both<R: Threads + Sync, T: Send, F: Fn(usize, &mut T) + Sync>(
    rt: &R,
    f: &F,
    base: usize,
    first: &mut [T],
    next: usize,
    rest: &mut [T],
)
    requires one { length first.old ≡ 1 }
    requires first { AllFrom (AcceptsAt F.Fn f.now) base first.old }
    requires rest { AllFrom (AcceptsAt F.Fn f.now) next rest.old }
    ensures first { ChangesFrom (ChangesAt F.Fn f.now) base first.old first.new }
    ensures rest { ChangesFrom (ChangesAt F.Fn f.now) next rest.old rest.new }
{
    let mut one = ||
        requires { (length first.now ≡ 1) × AllFrom (AcceptsAt F.Fn f.now) base first.now }
        ensures { ChangesFrom (ChangesAt F.Fn f.entry.now) base first.entry.now first.exit.now }
    { call_one(f, base, first) };
    let mut others = ||
        requires { AllFrom (AcceptsAt F.Fn f.now) next rest.now }
        ensures { ChangesFrom (ChangesAt F.Fn f.entry.now) next rest.entry.now rest.exit.now }
    { begin_from(rt, f, next, rest) };
    join_mut(rt, &mut one, &mut others);
}

fn call_one<T, F: Fn(usize, &mut T)>(f: &F, base: usize, s: &mut [T])
    requires one { length s.old ≡ 1 }
    requires accepts { AllFrom (AcceptsAt F.Fn f.now) base s.old }
    ensures { ChangesFrom (ChangesAt F.Fn f.now) base s.old s.new }
{
    call_at(f, base, &mut s[0]);
}

fn call_at<T, F: Fn(usize, &mut T)>(f: &F, base: usize, place: &mut T)
    requires { AcceptsAt F.Fn f.now base place.old }
    ensures { ChangesAt F.Fn f.now base place.old place.new }
{
    f(base, place);
}
