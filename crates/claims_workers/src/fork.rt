//! What calls in threads promise.
ghost use Rattle.std.specs.Prelude.{◌≡◌, ◌<◌, ℕ, length, slice_index};
ghost use Rattle.std.specs.Fork.{AcceptsEach, ChangesEach};

use pv_fork::{for_each_apart, for_each_late};
use std::sync::Wait;
use std::thread::Threads;

/// Each place is changed by the call with its number.
pub fn visit<R: Threads + Sync, T: Send, F: Fn(usize, &mut T) + Sync>(rt: &R, s: &mut [T], f: &F)
    requires { AcceptsEach F.Fn f.now s.old }
    ensures { ChangesEach F.Fn f.now s.old s.new }
{
    for_each_apart(rt, s, f);
}

/// Each place gets its number.
pub fn number<R: Threads + Sync>(rt: &R, places: &mut [usize])
    ensures { (i : ℕ) → i < length places.old → slice_index places.new i ≡ i }
{
    for_each_apart(rt, places, &|i, place| *place = i);
}

/// Each place is changed by the call with its number, the others' begun late or made in turn.
pub fn visit_late<R: Threads + Wait + Sync, T: Send, F: Fn(usize, &mut T) + Sync>(
    rt: &R,
    s: &mut [T],
    threads: usize,
    f: &F,
)
    requires { AcceptsEach F.Fn f.now s.old }
    ensures { ChangesEach F.Fn f.now s.old s.new }
{
    for_each_late(rt, s, threads, f);
}
