//! Boxes as they were before a revision.

ghost use Rattle.std.specs.Prelude.{◌≡◌, ◌≢◌, ℕ, ◌<◌, ◌≤◌, IfNone, IfSome, length, take};

use crate::forward::place;
use pv_box::{IBox, MOST_PLACES};
use pv_interval::Interval;

// Writes the places of a box over the first ones of a list.
pub(crate) fn save(places: &mut [Interval; MOST_PLACES], bx: &IBox)
    ensures { take (length bx.now) places.new ≡ bx.now }
{
    for i in 0..bx.dims() {
        places[i as usize] = place(bx, i);
    }
}

// The first place that is not as it was.
pub(crate) fn first_changed(entry: &[Interval], bx: &IBox) -> Option<u8>
    requires { length bx.now ≡ length entry.now }
    ensures same { IfNone result (bx.now ≡ entry.now) }
    ensures changed { IfSome result (λ i. (bx.now ≢ entry.now) × (take i bx.now ≡ take i entry.now)) }
{
    for i in 0..bx.dims() {
        if entry[i as usize] != place(bx, i) {
            return Some(i);
        }
    }
    None
}

pub(crate) fn restore(entry: &[Interval], bx: &mut IBox)
    requires { length bx.old ≡ length entry.now }
    ensures { bx.new ≡ entry.now }
{
    for i in 0..bx.dims() {
        bx.set(i, entry[i as usize]);
    }
}
