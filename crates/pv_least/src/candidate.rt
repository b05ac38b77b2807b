//! The points of a box at which the objective is tried.
ghost use Rattle.std.specs.Prelude.{◌≡◌, ◌<◌, length};
ghost use Rattle.pv_interval.specs.Bounds.{Bounds, IsInterval};
ghost use Rattle.pv_least.specs.Candidates.{centre_of, number_of, exactly_at, IsFinite};

use pv_box::IBox;
use pv_interval::Interval;
use pv_num::Num;

/// A point of a box: its lower ends, its centre, or its upper ends. In the place of an infinite
/// end stands the centre's number.
#[derive(Clone, Copy, Debug)]
pub(crate) enum Candidate {
    Low,
    Centre,
    High,
}

// A finite number of an interval, near its middle where it has one.
fn centre(part: Interval) -> Num
    ensures { result ≡ centre_of part }
{
    let lo = part.lo();
    let hi = part.hi();
    if lo == Num::NEG_INF {
        return if hi == Num::POS_INF { Num::ZERO } else { hi };
    }
    if hi == Num::POS_INF {
        return lo;
    }
    match Num::middle(lo, hi) {
        Some(cut) => cut,
        None => lo,
    }
}

// The interval of one finite number.
fn exactly(n: Num) -> Interval
    requires { IsFinite n }
    ensures { result ≡ record { lo = n; hi = n } }
{
    match Interval::new(n, n) {
        Some(part) => part,
        None => unreachable!(),
    }
}

impl Candidate {
    /// The point's number in a place with this interval.
    fn number(self, part: Interval) -> Num
        ensures number { result ≡ number_of self part }
        ensures finite { IsFinite result }
    {
        match self {
            Candidate::Low => {
                if part.lo() == Num::NEG_INF {
                    centre(part)
                } else {
                    part.lo()
                }
            }
            Candidate::Centre => centre(part),
            Candidate::High => {
                if part.hi() == Num::POS_INF {
                    centre(part)
                } else {
                    part.hi()
                }
            }
        }
    }

    /// Writes the box that has the point of `to` alone over another box.
    pub(crate) fn write(self, to: &IBox, probe: &mut IBox)
        requires { length probe.old ≡ length to.now }
        ensures { probe.new ≡ exactly_at self to.now }
    {
        for i in 0..to.dims() {
            probe.set(i, exactly(self.number(to.get(i))));
        }
    }
}
