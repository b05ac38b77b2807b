//! What is known of the least value: a bound below it, and the best point so far.
ghost use Rattle.std.specs.Prelude.{◌≡◌, ◌+◌, ◌^◌, ◌<◌, length, OnOk};
ghost use Rattle.pv_least.specs.Objectives.{aim_of, low_of};
ghost use Rattle.pv_least.specs.Running.{lowered, beats, tried_at, tried, passed_by, settled_by, nothing_found, HasDims};
ghost use Rattle.pv_least.specs.Searches.{upper_of};

use crate::candidate::Candidate;
use crate::objective::Objective;
use crate::point::Point;
use pv_box::IBox;
use pv_hc4::Scratch;
use pv_num::{Memory, Num};
use pv_tree::Outcome;
use std::alloc::Global;

/// A point of the set, with a bound above the objective's value there.
#[derive(Drop)]
pub struct BestPoint {
    pub point: Point,
    /// It may be +oo.
    pub upper: Num,
}

/// What a search for the least value found.
#[derive(Drop)]
pub struct Least {
    /// At no member of the box has the objective a value below it; +oo where it has none at all.
    pub lower: Num,
    /// The first of the points that were found with the least bound.
    pub best: Option<BestPoint>,
    /// How many boxes were settled.
    pub settled: u64,
    /// Whether no open leaf is left in which the objective may be as low as at the best point.
    pub done: bool,
}

/// Room that is kept from one leaf to the next. What is in it matters to no call.
#[derive(Drop)]
pub(crate) struct Room {
    pub(crate) scratch: Scratch,
    /// The box of a point that is tried.
    pub(crate) probe: IBox,
}

fn lower_by(lower: Num, low: Option<Num>) -> Num
    ensures { result ≡ lowered lower low }
{
    match low {
        Some(low) => { if lower <= low { lower } else { low } }
        None => lower,
    }
}

fn is_better(upper: Num, best: &Option<BestPoint>) -> bool
    ensures { result ≡ beats upper best.now }
{
    match best {
        Some(best) => upper < best.upper,
        None => true,
    }
}

// Tries a point of a box that lies in the set.
fn try_point(
    alloc: Global,
    objective: &Objective,
    which: Candidate,
    to: &IBox,
    room: &mut Room,
    best: &mut Option<BestPoint>,
) -> Result<(), Memory>
    requires dims { length to.now ≡ objective.now.dims }
    requires probe { length room.old.probe ≡ length to.now }
    ensures best { OnOk result (best.new ≡ tried_at (aim_of objective.now) to.now which best.old) }
    ensures probe { length room.new.probe ≡ length room.old.probe }
{
    let _places = to.dims();
    which.write(to, &mut room.probe);
    let Some(upper) = objective.bound(&mut room.scratch, &room.probe)? else {
        return Ok(());
    };
    if is_better(upper, best) {
        let point = Point::of_exact(alloc, &room.probe)?;
        *best = Some(BestPoint { point, upper });
    }
    Ok(())
}

// Tries the three points of a box that lies in the set.
fn try_points(
    alloc: Global,
    objective: &Objective,
    to: &IBox,
    room: &mut Room,
    best: &mut Option<BestPoint>,
) -> Result<(), Memory>
    requires dims { length to.now ≡ objective.now.dims }
    requires probe { length room.old.probe ≡ length to.now }
    ensures best { OnOk result (best.new ≡ tried (aim_of objective.now) to.now best.old) }
    ensures probe { length room.new.probe ≡ length room.old.probe }
{
    try_point(alloc, objective, Candidate::Low, to, room, best)?;
    try_point(alloc, objective, Candidate::Centre, to, room, best)?;
    try_point(alloc, objective, Candidate::High, to, room, best)
}

impl Least {
    /// What is known before the first box is settled.
    pub(crate) fn nothing() -> Least
        ensures { result ≡ nothing_found }
    {
        Least {
            lower: Num::POS_INF,
            best: None,
            settled: 0,
            done: true,
        }
    }

    /// The bound above the value at the best point; +oo where there is none.
    pub(crate) fn upper(&self) -> Num
        ensures { result ≡ upper_of self.now.best }
    {
        match &self.best {
            Some(best) => best.upper,
            None => Num::POS_INF,
        }
    }

    /// Takes in a leaf that stays open, with the low end of the objective there. `is_next` says
    /// that it would be settled next.
    pub(crate) fn pass(&mut self, low: Option<Num>, is_next: bool)
        ensures { self.new ≡ passed_by self.old low is_next }
    {
        self.lower = lower_by(self.lower, low);
        self.done = self.done && !is_next;
    }

    /// Takes in what settling a leaf found.
    pub(crate) fn settle(
        &mut self,
        alloc: Global,
        objective: &Objective,
        outcome: &Outcome,
        room: &mut Room,
    ) -> Result<(), Memory>
        requires few { self.old.settled < 2 ^ 63 }
        requires dims { HasDims objective.now.dims outcome.now }
        requires probe { length room.old.probe ≡ objective.now.dims }
        ensures found { OnOk result
            (self.new ≡ settled_by (aim_of objective.now) self.old outcome.now) }
        ensures probe { length room.new.probe ≡ length room.old.probe }
    {
        match outcome {
            Outcome::Inner { to } => {
                self.take_low(objective, to, room)?;
                try_points(alloc, objective, to, room, &mut self.best)?;
            }
            Outcome::Small { to } => self.take_low(objective, to, room)?,
            Outcome::Removed | Outcome::Cut { .. } => {}
        }
        self.settled += 1;
        Ok(())
    }

    // Takes in the low end of the objective on what a leaf kept.
    fn take_low(&mut self, objective: &Objective, to: &IBox, room: &mut Room) -> Result<(), Memory>
        requires dims { length to.now ≡ objective.now.dims }
        ensures lower { OnOk result (self.new.lower ≡
            lowered self.old.lower (low_of (aim_of objective.now) to.now)) }
        ensures best { self.new.best ≡ self.old.best }
        ensures settled { self.new.settled ≡ self.old.settled }
        ensures done { self.new.done ≡ self.old.done }
        ensures probe { room.new.probe ≡ room.old.probe }
    {
        let low = objective.low(&mut room.scratch, to)?;
        self.lower = lower_by(self.lower, low);
        Ok(())
    }
}
