//! What a revision and the sure test say of points, as contracts.
ghost use Rattle.pv_hc4.specs.Members.{KeepsPoints, SureHolds, LeavesWithin, LeavesBox, SureLeaves};
ghost use Rattle.pv_hc4.specs.Monotony.{KeepsForward, KeepsTotal, KeepsSure};

/// HC4-revise (Benhamou et al., 1999) loses no solution: each rational point of a box at which a
/// constraint holds lies in what a revision leaves of the box, which is then not empty. It holds by
/// its contract alone; the call does nothing.
pub fn keeps_points()
    ensures { KeepsPoints }
{}

/// Where the sure test says yes, the constraint holds at each rational point of the box. It holds
/// by its contract alone; the call does nothing.
pub fn sure_holds()
    ensures { SureHolds }
{}

/// What a revision leaves of a box is a box that lies in it, and all of it where the constraint is
/// sure there. It holds by its contract alone; the call does nothing.
pub fn narrows()
    ensures within { LeavesWithin }
    ensures boxes { LeavesBox }
    ensures sure { SureLeaves }
{}

/// Forward passes and the sure test are inclusion monotone (Moore, 1966): on a part of a box each
/// interval of a forward pass lies in the one on the whole, and what is total or sure on the whole
/// is so on the part. It holds by its contract alone; the call does nothing.
pub fn monotony()
    ensures forward { KeepsForward }
    ensures total { KeepsTotal }
    ensures sure { KeepsSure }
{}
