//! That no point is lost, and what is chosen, as contracts. Each holds by its contract alone, and
//! the calls do nothing.
ghost use Rattle.pv_box.specs.Members.{HalvesCover, HullKeepsEither, MeetKeepsCommon, MeetIsCommon, ApartHaveNone, HullKeepsMembers, HullIsThere, HullIsMissing};
ghost use Rattle.pv_box.specs.Choice.{ChoiceInWords};

/// The halves of a box cover it; the hull of two boxes holds the points of each; their meet has
/// exactly the points of both, of which boxes that are apart have none.
pub fn box_members()
    ensures halves { HalvesCover }
    ensures hulls { HullKeepsEither }
    ensures meets { MeetKeepsCommon }
    ensures met { MeetIsCommon }
    ensures apart { ApartHaveNone }
{}

/// Every rational point that lies in at least `q` of some boxes lies in their q-hull.
pub fn q_hull_members()
    ensures { HullKeepsMembers }
{}

/// The q-hull is there exactly where each place has an end that lies in at least `q` of the
/// intervals.
pub fn q_hull_there()
    ensures there { HullIsThere }
    ensures missing { HullIsMissing }
{}

/// What the function by which contracts name a choice gives, in the words of `IBox::choose`.
pub fn choice_in_words()
    ensures { ChoiceInWords }
{}
