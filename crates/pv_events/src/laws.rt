//! What holds after every list of events, as contracts. Each holds by its contract alone, and the
//! calls do nothing.
ghost use Rattle.pv_events.specs.Answers.{
  AbsorptionsAreEvents,
  AnnouncementsAreEvents,
  DeskLooksAreEvents,
  ExtensionsAreEvents,
  LooksAreEvents,
  RecallsAreEvents,
  GivingsBackAreEvents,
  RunsJoin,
  SettlingsAreEvents,
  StagesAreEvents,
  StopsAreEvents,
  TakesAreEvents,
};
ghost use Rattle.pv_events.specs.Runs.{
  BoardsCanEnd,
  OpenedRunsAreRight,
  OverRunsAreWhole,
  RunsAgree,
  RunsAreRight,
  SettledOnce,
};

/// After every list of events, in whatever order callers made them, a board is right: its paving is
/// a stage of the opening, the issued paths are distinct open leaves of it, and used, issued,
/// granted and left are the budget together. Used is what was settled by tickets, and the paving has
/// grown by that and by what was absorbed. No leaf is settled twice.
pub fn runs()
    ensures right { RunsAreRight }
    ensures once { SettledOnce }
    ensures opened { OpenedRunsAreRight }
{}

/// Where nothing is issued and nothing can be taken, and nobody stopped the board, its paving is the
/// full tree exactly where the budget is enough for it, beside what was absorbed. It is so where
/// something is left. Each board can come to such an end, and two lists of events never settle a node
/// differently.
pub fn whole_runs()
    ensures whole { OverRunsAreWhole }
    ensures can_end { BoardsCanEnd }
    ensures agree { RunsAgree }
{}

/// What the clauses of the calls of a board, and of what lies under its lock, say of the board before
/// and after makes each call one event or none, as the answer tells. So calls one after another, by
/// whomever, are a list of events.
pub fn calls_are_events()
    ensures take { TakesAreEvents }
    ensures look { LooksAreEvents }
    ensures desk_look { DeskLooksAreEvents }
    ensures settle { SettlingsAreEvents }
    ensures settle_stage { StagesAreEvents }
    ensures extend { ExtensionsAreEvents }
    ensures give_back { GivingsBackAreEvents }
    ensures stop { StopsAreEvents }
    ensures announce { AnnouncementsAreEvents }
    ensures recall { RecallsAreEvents }
    ensures absorb { AbsorptionsAreEvents }
    ensures join { RunsJoin }
{}
