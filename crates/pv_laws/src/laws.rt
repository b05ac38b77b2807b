//! What follows from how commands end, as contracts. Each holds by its contract alone, and the
//! calls do nothing.
ghost use Rattle.pv_laws.specs.Merges.{JoinAlike, MergesEndAlike, MergesAreTakenAlike};
ghost use Rattle.pv_laws.specs.Shares.{SharesJoin, DoneSharesAreWhole};
ghost use Rattle.pv_laws.specs.CampaignLaws.{
  KeeperFaultBreaksOff,
  MemoryKeepsRows,
  OtherNamesStay,
  OthersLeaveKeeper,
};
ghost use Rattle.pv_laws.specs.Headline.{CompletedAreAlike};
ghost use Rattle.pv_laws.specs.Complete.{RightIsAnswered, PavingIsAudited};
ghost use Rattle.pv_laws.specs.Sets.{DefaultIsProp, CenteredPrunes, PrunedHaveNoMore};
ghost use Rattle.pv_laws.specs.Stored.{
  StoredIsWanted,
  WantedAreStages,
  WantedIsTaken,
  WrittenIsWanted,
};
ghost use Rattle.pv_laws.specs.StatusLaws.{
  DoneIsWhole,
  OpenLeftIsPart,
  EarlyIsUntouched,
  WriteFaultIsUnwritten,
  MemoryLeaves,
  OthersStay,
  SampleIsTaken,
  AskingIsNotRefused,
  RefusedWordsEnd,
  UsageIsOfWords,
};

use pv_keep::laws::rows_make_their_paving;

/// What `merge` makes of files depends neither on their order nor on repeats: over the same files
/// two commands for the same join print and store the same bytes, and end with the same status.
pub fn merges_alike()
    ensures joins { JoinAlike }
    ensures ends { MergesEndAlike }
    ensures taken { MergesAreTakenAlike }
{}

/// Calls for shares of one opening may be made by anyone, often, in any order and with budgets that
/// end: what they make joins to a stage of the opening, in which each share is done that is done in
/// one of them, and joins of such joins too. Where each share of a number of them has a done answer,
/// the join is the full tree of the opening.
pub fn shares_join()
    ensures joins { SharesJoin }
    ensures whole { DoneSharesAreWhole }
{}

/// Pavings of one system by the same settings are one paving once they are completed: two commands
/// that end with status 0, here or on two machines, anew or from files that are stages, in any order,
/// by any number of workers and with any budgets, deliver the same bytes.
pub fn completed_alike()
    ensures { CompletedAreAlike }
{}

/// What this program stored is what it wants of a file. A paving that `run`, `resume` or `merge`
/// stored with status 0 or 1, anew or from stages, is read back for the same system and settings as
/// that very stage of the search box, wherever it lies and with every limit that is no less; files
/// that are wanted are stages, and nothing is found wrong in one: it is refused only where it could
/// not be read. So is all that was written by any chain of such commands.
pub fn stored_is_wanted()
    ensures stored { StoredIsWanted }
    ensures stages { WantedAreStages }
    ensures taken { WantedIsTaken }
    ensures written { WrittenIsWanted }
{}

/// Nothing at fault means an answer. Where the text means a system, the settings give a rule for it,
/// each file holds a paving by that rule within the limit, those of `resume` and `merge` agree and
/// their join leaves room for the budget, that of `audit` is a stage, the plane of `svg` is one of
/// the system, the text of `least` is an expression, and the rows of `campaign` are those of a paving
/// that leaves room for its rounds, the status is 0 or 1; or there was no memory, or a read, a store,
/// a write or the keeper failed in this call. Where the paving of `audit` need be no stage, the
/// status says whether it is one.
pub fn right_is_answered()
    ensures right { RightIsAnswered }
    ensures audited { PavingIsAudited }
{
    rows_make_their_paving();
}

/// What is said of `prop(n)`, that each constraint holds at each rational point of an inner box and not all of them at one of a
/// removed part, holds by the program that is taken where none is given.
pub fn default_is_prop()
    ensures { DefaultIsProp }
{}

/// Centered forms take nodes away and none of what is decided: by them the full tree of a system is the plain one with
/// subtrees replaced by leaves that are removed or inner. So no more nodes are settled, and no more of them are small.
pub fn centered_prunes()
    ensures pruned { CenteredPrunes }
    ensures less { PrunedHaveNoMore }
{}

/// With status 0 no leaf is open: what was printed and stored is of the full tree. Of a share none is
/// open at or below it, and what stands there is that of the full tree. Of `least` no leaf is open in
/// which the value may be as low as at the best point. Of `campaign` the rows of the full tree are
/// kept.
pub fn done()
    ensures { DoneIsWhole }
{}

/// With status 1 a leaf is open, and `run` and `resume` settled exactly their budget, which is not
/// enough; by levels, the lengths of open and of settled paths lie within a pass of each other. Of a
/// share a leaf is open at or below it, and exactly the budget was settled. Of `least` a leaf is open
/// in which the value may be as low as at the best point. `campaign` settled and kept exactly the
/// budgets of its rounds, which are not enough.
pub fn open_left()
    ensures { OpenLeftIsPart }
{}

/// With status 2, 3, 4, 5, 8, 9 or 11 nothing was printed, no file changed and all rows that were
/// kept stay, and the cause was told.
pub fn refused()
    ensures { EarlyIsUntouched }
{}

/// With status 6 the file that is asked for was not stored and nothing was printed; or it was
/// stored, and a front of the command's own text was printed.
pub fn not_written()
    ensures { WriteFaultIsUnwritten }
{}

/// With status 7 nothing was stored or printed, or it is as with status 6.
pub fn no_memory()
    ensures { MemoryLeaves }
{}

/// `sample`, once its words are read, ends with status 0, 6 or 7: the reader takes each text of its
/// circles, and its settings give a rule.
pub fn samples()
    ensures { SampleIsTaken }
{}

/// With every status no file is changed but that of the name that is asked for.
pub fn others_stay()
    ensures { OthersStay }
{}

/// Words are refused exactly where clap's meaning refuses them or a value that their command takes.
/// Status 2 comes of them, of the contractor program, of the expression of `least` or of the plane
/// of a picture.
pub fn words()
    ensures asked { AskingIsNotRefused }
    ensures refused { RefusedWordsEnd }
    ensures usage { UsageIsOfWords }
{}

/// With status 10 the keeper failed in this call, and nothing was printed. With 7 and 10 all rows
/// that were kept stay, or the rows are those of an opened campaign with some of its rounds. With
/// every status all other names stay, and every other command leaves the keeper as it was.
pub fn campaigns()
    ensures fault { KeeperFaultBreaksOff }
    ensures memory { MemoryKeepsRows }
    ensures others { OtherNamesStay }
    ensures alone { OthersLeaveKeeper }
{}
