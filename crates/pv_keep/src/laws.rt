//! What holds of all lists of rounds, as contracts. Each holds by its contract alone, and the calls
//! do nothing.
ghost use Rattle.pv_keep.specs.Rounds.{RoundsHoldStages};
ghost use Rattle.pv_keep.specs.Reopening.{RowsMakeTheirs, RoundsKeepTheirTrees};

/// Whatever stages of an opening are saved in rounds, and whichever rounds are refused: after each
/// round the campaign's tree is a stage of the opening, and the rows that are kept are the tree's.
pub fn rounds_hold_stages()
    ensures { RoundsHoldStages }
{}

/// The rows of a paving make that very paving and no other, and none of them is bad. So whatever
/// rounds there were, what is kept opens as the campaign's tree.
pub fn rows_make_their_paving()
    ensures pavings { RowsMakeTheirs }
    ensures rounds { RoundsKeepTheirTrees }
{}
