//! The texts of circles as the reader of systems sees them.
#![tactic(auto)]

ghost use Rattle.std.specs.Prelude.{◌≤◌, ℕ};
ghost use Rattle.pv_parse.specs.Declarations.{IsSystemSentence};
ghost use Rattle.pv_made.specs.Circles.{sample_text};

/// Does nothing. The text of 1 to 16 circles is a system's, within all limits.
pub fn learn_sentences()
    ensures { (seed count : ℕ) → 1 ≤ count → count ≤ 16
        → IsSystemSentence (sample_text seed count) }
{}
