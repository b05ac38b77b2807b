//! That a text has one tree and means what it says, or has one fault, as contracts.
ghost use Rattle.std.specs.Prelude.{◌≡◌, ℕ, List};
ghost use Rattle.pv_grammar.specs.Standings.{first_in};
ghost use Rattle.pv_parse.specs.Declarations.{IsExpressionSentence, IsSystemSentence, MeansOne, MeansOneTerm};
ghost use Rattle.pv_parse.specs.Faults.{Excludes, IsAtMostOne, IsEither, IsExpressionFault, IsExpressionFaultOf, IsFaultOf, IsSystemFault};
ghost use Rattle.pv_parse.specs.Meanings.{KnowsVariables, Names, no_names};
ghost use Rattle.pv_parse.specs.Sentences.{HasOneExpressionTree, HasOneTree, IsExpressionText, IsSpelledOnce, IsSystemText};

use pv_grammar::Phase;

/// A text of a system is at most one list of tokens. It is the text of a tree, and of one alone
/// then, or it has a first fault, at one place and with one cause; and never both. It holds by its
/// contract alone; the call does nothing.
pub fn one_system()
    ensures spelled { (t : List ℕ) → IsSpelledOnce t no_names (first_in Phase.Between) }
    ensures tree { (t : List ℕ) → HasOneTree t }
    ensures either { (t : List ℕ) → IsEither (IsSystemText t) (IsSystemFault t) }
    ensures apart { (t : List ℕ) → Excludes (IsSystemText t) (IsSystemFault t) }
    ensures fault { (t : List ℕ) → IsAtMostOne (IsSystemFault t) }
{}

/// The same of the text of an expression over some variables, which are one way of knowing names.
pub fn one_expression()
    ensures names { (variables : List (List ℕ)) (n m : Names) → KnowsVariables variables n →
        KnowsVariables variables m → n ≡ m }
    ensures spelled { (t : List ℕ) (n : Names) → IsSpelledOnce t n (first_in Phase.Sides) }
    ensures tree { (t : List ℕ) (n : Names) → HasOneExpressionTree n t }
    ensures either { (variables : List (List ℕ)) (t : List ℕ) →
        IsEither (IsExpressionText variables t) (IsExpressionFault variables t) }
    ensures apart { (variables : List (List ℕ)) (t : List ℕ) →
        Excludes (IsExpressionText variables t) (IsExpressionFault variables t) }
    ensures fault { (variables : List (List ℕ)) (t : List ℕ) →
        IsAtMostOne (IsExpressionFault variables t) }
{}

/// A text is a system's, and means one then, or it has a fault, at one place and with one cause;
/// and never both: so what `parse` says of a system or a fault leaves no text out, and no choice.
/// It holds by its contract alone; the call does nothing.
pub fn one_outcome()
    ensures either { (t : List ℕ) → IsEither (IsSystemSentence t) (IsFaultOf t) }
    ensures apart { (t : List ℕ) → Excludes (IsSystemSentence t) (IsFaultOf t) }
    ensures fault { (t : List ℕ) → IsAtMostOne (IsFaultOf t) }
    ensures system { (t : List ℕ) → MeansOne t }
{}

/// The same of the text of an expression over some variables, and of what `parse_expr` says.
pub fn one_expression_outcome()
    ensures either { (variables : List (List ℕ)) (t : List ℕ) →
        IsEither (IsExpressionSentence variables t) (IsExpressionFaultOf variables t) }
    ensures apart { (variables : List (List ℕ)) (t : List ℕ) →
        Excludes (IsExpressionSentence variables t) (IsExpressionFaultOf variables t) }
    ensures fault { (variables : List (List ℕ)) (t : List ℕ) →
        IsAtMostOne (IsExpressionFaultOf variables t) }
    ensures term { (variables : List (List ℕ)) (t : List ℕ) → MeansOneTerm variables t }
{}
