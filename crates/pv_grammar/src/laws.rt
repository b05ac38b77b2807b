//! That the grammar reads tokens in one way, and that its items and its trees say the same, as
//! contracts.
ghost use Rattle.std.specs.Prelude.{[], ◌↔◌};
ghost use Rattle.pv_grammar.specs.Counting.{AreCounted, nothing};
ghost use Rattle.pv_grammar.specs.Limits.{IsExpressionWithin, IsSystemWithin};
ghost use Rattle.pv_grammar.specs.Productions.{Expression, System, expression_symbols, system_symbols};
ghost use Rattle.pv_grammar.specs.Grammar.{IsReadOnce, system_items, expression_items};
ghost use Rattle.pv_grammar.specs.TreeCodes.{ExpressionsAgree, ExpressionsMeanAlike, OneExpressionTree, OneSystemTree, SystemsAgree, SystemsMeanAlike};

use crate::counts::Phase;

/// The tokens of a text lead to one code. It holds by its contract alone; the call does nothing.
pub fn one_reading()
    ensures systems { IsReadOnce system_items }
    ensures expressions { IsReadOnce expression_items }
{}

/// The trees of the grammar and its items have the same texts, each of one tree, and say the same
/// of it: among tokens whose names are known, the items derive with a code what a tree with that
/// code has as its tokens; and the code means what the tree means. It holds by its contract alone;
/// the call does nothing.
pub fn trees()
    ensures systems { SystemsAgree }
    ensures expressions { ExpressionsAgree }
    ensures one_system { OneSystemTree }
    ensures one_expression { OneExpressionTree }
    ensures constraints { SystemsMeanAlike }
    ensures term { ExpressionsMeanAlike }
{}

/// A tree's tokens can be counted exactly where the tree is within the limits. It holds by its
/// contract alone; the call does nothing.
pub fn limits()
    ensures systems { (x : System) →
        AreCounted (nothing Phase.Between) (system_symbols x []) ↔ IsSystemWithin x }
    ensures expressions { (e : Expression) →
        AreCounted (nothing Phase.Sides) (expression_symbols e []) ↔ IsExpressionWithin e }
{}
