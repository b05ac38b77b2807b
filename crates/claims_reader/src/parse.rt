//! What reading a text promises.
ghost use Rattle.std.specs.Prelude.{◌<◌, length, IfErr, IfOk, IsErrAnd};
ghost use Rattle.pv_expr.specs.Systems.{IsOver};
ghost use Rattle.pv_expr.specs.Terms.{term_of};
ghost use Rattle.pv_parse.specs.Declarations.{IsExpressionMeaning, IsMeaning};
ghost use Rattle.pv_parse.specs.Faults.{IsExpressionRefusal, IsPlaced, IsRefusal, SaysTooLong};
ghost use Rattle.pv_parse.specs.declared.reader.TheConstants.{MOST_TEXT};

use pv_expr::{Expr, System};
use pv_parse::{ParseRefused, parse, parse_expr};
use std::alloc::Global;

/// The system that a text means, or the text's fault.
pub fn read(alloc: Global, text: &[u8]) -> Result<System, ParseRefused>
    ensures means { IfOk result (λ s. IsMeaning text.now s) }
    ensures placed { IfErr result (λ e. IsPlaced text.now e) }
    ensures long { MOST_TEXT < length text.now → IsErrAnd result SaysTooLong }
    ensures fault { IfErr result (IsRefusal text.now) }
{
    parse(alloc, text)
}

/// The expression that a text means over a system's variables, or the text's fault.
pub fn read_over(alloc: Global, system: &System, text: &[u8]) -> Result<Expr, ParseRefused>
    ensures over { IfOk result (λ e. IsOver (length system.now.names) (term_of e)) }
    ensures means { IfOk result (λ e. IsExpressionMeaning system.now.names text.now (term_of e)) }
    ensures placed { IfErr result (λ e. IsPlaced text.now e) }
    ensures long { MOST_TEXT < length text.now → IsErrAnd result SaysTooLong }
    ensures fault { IfErr result (IsExpressionRefusal system.now.names text.now) }
{
    parse_expr(alloc, system, text)
}
