// The table of the grammar: what an item does with a token. Each function here is the definition of
// the same name.

ghost use Rattle.std.specs.Prelude.{◌≡◌, [], ◌∷◌, IfOk, Some};
ghost use Rattle.pv_grammar.specs.Grammar as grammar;
ghost use Rattle.pv_grammar.specs.Grammar.{Moves, pile};

use crate::machine::Item::{
    Exactly, MaybeConstant, MaybeConstants, MaybeConstraint, MaybeDomain, MaybeFunctions,
    MaybePower, MaybeSemicolon, MaybeSign, MaybeVariable, MoreArguments, MoreConstants,
    MoreConstraints, MoreFactors, MoreParameters, MoreTerms, MoreVariables, Then, WantBound,
    WantConstant, WantEquals, WantExponent, WantFactor, WantFunctionName, WantParameter,
    WantRelation, WantValue, WantVariable,
};
use crate::machine::{Item, Machine};
use crate::symbol::{Fixed, Symbol};
use pv_code::Op;
use pv_expr::{BinaryOp, Relation, UnaryOp};
use pv_num::Memory;
use std::alloc::Global;

impl Machine {
    /// A machine at the start of a system's text.
    pub fn for_system(alloc: Global) -> Result<Machine, Memory>
        ensures stack { IfOk result (λ m. pile m.stack.items ≡ grammar.system_items) }
        ensures code { IfOk result (λ m. m.code.items ≡ []) }
    {
        let mut machine = Machine::empty(alloc);
        machine.expression(&[WantRelation, MoreConstraints, Exactly(Fixed::End)])?;
        machine.put_all(&[MoreVariables, MaybeFunctions, Exactly(Fixed::Constraints)])?;
        machine.put_all(&[Exactly(Fixed::Variables), WantVariable])?;
        machine.put_all(&[MaybeConstants, MaybeFunctions])?;
        Ok(machine)
    }

    /// A machine at the start of an expression's text.
    pub fn for_expression(alloc: Global) -> Result<Machine, Memory>
        ensures stack { IfOk result (λ m. pile m.stack.items ≡ grammar.expression_items) }
        ensures code { IfOk result (λ m. m.code.items ≡ []) }
    {
        let mut machine = Machine::empty(alloc);
        machine.put_all(&[WantFactor, MoreFactors, MoreTerms])?;
        Ok(machine)
    }

    /// Takes the token where the item stood; false where the grammar does not allow it there.
    pub fn take(&mut self, item: Item, symbol: Symbol) -> Result<bool, Memory>
        ensures { IfOk result (Moves (grammar.produced item symbol) self.old self.new) }
    {
        match item {
            Exactly(fixed) => Ok(matches!(symbol, Symbol::Fixed(found) if found == fixed)),
            MaybeConstants => self.word(Fixed::Constants, &[WantConstant, MoreConstants], symbol),
            WantConstant => self.declared(&[WantEquals, MaybeSign, WantValue], symbol),
            MoreConstants => self.separated(MaybeConstant, symbol),
            MaybeConstant => {
                self.declared(&[WantEquals, MaybeSign, WantValue, MoreConstants], symbol)
            }
            WantEquals => Ok(matches!(symbol, Symbol::Relation(Relation::Eq))),
            MaybeSign => Ok(matches!(symbol, Symbol::Fixed(Fixed::Plus | Fixed::Minus))),
            WantValue => Ok(matches!(symbol, Symbol::Number { .. })),
            MaybeFunctions => self.functions(symbol),
            WantFunctionName | WantParameter => self.declared(&[], symbol),
            MoreParameters => self.parameters(symbol),
            MaybeSemicolon => Ok(matches!(symbol, Symbol::Fixed(Fixed::Semicolon))),
            WantVariable => self.declared(&[MaybeDomain], symbol),
            MoreVariables => self.separated(MaybeVariable, symbol),
            MaybeVariable => self.declared(&[MaybeDomain, MoreVariables], symbol),
            MaybeDomain => self.domain(symbol),
            WantBound => Ok(matches!(
                symbol,
                Symbol::Number { .. }
                    | Symbol::Constant(_)
                    | Symbol::Unknown
                    | Symbol::Fixed(Fixed::Oo)
            )),
            WantRelation => self.relation(symbol),
            MoreConstraints => self.word(Fixed::Semicolon, &[MaybeConstraint], symbol),
            MaybeConstraint => self.constraint(symbol),
            WantFactor => self.factor(symbol),
            MoreFactors => self.factors(symbol),
            MoreTerms => self.terms(symbol),
            MaybePower => self.word(Fixed::Caret, &[WantExponent], symbol),
            WantExponent => self.exponent(symbol),
            MoreArguments(more) => self.arguments(more, symbol),
            Then(_) => Ok(false),
        }
    }

    // Items after this token alone.
    fn word(&mut self, fixed: Fixed, items: &[Item], symbol: Symbol) -> Result<bool, Memory>
        ensures { IfOk result
            (Moves (grammar.with_more items.now (grammar.exactly fixed symbol)) self.old self.new) }
    {
        match symbol {
            Symbol::Fixed(found) if found == fixed => self.behind(items),
            _ => Ok(false),
        }
    }

    // Items after a token that is taken.
    fn behind(&mut self, items: &[Item]) -> Result<bool, Memory>
        ensures { IfOk result (Moves (grammar.behind items.now) self.old self.new) }
    {
        self.put_all(items)?;
        Ok(true)
    }

    // An expression, and items after it.
    fn expression(&mut self, more: &[Item]) -> Result<bool, Memory>
        ensures { IfOk result
            (Moves (grammar.behind (grammar.expression_behind more.now)) self.old self.new) }
    {
        self.put_all(more)?;
        self.behind(&[WantFactor, MoreFactors, MoreTerms])
    }

    fn operand(&mut self, op: Op) -> Result<bool, Memory>
        ensures { IfOk result (Moves (grammar.operand op) self.old self.new) }
    {
        self.code.push(op)?;
        self.behind(&[MaybePower])
    }

    fn factor(&mut self, symbol: Symbol) -> Result<bool, Memory>
        ensures { IfOk result (Moves (grammar.factor symbol) self.old self.new) }
    {
        match symbol {
            Symbol::Fixed(Fixed::Plus) => self.behind(&[WantFactor]),
            Symbol::Fixed(Fixed::Minus) => self.behind(&[WantFactor, Then(Op::One(UnaryOp::Neg))]),
            Symbol::Fixed(Fixed::Open) => self.expression(&[MoreArguments(0), MaybePower]),
            Symbol::Number { value, .. } | Symbol::Constant(value) => {
                self.operand(Op::Constant(value))
            }
            Symbol::Variable(i) => self.operand(Op::Variable(i)),
            Symbol::Parameter(i) => self.operand(Op::Parameter(i)),
            Symbol::Function { op, arity } => self.call(op, arity.saturating_sub(1)),
            Symbol::Unknown => self.behind(&[MaybePower]),
            _ => Ok(false),
        }
    }

    fn call(&mut self, op: Op, more: u8) -> Result<bool, Memory>
        ensures { IfOk result
            (Moves (grammar.behind (grammar.call_items op more)) self.old self.new) }
    {
        self.expression(&[MoreArguments(more), Then(op), MaybePower])?;
        self.behind(&[Exactly(Fixed::Open)])
    }

    fn constraint(&mut self, symbol: Symbol) -> Result<bool, Memory>
        ensures { IfOk result
            (Moves (grammar.produced Item.MaybeConstraint symbol) self.old self.new) }
    {
        self.put_all(&[MoreFactors, MoreTerms, WantRelation, MoreConstraints])?;
        self.factor(symbol)
    }

    fn factors(&mut self, symbol: Symbol) -> Result<bool, Memory>
        ensures { IfOk result (Moves (grammar.factors symbol) self.old self.new) }
    {
        let op = match symbol {
            Symbol::Fixed(Fixed::Star) => BinaryOp::Mul,
            Symbol::Fixed(Fixed::Slash) => BinaryOp::Div,
            _ => return Ok(false),
        };
        self.behind(&[WantFactor, Then(Op::Two(op)), MoreFactors])
    }

    fn terms(&mut self, symbol: Symbol) -> Result<bool, Memory>
        ensures { IfOk result (Moves (grammar.terms symbol) self.old self.new) }
    {
        let op = match symbol {
            Symbol::Fixed(Fixed::Plus) => BinaryOp::Add,
            Symbol::Fixed(Fixed::Minus) => BinaryOp::Sub,
            _ => return Ok(false),
        };
        self.behind(&[WantFactor, MoreFactors, Then(Op::Two(op)), MoreTerms])
    }

    fn exponent(&mut self, symbol: Symbol) -> Result<bool, Memory>
        ensures { IfOk result (Moves (grammar.exponent symbol) self.old self.new) }
    {
        let Symbol::Number {
            exponent: Some(n),
            ..
        } = symbol
        else {
            return Ok(false);
        };
        self.code.push(Op::One(UnaryOp::Pow(n)))?;
        Ok(true)
    }

    fn arguments(&mut self, more: u8, symbol: Symbol) -> Result<bool, Memory>
        ensures { IfOk result (Moves (grammar.arguments more symbol) self.old self.new) }
    {
        match symbol {
            Symbol::Fixed(Fixed::Close) if more == 0 => Ok(true),
            Symbol::Fixed(Fixed::Comma) if more > 0 => self.expression(&[MoreArguments(more - 1)]),
            _ => Ok(false),
        }
    }

    fn relation(&mut self, symbol: Symbol) -> Result<bool, Memory>
        ensures { IfOk result (Moves (grammar.relation symbol) self.old self.new) }
    {
        match symbol {
            Symbol::Relation(relation) => self.expression(&[Then(Op::Relate(relation))]),
            _ => Ok(false),
        }
    }

    fn separated(&mut self, further: Item, symbol: Symbol) -> Result<bool, Memory>
        ensures { IfOk result (Moves (grammar.separated further symbol) self.old self.new) }
    {
        match symbol {
            Symbol::Fixed(Fixed::Comma | Fixed::Semicolon) => self.behind(&[further]),
            _ => Ok(false),
        }
    }

    fn declared(&mut self, items: &[Item], symbol: Symbol) -> Result<bool, Memory>
        ensures { IfOk result (Moves (grammar.declared items.now symbol) self.old self.new) }
    {
        match symbol {
            Symbol::Declared { .. } => self.behind(items),
            _ => Ok(false),
        }
    }

    fn functions(&mut self, symbol: Symbol) -> Result<bool, Memory>
        ensures { IfOk result (Moves (grammar.functions symbol) self.old self.new) }
    {
        if !matches!(symbol, Symbol::Fixed(Fixed::Function)) {
            return Ok(false);
        }
        self.put_all(&[Exactly(Fixed::End), MaybeSemicolon, MaybeFunctions])?;
        self.expression(&[Then(Op::Define), MaybeSemicolon])?;
        self.put_all(&[MoreParameters, Exactly(Fixed::Return)])?;
        self.behind(&[WantFunctionName, Exactly(Fixed::Open), WantParameter])
    }

    fn parameters(&mut self, symbol: Symbol) -> Result<bool, Memory>
        ensures { IfOk result (Moves (grammar.parameters symbol) self.old self.new) }
    {
        match symbol {
            Symbol::Fixed(Fixed::Comma) => self.behind(&[WantParameter, MoreParameters]),
            Symbol::Fixed(Fixed::Close) => Ok(true),
            _ => Ok(false),
        }
    }

    fn domain(&mut self, symbol: Symbol) -> Result<bool, Memory>
        ensures { IfOk result (Moves (grammar.domain symbol) self.old self.new) }
    {
        if !matches!(symbol, Symbol::Fixed(Fixed::In)) {
            return Ok(false);
        }
        self.put_all(&[MaybeSign, WantBound, Exactly(Fixed::CloseBracket)])?;
        self.put_all(&[WantBound, Exactly(Fixed::Comma)])?;
        self.behind(&[Exactly(Fixed::OpenBracket), MaybeSign])
    }
}
