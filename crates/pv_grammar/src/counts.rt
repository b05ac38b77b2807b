// The part of the text that a token stands in, and the counts that have limits.

ghost use Rattle.std.specs.Prelude.{◌≡◌};
ghost use Rattle.pv_grammar.specs.Counting.{begun, counted, declared, levels, moved, operated, turned};

use crate::cause::Cause;
use crate::symbol::{Fixed, Symbol};
use pv_code::MOST_PARAMETERS;
use pv_expr::{MOST_CONSTRAINTS, MOST_VARIABLES};

/// The most functions of a text.
pub const MOST_FUNCTIONS: u8 = 64;

/// The most parentheses of an expression within one another.
pub const MOST_NESTING: u32 = 100;

/// The most operations of an expression, or of a constraint's two sides together.
pub const MOST_OPERATIONS: u32 = 1000;

/// The part of the text that a token stands in.
#[derive(Clone, Copy, Debug, PartialEq, Eq)]
pub enum Phase {
    /// Between blocks, where no name can stand.
    Between,
    Constants,
    FunctionName,
    Parameters,
    Body,
    Variables,
    Bounds,
    /// Where a constraint may begin.
    NextConstraint,
    /// Within a constraint, or within the text of one expression.
    Sides,
}

/// The phase and the counts that have limits.
#[derive(Clone, Copy)]
pub struct Counts {
    pub phase: Phase,
    /// Open parentheses of this constraint or body.
    pub level: u32,
    /// Operations of this constraint or body.
    pub operations: u32,
    /// Parameters of this function.
    pub parameters: u8,
    /// Functions that have begun.
    pub functions: u8,
    pub variables: u8,
    /// Constraints that have begun.
    pub constraints: u32,
}

impl Counts {
    /// Nothing is counted yet.
    pub fn none(phase: Phase) -> Counts
        ensures { result ≡ Rattle.pv_grammar.specs.Counting.nothing phase }
    {
        Counts {
            phase,
            level: 0,
            operations: 0,
            parameters: 0,
            functions: 0,
            variables: 0,
            constraints: 0,
        }
    }

    /// The counts after a token that the grammar allows, or which limit or declaration forbids it.
    pub fn counted(self, symbol: Symbol) -> Result<Counts, Cause>
        ensures { result ≡ counted self symbol }
    {
        let counts = self.begun(symbol)?;
        match counts.phase {
            Phase::Body | Phase::Sides => counts.operated(symbol)?.levels(symbol)?.moved(symbol),
            _ => counts.moved(symbol),
        }
    }

    // Where a constraint may begin, a token that begins one.
    fn begun(mut self, symbol: Symbol) -> Result<Counts, Cause>
        ensures { result ≡ begun self symbol }
    {
        if self.phase == Phase::NextConstraint && symbol.begins() {
            if self.constraints >= MOST_CONSTRAINTS {
                return Err(Cause::TooManyConstraints);
            }
            self.phase = Phase::Sides;
            self.constraints += 1;
        }
        Ok(self)
    }

    // An operation of an expression.
    fn operated(mut self, symbol: Symbol) -> Result<Counts, Cause>
        ensures { result ≡ operated self symbol }
    {
        if symbol.operates() {
            if self.operations >= MOST_OPERATIONS {
                return Err(Cause::TooDeep);
            }
            self.operations += 1;
        }
        Ok(self)
    }

    // A parenthesis of an expression.
    fn levels(mut self, symbol: Symbol) -> Result<Counts, Cause>
        ensures { result ≡ levels symbol self }
    {
        match symbol {
            Symbol::Fixed(Fixed::Open) if self.level >= MOST_NESTING => return Err(Cause::TooDeep),
            Symbol::Fixed(Fixed::Open) => self.level += 1,
            Symbol::Fixed(Fixed::Close) => self.level = self.level.saturating_sub(1),
            // The `(` that must follow would open a level too many.
            Symbol::Function { .. } if self.level >= MOST_NESTING => return Err(Cause::Unexpected),
            _ => {}
        }
        Ok(self)
    }

    // A declaration, or a token between the parts of the text.
    fn moved(self, symbol: Symbol) -> Result<Counts, Cause>
        ensures { result ≡ moved self symbol }
    {
        match symbol {
            Symbol::Unknown => Err(Cause::UnknownName),
            Symbol::Declared { taken } => self.declared(taken),
            Symbol::Fixed(fixed) => self.turned(fixed),
            _ => Ok(self),
        }
    }

    // The limit comes before what the name is declared as.
    fn declared(mut self, taken: bool) -> Result<Counts, Cause>
        ensures { result ≡ declared self.phase self taken }
    {
        match self.phase {
            Phase::Variables if self.variables >= MOST_VARIABLES => {
                return Err(Cause::TooManyVariables);
            }
            Phase::Parameters if self.parameters >= MOST_PARAMETERS => return Err(
                Cause::Unexpected,
            ),
            _ if taken => return Err(Cause::DuplicateName),
            Phase::Variables => self.variables += 1,
            Phase::Parameters => self.parameters += 1,
            Phase::FunctionName => self.phase = Phase::Parameters,
            _ => {}
        }
        Ok(self)
    }

    fn turned(mut self, fixed: Fixed) -> Result<Counts, Cause>
        ensures { result ≡ turned fixed self }
    {
        match fixed {
            Fixed::Constants => self.phase = Phase::Constants,
            Fixed::Variables | Fixed::CloseBracket => self.phase = Phase::Variables,
            Fixed::Constraints => self = self.in_expression(Phase::NextConstraint),
            Fixed::Function if self.functions >= MOST_FUNCTIONS => {
                return Err(Cause::TooManyFunctions);
            }
            Fixed::Function => {
                self.phase = Phase::FunctionName;
                self.functions += 1;
            }
            Fixed::Comma => {
                if self.phase == Phase::Parameters && self.parameters >= MOST_PARAMETERS {
                    return Err(Cause::Unexpected);
                }
            }
            Fixed::Return => self = self.in_expression(Phase::Body),
            Fixed::End => {
                if self.phase == Phase::Body {
                    self.parameters = 0;
                }
                self.phase = Phase::Between;
            }
            Fixed::Semicolon if self.phase == Phase::Sides => {
                self = self.in_expression(Phase::NextConstraint);
            }
            Fixed::OpenBracket => self.phase = Phase::Bounds,
            _ => {}
        }
        Ok(self)
    }

    // Before the expressions of a constraint or a body.
    fn in_expression(self, phase: Phase) -> Counts
        ensures { result ≡ Rattle.pv_grammar.specs.Counting.before_expression phase self }
    {
        Counts {
            phase,
            level: 0,
            operations: 0,
            ..self
        }
    }
}
