// What the tokens of a text leave behind, token by token.

ghost use Rattle.std.specs.Prelude.{◌≡◌, ◌≤◌, ◌++◌, ◌∷◌, [], map, true, length, IfOk, OnOk};
ghost use Rattle.std.specs.Str.{IsAscii};
ghost use Rattle.pv_grammar.specs.Counting.{nothing, standing_of};
ghost use Rattle.pv_parse.specs.Declarations.{declares, mark_of};
ghost use Rattle.pv_parse.specs.Fractions.{HasFraction};
ghost use Rattle.pv_parse.specs.Meanings.{AreSame, told, with_known};
ghost use Rattle.pv_parse.specs.Scopes.{TakesIn, declared, scoped, starts_behind, unbounded, variables_behind};
ghost use Rattle.pv_parse.specs.Sentences.{bytes_of};
ghost use Rattle.pv_parse.specs.Views.{view};

use crate::names::{Meaning, Names};
use crate::variable::{Variable, bound, infinite, open, value_of};
use pv_expr::{Bound, Domain};
use pv_grammar::{Cause, Counts, Fixed, Phase, Symbol};
use pv_num::Memory;
use pv_tokens::Token;
use std::alloc::Global;

/// What the tokens so far leave behind.
#[derive(Drop)]
pub(crate) struct State {
    pub alloc: Global,
    pub counts: Counts,
    pub names: Names,
    pub variables: Vec<Variable>,
    /// Where each constraint begins.
    pub starts: Vec<usize>,
}

impl State {
    /// The state before a text that begins in a phase, where these names are known.
    pub(crate) fn new(alloc: Global, phase: Phase, names: Names) -> State
        ensures counts { result.counts ≡ nothing phase }
        ensures names { result.names ≡ names }
        ensures scoped { scoped result ≡ record {
          variables = [];
          starts = [];
          negative = names.negative;
        } }
    {
        State {
            alloc,
            counts: Counts::none(phase),
            names,
            variables: Vec::new(alloc),
            starts: Vec::new(alloc),
        }
    }

    /// Takes in a token that the grammar allows, or gives the cause that forbids it.
    pub(crate) fn take_in(
        &mut self,
        symbol: Symbol,
        text: &[u8],
        token: Token,
    ) -> Result<Option<Cause>, Memory>
        requires ordered { token.start ≤ token.end }
        requires within { token.end ≤ length text.now }
        requires fraction { HasFraction symbol }
        requires ascii { declares self.now.counts.phase symbol ≡ true →
            IsAscii (bytes_of text.now token) }
        ensures { IfOk result (TakesIn self.old
            (mark_of text.now self.old.counts.phase symbol token) self.new) }
    {
        match self.counts.counted(symbol) {
            Ok(next) => {
                self.note(symbol, token.start, &text[token.start..token.end])?;
                self.names.negative = symbol.is_minus();
                self.counts = next;
                Ok(None)
            }
            Err(cause) => Ok(Some(cause)),
        }
    }

    // What a token declares, where a constraint begins, and the parts of a domain.
    fn note(&mut self, symbol: Symbol, start: usize, name: &[u8]) -> Result<(), Memory>
        requires fraction { HasFraction symbol }
        requires ascii { declares self.now.counts.phase symbol ≡ true → IsAscii name.now }
        ensures names { OnOk result (AreSame (view self.new.names)
            (told (standing_of self.old.counts) symbol name.now (view self.old.names))) }
        ensures variables { OnOk result (map declared self.new.variables.items ≡
            variables_behind self.old.counts.phase symbol self.old.names.negative start name.now
            (map declared self.old.variables.items)) }
        ensures starts { OnOk result (self.new.starts.items ≡
            starts_behind self.old.counts.phase symbol start self.old.starts.items) }
    {
        let counts = self.counts;
        let negative = self.names.negative;
        match (symbol, counts.phase) {
            (Symbol::Declared { .. }, Phase::Constants | Phase::FunctionName) => {
                self.names.pending = Vec::from_slice(self.alloc, name)?;
            }
            (Symbol::Declared { .. }, Phase::Parameters) => {
                let own = Vec::from_slice(self.alloc, name)?;
                self.names.know_parameter(own, counts.parameters)?;
            }
            (Symbol::Declared { .. }, Phase::Variables) => self.declare(name)?,
            (Symbol::Number { value, .. }, Phase::Constants) => {
                self.names
                    .know_pending(Meaning::Constant(value.signed(negative)))?;
            }
            (Symbol::Fixed(Fixed::End), Phase::Body) => {
                let number = counts.functions.saturating_sub(1);
                let arity = counts.parameters;
                self.names
                    .know_pending(Meaning::Function { number, arity })?;
                self.names.parameters.clear();
            }
            (Symbol::Fixed(Fixed::OpenBracket), _) => open(&mut self.variables, start),
            (Symbol::Number { value, .. } | Symbol::Constant(value), Phase::Bounds) => {
                bound(&mut self.variables, value_of(value, negative));
            }
            (Symbol::Fixed(Fixed::Oo), Phase::Bounds) => {
                bound(&mut self.variables, infinite(negative));
            }
            (_, Phase::NextConstraint) if symbol.begins() => self.starts.push(start)?,
            _ => {}
        }
        Ok(())
    }

    fn declare(&mut self, name: &[u8]) -> Result<(), Memory>
        requires { IsAscii name.now }
        ensures names { OnOk result (AreSame (view self.new.names) (with_known name.now
            (Meaning.Variable self.old.counts.variables) (view self.old.names))) }
        ensures variables { OnOk result (map declared self.new.variables.items ≡
            map declared self.old.variables.items ++ unbounded name.now ∷ []) }
        ensures starts { self.new.starts ≡ self.old.starts }
    {
        let key = Vec::from_slice(self.alloc, name)?;
        let meaning = Meaning::Variable(self.counts.variables);
        self.names.know(key, meaning)?;
        let own = String::from_utf8_lossy(self.alloc, name)?;
        let (lo, hi) = (Bound::MinusOo, Bound::PlusOo);
        self.variables.push(Variable {
            name: own,
            domain: Domain { lo, hi },
            bracket: 0,
        })?;
        Ok(())
    }
}
