// What names stand for.

ghost use Rattle.std.specs.Prelude.{◌≡◌, ◌≢◌, ◌≤◌, [], length, IfOk, OnOk};
ghost use Rattle.pv_grammar.specs.declared.counts.Phase.{Phase};
ghost use Rattle.pv_parse.specs.Fractions.{HasFraction, KnowsFractions};
ghost use Rattle.pv_parse.specs.Meanings.{AreSame, KnowsVariables, is_taken, meaning, no_names, use_of, with_known, with_parameter};
ghost use Rattle.pv_parse.specs.Sentences.{IsNumberSymbol, StandsFor, bytes_of, word_symbol};
ghost use Rattle.pv_parse.specs.Views.{found, view};

use pv_code::{Fraction, Op};
use pv_expr::{BinaryOp, Relation, System, UnaryOp};
use pv_grammar::{Cause, Fixed, Phase, Symbol};
use pv_num::Memory;
use pv_tokens::{Kind, Token, Word, exponent_of, read_number, word_of};
use std::alloc::Global;
use std::collections::BTreeMap;

/// What a name was declared as.
#[derive(Clone, Copy)]
pub(crate) enum Meaning {
    Constant(Fraction),
    Variable(u8),
    /// A function whose text has ended.
    Function { number: u8, arity: u8 },
}

/// The names that are declared so far.
#[derive(Drop)]
pub(crate) struct Names {
    pub alloc: Global,
    pub known: BTreeMap<Vec<u8>, Meaning>,
    /// The parameters of the function whose text this is, by their places.
    pub parameters: BTreeMap<Vec<u8>, u8>,
    /// The constant whose value is to come, or the function whose text this is.
    pub pending: Vec<u8>,
    /// Whether the token before is `-`.
    pub negative: bool,
}

impl Names {
    /// Nothing is declared yet.
    pub(crate) fn new(alloc: Global) -> Names
        ensures { view result ≡ no_names }
    {
        Names {
            alloc,
            known: BTreeMap::new(alloc),
            parameters: BTreeMap::new(alloc),
            pending: Vec::new(alloc),
            negative: false,
        }
    }

    /// The variables of a system.
    pub(crate) fn of_system(alloc: Global, system: &System) -> Result<Names, Memory>
        ensures { IfOk result (λ names. KnowsVariables system.now.names (view names)) }
    {
        let mut names = Names::new(alloc);
        let mut i = system.variable_count();
        while i > 0 {
            i -= 1;
            let name = Vec::from_slice(alloc, system.name(i).as_bytes())?;
            names.know(name, Meaning::Variable(i))?;
        }
        Ok(names)
    }

    #[tactic(auto, using(crate::proofs::Same::found_after))]
    pub(crate) fn know(&mut self, name: Vec<u8>, meaning: Meaning) -> Result<(), Memory>
        ensures { OnOk result (AreSame (view self.new)
            (with_known name.items meaning (view self.old))) }
    {
        self.known.insert(name, meaning)?;
        Ok(())
    }

    #[tactic(auto, using(crate::proofs::Same::found_after))]
    pub(crate) fn know_parameter(&mut self, name: Vec<u8>, place: u8) -> Result<(), Memory>
        ensures { OnOk result (AreSame (view self.new)
            (with_parameter name.items place (view self.old))) }
    {
        self.parameters.insert(name, place)?;
        Ok(())
    }

    /// The constant has its value, or the function its text.
    pub(crate) fn know_pending(&mut self, meaning: Meaning) -> Result<(), Memory>
        ensures { OnOk result (AreSame (view self.new)
            (with_known (view self.old).pending meaning (view self.old))) }
    {
        let own = Vec::from_slice(self.alloc, self.pending.as_slice())?;
        self.know(own, meaning)
    }

    /// What a token is for the grammar, here.
    #[tactic(auto, using(crate::proofs::Fractions::name_fraction))]
    pub(crate) fn symbol_of(&self, text: &[u8], token: Token, phase: Phase) -> Symbol
        requires ordered { token.start ≤ token.end }
        requires within { token.end ≤ length text.now }
        requires fractions { KnowsFractions (view self.now) }
        ensures stands { StandsFor phase (view self.now)
            (bytes_of text.now token) token.kind result }
        ensures fraction { HasFraction result }
    {
        let bytes = &text[token.start..token.end];
        match token.kind {
            Kind::Name => match word_of(bytes) {
                Some(word) => symbol_of_word(word),
                None => self.resolve(bytes, phase),
            },
            Kind::Number => symbol_of_number(bytes),
            kind => symbol_of_mark(kind),
        }
    }

    fn resolve(&self, name: &[u8], phase: Phase) -> Symbol
        ensures { result ≡ meaning phase (view self.now) name.now }
    {
        match phase {
            Phase::Between => Symbol::Unknown,
            Phase::Constants | Phase::FunctionName | Phase::Variables => Symbol::Declared {
                taken: self.known.contains_key(name),
            },
            Phase::Parameters => Symbol::Declared {
                taken: self.is_taken(name),
            },
            Phase::Body => match self.parameters.get(name) {
                Some(i) => Symbol::Parameter(*i),
                None => self.use_of(name, false),
            },
            Phase::Bounds => match self.known.get(name) {
                Some(Meaning::Constant(value)) => Symbol::Constant(*value),
                _ => Symbol::Unknown,
            },
            Phase::NextConstraint | Phase::Sides => self.use_of(name, true),
        }
    }

    fn use_of(&self, name: &[u8], with_variables: bool) -> Symbol
        ensures { result ≡ use_of with_variables (found self.now.known name.now) }
    {
        match (self.known.get(name), with_variables) {
            (Some(Meaning::Constant(value)), _) => Symbol::Constant(*value),
            (Some(Meaning::Variable(i)), true) => Symbol::Variable(*i),
            (Some(Meaning::Function { arity: 0, .. }), _) => Symbol::Unknown,
            (Some(Meaning::Function { number, arity }), _) => {
                let (function, arity) = (*number, *arity);
                called(Op::Call { function, arity }, arity)
            }
            _ => Symbol::Unknown,
        }
    }

    // Whether a parameter can't have this name.
    fn is_taken(&self, name: &[u8]) -> bool
        ensures { result ≡ is_taken (view self.now) name.now }
    {
        matches!(self.known.get(name), Some(Meaning::Function { .. }))
            || self.pending.as_slice() == name
            || self.parameters.contains_key(name)
    }
}

fn symbol_of_number(bytes: &[u8]) -> Symbol
    ensures number { IsNumberSymbol bytes.now result }
    ensures fraction { HasFraction result }
{
    match read_number(bytes) {
        Some((p, q)) => Symbol::Number {
            value: Fraction { p, q },
            exponent: exponent_of(bytes),
        },
        None => Symbol::Never(Cause::NumberTooWide),
    }
}

// The symbol of a token that is no name and no number.
fn symbol_of_mark(kind: Kind) -> Symbol
    requires no_name { kind ≢ Kind.Name }
    requires no_number { kind ≢ Kind.Number }
    ensures stands { StandsFor Phase.Between no_names [] kind result }
    ensures fraction { HasFraction result }
{
    match kind {
        Kind::LessEqual => Symbol::Relation(Relation::Le),
        Kind::GreaterEqual => Symbol::Relation(Relation::Ge),
        Kind::Less => Symbol::Relation(Relation::Lt),
        Kind::Greater => Symbol::Relation(Relation::Gt),
        Kind::Equal => Symbol::Relation(Relation::Eq),
        Kind::Plus => Symbol::Fixed(Fixed::Plus),
        Kind::Minus => Symbol::Fixed(Fixed::Minus),
        Kind::Star => Symbol::Fixed(Fixed::Star),
        Kind::Slash => Symbol::Fixed(Fixed::Slash),
        Kind::Caret => Symbol::Fixed(Fixed::Caret),
        Kind::Open => Symbol::Fixed(Fixed::Open),
        Kind::Close => Symbol::Fixed(Fixed::Close),
        Kind::OpenBracket => Symbol::Fixed(Fixed::OpenBracket),
        Kind::CloseBracket => Symbol::Fixed(Fixed::CloseBracket),
        Kind::Comma => Symbol::Fixed(Fixed::Comma),
        Kind::Semicolon => Symbol::Fixed(Fixed::Semicolon),
        Kind::End => Symbol::Fixed(Fixed::EndOfText),
        Kind::Name | Kind::Number | Kind::Bad => Symbol::Never(Cause::BadByte),
    }
}

fn symbol_of_word(word: Word) -> Symbol
    ensures { result ≡ word_symbol word }
{
    match word {
        Word::Constants => Symbol::Fixed(Fixed::Constants),
        Word::Variables => Symbol::Fixed(Fixed::Variables),
        Word::Constraints => Symbol::Fixed(Fixed::Constraints),
        Word::Function => Symbol::Fixed(Fixed::Function),
        Word::Return => Symbol::Fixed(Fixed::Return),
        Word::End => Symbol::Fixed(Fixed::End),
        Word::In => Symbol::Fixed(Fixed::In),
        Word::Oo => Symbol::Fixed(Fixed::Oo),
        Word::Abs => called(Op::One(UnaryOp::Abs), 1),
        Word::Sqr => called(Op::One(UnaryOp::Pow(2)), 1),
        Word::Min => called(Op::Two(BinaryOp::Min), 2),
        Word::Max => called(Op::Two(BinaryOp::Max), 2),
        Word::Outside => Symbol::Never(Cause::NotInProfile),
    }
}

fn called(op: Op, arity: u8) -> Symbol
    ensures { result ≡ Symbol.Function op arity }
{
    Symbol::Function { op, arity }
}
