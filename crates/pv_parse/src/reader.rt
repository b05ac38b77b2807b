// Texts to systems and expressions.

ghost use Rattle.std.specs.Prelude.{All, ◌≡◌, ◌≢◌, ℕ, map, false, slice_index, ◌≤◌, ◌+◌, ◌<◌, length, IsOk, OnOk, IfOk, IfErr, IsErrAnd};
ghost use Rattle.pv_expr.specs.Terms.{term_of};
ghost use Rattle.pv_expr.specs.Systems.{IsOver};
ghost use Rattle.pv_code.specs.declared.code.Op.{Op};
ghost use Rattle.pv_code.specs.Expansion.{sides_of, constraints_of};
ghost use Rattle.pv_code.specs.Sizes.{AreWithin, IsShortCall};
ghost use Rattle.pv_grammar.specs.ByItems.{IsStart};
ghost use Rattle.pv_grammar.specs.Causes.{refusal};
ghost use Rattle.pv_grammar.specs.Grammar.{pile};
ghost use Rattle.pv_parse.specs.ByItems.{AreBounded, IsAt, IsAtStart, IsFirstOf, IsLargeAt, IsLong, IsTold, IsToldAs};
ghost use Rattle.pv_parse.specs.Faults.{IsExpressionRefusal, IsPlaced, IsRefusal, SaysTooLong};
ghost use Rattle.pv_parse.specs.Declarations.{IsExpressionMeaning, IsMeaning};
ghost use Rattle.pv_parse.specs.Fractions.{KnowsFractions};
ghost use Rattle.pv_parse.specs.Scopes.{scoped};
ghost use Rattle.pv_parse.specs.Views.{view};

use crate::names::Names;
use crate::refused::ParseRefused;
use crate::state::State;
use crate::variable::{first_bad, names_and_domains};
use pv_code::{Function, Op, constraint, expression, nodes_with};
use pv_expr::{Constraint, Expr, System};
use pv_grammar::{Cause, Fixed, Machine, Phase, Symbol};
use pv_tokens::{Kind, Token, line_and_column, next_token};
use std::alloc::Global;

/// The longest text that is read, in bytes.
/// The longest text of a system, in bytes.
pub const MOST_TEXT: usize = 65536;

/// The system that a text means.
///
/// A text that means none has one fault (`laws::one_outcome`): where it is longer than 65,536
/// bytes, at the first byte too many; else at the first token such that no text of a system begins
/// with the tokens up to and with it; else at the bracket of the first bad domain; else at the
/// start of the first constraint with which the system is too large.
#[tactic(auto, using(crate::proofs::Refusals::long_system))]
pub fn parse(alloc: Global, text: &[u8]) -> Result<System, ParseRefused>
    ensures means { IfOk result (λ s. IsMeaning text.now s) }
    ensures placed { IfErr result (λ e. IsPlaced text.now e) }
    ensures long { MOST_TEXT < length text.now → IsErrAnd result SaysTooLong }
    ensures fault { IfErr result (IsRefusal text.now) }
{
    refuse_long(text)?;
    let (state, code) = read_system(alloc, text)?;
    if let Some(bracket) = first_bad(state.variables.as_slice()) {
        return Err(fault(text, bracket, Cause::BadBounds));
    }
    let constraints = match expanded(alloc, text, code.as_slice(), state.starts.as_slice()) {
        Ok(constraints) => constraints,
        Err(refused) => return Err(refused),
    };
    let (names, domains) = names_and_domains(alloc, state.variables)?;
    Ok(System::new(names, domains, constraints))
}

/// The expression that a text means, over the variables of a system.
///
/// A text that means none has one fault (`laws::one_expression_outcome`): where it is longer than
/// 65,536 bytes, at the first byte too many; else at the first token such that no expression begins
/// with the tokens up to and with it.
#[tactic(auto, using(crate::proofs::Refusals::long_expression, crate::proofs::Refusals::first_expression))]
pub fn parse_expr(alloc: Global, system: &System, text: &[u8]) -> Result<Expr, ParseRefused>
    ensures over { IfOk result (λ e. IsOver (length system.now.names) (term_of e)) }
    ensures means { IfOk result (λ e. IsExpressionMeaning system.now.names text.now (term_of e)) }
    ensures placed { IfErr result (λ e. IsPlaced text.now e) }
    ensures long { MOST_TEXT < length text.now → IsErrAnd result SaysTooLong }
    ensures fault { IfErr result (IsExpressionRefusal system.now.names text.now) }
{
    if let Err(refused) = refuse_long(text) {
        return Err(refused);
    }
    let names = Names::of_system(alloc, system)?;
    let mut state = State::new(alloc, Phase::Sides, names);
    let mut machine = Machine::for_expression(alloc)?;
    read_tokens(text, &mut state, &mut machine)?;
    let e = expression(alloc, machine.into_code().as_slice())?;
    Ok(e)
}

// The state behind the tokens of a system, and their code.
#[tactic(auto, using(crate::proofs::Meant::first_fault, crate::proofs::TreeTexts::told_tree))]
fn read_system(alloc: Global, text: &[u8]) -> Result<(State, Vec<Op>), ParseRefused>
    requires short { length text.now ≤ MOST_TEXT }
    ensures told { IfOk result (λ (state, code). IsTold text.now code.items (scoped state)) }
    ensures placed { IfErr result (λ e. IsPlaced text.now e) }
    ensures fault { IfErr result (IsRefusal text.now) }
{
    let mut state = State::new(alloc, Phase::Between, Names::new(alloc));
    let mut machine = Machine::for_system(alloc)?;
    read_tokens(text, &mut state, &mut machine)?;
    Ok((state, machine.into_code()))
}

fn refuse_long(text: &[u8]) -> Result<(), ParseRefused>
    ensures short { IsOk result → length text.now ≤ MOST_TEXT }
    ensures placed { IfErr result (λ e. IsPlaced text.now e) }
    ensures long { IfErr result SaysTooLong }
    ensures size { IfErr result (IsLong text.now) }
{
    if text.len() > MOST_TEXT {
        return Err(fault(text, MOST_TEXT, Cause::TextTooLong));
    }
    Ok(())
}

fn fault(text: &[u8], byte: usize, cause: Cause) -> ParseRefused
    requires within { byte ≤ length text.now }
    requires short { byte ≤ MOST_TEXT }
    ensures placed { IsPlaced text.now result }
    ensures at { IsAt byte cause result }
    ensures long { byte ≡ MOST_TEXT → cause ≡ Cause.TextTooLong → SaysTooLong result }
{
    let (line, column) = line_and_column(text, byte);
    ParseRefused::Fault {
        byte: byte as u32,
        line,
        column,
        cause,
    }
}

fn read_tokens(text: &[u8], state: &mut State, machine: &mut Machine) -> Result<(), ParseRefused>
    requires short { length text.now ≤ MOST_TEXT }
    requires start { IsStart state.now.counts (pile machine.now.stack.items) }
    requires names { AreBounded (view state.now.names) }
    requires fractions { KnowsFractions (view state.now.names) }
    ensures placed { IfErr result (λ e. IsPlaced text.now e) }
    ensures told { OnOk result (IsToldAs text.now (view state.old.names) state.old.counts
        (pile machine.old.stack.items) machine.old.code.items machine.new.code.items
        (scoped state.old) (scoped state.new)) }
    ensures fault { IfErr result (IsFirstOf text.now (view state.old.names) state.old.counts) }
{
    let mut from = 0;
    loop {
        let token = next_token(text, from);
        let symbol = state.names.symbol_of(text, token, state.counts.phase);
        let Some(item) = machine.settle(symbol)? else {
            return ended(text, token, symbol);
        };
        if !machine.take(item, symbol)? {
            return Err(fault(text, token.start, refusal(item.is_exponent(), symbol)));
        }
        if let Some(cause) = state.take_in(symbol, text, token)? {
            return Err(fault(text, token.start, cause));
        }
        from = token.end;
    }
}

// Where nothing more may come, only the end of the text is right.
fn ended(text: &[u8], token: Token, symbol: Symbol) -> Result<(), ParseRefused>
    requires within { token.start ≤ length text.now }
    requires short { length text.now ≤ MOST_TEXT }
    ensures ends { IsOk result → token.kind ≡ Kind.End }
    ensures placed { IfErr result (λ e. IsPlaced text.now e) }
    ensures at { IfErr result (λ e. (token.kind ≢ Kind.End) ×
        IsAt token.start (refusal false symbol) e) }
{
    if token.kind == Kind::End {
        return Ok(());
    }
    Err(fault(text, token.start, refusal(false, symbol)))
}

// The cause of a token that the grammar refuses.
fn refusal(behind_caret: bool, symbol: Symbol) -> Cause
    ensures { result ≡ refusal behind_caret symbol }
{
    match symbol {
        Symbol::Never(cause) => cause,
        Symbol::Fixed(Fixed::EndOfText) => Cause::EndOfText,
        _ if behind_caret => Cause::BadExponent,
        _ => Cause::Unexpected,
    }
}

// The constraints of a code, with all calls expanded, where they are within the limits.
fn expanded(
    alloc: Global,
    text: &[u8],
    code: &[Op],
    starts: &[usize],
) -> Result<Vec<Constraint>, ParseRefused>
    requires short { length text.now ≤ MOST_TEXT }
    requires calls { All IsShortCall code.now }
    requires places { (k : ℕ) → k < length starts.now → slice_index starts.now k ≤ length text.now }
    requires each { length starts.now ≡ length (constraints_of code.now) }
    ensures placed { IfErr result (λ e. IsPlaced text.now e) }
    ensures large { IfErr result (IsLargeAt starts.now code.now) }
    ensures within { IsOk result → AreWithin (constraints_of code.now) }
    ensures means { IfOk result (λ cs. map sides_of cs.items ≡ constraints_of code.now) }
{
    let mut functions = Vec::new(alloc);
    let mut constraints = Vec::new(alloc);
    let mut nodes = 0;
    let mut from = 0;
    for i in 0..code.len() {
        match code[i] {
            Op::Define => {
                let made = Function::of(alloc, functions.as_slice(), &code[from..i])?;
                functions.push(made)?;
                from = i + 1;
            }
            Op::Relate(relation) => {
                let part = &code[from..i];
                let Some(with_it) = nodes_with(alloc, functions.as_slice(), part, nodes)? else {
                    return Err(too_large(text, starts, constraints.len()));
                };
                nodes = with_it;
                let made = constraint(alloc, functions.as_slice(), part, relation)?;
                constraints.push(made)?;
                from = i + 1;
            }
            _ => {}
        }
    }
    Ok(constraints)
}

#[tactic(auto, using(crate::proofs::Limited::fault_at_start))]
fn too_large(text: &[u8], starts: &[usize], i: usize) -> ParseRefused
    requires short { length text.now ≤ MOST_TEXT }
    requires places { (k : ℕ) → k < length starts.now → slice_index starts.now k ≤ length text.now }
    requires within { i < length starts.now }
    ensures placed { IsPlaced text.now result }
    ensures at { IsAtStart starts.now i result }
{
    fault(text, starts[i], Cause::TooLarge)
}
