// The grammar as a predictive machine: a stack of the items that are still to come, and the code of
// what was read.

ghost use Rattle.std.specs.Bool.{OnTrue, OnFalse};
ghost use Rattle.std.specs.Prelude.{◌≡◌, ◌≢◌, [], ◌∷◌, ◌++◌, IfOk, OnOk, None};
ghost use Rattle.pv_grammar.specs.Grammar.{pile, MayEnd, Settles, is_exponent, produced, step_of};

use crate::symbol::{Fixed, Symbol};
use pv_code::Op;
use pv_num::Memory;
use std::alloc::Global;

/// What may or must come.
#[derive(Clone, Copy)]
pub enum Item {
    Exactly(Fixed),
    MaybeConstants,
    WantConstant,
    MoreConstants,
    MaybeConstant,
    WantEquals,
    MaybeSign,
    WantValue,
    MaybeFunctions,
    WantFunctionName,
    WantParameter,
    MoreParameters,
    MaybeSemicolon,
    WantVariable,
    MoreVariables,
    MaybeVariable,
    MaybeDomain,
    WantBound,
    WantRelation,
    MoreConstraints,
    MaybeConstraint,
    WantFactor,
    MoreFactors,
    MoreTerms,
    MaybePower,
    WantExponent,
    /// So many further arguments of a call, and its `)`; with none, the `)` of a parenthesis.
    MoreArguments(u8),
    /// A step that is written when what stands above it has been read.
    Then(Op),
}

/// The grammar at work on a text.
#[derive(Drop)]
pub struct Machine {
    /// What is still to come, the first item last.
    pub stack: Vec<Item>,
    /// The steps of what was read.
    pub code: Vec<Op>,
}

impl Machine {
    pub(crate) fn empty(alloc: Global) -> Machine
        ensures stack { pile result.stack.items ≡ [] }
        ensures code { result.code.items ≡ [] }
    {
        Machine {
            stack: Vec::new(alloc),
            code: Vec::new(alloc),
        }
    }

    /// The code of all that was read.
    pub fn into_code(self) -> Vec<Op>
        ensures { result.items ≡ self.code.items }
    {
        self.code
    }

    /// Takes off the items that end before the token, writes their code, and takes off the item
    /// that the token meets.
    pub fn settle(&mut self, symbol: Symbol) -> Result<Option<Item>, Memory>
        ensures { IfOk result (λ met. Settles symbol
            (pile self.old.stack.items) self.old.code.items met
            (pile self.new.stack.items) self.new.code.items) }
    {
        while let Some(item) = self.stack.pop() {
            if item.stays(symbol) {
                return Ok(Some(item));
            }
            self.end(item)?;
        }
        Ok(None)
    }

    // Writes the step of an item that ends.
    fn end(&mut self, item: Item) -> Result<(), Memory>
        ensures stack { OnOk result (self.new.stack ≡ self.old.stack) }
        ensures code { OnOk result (self.new.code.items ≡ self.old.code.items ++ step_of item) }
    {
        if let Item::Then(op) = item {
            self.code.push(op)?;
        }
        Ok(())
    }

    /// Puts items on the stack, the first on top.
    pub(crate) fn put_all(&mut self, items: &[Item]) -> Result<(), Memory>
        ensures stack { OnOk result (pile self.new.stack.items ≡
            items.now ++ pile self.old.stack.items) }
        ensures code { OnOk result (self.new.code ≡ self.old.code) }
    {
        let mut i = items.len();
        while i > 0 {
            i -= 1;
            self.stack.push(items[i])?;
        }
        Ok(())
    }
}

impl Item {
    // Whether the item meets the token: it must come, or it may and the token begins it.
    fn stays(self, symbol: Symbol) -> bool
        ensures ends { OnFalse result (MayEnd self × (produced self symbol ≡ None)) }
        ensures meets { OnTrue result (MayEnd self → produced self symbol ≢ None) }
    {
        match self {
            Item::MaybeConstants => matches!(symbol, Symbol::Fixed(Fixed::Constants)),
            Item::MoreConstants | Item::MoreVariables => {
                matches!(symbol, Symbol::Fixed(Fixed::Comma | Fixed::Semicolon))
            }
            Item::MaybeConstant | Item::MaybeVariable => matches!(symbol, Symbol::Declared { .. }),
            Item::MaybeSign | Item::MoreTerms => {
                matches!(symbol, Symbol::Fixed(Fixed::Plus | Fixed::Minus))
            }
            Item::MaybeFunctions => matches!(symbol, Symbol::Fixed(Fixed::Function)),
            Item::MaybeSemicolon | Item::MoreConstraints => {
                matches!(symbol, Symbol::Fixed(Fixed::Semicolon))
            }
            Item::MaybeDomain => matches!(symbol, Symbol::Fixed(Fixed::In)),
            Item::MaybeConstraint => symbol.begins(),
            Item::MoreFactors => matches!(symbol, Symbol::Fixed(Fixed::Star | Fixed::Slash)),
            Item::MaybePower => matches!(symbol, Symbol::Fixed(Fixed::Caret)),
            Item::Then(_) => false,
            _ => true,
        }
    }

    /// Whether it is the exponent of a power.
    pub fn is_exponent(self) -> bool
        ensures { result ≡ is_exponent self }
    {
        matches!(self, Item::WantExponent)
    }
}
