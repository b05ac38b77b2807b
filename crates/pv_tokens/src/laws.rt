//! That a text is one list of tokens, as a contract.
ghost use Rattle.std.specs.Prelude.{ℕ, List};
ghost use Rattle.pv_tokens.specs.Tokens.{HasOneList};

/// Each text is a list of tokens, and of one list alone. It holds by its contract alone; the call
/// does nothing.
pub fn one_list()
    ensures one { (t : List ℕ) → HasOneList t }
{}
