// The words that can't be declared.

ghost use Rattle.std.specs.Prelude.{◌≡◌, ◌||◌};
ghost use Rattle.std.specs.List.{list_any};
ghost use Rattle.std.specs.Str.{bytes_eq};
ghost use Rattle.pv_tokens.specs.Words.{word_in};

/// A word that no text can declare. Block words have two spellings.
#[derive(Clone, Copy, Debug, PartialEq, Eq)]
pub enum Word {
    Constants,
    Variables,
    Constraints,
    Function,
    Return,
    End,
    In,
    Oo,
    Abs,
    Sqr,
    Min,
    Max,
    /// A word of the language that this profile leaves out.
    Outside,
}

/// The words of the language that this profile leaves out.
const OUTSIDE: [&str; 24] = [
    "sqrt", "root", "exp", "log", "ln", "sign", "cos", "acos", "sin", "asin", "tan", "atan",
    "atan2", "cosh", "acosh", "sinh", "asinh", "tanh", "atanh", "pi", "for", "sum", "Minimize",
    "minimize",
];

/// The word that a name is, or None where the text may declare it.
pub fn word_of(name: &[u8]) -> Option<Word>
    ensures { result ≡ word_in name.now }
{
    if is_either(name, "Constants", "constants") {
        Some(Word::Constants)
    } else if is_either(name, "Variables", "variables") {
        Some(Word::Variables)
    } else if is_either(name, "Constraints", "constraints") {
        Some(Word::Constraints)
    } else if is_either(name, "Function", "function") {
        Some(Word::Function)
    } else if is_either(name, "Return", "return") {
        Some(Word::Return)
    } else if is_either(name, "End", "end") {
        Some(Word::End)
    } else if is_text(name, "in") {
        Some(Word::In)
    } else if is_text(name, "oo") {
        Some(Word::Oo)
    } else if is_text(name, "abs") {
        Some(Word::Abs)
    } else if is_text(name, "sqr") {
        Some(Word::Sqr)
    } else if is_text(name, "min") {
        Some(Word::Min)
    } else if is_text(name, "max") {
        Some(Word::Max)
    } else if is_any(name, &OUTSIDE) {
        Some(Word::Outside)
    } else {
        None
    }
}

// Whether it is one of these words.
fn is_any(name: &[u8], words: &[&str]) -> bool
    ensures { result ≡ list_any (λ word. bytes_eq name.now word.now) words.now }
{
    words.iter().any(|word| is_text(name, word))
}

fn is_either(name: &[u8], one: &str, other: &str) -> bool
    ensures { result ≡ (bytes_eq name.now one.now || bytes_eq name.now other.now) }
{
    is_text(name, one) || is_text(name, other)
}

fn is_text(name: &[u8], text: &str) -> bool
    ensures { result ≡ bytes_eq name.now text.now }
{
    name == text.as_bytes()
}
