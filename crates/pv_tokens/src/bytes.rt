// Bytes of a text, and their classes.

ghost use Rattle.std.specs.Prelude.{◌≡◌, ◌↔◌, IsTrue, slice_index};
ghost use Rattle.pv_tokens.specs.Tokens.{IsDigit, IsNamed};

/// The byte at a place, or 0 past the end of the text.
pub(crate) fn byte_at(text: &[u8], at: usize) -> u8
    ensures { result ≡ slice_index text.now at }
{
    text.get(at).copied().unwrap_or(0)
}

/// Whether it is a digit.
pub(crate) fn is_digit(byte: u8) -> bool
    ensures { IsTrue result ↔ IsDigit byte }
{
    matches!(byte, b'0'..=b'9')
}

/// Whether it may stand in a name after the name's first letter.
pub(crate) fn is_named(byte: u8) -> bool
    ensures { IsTrue result ↔ IsNamed byte }
{
    matches!(byte, b'a'..=b'z' | b'A'..=b'Z' | b'_' | b'0'..=b'9')
}
