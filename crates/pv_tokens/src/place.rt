// Lines and columns of a text.

ghost use Rattle.std.specs.Prelude.{◌≡◌, ◌<◌, ◌≤◌, ◌^◌, length};
ghost use Rattle.pv_tokens.specs.Places.{behind_line_feed, column_of, line_of};

/// The line and the column of a byte, both counted from 1.
pub fn line_and_column(text: &[u8], byte: usize) -> (u32, u32)
    requires within { byte ≤ length text.now }
    requires short { byte < 2 ^ 31 }
    ensures line { result.0 ≡ line_of text.now byte }
    ensures column { result.1 ≡ column_of text.now byte }
{
    let before = &text[..byte];
    let lines = before.iter().filter(|b| **b == b'\n').count();
    (1 + lines as u32, 1 + bytes_behind_line_feed(before) as u32)
}

// How many bytes come after the last line feed, or in all where there is none.
fn bytes_behind_line_feed(before: &[u8]) -> usize
    ensures value { result ≡ behind_line_feed before.now }
    ensures most { result ≤ length before.now }
{
    let mut behind = 0;
    for b in before {
        behind = if *b == b'\n' { 0 } else { behind + 1 };
    }
    behind
}
