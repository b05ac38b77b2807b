//! Texts up to a mark, as words up to a space and lines up to a line feed.
ghost use Rattle.std.specs.Prelude.{◌≡◌, ◌==◌, ◌<◌, ◌≤◌, IfSome, length, take, drop};
ghost use Rattle.std.specs.List.{position};
ghost use Rattle.pv_file.specs.Readings.{IsFree};
ghost use Rattle.pv_file.specs.Words.{EndsAt};

use memchr::memchr;

/// Where the first byte is that is the mark, or the text's end.
pub(crate) fn end_at(text: &[u8], mark: u8) -> usize
    ensures within { result ≤ length text.now }
    ensures free { IsFree mark (take result text.now) }
    ensures ends { EndsAt mark (drop result text.now) }
{
    match mark_in(text, mark) {
        Some(at) => at,
        None => text.len(),
    }
}

/// Where the first line feed is, or the text's end. A line is longer than a word, so it is searched
/// by vectors.
pub(crate) fn line_end(text: &[u8]) -> usize
    ensures within { result ≤ length text.now }
    ensures free { IsFree 10 (take result text.now) }
    ensures ends { EndsAt 10 (drop result text.now) }
{
    match memchr(b'\n', text) {
        Some(at) => at,
        None => text.len(),
    }
}

fn mark_in(text: &[u8], mark: u8) -> Option<usize>
    ensures within { IfSome result (λ at. at < length text.now) }
    ensures first { result ≡ position (λ b. b == mark) text.now }
{
    text.iter().position(|b| *b == mark)
}
