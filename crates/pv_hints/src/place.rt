//! A place of a text: its line, and a caret below it.
use std::alloc::AllocError;

// The most bytes of a line that are shown before the place, and behind it.
const MOST_SHOWN: usize = 200;

/// Appends the line of a byte of a text, and a line with a caret below that byte.
pub(crate) fn push_place(out: &mut Vec<u8>, text: &[u8], byte: usize) -> Result<(), AllocError> {
    let (before, behind) = text.split_at_checked(byte).unwrap_or((text, b""));
    let front = last_part(line_end(before));
    let rest = first_part(line_start(behind));
    out.extend_from_slice(b"    ")?;
    push_shown(out, front)?;
    push_shown(out, rest)?;
    out.extend_from_slice(b"\n    ")?;
    push_blanks(out, front)?;
    out.extend_from_slice(b"^\n")
}

// What stands behind the last line feed.
fn line_end(text: &[u8]) -> &[u8] {
    text.rsplit(|byte| *byte == b'\n').next().unwrap_or(b"")
}

// What stands before the first line feed.
fn line_start(text: &[u8]) -> &[u8] {
    text.split(|byte| *byte == b'\n').next().unwrap_or(b"")
}

fn first_part(line: &[u8]) -> &[u8] {
    line.get(..MOST_SHOWN).unwrap_or(line)
}

fn last_part(line: &[u8]) -> &[u8] {
    line.get(line.len().saturating_sub(MOST_SHOWN)..)
        .unwrap_or(line)
}

/// Appends a text, with a question mark in place of each byte that is no printable sign of ASCII, so
/// that none steers the terminal.
pub(crate) fn push_shown(out: &mut Vec<u8>, text: &[u8]) -> Result<(), AllocError> {
    for byte in text {
        out.push(match *byte {
            b'\t' => b'\t',
            b'\r' => b' ',
            b' '..=b'~' => *byte,
            _ => b'?',
        })?;
    }
    Ok(())
}

// As many blanks as a text has signs. A tab stays one, so that the caret stands right.
fn push_blanks(out: &mut Vec<u8>, text: &[u8]) -> Result<(), AllocError> {
    for byte in text {
        out.push(if *byte == b'\t' { b'\t' } else { b' ' })?;
    }
    Ok(())
}
