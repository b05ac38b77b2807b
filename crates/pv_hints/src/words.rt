//! Hints on the words of a command.
use crate::place::push_shown;
use pv_args::{Expected, WordFault, fault_of};
use pv_num::Memory;
use pv_request::push_decimal;
use std::alloc::Global;

/// What is wrong with the words of a command; None where they ask for something.
pub(crate) fn hint_on_words(alloc: Global, words: &[String]) -> Result<Option<Vec<u8>>, Memory> {
    match fault_of(alloc, words)? {
        Some(fault) => Ok(Some(told(alloc, &fault)?)),
        None => Ok(None),
    }
}

fn told(alloc: Global, fault: &WordFault<'_>) -> Result<Vec<u8>, Memory> {
    let mut out = Vec::new(alloc);
    match fault {
        WordFault::Words { why } => push_cause(&mut out, why)?,
        WordFault::Value {
            option,
            text,
            expected,
        } => push_value(&mut out, option, text, *expected)?,
        WordFault::ShareByLevel => {
            out.extend_from_slice(b"--share is settled in its own order: leave --order level out")?;
        }
        WordFault::Taken { name } => {
            out.extend_from_slice(b"--out ")?;
            push_shown(&mut out, name.as_bytes())?;
            out.extend_from_slice(
                b" is the system's own file or the standard output: give another name",
            )?;
        }
    }
    out.push(b'\n')?;
    Ok(out)
}

// What clap says before its first empty line, in one line and without the word before it.
fn push_cause(out: &mut Vec<u8>, text: &str) -> Result<(), Memory> {
    let text = text.strip_prefix("error: ").unwrap_or(text);
    let (cause, _) = text.split_once("\n\n").unwrap_or((text, ""));
    for (number, line) in cause.lines().enumerate() {
        if 0 < number {
            out.push(b' ')?;
        }
        push_shown(out, line.trim().as_bytes())?;
    }
    if cause.starts_with("unexpected argument '-")
        && !cause.starts_with("unexpected argument '--")
    {
        out.extend_from_slice(b"; a value that begins with - is written --NAME=-1")?;
    }
    Ok(())
}

fn push_value(
    out: &mut Vec<u8>,
    option: &str,
    text: &str,
    expected: Expected,
) -> Result<(), Memory> {
    out.extend_from_slice(b"--")?;
    out.extend_from_slice(option.as_bytes())?;
    out.push(b' ')?;
    push_shown(out, text.as_bytes())?;
    out.extend_from_slice(b": expected ")?;
    push_expected(out, expected)?;
    if option == "boxes" {
        out.extend_from_slice(b"; more wants --limit, too")?;
    }
    Ok(())
}

fn push_expected(out: &mut Vec<u8>, expected: Expected) -> Result<(), Memory> {
    match expected {
        Expected::Count { low, high } => {
            out.extend_from_slice(b"a whole number from ")?;
            push_decimal(out, low)?;
            out.extend_from_slice(b" to ")?;
            push_decimal(out, high)?;
        }
        Expected::Width => out.extend_from_slice(b"a number as 0.125 or 1e-3, without a sign")?,
        Expected::Levels => out.extend_from_slice(b"numbers with commas between them, as 0.5,-1")?,
        Expected::Share => out.extend_from_slice(b"K/N with K below N, as 0/4")?,
        Expected::Bisector => out.extend_from_slice(b"largest or round")?,
        Expected::Form => out.extend_from_slice(b"plain or centered")?,
        Expected::Order => out.extend_from_slice(b"depth or level")?,
    }
    Ok(())
}
