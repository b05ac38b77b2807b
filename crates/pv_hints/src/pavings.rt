//! Hints on paving files.
use crate::parts::{settings_of, system_of};
use crate::place::push_shown;
use pv_args::with_value;
use pv_file::hex_digits;
use pv_io::{FetchRefused, Folder};
use pv_num::Memory;
use pv_request::{Request, Settings};
use pv_rule::settler_in;
use std::alloc::Global;

// Settings that a run is often given.
const NEAR: [&str; 30] = [
    "form centered",
    "form plain",
    "bisect round",
    "bisect largest",
    "eps 1",
    "eps 0.5",
    "eps 0.25",
    "eps 0.125",
    "eps 0.0625",
    "eps 0.03125",
    "eps 0.015625",
    "eps 0.0078125",
    "eps 0.00390625",
    "eps 0.1",
    "eps 0.05",
    "eps 0.02",
    "eps 0.01",
    "eps 0.005",
    "eps 0.002",
    "eps 0.001",
    "depth 60",
    "depth 200",
    "depth 100",
    "depth 40",
    "contract prop(8)",
    "contract prop(1)",
    "contract prop(2)",
    "contract prop(4)",
    "contract prop(16)",
    "contract prop(64)",
];

// The bytes of a file's first two lines: `paving 2`, and `identity` with 64 digits.
const MOST_HEAD: u64 = 84;

/// Which file of a command is of another text or of other settings, and of which, where they are
/// near. None where no file is.
pub(crate) fn hint_on_pavings<F: Folder>(
    alloc: Global,
    folder: &mut F,
    request: &Request<'_>,
) -> Result<Option<Vec<u8>>, Memory> {
    match request {
        Request::Resume { pavings, .. } | Request::Merge { pavings, .. } => {
            for name in pavings {
                if let Some(hint) = hint_on_paving(alloc, folder, request, name)? {
                    return Ok(Some(hint));
                }
            }
            Ok(None)
        }
        Request::Audit { paving, .. } | Request::Svg { paving, .. } => {
            hint_on_paving(alloc, folder, request, paving)
        }
        _ => Ok(None),
    }
}

fn hint_on_paving<F: Folder>(
    alloc: Global,
    folder: &mut F,
    request: &Request<'_>,
    name: &str,
) -> Result<Option<Vec<u8>>, Memory> {
    let (Some(system), Some(settings)) = (system_of(request), settings_of(request)) else {
        return Ok(None);
    };
    let Some(stored) = identity_in(alloc, folder, name)? else {
        return Ok(None);
    };
    if is_of(alloc, folder, system, settings, &stored)? {
        return Ok(None);
    }
    let mut out = Vec::new(alloc);
    push_shown(&mut out, name.as_bytes())?;
    match near_in(alloc, folder, system, settings, &stored)? {
        Some(words) => {
            out.extend_from_slice(b" was stored with --")?;
            out.extend_from_slice(words.as_bytes())?;
            out.extend_from_slice(b": give that here, too\n")?;
        }
        None => out.extend_from_slice(
            b" is of another system or of other settings: give those of its run\n",
        )?,
    }
    Ok(Some(out))
}

// The digits of the identity that a file names; None where it names none.
fn identity_in<F: Folder>(
    alloc: Global,
    folder: &mut F,
    name: &str,
) -> Result<Option<Vec<u8>>, Memory> {
    let mut head = Vec::new(alloc);
    match folder.fetch(name, MOST_HEAD, &mut head) {
        Ok(()) | Err(FetchRefused::TooLong) => {}
        Err(FetchRefused::Absent | FetchRefused::Failed) => return Ok(None),
        Err(FetchRefused::Memory) => return Err(Memory),
    }
    let second = head.split(|byte| *byte == b'\n').nth(1).unwrap_or(b"");
    match second.strip_prefix(b"identity ") {
        Some(digits) => Ok(Some(Vec::from_slice(alloc, digits)?)),
        None => Ok(None),
    }
}

// Whether these are the digits of the identity of a system by settings. They are taken for them where
// the system or the settings can't be had.
fn is_of<F: Folder>(
    alloc: Global,
    folder: &mut F,
    system: &str,
    settings: &Settings<'_>,
    digits: &[u8],
) -> Result<bool, Memory> {
    match settler_in(alloc, folder, system, settings) {
        Ok(settler) => {
            let identity = settler.identity(alloc)?;
            Ok(digits == hex_digits(&identity).as_slice())
        }
        Err(_) => Ok(true),
    }
}

// A near setting by which a system has the identity of these digits, as it is given.
fn near_in<F: Folder>(
    alloc: Global,
    folder: &mut F,
    system: &str,
    settings: &Settings<'_>,
    digits: &[u8],
) -> Result<Option<&'static str>, Memory> {
    for words in NEAR {
        if is_by(alloc, folder, system, settings, words, digits)? {
            return Ok(Some(words));
        }
    }
    Ok(None)
}

// Whether these are the digits of a system's identity by settings of which one is as these words give
// it.
fn is_by<F: Folder>(
    alloc: Global,
    folder: &mut F,
    system: &str,
    settings: &Settings<'_>,
    words: &'static str,
    digits: &[u8],
) -> Result<bool, Memory> {
    let Some((option, value)) = words.split_once(' ') else {
        return Ok(false);
    };
    match with_value(settings, option, value) {
        Some(other) => is_of(alloc, folder, system, &other, digits),
        None => Ok(false),
    }
}
