//! Hints on a system, and on a contractor program, an expression or a plane for it.
use crate::causes::{instead_of, sentence_on};
use crate::parts::{settings_of, system_of};
use crate::place::{push_place, push_shown};
use pv_ctc::{Program, ProgramRefused};
use pv_expr::System;
use pv_io::{FetchRefused, Folder};
use pv_num::Memory;
use pv_parse::{Cause, MOST_TEXT, ParseRefused, parse, parse_expr};
use pv_request::{Request, View, push_decimal};
use std::alloc::Global;

/// What is wrong with the system of a command, or with what is asked of it. None where nothing is, or
/// the system can't be read.
pub(crate) fn hint_on_system<F: Folder>(
    alloc: Global,
    folder: &mut F,
    request: &Request<'_>,
) -> Result<Option<Vec<u8>>, Memory> {
    let Some(name) = system_of(request) else {
        return Ok(None);
    };
    let mut text = Vec::new(alloc);
    match folder.fetch(name, MOST_TEXT as u64, &mut text) {
        Ok(()) | Err(FetchRefused::TooLong) => {}
        Err(FetchRefused::Absent | FetchRefused::Failed) => return Ok(None),
        Err(FetchRefused::Memory) => return Err(Memory),
    }
    match parse(alloc, &text) {
        Ok(system) => hint_on_use(alloc, &system, request),
        Err(ParseRefused::Memory) => Err(Memory),
        Err(ParseRefused::Fault { byte, cause, .. }) => {
            Ok(Some(at_fault(alloc, &text, byte as usize, cause)?))
        }
    }
}

// A fault of a text, and its place.
fn at_fault(alloc: Global, text: &[u8], byte: usize, cause: Cause) -> Result<Vec<u8>, Memory> {
    let mut out = Vec::from_slice(alloc, sentence_on(cause).as_bytes())?;
    if cause == Cause::NotInProfile
        && let Some(other) = instead_of(word_at(text, byte))
    {
        out.extend_from_slice(b": write ")?;
        out.extend_from_slice(other.as_bytes())?;
    }
    out.push(b'\n')?;
    push_place(&mut out, text, byte)?;
    Ok(out)
}

// The word that begins at a byte.
fn word_at(text: &[u8], byte: usize) -> &[u8] {
    let behind = text.get(byte..).unwrap_or(b"");
    behind
        .split(|byte| !byte.is_ascii_alphanumeric() && *byte != b'_')
        .next()
        .unwrap_or(b"")
}

// What is wrong with the contractor program, the expression or the plane.
fn hint_on_use(
    alloc: Global,
    system: &System,
    request: &Request<'_>,
) -> Result<Option<Vec<u8>>, Memory> {
    if let Some(settings) = settings_of(request)
        && let Some(hint) = hint_on_program(alloc, system, settings.contract)?
    {
        return Ok(Some(hint));
    }
    match request {
        Request::Least { search, .. } => hint_on_expression(alloc, system, search.of),
        Request::Svg { view, .. } => hint_on_plane(alloc, system, view),
        _ => Ok(None),
    }
}

fn hint_on_program(alloc: Global, system: &System, text: &str) -> Result<Option<Vec<u8>>, Memory> {
    match Program::read(alloc, text.as_bytes(), system.constraint_count()) {
        Ok(_) => Ok(None),
        Err(ProgramRefused::Memory) => Err(Memory),
        Err(ProgramRefused::Bad { byte }) => {
            let mut out = Vec::from_slice(
                alloc,
                b"--contract: no program goes on so. Programs are hc4(..), prop(n), compose(..), \
                  union(..), qinter(q; ..) and fix(n, p), without blanks; constraints count from 0\n",
            )?;
            push_place(&mut out, text.as_bytes(), byte as usize)?;
            Ok(Some(out))
        }
    }
}

fn hint_on_expression(
    alloc: Global,
    system: &System,
    text: &str,
) -> Result<Option<Vec<u8>>, Memory> {
    match parse_expr(alloc, system, text.as_bytes()) {
        Ok(_) => Ok(None),
        Err(ParseRefused::Memory) => Err(Memory),
        Err(ParseRefused::Fault { byte, cause, .. }) => {
            let mut out = Vec::from_slice(alloc, b"--of: ")?;
            out.extend_from_slice(&at_fault(alloc, text.as_bytes(), byte as usize, cause)?)?;
            Ok(Some(out))
        }
    }
}

// What is wrong with the plane of a picture.
fn hint_on_plane(
    alloc: Global,
    system: &System,
    view: &View<'_>,
) -> Result<Option<Vec<u8>>, Memory> {
    let mut out = Vec::new(alloc);
    if system.find(view.x).is_none() {
        push_unknown(&mut out, system, view.x)?;
    } else if system.find(view.y).is_none() {
        push_unknown(&mut out, system, view.y)?;
    } else if view.x == view.y {
        out.extend_from_slice(b"--x and --y are one variable: name two\n")?;
    } else if view.at.len() + 2 != usize::from(system.variable_count()) {
        out.extend_from_slice(b"--at needs a number for each variable but the two axes: ")?;
        push_decimal(
            &mut out,
            u64::from(system.variable_count()).saturating_sub(2),
        )?;
        out.push(b'\n')?;
    } else {
        out.extend_from_slice(b"the axes of a picture are variables with bounded domains\n")?;
    }
    Ok(Some(out))
}

fn push_unknown(out: &mut Vec<u8>, system: &System, name: &str) -> Result<(), Memory> {
    out.extend_from_slice(b"the system has no variable ")?;
    push_shown(out, name.as_bytes())?;
    out.extend_from_slice(b"; it has")?;
    for i in 0..system.variable_count() {
        out.push(b' ')?;
        out.extend_from_slice(system.name(i).as_bytes())?;
    }
    out.push(b'\n')?;
    Ok(())
}
