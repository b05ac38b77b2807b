//! The system of a command, and its settler.
ghost use Rattle.std.specs.Prelude.{◌≡◌, ◌≤◌, ◌<◌, ◌^◌, ℕ, List, length, IfOk, IfErr, OnOk};
ghost use Rattle.pv_ctc.specs.Plans.{plan_of};
ghost use Rattle.pv_ctc.specs.Refusals.{IsSpelling};
ghost use Rattle.pv_slope.specs.Methods.{method_of};
ghost use Rattle.pv_rule.specs.Systems.{files, AreOnlyRead, IsFetched, HasSystem, RefusesSystem, RefusesFetch, IsRuleFor, HasRule, RefusesSettings, RefusesRule};

use pv_ctc::Program;
use pv_expr::System;
use pv_io::{FetchRefused, Folder};
use pv_parse::parse;
use pv_request::{Refusal, Settings};
use pv_slope::FormSettler;
use std::alloc::Global;

/// The longest text of a system, in bytes.
const SYSTEM_LIMIT: u64 = 65536;

/// The settler of the system in a file, by the settings.
pub fn settler_in<'a, F: Folder>(
    alloc: Global,
    folder: &mut F,
    name: &'a str,
    settings: &Settings<'a>,
) -> Result<FormSettler, Refusal<'a>>
    ensures read { AreOnlyRead
        (files (F.content folder.old) (F.fetch_faults folder.old) (F.store_faults folder.old))
        (files (F.content folder.new) (F.fetch_faults folder.new) (F.store_faults folder.new)) }
    ensures rule { IfOk result
        (λ s. HasRule (files (F.content folder.old) (F.fetch_faults folder.old)
        (F.store_faults folder.old)) name.now settings.now (method_of s)) }
    ensures refused { IfErr result
        (RefusesRule (files (F.content folder.old) (F.fetch_faults folder.old)
        (F.store_faults folder.old))
        (files (F.content folder.new) (F.fetch_faults folder.new) (F.store_faults folder.new))
        name.now settings.now) }
{
    match system_in(alloc, folder, name) {
        Ok(system) => settler_for(alloc, system, settings),
        Err(refusal) => Err(refusal),
    }
}

/// The settler of a system, by the settings.
pub fn settler_for<'a>(
    alloc: Global,
    system: System,
    settings: &Settings<'a>,
) -> Result<FormSettler, Refusal<'a>>
    ensures rule { IfOk result (λ s. IsRuleFor system settings.now (method_of s)) }
    ensures refused { IfErr result (RefusesSettings system settings.now) }
{
    let program = match program_for(alloc, &system, settings) {
        Ok(program) => program,
        Err(refusal) => return Err(refusal),
    };
    let by = pv_settle::Settings {
        eps: settings.eps,
        depth: settings.depth,
        bisector: settings.bisector,
    };
    Ok(FormSettler::new(alloc, settings.form, system, program, by)?)
}

// The contractor program that the settings spell.
fn program_for<'a>(
    alloc: Global,
    system: &System,
    settings: &Settings<'a>,
) -> Result<Program, Refusal<'a>>
    ensures few { OnOk result (length system.now.constraints < 2 ^ 32) }
    ensures program { IfOk result (λ p.
        IsSpelling (length system.now.constraints) settings.now.contract.now (plan_of p)) }
    ensures refused { IfErr result (RefusesSettings system.now settings.now) }
{
    Ok(Program::read(
        alloc,
        settings.contract.as_bytes(),
        system.constraint_count(),
    )?)
}

/// The system in a file.
pub fn system_in<'a, F: Folder>(
    alloc: Global,
    folder: &mut F,
    name: &'a str,
) -> Result<System, Refusal<'a>>
    ensures read { AreOnlyRead
        (files (F.content folder.old) (F.fetch_faults folder.old) (F.store_faults folder.old))
        (files (F.content folder.new) (F.fetch_faults folder.new) (F.store_faults folder.new)) }
    ensures system { IfOk result
        (λ s. HasSystem
        (files (F.content folder.old) (F.fetch_faults folder.old) (F.store_faults folder.old))
        name.now s) }
    ensures refused { IfErr result
        (RefusesSystem
        (files (F.content folder.old) (F.fetch_faults folder.old) (F.store_faults folder.old))
        (files (F.content folder.new) (F.fetch_faults folder.new) (F.store_faults folder.new))
        name.now) }
{
    match text_in(alloc, folder, name) {
        Ok(text) => Ok(parse(alloc, &text)?),
        Err(refusal) => Err(refusal),
    }
}

// The text of a system, or the first 65,537 bytes of a longer one.
#[tactic(auto, using(crate::proofs::Fetches::fetched_whole, crate::proofs::Fetches::fetched_front))]
fn text_in<'a, F: Folder>(
    alloc: Global,
    folder: &mut F,
    name: &'a str,
) -> Result<Vec<u8>, Refusal<'a>>
    ensures read { AreOnlyRead
        (files (F.content folder.old) (F.fetch_faults folder.old) (F.store_faults folder.old))
        (files (F.content folder.new) (F.fetch_faults folder.new) (F.store_faults folder.new)) }
    ensures text { IfOk result (λ text. IsFetched (F.content folder.old name.now) text.items) }
    ensures refused { IfErr result
        (RefusesFetch (files (F.content folder.old) (F.fetch_faults folder.old)
        (F.store_faults folder.old))
        (files (F.content folder.new) (F.fetch_faults folder.new) (F.store_faults folder.new))
        name.now) }
{
    let mut text = Vec::new(alloc);
    match folder.fetch(name, SYSTEM_LIMIT, &mut text) {
        Ok(()) | Err(FetchRefused::TooLong) => Ok(text),
        Err(FetchRefused::Absent) => Err(Refusal::NoFile { name }),
        Err(FetchRefused::Failed) => Err(Refusal::ReadFault { name }),
        Err(FetchRefused::Memory) => Err(Refusal::Memory),
    }
}
