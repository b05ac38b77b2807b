//! What the reading of a system and of its settings promises.
ghost use Rattle.std.specs.Prelude.{IfOk, IfErr};
ghost use Rattle.pv_slope.specs.Methods.{method_of};
ghost use Rattle.pv_rule.specs.Systems.{files, RefusesSystem, IsRuleFor};

use pv_expr::System;
use pv_io::Folder;
use pv_request::{Refusal, Settings};
use pv_rule::{settler_for, system_in};
use pv_slope::FormSettler;
use std::alloc::Global;

/// Why there is no system in a file.
pub fn refused<'a, F: Folder>(
    alloc: Global,
    folder: &mut F,
    name: &'a str,
) -> Result<System, Refusal<'a>>
    ensures { IfErr result
        (RefusesSystem
        (files (F.content folder.old) (F.fetch_faults folder.old) (F.store_faults folder.old))
        (files (F.content folder.new) (F.fetch_faults folder.new) (F.store_faults folder.new))
        name.now) }
{
    system_in(alloc, folder, name)
}

/// The settler that the settings give.
pub fn rule<'a>(
    alloc: Global,
    system: System,
    settings: &Settings<'a>,
) -> Result<FormSettler, Refusal<'a>>
    ensures { IfOk result (λ s. IsRuleFor system settings.now (method_of s)) }
{
    settler_for(alloc, system, settings)
}
