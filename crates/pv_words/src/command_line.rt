//! The commands as clap is told of them.
ghost use Rattle.std.specs.Prelude.{◌≡◌, codes, true, false, IfOk};
ghost use Rattle.clap.specs.Words.{app_of, with_rule};
ghost use Rattle.clap.specs.declared.builder.command.Command.TheViews.{out-Command};
ghost use Rattle.pv_words.specs.Commands.{
  word_rule,
  words_rule,
  bare_app,
  top_app,
  system_app,
  paving_app,
  pavings_app,
  with_option,
  with_needed,
  with_settings,
  with_effort,
  with_out,
  with_limit,
  with_form,
  with_command,
  paving_commands,
  further_commands,
  check_app,
  run_app,
  resume_app,
  merge_app,
  audit_app,
  svg_app,
  sample_app,
  least_app,
  campaign_app,
  paver_app,
};

use clap::{Arg, ArgAction, Command};
use std::alloc::{AllocError, Global};

/// The commands, without the flags and the command that clap adds by itself.
pub fn paver<'a>(alloc: Global) -> Result<Command<'a>, AllocError>
    ensures { IfOk result (λ c. app_of c ≡ paver_app) }
{
    let command = with_paving_commands(top(alloc), alloc)?;
    with_further_commands(command, alloc)
}

fn with_paving_commands<'a>(command: Command<'a>, alloc: Global) -> Result<Command<'a>, AllocError>
    ensures { IfOk result (λ c. app_of c ≡ paving_commands (app_of command.entry)) }
{
    let command = with_command(command, system(alloc, "check")?)?;
    let command = with_command(command, with_option(run(alloc, "run")?, alloc, "form")?)?;
    let command = with_command(command, resume(alloc)?)?;
    let command = with_command(command, merge(alloc)?)?;
    let command = with_command(command, with_option(audit(alloc, "audit")?, alloc, "form")?)?;
    let command = with_command(command, svg(alloc)?)?;
    with_command(command, sample(alloc)?)
}

fn with_further_commands<'a>(command: Command<'a>, alloc: Global) -> Result<Command<'a>, AllocError>
    ensures { IfOk result (λ c. app_of c ≡ further_commands (app_of command.entry)) }
{
    let command = with_command(command, run(alloc, "run-centered")?)?;
    let command = with_command(command, audit(alloc, "audit-centered")?)?;
    let command = with_command(command, least(alloc)?)?;
    with_command(command, campaign(alloc)?)
}

fn with_command<'a>(
    command: Command<'a>,
    subcommand: Command<'a>,
) -> Result<Command<'a>, AllocError>
    requires { (out-Command subcommand).has_globals ≡ false }
    ensures { IfOk result
        (λ c. app_of c ≡ with_command (app_of command.entry) (app_of subcommand.entry)) }
{
    command.subcommand(subcommand)
}

// The program, without its commands.
fn top<'a>(alloc: Global) -> Command<'a>
    ensures app { app_of result ≡ top_app }
{
    bare(alloc, "paver")
        .disable_help_subcommand(true)
        .subcommand_required(true)
}

fn run<'a>(alloc: Global, name: &'a str) -> Result<Command<'a>, AllocError>
    ensures app { IfOk result (λ c. app_of c ≡ run_app name.entry.now) }
    ensures local { IfOk result (λ c. (out-Command c).has_globals ≡ false) }
{
    let command = with_settings(system(alloc, name)?, alloc)?;
    let command = with_option(with_effort(command, alloc)?, alloc, "out")?;
    with_option(command, alloc, "limit")
}

fn resume<'a>(alloc: Global) -> Result<Command<'a>, AllocError>
    ensures app { IfOk result (λ c. app_of c ≡ resume_app) }
    ensures local { IfOk result (λ c. (out-Command c).has_globals ≡ false) }
{
    let command = with_settings(pavings(alloc, "resume")?, alloc)?;
    let command = with_option(with_effort(command, alloc)?, alloc, "out")?;
    with_limit_and_form(with_option(command, alloc, "share")?, alloc)
}

fn merge<'a>(alloc: Global) -> Result<Command<'a>, AllocError>
    ensures app { IfOk result (λ c. app_of c ≡ merge_app) }
    ensures local { IfOk result (λ c. (out-Command c).has_globals ≡ false) }
{
    let command = with_settings(pavings(alloc, "merge")?, alloc)?;
    with_limit_and_form(with_option(command, alloc, "out")?, alloc)
}

fn audit<'a>(alloc: Global, name: &'a str) -> Result<Command<'a>, AllocError>
    ensures app { IfOk result (λ c. app_of c ≡ audit_app name.entry.now) }
    ensures local { IfOk result (λ c. (out-Command c).has_globals ≡ false) }
{
    let command = with_settings(paving(alloc, name)?, alloc)?;
    with_option(with_option(command, alloc, "limit")?, alloc, "workers")
}

fn svg<'a>(alloc: Global) -> Result<Command<'a>, AllocError>
    ensures app { IfOk result (λ c. app_of c ≡ svg_app) }
    ensures local { IfOk result (λ c. (out-Command c).has_globals ≡ false) }
{
    let command = with_settings(paving(alloc, "svg")?, alloc)?;
    let command = with_needed(with_needed(command, alloc, "x")?, alloc, "y")?;
    with_limit_and_form(with_option(command, alloc, "at")?, alloc)
}

fn sample<'a>(alloc: Global) -> Result<Command<'a>, AllocError>
    ensures app { IfOk result (λ c. app_of c ≡ sample_app) }
    ensures local { IfOk result (λ c. (out-Command c).has_globals ≡ false) }
{
    let command = with_needed(bare(alloc, "sample"), alloc, "seed")?;
    with_needed(command, alloc, "count")
}

fn least<'a>(alloc: Global) -> Result<Command<'a>, AllocError>
    ensures app { IfOk result (λ c. app_of c ≡ least_app) }
    ensures local { IfOk result (λ c. (out-Command c).has_globals ≡ false) }
{
    let command = with_settings(system(alloc, "least")?, alloc)?;
    let command = with_needed(with_option(command, alloc, "boxes")?, alloc, "of")?;
    with_option(command, alloc, "limit")
}

fn campaign<'a>(alloc: Global) -> Result<Command<'a>, AllocError>
    ensures app { IfOk result (λ c. app_of c ≡ campaign_app) }
    ensures local { IfOk result (λ c. (out-Command c).has_globals ≡ false) }
{
    let command = with_settings(system(alloc, "campaign")?, alloc)?;
    let command = with_needed(with_effort(command, alloc)?, alloc, "keep")?;
    with_limit_and_form(with_option(command, alloc, "rounds")?, alloc)
}

// A command that has nothing.
fn bare<'a>(alloc: Global, name: &'a str) -> Command<'a>
    ensures app { app_of result ≡ bare_app name.entry.now }
    ensures local { (out-Command result).has_globals ≡ false }
{
    Command::new(alloc, name)
        .disable_help_flag(true)
        .disable_version_flag(true)
}

// A command with the name of a system.
fn system<'a>(alloc: Global, name: &'a str) -> Result<Command<'a>, AllocError>
    ensures app { IfOk result (λ c. app_of c ≡ system_app name.entry.now) }
    ensures local { IfOk result (λ c. (out-Command c).has_globals ≡ false) }
{
    with_word(bare(alloc, name), alloc, "SYSTEM")
}

// A command with the names of a system and of a paving file.
fn paving<'a>(alloc: Global, name: &'a str) -> Result<Command<'a>, AllocError>
    ensures app { IfOk result (λ c. app_of c ≡ paving_app name.entry.now) }
    ensures local { IfOk result (λ c. (out-Command c).has_globals ≡ false) }
{
    with_word(system(alloc, name)?, alloc, "PAVING")
}

// A command with the names of a system and of one to eight paving files.
fn pavings<'a>(alloc: Global, name: &'a str) -> Result<Command<'a>, AllocError>
    ensures app { IfOk result (λ c. app_of c ≡ pavings_app name.entry.now) }
    ensures local { IfOk result (λ c. (out-Command c).has_globals ≡ false) }
{
    with_words(system(alloc, name)?, alloc, "PAVING")
}

fn with_settings<'a>(command: Command<'a>, alloc: Global) -> Result<Command<'a>, AllocError>
    requires { (out-Command command).has_globals ≡ false }
    ensures app { IfOk result (λ c. app_of c ≡ with_settings (app_of command.entry)) }
    ensures local { IfOk result (λ c. (out-Command c).has_globals ≡ false) }
{
    let command = with_option(command, alloc, "eps")?;
    let command = with_option(command, alloc, "depth")?;
    let command = with_option(command, alloc, "bisect")?;
    with_option(command, alloc, "contract")
}

fn with_effort<'a>(command: Command<'a>, alloc: Global) -> Result<Command<'a>, AllocError>
    requires { (out-Command command).has_globals ≡ false }
    ensures app { IfOk result (λ c. app_of c ≡ with_effort (app_of command.entry)) }
    ensures local { IfOk result (λ c. (out-Command c).has_globals ≡ false) }
{
    let command = with_option(command, alloc, "workers")?;
    let command = with_option(command, alloc, "boxes")?;
    with_option(command, alloc, "order")
}

fn with_limit_and_form<'a>(command: Command<'a>, alloc: Global) -> Result<Command<'a>, AllocError>
    requires { (out-Command command).has_globals ≡ false }
    ensures app { IfOk result (λ c. app_of c ≡ with_form (with_limit (app_of command.entry))) }
    ensures local { IfOk result (λ c. (out-Command c).has_globals ≡ false) }
{
    with_option(with_option(command, alloc, "limit")?, alloc, "form")
}

// The command with a word that has to be there.
fn with_word<'a>(
    command: Command<'a>,
    alloc: Global,
    name: &'a str,
) -> Result<Command<'a>, AllocError>
    requires { (out-Command command).has_globals ≡ false }
    ensures app { IfOk result
        (λ c. app_of c ≡ with_rule (app_of command.entry) (word_rule name.entry.now)) }
    ensures local { IfOk result (λ c. (out-Command c).has_globals ≡ false) }
{
    let word = Arg::new(alloc, name).required(true).action(ArgAction::Set);
    command.arg(word)
}

// The command with one to eight words.
fn with_words<'a>(
    command: Command<'a>,
    alloc: Global,
    name: &'a str,
) -> Result<Command<'a>, AllocError>
    requires { (out-Command command).has_globals ≡ false }
    ensures app { IfOk result
        (λ c. app_of c ≡ with_rule (app_of command.entry) (words_rule name.entry.now)) }
    ensures local { IfOk result (λ c. (out-Command c).has_globals ≡ false) }
{
    let words = Arg::new(alloc, name)
        .required(true)
        .num_args(1..=8)
        .action(ArgAction::Append);
    command.arg(words)
}

// The command with an option that takes a value.
fn with_option<'a>(
    command: Command<'a>,
    alloc: Global,
    name: &'a str,
) -> Result<Command<'a>, AllocError>
    requires { (out-Command command).has_globals ≡ false }
    ensures app { IfOk result (λ c. app_of c ≡ with_option name.entry.now (app_of command.entry)) }
    ensures local { IfOk result (λ c. (out-Command c).has_globals ≡ false) }
{
    let option = Arg::new(alloc, name).long(name).action(ArgAction::Set);
    command.arg(option)
}

// The command with an option that has to be there and takes a value.
fn with_needed<'a>(
    command: Command<'a>,
    alloc: Global,
    name: &'a str,
) -> Result<Command<'a>, AllocError>
    requires { (out-Command command).has_globals ≡ false }
    ensures app { IfOk result (λ c. app_of c ≡ with_needed name.entry.now (app_of command.entry)) }
    ensures local { IfOk result (λ c. (out-Command c).has_globals ≡ false) }
{
    let option = Arg::new(alloc, name)
        .long(name)
        .required(true)
        .action(ArgAction::Set);
    command.arg(option)
}
