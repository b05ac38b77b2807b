//! From the words of a command to what they ask for.
ghost use Rattle.std.specs.Prelude.{◌≡◌, ◌≢◌, ◌⊎◌, MatchBool, Some, List, codes, map, option_map, MatchOption, MatchResult, string_bytes, IfOk, IfErr, unwrap_or};
ghost use Rattle.clap.specs.Words.{all_of, first_of, subcommand_rows_of};
ghost use Rattle.pv_request.specs.Requests.{value_of, limit_or_usual, system_name, paving_names, names_in, AreSettings, IsEffort, ArePavings, IsOut, IsOutIn, IsOutput, IsTaken, IsTakenIn, HasBadOut, HasBadSetting, HasBadLimit, HasBadEffort, HasBadWorkers, AreWorkers, IsNodeLimit, IsShareIn, HasNoShare, IsView, AreGiven, AreCircles, HasManyPavings, HasBadLevels, HasBadCircles, IsSearch, HasBadBudget, IsRounds, HasBadRounds, HasBadValueFor, run_name, audit_name, runs, resumes, merges, audits, draws, samples, seeks, keeps, IsAskedBy, IsAsked, Asks, RefusesWords};
ghost use Rattle.pv_args.specs.Found.{rows_in, RefusesValues, RefusesCommand, RefusesFound};

use crate::values::{
    bisector_of, count_of, form_of, levels_of, name_of_form, order_of, share_of, width_of,
};
use clap::ArgMatches;
use clap::error::ErrorKind;
use pv_num::Num;
use pv_request::{
    Circles, Effort, MOST_CIRCLES, MOST_PAVINGS, MOST_ROUNDS, MOST_SEED, Refusal, Request, Rounds,
    Search, Settings, View, Workers,
};
use pv_scope::{Order, Share};
use pv_slope::Form;
use pv_tree::{LEAST_LIMIT, MOST_SETTLED, MOST_STEPS, MOST_WORKERS, NodeLimit};
use pv_words::paver;
use pv_workers::Budget;
use std::alloc::Global;

/// Reads the words of a command, of which the first is the program's name.
pub fn read<'a>(alloc: Global, words: &'a [String]) -> Result<Request<'a>, Refusal<'a>>
    ensures { MatchResult result (Asks (map string_bytes words.entry.now))
        (RefusesWords (map string_bytes words.entry.now)) }
{
    let matches = match paver(alloc)?.try_get_matches_from(words) {
        Ok(matches) => matches,
        Err(error) => return Err(refusal_by(error.kind())),
    };
    request_of(alloc, &matches)
}

fn refusal_by<'a>(kind: ErrorKind) -> Refusal<'a>
    ensures { (result ≡ Refusal.Memory)
        ⊎ ((result ≡ Refusal.Usage) × (kind ≢ ErrorKind.OutOfMemory)) }
{
    match kind {
        ErrorKind::OutOfMemory => Refusal::Memory,
        _ => Refusal::Usage,
    }
}

fn request_of<'a>(alloc: Global, matches: &ArgMatches<'a>) -> Result<Request<'a>, Refusal<'a>>
    ensures { MatchResult result (IsAsked (subcommand_rows_of matches.now))
        (RefusesFound (subcommand_rows_of matches.now)) }
{
    match matches.subcommand() {
        Some((command, found)) => command_in(alloc, command, found),
        None => Err(Refusal::Usage),
    }
}

fn command_in<'a>(
    alloc: Global,
    command: &str,
    found: &ArgMatches<'a>,
) -> Result<Request<'a>, Refusal<'a>>
    ensures { MatchResult result (IsAskedBy command.now (rows_in found.now))
        (RefusesCommand command.now (rows_in found.now)) }
{
    match command {
        "check" => Ok(check_in(found)),
        "run" => run_in(Form::Plain, found),
        "resume" => resume_in(alloc, found),
        "merge" => merge_in(alloc, found),
        "audit" => audit_in(Form::Plain, found),
        "svg" => svg_in(alloc, found),
        "sample" => sample_in(found),
        "run-centered" => run_in(Form::Centered, found),
        "audit-centered" => audit_in(Form::Centered, found),
        "least" => least_in(found),
        "campaign" => campaign_in(found),
        _ => Err(Refusal::Usage),
    }
}

fn check_in<'a>(found: &ArgMatches<'a>) -> Request<'a>
    ensures { IsAskedBy (codes "check") (rows_in found.now) result }
{
    Request::Check {
        system: text_in(found, "SYSTEM", ""),
    }
}

fn run_in<'a>(usual: Form, found: &ArgMatches<'a>) -> Result<Request<'a>, Refusal<'a>>
    ensures { MatchResult result (IsAskedBy (run_name usual) (rows_in found.now))
        (RefusesValues (HasBadValueFor (runs usual) (rows_in found.now))) }
{
    let out = match out_in(found) {
        Ok(out) => out,
        Err(refusal) => return Err(refusal),
    };
    let settings = match settings_in(usual, found) {
        Some(settings) => settings,
        None => return Err(Refusal::Usage),
    };
    match effort_in(boxes_anew(found), found) {
        Some(effort) => Ok(Request::Run {
            system: text_in(found, "SYSTEM", ""),
            settings,
            effort,
            out,
        }),
        None => Err(Refusal::Usage),
    }
}

#[tactic(auto, using(crate::proofs::Slashes::bad_share))]
fn resume_in<'a>(alloc: Global, found: &ArgMatches<'a>) -> Result<Request<'a>, Refusal<'a>>
    ensures { MatchResult result (IsAskedBy (codes "resume") (rows_in found.now))
        (RefusesValues (HasBadValueFor resumes (rows_in found.now))) }
{
    let out = match out_in(found) {
        Ok(out) => out,
        Err(refusal) => return Err(refusal),
    };
    let pavings = match pavings_in(alloc, found) {
        Ok(pavings) => pavings,
        Err(refusal) => return Err(refusal),
    };
    let settings = match settings_in(Form::Plain, found) {
        Some(settings) => settings,
        None => return Err(Refusal::Usage),
    };
    let effort = match effort_in("20000", found) {
        Some(effort) => effort,
        None => return Err(Refusal::Usage),
    };
    match share_in(effort.order, found) {
        Ok(share) => Ok(Request::Resume {
            system: text_in(found, "SYSTEM", ""),
            pavings,
            settings,
            effort,
            share,
            out,
        }),
        Err(refusal) => Err(refusal),
    }
}

// The share of the open leaves, where one is given. It is settled in its own order, so another one is
// refused beside it.
#[tactic(auto, using(crate::proofs::Rows::first_is))]
fn share_in<'a>(order: Order, found: &ArgMatches<'a>) -> Result<Option<Share>, Refusal<'a>>
    ensures { MatchResult result (IsShareIn order (first_of (codes "share") (rows_in found.now)))
        (RefusesValues (HasNoShare order (first_of (codes "share") (rows_in found.now)))) }
{
    match found.get_str("share") {
        Some(text) => share_by(order, text),
        None => Ok(None),
    }
}

// The share that a text gives, which is settled depth first.
#[tactic(auto, using(crate::proofs::Slashes::none_in_depth, crate::proofs::Slashes::none_by_level))]
fn share_by<'a>(order: Order, text: &str) -> Result<Option<Share>, Refusal<'a>>
    ensures { MatchResult result (IsShareIn order (Some text.now))
        (RefusesValues (HasNoShare order (Some text.now))) }
{
    match order {
        Order::Depth => match share_of(text) {
            Some(share) => Ok(Some(share)),
            None => Err(Refusal::Usage),
        },
        Order::Level => Err(Refusal::Usage),
    }
}

fn merge_in<'a>(alloc: Global, found: &ArgMatches<'a>) -> Result<Request<'a>, Refusal<'a>>
    ensures { MatchResult result (IsAskedBy (codes "merge") (rows_in found.now))
        (RefusesValues (HasBadValueFor merges (rows_in found.now))) }
{
    let out = match out_in(found) {
        Ok(out) => out,
        Err(refusal) => return Err(refusal),
    };
    let pavings = match pavings_in(alloc, found) {
        Ok(pavings) => pavings,
        Err(refusal) => return Err(refusal),
    };
    let settings = match settings_in(Form::Plain, found) {
        Some(settings) => settings,
        None => return Err(Refusal::Usage),
    };
    match limit_in(found) {
        Some(limit) => Ok(Request::Merge {
            system: text_in(found, "SYSTEM", ""),
            pavings,
            settings,
            limit,
            out,
        }),
        None => Err(Refusal::Usage),
    }
}

fn audit_in<'a>(usual: Form, found: &ArgMatches<'a>) -> Result<Request<'a>, Refusal<'a>>
    ensures { MatchResult result (IsAskedBy (audit_name usual) (rows_in found.now))
        (RefusesValues (HasBadValueFor (audits usual) (rows_in found.now))) }
{
    let settings = match settings_in(usual, found) {
        Some(settings) => settings,
        None => return Err(Refusal::Usage),
    };
    let limit = match limit_in(found) {
        Some(limit) => limit,
        None => return Err(Refusal::Usage),
    };
    match workers_in(found) {
        Some(workers) => Ok(Request::Audit {
            system: text_in(found, "SYSTEM", ""),
            paving: text_in(found, "PAVING", ""),
            settings,
            limit,
            workers,
        }),
        None => Err(Refusal::Usage),
    }
}

fn svg_in<'a>(alloc: Global, found: &ArgMatches<'a>) -> Result<Request<'a>, Refusal<'a>>
    ensures { MatchResult result (IsAskedBy (codes "svg") (rows_in found.now))
        (RefusesValues (HasBadValueFor draws (rows_in found.now))) }
{
    let view = match view_in(alloc, found) {
        Ok(view) => view,
        Err(refusal) => return Err(refusal),
    };
    let settings = match settings_in(Form::Plain, found) {
        Some(settings) => settings,
        None => return Err(Refusal::Usage),
    };
    match limit_in(found) {
        Some(limit) => Ok(Request::Svg {
            system: text_in(found, "SYSTEM", ""),
            paving: text_in(found, "PAVING", ""),
            settings,
            limit,
            view,
        }),
        None => Err(Refusal::Usage),
    }
}

fn view_in<'a>(alloc: Global, found: &ArgMatches<'a>) -> Result<View<'a>, Refusal<'a>>
    ensures { MatchResult result (IsView (rows_in found.now))
        (RefusesValues (HasBadLevels (rows_in found.now))) }
{
    match levels_in(alloc, found) {
        Ok(at) => Ok(View {
            x: text_in(found, "x", ""),
            y: text_in(found, "y", ""),
            at,
        }),
        Err(refusal) => Err(refusal),
    }
}

#[tactic(auto, using(crate::proofs::Rows::first_is))]
fn levels_in<'a>(alloc: Global, found: &ArgMatches<'a>) -> Result<Vec<Num>, Refusal<'a>>
    ensures { MatchResult result (λ at. AreGiven (rows_in found.now) at.items)
        (RefusesValues (HasBadLevels (rows_in found.now))) }
{
    match found.get_str("at") {
        Some(text) => levels_of(alloc, text),
        None => Ok(Vec::new(alloc)),
    }
}

fn sample_in<'a>(found: &ArgMatches<'a>) -> Result<Request<'a>, Refusal<'a>>
    ensures { MatchResult result (IsAskedBy (codes "sample") (rows_in found.now))
        (RefusesValues (HasBadValueFor samples (rows_in found.now))) }
{
    match circles_in(found) {
        Some(circles) => Ok(Request::Sample { circles }),
        None => Err(Refusal::Usage),
    }
}

fn circles_in(found: &ArgMatches<'_>) -> Option<Circles>
    ensures { MatchOption result (HasBadCircles (rows_in found.now))
        (AreCircles (rows_in found.now)) }
{
    let seed = count_of(text_in(found, "seed", ""), 0, MOST_SEED as u64)? as u32;
    let count = count_of(text_in(found, "count", ""), 1, MOST_CIRCLES as u64)? as u32;
    Some(Circles { seed, count })
}

fn least_in<'a>(found: &ArgMatches<'a>) -> Result<Request<'a>, Refusal<'a>>
    ensures { MatchResult result (IsAskedBy (codes "least") (rows_in found.now))
        (RefusesValues (HasBadValueFor seeks (rows_in found.now))) }
{
    let settings = match settings_in(Form::Plain, found) {
        Some(settings) => settings,
        None => return Err(Refusal::Usage),
    };
    match search_in(found) {
        Some(search) => Ok(Request::Least {
            system: text_in(found, "SYSTEM", ""),
            settings,
            search,
        }),
        None => Err(Refusal::Usage),
    }
}

fn search_in<'a>(found: &ArgMatches<'a>) -> Option<Search<'a>>
    ensures { MatchOption result (HasBadBudget (rows_in found.now)) (IsSearch (rows_in found.now)) }
{
    let limit = limit_in(found)?;
    let boxes = count_of(text_in(found, "boxes", boxes_anew(found)), 1, limit.nodes())?;
    Some(Search {
        of: text_in(found, "of", ""),
        limit,
        boxes,
    })
}

fn campaign_in<'a>(found: &ArgMatches<'a>) -> Result<Request<'a>, Refusal<'a>>
    ensures { MatchResult result (IsAskedBy (codes "campaign") (rows_in found.now))
        (RefusesValues (HasBadValueFor keeps (rows_in found.now))) }
{
    let settings = match settings_in(Form::Plain, found) {
        Some(settings) => settings,
        None => return Err(Refusal::Usage),
    };
    let effort = match effort_in("20000", found) {
        Some(effort) => effort,
        None => return Err(Refusal::Usage),
    };
    match rounds_in(found) {
        Some(rounds) => Ok(Request::Campaign {
            system: text_in(found, "SYSTEM", ""),
            settings,
            effort,
            rounds,
        }),
        None => Err(Refusal::Usage),
    }
}

fn rounds_in<'a>(found: &ArgMatches<'a>) -> Option<Rounds<'a>>
    ensures { MatchOption result (HasBadRounds (rows_in found.now)) (IsRounds (rows_in found.now)) }
{
    let count = count_of(text_in(found, "rounds", "1"), 1, MOST_ROUNDS as u64)? as u32;
    Some(Rounds {
        name: text_in(found, "keep", ""),
        count,
    })
}

// The settings for a command that has a form by itself.
fn settings_in<'a>(usual: Form, found: &ArgMatches<'a>) -> Option<Settings<'a>>
    ensures { MatchOption result (HasBadSetting usual (rows_in found.now))
        (AreSettings usual (rows_in found.now)) }
{
    let eps = width_of(text_in(found, "eps", "0.125"))?;
    let depth = count_of(text_in(found, "depth", "60"), 1, MOST_STEPS as u64)? as u32;
    let bisector = bisector_of(text_in(found, "bisect", "largest"))?;
    let contract = text_in(found, "contract", "prop(8)");
    let form = form_of(text_in(found, "form", name_of_form(usual)))?;
    Some(Settings {
        eps,
        depth,
        bisector,
        contract,
        form,
    })
}

// The budget of a command that begins anew, where none is given: the limit that is, so that a limit
// alone says how much is wanted.
fn boxes_anew<'a>(found: &ArgMatches<'a>) -> &'a str
    ensures { result.now ≡ limit_or_usual (rows_in found.now) }
{
    text_in(found, "limit", "20000")
}

// The effort, with the text of the budget that stands where none is given.
fn effort_in<'a>(usual: &'a str, found: &ArgMatches<'a>) -> Option<Effort>
    ensures { MatchOption result (HasBadEffort usual.entry.now (rows_in found.now))
        (IsEffort usual.entry.now (rows_in found.now)) }
{
    let limit = limit_in(found)?;
    let workers = count_of(text_in(found, "workers", "4"), 1, MOST_WORKERS as u64)? as u32;
    let nodes = count_of(text_in(found, "boxes", usual), 1, limit.nodes())?;
    let order = order_of(text_in(found, "order", "depth"))?;
    let budget = Budget {
        nodes,
        limit,
        workers,
    };
    Some(Effort { budget, order })
}

fn workers_in(found: &ArgMatches<'_>) -> Option<Workers>
    ensures { MatchOption result (HasBadWorkers (rows_in found.now))
        (AreWorkers (rows_in found.now)) }
{
    let count = count_of(text_in(found, "workers", "4"), 1, MOST_WORKERS as u64)? as u32;
    Some(Workers { count })
}

fn limit_in(found: &ArgMatches<'_>) -> Option<NodeLimit>
    ensures { MatchOption result (HasBadLimit (rows_in found.now))
        (IsNodeLimit (rows_in found.now)) }
{
    NodeLimit::new(count_of(text_in(found, "limit", "100000"), LEAST_LIMIT, MOST_SETTLED)?)
}

fn pavings_in<'a>(alloc: Global, found: &ArgMatches<'a>) -> Result<Vec<&'a str>, Refusal<'a>>
    ensures { MatchResult result (λ names. ArePavings (rows_in found.now) names.items)
        (RefusesValues (HasManyPavings (rows_in found.now))) }
{
    let names = match raw_names(alloc, found) {
        Ok(names) => names,
        Err(refusal) => return Err(refusal),
    };
    if names.len() <= MOST_PAVINGS {
        Ok(names)
    } else {
        Err(Refusal::Usage)
    }
}

#[tactic(auto, using(crate::proofs::Rows::some_are, crate::proofs::Rows::none_are))]
fn raw_names<'a>(alloc: Global, found: &ArgMatches<'a>) -> Result<Vec<&'a str>, Refusal<'a>>
    ensures names { IfOk result (λ names. names_in names.items ≡ paving_names (rows_in found.now)) }
    ensures refused { IfErr result (λ e. e ≡ Refusal.Memory) }
{
    match found.get_raw("PAVING") {
        Some(names) => Ok(Vec::from_slice(alloc, names)?),
        None => Ok(Vec::new(alloc)),
    }
}

// The file that is to be stored, where one is given. What is stored under the system's own name would
// be lost with the system, and on the standard output the summary would be written over it.
#[tactic(auto, using(crate::proofs::Rows::first_is))]
fn out_in<'a>(found: &ArgMatches<'a>) -> Result<Option<&'a str>, Refusal<'a>>
    ensures { MatchResult result (IsOut (rows_in found.now))
        (RefusesValues (HasBadOut (rows_in found.now))) }
{
    let system = text_in(found, "SYSTEM", "");
    match found.get_str("out") {
        Some(name) => out_beside(system, name),
        None => Ok(None),
    }
}

fn out_beside<'a>(system: &str, name: &'a str) -> Result<Option<&'a str>, Refusal<'a>>
    ensures { MatchResult result (IsOutIn system.now (Some name.entry.now))
        (RefusesValues (IsTakenIn system.now (Some name.entry.now))) }
{
    if is_taken(system, name) {
        Err(Refusal::Usage)
    } else {
        Ok(Some(name))
    }
}

// Whether a name is the system's, or one of the standard output.
pub(crate) fn is_taken(system: &str, name: &str) -> bool
    ensures { MatchBool result (IsTaken system.now name.now) (IsTaken system.now name.now → ⊥) }
{
    if name == system {
        return true;
    }
    is_output(name)
}

fn is_output(name: &str) -> bool
    ensures { MatchBool result (IsOutput name.now) (IsOutput name.now → ⊥) }
{
    match name {
        "/dev/stdout" => true,
        "/dev/fd/1" => true,
        "/proc/self/fd/1" => true,
        _ => false,
    }
}

// The text of a word or an option, or what stands for one that is not given.
#[tactic(auto, using(crate::proofs::Rows::first_is))]
fn text_in<'a>(found: &ArgMatches<'a>, name: &str, default: &'a str) -> &'a str
    ensures { result.now ≡ value_of name.now default.entry.now (rows_in found.now) }
{
    match found.get_str(name) {
        Some(text) => text,
        None => default,
    }
}
