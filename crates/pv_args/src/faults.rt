//! Which word of a command is at fault, for whoever tells its user.

use crate::reading::is_taken;
use crate::values::{bisector_of, count_of, form_of, levels_of, order_of, share_of, width_of};
use clap::ArgMatches;
use pv_request::{MOST_CIRCLES, MOST_ROUNDS, MOST_SEED, Refusal, Settings};
use pv_tree::{LEAST_LIMIT, MOST_SETTLED, MOST_STEPS, MOST_WORKERS};
use pv_words::paver;
use std::alloc::{AllocError, Global};

/// What the value of an option has to be.
#[derive(Clone, Copy, Debug, PartialEq, Eq)]
pub enum Expected {
    /// A whole number in one to ten digits, within these bounds.
    Count { low: u64, high: u64 },
    /// An unsigned number.
    Width,
    /// Numbers with commas between them.
    Levels,
    /// Two whole numbers with a slash between them, of which the first is less than the second.
    Share,
    /// The name of a rule by which boxes are cut.
    Bisector,
    /// The name of a form by which boxes are tested.
    Form,
    /// The name of an order in which leaves are settled.
    Order,
}

impl Expected {
    // Whether a text is such a value. Where memory is wanting it is taken for one.
    fn takes(self, alloc: Global, text: &str) -> bool {
        match self {
            Expected::Count { low, high } => count_of(text, low, high).is_some(),
            Expected::Width => width_of(text).is_some(),
            Expected::Levels => !matches!(levels_of(alloc, text), Err(Refusal::Usage)),
            Expected::Share => share_of(text).is_some(),
            Expected::Bisector => bisector_of(text).is_some(),
            Expected::Form => form_of(text).is_some(),
            Expected::Order => order_of(text).is_some(),
        }
    }
}

/// What is wrong with the words of a command.
#[derive(Debug, Drop)]
pub enum WordFault<'a> {
    /// They are none of the program's; the text says why.
    Words {
        why: String,
    },
    /// The value of an option is none that the command takes.
    Value {
        option: &'static str,
        text: &'a str,
        expected: Expected,
    },
    /// A share, which has an order of its own, stands beside another order.
    ShareByLevel,
    /// What is to be stored under this name would be lost, or lie over the system.
    Taken {
        name: &'a str,
    },
}

/// The first fault of the words of a command, of which word 0 is the program's name. None where
/// they ask for something.
pub fn fault_of<'a>(
    alloc: Global,
    words: &'a [String],
) -> Result<Option<WordFault<'a>>, AllocError> {
    match paver(alloc)?.try_get_matches_from(words) {
        Ok(matches) => match matches.subcommand() {
            Some((_, found)) => Ok(fault_in(alloc, found)),
            None => Ok(None),
        },
        Err(error) => Ok(Some(WordFault::Words {
            why: format!(in alloc; "{error}")?,
        })),
    }
}

fn fault_in<'a>(alloc: Global, found: &ArgMatches<'a>) -> Option<WordFault<'a>> {
    match name_fault(found) {
        Some(fault) => Some(fault),
        None => value_fault(alloc, found),
    }
}

// A name at fault, or a share beside an order.
fn name_fault<'a>(found: &ArgMatches<'a>) -> Option<WordFault<'a>> {
    if let Some(name) = found.get_str("out")
        && is_taken(found.get_str("SYSTEM").unwrap_or(""), name)
    {
        return Some(WordFault::Taken { name });
    }
    if found.get_str("share").is_some() && found.get_str("order") == Some("level") {
        return Some(WordFault::ShareByLevel);
    }
    None
}

// The first option whose value is none that is taken.
fn value_fault<'a>(alloc: Global, found: &ArgMatches<'a>) -> Option<WordFault<'a>> {
    let limit = Expected::Count {
        low: LEAST_LIMIT,
        high: MOST_SETTLED,
    };
    let options = [
        ("eps", Expected::Width),
        ("depth", counts_to(1, u64::from(MOST_STEPS))),
        ("bisect", Expected::Bisector),
        ("form", Expected::Form),
        ("limit", limit),
        ("workers", counts_to(1, u64::from(MOST_WORKERS))),
        ("boxes", counts_to(1, most_boxes(found))),
        ("order", Expected::Order),
        ("share", Expected::Share),
        ("at", Expected::Levels),
        ("rounds", counts_to(1, u64::from(MOST_ROUNDS))),
        ("seed", counts_to(0, u64::from(MOST_SEED))),
        ("count", counts_to(1, u64::from(MOST_CIRCLES))),
    ];
    for (option, expected) in options {
        if let Some(text) = found.get_str(option)
            && !expected.takes(alloc, text)
        {
            return Some(WordFault::Value {
                option,
                text,
                expected,
            });
        }
    }
    None
}

fn counts_to(low: u64, high: u64) -> Expected {
    Expected::Count { low, high }
}

// The largest budget, by the limit that is given or stands by itself.
fn most_boxes(found: &ArgMatches<'_>) -> u64 {
    match found.get_str("limit") {
        Some(text) => count_of(text, LEAST_LIMIT, MOST_SETTLED).unwrap_or(MOST_SETTLED),
        None => LEAST_LIMIT,
    }
}

/// The settings with another value of one of them, as its option gives it. None where it is no such
/// option or value.
pub fn with_value<'a>(
    settings: &Settings<'a>,
    option: &str,
    text: &'a str,
) -> Option<Settings<'a>> {
    match option {
        "eps" => with_eps(settings, text),
        "depth" => with_depth(settings, text),
        "bisect" => with_bisector(settings, text),
        "contract" => Some(with_contract(settings, text)),
        "form" => with_form(settings, text),
        _ => None,
    }
}

fn with_eps<'a>(settings: &Settings<'a>, text: &str) -> Option<Settings<'a>> {
    let eps = width_of(text)?;
    Some(Settings {
        eps,
        depth: settings.depth,
        bisector: settings.bisector,
        contract: settings.contract,
        form: settings.form,
    })
}

fn with_depth<'a>(settings: &Settings<'a>, text: &str) -> Option<Settings<'a>> {
    let depth = count_of(text, 1, MOST_STEPS as u64)? as u32;
    Some(Settings {
        eps: settings.eps,
        depth,
        bisector: settings.bisector,
        contract: settings.contract,
        form: settings.form,
    })
}

fn with_bisector<'a>(settings: &Settings<'a>, text: &str) -> Option<Settings<'a>> {
    let bisector = bisector_of(text)?;
    Some(Settings {
        eps: settings.eps,
        depth: settings.depth,
        bisector,
        contract: settings.contract,
        form: settings.form,
    })
}

fn with_contract<'a>(settings: &Settings<'a>, contract: &'a str) -> Settings<'a> {
    Settings {
        eps: settings.eps,
        depth: settings.depth,
        bisector: settings.bisector,
        contract,
        form: settings.form,
    }
}

fn with_form<'a>(settings: &Settings<'a>, text: &str) -> Option<Settings<'a>> {
    let form = form_of(text)?;
    Some(Settings {
        eps: settings.eps,
        depth: settings.depth,
        bisector: settings.bisector,
        contract: settings.contract,
        form,
    })
}
