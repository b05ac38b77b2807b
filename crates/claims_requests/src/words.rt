//! What the reading of words promises.
ghost use Rattle.std.specs.Prelude.{map, MatchResult, string_bytes};
ghost use Rattle.pv_request.specs.Requests.{Asks, RefusesWords};

use pv_args::read;
use pv_request::{Refusal, Request};
use std::alloc::Global;

/// What the words of a command ask for, or why they are refused.
pub fn asked<'a>(alloc: Global, words: &'a [String]) -> Result<Request<'a>, Refusal<'a>>
    ensures { MatchResult result (Asks (map string_bytes words.entry.now))
        (RefusesWords (map string_bytes words.entry.now)) }
{
    read(alloc, words)
}
