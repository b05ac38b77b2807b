//! A search for a least value, from texts to a line of words.
ghost use Rattle.std.specs.Prelude.{◌≡◌};

use pv_box::Bisector;
use pv_ctc::Program;
use pv_least::{BestPoint, Least, Objective, least};
use pv_num::{Memory, Num};
use pv_parse::{parse, parse_expr};
use pv_settle::{Settings, SystemSettler};
use std::alloc::Global;

// The least value of an objective over `dims` variables in the settler's search box.
fn search_by(
    alloc: Global,
    settler: &SystemSettler,
    objective: &Objective,
    dims: u8,
    budget: u64,
) -> Option<Least>
    requires { objective.now.dims ≡ dims }
{
    if budget == 0 || budget > 100_000 {
        return None;
    }
    let root = settler.search_box(alloc).ok()?;
    if root.dims() != dims {
        return None;
    }
    least(alloc, settler, objective, &root, budget).ok()
}

/// The least value of an expression over a system, with the propagation of all constraints. None
/// where a text is none, `eps` is below 0 or +oo, or the budget is not from 1 to 100,000.
pub(crate) fn search(alloc: Global, text: &str, of: &str, eps: Num, budget: u64) -> Option<Least> {
    if eps < Num::ZERO || eps == Num::POS_INF {
        return None;
    }
    let system = parse(alloc, text.as_bytes()).ok()?;
    let expr = parse_expr(alloc, &system, of.as_bytes()).ok()?;
    let dims = system.variable_count();
    let Ok(objective) = Objective::of(alloc, &expr, dims) else {
        return None;
    };
    let program = Program::read(alloc, b"prop(8)", system.constraint_count()).ok()?;
    let settings = Settings {
        eps,
        depth: 60,
        bisector: Bisector::Largest,
    };
    let settler = SystemSettler::new(alloc, system, program, settings).ok()?;
    search_by(alloc, &settler, &objective, dims, budget)
}

fn tell_point(best: &BestPoint, out: &mut Vec<u8>) -> Result<(), Memory> {
    out.extend_from_slice(b" upper ")?;
    best.upper.write_text(out)?;
    out.extend_from_slice(b" point")?;
    for i in 0..best.point.dims() {
        out.push(b' ')?;
        best.point.get(i).write_text(out)?;
    }
    Ok(())
}

/// What a search found, as a line of words.
pub(crate) fn told(alloc: Global, found: &Least) -> Result<Vec<u8>, Memory> {
    let mut out = Vec::new(alloc);
    out.extend_from_slice(b"lower ")?;
    found.lower.write_text(&mut out)?;
    if let Some(best) = &found.best {
        tell_point(best, &mut out)?;
    }
    let settled = format!(in alloc; " settled {} ", found.settled)?;
    out.extend_from_slice(settled.as_bytes())?;
    out.extend_from_slice(if found.done { b"done" } else { b"open" })?;
    Ok(out)
}
