//! `least`: bounds of the least value of an expression over the set of a system.
ghost use Rattle.std.specs.Prelude.{◌≡◌, ◌≤◌, ◌++◌, ◌∷◌, IfOk, IfErr, OnOk};
ghost use Rattle.pv_num.specs.Parts.{number_text};
ghost use Rattle.pv_parse.specs.Declarations.{IsExpressionMeaning};
ghost use Rattle.pv_slope.specs.Methods.{method_of, dims_of};
ghost use Rattle.pv_least.specs.Objectives.{aim_of};
ghost use Rattle.pv_rule.specs.Systems.{files, AreOnlyRead, search_box};
ghost use Rattle.pv_product.specs.Leasts.{IsLeastBy, RefusesObjective, RefusesLeast, least_text, best_text, numbers_text};
ghost use Rattle.pv_product.specs.Products.{ComesOfLeast};
ghost use Rattle.pv_product.specs.Made.{made};

use pv_io::Folder;
use pv_least::{BestPoint, Least, Objective, Point};
use pv_num::{Memory, Num};
use pv_parse::{ParseRefused, parse_expr};
use pv_product::{Product, told};
use pv_request::{Refusal, Search, Settings};
use pv_rule::settler_in;
use pv_slope::FormSettler;
use pv_tree::MOST_SETTLED;
use std::alloc::Global;

/// A bound below the least value of an expression over the set of the system in a file, and a point
/// of the set with a bound above the value there, where the search finds one.
pub fn least<'a, F: Folder>(
    alloc: Global,
    folder: &mut F,
    system: &'a str,
    settings: &Settings<'a>,
    search: &Search<'a>,
) -> Result<Product, Refusal<'a>>
    ensures read { AreOnlyRead
        (files (F.content folder.old) (F.fetch_faults folder.old) (F.store_faults folder.old))
        (files (F.content folder.new) (F.fetch_faults folder.new) (F.store_faults folder.new)) }
    ensures comes { IfOk result
        (λ p. ComesOfLeast
        (files (F.content folder.old) (F.fetch_faults folder.old) (F.store_faults folder.old))
        system.now settings.now search.now (made p)) }
    ensures refused { IfErr result
        (RefusesLeast (files (F.content folder.old) (F.fetch_faults folder.old)
        (F.store_faults folder.old))
        (files (F.content folder.new) (F.fetch_faults folder.new) (F.store_faults folder.new))
        system.now settings.now search.now.of.now) }
{
    let settler = match settler_in(alloc, folder, system, settings) {
        Ok(settler) => settler,
        Err(refusal) => return Err(refusal),
    };
    let objective = match objective_of(alloc, &settler, search.of) {
        Ok(objective) => objective,
        Err(refusal) => return Err(refusal),
    };
    let _most = search.limit.nodes();
    let found = found_by(alloc, &settler, &objective, search.boxes)?;
    Ok(told(report(alloc, &found)?, found.done))
}

// The expression of a text over the variables of a settler's system.
fn objective_of<'a>(
    alloc: Global,
    settler: &FormSettler,
    text: &str,
) -> Result<Objective, Refusal<'a>>
    ensures means { IfOk result
        (λ o. IsExpressionMeaning (method_of settler.now).parts.system.names text.now (aim_of o)) }
    ensures dims { IfOk result (λ o. o.dims ≡ dims_of (method_of settler.now)) }
    ensures refused { IfErr result
        (RefusesObjective (method_of settler.now).parts.system.names text.now) }
{
    let expr = match parse_expr(alloc, settler.system(), text.as_bytes()) {
        Ok(expr) => expr,
        Err(ParseRefused::Memory) => return Err(Refusal::Memory),
        Err(ParseRefused::Fault { byte, cause, .. }) => {
            return Err(Refusal::Objective { byte, cause });
        }
    };
    Ok(Objective::of(alloc, &expr, settler.dims())?)
}

// What a number of settled boxes of a settler's search box tell of the least value of an objective.
fn found_by(
    alloc: Global,
    settler: &FormSettler,
    objective: &Objective,
    boxes: u64,
) -> Result<Least, Memory>
    requires dims { objective.now.dims ≡ dims_of (method_of settler.now) }
    requires some { 1 ≤ boxes }
    requires few { boxes ≤ MOST_SETTLED }
    ensures { IfOk result (IsLeastBy (method_of settler.now) (search_box (method_of settler.now))
        (aim_of objective.now) boxes) }
{
    let root = settler.search_box(alloc)?;
    pv_least::least(alloc, settler, objective, &root, boxes)
}

fn report(alloc: Global, found: &Least) -> Result<Vec<u8>, Memory>
    ensures { IfOk result (λ text. text.items ≡ least_text found.now) }
{
    let mut text = Vec::from_slice(alloc, b"lower ")?;
    found.lower.write_text(&mut text)?;
    text.push(b'\n')?;
    match &found.best {
        Some(best) => push_best(best, &mut text)?,
        None => text.extend_from_slice(b"upper none\n")?,
    }
    Ok(text)
}

#[tactic(auto, unfolding(pv_product::specs::Leasts::best_text))]
fn push_best(best: &BestPoint, out: &mut Vec<u8>) -> Result<(), Memory>
    ensures { OnOk result (out.new.items ≡ out.old.items ++ best_text best.now) }
{
    out.extend_from_slice(b"upper ")?;
    best.upper.write_text(out)?;
    out.push(b'\n')?;
    out.extend_from_slice(b"point")?;
    push_numbers(&best.point, out)?;
    out.push(b'\n')?;
    Ok(())
}

// Appends each number of a point after a space.
fn push_numbers(point: &Point, out: &mut Vec<u8>) -> Result<(), Memory>
    ensures { OnOk result (out.new.items ≡ out.old.items ++ numbers_text point.now) }
{
    for i in 0..point.dims() {
        push_number(point.get(i), out)?;
    }
    Ok(())
}

fn push_number(n: Num, out: &mut Vec<u8>) -> Result<(), Memory>
    ensures { OnOk result (out.new.items ≡ out.old.items ++ (32 ∷ number_text n)) }
{
    out.push(b' ')?;
    n.write_text(out)?;
    Ok(())
}
