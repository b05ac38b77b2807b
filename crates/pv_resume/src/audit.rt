//! `audit` and `audit-centered`: settle again what a paving file says is settled.
ghost use Rattle.std.specs.Prelude.{◌≡◌, IfOk, IfErr, IsSome, length};
ghost use Rattle.pv_tree.specs.Trees.{outcome_at};
ghost use Rattle.pv_file.specs.Lines.{outcome_line};
ghost use Rattle.pv_slope.specs.Methods.{method_of, dims_of};
ghost use Rattle.pv_rule.specs.Systems.{files, AreOnlyRead, search_box};
ghost use Rattle.pv_resume.specs.Audited.{IsFoundHonest, IsFoundOther};
ghost use Rattle.pv_product.specs.Products.{ComesOfAudit, RefusesAudit};
ghost use Rattle.pv_opening.specs.Reads.{IsDiffers};
ghost use Rattle.pv_product.specs.Made.{made};

use pv_audit::audit_by_workers;
use pv_file::write_outcome;
use pv_honest::learn_honest;
use pv_io::Folder;
use pv_join::Audit;
use pv_num::Memory;
use pv_opening::{Key, line_at, paving_in};
use pv_product::Product;
use pv_request::{Refusal, Settings, Workers};
use pv_rule::settler_in;
use pv_slope::FormSettler;
use pv_tree::{NodeLimit, Outcome, Path, Paving};
use std::alloc::Global;
use std::thread::Threads;

/// Says that the paving in a file is a stage of the open search box of the system in another.
pub fn audit<'a, F: Folder, R: Threads + Sync>(
    rt: &R,
    alloc: Global,
    folder: &mut F,
    system: &'a str,
    name: &'a str,
    settings: &Settings<'a>,
    limit: NodeLimit,
    workers: &Workers,
) -> Result<Product, Refusal<'a>>
    ensures read { AreOnlyRead
        (files (F.content folder.old) (F.fetch_faults folder.old) (F.store_faults folder.old))
        (files (F.content folder.new) (F.fetch_faults folder.new) (F.store_faults folder.new)) }
    ensures comes { IfOk result
        (λ p. ComesOfAudit
        (files (F.content folder.old) (F.fetch_faults folder.old) (F.store_faults folder.old))
        system.now name.now settings.now limit (made p)) }
    ensures refused { IfErr result
        (RefusesAudit (files (F.content folder.old) (F.fetch_faults folder.old)
        (F.store_faults folder.old))
        (files (F.content folder.new) (F.fetch_faults folder.new) (F.store_faults folder.new))
        system.now name.now settings.now limit) }
{
    let settler = match settler_in(alloc, folder, system, settings) {
        Ok(settler) => settler,
        Err(refusal) => return Err(refusal),
    };
    let key = Key::of(alloc, &settler, limit)?;
    let paving = match paving_in(alloc, folder, &key, name) {
        Ok(paving) => paving,
        Err(refusal) => return Err(refusal),
    };
    audited(rt, alloc, &settler, &paving, workers)
}

// Says that a paving of the search box is a stage of the open one.
fn audited<'a, R: Threads + Sync>(
    rt: &R,
    alloc: Global,
    settler: &FormSettler,
    paving: &Paving,
    workers: &Workers,
) -> Result<Product, Refusal<'a>>
    requires root { paving.now.root ≡ search_box (method_of settler.now) }
    requires dims { length paving.now.root ≡ dims_of (method_of settler.now) }
    ensures honest { IfOk result
        (λ p. IsFoundHonest (method_of settler.now) paving.now.tree (made p)) }
    ensures other { IfErr result
        (IsFoundOther (method_of settler.now) paving.now.tree) }
{
    match audit_by_workers(rt, alloc, settler, paving, workers.count)? {
        Audit::Honest => {
            learn_honest(paving, settler);
            Ok(Product::Text(Vec::from_slice(alloc, b"honest\n")?))
        }
        Audit::DiffersAt { path, outcome } => Err(differs(alloc, paving, path, &outcome)),
    }
}

// The refusal for an outcome that is due in place of the one at a path.
fn differs<'a>(alloc: Global, file: &Paving, path: Path, due: &Outcome) -> Refusal<'a>
    requires { IsSome (outcome_at file.now.tree path) }
    ensures { IsDiffers file.now.tree path due.now result }
{
    match (line_at(alloc, file, path), line_of(alloc, due)) {
        (Ok(file), Ok(due)) => Refusal::Differs { path, file, due },
        _ => Refusal::Memory,
    }
}

fn line_of(alloc: Global, outcome: &Outcome) -> Result<Vec<u8>, Memory>
    ensures { IfOk result (λ line. line.items ≡ outcome_line outcome.now) }
{
    let mut line = Vec::new(alloc);
    write_outcome(outcome, &mut line)?;
    Ok(line)
}
