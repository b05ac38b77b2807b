//! `merge`: the join of paving files.
ghost use Rattle.std.specs.Prelude.{◌≡◌, ◌+◌, ◌<◌, ◌≤◌, IfOk, IfErr};
ghost use Rattle.pv_request.specs.Requests.{names_in};
ghost use Rattle.pv_rule.specs.Systems.{files, AreOnlyRead};
ghost use Rattle.pv_product.specs.Products.{ComesOfMerge, RefusesJoined};
ghost use Rattle.pv_product.specs.Made.{made};

use pv_honest::learn_honest;
use pv_io::Folder;
use pv_opening::{Opening, opening_in};
use pv_product::{Product, of_paving};
use pv_request::{Refusal, Settings};
use pv_tree::NodeLimit;
use std::alloc::Global;

/// The join of the files of these names.
pub fn merge<'a, F: Folder>(
    alloc: Global,
    folder: &mut F,
    system: &'a str,
    names: &[&'a str],
    settings: &Settings<'a>,
    limit: NodeLimit,
) -> Result<Product, Refusal<'a>>
    ensures read { AreOnlyRead
        (files (F.content folder.old) (F.fetch_faults folder.old) (F.store_faults folder.old))
        (files (F.content folder.new) (F.fetch_faults folder.new) (F.store_faults folder.new)) }
    ensures comes { IfOk result
        (λ p. ComesOfMerge
        (files (F.content folder.old) (F.fetch_faults folder.old) (F.store_faults folder.old))
        system.now (names_in names.now) settings.now limit (made p)) }
    ensures refused { IfErr result
        (RefusesJoined
        (files (F.content folder.old) (F.fetch_faults folder.old) (F.store_faults folder.old))
        (files (F.content folder.new) (F.fetch_faults folder.new) (F.store_faults folder.new))
        system.now (names_in names.now) settings.now limit 0) }
{
    let opening = match opening_in(alloc, folder, system, names, settings, limit) {
        Ok(opening) => opening,
        Err(refusal) => return Err(refusal),
    };
    let settled = opening.paving.counts().settled();
    if settled > limit.nodes() {
        return Err(Refusal::TreeLimit { settled });
    }
    let Opening { settler, paving } = opening;
    learn_honest(&paving, &settler);
    let identity = settler.identity(alloc)?;
    Ok(of_paving(identity, paving))
}
