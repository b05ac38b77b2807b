//! `check`: the canonical text of a system.
ghost use Rattle.std.specs.Prelude.{IfOk, IfErr};
ghost use Rattle.pv_rule.specs.Systems.{files, AreOnlyRead, RefusesSystem};
ghost use Rattle.pv_product.specs.Products.{ComesOfCheck};
ghost use Rattle.pv_product.specs.Made.{made};

use pv_io::Folder;
use pv_product::Product;
use pv_request::Refusal;
use pv_rule::system_in;
use std::alloc::Global;

/// The canonical text of the system in a file.
pub fn check<'a, F: Folder>(
    alloc: Global,
    folder: &mut F,
    system: &'a str,
) -> Result<Product, Refusal<'a>>
    ensures read { AreOnlyRead
        (files (F.content folder.old) (F.fetch_faults folder.old) (F.store_faults folder.old))
        (files (F.content folder.new) (F.fetch_faults folder.new) (F.store_faults folder.new)) }
    ensures comes { IfOk result
        (λ p. ComesOfCheck
        (files (F.content folder.old) (F.fetch_faults folder.old) (F.store_faults folder.old))
        system.now (made p)) }
    ensures refused { IfErr result
        (RefusesSystem
        (files (F.content folder.old) (F.fetch_faults folder.old) (F.store_faults folder.old))
        (files (F.content folder.new) (F.fetch_faults folder.new) (F.store_faults folder.new))
        system.now) }
{
    match system_in(alloc, folder, system) {
        Ok(system) => Ok(Product::Text(system.canonical_text(alloc)?)),
        Err(refusal) => Err(refusal),
    }
}
