//! What commands promise of paving files.
ghost use Rattle.std.specs.Prelude.{IfOk};
ghost use Rattle.pv_request.specs.Requests.{names_in};
ghost use Rattle.pv_rule.specs.Systems.{files};
ghost use Rattle.pv_opening.specs.Reads.{IsOpened};
ghost use Rattle.pv_product.specs.Products.{ComesOfSvg};
ghost use Rattle.pv_product.specs.Made.{made};

use pv_io::Folder;
use pv_opening::{Opening, opening_in};
use pv_product::Product;
use pv_request::{Refusal, Settings, View};
use pv_tree::NodeLimit;
use std::alloc::Global;

/// The join of the files of these names.
pub fn joined<'a, F: Folder>(
    alloc: Global,
    folder: &mut F,
    system: &'a str,
    names: &[&'a str],
    settings: &Settings<'a>,
    limit: NodeLimit,
) -> Result<Opening, Refusal<'a>>
    ensures { IfOk result
        (IsOpened (files (F.content folder.old) (F.fetch_faults folder.old)
        (F.store_faults folder.old)) system.now (names_in names.now) settings.now limit) }
{
    opening_in(alloc, folder, system, names, settings, limit)
}

/// The picture of the paving in a file.
pub fn shown<'a, F: Folder>(
    alloc: Global,
    folder: &mut F,
    system: &'a str,
    name: &'a str,
    settings: &Settings<'a>,
    limit: NodeLimit,
    view: &View<'a>,
) -> Result<Product, Refusal<'a>>
    ensures { IfOk result
        (λ p. ComesOfSvg
        (files (F.content folder.old) (F.fetch_faults folder.old) (F.store_faults folder.old))
        system.now name.now settings.now limit view.now (made p)) }
{
    pv_view::svg::svg(alloc, folder, system, name, settings, limit, view)
}
