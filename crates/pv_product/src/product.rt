//! What comes of a command's work.
ghost use Rattle.std.specs.Prelude.{◌≡◌};
ghost use Rattle.pv_product.specs.Campaigns.{is_done};
ghost use Rattle.pv_product.specs.Products.{paved, report_as};
ghost use Rattle.pv_product.specs.Made.{made};

use pv_svg::Picture;
use pv_tree::Paving;

/// What comes of a command's work, before it is stored or printed.
#[derive(Drop)]
pub enum Product {
    /// A text to print.
    Text(Vec<u8>),
    /// A text to print of a search or a campaign that was cut short.
    Unfinished(Vec<u8>),
    /// A paving of the system and settings that the identity names, and whether nothing is left of
    /// what was to be settled.
    Paved {
        identity: [u8; 32],
        paving: Paving,
        done: bool,
    },
    /// A picture of a paving.
    Picture(Picture),
}

/// A paving of which all leaves were to be settled.
pub fn of_paving(identity: [u8; 32], paving: Paving) -> Product
    ensures { made result ≡ paved identity paving.root paving.tree }
{
    let done = is_closed(&paving);
    Product::Paved {
        identity,
        paving,
        done,
    }
}

/// Whether no leaf of a paving is open.
pub fn is_closed(paving: &Paving) -> bool
    ensures { result ≡ is_done paving.now.tree }
{
    paving.first_open().is_none()
}

/// The text of a search or a campaign, which was cut short unless it is done.
pub fn told(text: Vec<u8>, done: bool) -> Product
    ensures { made result ≡ report_as text.items done }
{
    if done {
        Product::Text(text)
    } else {
        Product::Unfinished(text)
    }
}
