//! What a refusal and a finished report promise of the status.
ghost use Rattle.std.specs.Prelude.{◌≡◌};
ghost use Rattle.pv_request.specs.Refusals.{status_of};
ghost use Rattle.pv_product.specs.Made.{made};
ghost use Rattle.pv_product.specs.Products.{report_as};

use pv_product::Product;
use pv_request::{Refusal, Status};

/// The status of a refusal.
pub fn status(refusal: &Refusal<'_>) -> Status
    ensures { result ≡ status_of refusal.now }
{
    refusal.status()
}

/// What comes of a search that is done, or was cut short.
pub fn report(text: Vec<u8>, done: bool) -> Product
    ensures { made result ≡ report_as text.items done }
{
    pv_product::told(text, done)
}
