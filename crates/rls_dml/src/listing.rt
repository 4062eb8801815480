//! The order in which rows are listed.

ghost use Rattle.std.specs.Prelude.{◌≡◌, IfOk};
ghost use Rattle.rls_dml.specs.Listings.{listing};

use rls_value::{Items, Row};
use std::alloc::AllocError;

/// The rows in listing order, equal ones as often as they occur.
#[tactic(auto, using(crate::proofs::ListingLemmas::sorted_is_listing))]
pub fn listing_of(mut rows: Vec<Row>) -> Result<Items<Row>, AllocError>
    ensures { IfOk result (λ listed. listed ≡ listing rows.items) }
{
    rows.sort()?;
    Ok(Items::from_vec(rows))
}
