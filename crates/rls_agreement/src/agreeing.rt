//! Whether two sources agree on a footprint.

ghost use Rattle.std.specs.Prelude.{◌≡◌, ◌↔◌, true, IfOk, OnOk};
ghost use Rattle.rls_catalog.specs.State.{AgreesOn};

use crate::objects::agree_at;
use rls_catalog::Catalog;
use rls_source::{Footprint, RowSource};
use std::alloc::{AllocError, Global};

/// Whether the two sources have the same contents at the objects of the footprint, which are read in both. After an `Err` both
/// still stand for their states.
pub fn agrees_on<'c, A: RowSource<'c>, B: RowSource<'c>>(
    alloc: Global,
    left: &mut A,
    right: &mut B,
    footprint: &Footprint,
) -> Result<bool, AllocError>
    ensures agrees { IfOk result (λ agrees. (agrees ≡ true) ↔ AgreesOn (A.state left.old) (B.state right.old) footprint.now) }
    ensures read_left { OnOk result (left.new ≡ A.after left.old footprint.now) }
    ensures read_right { OnOk result (right.new ≡ B.after right.old footprint.now) }
    ensures left { A.state left.new ≡ A.state left.old }
    ensures right { B.state right.new ≡ B.state right.old }
{
    let agree = agree_on(alloc, left.catalog(), right.catalog(), footprint)?;
    let objects = footprint.to_vec(alloc)?;
    left.mark(alloc, &objects)?;
    right.mark(alloc, &objects)?;
    Ok(agree)
}

/// Whether the two states agree: each object is looked up in both, in order, up to the first at which they differ.
fn agree_on(
    alloc: Global,
    left: &Catalog,
    right: &Catalog,
    footprint: &Footprint,
) -> Result<bool, AllocError>
    ensures { IfOk result (λ agree. (agree ≡ true) ↔ AgreesOn left.now right.now footprint.now) }
{
    for object in footprint.iter() {
        if !agree_at(alloc, left, right, object)? {
            return Ok(false);
        }
    }
    Ok(true)
}
