// Failed calls on a shelf as refusals, and that of too many disks or blocks.
ghost use Rattle.std.specs.Prelude.{◌≡◌};
ghost use Rattle.vx_model.specs.declared.errors.Stop.TheVariants.{No as Refused};
ghost use Rattle.vx_model.specs.declared.no.No.TheVariants.{Limit};
ghost use Rattle.vx_disk.specs.Causes.{refusal_of};

use crate::ShelfError;
use vx_model::{Counted, No, Stop};

/// A failed call on a shelf as a refusal: 7 with its disk, or 6.
pub fn refusal(error: ShelfError) -> No
    ensures { result ≡ refusal_of error }
{
    match error {
        ShelfError::Fault { disk } => No::Device { disk },
        ShelfError::Down => No::Down,
    }
}

/// A refusal of more than there may be at most: 19.
pub fn too_many(what: Counted, most: u64) -> Stop
    ensures { result ≡ Refused (Limit what most) }
{
    Stop::No(No::Limit { what, most })
}
