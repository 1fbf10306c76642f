// What disks in memory were at earlier moments, for contracts alone. It has no bytes.
ghost use Rattle.std.specs.Prelude.{◌≡◌, [], ◌∷◌, ◌++◌};
ghost use Rattle.vx_disk.specs.Moments.{moments_of};

use crate::unit::MemUnit;
use std::mem::replace;
use std::snapshot::Snapshot;

/// What the disks were at one moment, and at those before it.
#[derive(Drop)]
pub struct Moment {
    pub units: Snapshot<Vec<MemUnit>>,
    pub before: Snapshot<Option<Moment>>,
}

/// No moment.
pub fn none() -> Snapshot<Option<Moment>>
    ensures { moments_of result.value ≡ [] }
{
    Snapshot::of(&None)
}

/// Puts this moment after those.
pub fn note(past: &mut Snapshot<Option<Moment>>, units: &Vec<MemUnit>)
    ensures { moments_of past.new.value ≡ moments_of past.old.value ++ units.now ∷ [] }
{
    let before = replace(past, none());
    let moment = Some(Moment {
        units: Snapshot::of(units),
        before,
    });
    *past = Snapshot::of(&moment);
}
