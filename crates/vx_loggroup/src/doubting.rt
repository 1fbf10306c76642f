// Volumes of which it is not known that their plexes are alike.
ghost use Rattle.std.specs.Prelude.{◌≡◌, ◌<◌, ℕ, false, true};
ghost use Rattle.vx_group.specs.Finds.{MoreUnsure};
ghost use Rattle.vx_kept.specs.Cleans.{is_unsure};
ghost use Rattle.vx_loggroup.specs.LoggedVolumes.{is_alike as is_alike_is};
ghost use Rattle.vx_model.specs.declared.limits.TheConstants.{MOST_VOLUMES};

use crate::alike::is_alike;
use vx_group::mark_unsure;
use vx_model::limits::MOST_VOLUMES;

// Marks a volume as unsure, where its plexes are not said to be alike.
fn doubt_one(unsure: &mut [bool; MOST_VOLUMES], alike: &[bool; MOST_VOLUMES], vol: u32)
    requires inside { vol < MOST_VOLUMES }
    ensures here { is_unsure unsure.new vol ≡ false → is_alike_is alike.now vol ≡ true }
    ensures more { MoreUnsure unsure.old unsure.new }
{
    if is_alike(alike, vol) {
        return;
    }
    mark_unsure(unsure, vol);
}

/// The same of each volume.
pub fn doubt_all(unsure: &mut [bool; MOST_VOLUMES], alike: &[bool; MOST_VOLUMES])
    ensures sure { (v : ℕ) → v < MOST_VOLUMES → is_unsure unsure.new v ≡ false → is_alike_is alike.now v ≡ true }
    ensures more { MoreUnsure unsure.old unsure.new }
{
    for vol in 0..MOST_VOLUMES as u32 {
        doubt_one(unsure, alike, vol);
    }
}
