// The first commit of a group.
ghost use Rattle.std.specs.Prelude.{◌≡◌, ℕ, true};
ghost use Rattle.vx_config.specs.Configs.{CanSpell};
ghost use Rattle.vx_copies.specs.Bodies.{is_wanted};
ghost use Rattle.vx_copies.specs.Commits.{HaveLabels};
ghost use Rattle.vx_copyio.specs.Labelling.{AreLarge};
ghost use Rattle.vx_copyio.specs.Settling.{AllCleared};
ghost use Rattle.vx_kept.specs.Commits.{FirstEnds};
ghost use Rattle.vx_kept.specs.Keeping.{AllOn};
ghost use Rattle.vx_kept.specs.Trusts.{TrustFirst};

use vx_config::Config;
use vx_copies::{Room, commit_in};
use vx_disk::Shelf;
use vx_model::No;

/// Commits a configuration to disks that have labels and no headers. It takes no memory.
pub fn commit_first<S: Shelf>(
    shelf: &mut S,
    config: &mut Config,
    good: u8,
    room: &mut Room,
) -> Result<(), No>
    requires large { AreLarge (S.meaning shelf.old) }
    requires can { CanSpell config.old }
    requires wanted { is_wanted (S.meaning shelf.old).units (S.meaning shelf.old).size config.old ≡ true }
    requires on { AllOn config.old }
    requires cleared { AllCleared (S.meaning shelf.old).units (S.meaning shelf.old) }
    requires labels { HaveLabels (S.meaning shelf.old) }
    ensures can { CanSpell config.new }
    ensures wanted { is_wanted (S.meaning shelf.new).units (S.meaning shelf.new).size config.new ≡ true }
    ensures units { (S.meaning shelf.new).units ≡ (S.meaning shelf.old).units }
    ensures size { (u : ℕ) → (S.meaning shelf.new).size u ≡ (S.meaning shelf.old).size u }
    ensures ends { FirstEnds good config.old config.new (S.meaning shelf.old) (S.meaning shelf.new) result }
    ensures trusts { TrustFirst config.new (S.meaning shelf.new) result }
{
    commit_in(shelf, config, good, room)
}
