// The commit of a configuration beside the one in memory.
ghost use Rattle.std.specs.Prelude.{◌≡◌, true, Bool, OnOk};
ghost use Rattle.vx_config.specs.Configs.{CanSpell};
ghost use Rattle.vx_copies.specs.Bodies.{is_wanted};
ghost use Rattle.vx_copyio.specs.Labelling.{AreLarge};
ghost use Rattle.vx_copyio.specs.Putting.{KeepsUp};
ghost use Rattle.vx_disk.specs.Shelf.{Nothing};
ghost use Rattle.vx_kept.specs.Commits.{Member, NextEnds};
ghost use Rattle.vx_kept.specs.Finds.{FindsFrom, IsTryOf};
ghost use Rattle.vx_kept.specs.Keeping.{Acts, AllOn, MayBeNext, IsTidy, Kept, Sees};
ghost use Rattle.vx_kept.specs.Trusts.{TrustEnds, Trusts};

use vx_config::Config;
use vx_copies::{Room, commit_in};
use vx_disk::Shelf;
use vx_model::No;

/// Commits a configuration that follows the one in memory: it may have more volumes, and fewer plexes that take part. It takes no memory.
///
/// After a refusal the one in memory stands on the disks under the serial that the other one has then. At each moment of it, and after it,
/// a crash leaves an image in which each plex that takes part, of the volumes in memory, is ACTIVE in memory.
pub fn commit_next<S: Shelf>(
    shelf: &mut S,
    before: &Config,
    next: &mut Config,
    good: u8,
    room: &mut Room,
) -> Result<(), No>
    requires large { AreLarge (S.meaning shelf.old) }
    requires can { CanSpell next.old }
    requires wanted { is_wanted (S.meaning shelf.old).units (S.meaning shelf.old).size next.old ≡ true }
    requires on { AllOn next.old }
    requires follows { MayBeNext before.now next.old }
    requires kept { Kept before.now (Member good (S.meaning shelf.old)) (S.meaning shelf.old) }
    requires tidy { IsTidy next.old (S.meaning shelf.old) }
    ensures can { CanSpell next.new }
    ensures wanted { is_wanted (S.meaning shelf.new).units (S.meaning shelf.new).size next.new ≡ true }
    ensures on { AllOn next.new }
    ensures acts { Acts Nothing (Sees before.now (Member good (S.meaning shelf.old)) (S.meaning shelf.old)) (S.meaning shelf.old) (S.meaning shelf.new) }
    ensures ends { NextEnds good before.now next.old next.new (S.meaning shelf.old) (S.meaning shelf.new) result }
    ensures up { OnOk result (KeepsUp (S.meaning shelf.old) (S.meaning shelf.new)) }
    ensures trusts { (committed agreed : Bool) → Trusts committed agreed good (S.meaning shelf.old) → TrustEnds committed good next.new (S.meaning shelf.new) result }
    ensures finds { FindsFrom (IsTryOf next.old) (S.meaning shelf.old) (S.meaning shelf.new) }
{
    let _memory = before;
    commit_in(shelf, next, good, room)
}
