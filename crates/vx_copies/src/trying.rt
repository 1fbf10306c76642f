// One try of a commit.
ghost use Rattle.std.specs.Prelude.{◌≡◌, ◌*◌, ◌≤◌, false, length, true, OnOk, IfErr};
ghost use Rattle.vx_config.specs.Configs.{CanSpell, subdisk_count};
ghost use Rattle.vx_copyio.specs.Labelling.{AreLarge};
ghost use Rattle.vx_copyio.specs.Putting.{IsMember, KeepsUp, part_of};
ghost use Rattle.vx_copies.specs.Answers.{good_set};
ghost use Rattle.vx_copies.specs.Bodies.{body_bytes, is_wanted};
ghost use Rattle.vx_copies.specs.Orders.{OrderedThis};
ghost use Rattle.vx_copies.specs.Tries.{AllThis, GoodBefore, Tried, TryStops};
ghost use Rattle.vx_copies.specs.Marks.{good_count};
ghost use Rattle.vx_disk.specs.Blocks.{bit_at};
ghost use Rattle.vx_disk.specs.Burns.{MakesCalls};
ghost use Rattle.vx_model.specs.declared.limits.TheConstants.{MOST_SUBDISKS};

use crate::settle::good_of;
use crate::spell;
use vx_config::Config;
use vx_copyio::{CopyFailed, put_copies};
use vx_disk::Shelf;

/// Writes a configuration under its serial to each disk that it holds as good: first to those of a set, and then to the rest, each
/// part in order. It stops at the first disk to which it cannot be written. It takes no memory.
pub fn put_config<S: Shelf>(
    shelf: &mut S,
    config: &Config,
    good: u8,
    room: &mut [u8],
) -> Result<(), CopyFailed>
    requires large { AreLarge (S.meaning shelf.old) }
    requires can { CanSpell config.now }
    requires short { subdisk_count config.now ≤ MOST_SUBDISKS }
    requires wanted { is_wanted (S.meaning shelf.old).units (S.meaning shelf.old).size config.now ≡ true }
    requires room { body_bytes config.now ≤ length room.old }
    ensures tried { Tried (IsMember (bit_at (good_set config.now.disks)) (S.meaning shelf.old).units) config.now (S.meaning shelf.old) (S.meaning shelf.new) }
    ensures ok { OnOk result (AllThis (IsMember (bit_at (good_set config.now.disks)) (S.meaning shelf.old).units) config.now (S.meaning shelf.old) (S.meaning shelf.new)) }
    ensures first { IfErr result (GoodBefore good config.now (S.meaning shelf.old) (S.meaning shelf.new)) }
    ensures stops { IfErr result (TryStops (IsMember (bit_at (good_set config.now.disks)) (S.meaning shelf.old).units) config.now (S.meaning shelf.old) (S.meaning shelf.new)) }
    ensures order { OrderedThis (IsMember (part_of (good_set config.now.disks) good true) (S.meaning shelf.old).units) (IsMember (part_of (good_set config.now.disks) good false) (S.meaning shelf.old).units) config.now (S.meaning shelf.old) (S.meaning shelf.new) }
    ensures up { OnOk result (KeepsUp (S.meaning shelf.old) (S.meaning shelf.new)) }
    ensures calls { OnOk result (MakesCalls (4 * good_count config.now.disks) (S.meaning shelf.old) (S.meaning shelf.new)) }
    ensures kept { length room.new ≡ length room.old }
{
    let front = spell(config, room);
    let header = front.0;
    let filled = front.1;
    let set = good_of(&config.disks);
    put_copies(shelf, set, good, &header, &room[..filled])
}
