// The tries of a commit.
ghost use Rattle.std.specs.Prelude.{◌≡◌, ◌⊎◌, ◌+◌, ◌*◌, ◌<◌, ◌≤◌, length, true, OnOk, IfErr, IfOk, IsTrue, IsFalse};
ghost use Rattle.vx_config.specs.Configs.{CanSpell, subdisk_count};
ghost use Rattle.vx_config.specs.Table.{greatest};
ghost use Rattle.vx_copyio.specs.Putting.{KeepsUp};
ghost use Rattle.vx_copyio.specs.Labelling.{AreLarge};
ghost use Rattle.vx_copies.specs.Bodies.{is_wanted};
ghost use Rattle.vx_copies.specs.Commits.{NamesFailed, NamesLast, TriesEnd, TryEnds, Underway, lowest_member};
ghost use Rattle.vx_disk.specs.Burns.{MakesCalls};
ghost use Rattle.vx_copies.specs.Marks.{HasGood, NoneGood, good_count};
ghost use Rattle.vx_model.specs.declared.limits.TheConstants.{MOST_SUBDISKS};

use crate::{has_good, hold_failed, put_config};
use vx_config::{Config, is_short};
use vx_disk::{Shelf, ShelfError};
use vx_model::No;
use vx_model::limits::{MOST_CONFIG_BYTES, MOST_NUMBER};

// One try under the next serial. A disk that fails is then held as failed.
fn try_next<S: Shelf>(
    shelf: &mut S,
    config: &mut Config,
    good: u8,
    room: &mut [u8],
) -> Result<(), ShelfError>
    requires large { AreLarge (S.meaning shelf.old) }
    requires can { CanSpell config.old }
    requires short { subdisk_count config.old ≤ MOST_SUBDISKS }
    requires wanted { is_wanted (S.meaning shelf.old).units (S.meaning shelf.old).size config.old ≡ true }
    requires room { length room.old ≡ MOST_CONFIG_BYTES }
    requires more { config.old.serial < greatest }
    requires some { HasGood config.old.disks good }
    ensures can { CanSpell config.new }
    ensures short { subdisk_count config.new ≤ MOST_SUBDISKS }
    ensures wanted { is_wanted (S.meaning shelf.new).units (S.meaning shelf.new).size config.new ≡ true }
    ensures serial { config.new.serial ≡ config.old.serial + 1 }
    ensures underway { Underway good config.old config.new (S.meaning shelf.old) (S.meaning shelf.new) }
    ensures ends { TryEnds config.old config.new (S.meaning shelf.old) (S.meaning shelf.new) result }
    ensures up { OnOk result (KeepsUp (S.meaning shelf.old) (S.meaning shelf.new)) }
    ensures calls { OnOk result (MakesCalls (4 * good_count config.new.disks) (S.meaning shelf.old) (S.meaning shelf.new)) }
{
    config.serial += 1;
    is_short(config);
    match put_config(shelf, config, good, room) {
        Ok(()) => Ok(()),
        Err(failed) => match failed.error {
            ShelfError::Fault { disk } => {
                hold_failed(config, failed.disk);
                Err(ShelfError::Fault { disk })
            }
            ShelfError::Down => Err(ShelfError::Down),
        },
    }
}

// The lowest disk of a set; 8 where it has none.
fn lowest(good: u8) -> u32
    ensures { result ≡ lowest_member good }
{
    good.trailing_zeros()
}

// Whether a serial is left, and a good disk of the set.
fn may_try(config: &Config, good: u8) -> bool
    ensures may { IsTrue result → HasGood config.now.disks good × (config.now.serial < greatest) }
    ensures none { IsFalse result → NoneGood config.now.disks (length config.now.disks) good ⊎ (greatest ≤ config.now.serial) }
{
    config.serial < MOST_NUMBER && has_good(&config.disks, good)
}

// Tries under one serial after the other, until the configuration stands, or no disk of the set is left. It answers the
// device that failed last, where one did.
pub fn try_all<S: Shelf>(
    shelf: &mut S,
    config: &mut Config,
    good: u8,
    room: &mut [u8],
) -> Result<u32, No>
    requires large { AreLarge (S.meaning shelf.old) }
    requires can { CanSpell config.old }
    requires short { subdisk_count config.old ≤ MOST_SUBDISKS }
    requires wanted { is_wanted (S.meaning shelf.old).units (S.meaning shelf.old).size config.old ≡ true }
    requires room { length room.old ≡ MOST_CONFIG_BYTES }
    requires more { config.old.serial < greatest }
    ensures can { CanSpell config.new }
    ensures short { subdisk_count config.new ≤ MOST_SUBDISKS }
    ensures wanted { is_wanted (S.meaning shelf.new).units (S.meaning shelf.new).size config.new ≡ true }
    ensures underway { Underway good config.old config.new (S.meaning shelf.old) (S.meaning shelf.new) }
    ensures ends { TriesEnd good config.old config.new (S.meaning shelf.old) (S.meaning shelf.new) result }
    ensures up { OnOk result (KeepsUp (S.meaning shelf.old) (S.meaning shelf.new)) }
    ensures calls { OnOk result (config.new.serial ≡ config.old.serial + 1 → MakesCalls (4 * good_count config.new.disks) (S.meaning shelf.old) (S.meaning shelf.new)) }
    ensures named { IfOk result (NamesFailed config.old config.new (S.meaning shelf.old) (S.meaning shelf.new)) }
    ensures last { IfErr result (NamesLast (λ s. S.meaning s) good config.old config.new.serial shelf.old shelf.new) }
{
    let mut device = lowest(good);
    while may_try(config, good) {
        match try_next(shelf, config, good, room) {
            Ok(()) => return Ok(device),
            Err(ShelfError::Fault { disk }) => device = disk,
            Err(ShelfError::Down) => return Err(No::Down),
        }
    }
    Err(No::Device { disk: device })
}
