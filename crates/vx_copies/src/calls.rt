// Commits.
ghost use Rattle.std.specs.Prelude.{◌≡◌, ◌⊎◌, ◌+◌, ◌*◌, ◌≤◌, true, Err, OnOk, IfErr, IfOk};
ghost use Rattle.vx_config.specs.Configs.{CanSpell, subdisk_count};
ghost use Rattle.vx_config.specs.Table.{greatest};
ghost use Rattle.vx_copyio.specs.Putting.{KeepsUp};
ghost use Rattle.vx_copyio.specs.Labelling.{AreLarge};
ghost use Rattle.vx_copies.specs.Bodies.{is_wanted};
ghost use Rattle.vx_copies.specs.Commits.{Begins, CommitEnds, CommitStopped, Finds, IsTry, NamesFailed, NamesLast, StayFit, StopsLast};
ghost use Rattle.vx_copies.specs.Marks.{good_count};
ghost use Rattle.vx_disk.specs.Burns.{MakesCalls};
ghost use Rattle.vx_model.specs.declared.errors.Stop.TheVariants.{OutOfMemory as MemoryStop, No as Refused};
ghost use Rattle.vx_model.specs.declared.no.Counted.TheVariants.{Number};
ghost use Rattle.vx_model.specs.declared.no.No.TheVariants.{Limit};
ghost use Rattle.vx_model.specs.declared.limits.TheConstants.{MOST_SUBDISKS};

use crate::Room;
use crate::committing::try_all;
use std::alloc::Global;
use vx_config::Config;
use vx_disk::Shelf;
use vx_model::limits::MOST_NUMBER;
use vx_model::{Counted, No, Stop};

/// Writes a configuration under the next serial to each disk that it holds as good: first to those of a set, which are the disks that
/// the newest committed configuration holds as good, and all of them before the first commit; then to the rest. A disk that fails is
/// held as failed from then on, and the commit begins again with the next serial. So each serial but one costs a disk, and where none
/// was lost it was four device calls for each disk that the configuration holds as good. It takes no memory.
///
/// At each moment of it an import over what a crash leaves finds what it might have found before, or one of the configurations that it
/// began, and after Ok the last of these, or is refused with 8 or 9. Where the write or the flush of a header of a disk failed before, and
/// no crash came since, one that finds no good disk with the new copy may be refused with 22 for this disk.
///
/// Answers 19 exactly where the serial is the greatest one, and then nothing has changed. Else 7 only where each disk of the set has
/// failed, or the greatest serial was used: it names the disk that failed last, or, where each was held as failed before, the lowest
/// of the set. And 6 only where the shelf is then down. After 7 and 6 the configuration is as it was, but for the serial, which is the
/// last one that was begun. At Ok it answers the device that failed last; where no disk
/// came to be held as failed, this is any number.
pub fn commit_named<S: Shelf>(
    shelf: &mut S,
    config: &mut Config,
    good: u8,
    room: &mut Room,
) -> Result<u32, No>
    requires large { AreLarge (S.meaning shelf.old) }
    requires can { CanSpell config.old }
    requires short { subdisk_count config.old ≤ MOST_SUBDISKS }
    requires wanted { is_wanted (S.meaning shelf.old).units (S.meaning shelf.old).size config.old ≡ true }
    ensures can { CanSpell config.new }
    ensures short { subdisk_count config.new ≤ MOST_SUBDISKS }
    ensures wanted { is_wanted (S.meaning shelf.new).units (S.meaning shelf.new).size config.new ≡ true }
    ensures begins { Begins (IsTry config.old config.new.serial (S.meaning shelf.old) (S.meaning shelf.new)) config.old (S.meaning shelf.old) (S.meaning shelf.new) }
    ensures finds { Finds good (IsTry config.old config.new.serial (S.meaning shelf.old) (S.meaning shelf.new)) config.old (S.meaning shelf.old) (S.meaning shelf.new) }
    ensures fit { StayFit config.old config.new.serial (S.meaning shelf.old) (S.meaning shelf.new) }
    ensures ends { CommitEnds good config.old config.new (S.meaning shelf.old) (S.meaning shelf.new) result }
    ensures up { OnOk result (KeepsUp (S.meaning shelf.old) (S.meaning shelf.new)) }
    ensures calls { OnOk result (config.new.serial ≡ config.old.serial + 1 → MakesCalls (4 * good_count config.new.disks) (S.meaning shelf.old) (S.meaning shelf.new)) }
    ensures last { IfErr result (NamesLast (λ s. S.meaning s) good config.old config.new.serial shelf.old shelf.new) }
    ensures named { IfOk result (NamesFailed config.old config.new (S.meaning shelf.old) (S.meaning shelf.new)) }
    ensures limit { greatest ≤ config.old.serial → (result ≡ Err (Limit Number greatest)) × (config.new ≡ config.old) × (shelf.new ≡ shelf.old) }
{
    if config.serial >= MOST_NUMBER {
        return Err(No::Limit {
            what: Counted::Number,
            most: MOST_NUMBER,
        });
    }
    let kept = config.disks.copy();
    match try_all(shelf, config, good, &mut room.bytes) {
        Ok(device) => Ok(device),
        Err(no) => {
            config.disks = kept;
            Err(no)
        }
    }
}

/// What `commit_named` does, without the device.
pub fn commit_in<S: Shelf>(
    shelf: &mut S,
    config: &mut Config,
    good: u8,
    room: &mut Room,
) -> Result<(), No>
    requires large { AreLarge (S.meaning shelf.old) }
    requires can { CanSpell config.old }
    requires short { subdisk_count config.old ≤ MOST_SUBDISKS }
    requires wanted { is_wanted (S.meaning shelf.old).units (S.meaning shelf.old).size config.old ≡ true }
    ensures can { CanSpell config.new }
    ensures short { subdisk_count config.new ≤ MOST_SUBDISKS }
    ensures wanted { is_wanted (S.meaning shelf.new).units (S.meaning shelf.new).size config.new ≡ true }
    ensures begins { Begins (IsTry config.old config.new.serial (S.meaning shelf.old) (S.meaning shelf.new)) config.old (S.meaning shelf.old) (S.meaning shelf.new) }
    ensures finds { Finds good (IsTry config.old config.new.serial (S.meaning shelf.old) (S.meaning shelf.new)) config.old (S.meaning shelf.old) (S.meaning shelf.new) }
    ensures fit { StayFit config.old config.new.serial (S.meaning shelf.old) (S.meaning shelf.new) }
    ensures ends { CommitEnds good config.old config.new (S.meaning shelf.old) (S.meaning shelf.new) result }
    ensures up { OnOk result (KeepsUp (S.meaning shelf.old) (S.meaning shelf.new)) }
    ensures calls { OnOk result (config.new.serial ≡ config.old.serial + 1 → MakesCalls (4 * good_count config.new.disks) (S.meaning shelf.old) (S.meaning shelf.new)) }
    ensures last { IfErr result (NamesLast (λ s. S.meaning s) good config.old config.new.serial shelf.old shelf.new) }
    ensures limit { greatest ≤ config.old.serial → (result ≡ Err (Limit Number greatest)) × (config.new ≡ config.old) × (shelf.new ≡ shelf.old) }
{
    match commit_named(shelf, config, good, room) {
        Ok(_) => Ok(()),
        Err(no) => Err(no),
    }
}

/// What `commit_in` does, in memory that it takes for this: nothing has changed where there is none.
pub fn commit<S: Shelf>(
    alloc: Global,
    shelf: &mut S,
    config: &mut Config,
    good: u8,
) -> Result<(), Stop>
    requires large { AreLarge (S.meaning shelf.old) }
    requires can { CanSpell config.old }
    requires short { subdisk_count config.old ≤ MOST_SUBDISKS }
    requires wanted { is_wanted (S.meaning shelf.old).units (S.meaning shelf.old).size config.old ≡ true }
    ensures can { CanSpell config.new }
    ensures short { subdisk_count config.new ≤ MOST_SUBDISKS }
    ensures wanted { is_wanted (S.meaning shelf.new).units (S.meaning shelf.new).size config.new ≡ true }
    ensures begins { Begins (IsTry config.old config.new.serial (S.meaning shelf.old) (S.meaning shelf.new)) config.old (S.meaning shelf.old) (S.meaning shelf.new) }
    ensures finds { Finds good (IsTry config.old config.new.serial (S.meaning shelf.old) (S.meaning shelf.new)) config.old (S.meaning shelf.old) (S.meaning shelf.new) }
    ensures fit { StayFit config.old config.new.serial (S.meaning shelf.old) (S.meaning shelf.new) }
    ensures ends { CommitStopped good config.old config.new (S.meaning shelf.old) (S.meaning shelf.new) result }
    ensures calls { OnOk result (config.new.serial ≡ config.old.serial + 1 → MakesCalls (4 * good_count config.new.disks) (S.meaning shelf.old) (S.meaning shelf.new)) }
    ensures last { IfErr result (StopsLast (λ s. S.meaning s) good config.old config.new.serial shelf.old shelf.new) }
    ensures memory { result ≡ Err MemoryStop → shelf.new ≡ shelf.old }
    ensures limit { greatest ≤ config.old.serial → ((result ≡ Err MemoryStop) ⊎ (result ≡ Err (Refused (Limit Number greatest)))) × (config.new ≡ config.old) × (shelf.new ≡ shelf.old) }
{
    let mut room = match Room::new(alloc, config) {
        Ok(room) => room,
        Err(_) => return Err(Stop::OutOfMemory),
    };
    match commit_in(shelf, config, good, &mut room) {
        Ok(()) => Ok(()),
        Err(no) => Err(Stop::No(no)),
    }
}
