// Imports.
ghost use Rattle.std.specs.Prelude.{◌≡◌, ℕ, IsTrue};
ghost use Rattle.vx_copyio.specs.Labelling.{AreLarge};
ghost use Rattle.vx_copies.specs.Answers.{Imported};
ghost use Rattle.vx_disk.specs.Causes.{OnDisks};
ghost use Rattle.vx_disk.specs.Disks.{Untouched};
ghost use Rattle.vx_disk.specs.Shelf.{Goes, Nothing};

use crate::search::search_all;
use crate::settle::concluded;
use std::alloc::Global;
use vx_config::Config;
use vx_disk::Shelf;
use vx_model::Stop;
use vx_model::limits::MOST_CONFIG_BYTES;

/// The newest configuration of the disks that can be read, with those of them that it held as failed held as good again, and
/// the set of the disks that it held as good. It writes nothing.
///
/// Answers 25 where a label has a version that is not known; else 9 where no disk has a label and a copy; else 22 where the
/// newest copy is damaged; else 8 where the newest configuration holds a disk as good that could not be read. Each names the lowest
/// such disk. The count of each disk that could not be read rose, and that of each one that could be read is as it was: no read that
/// failed is tried again. It may run out of memory.
pub fn import<S: Shelf>(alloc: Global, shelf: &mut S) -> Result<(Config, u8), Stop>
    requires up { IsTrue (S.meaning shelf.old).down → ⊥ }
    requires large { AreLarge (S.meaning shelf.old) }
    ensures imported { Imported (S.meaning shelf.old) (S.meaning shelf.new) result }
    ensures goes { Goes Nothing (S.meaning shelf.old) (S.meaning shelf.new) }
    ensures down { (S.meaning shelf.new).down ≡ (S.meaning shelf.old).down }
    ensures disks { OnDisks (S.meaning shelf.old).disks (S.meaning shelf.new).disks Untouched }
{
    let units = shelf.units();
    let mut room = match vec![in alloc; 0; MOST_CONFIG_BYTES] {
        Ok(room) => room,
        Err(_) => return Err(Stop::OutOfMemory),
    };
    match search_all(alloc, shelf, &mut room) {
        Ok(search) => match concluded(search, units) {
            Ok(found) => Ok(found),
            Err(no) => Err(Stop::No(no)),
        },
        Err(_) => Err(Stop::OutOfMemory),
    }
}
