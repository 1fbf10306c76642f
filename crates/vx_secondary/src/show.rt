// Reads of a receiver.
ghost use Rattle.std.specs.Prelude.{◌≡◌, ◌<◌, IsTrue, IsFalse, IsSome, OnOk, length};
ghost use Rattle.vx_disk.specs.Causes.{OnDisks};
ghost use Rattle.vx_disk.specs.Disks.{Untouched};
ghost use Rattle.vx_disk.specs.Shelf.{Goes, Nothing};
ghost use Rattle.vx_model.specs.Content.{blocks_in, fold_writes};
ghost use Rattle.vx_ringio.specs.Bodies.{IsBlocks};
ghost use Rattle.vx_rvg.specs.Contents.{ShowsContent};
ghost use Rattle.vx_rvg.specs.Groups.{ReadIs, read_refusal};
ghost use Rattle.vx_rvg.specs.Holdings.{Holding};
ghost use Rattle.vx_rvg.specs.Stands.{Stands};
ghost use Rattle.vx_rvg.specs.Views.{unit_of};
ghost use Rattle.vx_secondary.specs.Receivers.{writes_of_updates};

use crate::Secondary;
use crate::over::put_waiting;
use vx_disk::Shelf;
use vx_model::No;

impl<S: Shelf> Secondary<S> {
    /// Reads 1 to 16 blocks: the content after all writes that were received, those that wait included. It changes nothing.
    ///
    /// Refusals, in this order: 20 where a call answered 7 before, 3 where the blocks end past the volume, 7 where the device call
    /// failed, 6 where the shelf is down.
    pub fn show(&mut self, vol: u32, start: u64, into: &mut [u8]) -> Result<(), No>
        requires volume { vol < length self.old.rvg.core.units.vols }
        requires blocks { IsBlocks into.old }
        ensures answers { ReadIs (read_refusal self.old.rvg.core ((S.meaning self.old.rvg.shelf).size (unit_of self.old.rvg.core.units.vols vol)) start (blocks_in into.old))
            (S.meaning self.old.rvg.shelf) (S.meaning self.new.rvg.shelf) result }
        ensures gives { OnOk result ((h : Holding) → Stands self.old.rvg.core h (S.meaning self.old.rvg.shelf) → IsTrue (S.meaning self.old.rvg.shelf).tells
            → ShowsContent (fold_writes h.content (writes_of_updates self.old.waiting)) vol start (blocks_in into.old) into.new) }
        ensures unchanged { IsSome (read_refusal self.old.rvg.core ((S.meaning self.old.rvg.shelf).size (unit_of self.old.rvg.core.units.vols vol)) start (blocks_in into.old))
            → self.new.rvg.shelf ≡ self.old.rvg.shelf }
        ensures stands { (h : Holding) → Stands self.old.rvg.core h (S.meaning self.old.rvg.shelf) → IsFalse (S.meaning self.new.rvg.shelf).down
            → Stands self.new.rvg.core h (S.meaning self.new.rvg.shelf) }
        ensures core { self.new.rvg.core ≡ self.old.rvg.core }
        ensures waiting { self.new.waiting ≡ self.old.waiting }
        ensures goes { Goes Nothing (S.meaning self.old.rvg.shelf) (S.meaning self.new.rvg.shelf) }
        ensures down { (S.meaning self.new.rvg.shelf).down ≡ (S.meaning self.old.rvg.shelf).down }
        ensures disks { OnDisks (S.meaning self.old.rvg.shelf).disks (S.meaning self.new.rvg.shelf).disks Untouched }
    {
        // For the bound of a volume.
        let _size = self.rvg.size(vol);
        self.rvg.read(vol, start, into)?;
        put_waiting(&self.waiting, vol, start, into);
        Ok(())
    }
}
