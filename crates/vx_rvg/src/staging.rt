// A group in the middle of a group commit, and what it tells of itself.
ghost use Rattle.std.specs.Prelude.{◌≡◌, ◌+◌, ◌<◌, [], drop, length, List, None, IsFalse, IsTrue, IsSome, OnOk};
ghost use Rattle.vx_disk.specs.Causes.{OnDisks, Works};
ghost use Rattle.vx_disk.specs.Disks.{Untouched};
ghost use Rattle.vx_disk.specs.Shelf.{Goes, Nothing};
ghost use Rattle.vx_model.specs.Content.{Write, blocks_in, fold_writes};
ghost use Rattle.vx_ringio.specs.Bodies.{IsBlocks};
ghost use Rattle.vx_disk.specs.Spends.{Spends};
ghost use Rattle.vx_rvg.specs.Commits.{HasStaged, without_staged};
ghost use Rattle.vx_rvg.specs.Contents.{ShowsContent};
ghost use Rattle.vx_rvg.specs.Groups.{ReadIs, read_refusal};
ghost use Rattle.vx_rvg.specs.Holdings.{Holding};
ghost use Rattle.vx_rvg.specs.Stands.{Stands};
ghost use Rattle.vx_rvg.specs.Views.{IsSoundWith, applied_count, blocks_within, last_of, unit_of, volume_size};
ghost use Rattle.vx_srl.specs.Views.{free_of};

use crate::read::read_blocks;
use crate::{Rvg, RvgCore};
use vx_disk::Shelf;
use vx_model::No;

/// A group whose writes are staged one after another and sealed together. What is staged is read, and is no part of the log before it
/// is sealed.
#[derive(Drop)]
pub struct Staging<S: Shelf> {
    pub shelf: S,
    pub core: RvgCore,
    // How many blocks wait of the writes that are part of the log.
    pub(crate) waiting: usize,
    pub ghost sound: { IsSoundWith core.log.staged core (S.meaning shelf) },
    pub ghost counted: { waiting ≡ blocks_within (volume_size core.units.vols (S.meaning shelf)) (drop (applied_count core) core.log.held) },
}

impl<S: Shelf> Rvg<S> {
    /// Begins a group commit. It has to be up, and no call answered 7.
    pub fn begin(self) -> Staging<S>
        requires running { self.core.halted ≡ None }
        requires up { IsFalse (S.meaning self.shelf).down }
        ensures shelf { result.shelf ≡ self.shelf }
        ensures core { result.core ≡ self.core }
        ensures none { result.core.log.staged ≡ [] }
        ensures staged { (h : Holding) → Stands self.core h (S.meaning self.shelf) → HasStaged [] result.core h (S.meaning result.shelf) }
    {
        let Rvg { shelf, core } = self;
        let waiting = core.waiting();
        Staging {
            shelf,
            core,
            waiting,
        }
    }
}

impl<S: Shelf> Staging<S> {
    /// Ends a group commit: nothing is staged, or a call answered 7 or 6. Blocks of what is staged then do not wait any more.
    pub fn end(self) -> Rvg<S>
        requires sealed { self.core.halted ≡ None → IsFalse (S.meaning self.shelf).down → self.core.log.staged ≡ [] }
        ensures shelf { result.shelf ≡ self.shelf }
        ensures core { result.core ≡ without_staged (volume_size self.core.units.vols (S.meaning self.shelf)) self.core }
        ensures same { self.core.log.staged ≡ [] → result.core ≡ self.core }
    {
        let Staging {
            shelf,
            core,
            waiting,
        } = self;
        let mut core = core;
        core.pending.keep_oldest(waiting);
        Rvg { shelf, core }
    }

    /// Reads 1 to 16 blocks: the content after all logged writes and all that is staged. It changes nothing.
    ///
    /// Refusals, in this order: 20 where a call answered 7 before, 3 where the blocks end past the volume, 7 where the device call
    /// failed, 6 where the shelf is down.
    pub fn read(&mut self, vol: u32, start: u64, into: &mut [u8]) -> Result<(), No>
        requires volume { vol < length self.old.core.units.vols }
        requires blocks { IsBlocks into.old }
        ensures answers { ReadIs (read_refusal self.old.core ((S.meaning self.old.shelf).size (unit_of self.old.core.units.vols vol)) start (blocks_in into.old))
            (S.meaning self.old.shelf) (S.meaning self.new.shelf) result }
        ensures gives { OnOk result ((xs : List Write) (h : Holding) → HasStaged xs self.old.core h (S.meaning self.old.shelf) → IsTrue (S.meaning self.old.shelf).tells
            → ShowsContent (fold_writes h.content xs) vol start (blocks_in into.old) into.new) }
        ensures unchanged { IsSome (read_refusal self.old.core ((S.meaning self.old.shelf).size (unit_of self.old.core.units.vols vol)) start (blocks_in into.old))
            → self.new.shelf ≡ self.old.shelf }
        ensures staged { (xs : List Write) (h : Holding) → HasStaged xs self.old.core h (S.meaning self.old.shelf) → IsFalse (S.meaning self.new.shelf).down
            → HasStaged xs self.new.core h (S.meaning self.new.shelf) }
        ensures core { self.new.core ≡ self.old.core }
        ensures goes { Goes Nothing (S.meaning self.old.shelf) (S.meaning self.new.shelf) }
        ensures down { (S.meaning self.new.shelf).down ≡ (S.meaning self.old.shelf).down }
        ensures disks { OnDisks (S.meaning self.old.shelf).disks (S.meaning self.new.shelf).disks Untouched }
        ensures spends { Spends (S.meaning self.old.shelf) (S.meaning self.new.shelf) }
        ensures works { OnOk result (Works (S.meaning self.old.shelf).disks (unit_of self.old.core.units.vols vol)) }
    {
        read_blocks(&mut self.shelf, &self.core, vol, start, into)
    }

    /// The number of the last write that is part of the log. What is staged is not counted.
    pub fn head(&self) -> u64
        ensures { result ≡ last_of self.now.core }
    {
        self.core.srl.head()
    }

    /// The blocks of the log that no record takes, staged or not.
    pub fn free(&self) -> u64
        ensures { result ≡ free_of self.now.core.log }
    {
        self.core.srl.free()
    }
}
