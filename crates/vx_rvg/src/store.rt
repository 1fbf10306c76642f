// The putting of blocks into a volume without the log.
ghost use Rattle.std.specs.Prelude.{◌≡◌, ◌+◌, ◌<◌, ◌≤◌, length, None, IsTrue, OnOk, IsSome};
ghost use Rattle.vx_disk.specs.Causes.{Cause};
ghost use Rattle.vx_disk.specs.Moves.{Moves, Run};
ghost use Rattle.vx_disk.specs.Shelf.{Fits, Goes, KeepsAll, Written};
ghost use Rattle.vx_model.specs.Content.{blocks_in};
ghost use Rattle.vx_disk.specs.Spends.{Spends};
ghost use Rattle.vx_rvg.specs.Saves.{reclaim_refusal};
ghost use Rattle.vx_rvg.specs.Stores.{AreBlocks, Puts, PutsInto, Putting, StoreIs, StoresInto, Storing, store_blocks, store_refusal};
ghost use Rattle.vx_rvg.specs.Views.{IsSound, last_of, unit_of, volume_size};

use crate::header::give_up;
use crate::{Rvg, RvgCore};
use vx_disk::{Shelf, put, refusal};
use vx_model::No;
use vx_model::limits::BLOCK;

// Puts the blocks, durably, where the log holds no record. A device call that fails halts the group.
fn put_blocks<S: Shelf>(
    shelf: &mut S,
    core: &mut RvgCore,
    vol: u32,
    start: u64,
    bytes: &[u8],
) -> Result<(), No>
    requires sound { IsSound core.old (S.meaning shelf.old) }
    requires volume { vol < length core.old.units.vols }
    requires blocks { AreBlocks bytes.now }
    requires emptied { last_of core.old < core.old.log.header.low }
    requires within { start + blocks_in bytes.now ≤ volume_size core.old.units.vols (S.meaning shelf.old) vol }
    ensures puts { Puts core.old (S.meaning shelf.old) (S.meaning shelf.new) core.new result }
    ensures sound { IsSound core.new (S.meaning shelf.new) }
    ensures stands { OnOk result (PutsInto core.old core.new (record { volume = vol; start = start; bytes = bytes.now }) (S.meaning shelf.old) (S.meaning shelf.new)) }
    ensures moves { Moves (Run (unit_of core.old.units.vols vol) start (blocks_in bytes.now))
        (Putting core.old (record { volume = vol; start = start; bytes = bytes.now }) (S.meaning shelf.old)) (S.meaning shelf.old) (S.meaning shelf.new) }
    ensures spends { Spends (S.meaning shelf.old) (S.meaning shelf.new) }
{
    match put(shelf, core.unit(vol), start, bytes) {
        Ok(()) => Ok(()),
        Err(error) => {
            let no = refusal(error);
            core.halt(&no);
            Err(no)
        }
    }
}

// Puts the blocks, durably, where all writes are applied: the records that the log still holds are given up first.
fn store_applied<S: Shelf>(
    shelf: &mut S,
    core: &mut RvgCore,
    vol: u32,
    start: u64,
    bytes: &[u8],
) -> Result<(), No>
    requires sound { IsSound core.old (S.meaning shelf.old) }
    requires volume { vol < length core.old.units.vols }
    requires blocks { AreBlocks bytes.now }
    requires running { core.old.halted ≡ None }
    requires applied { core.old.applied ≡ last_of core.old }
    requires within { start + blocks_in bytes.now ≤ volume_size core.old.units.vols (S.meaning shelf.old) vol }
    ensures stores { StoreIs (reclaim_refusal core.old (last_of core.old)) core.old (S.meaning shelf.old) (S.meaning shelf.new) core.new result }
    ensures unchanged { IsSome (reclaim_refusal core.old (last_of core.old)) → shelf.new ≡ shelf.old }
    ensures sound { IsSound core.new (S.meaning shelf.new) }
    ensures stands { OnOk result (StoresInto core.old core.new (record { volume = vol; start = start; bytes = bytes.now }) (S.meaning shelf.old) (S.meaning shelf.new)) }
    ensures moves { Moves (store_blocks core.old vol start (blocks_in bytes.now))
        (Storing core.old (record { volume = vol; start = start; bytes = bytes.now }) (S.meaning shelf.old)) (S.meaning shelf.old) (S.meaning shelf.new) }
    ensures spends { Spends (S.meaning shelf.old) (S.meaning shelf.new) }
{
    let last = core.srl.head();
    if last < core.srl.low() {
        return put_blocks(shelf, core, vol, start, bytes);
    }
    match give_up(shelf, core, last) {
        Ok(()) => put_blocks(shelf, core, vol, start, bytes),
        Err(no) => Err(no),
    }
}

impl<S: Shelf> Rvg<S> {
    /// Puts 1 to 64 blocks into a data volume, durably, without the log.
    ///
    /// All logged writes have to be applied. Records that the log still holds are given up first, by one header: a start would bring
    /// their blocks over those that were put. Refusals, in this order: 20 where a call answered 7 before, 3 where the blocks end past
    /// the volume, 19 exactly where the log holds records and no stamp or number is left; these change nothing. 7 where a device call
    /// failed: then each of the blocks is old or new, and the group is halted. 6 where the shelf is down: each block is old or new.
    pub fn store(&mut self, vol: u32, start: u64, bytes: &[u8]) -> Result<(), No>
        requires volume { vol < length self.old.core.units.vols }
        requires blocks { AreBlocks bytes.now }
        requires applied { self.old.core.applied ≡ last_of self.old.core }
        ensures answers { StoreIs (store_refusal self.old.core ((S.meaning self.old.shelf).size (unit_of self.old.core.units.vols vol)) start (blocks_in bytes.now))
            self.old.core (S.meaning self.old.shelf) (S.meaning self.new.shelf) self.new.core result }
        ensures unchanged { IsSome (store_refusal self.old.core ((S.meaning self.old.shelf).size (unit_of self.old.core.units.vols vol)) start (blocks_in bytes.now))
            → self.new.shelf ≡ self.old.shelf }
        ensures stands { OnOk result (StoresInto self.old.core self.new.core (record { volume = vol; start = start; bytes = bytes.now }) (S.meaning self.old.shelf) (S.meaning self.new.shelf)) }
        ensures moves { Moves (store_blocks self.old.core vol start (blocks_in bytes.now))
            (Storing self.old.core (record { volume = vol; start = start; bytes = bytes.now }) (S.meaning self.old.shelf)) (S.meaning self.old.shelf) (S.meaning self.new.shelf) }
        ensures spends { Spends (S.meaning self.old.shelf) (S.meaning self.new.shelf) }
    {
        let unit = self.core.unit(vol);
        let size = self.shelf.size(unit);
        if let Some(no) = self
            .core
            .read_refusal(size, start, (bytes.len() / BLOCK) as u64)
        {
            return Err(no);
        }
        store_applied(&mut self.shelf, &mut self.core, vol, start, bytes)
    }
}
