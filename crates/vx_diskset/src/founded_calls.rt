// Calls on a replicated volume group over a group of disks that is up.
ghost use Rattle.std.specs.Prelude.{◌<◌, ◌≤◌, ◌%◌, ◌≡◌, IfOk, IsFalse, None, length};
ghost use Rattle.vx_history.specs.World.{Node};
ghost use Rattle.vx_model.specs.Content.{blocks_in};
ghost use Rattle.vx_model.specs.declared.limits.TheConstants.{BLOCK, MOST_CALL_BYTES};
ghost use Rattle.vx_ground.specs.Lifted.{laid_volumes};
ghost use Rattle.vx_diskset.specs.LaidBlocks.{laid_blockwise};
ghost use Rattle.vx_diskset.specs.Burning.{OffIf};
ghost use Rattle.vx_diskset.specs.DiskSets.{CanLog, CanRead};
ghost use Rattle.vx_diskset.specs.Founded.{FoundedWorks};
ghost use Rattle.vx_diskset.specs.Holds.{KeptBeside};
ghost use Rattle.vx_diskset.specs.Needs.{HasRoom};
ghost use Rattle.vx_diskset.specs.Rooms.{AppliedAs};
ghost use Rattle.vx_diskset.specs.Shelves.{LoggedAs, ReadAs};
ghost use Rattle.vx_diskset.specs.Stands.{IsReceiverAt, IsUpAt};
ghost use Rattle.vx_diskset.specs.Works.{ShownAs};

use crate::founded::{Founded, FoundedReceiver};
use crate::over_work::{Applies, Reads, Shows, Writes};
use vx_disk::Rack;
use vx_ground::work_over;
use vx_model::No;

impl<R: Rack> Founded<R> {
    /// Writes whole blocks to a data volume.
    pub(crate) fn write(
        self,
        volume: u32,
        start: u64,
        bytes: &[u8],
        hold: u64,
    ) -> (Founded<R>, Result<u64, No>)
        requires some { 0 < length bytes.now }
        requires few { length bytes.now ≤ MOST_CALL_BYTES }
        requires whole { length bytes.now % BLOCK ≡ 0 }
        requires volume { volume < length self.core.units.vols }
        ensures wrote { (beside : KeptBeside) (n : Node) → IsUpAt beside n self.core (laid_blockwise self.laid) → CanLog n volume start (blocks_in bytes.now) → HasRoom beside.links n hold (blocks_in bytes.now) → LoggedAs beside n (record { volume = volume; start = start; bytes = bytes.now }) (laid_blockwise self.laid) result.0.core (laid_blockwise result.0.laid) result.1 }
        ensures off { IsFalse (laid_volumes self.laid).down → OffIf result.1 (laid_volumes result.0.laid).down }
        ensures works { FoundedWorks self.core self.laid result.0.core result.0.laid }
    {
        let (laid, core) = self.apart();
        let work = Writes {
            core,
            volume,
            start,
            bytes,
            hold,
        };
        let (laid, answer) = work_over(laid, work);
        let (core, answer) = answer;
        (Founded::together(laid, core), answer)
    }

    /// Brings logged writes into their volumes.
    pub(crate) fn apply(self, to: u64) -> (Founded<R>, Result<u64, No>)
        ensures applied { (beside : KeptBeside) (n : Node) → IsUpAt beside n self.core (laid_blockwise self.laid) → n.halted ≡ None → AppliedAs beside n to result.0.core (laid_blockwise self.laid) (laid_blockwise result.0.laid) result.1 }
        ensures reached { IfOk result.1 (λ number. result.0.core.applied ≡ number) }
        ensures off { OffIf result.1 (laid_volumes result.0.laid).down }
        ensures works { FoundedWorks self.core self.laid result.0.core result.0.laid }
    {
        let (laid, core) = self.apart();
        let (laid, answer) = work_over(laid, Applies { core, to });
        let (core, answer) = answer;
        (Founded::together(laid, core), answer)
    }

    /// Reads blocks of a data volume: the content after the writes that are durable.
    pub(crate) fn read(
        self,
        volume: u32,
        start: u64,
        into: &mut [u8],
    ) -> (Founded<R>, Result<(), No>)
        requires some { 0 < length into.old }
        requires few { length into.old ≤ MOST_CALL_BYTES }
        requires whole { length into.old % BLOCK ≡ 0 }
        requires volume { volume < length self.core.units.vols }
        ensures read { (beside : KeptBeside) (n : Node) → IsUpAt beside n self.core (laid_blockwise self.laid) → CanRead n volume start (blocks_in into.old) → ReadAs beside n volume start (blocks_in into.old) into.new result.0.core (laid_blockwise self.laid) (laid_blockwise result.0.laid) result.1 }
        ensures down { (laid_volumes result.0.laid).down ≡ (laid_volumes self.laid).down }
        ensures works { FoundedWorks self.core self.laid result.0.core result.0.laid }
    {
        let (laid, core) = self.apart();
        let count = into.len();
        let work = Reads {
            core,
            volume,
            start,
            count,
        };
        let (laid, answer) = work_over(laid, work);
        let (core, room, answer) = answer;
        into.copy_from_slice(&room[..count]);
        (Founded::together(laid, core), answer)
    }
}

impl<R: Rack> FoundedReceiver<R> {
    /// Reads blocks of a data volume: the content after the writes that are durable.
    pub(crate) fn read(
        self,
        volume: u32,
        start: u64,
        into: &mut [u8],
    ) -> (FoundedReceiver<R>, Result<(), No>)
        requires some { 0 < length into.old }
        requires few { length into.old ≤ MOST_CALL_BYTES }
        requires whole { length into.old % BLOCK ≡ 0 }
        requires volume { volume < length self.core.units.vols }
        ensures read { (beside : KeptBeside) (n : Node) → IsUpAt beside n self.core (laid_blockwise self.laid) → CanRead n volume start (blocks_in into.old) → ReadAs beside n volume start (blocks_in into.old) into.new result.0.core (laid_blockwise self.laid) (laid_blockwise result.0.laid) result.1 }
        ensures waiting { result.0.waiting ≡ self.waiting }
        ensures down { (laid_volumes result.0.laid).down ≡ (laid_volumes self.laid).down }
        ensures works { FoundedWorks self.core self.laid result.0.core result.0.laid }
    {
        let (laid, core, waiting) = self.apart();
        let count = into.len();
        let work = Reads {
            core,
            volume,
            start,
            count,
        };
        let (laid, answer) = work_over(laid, work);
        let (core, room, answer) = answer;
        into.copy_from_slice(&room[..count]);
        (FoundedReceiver::together(laid, core, waiting), answer)
    }

    /// Reads blocks of a data volume: the content after all writes that were received.
    pub(crate) fn show(
        self,
        volume: u32,
        start: u64,
        into: &mut [u8],
    ) -> (FoundedReceiver<R>, Result<(), No>)
        requires some { 0 < length into.old }
        requires few { length into.old ≤ MOST_CALL_BYTES }
        requires whole { length into.old % BLOCK ≡ 0 }
        requires volume { volume < length self.core.units.vols }
        ensures shows { (beside : KeptBeside) (n : Node) → IsReceiverAt beside n self.core self.waiting (laid_blockwise self.laid) → CanRead n volume start (blocks_in into.old) → ShownAs beside n volume start (blocks_in into.old) into.new result.0.core result.0.waiting (laid_blockwise self.laid) (laid_blockwise result.0.laid) result.1 }
        ensures down { (laid_volumes result.0.laid).down ≡ (laid_volumes self.laid).down }
        ensures works { FoundedWorks self.core self.laid result.0.core result.0.laid }
    {
        let (laid, core, waiting) = self.apart();
        let count = into.len();
        let work = Shows {
            core,
            waiting,
            volume,
            start,
            count,
        };
        let (laid, answer) = work_over(laid, work);
        let (core, waiting, room, answer) = answer;
        into.copy_from_slice(&room[..count]);
        (FoundedReceiver::together(laid, core, waiting), answer)
    }
}
