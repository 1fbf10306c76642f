// A region of a replay that comes to a receiver.
ghost use Rattle.std.specs.Prelude.{◌≡◌, ◌+◌, ◌*◌, ◌<◌, ◌≤◌, ℕ, Some, None, Ok, Err, OnOk, IfOk, IfErr, length, true, false, if◌then◌else◌};
ghost use Rattle.vx_model.specs.Content.{blocks_in};
ghost use Rattle.vx_model.specs.declared.no.No.TheVariants.{Halted, Range};
ghost use Rattle.vx_replay.specs.declared.event.QAction.TheVariants.{Store};
ghost use Rattle.vx_regions.specs.Regions.{PuttingRegion, volume_has_region, region_action, region_blocks, region_write};
ghost use Rattle.vx_rvg.specs.Stores.{AreBlocks, StoresInto};
ghost use Rattle.vx_rvg.specs.Views.{unit_of};
ghost use Rattle.vx_secondary.specs.Logging.{EndsLogging};

use vx_disk::Shelf;
use vx_model::limits::REGION;
use vx_model::{Line, No};
use vx_replay::{QAction, QEvent};
use vx_rvg::Rvg;
use vx_secondary::{Secondary, Waiting, receiver};

// What the rule says of a region of this line and replay.
fn action_of<S: Shelf>(rvg: &Rvg<S>, waiting: &Waiting, line: &Line, id: u64) -> QAction
    ensures { result ≡ region_action rvg.now.core waiting.now line.now id }
{
    let mut state = receiver(rvg, waiting);
    let event = QEvent::Region { line: *line, id };
    vx_replay::secondary(&mut state, &event)
}

// The first block of a region, if the volume is there and has it.
fn place_of<S: Shelf>(rvg: &Rvg<S>, vol: u32, region: u64) -> Option<u64>
    ensures { result ≡ (if volume_has_region rvg.now.core (S.meaning rvg.now.shelf).size vol region then Some (REGION * region) else None) }
{
    if vol >= rvg.volumes() {
        return None;
    }
    let size = rvg.size(vol);
    if region <= size / REGION && REGION * region < size {
        Some(REGION * region)
    } else {
        None
    }
}

// Brings all that is logged into the volumes, and puts the blocks.
fn put<S: Shelf>(rvg: &mut Rvg<S>, vol: u32, start: u64, bytes: &[u8]) -> Result<(), No>
    requires running { rvg.old.core.halted ≡ None }
    requires volume { vol < length rvg.old.core.units.vols }
    requires blocks { AreBlocks bytes.now }
    requires within { start + blocks_in bytes.now ≤ (S.meaning rvg.old.shelf).size (unit_of rvg.old.core.units.vols vol) }
    ensures putting { PuttingRegion rvg.old.core rvg.new.core (record { volume = vol; start = start; bytes = bytes.now }) (S.meaning rvg.old.shelf) (S.meaning rvg.new.shelf) }
    ensures stores { OnOk result (StoresInto rvg.old.core rvg.new.core (record { volume = vol; start = start; bytes = bytes.now }) (S.meaning rvg.old.shelf) (S.meaning rvg.new.shelf)) }
    ensures ends { IfErr result (EndsLogging 0 rvg.old.core rvg.new.core (S.meaning rvg.old.shelf) (S.meaning rvg.new.shelf)) }
{
    // For its bound.
    let _ring = rvg.ring();
    let last = rvg.head();
    match rvg.apply(last) {
        Ok(_) => rvg.store(vol, start, bytes),
        Err(no) => Err(no),
    }
}

// Stores a region, if its volume has it.
fn store<S: Shelf>(
    secondary: &mut Secondary<S>,
    vol: u32,
    region: u64,
    bytes: &[u8],
) -> Result<QAction, No>
    requires running { secondary.old.rvg.core.halted ≡ None }
    requires blocks { AreBlocks bytes.now }
    requires whole { volume_has_region secondary.old.rvg.core (S.meaning secondary.old.rvg.shelf).size vol region ≡ true
        → blocks_in bytes.now ≡ region_blocks ((S.meaning secondary.old.rvg.shelf).size (unit_of secondary.old.rvg.core.units.vols vol)) region }
    ensures action { IfOk result (λ a. a ≡ Store) }
    ensures range { volume_has_region secondary.old.rvg.core (S.meaning secondary.old.rvg.shelf).size vol region ≡ false
        → (result ≡ Err Range) × (secondary.new.rvg ≡ secondary.old.rvg) }
    ensures putting { PuttingRegion secondary.old.rvg.core secondary.new.rvg.core (region_write vol region bytes.now) (S.meaning secondary.old.rvg.shelf) (S.meaning secondary.new.rvg.shelf) }
    ensures stores { OnOk result (StoresInto secondary.old.rvg.core secondary.new.rvg.core (region_write vol region bytes.now) (S.meaning secondary.old.rvg.shelf) (S.meaning secondary.new.rvg.shelf)) }
    ensures ends { volume_has_region secondary.old.rvg.core (S.meaning secondary.old.rvg.shelf).size vol region ≡ true
        → IfErr result (EndsLogging 0 secondary.old.rvg.core secondary.new.rvg.core (S.meaning secondary.old.rvg.shelf) (S.meaning secondary.new.rvg.shelf)) }
    ensures waiting { secondary.new.waiting ≡ secondary.old.waiting }
{
    let Some(start) = place_of(&secondary.rvg, vol, region) else {
        return Err(No::Range);
    };
    match put(&mut secondary.rvg, vol, start, bytes) {
        Ok(()) => Ok(QAction::Store),
        Err(no) => Err(no),
    }
}

/// Takes a region of a replay of this line and id, by the rule of a replay's receiver: a region of 64 blocks begins at 64 times its
/// number, and the last one of a volume may be shorter. Where it is to be stored, all that is logged is brought into the
/// volumes, and its blocks are put there, durably, without the log. Any other answer changes nothing.
///
/// Refusals, in this order: 20 where a call answered 7 before, and 3 where the region is to be stored and its volume is not there or
/// does not have it; these change nothing. 19 where the log holds records and has no stamp or number left to give them up. 7 where a
/// device call failed: then each of the blocks is old or new, and the group is halted. 6 where the shelf is down.
pub fn store_region<S: Shelf>(
    secondary: &mut Secondary<S>,
    line: &Line,
    id: u64,
    vol: u32,
    region: u64,
    bytes: &[u8],
) -> Result<QAction, No>
    requires blocks { AreBlocks bytes.now }
    requires whole { volume_has_region secondary.old.rvg.core (S.meaning secondary.old.rvg.shelf).size vol region ≡ true
        → blocks_in bytes.now ≡ region_blocks ((S.meaning secondary.old.rvg.shelf).size (unit_of secondary.old.rvg.core.units.vols vol)) region }
    ensures halted { (disk : ℕ) → secondary.old.rvg.core.halted ≡ Some disk → (result ≡ Err (Halted disk)) × (secondary.new.rvg ≡ secondary.old.rvg) }
    ensures action { IfOk result (λ a. a ≡ region_action secondary.old.rvg.core secondary.old.waiting line.now id) }
    ensures unchanged { secondary.old.rvg.core.halted ≡ None → (region_action secondary.old.rvg.core secondary.old.waiting line.now id ≡ Store → ⊥)
        → (result ≡ Ok (region_action secondary.old.rvg.core secondary.old.waiting line.now id)) × (secondary.new.rvg ≡ secondary.old.rvg) }
    ensures range { secondary.old.rvg.core.halted ≡ None → region_action secondary.old.rvg.core secondary.old.waiting line.now id ≡ Store
        → volume_has_region secondary.old.rvg.core (S.meaning secondary.old.rvg.shelf).size vol region ≡ false → (result ≡ Err Range) × (secondary.new.rvg ≡ secondary.old.rvg) }
    ensures stores { region_action secondary.old.rvg.core secondary.old.waiting line.now id ≡ Store
        → OnOk result (StoresInto secondary.old.rvg.core secondary.new.rvg.core (region_write vol region bytes.now) (S.meaning secondary.old.rvg.shelf) (S.meaning secondary.new.rvg.shelf)) }
    ensures ends { secondary.old.rvg.core.halted ≡ None → volume_has_region secondary.old.rvg.core (S.meaning secondary.old.rvg.shelf).size vol region ≡ true
        → IfErr result (EndsLogging 0 secondary.old.rvg.core secondary.new.rvg.core (S.meaning secondary.old.rvg.shelf) (S.meaning secondary.new.rvg.shelf)) }
    ensures putting { PuttingRegion secondary.old.rvg.core secondary.new.rvg.core (region_write vol region bytes.now) (S.meaning secondary.old.rvg.shelf) (S.meaning secondary.new.rvg.shelf) }
    ensures waiting { secondary.new.waiting ≡ secondary.old.waiting }
{
    if let Some(disk) = secondary.rvg.halted() {
        return Err(No::Halted { disk });
    }
    match action_of(&secondary.rvg, &secondary.waiting, line, id) {
        QAction::Store => store(secondary, vol, region, bytes),
        action => Ok(action),
    }
}
