// The start of a group from what stands on its shelf.
ghost use Rattle.std.specs.Prelude.{◌≡◌, ◌+◌, ◌*◌, ◌≤◌, [], ◌∷◌, ◌++◌, length, IfOk, IfErr, IsTrue, OnOk};
ghost use Rattle.vx_disk.specs.Causes.{Works};
ghost use Rattle.vx_dcm.specs.Places.{DcmLoaded};
ghost use Rattle.vx_disk.specs.Maps.{maps_of};
ghost use Rattle.vx_disk.specs.Moves.{Moves, Run};
ghost use Rattle.vx_disk.specs.Shelf.{Goes, Nothing};
ghost use Rattle.vx_model.specs.Content.{blocks_in};
ghost use Rattle.vx_model.specs.Sizes.{ring_of};
ghost use Rattle.vx_model.specs.declared.limits.TheConstants.{LINK_PLACES};
ghost use Rattle.vx_overlay.specs.Writes.{entries_of};
ghost use Rattle.vx_disk.specs.Spends.{Spends};
ghost use Rattle.vx_ringio.specs.Tracks.{RingLies};
ghost use Rattle.vx_rvg.specs.Contents.{write_of_update};
ghost use Rattle.vx_rvg.specs.Fills.{FillCause, IsFilledTo};
ghost use Rattle.vx_rvg.specs.Starts.{GivesMarks, IsStarted, StartCause, StartStop, Starting, ring_in};
ghost use Rattle.vx_rvg.specs.Views.{UnitsPlaced, volume_size};
ghost use Rattle.vx_srl.specs.Starts.{ReadsAtLimit, StopReadsAtLimit};

use crate::patch::add_all;
use crate::write::refused;
use crate::{Rvg, RvgCore};
use std::alloc::Global;
use std::marker::Model;
use vx_dcm::{Dcm, DcmRoom, room_blocks};
use vx_disk::Shelf;
use vx_model::limits::{BLOCK, LEAST_BLOCKS};
use vx_model::{Blocks, Line, No, OutOfMemory, Stop, Units, Update, ring_blocks};
use vx_overlay::Overlay;
use vx_srl::{LogRoom, Srl};

// Adds the blocks of a write, unless it does not end within its volume.
fn add_within<S: Shelf>(shelf: &S, units: &Units, pending: &mut Overlay, update: &Update)
    requires placed { UnitsPlaced units.now (S.meaning shelf.now) }
    requires room { length pending.old.entries + blocks_in update.now.bytes ≤ pending.old.capacity }
    ensures entries { pending.new.entries ≡ pending.old.entries ++ entries_of (volume_size units.now.vols (S.meaning shelf.now)) (write_of_update update.now ∷ []) }
    ensures capacity { pending.new.capacity ≡ pending.old.capacity }
{
    let vols = units.vols.as_slice();
    if update.vol as usize >= vols.len() {
        return;
    }
    let size = shelf.size(vols[update.vol as usize]);
    let bytes = update.bytes.as_bytes();
    let count = (bytes.len() / BLOCK) as u64;
    if count <= size && update.block <= size - count {
        add_all(pending, update.vol, update.block, bytes);
    }
}

// Adds the blocks of each write of the log.
fn fill<S: Shelf>(shelf: &mut S, srl: &Srl, units: &Units, pending: &mut Overlay) -> Result<(), No>
    requires placed { UnitsPlaced units.now (S.meaning shelf.old) }
    requires lies { RingLies srl.now.unit srl.now.ring (S.meaning shelf.old) }
    requires up { IsTrue (S.meaning shelf.old).down → ⊥ }
    requires none { pending.old.entries ≡ [] }
    requires room { pending.old.capacity ≡ srl.now.ring }
    ensures filled { OnOk result (IsFilledTo srl.now (volume_size units.now.vols (S.meaning shelf.old)) (S.meaning shelf.old) (length srl.now.held) pending.new.entries) }
    ensures capacity { pending.new.capacity ≡ pending.old.capacity }
    ensures up { OnOk result (IsTrue (S.meaning shelf.new).down → ⊥) }
    ensures cause { IfErr result (λ why. FillCause srl.now (S.meaning shelf.old) (S.meaning shelf.new) why) }
    ensures goes { Goes Nothing (S.meaning shelf.old) (S.meaning shelf.new) }
    ensures spends { Spends (S.meaning shelf.old) (S.meaning shelf.new) }
{
    // The ring has room for all that is held.
    let _ring = srl.ring();
    let mut update = Update {
        line: Line::default(),
        number: 0,
        vol: 0,
        block: 0,
        bytes: Blocks::filled(1, 0),
    };
    for before in srl.low() - 1..srl.head() {
        if let Err(why) = srl.fetch(shelf, before + 1, &mut update) {
            return Err(refused(why));
        }
        add_within(shelf, units, pending, &update);
    }
    Ok(())
}

// Adds the blocks of each write of the log, and reads the change maps.
fn take_up<S: Shelf>(
    shelf: &mut S,
    srl: &Srl,
    units: &Units,
    pending: &mut Overlay,
    room: DcmRoom,
) -> Result<Dcm, No>
    requires placed { UnitsPlaced units.now (S.meaning shelf.old) }
    requires lies { RingLies srl.now.unit srl.now.ring (S.meaning shelf.old) }
    requires up { IsTrue (S.meaning shelf.old).down → ⊥ }
    requires none { pending.old.entries ≡ [] }
    requires room { pending.old.capacity ≡ srl.now.ring }
    requires maps { LINK_PLACES * maps_of units.now.vols (S.meaning shelf.old) ≤ room.blocks }
    ensures filled { OnOk result (IsFilledTo srl.now (volume_size units.now.vols (S.meaning shelf.old)) (S.meaning shelf.old) (length srl.now.held) pending.new.entries) }
    ensures capacity { pending.new.capacity ≡ pending.old.capacity }
    ensures loaded { IfOk result (λ maps. DcmLoaded units.now (S.meaning shelf.new) maps) }
    ensures marks { IfOk result (λ maps. GivesMarks units.now (S.meaning shelf.old) maps) }
    ensures up { OnOk result (IsTrue (S.meaning shelf.new).down → ⊥) }
    ensures cause { IfErr result (λ why. FillCause srl.now (S.meaning shelf.old) (S.meaning shelf.new) why) }
    ensures goes { Goes Nothing (S.meaning shelf.old) (S.meaning shelf.new) }
    ensures spends { Spends (S.meaning shelf.old) (S.meaning shelf.new) }
{
    if let Err(no) = fill(shelf, srl, units, pending) {
        return Err(no);
    }
    match Dcm::load_in(room, shelf, units) {
        Ok(maps) => Ok(maps),
        Err(no) => Err(no),
    }
}

/// Memory for the start of a group: for its log, for the blocks that wait, and for its change maps.
#[derive(Drop)]
pub struct StartRoom {
    log: LogRoom,
    pending: Overlay,
    maps: DcmRoom,
}

impl Model for StartRoom {
    ghost use Rattle.std.specs.Prelude.{◌≡◌, []};
    ghost use Rattle.vx_rvg.specs.Starts.{Room, IsRoom};

    ghost Value = { Room };

    ghost view = { λ r. record { ring = r.log.ring; maps = r.maps.blocks } };

    ghost invariant = { λ r. IsRoom r.log.ring r.pending };
}

impl StartRoom {
    /// For a log whose unit has so many blocks, and change maps of so many, at most 65,536.
    pub fn new(alloc: Global, blocks: u64, maps: u64) -> Result<StartRoom, OutOfMemory>
        requires { LEAST_BLOCKS ≤ blocks }
        ensures ring { IfOk result (λ room. room.ring ≡ ring_of blocks) }
        ensures maps { IfOk result (λ room. room.maps ≡ maps) }
    {
        let log = LogRoom::new(alloc, blocks)?;
        let pending = Overlay::new(alloc, ring_blocks(blocks))?;
        let maps = DcmRoom::new(alloc, maps)?;
        Ok(StartRoom { log, pending, maps })
    }

    /// The blocks of the ring for which it is.
    pub fn ring(&self) -> u64
        ensures { result ≡ self.now.ring }
    {
        self.pending.spare()
    }

    /// The blocks of the change maps for which it is.
    pub fn maps(&self) -> u64
        ensures { result ≡ self.now.maps }
    {
        self.maps.blocks()
    }
}

impl<S: Shelf> Rvg<S> {
    /// Starts the group that stands on these units, with memory taken before: it takes up the log, whose writes wait for their
    /// volumes again, and the change maps.
    ///
    /// Refusals: 9 where neither header block of the log is a header, or 22 for the lower one whose digest differs; 22 for a record
    /// whose header or body has another digest; 19 where no stamp or incarnation is left, which changes nothing; 7 and 6. Whatever
    /// it refuses, the shelf comes back, and has what it had but for the headers of the log.
    pub fn start_in(room: StartRoom, shelf: S, units: &Units) -> Result<Rvg<S>, (S, No)>
        requires placed { UnitsPlaced units.now (S.meaning shelf) }
        requires large { LEAST_BLOCKS ≤ (S.meaning shelf).size units.now.srl }
        requires room { room.ring ≡ ring_in units.now (S.meaning shelf) }
        requires maps { LINK_PLACES * maps_of units.now.vols (S.meaning shelf) ≤ room.maps }
        ensures starts { IfOk result (λ g. IsStarted units.now (S.meaning shelf) g.core (S.meaning g.shelf)) }
        ensures up { IfOk result (λ g. IsTrue (S.meaning g.shelf).down → ⊥) }
        ensures moves { IfOk result (λ g. Moves (Run units.now.srl 0 (ring_in units.now (S.meaning shelf) + 2)) (Starting units.now (S.meaning shelf)) (S.meaning shelf) (S.meaning g.shelf)) }
        ensures cause { IfErr result (λ e. StartCause units.now (S.meaning shelf) (S.meaning e.0) e.1) }
        ensures limit { IfErr result (λ e. ReadsAtLimit (S.meaning shelf) (S.meaning e.0) e.1) }
        ensures left { IfErr result (λ e. Moves (Run units.now.srl 0 (ring_in units.now (S.meaning shelf) + 2)) (Starting units.now (S.meaning shelf)) (S.meaning shelf) (S.meaning e.0)) }
        ensures spends { IfOk result (λ g. Spends (S.meaning shelf) (S.meaning g.shelf)) }
        ensures spent { IfErr result (λ e. Spends (S.meaning shelf) (S.meaning e.0)) }
        ensures works { IfOk result (λ g. Works (S.meaning shelf).disks units.now.srl) }
    {
        let mut shelf = shelf;
        let StartRoom {
            log,
            mut pending,
            maps,
        } = room;
        let srl = match Srl::start_in(log, &mut shelf, units.srl) {
            Ok(srl) => srl,
            Err(no) => return Err((shelf, no)),
        };
        let maps = match take_up(&mut shelf, &srl, units, &mut pending, maps) {
            Ok(maps) => maps,
            Err(no) => return Err((shelf, no)),
        };
        let applied = srl.low() - 1;
        Ok(Rvg {
            shelf,
            core: RvgCore {
                units: units.copy(),
                srl,
                maps,
                pending,
                applied,
                halted: None,
            },
        })
    }

    /// The same, or want of memory, which changes nothing.
    pub fn start(alloc: Global, shelf: S, units: &Units) -> Result<Rvg<S>, (S, Stop)>
        requires placed { UnitsPlaced units.now (S.meaning shelf) }
        requires large { LEAST_BLOCKS ≤ (S.meaning shelf).size units.now.srl }
        ensures starts { IfOk result (λ g. IsStarted units.now (S.meaning shelf) g.core (S.meaning g.shelf)) }
        ensures up { IfOk result (λ g. IsTrue (S.meaning g.shelf).down → ⊥) }
        ensures moves { IfOk result (λ g. Moves (Run units.now.srl 0 (ring_in units.now (S.meaning shelf) + 2)) (Starting units.now (S.meaning shelf)) (S.meaning shelf) (S.meaning g.shelf)) }
        ensures cause { IfErr result (λ e. StartStop units.now (S.meaning shelf) (S.meaning e.0) e.1) }
        ensures limit { IfErr result (λ e. StopReadsAtLimit (S.meaning shelf) (S.meaning e.0) e.1) }
        ensures left { IfErr result (λ e. Moves (Run units.now.srl 0 (ring_in units.now (S.meaning shelf) + 2)) (Starting units.now (S.meaning shelf)) (S.meaning shelf) (S.meaning e.0)) }
        ensures spends { IfOk result (λ g. Spends (S.meaning shelf) (S.meaning g.shelf)) }
        ensures spent { IfErr result (λ e. Spends (S.meaning shelf) (S.meaning e.0)) }
        ensures works { IfOk result (λ g. Works (S.meaning shelf).disks units.now.srl) }
    {
        let Ok(room) = StartRoom::new(alloc, shelf.size(units.srl), room_blocks(units, &shelf))
        else {
            return Err((shelf, Stop::OutOfMemory));
        };
        match Rvg::start_in(room, shelf, units) {
            Ok(rvg) => Ok(rvg),
            Err((shelf, no)) => Err((shelf, Stop::No(no))),
        }
    }
}
