// Calls on the group of a site that is up: its writes, its reads, and what brings logged writes into their volumes.
ghost use Rattle.std.specs.Prelude.{◌≡◌, ◌≤◌, ◌<◌, ◌+◌, ◌*◌, ◌%◌, [], ℕ, drop, length, None, Err, IfOk, IfErr, OnOk, IsFalse, List, false};
ghost use Rattle.vx_events.specs.GroupLines.{is_over_group};
ghost use Rattle.vx_model.specs.Content.{blocks_in};
ghost use Rattle.vx_model.specs.declared.limits.TheConstants.{MOST_CALL_BLOCKS, MOST_CALL_BYTES};
ghost use Rattle.vx_diskset.specs.Holds.{KeptBeside, site_alone};
ghost use Rattle.vx_history.specs.Events.{logged_blocks};
ghost use Rattle.vx_history.specs.World.{Node};
ghost use Rattle.vx_model.specs.declared.call.Update.{Update};
ghost use Rattle.vx_secondary.specs.Receivers.{Wait};
ghost use Rattle.vx_disk.specs.Spends.{Spends};
ghost use Rattle.vx_disk.specs.Burns.{RackIsShort};
ghost use Rattle.vx_model.specs.declared.no.No.TheVariants.{Down as IsOff};
ghost use Rattle.vx_srl.specs.Views.{BodyFits, free_of};
ghost use Rattle.vx_diskset.specs.Asked.{IsRawSet, LeavesFuse, WritesUnder};
ghost use Rattle.vx_diskset.specs.Blames.{BlamesSite};
ghost use Rattle.vx_diskset.specs.Burning.{NoMore, IsLogged, OffIf, said_by};
ghost use Rattle.vx_diskset.specs.DiskSets.{Later, CanLog, CanWrite, LoggedUp, WroteUp};
ghost use Rattle.vx_diskset.specs.Needs.{HasRoom, NoneNeeds};
ghost use Rattle.vx_diskset.specs.Rooms.{AppliedAs, IsMore, NeverLimit, RoomIs, TakesOne, logged_count};
ghost use Rattle.vx_diskset.specs.Shelves.{BlamesRack, BurnsOn, LaterOn, LoggedAs, MovesOn};
ghost use Rattle.vx_diskset.specs.Noted.{NotesOn, OversCalled, OversFall};
ghost use Rattle.vx_diskset.specs.Stands.{IsUpAt, KeepsRole, StandsAlone, SiteStands};

use crate::DiskSet;
use crate::places::put_back;
use std::mem;
use vx_disk::{Rack, Shelf};
use vx_grouped::is_off;
use vx_model::limits::{BLOCK, MOST_NUMBER};
use vx_model::{Counted, No};
use vx_rvg::Rvg;

// Brings logged writes into their volumes. A shelf that is down behind it answers so.
pub(crate) fn apply_group<S: Shelf>(rvg: &mut Rvg<S>, to: u64) -> Result<u64, No>
    ensures applied { (beside : KeptBeside) (n : Node) → IsUpAt beside n rvg.old.core (S.meaning rvg.old.shelf) → n.halted ≡ None
        → AppliedAs beside n to rvg.new.core (S.meaning rvg.old.shelf) (S.meaning rvg.new.shelf) result }
    ensures reached { IfOk result (λ number. rvg.new.core.applied ≡ number) }
    ensures never { NeverLimit result }
    ensures log { OnOk result (rvg.new.core.log ≡ rvg.old.core.log) }
    ensures waiting { (us : List Update) → Wait rvg.old.core (S.meaning rvg.old.shelf).size us → Wait rvg.new.core (S.meaning rvg.new.shelf).size us }
    ensures units { rvg.new.core.units ≡ rvg.old.core.units }
    ensures group { IsMore 0 rvg.old.core rvg.new.core }
    ensures spends { Spends (S.meaning rvg.old.shelf) (S.meaning rvg.new.shelf) }
    ensures off { OffIf result (S.meaning rvg.new.shelf).down }
    ensures blames { IfErr result (BlamesRack (S.meaning rvg.old.shelf).disks rvg.old.core.units) }
    ensures later { LaterOn (S.meaning rvg.old.shelf) (S.meaning rvg.new.shelf) }
    ensures moves { MovesOn rvg.old.core (S.meaning rvg.old.shelf) (S.meaning rvg.new.shelf) }
{
    let answer = rvg.apply(to);
    if rvg.shelf.is_down() {
        return Err(No::Down);
    }
    answer
}

// Gives up what the log holds up to a number that is in the volumes, and that no link needs. A shelf that is down behind it answers so.
fn reclaim_group<S: Shelf>(rvg: &mut Rvg<S>, to: u64) -> Result<(), No>
    requires applied { to ≤ rvg.old.core.applied }
    ensures made { (beside : KeptBeside) (n : Node) → IsUpAt beside n rvg.old.core (S.meaning rvg.old.shelf) → n.halted ≡ None → NoneNeeds beside.links to
        → free_of rvg.old.core.log ≤ MOST_CALL_BLOCKS → RoomIs beside n (S.meaning rvg.old.shelf) rvg.new.core (S.meaning rvg.new.shelf) result }
    ensures room { (beside : KeptBeside) (n : Node) (count : ℕ) → IsUpAt beside n rvg.old.core (S.meaning rvg.old.shelf) → n.halted ≡ None → NoneNeeds beside.links to
        → free_of rvg.old.core.log ≤ MOST_CALL_BLOCKS → count + 1 + logged_blocks (drop to n.log) ≤ n.ring → OnOk result (count < free_of rvg.new.core.log) }
    ensures takes { TakesOne rvg.old.core rvg.new.core result }
    ensures units { rvg.new.core.units ≡ rvg.old.core.units }
    ensures group { IsMore 0 rvg.old.core rvg.new.core }
    ensures spends { Spends (S.meaning rvg.old.shelf) (S.meaning rvg.new.shelf) }
    ensures off { OffIf result (S.meaning rvg.new.shelf).down }
    ensures blames { IfErr result (BlamesRack (S.meaning rvg.old.shelf).disks rvg.old.core.units) }
    ensures later { LaterOn (S.meaning rvg.old.shelf) (S.meaning rvg.new.shelf) }
    ensures moves { MovesOn rvg.old.core (S.meaning rvg.old.shelf) (S.meaning rvg.new.shelf) }
{
    // Numbers are above 0.
    let _ring = rvg.ring();
    let answer = rvg.reclaim(to);
    if rvg.shelf.is_down() {
        return Err(No::Down);
    }
    answer
}

// Makes room in the log for a write of so many blocks: what it holds up to a number that no link needs is applied, and then given up.
fn make_room<S: Shelf>(rvg: &mut Rvg<S>, count: u64, hold: u64) -> Result<(), No>
    ensures room { OnOk result (count < free_of rvg.new.core.log) }
    ensures made { (beside : KeptBeside) (n : Node) → IsUpAt beside n rvg.old.core (S.meaning rvg.old.shelf) → n.halted ≡ None → HasRoom beside.links n hold count
        → count ≤ MOST_CALL_BLOCKS → RoomIs beside n (S.meaning rvg.old.shelf) rvg.new.core (S.meaning rvg.new.shelf) result }
    ensures idle { count < free_of rvg.old.core.log → IfErr result (λ no. ⊥) × (rvg.new ≡ rvg.old) }
    ensures takes { TakesOne rvg.old.core rvg.new.core result }
    ensures units { rvg.new.core.units ≡ rvg.old.core.units }
    ensures group { IsMore 0 rvg.old.core rvg.new.core }
    ensures spends { Spends (S.meaning rvg.old.shelf) (S.meaning rvg.new.shelf) }
    ensures off { IsFalse (S.meaning rvg.old.shelf).down → OffIf result (S.meaning rvg.new.shelf).down }
    ensures blames { IfErr result (BlamesRack (S.meaning rvg.old.shelf).disks rvg.old.core.units) }
    ensures later { LaterOn (S.meaning rvg.old.shelf) (S.meaning rvg.new.shelf) }
    ensures moves { MovesOn rvg.old.core (S.meaning rvg.old.shelf) (S.meaning rvg.new.shelf) }
{
    if rvg.free() > count {
        return Ok(());
    }
    apply_group(rvg, hold)?;
    let to = hold.min(rvg.applied());
    reclaim_group(rvg, to)?;
    if rvg.free() > count {
        Ok(())
    } else {
        Err(No::Size)
    }
}

// Writes whole blocks to a volume of a group whose links need no number up to this one. A shelf that is down behind it answers so.
pub(crate) fn write_group<S: Shelf>(
    rvg: &mut Rvg<S>,
    volume: u32,
    start: u64,
    bytes: &[u8],
    hold: u64,
) -> Result<u64, No>
    requires volume { volume < length rvg.old.core.units.vols }
    requires some { 0 < length bytes.now }
    requires few { length bytes.now ≤ MOST_CALL_BYTES }
    requires whole { length bytes.now % BLOCK ≡ 0 }
    ensures wrote { (beside : KeptBeside) (n : Node) → IsUpAt beside n rvg.old.core (S.meaning rvg.old.shelf) → CanLog n volume start (blocks_in bytes.now) → HasRoom beside.links n hold (blocks_in bytes.now)
        → LoggedAs beside n (record { volume = volume; start = start; bytes = bytes.now }) (S.meaning rvg.old.shelf) rvg.new.core (S.meaning rvg.new.shelf) result }
    ensures takes { TakesOne rvg.old.core rvg.new.core result }
    ensures group { IsMore (logged_count result) rvg.old.core rvg.new.core }
    ensures spends { Spends (S.meaning rvg.old.shelf) (S.meaning rvg.new.shelf) }
    ensures off { IsFalse (S.meaning rvg.old.shelf).down → OffIf result (S.meaning rvg.new.shelf).down }
    ensures called { (beside : KeptBeside) (n : Node) → IsUpAt beside n rvg.old.core (S.meaning rvg.old.shelf) → n.group ≡ None → BurnsOn IsLogged (said_by result) (S.meaning rvg.old.shelf) (S.meaning rvg.new.shelf) }
    ensures cuts { IsFalse (S.meaning rvg.old.shelf).down → blocks_in bytes.now < free_of rvg.old.core.log → BodyFits rvg.old.core.log bytes.now → result ≡ Err IsOff → RackIsShort 4 (S.meaning rvg.old.shelf).disks }
    ensures blames { IfErr result (BlamesRack (S.meaning rvg.old.shelf).disks rvg.old.core.units) }
    ensures later { LaterOn (S.meaning rvg.old.shelf) (S.meaning rvg.new.shelf) }
    ensures moves { MovesOn rvg.old.core (S.meaning rvg.old.shelf) (S.meaning rvg.new.shelf) }
{
    if rvg.head() >= MOST_NUMBER {
        return Err(No::Limit {
            what: Counted::Number,
            most: MOST_NUMBER,
        });
    }
    make_room(rvg, (bytes.len() / BLOCK) as u64, hold)?;
    // Numbers are above 0.
    let _ring = rvg.ring();
    let answer = rvg.write(volume, start, bytes, 0);
    if rvg.shelf.is_down() {
        return Err(No::Down);
    }
    answer
}

impl<R: Rack> DiskSet<R> {
    ghost use Rattle.vx_diskset.specs.DiskSets.{CanRead, CanApply, ReadAt, WroteAt, AppliedUp, AppliedAt, CrashedAt};
    ghost use Rattle.vx_diskset.specs.Asked.{LeavesAlone, MayCrash};
    ghost use Rattle.vx_diskset.specs.Stands.{CutAt, InVolumes, IsToldAt};

    /// Crashes the disks of a group whose shelf is down.
    pub(crate) fn fall(&mut self)
        ensures falls { (beside : KeptBeside) (n : Node) → CutAt beside n self.old → CrashedAt beside n self.new }
        ensures stopped { MayCrash 0xffff_ffff_ffff_ffff self.old self.new }
        ensures seen { IsToldAt self.new → IsToldAt self.old }
        ensures role { KeepsRole self.old self.new }
        ensures fallen { OversFall self.old self.new }
        ensures later { Later self.old self.new }
    {
        let disk_set = mem::replace(self, DiskSet::Gone);
        put_back(self, disk_set.crash(u64::MAX));
    }

    /// Writes whole blocks to a data volume of a site without links. What the log holds may be given up for it.
    pub fn write(&mut self, volume: u32, start: u64, bytes: &[u8]) -> Result<u64, No>
        requires some { 0 < length bytes.now }
        requires few { length bytes.now ≤ MOST_CALL_BYTES }
        requires whole { length bytes.now % BLOCK ≡ 0 }
        ensures wrote { (n : Node) → StandsAlone n self.old → CanWrite n volume start (blocks_in bytes.now)
            → WroteAt site_alone n (record { volume = volume; start = start; bytes = bytes.now }) self.old self.new result }
        ensures called { (beside : KeptBeside) (n : Node) → SiteStands beside n self.old → IsRawSet self.old → WritesUnder bytes.now (said_by result) self.old self.new }
        ensures blames { (beside : KeptBeside) (n : Node) → SiteStands beside n self.old → IfErr result (BlamesSite n) }
        ensures notes { NotesOn self.old self.new }
        ensures later { Later self.old self.new }
    {
        let hold = self.last();
        self.write_keeping(volume, start, bytes, hold)
    }

    /// Writes whole blocks to a data volume, by its number, and keeps in the log what it holds above the number `hold`, which links may need.
    /// Answers the number of the write. A site whose fuse runs out crashes. Refusals: 19 where no number is left, 7 where a disk failed, and
    /// 6 where the fuse ran out.
    pub fn write_keeping(
        &mut self,
        volume: u32,
        start: u64,
        bytes: &[u8],
        hold: u64,
    ) -> Result<u64, No>
        requires some { 0 < length bytes.now }
        requires few { length bytes.now ≤ MOST_CALL_BYTES }
        requires whole { length bytes.now % BLOCK ≡ 0 }
        ensures wrote { (beside : KeptBeside) (n : Node) → SiteStands beside n self.old → CanWrite n volume start (blocks_in bytes.now) → HasRoom beside.links n hold (blocks_in bytes.now)
            → WroteAt beside n (record { volume = volume; start = start; bytes = bytes.now }) self.old self.new result }
        ensures called { (beside : KeptBeside) (n : Node) → SiteStands beside n self.old → IsRawSet self.old → WritesUnder bytes.now (said_by result) self.old self.new }
        ensures role { KeepsRole self.old self.new }
        ensures blames { (beside : KeptBeside) (n : Node) → SiteStands beside n self.old → IfErr result (BlamesSite n) }
        ensures notes { NotesOn self.old self.new }
        ensures later { Later self.old self.new }
    {
        match self.write_up(volume, start, bytes, hold) {
            Ok(number) => Ok(number),
            Err(no) => {
                if is_off(&no) {
                    self.fall();
                    return Err(no);
                }
                Err(no)
            }
        }
    }

    // The same, before it crashes.
    #[tactic(auto, using(crate::proofs::MakeGroup::up_volumes))]
    fn write_up(&mut self, volume: u32, start: u64, bytes: &[u8], hold: u64) -> Result<u64, No>
        requires some { 0 < length bytes.now }
        requires few { length bytes.now ≤ MOST_CALL_BYTES }
        requires whole { length bytes.now % BLOCK ≡ 0 }
        ensures wrote { (beside : KeptBeside) (n : Node) → SiteStands beside n self.old → CanWrite n volume start (blocks_in bytes.now) → HasRoom beside.links n hold (blocks_in bytes.now)
            → WroteUp beside n (record { volume = volume; start = start; bytes = bytes.now }) self.old self.new result }
        ensures called { (beside : KeptBeside) (n : Node) → SiteStands beside n self.old → IsRawSet self.old → WritesUnder bytes.now (said_by result) self.old self.new }
        ensures role { KeepsRole self.old self.new }
        ensures blames { (beside : KeptBeside) (n : Node) → SiteStands beside n self.old → IfErr result (BlamesSite n) }
        ensures overs { OversCalled self.old self.new result }
        ensures later { Later self.old self.new }
    {
        match self {
            DiskSet::Up(rvg) => {
                if volume < rvg.volumes() {
                    write_group(rvg, volume, start, bytes, hold)
                } else {
                    Err(No::Role)
                }
            }
            DiskSet::Over(over) => over.write(volume, start, bytes, hold),
            DiskSet::Bare(_)
            | DiskSet::Spoiled(_)
            | DiskSet::Receives(_)
            | DiskSet::Down(_)
            | DiskSet::OfGroup(_)
            | DiskSet::Gone => Err(No::Role),
        }
    }

    /// Reads whole blocks of a data volume, by its number: the content after the writes that are durable.
    #[tactic(auto, using(crate::proofs::MakeGroup::up_volumes, crate::proofs::Receiving::receiver_volumes))]
    pub fn read(&mut self, volume: u32, start: u64, into: &mut [u8]) -> Result<(), No>
        requires some { 0 < length into.old }
        requires few { length into.old ≤ MOST_CALL_BYTES }
        requires whole { length into.old % BLOCK ≡ 0 }
        ensures read { (beside : KeptBeside) (n : Node) → SiteStands beside n self.old → CanRead n volume start (blocks_in into.old)
            → ReadAt beside n volume start (blocks_in into.old) into.new self.old self.new result }
        ensures still { IsRawSet self.old → LeavesAlone self.old self.new }
        ensures role { KeepsRole self.old self.new }
        ensures notes { NotesOn self.old self.new }
        ensures later { Later self.old self.new }
    {
        match self {
            DiskSet::Up(rvg) => {
                if volume < rvg.volumes() {
                    rvg.read(volume, start, into)
                } else {
                    Err(No::Role)
                }
            }
            DiskSet::Receives(site) => {
                if volume < site.rvg.volumes() {
                    site.rvg.read(volume, start, into)
                } else {
                    Err(No::Role)
                }
            }
            DiskSet::Over(over) => over.read(volume, start, into),
            DiskSet::Bare(_)
            | DiskSet::Spoiled(_)
            | DiskSet::Down(_)
            | DiskSet::OfGroup(_)
            | DiskSet::Gone => Err(No::Role),
        }
    }

    /// Brings the logged writes up to a number into their volumes. Answers the number up to which all are there now. A site whose fuse
    /// runs out crashes.
    pub fn apply(&mut self, to: u64) -> Result<u64, No>
        ensures applied { (beside : KeptBeside) (n : Node) → SiteStands beside n self.old → CanApply n → is_over_group n ≡ false → AppliedAt beside n to self.old self.new result }
        ensures brought { IfOk result (λ number. InVolumes number self.new) }
        ensures called { (beside : KeptBeside) (n : Node) → SiteStands beside n self.old → IsRawSet self.old → LeavesFuse NoMore (said_by result) self.old self.new }
        ensures role { KeepsRole self.old self.new }
        ensures blames { (beside : KeptBeside) (n : Node) → SiteStands beside n self.old → IfErr result (BlamesSite n) }
        ensures notes { NotesOn self.old self.new }
        ensures later { Later self.old self.new }
    {
        match self.apply_up(to) {
            Ok(number) => Ok(number),
            Err(no) => {
                if is_off(&no) {
                    self.fall();
                    return Err(no);
                }
                Err(no)
            }
        }
    }

    // The same, before it crashes.
    fn apply_up(&mut self, to: u64) -> Result<u64, No>
        ensures applied { (beside : KeptBeside) (n : Node) → SiteStands beside n self.old → CanApply n → is_over_group n ≡ false → AppliedUp beside n to self.old self.new result }
        ensures brought { IfOk result (λ number. InVolumes number self.new) }
        ensures called { (beside : KeptBeside) (n : Node) → SiteStands beside n self.old → IsRawSet self.old → LeavesFuse NoMore (said_by result) self.old self.new }
        ensures role { KeepsRole self.old self.new }
        ensures blames { (beside : KeptBeside) (n : Node) → SiteStands beside n self.old → IfErr result (BlamesSite n) }
        ensures overs { OversCalled self.old self.new result }
        ensures later { Later self.old self.new }
    {
        match self {
            DiskSet::Up(rvg) => apply_group(rvg, to),
            DiskSet::Receives(site) => apply_group(&mut site.rvg, to),
            DiskSet::Over(over) => over.apply(to),
            DiskSet::Bare(_)
            | DiskSet::Spoiled(_)
            | DiskSet::Down(_)
            | DiskSet::OfGroup(_)
            | DiskSet::Gone => Err(No::Role),
        }
    }
}
