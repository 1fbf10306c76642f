// Calls on the disks of a site that receives.
ghost use Rattle.std.specs.Prelude.{◌≡◌, ◌≤◌, ◌<◌, ◌+◌, ◌-◌, ◌*◌, ◌%◌, [], ℕ, drop, length, take, true, None, Some, Err, IfOk, IfErr, OnOk, IsFalse, List};
ghost use Rattle.vx_model.specs.Content.{blocks_in};
ghost use Rattle.vx_model.specs.declared.limits.TheConstants.{MOST_CALL_BYTES};
ghost use Rattle.vx_model.specs.declared.site.SiteState.TheVariants.{Up as UpState};
ghost use Rattle.vx_history.specs.World.{Node};
ghost use Rattle.vx_disk.specs.Spends.{Spends};
ghost use Rattle.vx_secondary.specs.Receivers.{Wait};
ghost use Rattle.vx_diskset.specs.Asked.{IsRawSet, LeavesAlone, LeavesFuse};
ghost use Rattle.vx_diskset.specs.Blames.{BlamesSite};
ghost use Rattle.vx_diskset.specs.Burning.{NoMore, OffIf};
ghost use Rattle.vx_diskset.specs.DiskSets.{CanRead, Later};
ghost use Rattle.vx_diskset.specs.Holds.{KeptBeside};
ghost use Rattle.vx_diskset.specs.Received.{CanReceive, LoggedTo, ReachedAt, ReachedTo, ReachedUp, ShowedAt, reached_by};
ghost use Rattle.vx_diskset.specs.Rooms.{HasNumbers, IsMore, logged_count};
ghost use Rattle.vx_diskset.specs.Noted.{NotesOn};
ghost use Rattle.vx_diskset.specs.Shelves.{BlamesRack, LaterOn, MovesOn};
ghost use Rattle.vx_diskset.specs.Stands.{InVolumes, IsReceiverAt, KeepsRole, SiteStands};

use crate::DiskSet;
use crate::writing::{apply_group, write_group};
use vx_disk::{Rack, Shelf};
use vx_grouped::is_off;
use vx_model::limits::{BLOCK, MOST_NUMBER};
use vx_model::{Counted, No};
use vx_rvg::Rvg;
use vx_secondary::Waiting;

/// How far an apply of what waits came, and whether that is to be acknowledged.
#[derive(Clone, Copy)]
pub struct Reached {
    pub number: u64,
    pub acks: bool,
}

// Logs the oldest of what waits behind a group. It waits no longer.
fn log_next<S: Shelf>(rvg: &mut Rvg<S>, waiting: &mut Waiting) -> Result<(), No>
    requires waits { Wait rvg.old.core (S.meaning rvg.old.shelf).size waiting.old }
    requires some { 0 < length waiting.old }
    requires numbers { HasNumbers rvg.old.core 1 }
    ensures logs { (beside : KeptBeside) (n : Node) → IsReceiverAt beside n rvg.old.core waiting.old (S.meaning rvg.old.shelf) → CanReceive beside n
        → LoggedTo beside n 1 waiting.new rvg.new.core (S.meaning rvg.old.shelf) (S.meaning rvg.new.shelf) result }
    ensures left { waiting.new ≡ drop (logged_count result) waiting.old }
    ensures stamp { OnOk result (rvg.new.core.log.header.stamp ≤ rvg.old.core.log.header.stamp + 1) }
    ensures group { IsMore (logged_count result) rvg.old.core rvg.new.core }
    ensures spends { Spends (S.meaning rvg.old.shelf) (S.meaning rvg.new.shelf) }
    ensures off { IsFalse (S.meaning rvg.old.shelf).down → OffIf result (S.meaning rvg.new.shelf).down }
    ensures blames { IfErr result (BlamesRack (S.meaning rvg.old.shelf).disks rvg.old.core.units) }
    ensures later { LaterOn (S.meaning rvg.old.shelf) (S.meaning rvg.new.shelf) }
    ensures moves { MovesOn rvg.old.core (S.meaning rvg.old.shelf) (S.meaning rvg.new.shelf) }
{
    let Some(update) = waiting.get(0) else {
        unreachable!()
    };
    let last = rvg.head();
    let bytes = update.bytes.as_bytes();
    write_group(rvg, update.vol, update.block, bytes, last)?;
    waiting.pop();
    Ok(())
}

// Logs the oldest of what waits behind a group, so many of them, in their order. They wait no longer.
fn log_waiting<S: Shelf>(rvg: &mut Rvg<S>, waiting: &mut Waiting, count: u32) -> Result<(), No>
    requires waits { Wait rvg.old.core (S.meaning rvg.old.shelf).size waiting.old }
    requires some { count ≤ length waiting.old }
    requires numbers { HasNumbers rvg.old.core count }
    ensures logs { (beside : KeptBeside) (n : Node) → IsReceiverAt beside n rvg.old.core waiting.old (S.meaning rvg.old.shelf) → CanReceive beside n
        → LoggedTo beside n count waiting.new rvg.new.core (S.meaning rvg.old.shelf) (S.meaning rvg.new.shelf) result }
    ensures waits { Wait rvg.new.core (S.meaning rvg.new.shelf).size waiting.new }
    ensures spends { Spends (S.meaning rvg.old.shelf) (S.meaning rvg.new.shelf) }
    ensures off { IsFalse (S.meaning rvg.old.shelf).down → OffIf result (S.meaning rvg.new.shelf).down }
    ensures blames { IfErr result (BlamesRack (S.meaning rvg.old.shelf).disks rvg.old.core.units) }
    ensures units { rvg.new.core.units ≡ rvg.old.core.units }
    ensures later { LaterOn (S.meaning rvg.old.shelf) (S.meaning rvg.new.shelf) }
    ensures moves { MovesOn rvg.old.core (S.meaning rvg.old.shelf) (S.meaning rvg.new.shelf) }
{
    for _ in 0..count {
        log_next(rvg, waiting)?;
    }
    Ok(())
}

// Logs the oldest of what waits behind a group, so many of them, and brings all that is logged into the volumes.
pub(crate) fn apply_oldest<S: Shelf>(
    rvg: &mut Rvg<S>,
    waiting: &mut Waiting,
    count: u32,
) -> Result<Reached, No>
    requires waits { Wait rvg.old.core (S.meaning rvg.old.shelf).size waiting.old }
    requires some { count ≤ length waiting.old }
    requires numbers { HasNumbers rvg.old.core count }
    ensures reaches { (beside : KeptBeside) (n : Node) → IsReceiverAt beside n rvg.old.core waiting.old (S.meaning rvg.old.shelf) → CanReceive beside n
        → ReachedTo beside n count waiting.new rvg.new.core (S.meaning rvg.old.shelf) (S.meaning rvg.new.shelf) result }
    ensures brought { (beside : KeptBeside) (n : Node) → IsReceiverAt beside n rvg.old.core waiting.old (S.meaning rvg.old.shelf) → CanReceive beside n → IfOk result (λ r. rvg.new.core.applied ≡ r.number) }
    ensures waits { Wait rvg.new.core (S.meaning rvg.new.shelf).size waiting.new }
    ensures spends { Spends (S.meaning rvg.old.shelf) (S.meaning rvg.new.shelf) }
    ensures off { IsFalse (S.meaning rvg.old.shelf).down → OffIf result (S.meaning rvg.new.shelf).down }
    ensures blames { IfErr result (BlamesRack (S.meaning rvg.old.shelf).disks rvg.old.core.units) }
    ensures units { rvg.new.core.units ≡ rvg.old.core.units }
    ensures later { LaterOn (S.meaning rvg.old.shelf) (S.meaning rvg.new.shelf) }
    ensures moves { MovesOn rvg.old.core (S.meaning rvg.old.shelf) (S.meaning rvg.new.shelf) }
{
    log_waiting(rvg, waiting, count)?;
    let number = rvg.head();
    apply_group(rvg, number)?;
    Ok(Reached { number, acks: true })
}

impl<R: Rack> DiskSet<R> {
    /// How many writes a site that is up and runs has received, of all of its line: those that wait are among them.
    pub fn received(&self) -> u64
        ensures { (beside : KeptBeside) (n : Node) → SiteStands beside n self.now → n.state ≡ UpState → n.halted ≡ None → result ≡ length n.log }
    {
        match self {
            DiskSet::Up(rvg) => rvg.head(),
            DiskSet::Receives(site) => {
                // For its bound.
                let _ring = site.rvg.ring();
                site.rvg.head() + u64::from(site.waiting.len())
            }
            DiskSet::Over(over) => over.received(),
            _ => 0,
        }
    }

    /// How many of them wait in memory.
    pub fn waiting(&self) -> u32
        ensures { (beside : KeptBeside) (n : Node) → SiteStands beside n self.now → n.state ≡ UpState → n.halted ≡ None → result ≡ length n.log - n.safe }
    {
        match self {
            DiskSet::Receives(site) => site.waiting.len(),
            DiskSet::Over(over) => over.waiting(),
            _ => 0,
        }
    }

    /// Reads whole blocks of a data volume, by its number: the content after all writes that were received.
    #[tactic(auto, using(crate::proofs::MakeGroup::up_volumes, crate::proofs::Receiving::receiver_volumes))]
    pub fn show(&mut self, volume: u32, start: u64, into: &mut [u8]) -> Result<(), No>
        requires some { 0 < length into.old }
        requires few { length into.old ≤ MOST_CALL_BYTES }
        requires whole { length into.old % BLOCK ≡ 0 }
        ensures shows { (beside : KeptBeside) (n : Node) → SiteStands beside n self.old → CanRead n volume start (blocks_in into.old)
            → ShowedAt beside n volume start (blocks_in into.old) into.new self.old self.new result }
        ensures still { IsRawSet self.old → LeavesAlone self.old self.new }
        ensures role { KeepsRole self.old self.new }
        ensures notes { NotesOn self.old self.new }
        ensures later { Later self.old self.new }
    {
        match self {
            DiskSet::Receives(site) => {
                if volume < site.rvg.volumes() {
                    site.show(volume, start, into)
                } else {
                    Err(No::Role)
                }
            }
            DiskSet::Up(_) => self.read(volume, start, into),
            DiskSet::Over(over) => over.show(volume, start, into),
            DiskSet::Bare(_)
            | DiskSet::Spoiled(_)
            | DiskSet::Down(_)
            | DiskSet::OfGroup(_)
            | DiskSet::Gone => Err(No::Role),
        }
    }

    /// Logs the oldest of what waits at a site that receives, so many of them or all, durably and in their order, and brings all that is logged
    /// into the volumes. Answers the number up to which all are there, and whether that is to be acknowledged. A site whose fuse runs out
    /// crashes.
    ///
    /// Refusals: 19 where no number is left for one of them, which changes nothing; 7 where a disk failed: then the site is halted, and may
    /// have some of them in its log; 6 where its fuse ran out.
    pub fn apply_waiting(&mut self, count: u64) -> Result<Reached, No>
        ensures applied { (beside : KeptBeside) (n : Node) → SiteStands beside n self.old → IsRawSet self.old → CanReceive beside n → ReachedAt beside n count self.old self.new result }
        ensures brought { (beside : KeptBeside) (n : Node) → SiteStands beside n self.old → CanReceive beside n → IfOk result (λ r. r.acks ≡ true → InVolumes r.number self.new) }
        ensures called { (beside : KeptBeside) (n : Node) → SiteStands beside n self.old → LeavesFuse NoMore (reached_by result) self.old self.new }
        ensures role { KeepsRole self.old self.new }
        ensures blames { (beside : KeptBeside) (n : Node) → SiteStands beside n self.old → IfErr result (BlamesSite n) }
        ensures later { Later self.old self.new }
    {
        match self.apply_received(count) {
            Ok(reached) => Ok(reached),
            Err(no) => {
                if is_off(&no) {
                    self.fall();
                    return Err(no);
                }
                Err(no)
            }
        }
    }

    // The same, before it crashes.
    fn apply_received(&mut self, count: u64) -> Result<Reached, No>
        ensures applied { (beside : KeptBeside) (n : Node) → SiteStands beside n self.old → IsRawSet self.old → CanReceive beside n → ReachedUp beside n count self.old self.new result }
        ensures brought { (beside : KeptBeside) (n : Node) → SiteStands beside n self.old → CanReceive beside n → IfOk result (λ r. r.acks ≡ true → InVolumes r.number self.new) }
        ensures called { (beside : KeptBeside) (n : Node) → SiteStands beside n self.old → LeavesFuse NoMore (reached_by result) self.old self.new }
        ensures role { KeepsRole self.old self.new }
        ensures blames { (beside : KeptBeside) (n : Node) → SiteStands beside n self.old → IfErr result (BlamesSite n) }
        ensures later { Later self.old self.new }
    {
        match self {
            DiskSet::Receives(site) => {
                let few = count.min(u64::from(site.waiting.len())) as u32;
                if few == 0 {
                    return Ok(Reached {
                        number: site.rvg.head(),
                        acks: false,
                    });
                }
                if !site.rvg.has_numbers(u64::from(few)) {
                    return Err(No::Limit {
                        what: Counted::Number,
                        most: MOST_NUMBER,
                    });
                }
                apply_oldest(&mut site.rvg, &mut site.waiting, few)
            }
            DiskSet::Up(rvg) => Ok(Reached {
                number: rvg.head(),
                acks: false,
            }),
            DiskSet::Over(_) => Err(No::Role),
            DiskSet::Bare(_)
            | DiskSet::Spoiled(_)
            | DiskSet::Down(_)
            | DiskSet::OfGroup(_)
            | DiskSet::Gone => Err(No::Role),
        }
    }
}
