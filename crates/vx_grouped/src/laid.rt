// A group that is up on the disks of a site.
ghost use Rattle.std.specs.Prelude.{◌≡◌, ◌≢◌, ◌<◌, ℕ, IsTrue, Some, true};
ghost use Rattle.vx_loggroup.specs.Facts.{LoggedFact};
ghost use Rattle.vx_loggroup.specs.Fresh.{FreshStands};
ghost use Rattle.vx_loggroup.specs.Settled.{SettledFact};
ghost use Rattle.vx_untold.specs.Shades.{shade_meaning};

use crate::Idle;
use crate::racking::{crash_laid, fail_laid, fuse_laid};
use std::marker::Brand;
use vx_config::{Config, encode_into, is_short};
use vx_disk::{Rack, Shelf};
use vx_group::GroupCore;
use vx_loggroup::{LoggedGroup, Opened};
use vx_logs::Logs;
use vx_model::limits::{BLOCK, MOST_CONFIG_BYTES, MOST_VOLUMES};
use vx_untold::Shade;

/// A group by its parts, over disks of which the contents are told or not.
#[derive(Drop)]
pub struct Laid<R: Rack> {
    pub shelf: Shade<R>,
    pub core: GroupCore,
    /// Of each volume its logs.
    pub logs: Vec<Logs>,
    /// Of each volume whether its plexes are alike.
    pub alike: [bool; MOST_VOLUMES],
    /// Of each volume whether its logs may begin.
    pub fresh: [bool; MOST_VOLUMES],
    /// Logs are stopped, as no serial is left to commit that one is lost.
    pub stopped: bool,
    pub ghost stands: { LoggedFact core logs.items alike stopped (shade_meaning (λ s. R.meaning s) shelf) },
    pub ghost begins: { FreshStands core fresh (shade_meaning (λ s. R.meaning s) shelf) },
    pub ghost settles: { SettledFact core alike (shade_meaning (λ s. R.meaning s) shelf) },
}

impl<R: Rack> Laid<R> {
    ghost use Rattle.vx_config.specs.Checks.{is_sound};
    ghost use Rattle.vx_config.specs.Configs.{HasSpelling};
    ghost use Rattle.vx_disk.specs.Causes.{OnDisks, WithDisks};
    ghost use Rattle.vx_disk.specs.Disks.{Crashed, SameBlocks, Untouched};
    ghost use Rattle.vx_disk.specs.Racks.{Alike, Stopped};
    ghost use Rattle.vx_disk.specs.Shelf.{Fits};
    ghost use Rattle.vx_group.specs.Holding.{wide};
    ghost use Rattle.vx_group.specs.Settles.{LacksCommit};
    ghost use Rattle.vx_group.specs.Stands.{inner_meaning};
    ghost use Rattle.vx_grouped.specs.GroupNotes.{GroupLies};
    ghost use Rattle.vx_grouped.specs.Away.{IsAwayAt};
    ghost use Rattle.vx_grouped.specs.GroupSites.{FitsPlain};
    ghost use Rattle.vx_grouped.specs.Plain.{HoldsPlain};
    ghost use Rattle.vx_grouped.specs.PlainMaps.{PartsNoted, map_parts};
    ghost use Rattle.vx_grouped.specs.SiteMaps.{DiskMaps, RestsNot};
    ghost use Rattle.vx_history.specs.Groups.{GroupNode, MissedNote};
    ghost use Rattle.vx_history.specs.World.{Node};
    ghost use Rattle.vx_logimport.specs.declared.rested.Rested.{Rested as RestedValue};
    ghost use Rattle.vx_model.specs.declared.site.SiteState.TheVariants.{Down as DownState};
    ghost use Rattle.vx_untold.specs.Shades.{rack_of};
    ghost use Rattle.vx_watched.specs.Traces.{TellsLess};

    /// The parts of a group. It makes no device call.
    pub fn of(group: LoggedGroup<Shade<R>>) -> Laid<R>
        ensures shelf { result.shelf ≡ group.shelf }
        ensures core { result.core ≡ group.core }
        ensures logs { result.logs ≡ group.logs }
        ensures alike { result.alike ≡ group.alike }
        ensures fresh { result.fresh ≡ group.fresh }
        ensures stopped { result.stopped ≡ group.stopped }
    {
        let (shelf, rest) = group.apart();
        let Opened {
            core,
            logs,
            alike,
            fresh,
            stopped,
        } = rest;
        Laid {
            shelf,
            core,
            logs,
            alike,
            fresh,
            stopped,
        }
    }

    /// The group. It makes no device call.
    pub fn together(self) -> LoggedGroup<Shade<R>>
        ensures shelf { result.shelf ≡ self.shelf }
        ensures core { result.core ≡ self.core }
        ensures logs { result.logs ≡ self.logs }
        ensures alike { result.alike ≡ self.alike }
        ensures fresh { result.fresh ≡ self.fresh }
        ensures stopped { result.stopped ≡ self.stopped }
    {
        LoggedGroup::together(
            self.shelf,
            Opened {
                core: self.core,
                logs: self.logs,
                alike: self.alike,
                fresh: self.fresh,
                stopped: self.stopped,
            },
        )
    }

    /// The configuration.
    pub fn config(&self) -> &Config
        ensures { result.now ≡ self.now.core.inner.config }
    {
        &self.core.inner.config
    }

    /// Its configuration is sound.
    pub fn sound(&self)
        ensures { is_sound self.now.core.inner.config ≡ true }
    {}

    /// How many volumes it has.
    pub fn units(&self) -> u32
        ensures { result ≡ (inner_meaning (wide self.now.core) (shade_meaning (λ s. R.meaning s) self.now.shelf)).units }
    {
        self.core.inner.config.volumes.as_slice().len() as u32
    }

    /// How many blocks a volume has.
    pub fn size(&self, unit: u32) -> u64
        requires { unit < (inner_meaning (wide self.now.core) (shade_meaning (λ s. R.meaning s) self.now.shelf)).units }
        ensures { result ≡ (inner_meaning (wide self.now.core) (shade_meaning (λ s. R.meaning s) self.now.shelf)).size unit }
    {
        self.core.inner.config.volumes.as_slice()[unit as usize].blocks
    }

    /// Whether so many bytes are whole blocks that lie in a volume.
    pub fn fits(&self, vol: u32, block: u64, count: usize) -> bool
        ensures is { IsTrue result → Fits (inner_meaning (wide self.now.core) (shade_meaning (λ s. R.meaning s) self.now.shelf)) vol block count }
        ensures all { (note : GroupNode) → HoldsPlain note (inner_meaning (wide self.now.core) (shade_meaning (λ s. R.meaning s) self.now.shelf)) → FitsPlain note vol block count → IsTrue result }
    {
        if vol >= self.units() {
            return false;
        }
        let size = self.size(vol);
        let blocks = (count / BLOCK) as u64;
        count > 0 && count % BLOCK == 0 && blocks <= size && block <= size - blocks
    }

    /// Whether the disks are down.
    pub fn is_down(&self) -> bool
        ensures { result ≡ (shade_meaning (λ s. R.meaning s) self.now.shelf).down }
    {
        self.shelf.is_down()
    }

    /// Its configuration is spelled in bytes, and so it can be read back from them.
    pub fn spelled(&self)
        ensures { HasSpelling self.now.core.inner.config }
    {
        let config = &self.core.inner.config;
        let mut page = [0; MOST_CONFIG_BYTES];
        is_short(config);
        encode_into(config, &mut page);
    }

    /// Makes each later call on a disk fail, or ends that.
    pub fn fail(self, disk: u32, on: bool) -> Laid<R>
        requires { disk < (shade_meaning (λ s. R.meaning s) self.shelf).units }
        ensures core { result.core ≡ self.core }
        ensures logs { result.logs ≡ self.logs }
        ensures flags { result.alike ≡ self.alike }
        ensures fresh { result.fresh ≡ self.fresh }
        ensures ended { result.stopped ≡ self.stopped }
        ensures alike { Alike (shade_meaning (λ s. R.meaning s) self.shelf) (shade_meaning (λ s. R.meaning s) result.shelf) }
        ensures down { (shade_meaning (λ s. R.meaning s) result.shelf).down ≡ (shade_meaning (λ s. R.meaning s) self.shelf).down }
        ensures armed { (shade_meaning (λ s. R.meaning s) result.shelf).armed ≡ (shade_meaning (λ s. R.meaning s) self.shelf).armed }
        ensures disks { WithDisks (shade_meaning (λ s. R.meaning s) self.shelf).disks (shade_meaning (λ s. R.meaning s) result.shelf).disks (λ o n. Untouched o n × (n.failing disk ≡ on) × ((u : ℕ) → u ≢ disk → n.failing u ≡ o.failing u)) }
        ensures volumes { Alike (inner_meaning (wide self.core) (shade_meaning (λ s. R.meaning s) self.shelf)) (inner_meaning (wide result.core) (shade_meaning (λ s. R.meaning s) result.shelf)) }
        ensures told { TellsLess (R.meaning (rack_of self.shelf)) (R.meaning (rack_of result.shelf)) }
    {
        fail_laid::<Brand, R>(self, disk, on)
    }

    /// Lets that many writes and flushes of the disks pass; the next is a crash.
    pub fn fuse(self, calls: u64, pick: u64) -> Laid<R>
        ensures core { result.core ≡ self.core }
        ensures logs { result.logs ≡ self.logs }
        ensures flags { result.alike ≡ self.alike }
        ensures fresh { result.fresh ≡ self.fresh }
        ensures ended { result.stopped ≡ self.stopped }
        ensures alike { Alike (shade_meaning (λ s. R.meaning s) self.shelf) (shade_meaning (λ s. R.meaning s) result.shelf) }
        ensures down { (shade_meaning (λ s. R.meaning s) result.shelf).down ≡ (shade_meaning (λ s. R.meaning s) self.shelf).down }
        ensures disks { OnDisks (shade_meaning (λ s. R.meaning s) self.shelf).disks (shade_meaning (λ s. R.meaning s) result.shelf).disks (λ o n. SameBlocks o n × (n.fuse ≡ Some (calls, pick))) }
        ensures volumes { Alike (inner_meaning (wide self.core) (shade_meaning (λ s. R.meaning s) self.shelf)) (inner_meaning (wide result.core) (shade_meaning (λ s. R.meaning s) result.shelf)) }
        ensures told { TellsLess (R.meaning (rack_of self.shelf)) (R.meaning (rack_of result.shelf)) }
    {
        fuse_laid::<Brand, R>(self, calls, pick)
    }

    /// Crashes the disks, up or down, and hands them out, with whether imports of them agree.
    pub fn crash(self, pick: u64) -> Idle<R>
        ensures away { (n : Node) (note : GroupNode) → GroupLies n note self.core (shade_meaning (λ s. R.meaning s) self.shelf) → IsAwayAt (record n { state = DownState }) note self.core.inner.config (shade_meaning (λ s. R.meaning s) result.rack) }
        ensures stopped { Stopped (shade_meaning (λ s. R.meaning s) self.shelf) (shade_meaning (λ s. R.meaning s) result.rack) }
        ensures agreed { result.agreed ≡ self.core.inner.agreed }
        ensures disks { OnDisks (shade_meaning (λ s. R.meaning s) self.shelf).disks (shade_meaning (λ s. R.meaning s) result.rack).disks (Crashed (shade_meaning (λ s. R.meaning s) self.shelf).size pick) }
        ensures maps { (w : MissedNote) → PartsNoted w (map_parts self.core.inner.config self.logs.items self.alike self.stopped) → DiskMaps w self.core.inner.config (shade_meaning (λ s. R.meaning s) result.rack) }
        ensures rests { RestsNot result.rested }
        ensures lacking { (r : RestedValue) → result.rested ≡ Some r → LacksCommit self.core.inner → ⊥ }
        ensures told { TellsLess (R.meaning (rack_of self.shelf)) (R.meaning (rack_of result.rack)) }
    {
        crash_laid::<Brand, R>(self, pick)
    }
}
