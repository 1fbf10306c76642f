//! What the maps of missed regions say over a group's own calls: writes, plexes that are detached and attached, and what a deport leaves.
ghost use Rattle.std.specs.Prelude.{◌≡◌, ◌+◌, ◌/◌, ◌<◌, ◌≤◌, ℕ, Bool, IsTrue, Some, false, length};
ghost use Rattle.vx_config.specs.Checks.{blocks_of as blocks_of_is, is_sound};
ghost use Rattle.vx_config.specs.declared.config.Config.{Config as ConfigValue};
ghost use Rattle.vx_config.specs.declared.entry.LogEntry.{LogEntry as LogValue};
ghost use Rattle.vx_config.specs.declared.entry.VolumeLog.TheVariants.{Fmr as FmrLog};
ghost use Rattle.vx_disk.specs.Shelf.{Each, Image, Nothing};
ghost use Rattle.vx_fmr.specs.Missed.{Missed};
ghost use Rattle.vx_groupmaps.specs.Between.{AttachesPlex, Detaches, HasVolumeContent, NewlyIn, PlexesSettled, ReadsOr};
ghost use Rattle.vx_groupmaps.specs.Missing.{ActiveAgree, DiskAgrees, ImageAgrees, MapsCover, MapsCoverBy, by_map, or_run, or_set};
ghost use Rattle.vx_layout.specs.Places.{HasBlock};
ghost use Rattle.vx_logs.specs.Held.{InUse, LogsFit, LogsStand};
ghost use Rattle.vx_logs.specs.Writes.{first_region, last_region};
ghost use Rattle.vx_volume.specs.Copies.{OnCopy};
ghost use Rattle.vx_volume.specs.Plexes.{Inside, active};
ghost use Rattle.vx_volume.specs.Volumes.{OnPlexes};

use vx_config::Config;
use vx_disk::Shelf;
use vx_logs::Logs;
use vx_model::limits::BLOCK;

/// Behind a write the maps have each region in which a plex that goes by its map differs from the volume, but for the regions of the write,
/// which `mark_maps` then brings in. So it is of plexes that the write detached too, where all that were ACTIVE read the same before it; else
/// these are spared, and `fill_maps` fills their maps.
pub fn writes_leave_their_regions<S: Shelf>(
    logs: &Logs,
    config: &Config,
    vol: u32,
    before: &S,
    after: &S,
    block: u64,
    bytes: &[u8],
)
    requires checked { IsTrue (is_sound config.now) }
    requires volume { vol < length config.now.volumes }
    requires within { block + length bytes.now / BLOCK ≤ blocks_of_is config.now.volumes vol }
    requires reads { ReadsOr (OnPlexes config.now vol block (length bytes.now / BLOCK) bytes.now) (S.meaning before.now) (S.meaning after.now) }
    ensures sure { (d : ConfigValue) (spare : ℕ → ℕ → Bool) → Detaches config.now d vol → ActiveAgree config.now vol (λ r. false) (S.meaning before.now).reads → MapsCoverBy config.now vol spare logs.now (S.meaning before.now)
        → MapsCoverBy d vol (or_run (first_region block) (last_region block (length bytes.now / BLOCK)) spare) logs.now (S.meaning after.now) }
    ensures unsure { (d : ConfigValue) (spare : ℕ → ℕ → Bool) (set : ℕ) → Detaches config.now d vol → NewlyIn config.now d vol set → MapsCoverBy config.now vol spare logs.now (S.meaning before.now)
        → MapsCoverBy d vol (or_set set (or_run (first_region block) (last_region block (length bytes.now / BLOCK)) spare)) logs.now (S.meaning after.now) }
{}

/// A plex that is detached while all plexes that are ACTIVE read the same goes by the map that it has; else it is spared.
pub fn detached_plexes_go_by_their_maps<S: Shelf>(
    logs: &Logs,
    config: &Config,
    vol: u32,
    before: &S,
    after: &S,
)
    requires checked { IsTrue (is_sound config.now) }
    requires reads { ReadsOr Nothing (S.meaning before.now) (S.meaning after.now) }
    ensures sure { (d : ConfigValue) (spare : ℕ → ℕ → Bool) → Detaches config.now d vol → ActiveAgree config.now vol (λ r. false) (S.meaning before.now).reads → MapsCoverBy config.now vol spare logs.now (S.meaning before.now) → MapsCoverBy d vol spare logs.now (S.meaning after.now) }
    ensures unsure { (d : ConfigValue) (spare : ℕ → ℕ → Bool) (set : ℕ) → Detaches config.now d vol → NewlyIn config.now d vol set → MapsCoverBy config.now vol spare logs.now (S.meaning before.now) → MapsCoverBy d vol (or_set set spare) logs.now (S.meaning after.now) }
{}

/// Where a plex that was copied to has what the volume had, and is ACTIVE then, each other plex that goes by its map goes on to do so.
pub fn attached_plexes_leave_the_others<S: Shelf>(
    logs: &Logs,
    config: &Config,
    vol: u32,
    before: &S,
    after: &S,
    plex: u32,
)
    requires checked { IsTrue (is_sound config.now) }
    requires off { active config.now vol plex ≡ false }
    requires has { (b : ℕ) → Inside config.now vol b → HasBlock config.now vol plex b }
    requires reads { ReadsOr (OnCopy config.now vol plex) (S.meaning before.now) (S.meaning after.now) }
    ensures { (d : ConfigValue) (spare : ℕ → ℕ → Bool) → AttachesPlex config.now d vol plex → by_map d vol plex ≡ false → HasVolumeContent config.now vol plex (S.meaning before.now).reads (S.meaning after.now).reads → MapsCoverBy config.now vol spare logs.now (S.meaning before.now) → MapsCoverBy d vol spare logs.now (S.meaning after.now) }
{}

/// Where the plexes of a volume leave what they read, and its log stands, whatever a crash leaves agrees by the log; and so does each image.
pub fn settled_plexes_agree_on_disk<S: Shelf>(
    logs: &Logs,
    config: &Config,
    vol: u32,
    before: &S,
    after: &S,
)
    requires checked { IsTrue (is_sound config.now) }
    requires some { 0 < blocks_of_is config.now.volumes vol }
    requires fits { LogsFit config.now vol logs.now }
    requires whole { (e : LogValue) → InUse config.now vol FmrLog e → (f : Missed) × (logs.now.fmr ≡ Some f) }
    requires up { IsTrue (S.meaning before.now).down → ⊥ }
    ensures disk { PlexesSettled config.now vol logs.now (S.meaning before.now) (S.meaning after.now) → LogsStand logs.now (S.meaning after.now) → MapsCover config.now vol logs.now (S.meaning before.now) → DiskAgrees config.now vol (S.meaning after.now) }
    ensures image { (i : Image) → DiskAgrees config.now vol (S.meaning after.now) → Each (S.meaning after.now).leaves i → ImageAgrees config.now vol i }
{}
