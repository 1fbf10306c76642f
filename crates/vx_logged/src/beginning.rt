// The maps of plexes that fell out of use in a call: they begin with it.
ghost use Rattle.vx_grouplogs.specs.Gone.{LogsDrop};
ghost use Rattle.vx_kept.specs.Finds.{FindsFrom, NoConfiguration};
ghost use Rattle.vx_group.specs.Finds.{GroupFinds};
ghost use Rattle.std.specs.Prelude.{◌≡◌, ◌⊎◌, ◌+◌, ◌<◌, ◌≤◌, ℕ, Bool, IfErr, IfOk, IsTrue, None, OnOk, false, true};
ghost use Rattle.vx_config.specs.Checks.{blocks_of as blocks_of_is, plexes_of};
ghost use Rattle.vx_config.specs.Table.{greatest};
ghost use Rattle.vx_disk.specs.Causes.{Cause};
ghost use Rattle.vx_disk.specs.Shelf.{Goes, Nothing};
ghost use Rattle.vx_group.specs.Blames.{MarksOn};
ghost use Rattle.vx_group.specs.GivesUp.{FaultMisses};
ghost use Rattle.vx_group.specs.Holding.{GroupStands, wide};
ghost use Rattle.vx_group.specs.Loses.{LosesAlong};
ghost use Rattle.vx_group.specs.Stands.{inner_meaning};
ghost use Rattle.vx_grouplogs.specs.Marking.{MarksOnly};
ghost use Rattle.vx_groupmaps.specs.Knowing.{PlexesKnow, or_off};
ghost use Rattle.vx_groupmaps.specs.Missing.{OnMaps, none_spared, or_run};
ghost use Rattle.vx_layout.specs.Places.{HasBlock};
ghost use Rattle.vx_logged.specs.Begun.{MapsBut, MapsOff, MapsOfRun, ReadsBut, ReadsWhole, fell_now, was_on};
ghost use Rattle.vx_logged.specs.Behind.{MapSaid, none_missing};
ghost use Rattle.vx_logged.specs.Holds.{HoldsRun};
ghost use Rattle.vx_logged.specs.Logged.{Known, KnownBy, LogOn, MapKept, MayWrite, Narrowed, OthersOn, TrustsIn, are_off};
ghost use Rattle.vx_logs.specs.Noting.{this_plex};
ghost use Rattle.vx_logs.specs.Writes.{first_region, last_region};
ghost use Rattle.vx_model.specs.Sizes.{regions_of as regions_in};
ghost use Rattle.vx_model.specs.declared.limits.TheConstants.{MOST_PLEXES};
ghost use Rattle.vx_volume.specs.Plexes.{active};

use crate::keeping::keep_map;
use crate::marking::mark_group;
use crate::readying::ready_group;
use vx_config::{Config, blocks_of};
use vx_disk::{Shelf, ShelfError};
use vx_group::GroupCore;
use vx_groupmaps::begin_map;
use vx_logs::Logs;
use vx_model::limits::{COMMIT_SERIALS, MOST_PLEXES};
use vx_volume::is_active;

/// Which plexes of a volume are ACTIVE.
pub fn actives(config: &Config, vol: u32) -> [bool; MOST_PLEXES]
    ensures some { (p : ℕ) → was_on result p ≡ true → IsTrue (active config.now vol p) }
    ensures all { (p : ℕ) → p < MOST_PLEXES → IsTrue (active config.now vol p) → was_on result p ≡ true }
{
    let mut was = [false; MOST_PLEXES];
    for plex in 0..MOST_PLEXES as u32 {
        was[plex as usize] = is_active(config, vol, plex);
    }
    was
}

/// Whether a plex is one of a list, and is not ACTIVE.
pub fn fell(core: &GroupCore, was: &[bool; MOST_PLEXES], vol: u32, plex: u32) -> bool
    requires few { plex < MOST_PLEXES }
    ensures { result ≡ fell_now was.now core.now vol plex }
{
    if was[plex as usize] {
        return !is_active(&core.inner.config, vol, plex);
    }
    false
}

// Empties the map of a plex. A log of which the disk fails is in memory no more.
fn begin_plex<S: Shelf>(shelf: &mut S, core: &GroupCore, logs: &mut Logs, vol: u32, plex: u32)
    requires stands { GroupStands core.now (S.meaning shelf.old) }
    requires none { core.now.held ≡ None }
    requires some { 0 < blocks_of_is core.now.inner.config.volumes vol }
    requires exists { plex < plexes_of core.now.inner.config vol }
    requires log { LogOn core.now vol logs.old (S.meaning shelf.old) }
    ensures stands { GroupStands core.now (S.meaning shelf.new) }
    ensures below { Goes (OnMaps core.now.inner.config vol) (S.meaning shelf.old) (S.meaning shelf.new) }
    ensures goes { Goes Nothing (inner_meaning (wide core.now) (S.meaning shelf.old)) (inner_meaning (wide core.now) (S.meaning shelf.new)) }
    ensures log { LogOn core.now vol logs.new (S.meaning shelf.new) }
    ensures others { OthersOn vol core.now core.now (S.meaning shelf.old) (S.meaning shelf.new) }
    ensures drl { logs.new.drl ≡ logs.old.drl }
    ensures drops { LogsDrop (wide core.now).config vol logs.old logs.new (S.meaning shelf.old) (S.meaning shelf.new) }
    ensures less { FindsFrom NoConfiguration (S.meaning shelf.old) (S.meaning shelf.new) }
    ensures knows { (spare missed : ℕ → ℕ → Bool) → ((r : ℕ) → spare plex r ≡ false → missed plex r ≡ false) → ((IsTrue (S.meaning shelf.old).down → ⊥) → PlexesKnow core.now.inner.config vol missed (S.meaning shelf.old).reads) → KnownBy core.now vol spare logs.old (S.meaning shelf.old) → KnownBy core.now vol spare logs.new (S.meaning shelf.new) }
    ensures notes { (these : ℕ → Bool) → these plex ≡ true → MapsBut these none_missing 0 0 logs.old logs.new }
    ensures begins { MapsOff (this_plex plex) logs.new }
{
    match begin_map(logs, &core.inner.config, vol, shelf, plex) {
        Ok(_) => return,
        Err(_) => {}
    }
    logs.fmr = None;
}

// Empties the map of each plex of a list that is not ACTIVE, where the caller is sure what it reads.
fn begin_fallen<S: Shelf>(
    shelf: &mut S,
    core: &GroupCore,
    logs: &mut Logs,
    sure: bool,
    was: &[bool; MOST_PLEXES],
    vol: u32,
)
    requires stands { GroupStands core.now (S.meaning shelf.old) }
    requires none { core.now.held ≡ None }
    requires some { 0 < blocks_of_is core.now.inner.config.volumes vol }
    requires exists { (p : ℕ) → was_on was.now p ≡ true → p < plexes_of core.now.inner.config vol }
    requires log { LogOn core.now vol logs.old (S.meaning shelf.old) }
    ensures stands { GroupStands core.now (S.meaning shelf.new) }
    ensures below { Goes (OnMaps core.now.inner.config vol) (S.meaning shelf.old) (S.meaning shelf.new) }
    ensures goes { Goes Nothing (inner_meaning (wide core.now) (S.meaning shelf.old)) (inner_meaning (wide core.now) (S.meaning shelf.new)) }
    ensures log { LogOn core.now vol logs.new (S.meaning shelf.new) }
    ensures others { OthersOn vol core.now core.now (S.meaning shelf.old) (S.meaning shelf.new) }
    ensures drl { logs.new.drl ≡ logs.old.drl }
    ensures drops { LogsDrop (wide core.now).config vol logs.old logs.new (S.meaning shelf.old) (S.meaning shelf.new) }
    ensures less { FindsFrom NoConfiguration (S.meaning shelf.old) (S.meaning shelf.new) }
    ensures knows { (spare missed : ℕ → ℕ → Bool) → ((p r : ℕ) → fell_now was.now core.now vol p ≡ true → spare p r ≡ false → missed p r ≡ false) → (sure ≡ true → (IsTrue (S.meaning shelf.old).down → ⊥) → PlexesKnow core.now.inner.config vol missed (S.meaning shelf.old).reads) → KnownBy core.now vol spare logs.old (S.meaning shelf.old) → KnownBy core.now vol spare logs.new (S.meaning shelf.new) }
    ensures notes { MapsBut (fell_now was.now core.now vol) none_missing 0 0 logs.old logs.new }
    ensures begins { sure ≡ true → MapsOff (fell_now was.now core.now vol) logs.new }
{
    if !sure {
        return;
    }
    for plex in 0..MOST_PLEXES as u32 {
        if fell(core, was, vol, plex) {
            begin_plex(shelf, core, logs, vol, plex);
        }
    }
}

/// Marks the regions of a run of blocks behind a write, as `mark_group` does; and where the caller is sure that the plexes of a list read out of
/// it what those read that are ACTIVE, the maps of these that are not ACTIVE begin first: they have regions of the run alone then.
pub fn mark_fallen<S: Shelf>(
    shelf: &mut S,
    core: &mut GroupCore,
    logs: &mut Logs,
    sure: bool,
    was: &[bool; MOST_PLEXES],
    vol: u32,
    block: u64,
    count: u64,
) -> Result<bool, ShelfError>
    requires stands { GroupStands core.old (S.meaning shelf.old) }
    requires there { vol < (inner_meaning (wide core.old) (S.meaning shelf.old)).units }
    requires some { 0 < count }
    requires within { block + count ≤ blocks_of_is (wide core.old).config.volumes vol }
    requires log { LogOn core.old vol logs.old (S.meaning shelf.old) }
    requires has { (p : ℕ) → was_on was.now p ≡ true → HasBlock (wide core.old).config vol p 0 }
    requires reads { sure ≡ true → ReadsBut (wide core.old).config vol (was_on was.now) (first_region block) (last_region block count) (S.meaning shelf.old) }
    ensures stands { GroupStands core.new (S.meaning shelf.new) }
    ensures goes { Goes Nothing (inner_meaning (wide core.old) (S.meaning shelf.old)) (inner_meaning (wide core.new) (S.meaning shelf.new)) }
    ensures loses { LosesAlong core.old.inner.config core.new.inner.config (S.meaning shelf.old) (S.meaning shelf.new) }
    ensures log { LogOn core.new vol logs.new (S.meaning shelf.new) }
    ensures others { OthersOn vol core.old core.new (S.meaning shelf.old) (S.meaning shelf.new) }
    ensures adds { MarksOnly (regions_in (blocks_of_is (wide core.old).config.volumes vol)) (first_region block) (last_region block count) logs.old logs.new }
    ensures narrow { Narrowed core.old core.new }
    ensures still { (w p : ℕ) → active core.new.inner.config w p ≡ active core.old.inner.config w p }
    ensures plexes { (missed : ℕ → ℕ → Bool) → (IsTrue (S.meaning shelf.new).down → ⊥) → PlexesKnow (wide core.old).config vol missed (S.meaning shelf.old).reads → PlexesKnow (wide core.new).config vol missed (S.meaning shelf.new).reads }
    ensures maps { KnownBy core.old vol (or_run (first_region block) (last_region block count) none_spared) logs.old (S.meaning shelf.old) → KnownBy core.new vol (or_run (first_region block) (last_region block count) none_spared) logs.new (S.meaning shelf.new) }
    ensures knows { KnownBy core.old vol (or_off (wide core.old).config vol (first_region block) (last_region block count) none_spared) logs.old (S.meaning shelf.old) → IfOk result (λ done. done ≡ true → Known core.new vol logs.new (S.meaning shelf.new)) }
    ensures notes { MapsBut (fell_now was.now core.new vol) (are_off core.new vol) (first_region block) (last_region block count) logs.old logs.new }
    ensures begins { sure ≡ true → IfOk result (λ done. done ≡ true → MapsOfRun (fell_now was.now core.new vol) (first_region block) (last_region block count) logs.new) }
    ensures said { IfOk result (λ done. done ≡ true → MapSaid core.new vol logs.new) }
    ensures free { IfOk result (λ done. done ≡ true → core.new.held ≡ None) }
    ensures holds { IfOk result (λ done. done ≡ true → HoldsRun core.new.inner.config vol (first_region block) (last_region block count) logs.new) }
    ensures may { IfOk result (λ done. done ≡ true → MayWrite core.new vol (first_region block) (last_region block count) logs.new) }
    ensures spent { IfOk result (λ done. done ≡ false → greatest ≤ core.new.inner.config.serial + COMMIT_SERIALS) }
    ensures drops { LogsDrop (wide core.old).config vol logs.old logs.new (S.meaning shelf.old) (S.meaning shelf.new) }
    ensures trusts { TrustsIn vol logs.new core.old.inner.config core.new.inner.config }
    ensures trust { OnOk result (core.old.inner.committed ≡ true → core.new.inner.committed ≡ true) }
    ensures agreed { IfErr result (λ e. core.old.inner.committed ≡ true → core.new.inner.agreed ≡ true) }
    ensures finds { GroupFinds core.old core.new (S.meaning shelf.old) (S.meaning shelf.new) }
    ensures marks { MarksOn vol core.old.inner.unsure core.new.inner.unsure result }
    ensures misses { FaultMisses core.new.inner result }
    ensures cause { Cause (inner_meaning (wide core.old) (S.meaning shelf.old)) (inner_meaning (wide core.new) (S.meaning shelf.new)) vol result }
{
    let ready = match ready_group(shelf, core, vol) {
        Ok(ready) => ready,
        Err(error) => return Err(error),
    };
    if !ready {
        return Ok(false);
    }
    begin_fallen(shelf, core, logs, sure, was, vol);
    mark_group(shelf, core, logs, vol, block, count)
}

/// Empties the maps of the plexes of a list that are not ACTIVE, which read in each block what those read that are ACTIVE, and answers whether it
/// is done: so it is while a serial is left. A log of which the disk fails is committed as lost. Where no plex was held back they are empty behind
/// a refusal too, unless the shelf is down.
pub fn keep_fallen<S: Shelf>(
    shelf: &mut S,
    core: &mut GroupCore,
    logs: &mut Logs,
    was: &[bool; MOST_PLEXES],
    vol: u32,
) -> Result<bool, ShelfError>
    requires stands { GroupStands core.old (S.meaning shelf.old) }
    requires there { vol < (inner_meaning (wide core.old) (S.meaning shelf.old)).units }
    requires log { LogOn core.old vol logs.old (S.meaning shelf.old) }
    requires has { (p : ℕ) → 0 < blocks_of_is (wide core.old).config.volumes vol → was_on was.now p ≡ true → HasBlock (wide core.old).config vol p 0 }
    requires reads { ReadsWhole (wide core.old).config vol (was_on was.now) (S.meaning shelf.old) }
    ensures stands { GroupStands core.new (S.meaning shelf.new) }
    ensures goes { Goes Nothing (inner_meaning (wide core.old) (S.meaning shelf.old)) (inner_meaning (wide core.new) (S.meaning shelf.new)) }
    ensures loses { LosesAlong core.old.inner.config core.new.inner.config (S.meaning shelf.old) (S.meaning shelf.new) }
    ensures log { LogOn core.new vol logs.new (S.meaning shelf.new) }
    ensures others { OthersOn vol core.old core.new (S.meaning shelf.old) (S.meaning shelf.new) }
    ensures drl { logs.new.drl ≡ logs.old.drl }
    ensures narrow { Narrowed core.old core.new }
    ensures still { (w p : ℕ) → active core.new.inner.config w p ≡ active core.old.inner.config w p }
    ensures maps { Known core.old vol logs.old (S.meaning shelf.old) → Known core.new vol logs.new (S.meaning shelf.new) }
    ensures notes { MapsBut (fell_now was.now core.new vol) none_missing 0 0 logs.old logs.new }
    ensures begins { IfOk result (λ done. done ≡ true → MapsOff (fell_now was.now core.new vol) logs.new) }
    ensures left { core.old.held ≡ None → IfErr result (λ e. IsTrue (S.meaning shelf.new).down ⊎ MapsOff (fell_now was.now core.new vol) logs.new) }
    ensures kept { MapKept core.old vol logs.old → IfOk result (λ done. done ≡ true → MapKept core.new vol logs.new) }
    ensures said { 0 < blocks_of_is (wide core.old).config.volumes vol → IfOk result (λ done. done ≡ true → MapKept core.new vol logs.new) }
    ensures spent { IfOk result (λ done. done ≡ false → greatest ≤ core.new.inner.config.serial + COMMIT_SERIALS) }
    ensures drops { LogsDrop (wide core.old).config vol logs.old logs.new (S.meaning shelf.old) (S.meaning shelf.new) }
    ensures trusts { TrustsIn vol logs.new core.old.inner.config core.new.inner.config }
    ensures trust { OnOk result (core.old.inner.committed ≡ true → core.new.inner.committed ≡ true) }
    ensures agreed { IfErr result (λ e. core.old.inner.committed ≡ true → core.new.inner.agreed ≡ true) }
    ensures finds { GroupFinds core.old core.new (S.meaning shelf.old) (S.meaning shelf.new) }
    ensures marks { MarksOn vol core.old.inner.unsure core.new.inner.unsure result }
    ensures misses { FaultMisses core.new.inner result }
    ensures cause { Cause (inner_meaning (wide core.old) (S.meaning shelf.old)) (inner_meaning (wide core.new) (S.meaning shelf.new)) vol result }
{
    let ready = match ready_group(shelf, core, vol) {
        Ok(ready) => ready,
        Err(error) => return Err(error),
    };
    if !ready {
        return Ok(false);
    }
    let blocks = blocks_of(&core.inner.config, vol);
    if blocks == 0 {
        return Ok(true);
    }
    begin_fallen(shelf, core, logs, true, was, vol);
    keep_map(shelf, core, logs, vol)
}
