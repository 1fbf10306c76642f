// The map of a plex that becomes that of another one, whatever plex is held back.
ghost use Rattle.vx_grouplogs.specs.Gone.{LogsDrop};
ghost use Rattle.vx_kept.specs.Finds.{FindsFrom, NoConfiguration};
ghost use Rattle.std.specs.Prelude.{◌≡◌, ◌<◌};
ghost use Rattle.vx_config.specs.Checks.{blocks_of as blocks_of_is, plexes_of};
ghost use Rattle.vx_disk.specs.Shelf.{Goes, Nothing};
ghost use Rattle.vx_group.specs.Holding.{GroupStands, wide};
ghost use Rattle.vx_group.specs.Stands.{inner_meaning};
ghost use Rattle.vx_groupmaps.specs.Missing.{OnMaps};
ghost use Rattle.vx_logged.specs.Copied.{MapsTake, ReadsRow};
ghost use Rattle.vx_logged.specs.Logged.{Known, LogOn, OthersOn};

use vx_disk::Shelf;
use vx_group::GroupCore;
use vx_groupmaps::copy_map;
use vx_logs::Logs;

/// Gives the map of a plex the regions that the map of another one has, and no others, where out of them it reads what those plexes read that are
/// ACTIVE. A log of which the disk fails is in memory no more; a later call commits that it is lost.
pub fn copy_plex<S: Shelf>(
    shelf: &mut S,
    core: &GroupCore,
    logs: &mut Logs,
    vol: u32,
    to: u32,
    from: u32,
)
    requires stands { GroupStands core.now (S.meaning shelf.old) }
    requires some { 0 < blocks_of_is (wide core.now).config.volumes vol }
    requires to { to < plexes_of (wide core.now).config vol }
    requires from { from < plexes_of (wide core.now).config vol }
    requires apart { to ≡ from → ⊥ }
    requires log { LogOn core.now vol logs.old (S.meaning shelf.old) }
    requires known { Known core.now vol logs.old (S.meaning shelf.old) }
    requires reads { ReadsRow (wide core.now).config vol to from logs.old (S.meaning shelf.old) }
    ensures stands { GroupStands core.now (S.meaning shelf.new) }
    ensures below { Goes (OnMaps (wide core.now).config vol) (S.meaning shelf.old) (S.meaning shelf.new) }
    ensures goes { Goes Nothing (inner_meaning (wide core.now) (S.meaning shelf.old)) (inner_meaning (wide core.now) (S.meaning shelf.new)) }
    ensures log { LogOn core.now vol logs.new (S.meaning shelf.new) }
    ensures known { Known core.now vol logs.new (S.meaning shelf.new) }
    ensures others { OthersOn vol core.now core.now (S.meaning shelf.old) (S.meaning shelf.new) }
    ensures drl { logs.new.drl ≡ logs.old.drl }
    ensures drops { LogsDrop (wide core.now).config vol logs.old logs.new (S.meaning shelf.old) (S.meaning shelf.new) }
    ensures less { FindsFrom NoConfiguration (S.meaning shelf.old) (S.meaning shelf.new) }
    ensures takes { MapsTake to from logs.old logs.new }
{
    match copy_map(logs, &core.inner.config, vol, shelf, to, from) {
        Ok(_) => return,
        Err(_) => {}
    }
    logs.fmr = None;
}
