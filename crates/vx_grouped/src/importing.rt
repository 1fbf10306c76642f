// A group that comes back by an import.
ghost use Rattle.std.specs.Prelude.{IfErr, IfOk, IsTrue};
ghost use Rattle.vx_config.specs.declared.config.Config.{Config as ConfigValue};
ghost use Rattle.vx_group.specs.Calls.{ImportsAgain};
ghost use Rattle.vx_group.specs.Imports.{ImportStops};
ghost use Rattle.vx_group.specs.Resumes.{CanImport};
ghost use Rattle.vx_grouped.specs.Away.{AwayLies};
ghost use Rattle.vx_grouped.specs.Brings.{BringsGroup};
ghost use Rattle.vx_grouped.specs.PlainMaps.{ComesMaps, map_parts};
ghost use Rattle.vx_grouped.specs.Returns.{ImportLeaves};
ghost use Rattle.vx_history.specs.Groups.{GroupNode};
ghost use Rattle.vx_history.specs.World.{Node};
ghost use Rattle.vx_logimport.specs.Rests.{LogsTell};

use std::alloc::Global;
use vx_disk::Shelf;
use vx_loggroup::LoggedGroup;
use vx_logimport::Rested;
use vx_model::Stop;

/// Imports the group of a site by the logs of its volumes: a recovery, or an import of disks that were deported. Each block of a volume that stopped
/// uncleanly has then one value, which it might have before. A refusal hands the disks back.
///
/// It answers what `LoggedGroup::import` answers, and takes memory.
pub fn import_group<S: Shelf>(
    alloc: Global,
    shelf: S,
    rested: &Rested,
) -> Result<LoggedGroup<S>, (S, Stop)>
    requires can { CanImport (S.meaning shelf) }
    requires tells { LogsTell rested.now (S.meaning shelf) }
    ensures stops { IfErr result (λ e. ImportStops (S.meaning shelf) (S.meaning e.0) e.1) }
    ensures up { IfOk result (λ g. IsTrue (S.meaning g.shelf).down → ⊥) }
    ensures again { ImportsAgain (λ s. S.meaning s) result }
    ensures maps { ComesMaps rested.now (S.meaning shelf) (λ g. map_parts g.core.inner.config g.logs.items g.alike g.stopped) (λ g. S.meaning g.shelf) result }
    ensures brings { BringsGroup (S.meaning shelf) (λ s. S.meaning s) (λ g. g.core) (λ g. g.shelf) result }
    ensures leaves { (n : Node) (note : GroupNode) (last : ConfigValue) → AwayLies n note last (S.meaning shelf) → ImportLeaves n note last (S.meaning shelf) (λ s. S.meaning s) (λ g. g.core) (λ g. g.shelf) result }
{
    match LoggedGroup::import(alloc, shelf, rested) {
        Ok(group) => Ok(group),
        Err((shelf, stop)) => Err((shelf, stop)),
    }
}
