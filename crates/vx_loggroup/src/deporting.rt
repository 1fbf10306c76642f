// A group with logs that is deported.
ghost use Rattle.vx_group.specs.Finds.{GroupImages};
ghost use Rattle.std.specs.Prelude.{Err, IfErr, IfOk, IsTrue, OnOk, Some, false, length, true, ◌-◌, ◌<◌, ◌≡◌, ◌≤◌};
ghost use Rattle.vx_config.specs.Table.{greatest};
ghost use Rattle.vx_disk.specs.Shelf.{Goes, Nothing};
ghost use Rattle.vx_group.specs.Calls.{GroupCloses};
ghost use Rattle.vx_group.specs.Dets.{DetStops, margin};
ghost use Rattle.vx_group.specs.Holding.{wide};
ghost use Rattle.vx_group.specs.Loses.{TrustsStill};
ghost use Rattle.vx_group.specs.Stands.{inner_meaning};
ghost use Rattle.vx_logimport.specs.declared.rested.Rested.{Rested as RestedValue};
ghost use Rattle.vx_loggroup.specs.LoggedVolumes.{LoggedStands};
ghost use Rattle.vx_loggroup.specs.Moving.{MapsStand, RestsOr};
ghost use Rattle.vx_loggroup.specs.Opens.{RestTells};
ghost use Rattle.vx_loggroup.specs.Resting.{AllRest};
ghost use Rattle.vx_model.specs.declared.errors.Stop.TheVariants.{No as Refused};
ghost use Rattle.vx_model.specs.declared.limits.TheConstants.{MOST_VOLUMES};
ghost use Rattle.vx_model.specs.declared.no.Counted.TheVariants.{Number as Numbers};
ghost use Rattle.vx_model.specs.declared.no.No.TheVariants.{Limit};
ghost use Rattle.vx_group.specs.Settles.{CoreSettles};
ghost use Rattle.vx_loggroup.specs.Settled.{SureFlags};

use crate::resting::rest_all;
use vx_config::Config;
use vx_disk::Shelf;
use vx_group::{GroupCore, deport_in};
use vx_logimport::Rested;
use vx_logs::Logs;
use vx_model::Stop;
use vx_model::limits::MOST_VOLUMES;

// Of which volumes the disks tell what a clean stop left; none is told where logs are stopped.
fn rest_by(
    config: &Config,
    logs: &Vec<Logs>,
    alike: &[bool; MOST_VOLUMES],
    stopped: bool,
) -> Option<Rested>
    requires few { length logs.now.items ≤ MOST_VOLUMES }
    ensures rests { RestsOr config.now stopped logs.now.items alike.now result }
    ensures each { (r : RestedValue) → result ≡ Some r → (stopped ≡ false) × AllRest config.now logs.now.items alike.now r }
{
    if stopped {
        return None;
    }
    Some(rest_all(config, logs, alike))
}

/// Deports a group, as it is without logs. It answers of which volumes the disks tell then what a clean stop left; none where logs are stopped. What the map of
/// a plex does not say that it missed it reads still, whatever its state, so nothing else is flushed. A dirty region log that is in memory no more and not held
/// as lost is one that the next import does not read.
pub fn deport_whole<S: Shelf>(
    shelf: &mut S,
    core: &mut GroupCore,
    logs: &Vec<Logs>,
    alike: &[bool; MOST_VOLUMES],
    stopped: bool,
) -> Result<Option<Rested>, Stop>
    requires stands { LoggedStands core.old logs.now.items alike.now stopped (S.meaning shelf.old) }
    requires sure { (IsTrue (S.meaning shelf.old).down → ⊥) → SureFlags (length core.old.inner.config.volumes) core.old.inner.unsure alike.now }
    ensures stands { IfErr result (λ e. LoggedStands core.new logs.now.items alike.now stopped (S.meaning shelf.new)) }
    ensures limit { greatest - margin < core.old.inner.config.serial → (result ≡ Err (Refused (Limit Numbers greatest))) × (core.new ≡ core.old) × (shelf.new ≡ shelf.old) }
    ensures ends { GroupCloses core.old core.new (S.meaning shelf.old) (S.meaning shelf.new) result }
    ensures up { OnOk result (IsTrue (S.meaning shelf.new).down → ⊥) }
    ensures back { IfErr result (λ e. Goes Nothing (inner_meaning (wide core.old) (S.meaning shelf.old)) (inner_meaning (wide core.new) (S.meaning shelf.new))) }
    ensures tells { IfOk result (λ r. RestTells r (S.meaning shelf.new)) }
    ensures maps { stopped ≡ false → OnOk result (MapsStand logs.now.items (S.meaning shelf.new)) }
    ensures rests { IfOk result (λ r. RestsOr core.old.inner.config stopped logs.now.items alike.now r) }
    ensures trusts { IfErr result (λ e. TrustsStill core.old.inner.config core.new.inner.config) }
    ensures agreed { IfErr result (λ e. core.old.inner.committed ≡ true → core.new.inner.agreed ≡ true) }
    ensures finds { IfErr result (λ e. GroupImages core.old core.new (S.meaning shelf.old) (S.meaning shelf.new)) }
    ensures settles { IfErr result (λ e. CoreSettles (wide core.old) (wide core.new) (S.meaning shelf.old) (S.meaning shelf.new)) }
    ensures cause { core.old.inner.config.serial ≤ greatest - margin → DetStops (S.meaning shelf.old) (S.meaning shelf.new) result }
{
    let rested = rest_by(&core.inner.config, logs, alike, stopped);
    match deport_in(shelf, core) {
        Ok(()) => Ok(rested),
        Err(stop) => Err(stop),
    }
}
