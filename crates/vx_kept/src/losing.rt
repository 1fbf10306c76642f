// The commit of a log that is lost.
ghost use Rattle.std.specs.Prelude.{◌≡◌, Bool, IfOk, true};
ghost use Rattle.vx_config.specs.Changes.{lost as lost_is};
ghost use Rattle.vx_config.specs.Checks.{is_sound};
ghost use Rattle.vx_config.specs.Configs.{CanSpell};
ghost use Rattle.vx_config.specs.declared.config.Config.{Config as ConfigValue};
ghost use Rattle.vx_copies.specs.Bodies.{is_wanted};
ghost use Rattle.vx_copies.specs.Commits.{NamesFailed};
ghost use Rattle.vx_copyio.specs.Labelling.{AreLarge};
ghost use Rattle.vx_disk.specs.Shelf.{Nothing};
ghost use Rattle.vx_kept.specs.Commits.{Member, TakeEnds};
ghost use Rattle.vx_kept.specs.Finds.{FindsFrom, IsTryOf};
ghost use Rattle.vx_kept.specs.Keeping.{Acts, AllOn, IsTidy, Kept, Sees};
ghost use Rattle.vx_kept.specs.LogRuns.{log_lost};
ghost use Rattle.vx_kept.specs.Losses.{LosesLog, SamePlexes};
ghost use Rattle.vx_kept.specs.Trusts.{TrustEnds, Trusts};

use vx_config::{Config, VolumeLog};
use vx_copies::{Room, commit_named};
use vx_disk::Shelf;
use vx_maplog::log_of;
use vx_model::No;

// Whether a log of a volume is held as lost.
#[tactic(auto, unfolding(crate::specs::LogRuns::log_lost))]
fn is_lost(config: &Config, vol: u32, log: VolumeLog) -> bool
    ensures { result ≡ log_lost config.now vol log }
{
    match log_of(config, vol, log) {
        Some(entry) => entry.lost,
        None => false,
    }
}

// Says of a log of a volume that it is lost. It takes no memory.
fn lose(config: &mut Config, vol: u32, log: VolumeLog)
    ensures changed { config.new ≡ lost_is vol log true config.old }
    ensures same { SamePlexes config.old config.new }
    ensures logs { LosesLog vol log config.old config.new }
    ensures can { CanSpell config.old → CanSpell config.new }
    ensures sound { is_sound config.new ≡ is_sound config.old }
{
    config.set_lost(vol as usize, log, true);
}

// Takes that back.
fn give_back(config: &mut Config, vol: u32, log: VolumeLog, was: bool)
    ensures { (c : ConfigValue) → config.old ≡ lost_is vol log true c → was ≡ log_lost c vol log → config.new ≡ c }
{
    config.set_lost(vol as usize, log, was);
}

/// Commits that a log of a volume is lost, where the volume has it: no import goes by it from then on. It takes no memory.
/// It answers the device that failed last, where a disk came to be held as failed.
///
/// After a refusal the configuration is as it was, but for its serial. At each moment of it, and after it, a crash leaves an image in which
/// each plex that takes part is ACTIVE in memory, and each log that the image trusts is trusted by the configuration of before.
pub fn commit_lost<S: Shelf>(
    shelf: &mut S,
    config: &mut Config,
    vol: u32,
    log: VolumeLog,
    good: u8,
    room: &mut Room,
) -> Result<u32, No>
    requires large { AreLarge (S.meaning shelf.old) }
    requires can { CanSpell config.old }
    requires wanted { is_wanted (S.meaning shelf.old).units (S.meaning shelf.old).size config.old ≡ true }
    requires on { AllOn config.old }
    requires kept { Kept config.old (Member good (S.meaning shelf.old)) (S.meaning shelf.old) }
    requires tidy { IsTidy config.old (S.meaning shelf.old) }
    ensures can { CanSpell config.new }
    ensures wanted { is_wanted (S.meaning shelf.new).units (S.meaning shelf.new).size config.new ≡ true }
    ensures on { AllOn config.new }
    ensures acts { Acts Nothing (Sees config.old (Member good (S.meaning shelf.old)) (S.meaning shelf.old)) (S.meaning shelf.old) (S.meaning shelf.new) }
    ensures ends { TakeEnds good config.old (lost_is vol log true config.old) config.new (S.meaning shelf.old) (S.meaning shelf.new) result }
    ensures trusts { (committed agreed : Bool) → Trusts committed agreed good (S.meaning shelf.old) → TrustEnds committed good config.new (S.meaning shelf.new) result }
    ensures finds { FindsFrom (IsTryOf (lost_is vol log true config.old)) (S.meaning shelf.old) (S.meaning shelf.new) }
    ensures named { IfOk result (NamesFailed config.old config.new (S.meaning shelf.old) (S.meaning shelf.new)) }
{
    let was = is_lost(config, vol, log);
    lose(config, vol, log);
    match commit_named(shelf, config, good, room) {
        Ok(device) => Ok(device),
        Err(no) => {
            give_back(config, vol, log, was);
            Err(no)
        }
    }
}
