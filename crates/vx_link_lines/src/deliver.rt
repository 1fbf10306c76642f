// The line that hands a packet to its target.
ghost use Rattle.std.specs.Prelude.{◌≡◌, ◌<◌, ℕ, IfOk, Some, length};
ghost use Rattle.vx_model.specs.Content.{Write as LogWrite};
ghost use Rattle.vx_model.specs.declared.limits.TheConstants.{MOST_SITES};
ghost use Rattle.vx_history.specs.Doubts.{Doubted};
ghost use Rattle.vx_history.specs.Events.{packet_at};
ghost use Rattle.vx_history.specs.World.{Packet, Update};
ghost use Rattle.vx_script.specs.declared.line.ScriptLine.TheVariants.{Deliver};
ghost use Rattle.vx_yard.specs.Carries.{Carries};
ghost use Rattle.vx_yard.specs.OfSites.{AllSameFailing, AsAsked, HasCalled, OfSite, TouchesNone};
ghost use Rattle.vx_yard.specs.Standing.{GoodFor, LeadsIs, StandsFor};
ghost use Rattle.vx_yard.specs.Working.{IsFree};
ghost use Rattle.vx_yard.specs.Yards.{IsYardKept, IsTold, in_files};

use crate::hearing::hear_answer;
use std::alloc::Global;
use vx_courier::part_at;
use vx_disk::Rack;
use vx_events::Said;
use vx_history::Said as Happened;
use vx_joins::deliver_update;
use vx_model::OutOfMemory;
use vx_yard::Yard;
use vx_yard::facts::set_last;
use vx_yard::receiving::receives;

// The kind of the packets of an update.
const UPDATE: u8 = 2;

// The packet of an update, handed to the disks of its target. None but a site that receives takes it, and no link of that one has to count it,
// as links start only where writes arise.
fn hand_update<R: Rack>(yard: &mut Yard<R>, target: usize, number: u64) -> Result<Said, OutOfMemory>
    requires disk_set { target < length yard.old.disk_sets.items }
    requires site { target < length yard.old.facts.items }
    requires place { target < length yard.old.assemblies.items }
    requires feeder { target < length yard.old.feeders.items }
    requires few { target < MOST_SITES }
    ensures leads { (d : Doubted) (p : Packet) (k : ℕ) (x : LogWrite) → StandsFor d yard.old → Carries d yard.old → GoodFor d yard.old → packet_at d.world.packets number ≡ Some p → p.target ≡ target
        → target < d.world.sites → p.message ≡ Update k x → LeadsIs d (Deliver number) yard.old yard.new result }
    ensures asked { AllSameFailing yard.old yard.new }
    // It waits in memory, and no disk is touched.
    ensures called { IfOk result (λ said. OfSite (TouchesNone said) target yard.old yard.new) }
    ensures told { IsTold yard.new → IsTold yard.old }
    ensures files { in_files yard.new ≡ in_files yard.old }
{
    if !receives(&yard.disk_sets[target]) {
        return Ok(Said::Ignored);
    }
    let said = deliver_update(
        &mut yard.disk_sets[target],
        &mut yard.feeders[target],
        &mut yard.assemblies[target],
        target as u32,
        &mut yard.flight,
        number,
    )?;
    match said {
        Happened::Taken => {
            let last = yard.disk_sets[target].received();
            set_last(&mut yard.facts[target], last);
            Ok(Said::Taken)
        }
        _ => Ok(Said::Ignored),
    }
}

/// Hands the packet of a number to its target. One that goes to no site is ignored.
pub fn deliver_line<R: Rack>(
    yard: &mut Yard<R>,
    alloc: Global,
    number: u64,
) -> Result<Said, OutOfMemory>
    requires kept { IsYardKept yard.old }
    requires free { IsFree yard.old (Deliver number) }
    ensures leads { (d : Doubted) → StandsFor d yard.old → Carries d yard.old → GoodFor d yard.old → LeadsIs d (Deliver number) yard.old yard.new result }
    ensures asked { (d : Doubted) → StandsFor d yard.old → AsAsked d.world (Deliver number) yard.old yard.new }
    ensures called { (d : Doubted) → StandsFor d yard.old → Carries d yard.old → IfOk result (λ said. HasCalled d.world (Deliver number) said yard.old yard.new) }
    ensures told { IsTold yard.new → IsTold yard.old }
    ensures files { in_files yard.new ≡ in_files yard.old }
{
    let Some(part) = part_at(&yard.flight, number) else {
        return Ok(Said::Ignored);
    };
    let target = part.target as usize;
    if target >= yard.facts.len() {
        return Ok(Said::Ignored);
    }
    if part.kind == UPDATE {
        return hand_update(yard, target, number);
    }
    hear_answer(yard, alloc, target, part.source, number)
}
