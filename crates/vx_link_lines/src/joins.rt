// The first part of a line that makes a link: a site comes to the line of another one.
ghost use Rattle.std.specs.Prelude.{◌≡◌, ◌<◌, [], ℕ, IfOk, Some, length, slice_get, None};
ghost use Rattle.vx_model.specs.declared.limits.TheConstants.{MOST_SITES};
ghost use Rattle.vx_model.specs.declared.link.Prot.TheVariants.{Fail as FailsWhenFull};
ghost use Rattle.vx_model.specs.declared.link.SyncMode.{SyncMode as SyncValue};
ghost use Rattle.vx_history.specs.Doubts.{Doubted};
ghost use Rattle.vx_history.specs.Events.{joined};
ghost use Rattle.vx_history.specs.Step.{step};
ghost use Rattle.vx_history.specs.World.{Node};
ghost use Rattle.vx_history.specs.declared.event.Event.TheVariants.{Link as LinkAt};
ghost use Rattle.vx_history.specs.declared.event.LinkPart.TheVariants.{Joins};
ghost use Rattle.vx_history.specs.declared.event.Said.TheVariants.{Done as IsDone};
ghost use Rattle.vx_order.specs.declared.facts.SiteFacts.{SiteFacts as SiteValue};
ghost use Rattle.vx_srlfmt.specs.Headers.{CanSpellState};
ghost use Rattle.vx_diskset.specs.Asked.{HeadUnder, SameFailing};
ghost use Rattle.vx_diskset.specs.Holds.{state_with};
ghost use Rattle.vx_events.specs.LinksFit.{LinksFit};
ghost use Rattle.vx_link_lines.specs.Headed.{HeadedSo, NotesAt, noted_by, part_said};
ghost use Rattle.vx_yard.specs.OfSites.{OfSite};
ghost use Rattle.vx_yard.specs.Standing.{StandsFor};
ghost use Rattle.vx_yard.specs.Yards.{IsTold, in_files};

use std::alloc::Global;
use vx_disk::Rack;
use vx_events::Said;
use vx_joins::join;
use vx_linked::keep_joined;
use vx_model::State;
use vx_secondary::Waiting;
use vx_yard::Yard;
use vx_yard::load::{let_go, let_go_if_down, set_feeder};
use vx_yard::refusing::refused;

/// The event that brings a site to the line of the first one, as its inconsistent secondary behind an empty log. What it had in assembly is let
/// go, and the first one feeds it. `state` is what the header of its log keeps then, and `waiting` has room for the updates that will wait there.
pub(crate) fn join_site<R: Rack>(
    yard: &mut Yard<R>,
    alloc: Global,
    waiting: Waiting,
    here: usize,
    there: usize,
    state: &State,
) -> Result<(), Said>
    requires empty { waiting ≡ [] }
    requires first { here < length yard.old.facts.items }
    requires small { here < MOST_SITES }
    requires facts { there < length yard.old.facts.items }
    requires disk_set { there < length yard.old.disk_sets.items }
    requires state { CanSpellState state.now }
    ensures heads { (d : Doubted) (note : (ℕ → Node) → ℕ → Node) (sync : SyncValue) → NotesAt there note → StandsFor (noted_by note d) yard.old → LinksFit d → there < d.world.sites
        → (d.world.nodes here).group ≡ None → (d.world.nodes there).group ≡ None → (step d.world (LinkAt here there sync FailsWhenFull Joins)).said ≡ IsDone → state.now ≡ state_with (joined (d.world.nodes here) here (d.world.nodes there)) []
        → HeadedSo note d (LinkAt here there sync FailsWhenFull Joins) there yard.old yard.new result }
    ensures asked { (d : Doubted) → StandsFor d yard.old → there < d.world.sites → OfSite SameFailing there yard.old yard.new }
    // It is one header, and no other call.
    ensures called { (d : Doubted) (note : (ℕ → Node) → ℕ → Node) (sync : SyncValue) → NotesAt there note → StandsFor (noted_by note d) yard.old → LinksFit d → there < d.world.sites
        → (d.world.nodes there).group ≡ None → (step d.world (LinkAt here there sync FailsWhenFull Joins)).said ≡ IsDone → OfSite (HeadUnder 2 (part_said result)) there yard.old yard.new }
    ensures links { IfOk result (λ done. (k : ℕ) (a b : SiteValue) → slice_get yard.old.facts.items k ≡ Some a → slice_get yard.new.facts.items k ≡ Some b → b.links ≡ a.links) }
    ensures many { length yard.new.facts.items ≡ length yard.old.facts.items }
    ensures disk_sets { length yard.new.disk_sets.items ≡ length yard.old.disk_sets.items }
    ensures flight { yard.new.flight ≡ yard.old.flight }
    ensures told { IsTold yard.new → IsTold yard.old }
    ensures files { in_files yard.new ≡ in_files yard.old }
{
    match join(&mut yard.disk_sets[there], state, waiting) {
        Ok(()) => {
            keep_joined(&mut yard.facts, here, there);
            let_go(&mut yard.assemblies, there);
            set_feeder(&mut yard.feeders, there, here as u32);
            Ok(())
        }
        Err(no) => {
            let_go_if_down(&mut yard.assemblies, there, &no);
            Err(refused(alloc, &mut yard.facts[there], no))
        }
    }
}
