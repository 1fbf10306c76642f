// What the rules of a replay promise of every event.
ghost use Rattle.std.specs.Prelude.{◌≡◌, ◌≢◌, ◌≤◌, ◌<◌, ℕ, Bool};
ghost use Rattle.vx_history.specs.declared.receiver.RState.{RState};
ghost use Rattle.vx_model.specs.declared.history.Line.{Line};
ghost use Rattle.vx_model.specs.declared.link.Link.{Link};
ghost use Rattle.vx_model.specs.declared.link.Mode.TheVariants.{Log as ByLog};
ghost use Rattle.vx_model.specs.declared.site.Mark.TheVariants.{Consistent, Inconsistent};
ghost use Rattle.vx_model.specs.declared.site.SPhase.TheVariants.{Log as Fills, Regions};
ghost use Rattle.vx_replay.specs.Primary.{end_in, id_in, primary_step, told_stored};
ghost use Rattle.vx_replay.specs.Secondary.{id_of, secondary_step};
ghost use Rattle.vx_replay.specs.declared.event.PAction.TheVariants.{Finished, Ignored as PIgnored};
ghost use Rattle.vx_replay.specs.declared.event.PEvent.{PEvent};
ghost use Rattle.vx_replay.specs.declared.event.PEvent.TheVariants.{Ack};
ghost use Rattle.vx_replay.specs.declared.event.QAction.TheVariants.{Begin, Ignored as QIgnored, Store};
ghost use Rattle.vx_replay.specs.declared.event.QEvent.{QEvent};

/// A link comes back to the log where it is finished and nowhere else, and it is finished only where its receiver has stored up to the
/// replay's end. A message that is ignored changes nothing, and an answer of another replay is ignored.
pub fn ends_when_stored()
    ensures finished { (l : Link) (e : PEvent) → (primary_step l e).action ≡ Finished → ((primary_step l e).link.mode ≡ ByLog) × (end_in l.mode ≤ told_stored l.mode e) }
    ensures only { (l : Link) (e : PEvent) → l.mode ≢ ByLog → (primary_step l e).link.mode ≡ ByLog → (primary_step l e).action ≡ Finished }
    ensures ignored { (l : Link) (e : PEvent) → (primary_step l e).action ≡ PIgnored → (primary_step l e).link ≡ l }
    ensures earlier { (l : Link) (id kind : ℕ) (marked : Bool) → id ≢ id_in l.mode → (primary_step l (Ack id kind marked)).action ≡ PIgnored }
{}

/// A receiver becomes consistent only behind the last region of a replay whose end is not above its start. It is inconsistent from the
/// begin of a replay, which is a later one. A region is stored only while it takes those of this replay. What is ignored changes nothing.
pub fn consistent_at_the_end()
    ensures becomes { (s : RState) (e : QEvent) → s.mark ≡ Inconsistent → (secondary_step s e).state.mark ≡ Consistent → ((secondary_step s e).state.phase ≡ Fills) × ((secondary_step s e).state.end ≤ (secondary_step s e).state.last) }
    ensures begins { (s : RState) (e : QEvent) → (secondary_step s e).action ≡ Begin → (s.replay < id_of e) × ((secondary_step s e).state.replay ≡ id_of e) × ((secondary_step s e).state.mark ≡ Inconsistent) × ((secondary_step s e).state.phase ≡ Regions) }
    ensures stores { (s : RState) (e : QEvent) → (secondary_step s e).action ≡ Store → (s.phase ≡ Regions) × (s.replay ≡ id_of e) × ((secondary_step s e).state ≡ s) }
    ensures ignored { (s : RState) (e : QEvent) → (secondary_step s e).action ≡ QIgnored → (secondary_step s e).state ≡ s }
{}
