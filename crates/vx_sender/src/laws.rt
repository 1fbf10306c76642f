// What the rule of a link's sending end promises of every event.
ghost use Rattle.std.specs.Prelude.{◌≡◌, ◌≢◌, ◌+◌, ◌≤◌, ◌<◌, ℕ};
ghost use Rattle.vx_history.specs.Sending.{sent_step};
ghost use Rattle.vx_model.specs.declared.limits.TheConstants.{MOST_AHEAD};
ghost use Rattle.vx_model.specs.declared.link.Link.{Link};
ghost use Rattle.vx_history.specs.declared.sender.SEvent.{SEvent};
ghost use Rattle.vx_history.specs.declared.sender.SEvent.TheVariants.{NetAck};
ghost use Rattle.vx_history.specs.declared.sender.SFacts.{SFacts};
ghost use Rattle.vx_history.specs.declared.sender.Action.TheVariants.{Ignored, Updates};

/// What is stored never falls. Updates that are sent were not sent since the last tick, are not stored, are durable, and are at
/// most `MOST_AHEAD` numbers past the last acknowledged one. A message that is ignored changes nothing, and an acknowledgement from memory of
/// another session is ignored.
pub fn keeps_its_numbers()
    ensures stored { (l : Link) (e : SEvent) (f : SFacts) → l.stored ≤ (sent_step l e f).link.stored }
    ensures updates { (l : Link) (e : SEvent) (f : SFacts) (from to : ℕ) → (sent_step l e f).action ≡ Updates from to → (l.sent < from) × (l.stored < from) × (from ≤ to) × (to ≤ f.safe) × (to ≤ l.net + MOST_AHEAD) }
    ensures ignored { (l : Link) (e : SEvent) (f : SFacts) → (sent_step l e f).action ≡ Ignored → (sent_step l e f).link ≡ l }
    ensures session { (l : Link) (session number : ℕ) (f : SFacts) → session ≢ l.session → (sent_step l (NetAck session number) f).action ≡ Ignored }
{}
