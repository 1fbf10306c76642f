// What the delivery of a packet changes of a world.
ghost use Rattle.std.specs.Prelude.{◌≡◌, ℕ, ◌+◌, ◌≤◌, Bool, false, [], Some, length, ltb, if◌then◌else◌};
ghost use Rattle.vx_model.specs.Content.{Write as LogWrite};
ghost use Rattle.vx_model.specs.Sites.{is_origin};
ghost use Rattle.vx_history.specs.Doubts.{Doubted, happened};
ghost use Rattle.vx_history.specs.Events.{delivered, handed, packet_at, with_write};
ghost use Rattle.vx_history.specs.Refusals.{says};
ghost use Rattle.vx_history.specs.World.{Link, Node, Packet, Update, World, updated};
ghost use Rattle.vx_history.specs.declared.event.Event.TheVariants.{Deliver};
ghost use Rattle.vx_history.specs.declared.event.Said.TheVariants.{Ignored};
ghost use Rattle.vx_events.specs.Effects.{EffectAt};
ghost use Rattle.vx_events.specs.LinksFit.{LinksFit};
ghost use Rattle.vx_effects.specs.Facts.{fact_of, received_fact};

/// The delivery of an update changes its target alone: its node, what it puts together, and the packets. No link changes, and no header is written. What
/// the tests of a line see of a target that took a write and has no links is the number of its last write.
pub fn updates_change_their_target()
    ensures update { (d : Doubted) (number : ℕ) (p : Packet) (k : ℕ) (x : LogWrite) (taken : Bool) → packet_at d.world.packets number ≡ Some p → p.message ≡ Update k x
        → EffectAt p.target d (happened d (Deliver number) taken) ((delivered d.world number (packet_at d.world.packets number)).world.nodes p.target) (d.world.links p.target) (d.world.headers p.target) (d.after p.target)
        (delivered d.world number (packet_at d.world.packets number)).world.packets ((delivered d.world number (packet_at d.world.packets number)).world.gathering p.target) }
    ensures fact { (n : Node) (row : ℕ → Link) (sites source : ℕ) (x : LogWrite) → is_origin n.role ≡ false → (fact_of n row sites).links ≡ []
        → fact_of (with_write n source x) row sites ≡ received_fact (length n.log + 1) (fact_of n row sites) }
{}

/// The delivery of a greeting or an acknowledgement changes one link of its target and what that puts together. A header is written where the link comes
/// to count more as stored. A packet that nobody hears changes nothing: one whose target ignores it, one to no site, and an answer of no site.
pub fn answers_change_their_target()
    ensures answer { (d : Doubted) (number : ℕ) (p : Packet) (taken : Bool) → packet_at d.world.packets number ≡ Some p → ((n : ℕ) (x : LogWrite) → p.message ≡ Update n x → ⊥)
        → EffectAt p.target d (happened d (Deliver number) taken) (d.world.nodes p.target)
        (updated (d.world.links p.target) p.source ((delivered d.world number (packet_at d.world.packets number)).world.links p.target p.source))
        (d.world.headers p.target + (if ltb (d.world.links p.target p.source).stored ((delivered d.world number (packet_at d.world.packets number)).world.links p.target p.source).stored then 1 else 0))
        (d.after p.target) d.world.packets ((delivered d.world number (packet_at d.world.packets number)).world.gathering p.target) }
    ensures ignored { (d : Doubted) (number s : ℕ) (taken : Bool) → delivered d.world number (packet_at d.world.packets number) ≡ says d.world Ignored
        → EffectAt s d (happened d (Deliver number) taken) (d.world.nodes s) (d.world.links s) (d.world.headers s) (d.after s) d.world.packets (d.world.gathering s) }
    ensures deaf { (w : World) (number : ℕ) (p : Packet) → packet_at w.packets number ≡ Some p → handed w p ≡ says w Ignored
        → delivered w number (packet_at w.packets number) ≡ says w Ignored }
    ensures target { (d : Doubted) (number : ℕ) (p : Packet) → LinksFit d → packet_at d.world.packets number ≡ Some p → d.world.sites ≤ p.target
        → delivered d.world number (packet_at d.world.packets number) ≡ says d.world Ignored }
    ensures source { (d : Doubted) (number : ℕ) (p : Packet) → LinksFit d → packet_at d.world.packets number ≡ Some p → ((n : ℕ) (x : LogWrite) → p.message ≡ Update n x → ⊥)
        → d.world.sites ≤ p.source → delivered d.world number (packet_at d.world.packets number) ≡ says d.world Ignored }
{}
