// What settling leaves over disks that tell no contents: between the two sites packets are sent and delivered, of whatever writes.
ghost use Rattle.std.specs.Prelude.{◌≡◌, ◌⊎◌, ℕ, suc, ◌≤◌, Bool, true, false, List, length, Some};
ghost use Rattle.vx_model.specs.Content.{Write};
ghost use Rattle.vx_history.specs.Doubts.{Doubted, happened};
ghost use Rattle.vx_history.specs.Events.{packet_at};
ghost use Rattle.vx_history.specs.Settling.{is_between};
ghost use Rattle.vx_history.specs.Stops.{IsFused};
ghost use Rattle.vx_history.specs.World.{Packet};
ghost use Rattle.vx_history.specs.declared.event.Event.TheVariants.{Apply, Connect, Deliver, Pump, Tick};
ghost use Rattle.vx_script.specs.declared.line.ScriptLine.TheVariants.{Settle};
ghost use Rattle.vx_events.specs.Facts.{site_number};
ghost use Rattle.vx_events.specs.Fails.{Fails};
ghost use Rattle.vx_events.specs.LinkEnds.{AreLeft, LinkEnds};
ghost use Rattle.vx_events.specs.LinkFinds.{EndsBetween, MayTake, MovesBetween, PumpSends, kept_with, pumped_with, taken_with};
ghost use Rattle.vx_events.specs.LinksFit.{LinksFit};
ghost use Rattle.vx_events.specs.Parts.{StopsShort};
ghost use Rattle.vx_events.specs.Settles.{CanSettle};
ghost use Rattle.vx_events.specs.declared.said.Said.{Said};
ghost use Rattle.vx_settling.specs.Between.{IsSent, MayMove, is_update};

/// Each step of settling moves packets between the two sites and changes nothing else: as its event does, or where updates of other writes are sent, taken or
/// kept. So do several steps; what may move still may, a fuse that is set was set before, and names are those of the same sites. A packet that was sent since is
/// one that settling sends: between the two an update to the second, or an answer or a greeting to the first.
pub fn passes_between()
    ensures may { (d : Doubted) (p s : ℕ) → LinksFit d → CanSettle d.world p s → MayMove p s d.world }
    ensures begins { (p s : ℕ) (d : Doubted) → MayMove p s d.world → MovesBetween p s d d }
    ensures connect { (p s : ℕ) (d : Doubted) → MayMove p s d.world → (taken : Bool) → MovesBetween p s d (happened d (Connect p s) taken) }
    ensures tick { (p s : ℕ) (d : Doubted) → MayMove p s d.world → (taken : Bool) → MovesBetween p s d (happened d (Tick p s) taken) }
    ensures pump { (p s : ℕ) (d : Doubted) → MayMove p s d.world → (taken : Bool) → MovesBetween p s d (happened d (Pump p s) taken) }
    ensures pump_other { (p s : ℕ) (d : Doubted) → MayMove p s d.world → (more : List Packet) → PumpSends d.world p s more → MovesBetween p s d (record d { world = pumped_with d.world p s more }) }
    ensures apply { (p s : ℕ) (d : Doubted) → MayMove p s d.world → (count reached : ℕ) (taken : Bool) → MovesBetween p s d (happened d (Apply s count reached) taken) }
    ensures deliver { (p s : ℕ) (d : Doubted) → MayMove p s d.world → (number : ℕ) (q : Packet) (taken : Bool) → packet_at d.world.packets number ≡ Some q → IsSent p s q
        → is_between p s q ≡ true → MovesBetween p s d (happened d (Deliver number) taken) }
    ensures take_other { (p s : ℕ) (d : Doubted) → MayMove p s d.world → (number : ℕ) (q : Packet) (x : Write) (takes : MayTake d.world number q) → IsSent p s q
        → MovesBetween p s d (record d { world = taken_with d.world q takes.count x }) }
    ensures keep_other { (p s : ℕ) (d : Doubted) → MayMove p s d.world → (number : ℕ) (q : Packet) → MayTake d.world number q → IsSent p s q → MovesBetween p s d (record d { world = kept_with d.world q }) }
    ensures several { (p s : ℕ) (d e f : Doubted) → MovesBetween p s d e → MovesBetween p s e f → MovesBetween p s d f }
    ensures still { (p s : ℕ) (d e : Doubted) → MovesBetween p s d e → MayMove p s d.world → MayMove p s e.world }
    ensures fuses { (p s : ℕ) (d e : Doubted) → MovesBetween p s d e → (i : ℕ) → IsFused (e.world.nodes i).fuse → IsFused (d.world.nodes i).fuse }
    ensures since { (p s : ℕ) (d e : Doubted) → MovesBetween p s d e → (k : ℕ) (q : Packet) → length d.world.packets ≤ k → packet_at e.world.packets (suc k) ≡ Some q → IsSent p s q }
    ensures ways { (p s : ℕ) (q : Packet) → (s ≡ p → ⊥) → IsSent p s q → is_between p s q ≡ true
        → ((q.source ≡ p) × (q.target ≡ s) × (is_update q.message ≡ true)) ⊎ ((q.source ≡ s) × (q.target ≡ p) × (is_update q.message ≡ false)) }
    ensures names { (p s : ℕ) (d e : Doubted) (name : List ℕ) → MovesBetween p s d e → site_number e.world name ≡ site_number d.world name }
{}

/// A line that moved packets between its two sites so, and then stored all, or was refused, or whose disk failed or fuse ran out, ends as a line does over
/// disks that tell no contents, or where the world has strayed. So it does where memory runs out; and the links of the world fit still.
pub fn ends_between()
    ensures finds { (told : Bool) (d middle : Doubted) (p s : List ℕ) → MovesBetween (site_number d.world p) (site_number d.world s) d middle → (fails : Fails) (said : Said) (last new : Doubted)
        → (told ≡ true → d.strayed ≡ false → ⊥) → EndsBetween (site_number d.world p) (site_number d.world s) d middle fails said last → AreLeft (Settle p s) d last new
        → LinkEnds (told ≡ true) d (Settle p s) fails said new }
    ensures short { (told : Bool) (d middle : Doubted) (p s : List ℕ) → MovesBetween (site_number d.world p) (site_number d.world s) d middle → (new : Doubted) → (told ≡ true → d.strayed ≡ false → ⊥)
        → AreLeft (Settle p s) d middle new → StopsShort (told ≡ true) d (Settle p s) new }
    ensures fits { (d middle : Doubted) (p s : List ℕ) → MovesBetween (site_number d.world p) (site_number d.world s) d middle → LinksFit d → LinksFit middle }
{}
