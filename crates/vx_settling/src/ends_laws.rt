// Where the events of settling end: all are done, or one of them is stopped.
ghost use Rattle.std.specs.Prelude.{◌≡◌, ◌≤◌, ℕ, ◌++◌, Bool, true, false, List, [], None};
ghost use Rattle.vx_model.specs.Sites.{is_origin};
ghost use Rattle.vx_history.specs.Doubts.{Doubted, Runs};
ghost use Rattle.vx_history.specs.GoodWorld.{GoodWorld};
ghost use Rattle.vx_history.specs.Settling.{MaySettle};
ghost use Rattle.vx_history.specs.Step.{step};
ghost use Rattle.vx_history.specs.Stops.{IsFused, all_fails};
ghost use Rattle.vx_history.specs.World.{World};
ghost use Rattle.vx_history.specs.declared.event.Event.{Event};
ghost use Rattle.vx_history.specs.declared.event.Event.TheVariants.{Connect, Pump, Tick};
ghost use Rattle.vx_history.specs.declared.event.Said.TheVariants.{Done};
ghost use Rattle.vx_script.specs.declared.line.ScriptLine.{ScriptLine};
ghost use Rattle.vx_script.specs.declared.line.ScriptLine.TheVariants.{Settle};
ghost use Rattle.vx_events.specs.Doubts.{run_as};
ghost use Rattle.vx_events.specs.Facts.{site_number};
ghost use Rattle.vx_events.specs.Fails.{Fails};
ghost use Rattle.vx_events.specs.LinkEnds.{AreLeft, LinkEnds, LinkReplies};
ghost use Rattle.vx_events.specs.LinkLists.{link_events};
ghost use Rattle.vx_events.specs.StepsOver.{refused_over};
ghost use Rattle.vx_events.specs.LinksFit.{LinksFit};
ghost use Rattle.vx_events.specs.Parts.{DonePart, PartLeft};
ghost use Rattle.vx_events.specs.Settles.{CanSettle};
ghost use Rattle.vx_events.specs.declared.said.Said.{Said};
ghost use Rattle.vx_events.specs.declared.said.Said.TheVariants.{Settled};
ghost use Rattle.vx_settling.specs.Ending.{StopsAmong};
ghost use Rattle.vx_settling.specs.Kinds.{StaysAs};

/// A link that a line may settle is connected, ticked and pumped without a refusal, and still may be settled behind that.
pub fn settling_goes_on()
    ensures connect { (w : World) (p s : ℕ) → CanSettle w p s → (step w (Connect p s)).said ≡ Done }
    ensures tick { (w : World) (p s : ℕ) → CanSettle w p s → (step w (Tick p s)).said ≡ Done }
    ensures pump { (w : World) (p s : ℕ) → CanSettle w p s → (step w (Pump p s)).said ≡ Done }
    ensures can { (w v : World) (p s : ℕ) → StaysAs w v → CanSettle w p s → CanSettle v p s }
{}

/// A line that settles a link, with all its events done and all that is durable at its first site stored, answers what is durable there; the first site is as it
/// was. In a good world where the link may be settled that is what its second site has stored; and the link may be settled where no test refuses the line.
pub fn settles_at_the_head()
    ensures first { (d last : Doubted) (p s : List ℕ) → is_origin (d.world.nodes (site_number d.world p)).role ≡ true → Runs d (link_events d.world (Settle p s)) last
        → last.world.nodes (site_number d.world p) ≡ d.world.nodes (site_number d.world p) }
    ensures replies { (d last : Doubted) (p s : List ℕ) → is_origin (d.world.nodes (site_number d.world p)).role ≡ true → Runs d (link_events d.world (Settle p s)) last
        → (d.world.nodes (site_number d.world p)).safe ≤ (last.world.links (site_number d.world p) (site_number d.world s)).stored
        → LinkReplies (Settle p s) d last (link_events d.world (Settle p s)) (Settled (d.world.nodes (site_number d.world p)).safe) }
    ensures done { (told : Bool) (d last new : Doubted) (p s : List ℕ) → is_origin (d.world.nodes (site_number d.world p)).role ≡ true → Runs d (link_events d.world (Settle p s)) last
        → (d.world.nodes (site_number d.world p)).safe ≤ (last.world.links (site_number d.world p) (site_number d.world s)).stored
        → AreLeft (Settle p s) d last new → LinkEnds (told ≡ true) d (Settle p s) [] (Settled (d.world.nodes (site_number d.world p)).safe) new }
    ensures stored { (d last : Doubted) (p s : List ℕ) → GoodWorld d.world → MaySettle d.world (site_number d.world p) (site_number d.world s) → Runs d (link_events d.world (Settle p s)) last
        → (last.world.links (site_number d.world p) (site_number d.world s)).stored ≡ (d.world.nodes (site_number d.world p)).safe }
    ensures free { (d last : Doubted) (files : Bool) (p s : List ℕ) → GoodWorld d.world → LinksFit d → refused_over d.world files (Settle p s) ≡ None → Runs d (link_events d.world (Settle p s)) last
        → (last.world.links (site_number d.world p) (site_number d.world s)).stored ≡ (d.world.nodes (site_number d.world p)).safe }
{}

/// Events that a failing disk, a fuse or want of a number stops are stopped so among more events, and behind others that are done and that set no fuse. So
/// a line ends of which they are the events. Where memory runs out behind some of them, these are a first part of the line's.
pub fn stops_are_ends()
    ensures more { (told : Bool) (d : Doubted) (xs ys : List Event) (fails : Fails) (said : Said) (last : Doubted) → StopsAmong (told ≡ true) d xs fails said last
        → StopsAmong (told ≡ true) d (xs ++ ys) fails said last }
    ensures behind { (told : Bool) (d m : Doubted) (xs ys : List Event) (fails : Fails) (said : Said) (last : Doubted) → Runs d xs m → all_fails xs ≡ []
        → ((i : ℕ) → IsFused (m.world.nodes i).fuse → IsFused (d.world.nodes i).fuse) → StopsAmong (told ≡ true) m ys fails said last
        → StopsAmong (told ≡ true) d (xs ++ ys) fails said last }
    ensures line { (told : Bool) (d : Doubted) (line : ScriptLine) (fails : Fails) (said : Said) (last new : Doubted) → StopsAmong (told ≡ true) d (link_events d.world line) fails said last
        → AreLeft line d last new → LinkEnds (told ≡ true) d line fails said new }
    ensures runs { (d m n : Doubted) (xs ys : List Event) → Runs d xs m → Runs m ys n → Runs d (xs ++ ys) n }
    ensures ran { (taken : Bool) (d : Doubted) (xs ys : List Event) → run_as taken d (xs ++ ys) ≡ run_as taken (run_as taken d xs) ys }
    ensures left { (line : ScriptLine) (d : Doubted) (xs before : List Event) (new : Doubted) → (xs ≡ [] → ⊥) → AreLeft line d (run_as false (run_as false d xs) before) new
        → PartLeft line d (xs ++ before) new }
    ensures part { (d : Doubted) (p s : List ℕ) (before rest : List Event) (new : Doubted) → link_events d.world (Settle p s) ≡ before ++ rest → PartLeft (Settle p s) d before new
        → DonePart d (Settle p s) new }
{}
