// What the lines that need no disk leave of what disks hold, and of what is under way.
ghost use Rattle.std.specs.Prelude.{◌≡◌, ◌⊎◌, ◌++◌, ℕ, ◌≤◌, List, Some, slice_get, true};
ghost use Rattle.std.specs.List.{list_any};
ghost use Rattle.vx_order.specs.Sending.{last_number};
ghost use Rattle.vx_history.specs.Admission.{hold, is_holding};
ghost use Rattle.vx_history.specs.Listed.{AreListed};
ghost use Rattle.vx_history.specs.Refusals.{is_waited_for, some_below};
ghost use Rattle.vx_history.specs.Step.{step};
ghost use Rattle.vx_history.specs.World.{Packet, World};
ghost use Rattle.vx_history.specs.declared.event.Event.TheVariants.{Connect, Cut, Pause, Pump, Resume, Tick, Wait};
ghost use Rattle.vx_order.specs.declared.facts.LinkFacts.{LinkFacts};
ghost use Rattle.vx_order.specs.declared.facts.SiteFacts.{SiteFacts};
ghost use Rattle.vx_events.specs.LinkedFacts.{links_of_site};
ghost use Rattle.vx_linked.specs.Disks.{LeavesDisks};
ghost use Rattle.vx_linked.specs.Holds.{HeldBy, awaits, least_hold};

/// Each site is as it was but for its links, and of those the header of its log keeps the same, whether the event is refused or not.
pub fn leaves_disks()
    ensures connect { (w : World) (p s : ℕ) → LeavesDisks w (step w (Connect p s)).world }
    ensures cut { (w : World) (p s : ℕ) → LeavesDisks w (step w (Cut p s)).world }
    ensures pause { (w : World) (p s : ℕ) → LeavesDisks w (step w (Pause p s)).world }
    ensures resume { (w : World) (p s : ℕ) → LeavesDisks w (step w (Resume p s)).world }
    ensures tick { (w : World) (p s : ℕ) → LeavesDisks w (step w (Tick p s)).world }
    ensures wait { (w : World) (p number : ℕ) → LeavesDisks w (step w (Wait p number)).world }
    ensures pump { (w : World) (p s : ℕ) → LeavesDisks w (step w (Pump p s)).world }
{}

/// Of these events none but a connect and a pump sends packets, and what they send comes behind what was sent before.
pub fn sends_nothing()
    ensures connect { (w : World) (p s : ℕ) → (more : List Packet) × ((step w (Connect p s)).world.packets ≡ w.packets ++ more) }
    ensures pump { (w : World) (p s : ℕ) → (more : List Packet) × ((step w (Pump p s)).world.packets ≡ w.packets ++ more) }
    ensures cut { (w : World) (p s : ℕ) → (step w (Cut p s)).world.packets ≡ w.packets }
    ensures pause { (w : World) (p s : ℕ) → (step w (Pause p s)).world.packets ≡ w.packets }
    ensures resume { (w : World) (p s : ℕ) → (step w (Resume p s)).world.packets ≡ w.packets }
    ensures tick { (w : World) (p s : ℕ) → (step w (Tick p s)).world.packets ≡ w.packets }
    ensures wait { (w : World) (p number : ℕ) → (step w (Wait p number)).world.packets ≡ w.packets }
{}

/// The least hold of a site is no more than the hold of any link that needs its log, nor than its last number, and it is one of these.
pub fn holds_what_links_need()
    ensures each { (site : SiteFacts) (k : ℕ) (l : LinkFacts) → slice_get site.links k ≡ Some l → is_holding l.link ≡ true → least_hold site ≤ hold l.link }
    ensures last { (site : SiteFacts) → least_hold site ≤ last_number site.rvg }
    ensures held { (site : SiteFacts) → (least_hold site ≡ last_number site.rvg) ⊎ HeldBy (least_hold site) site.links }
{}

/// Some link of the world waits for a write of its site exactly where one in memory does.
pub fn awaits_as_the_world()
    ensures { (w : World) → AreListed w → (p : ℕ) → some_below w.sites (λ k. is_waited_for k (w.links p k)) ≡ list_any awaits (links_of_site w p) }
{}
