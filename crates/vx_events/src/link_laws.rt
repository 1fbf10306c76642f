// What the tests of a line of links, its events and its ends have to do with each other.
ghost use Rattle.std.specs.Prelude.{◌≡◌, ◌⊎◌, ◌*◌, ℕ, List, Bool, Some, None, false, true, length, replicate};
ghost use Rattle.vx_model.specs.declared.link.SyncMode.{SyncMode};
ghost use Rattle.vx_model.specs.declared.link.Prot.{Prot};
ghost use Rattle.vx_model.specs.declared.link.Prot.TheVariants.{Fail as FailsWhenFull};
ghost use Rattle.vx_history.specs.Admission.{Goes};
ghost use Rattle.vx_history.specs.Doubts.{Doubted};
ghost use Rattle.vx_history.specs.Events.{packet_at, admitted};
ghost use Rattle.vx_history.specs.Settling.{MaySettle};
ghost use Rattle.vx_history.specs.declared.admission.Change.{Change};
ghost use Rattle.vx_history.specs.Step.{step};
ghost use Rattle.vx_history.specs.World.{Packet, World};
ghost use Rattle.vx_history.specs.declared.event.Event.TheVariants.{Set as SetAt, Connect as ConnectAt, Cut as CutAt, Pause as PauseAt, Resume as ResumeAt, Tick as TickAt, Pump as PumpAt, Link as LinkAt, Wait as WaitAt};
ghost use Rattle.vx_history.specs.declared.event.LinkPart.TheVariants.{Joins};
ghost use Rattle.vx_history.specs.declared.event.Said.TheVariants.{Done, DoneAt, Pending};
ghost use Rattle.vx_script.specs.declared.line.ScriptLine.TheVariants.{Link, Wait, Set, Connect, Cut, Pause, Resume, Tick, Pump, Deliver, Settle, Write, Put};
ghost use Rattle.vx_history.specs.Listed.{AreListed};
ghost use Rattle.vx_events.specs.Durables.{AreDurable};
ghost use Rattle.vx_events.specs.Lines.{write_in};
ghost use Rattle.vx_events.specs.Facts.{site_number};
ghost use Rattle.vx_events.specs.LinkedFacts.{linked_facts, seen_facts};
ghost use Rattle.vx_events.specs.RvgOver.{is_plain_kind, kind_named};
ghost use Rattle.vx_events.specs.RvgViews.{is_over_rvg};
ghost use Rattle.vx_events.specs.StepsOver.{is_for_group, refused_over};
ghost use Rattle.vx_events.specs.LinksFit.{LinksFit};
ghost use Rattle.vx_events.specs.Plain.{IsUnlinked};
ghost use Rattle.vx_events.specs.Settles.{CanSettle};

use vx_model::limits::BLOCK;

/// Where no test of a line on a link refuses, its event is not refused by the world, and a packet that no test refuses is one that the network
/// still keeps. Where each link has a place of its own among those of its site, a write that is waited for is confirmed or pending; where
/// besides all writes are durable at a site that runs and takes them, the first event of a line that makes a link is not refused either. Where the links
/// of the world fit, a line that settles one finds two sites at work, the second a secondary on the line of the first, and the link between them live: it
/// may be settled.
pub fn link_tests_agree()
    ensures set { (w : World) (files : Bool) (p s : List ℕ) (sync : SyncMode) (prot : Prot) → refused_over w files (Set p s sync prot) ≡ None
        → (step w (SetAt (site_number w p) (site_number w s) sync FailsWhenFull)).said ≡ Done }
    ensures connect { (w : World) (files : Bool) (p s : List ℕ) → refused_over w files (Connect p s) ≡ None → (step w (ConnectAt (site_number w p) (site_number w s))).said ≡ Done }
    ensures cut { (w : World) (files : Bool) (p s : List ℕ) → refused_over w files (Cut p s) ≡ None → (step w (CutAt (site_number w p) (site_number w s))).said ≡ Done }
    ensures pause { (w : World) (files : Bool) (p s : List ℕ) → refused_over w files (Pause p s) ≡ None → (step w (PauseAt (site_number w p) (site_number w s))).said ≡ Done }
    ensures resume { (w : World) (files : Bool) (p s : List ℕ) → refused_over w files (Resume p s) ≡ None → (step w (ResumeAt (site_number w p) (site_number w s))).said ≡ Done }
    ensures tick { (w : World) (files : Bool) (p s : List ℕ) → refused_over w files (Tick p s) ≡ None → (step w (TickAt (site_number w p) (site_number w s))).said ≡ Done }
    ensures pump { (w : World) (files : Bool) (p s : List ℕ) → refused_over w files (Pump p s) ≡ None → (step w (PumpAt (site_number w p) (site_number w s))).said ≡ Done }
    ensures link { (w : World) (files : Bool) (p s : List ℕ) (sync : SyncMode) (prot : Prot) → AreDurable w → AreListed w → refused_over w files (Link p s sync prot) ≡ None
        → (step w (LinkAt (site_number w p) (site_number w s) sync FailsWhenFull Joins)).said ≡ Done }
    ensures wait { (w : World) (files : Bool) (p : List ℕ) (number : ℕ) → AreListed w → refused_over w files (Wait p number) ≡ None
        → ((step w (WaitAt (site_number w p) number)).said ≡ DoneAt number) ⊎ ((step w (WaitAt (site_number w p) number)).said ≡ Pending number) }
    ensures deliver { (w : World) (files : Bool) (number : ℕ) → refused_over w files (Deliver number) ≡ None → (q : Packet) × (packet_at w.packets number ≡ Some q) }
    ensures settle { (d : Doubted) (files : Bool) (p s : List ℕ) → LinksFit d → refused_over d.world files (Settle p s) ≡ None → CanSettle d.world (site_number d.world p) (site_number d.world s) }
    ensures settles { (w : World) (p s : ℕ) → CanSettle w p s → MaySettle w p s }
{}

/// A write to a raw set, or to a replicated volume group over a group of disks, that no test refuses is let in by the links of its site.
pub fn links_let_in()
    ensures write { (w : World) (files : Bool) (name volume : List ℕ) (start count fill : ℕ) → is_for_group w (Write name volume start count fill) ≡ false
        → (is_over_rvg (w.nodes (site_number w name)) ≡ true → is_plain_kind (kind_named (w.nodes (site_number w name)) volume) ≡ false) → refused_over w files (Write name volume start count fill) ≡ None
        → (cs : List Change) × (admitted w (site_number w name) (write_in w name volume start (replicate (BLOCK * count) fill)) ≡ Goes cs) }
    ensures put { (w : World) (files : Bool) (name volume : List ℕ) (start : ℕ) (bytes : List ℕ) → is_for_group w (Put name volume start bytes) ≡ false
        → (is_over_rvg (w.nodes (site_number w name)) ≡ true → is_plain_kind (kind_named (w.nodes (site_number w name)) volume) ≡ false) → refused_over w files (Put name volume start bytes) ≡ None → length bytes ≡ BLOCK
        → (cs : List Change) × (admitted w (site_number w name) (write_in w name volume start bytes) ≡ Goes cs) }
{}

/// Of a world without links the tests see nothing of links.
pub fn sees_no_links()
    ensures { (w : World) → IsUnlinked w → linked_facts w ≡ seen_facts w }
{}
