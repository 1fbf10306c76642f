// What holds of every world, whatever happens to it.
ghost use Rattle.std.specs.Prelude.{◌≡◌, ℕ, ◌≤◌, ◌<◌, Bool, List, [], take, drop, slice_get, Some, true, false};
ghost use Rattle.vx_model.specs.Content.{Write, IsPrefixOf, IsNumber, fold_writes};
ghost use Rattle.vx_history.specs.Good.{IsMade};
ghost use Rattle.vx_history.specs.World.{World, Node, Packet, Promise, Update, empty_world, with_node};
ghost use Rattle.vx_model.specs.Sites.{is_origin};
ghost use Rattle.vx_model.specs.declared.history.Line.{Line};
ghost use Rattle.vx_history.specs.declared.event.Event.{Event};
ghost use Rattle.vx_world.specs.Comings.{MayComeFirst};
ghost use Rattle.vx_world.specs.Grown.{GrownWorld};
ghost use Rattle.vx_history.specs.Settling.{MaySettle, IsMet, deliver_new, delivery, greeting_events, turn, settling};
ghost use Rattle.vx_history.specs.Regions.{marks_block};
ghost use Rattle.vx_history.specs.Sound.{Sound, IsFollowed, IsKept};
ghost use Rattle.vx_history.specs.GoodWorld.{GoodWorld};
ghost use Rattle.vx_history.specs.Likes.{IsLike};
ghost use Rattle.vx_history.specs.Looks.{AllLookSame, LooksSame};
ghost use Rattle.vx_history.specs.Listed.{AreListed};
ghost use Rattle.vx_history.specs.Steps.{stopped_by};
ghost use Rattle.vx_history.specs.Events.{kept_of, packet_at};
ghost use Rattle.vx_history.specs.Doubts.{After, Doubted, resolved, crashed_as, halved, happened};
ghost use Rattle.vx_history.specs.declared.event.Event.TheVariants.{Attach, Deliver, Detach, Link, Set};
ghost use Rattle.vx_history.specs.declared.event.LinkPart.TheVariants.{Joins, Made, Marked, Opened};
ghost use Rattle.vx_model.specs.declared.link.Mode.TheVariants.{Dcm};
ghost use Rattle.vx_model.specs.declared.link.Prot.{Prot};
ghost use Rattle.vx_model.specs.declared.link.SyncMode.{SyncMode};
ghost use Rattle.vx_model.specs.declared.site.SiteState.TheVariants.{Up};
ghost use Rattle.vx_history.specs.Stops.{EventsEnd, IsOpen, WritesAt};
ghost use Rattle.vx_world.specs.Lines.{DoubtsAlike, GoodDoubted, NoDoubts, RoomStays};
ghost use Rattle.vx_world.specs.Twins.{Twin, IsAlone, IsElsewhere, GoodTwin};
ghost use Rattle.vx_history.specs.Step.{step, run};

/// Whatever happens next, and whatever happens in turn: a sound world stays sound, and the world without sites is sound.
pub fn stays_sound()
    ensures empty { Sound empty_world }
    ensures step { (w : World) (e : Event) → Sound w → Sound (step w e).world }
    ensures run { (w : World) (events : List Event) → Sound w → Sound (run w events) }
    ensures always { (events : List Event) → Sound (run empty_world events) }
{}

/// The same of all that holds of every world: beside that, each write of a log fits the volumes and the ring of its site, and what a
/// site puts together are parts of a message that was sent to it. So a world that comes of the one without sites is good.
pub fn stays_good()
    ensures empty { GoodWorld empty_world }
    ensures step { (w : World) (e : Event) → GoodWorld w → GoodWorld (step w e).world }
    ensures run { (w : World) (events : List Event) → GoodWorld w → GoodWorld (run w events) }
    ensures always { (events : List Event) → GoodWorld (run empty_world events) }
{}

/// Worlds that differ in notes alone are good together, and every event makes such worlds of them, and says the same of both. One event
/// looks at a note: as a group of disks gets a replicated volume group, its data volumes hold what the group noted of them.
pub fn looks_at_no_note()
    ensures step { (w v : World) (e : Event) → IsLike w v → LooksSame e w v → IsLike (step w e).world (step v e).world }
    ensures said { (w v : World) (e : Event) → IsLike w v → (step v e).said ≡ (step w e).said }
    ensures run { (w v : World) (events : List Event) → IsLike w v → AllLookSame events w v → IsLike (run w events) (run v events) }
    ensures sound { (w v : World) → Sound w → IsLike w v → Sound v }
    ensures good { (w v : World) → GoodWorld w → IsLike w v → GoodWorld v }
{}

/// Whatever the network loses, repeats or reorders, and whenever sites crash: what a receiver has is a first part of what is durable at
/// the origin of its line, and the volumes of each site hold its writes in order, and no others. An origin has on its disks every
/// number that was answered on its line, and these are the writes that the line holds. Each promised number is kept, by the site's
/// disks or in its session. Each update that was ever sent carries the write of its number. Where a link goes by a change map, the site that it leads to
/// has in each block outside the map what the line holds there.
pub fn in_order()
    ensures first_part { (w : World) (events : List Event) (i : ℕ) → Sound w → IsMade ((run w events).nodes i) → is_origin ((run w events).nodes i).role ≡ false → IsPrefixOf ((run w events).nodes i).log ((run w events).lines ((run w events).nodes i).line).held }
    ensures content { (w : World) (events : List Event) (i : ℕ) → Sound w → fold_writes ((run w events).nodes i).base (drop ((run w events).nodes i).safe ((run w events).nodes i).log) ≡ fold_writes ((run w events).nodes i).start ((run w events).nodes i).log }
    ensures durable { (w : World) (events : List Event) (i : ℕ) → Sound w → IsMade ((run w events).nodes i) → is_origin ((run w events).nodes i).role ≡ true → take ((run w events).nodes i).safe ((run w events).nodes i).log ≡ ((run w events).lines ((run w events).nodes i).line).held }
    ensures answered { (w : World) (events : List Event) (i : ℕ) → Sound w → IsMade ((run w events).nodes i) → is_origin ((run w events).nodes i).role ≡ true → ((run w events).lines ((run w events).nodes i).line).told ≤ ((run w events).nodes i).safe }
    ensures promised { (w : World) (events : List Event) (k : ℕ) (e : Promise) → Sound w → slice_get (run w events).promised k ≡ Some e → IsKept ((run w events).nodes e.site) e.line e.number e.surety }
    ensures maps { (w : World) (events : List Event) (p s volume block : ℕ) → Sound w → is_origin ((run w events).nodes p).role ≡ true → IsFollowed ((run w events).nodes p) ((run w events).nodes s) ((run w events).links p s)
        → ((run w events).links p s).mode ≡ Dcm → marks_block ((run w events).links p s).map volume block ≡ false
        → ((run w events).nodes s).base.block volume block ≡ (fold_writes ((run w events).nodes s).start ((run w events).lines ((run w events).nodes p).line).held).block volume block }
    ensures updates { (w : World) (events : List Event) (k number : ℕ) (p : Packet) (x : Write) → Sound w → slice_get (run w events).packets k ≡ Some p → p.message ≡ Update number x → IsNumber ((run w events).lines p.line).held number x }
{}

/// What a line holds only grows, what was answered on it only rises, and no packet, no promise and no site that came to a line is
/// forgotten, whatever happens. So a write that its line holds under a number is held under that number from then on.
pub fn forgets_nothing()
    ensures run { (w : World) (events : List Event) → Sound w → GrownWorld w (run w events) }
    ensures number { (w : World) (events : List Event) (l : Line) (n : ℕ) (x : Write) → Sound w → IsMade (w.nodes l.origin) → IsNumber (w.lines l).held n x → IsNumber ((run w events).lines l).held n x }
{}

/// A site that never stood on a line may come to it with nothing of it, and where the line's origin stands on it no more at any number, with
/// that first part of what the line holds: what was sent, what was promised and what links say stays so.
pub fn comes_at_any_number()
    ensures first { (w : World) (i : ℕ) (n : Node) → Sound w → MayComeFirst w i n → Sound (with_node w i n) }
{}

/// In each world that comes about each link has a place of its own among those of its site: the list of the links by their places has all of
/// them, and each once.
pub fn links_are_listed()
    ensures good { (w : World) → GoodWorld w → AreListed w }
    ensures always { (events : List Event) → AreListed (run empty_world events) }
{}

/// Settling a link of a good world brings all that is durable at its site to its receiver's disks. The receiver's greeting lets the two meet, each turn
/// raises what is stored as long as that is below the head, and at the end it is the head, which has not changed. Only packets between the
/// two are delivered. Where they are, with what is sent in answer, none between the two is left.
pub fn settles()
    ensures meets { (w : World) (p s : ℕ) → GoodWorld w → MaySettle w p s → IsMet (run w (greeting_events w p s)) p s }
    ensures raises { (w : World) (p s : ℕ) → GoodWorld w → IsMet w p s → (w.links p s).stored < (w.nodes p).safe → (w.links p s).stored < ((run w (turn w p s)).links p s).stored }
    ensures meets_again { (w : World) (p s : ℕ) → GoodWorld w → IsMet w p s → (w.links p s).stored < (w.nodes p).safe → IsMet (run w (turn w p s)) p s }
    ensures ends { (w : World) (p s : ℕ) → GoodWorld w → MaySettle w p s → ((run w (settling w p s)).links p s).stored ≡ ((run w (settling w p s)).nodes p).safe }
    ensures none_left { (p s : ℕ) (old w : World) → deliver_new p s (run w (deliver_new p s old w)) (run w (delivery p s old w)) ≡ [] }
    ensures head { (w : World) (p s : ℕ) → GoodWorld w → MaySettle w p s → ((run w (settling w p s)).nodes p).safe ≡ (w.nodes p).safe }
{}

/// What happens elsewhere keeps two worlds that differ in one halted site and its links alone as they are in the rest, and both stay good.
/// So what a halted site may be on its disks needs no look until it crashes; then it is one of the two.
pub fn passes_a_halted_site()
    ensures step { (s : ℕ) (w v : World) (e : Event) → IsElsewhere s e → Twin s w v → Twin s (step w e).world (step v e).world }
    ensures good { (s : ℕ) (w v : World) (e : Event) → IsElsewhere s e → GoodTwin s w v → GoodTwin s (step w e).world (step v e).world }
    ensures halts { (s disk : ℕ) (w : World) (e : Event) → GoodWorld w → (w.nodes s).state ≡ Up → IsAlone s w (step w e).world → GoodTwin s (stopped_by w s disk) (resolved (stopped_by w s disk) s (record { node = (stopped_by (step w e).world s disk).nodes s; row = (step w e).world.links s })) }
    ensures crashes { (d : Doubted) (s kept : ℕ) (taken : Bool) (a : After) → d.after s ≡ Some a → GoodTwin s d.world (resolved d.world s a) → GoodWorld (crashed_as d s kept taken).world }
{}

/// The events that write a header of a log change one site and its links alone.
pub fn changes_one_site()
    ensures settings { (w : World) (s q : ℕ) (sync : SyncMode) (prot : Prot) → (w.nodes s).state ≡ Up → IsAlone s w (step w (Set s q sync prot)).world }
    ensures attaches { (w : World) (s q : ℕ) → (w.nodes s).state ≡ Up → IsAlone s w (step w (Attach s q)).world }
    ensures detaches { (w : World) (s q : ℕ) → (w.nodes s).state ≡ Up → IsAlone s w (step w (Detach s q)).world }
    ensures heard { (w : World) (s number : ℕ) (p : Packet) → (w.nodes s).state ≡ Up → packet_at w.packets number ≡ Some p → p.target ≡ s → ((n : ℕ) (x : Write) → p.message ≡ Update n x → ⊥) → IsAlone s w (step w (Deliver number)).world }
    ensures joins { (w : World) (s p : ℕ) (sync : SyncMode) (prot : Prot) → (w.nodes s).state ≡ Up → IsAlone s w (step w (Link p s sync prot Joins)).world }
    ensures made { (w : World) (s q : ℕ) (sync : SyncMode) (prot : Prot) → (w.nodes s).state ≡ Up → IsAlone s w (step w (Link s q sync prot Made)).world }
    ensures marked { (w : World) (s p : ℕ) (sync : SyncMode) (prot : Prot) → (w.nodes s).state ≡ Up → IsAlone s w (step w (Link p s sync prot Marked)).world }
    ensures opened { (w : World) (s q : ℕ) (sync : SyncMode) (prot : Prot) → (w.nodes s).state ≡ Up → IsAlone s w (step w (Link s q sync prot Opened)).world }
{}

/// With any number of halted sites in doubt: an event that is done, one that a disk ends at a further site, and a crash of a site in doubt
/// leave a world that is good whichever of the sites in doubt are as they may be on their disks.
pub fn passes_halted_sites()
    ensures done { (d : Doubted) (e : Event) (taken : Bool) → GoodDoubted d → GoodDoubted (happened d e taken) }
    ensures halts { (d : Doubted) (e : Event) (s disk : ℕ) → GoodDoubted d → IsOpen (d.world.nodes s) → WritesAt d.world e s → GoodDoubted (halved d e s disk) }
    ensures crashes { (d : Doubted) (s kept : ℕ) (taken : Bool) (a : After) → d.after s ≡ Some a → GoodDoubted d → GoodDoubted (crashed_as d s kept taken) }
{}

/// However a line ends, and whatever sites are in doubt before it: its world is good, whichever of the sites that are in doubt then are as
/// they may be on their disks. A good world without doubts is a beginning.
pub fn lines_stay_good()
    ensures line { (d new : Doubted) (events : List Event) (fails : List (ℕ × ℕ)) → GoodDoubted d → EventsEnd d events fails new → GoodDoubted new }
    ensures begins { (d : Doubted) → GoodWorld d.world → NoDoubts d → GoodDoubted d }
    ensures world { (d : Doubted) → GoodDoubted d → GoodWorld d.world }
    ensures twins { (d : Doubted) (s : ℕ) (a : After) → GoodDoubted d → d.after s ≡ Some a → GoodTwin s d.world (resolved d.world s a) }
{}

/// However a line ends, each site that has data volumes has these still, and its log: a site gets them once. What a site in doubt may be on its disks has those that
/// the site has.
pub fn keeps_data_volumes()
    ensures line { (d new : Doubted) (events : List Event) (fails : List (ℕ × ℕ)) → GoodDoubted d → DoubtsAlike d → EventsEnd d events fails new → RoomStays d new }
    ensures begins { (d : Doubted) → NoDoubts d → DoubtsAlike d }
{}

/// A deport keeps of a site's writes those that a crash keeps for certain, and no others.
pub fn deports_keep_what_is_safe()
    ensures { (w : World) (s : ℕ) → Sound w → kept_of (w.nodes s) 0 ≡ (w.nodes s).safe }
{}
