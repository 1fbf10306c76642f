// What events change of a world, and what they keep.
ghost use Rattle.std.specs.Prelude.{◌≡◌, ℕ, ◌+◌, ◌<◌, ◌≤◌, ◌++◌, ◌∷◌, [], Bool, true, false, List, None, Some, eqb, length, min, slice_set, IsTrue};
ghost use Rattle.vx_model.specs.Content.{Write as LogWrite, blocks_in};
ghost use Rattle.vx_model.specs.Sites.{is_origin};
ghost use Rattle.vx_model.specs.Sizes.{is_raw_shape};
ghost use Rattle.vx_model.specs.declared.limits.TheConstants.{MOST_NUMBER};
ghost use Rattle.vx_model.specs.declared.link.Prot.{Prot};
ghost use Rattle.vx_model.specs.declared.link.SyncMode.{SyncMode};
ghost use Rattle.vx_model.specs.declared.site.Mark.{Mark};
ghost use Rattle.vx_model.specs.declared.site.SiteState.TheVariants.{Bare, Up, Down};
ghost use Rattle.vx_model.specs.declared.site.Role.TheVariants.{Primary};
ghost use Rattle.vx_history.specs.Sound.{is_at_rest};
ghost use Rattle.vx_model.specs.declared.state.KeptLink.{KeptLink};
ghost use Rattle.vx_history.specs.Doubts.{Doubted, Runs, crashed_as, halved, happened, resolved_at};
ghost use Rattle.vx_history.specs.Events.{admitted, applied, come_back, kept_of, link_with, linked_sites, lost_touch, recovery_greeting, restarted_link, said_of_write, used_above};
ghost use Rattle.vx_history.specs.Headers.{headers_by};
ghost use Rattle.vx_history.specs.KeptLinks.{kept_links};
ghost use Rattle.vx_history.specs.Admission.{Goes, is_holding};
ghost use Rattle.vx_history.specs.LinkForms.{plain_link};
ghost use Rattle.vx_history.specs.declared.admission.Change.{Change};
ghost use Rattle.vx_history.specs.Sends.{is_linked, packets_of};
ghost use Rattle.vx_history.specs.Step.{outcome_of, step};
ghost use Rattle.vx_history.specs.Steps.{burned, crashed, deported_site, group_set, group_up, half_begun, logged, raw_set, recovered, site_made, worked_on};
ghost use Rattle.vx_history.specs.Stops.{IsOpen, WritesAt};
ghost use Rattle.vx_history.specs.World.{DataAck, Link, Node, World, bare_site, empty_world, updated, with_node};
ghost use Rattle.vx_history.specs.declared.event.Event.{Event};
ghost use Rattle.vx_history.specs.declared.event.Event.TheVariants.{Apply, Crash, Deport, Fault, Group, Raw, Read, Recover, Set, Site, Write};
ghost use Rattle.vx_history.specs.declared.event.Said.TheVariants.{Done};
ghost use Rattle.vx_script.specs.declared.line.ScriptLine.{ScriptLine};
ghost use Rattle.vx_events.specs.Doubts.{run_as, sure};
ghost use Rattle.vx_events.specs.Effects.{AddsSite, ChangesAt, ChangesNode, EffectAt, KeepsDisks};
ghost use Rattle.vx_events.specs.Fails.{Fails};
ghost use Rattle.vx_events.specs.GroupEnds.{GroupEnds};
ghost use Rattle.vx_events.specs.GroupLines.{MakesNoFailure, is_over_group};
ghost use Rattle.vx_events.specs.declared.said.Said.{Said};
ghost use Rattle.vx_events.specs.Ends.{IsLeft, found_linked};
ghost use Rattle.vx_events.specs.Found.{ComesUpAs};
ghost use Rattle.vx_events.specs.LinkEnds.{AreLeft};
ghost use Rattle.vx_events.specs.LinkFinds.{FindsOther};
ghost use Rattle.vx_events.specs.LinkedFacts.{link_facts, seen_fact};
ghost use Rattle.vx_events.specs.StepsOver.{fact_over, facts_over};
ghost use Rattle.vx_events.specs.LinksFit.{LinksFit, RowFits};
ghost use Rattle.vx_events.specs.Stamps.{waiting_of};
ghost use Rattle.vx_effects.specs.Applies.{applied_up_to, behind_apply};
ghost use Rattle.vx_effects.specs.Facts.{down_fact, fact_of, half_fact, halted_fact, logged_fact, marked_fact, risen_fact};
ghost use Rattle.vx_effects.specs.Restarts.{IsAgain, are_fine, facts_again, needs_of, row_of_kept};
ghost use Rattle.vx_effects.specs.Settings.{AllSetFail, SetsFail};
ghost use Rattle.vx_effects.specs.Writes.{IsLetIn};

/// The links of the world without sites fit. Events that are done, one that a failing disk ends, a crash of a site in doubt, and what a line notes keep
/// the links of a world fitting, where none of the events sets a link to anything but to fail the writes that its log has no room for.
pub fn links_stay_fit()
    ensures empty { LinksFit (sure empty_world) }
    ensures happened { (d : Doubted) (e : Event) (taken : Bool) → SetsFail e → LinksFit d → LinksFit (happened d e taken) }
    ensures run { (taken : Bool) (d : Doubted) (events : List Event) → AllSetFail events → LinksFit d → LinksFit (run_as taken d events) }
    ensures runs { (d new : Doubted) (events : List Event) → Runs d events new → AllSetFail events → LinksFit d → LinksFit new }
    ensures halved { (d : Doubted) (e : Event) (s disk : ℕ) → IsOpen (d.world.nodes s) → WritesAt d.world e s → SetsFail e → LinksFit d → LinksFit (halved d e s disk) }
    ensures crashed { (d : Doubted) (s kept : ℕ) (taken : Bool) → (d.world.nodes s).state ≡ Up → LinksFit d → LinksFit (crashed_as d s kept taken) }
    ensures left { (s : ℕ) (line : ScriptLine) (taken : Bool) (d last new : Doubted) → IsLeft s line taken d last new → LinksFit last → LinksFit new }
    ensures found { (d : Doubted) (s : ℕ) (n k : Node) (row : ℕ → Link) → s < d.world.sites → d.after s ≡ None → ComesUpAs s d.world.sites n k row → LinksFit d → LinksFit (found_linked d s k row) }
    ensures finds { (d : Doubted) (line : ScriptLine) (fails : Fails) (said : Said) (last : Doubted) → FindsOther d line fails said last → LinksFit d → LinksFit last }
    ensures links_left { (line : ScriptLine) (d last new : Doubted) → AreLeft line d last new → LinksFit last → LinksFit new }
{}

/// Each event of one site by itself, which its tests let through, leaves the others as they are, and of that site this. So does what a line notes.
pub fn changes_one_site()
    ensures resolved { (d : Doubted) (s : ℕ) (taken : Bool) → ChangesAt s d (resolved_at d s taken) }
    ensures crash { (d : Doubted) (s kept : ℕ) (taken : Bool) → RowFits s (resolved_at d s taken).world.sites ((resolved_at d s taken).world.links s) → s < (resolved_at d s taken).world.sites → ((resolved_at d s taken).world.nodes s).state ≡ Up
        → EffectAt s d (happened d (Crash s kept) taken) (crashed ((resolved_at d s taken).world.nodes s) (kept_of ((resolved_at d s taken).world.nodes s) kept))
        (λ k. lost_touch ((resolved_at d s taken).world.links s k)) (d.world.headers s) None d.world.packets None }
    ensures recover { (d : Doubted) (s : ℕ) (taken : Bool) → s < d.world.sites → (d.world.nodes s).state ≡ Down → (d.world.nodes s).session < MOST_NUMBER
        → EffectAt s d (happened d (Recover s None) taken) (come_back (d.world.nodes s)) (λ k. restarted_link (come_back (d.world.nodes s)) k (d.world.links s k)) (d.world.headers s) (d.after s)
        (d.world.packets ++ recovery_greeting s (come_back (d.world.nodes s))) (d.world.gathering s) }
    ensures origin { (d : Doubted) (s : ℕ) (taken : Bool) → s < d.world.sites → (d.world.nodes s).state ≡ Down → (d.world.nodes s).session < MOST_NUMBER → is_origin (d.world.nodes s).role ≡ true
        → EffectAt s d (happened d (Recover s None) taken) (recovered (d.world.nodes s)) (λ k. restarted_link (recovered (d.world.nodes s)) k (d.world.links s k)) (d.world.headers s) (d.after s)
        d.world.packets (d.world.gathering s) }
    ensures session { (d : Doubted) (s disk : ℕ) (taken : Bool) → s < d.world.sites → (d.world.nodes s).state ≡ Down → (d.world.nodes s).session < MOST_NUMBER
        → EffectAt s d (happened d (Recover s (Some disk)) taken) (record (d.world.nodes s) { session = (d.world.nodes s).session + 1 }) (d.world.links s) (d.world.headers s) (d.after s)
        d.world.packets (d.world.gathering s) }
    ensures write { (d : Doubted) (s : ℕ) (x : LogWrite) → RowFits s d.world.sites (d.world.links s) → IsLetIn d.world s x → (taken : Bool)
        → EffectAt s d (happened d (Write s x.volume x.start x.bytes None) taken) (logged (d.world.nodes s) x) (d.world.links s) (d.world.headers s) (d.after s) d.world.packets (d.world.gathering s) }
    ensures half { (d : Doubted) (s : ℕ) (x : LogWrite) → RowFits s d.world.sites (d.world.links s) → IsLetIn d.world s x → (disk : ℕ) (taken : Bool)
        → EffectAt s d (happened d (Write s x.volume x.start x.bytes (Some disk)) taken)
        (record (d.world.nodes s) { log = (d.world.nodes s).log ++ x ∷ []; halted = Some disk; fuse = burned (d.world.nodes s).fuse }) (d.world.links s) (d.world.headers s) (d.after s)
        d.world.packets (d.world.gathering s) }
    ensures read { (d : Doubted) (s volume start count : ℕ) (taken : Bool)
        → EffectAt s d (happened d (Read s volume start count) taken) (d.world.nodes s) (d.world.links s) (d.world.headers s) (d.after s) d.world.packets (d.world.gathering s) }
    ensures reached { (d : Doubted) (s count reached : ℕ) (taken : Bool) → s < d.world.sites → (d.world.nodes s).state ≡ Up → (d.world.nodes s).halted ≡ None
        → is_origin (d.world.nodes s).role ≡ true → min count (d.world.nodes s).safe ≤ reached → reached ≤ (d.world.nodes s).safe
        → EffectAt s d (happened d (Apply s count reached) taken) (d.world.nodes s) (d.world.links s) (d.world.headers s) (d.after s) d.world.packets (d.world.gathering s) }
    ensures idle { (d : Doubted) (s count reached : ℕ) (taken : Bool) → s < d.world.sites → (d.world.nodes s).state ≡ Up → (d.world.nodes s).halted ≡ None
        → is_origin (d.world.nodes s).role ≡ false → eqb (min count (waiting_of (d.world.nodes s))) 0 ≡ true
        → EffectAt s d (happened d (Apply s count reached) taken) (d.world.nodes s) (d.world.links s) (d.world.headers s) (d.after s) d.world.packets (d.world.gathering s) }
    ensures applied { (d : Doubted) (s count reached : ℕ) (taken : Bool) → s < d.world.sites → (d.world.nodes s).state ≡ Up → (d.world.nodes s).halted ≡ None
        → is_origin (d.world.nodes s).role ≡ false → eqb (min count (waiting_of (d.world.nodes s))) 0 ≡ false
        → EffectAt s d (happened d (Apply s count reached) taken) (behind_apply (d.world.nodes s) count) (d.world.links s) (d.world.headers s) (d.after s)
        (d.world.packets ++ packets_of s (d.world.nodes s).fed_by (d.world.nodes s).line (DataAck (applied_up_to (d.world.nodes s) count))) (d.world.gathering s) }
    ensures fault { (d : Doubted) (s disk : ℕ) (taken : Bool) → s < d.world.sites → (d.world.nodes s).state ≡ Up
        → EffectAt s d (happened d (Fault s disk) taken) (record (d.world.nodes s) { halted = Some disk; fuse = burned (d.world.nodes s).fuse }) (d.world.links s) (d.world.headers s) (d.after s)
        d.world.packets (d.world.gathering s) }
    ensures set { (d : Doubted) (s q : ℕ) (sync : SyncMode) (prot : Prot) (taken : Bool) → (step d.world (Set s q sync prot)).said ≡ Done
        → EffectAt s d (happened d (Set s q sync prot) taken) (d.world.nodes s) (updated (d.world.links s) q (link_with sync prot (d.world.links s q)))
        (d.world.headers s + 1) (d.after s) d.world.packets (d.world.gathering s) }
    ensures raw { (d : Doubted) (s : ℕ) (taken : Bool) → s < d.world.sites → (d.world.nodes s).state ≡ Bare → is_raw_shape (d.world.nodes s).disks (d.world.nodes s).blocks ≡ true
        → EffectAt s d (happened d (Raw s) taken) (raw_set s (d.world.nodes s)) (d.world.links s) (d.world.headers s) (d.after s) d.world.packets (d.world.gathering s) }
    ensures group { (d : Doubted) (s : ℕ) (taken : Bool) → s < d.world.sites → (d.world.nodes s).state ≡ Bare
        → EffectAt s d (happened d (Group s) taken) (group_set s (d.world.nodes s)) (d.world.links s) (d.world.headers s) (d.after s) d.world.packets (d.world.gathering s) }
    ensures again { (d : Doubted) (s : ℕ) (taken : Bool) → s < d.world.sites → is_at_rest (d.world.nodes s).state ≡ true → (d.world.nodes s).role ≡ Primary
        → (d.world.nodes s).volumes ≡ [] → (d.world.nodes s).log ≡ []
        → EffectAt s d (happened d (Group s) taken) (group_up (d.world.nodes s)) (d.world.links s) (d.world.headers s) (d.after s) d.world.packets (d.world.gathering s) }
    ensures deport { (d : Doubted) (s : ℕ) (taken : Bool) → RowFits s d.world.sites (d.world.links s) → s < d.world.sites → (d.world.nodes s).state ≡ Up → (d.world.nodes s).halted ≡ None
        → EffectAt s d (happened d (Deport s) taken) (deported_site (d.world.nodes s).fuse (crashed (d.world.nodes s) (kept_of (d.world.nodes s) 0))) (λ k. lost_touch (d.world.links s k)) (d.world.headers s) (d.after s)
        d.world.packets None }
    ensures note { (d : Doubted) (s : ℕ) (n : Node) → EffectAt s d (record d { world = with_node d.world s n }) n (d.world.links s) (d.world.headers s) (d.after s) d.world.packets (d.world.gathering s) }
    ensures left { (s : ℕ) (line : ScriptLine) (taken : Bool) (d last new : Doubted) → IsLeft s line taken d last new → ChangesAt s last new }
    ensures site { (d : Doubted) (name : List ℕ) (disks blocks : ℕ) (taken : Bool) → outcome_of d.world (Site name disks blocks) ≡ record { world = site_made d.world name disks blocks; said = Done }
        → AddsSite d (happened d (Site name disks blocks) taken) (bare_site name disks blocks) }
{}

/// However a line over a group of disks ends, each other site is as it was; and the site itself keeps its name and its disks, with those that are made to
/// fail, but where the line is one that does that.
pub fn groups_change_one_site()
    ensures keeps { (tells : Bool) (d : Doubted) (line : ScriptLine) (s : ℕ) (fails : Fails) (said : Said) (new : Doubted) → MakesNoFailure line
        → GroupEnds (IsTrue tells) d line s fails said new → KeepsDisks (d.world.nodes s) (new.world.nodes s) }
    ensures aside { (tells : Bool) (d : Doubted) (line : ScriptLine) (s : ℕ) (fails : Fails) (said : Said) (new : Doubted) → GroupEnds (IsTrue tells) d line s fails said new
        → ChangesNode s d new }
{}

/// A write writes no header and changes no link, as each link that fits fails what its log has no room for; what is said of it goes by the links before it.
/// Beside it the log has room for what each link needs.
pub fn writes_change_no_link()
    ensures headers { (d : Doubted) (s : ℕ) (x : LogWrite) (i : ℕ) → RowFits s d.world.sites (d.world.links s)
        → headers_by (Write s x.volume x.start x.bytes None) d.world (outcome_of d.world (Write s x.volume x.start x.bytes None)) i ≡ 0 }
    ensures half { (d : Doubted) (s : ℕ) (x : LogWrite) (disk i : ℕ) → RowFits s d.world.sites (d.world.links s)
        → headers_by (Write s x.volume x.start x.bytes (Some disk)) d.world (outcome_of d.world (Write s x.volume x.start x.bytes (Some disk))) i ≡ 0 }
    ensures room { (w : World) (s : ℕ) (x : LogWrite) (cs : List Change) → RowFits s w.sites (w.links s) → admitted w s x ≡ Goes cs → (k : ℕ) → is_linked (w.links s k) ≡ true
        → is_holding (plain_link k (w.links s k)) ≡ true → (blocks_in x.bytes + 1) + used_above (w.nodes s) k (w.links s k) ≤ (w.nodes s).ring }
    ensures said { (d : Doubted) (s : ℕ) (x : LogWrite) → RowFits s d.world.sites (d.world.links s) → IsLetIn d.world s x
        → (step d.world (Write s x.volume x.start x.bytes None)).said ≡ said_of_write d.world s ((d.world.nodes s).safe + 1) }
{}

/// What the tests of a line see of a world that an event at one site left differs in the facts of that site alone, and those follow from the ones before.
pub fn shows_one_site()
    ensures others { (s : ℕ) (d e : Doubted) → ChangesNode s d e → s < d.world.sites → facts_over e.world ≡ slice_set (facts_over d.world) s (fact_over e.world s) }
    ensures added { (d e : Doubted) (n : Node) → AddsSite d e n → n.state ≡ Bare → is_over_group n ≡ false → LinksFit d → facts_over e.world ≡ facts_over d.world ++ seen_fact n ∷ [] }
    ensures logged { (n : Node) (row : ℕ → Link) (sites : ℕ) (x : LogWrite) → is_origin n.role ≡ true → length n.log ≡ n.safe
        → fact_of (logged n x) row sites ≡ logged_fact (n.safe + 1) (blocks_in x.bytes + 1) (fact_of n row sites) }
    ensures half { (n : Node) (row : ℕ → Link) (sites : ℕ) (x : LogWrite) (disk : ℕ) → is_origin n.role ≡ true → length n.log ≡ n.safe
        → fact_of (record n { log = n.log ++ x ∷ []; halted = Some disk; fuse = burned n.fuse }) row sites ≡ half_fact disk (n.safe + 1) (blocks_in x.bytes + 1) (fact_of n row sites) }
    ensures halted { (n : Node) (row : ℕ → Link) (sites disk : ℕ) → fact_of (record n { halted = Some disk; fuse = burned n.fuse }) row sites ≡ halted_fact disk (fact_of n row sites) }
    ensures applied { (n : Node) (row : ℕ → Link) (sites number : ℕ) (mark : Mark) → is_origin n.role ≡ false
        → fact_of (applied n number mark) row sites ≡ marked_fact mark (fact_of n row sites) }
    ensures down { (n : Node) (row : ℕ → Link) (sites k : ℕ) (new : ℕ → Link) → fact_of (crashed n k) new sites ≡ down_fact (fact_of n row sites) }
    ensures risen { (n : Node) (row : ℕ → Link) (sites : ℕ) (new : ℕ → Link) → fact_of (come_back n) new sites ≡ risen_fact (come_back n) new sites (fact_of n row sites) }
{}

/// The header of a log keeps the same links of a site that crashed, of one that came up, and of each that an event leaves as it is.
pub fn headers_keep_the_same()
    ensures touch { (row : ℕ → Link) (sites : ℕ) → kept_links (λ k. lost_touch (row k)) (linked_sites (λ k. lost_touch (row k)) sites 0 sites) ≡ kept_links row (linked_sites row sites 0 sites) }
    ensures restarted { (n : Node) (p sites : ℕ) (row : ℕ → Link) → RowFits p sites row
        → kept_links (λ k. restarted_link n k (row k)) (linked_sites (λ k. restarted_link n k (row k)) sites 0 sites) ≡ kept_links row (linked_sites row sites 0 sites) }
    ensures others { (s : ℕ) (d e : Doubted) → ChangesNode s d e → (i : ℕ) → (i ≡ s → ⊥)
        → kept_links (e.world.links i) (linked_sites (e.world.links i) e.world.sites 0 e.world.sites) ≡ kept_links (d.world.links i) (linked_sites (d.world.links i) d.world.sites 0 d.world.sites) }
    ensures row { (row new : ℕ → Link) (sites : ℕ) → ((k : ℕ) → new k ≡ row k) → kept_links new (linked_sites new sites 0 sites) ≡ kept_links row (linked_sites row sites 0 sites) }
{}

/// Links that a header keeps, and that a site may keep, are those of a row that fits; those of a row that fits are such links. In memory a site that
/// comes up has them as its header keeps them, each with the blocks that it needs.
pub fn links_come_back()
    ensures fits { (p sites : ℕ) (ls : List KeptLink) → are_fine p sites ls ≡ true → RowFits p sites (row_of_kept ls) }
    ensures kept { (p sites : ℕ) (ls : List KeptLink) → are_fine p sites ls ≡ true → kept_links (row_of_kept ls) (linked_sites (row_of_kept ls) sites 0 sites) ≡ ls }
    ensures found { (p sites : ℕ) (ls : List KeptLink) → are_fine p sites ls ≡ true → IsAgain (row_of_kept ls) }
    ensures fine { (p sites : ℕ) (row : ℕ → Link) → RowFits p sites row → are_fine p sites (kept_links row (linked_sites row sites 0 sites)) ≡ true }
    ensures restarted { (p sites : ℕ) (row : ℕ → Link) → RowFits p sites row → (n : Node) → IsAgain (λ k. restarted_link n k (row k)) }
    ensures facts { (n : Node) (row : ℕ → Link) (sites : ℕ) → IsAgain row
        → link_facts n row (linked_sites row sites 0 sites) ≡ facts_again (kept_links row (linked_sites row sites 0 sites)) (needs_of n row (linked_sites row sites 0 sites)) }
{}

/// What a line that writes leaves where its links let it in, with what the line notes: it is done; or a disk failed in it; or the fuse of its site ran out,
/// and the site is down with one of the numbers of writes that a crash may keep.
pub fn leaves_a_written_site()
    ensures done { (d : Doubted) (s : ℕ) (x : LogWrite) → RowFits s d.world.sites (d.world.links s) → IsLetIn d.world s x
        → EffectAt s d (record (happened d (Write s x.volume x.start x.bytes None) false) { world = worked_on (happened d (Write s x.volume x.start x.bytes None) false).world s })
        (logged (d.world.nodes s) x) (d.world.links s) (d.world.headers s) (d.after s) d.world.packets (d.world.gathering s) }
    ensures halted { (d : Doubted) (s : ℕ) (x : LogWrite) → RowFits s d.world.sites (d.world.links s) → IsLetIn d.world s x → (disk : ℕ)
        → EffectAt s d (record (happened d (Write s x.volume x.start x.bytes (Some disk)) false) { world = worked_on (happened d (Write s x.volume x.start x.bytes (Some disk)) false).world s })
        (record (d.world.nodes s) { log = (d.world.nodes s).log ++ x ∷ []; halted = Some disk; fuse = burned (d.world.nodes s).fuse }) (d.world.links s) (d.world.headers s) (d.after s)
        d.world.packets (d.world.gathering s) }
    ensures cut { (d : Doubted) (s : ℕ) (x : LogWrite) → RowFits s d.world.sites (d.world.links s) → IsLetIn d.world s x → (count : ℕ) → (d.world.nodes s).safe ≤ count
        → count ≤ length ((d.world.nodes s).log ++ x ∷ [])
        → EffectAt s d (run_as false d (Write s x.volume x.start x.bytes (Some 0) ∷ Crash s count ∷ [])) (crashed (half_begun (d.world.nodes s) x) count)
        (λ k. lost_touch (d.world.links s k)) (d.world.headers s) None d.world.packets None }
{}
