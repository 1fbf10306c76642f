// What the events of a line that makes a link change, that each follows the one before it, and what is then seen and kept of the links.
ghost use Rattle.std.specs.Prelude.{◌≡◌, ◌⊎◌, ℕ, List, Option, ◌+◌, ◌<◌, ◌++◌, ◌∷◌, [], Bool, true, false, Some, None};
ghost use Rattle.vx_model.specs.declared.link.Prot.{Prot};
ghost use Rattle.vx_model.specs.declared.link.SyncMode.{SyncMode};
ghost use Rattle.vx_model.specs.declared.site.Mark.{Mark};
ghost use Rattle.vx_model.specs.declared.site.Mark.TheVariants.{Consistent};
ghost use Rattle.vx_model.specs.declared.site.SiteState.TheVariants.{Up};
ghost use Rattle.vx_history.specs.Doubts.{After, Doubted, happened};
ghost use Rattle.vx_history.specs.Events.{joined, linked_sites, new_link, opened};
ghost use Rattle.vx_history.specs.KeptLinks.{kept_link, kept_links};
ghost use Rattle.vx_history.specs.Listed.{HasPlaces, links_in};
ghost use Rattle.vx_history.specs.Refusals.{count_links_of};
ghost use Rattle.vx_history.specs.Sends.{is_linked};
ghost use Rattle.vx_history.specs.Step.{run, step};
ghost use Rattle.vx_history.specs.Steps.{worked, worked_on};
ghost use Rattle.vx_history.specs.World.{Gathering, Link, Node, Packet, World, updated};
ghost use Rattle.vx_history.specs.declared.event.Event.TheVariants.{Link as LinkAt};
ghost use Rattle.vx_history.specs.declared.event.LinkPart.TheVariants.{Joins, Made, Marked, Opened};
ghost use Rattle.vx_history.specs.declared.event.Said.TheVariants.{Done};
ghost use Rattle.vx_events.specs.Effects.{EffectAt};
ghost use Rattle.vx_events.specs.LinkedFacts.{link_fact};
ghost use Rattle.vx_events.specs.StepsOver.{facts_over};
ghost use Rattle.vx_events.specs.LinksFit.{LinksFit};
ghost use Rattle.vx_effects.specs.Facts.{fact_of, marked_fact};
ghost use Rattle.vx_effects.specs.LinkParts.{further_fact, joined_fact, kept_over, noted_both};

/// Each part of a line that links s to p, if it is done, leaves all sites but one as they are. That one has one header more: s as it comes to
/// the line of p, where nothing is in assembly any more, and as it is marked; p as it has the link, and as that goes by the log.
pub fn parts_change_one_site()
    ensures joins { (d : Doubted) (p s : ℕ) (sync : SyncMode) (prot : Prot) (taken : Bool) → (step d.world (LinkAt p s sync prot Joins)).said ≡ Done
        → EffectAt s d (happened d (LinkAt p s sync prot Joins) taken) (joined (d.world.nodes p) p (d.world.nodes s)) (d.world.links s) (d.world.headers s + 1) (d.after s) d.world.packets None }
    ensures made { (d : Doubted) (p s : ℕ) (sync : SyncMode) (prot : Prot) (taken : Bool) → (step d.world (LinkAt p s sync prot Made)).said ≡ Done
        → EffectAt p d (happened d (LinkAt p s sync prot Made) taken) (d.world.nodes p) (updated (d.world.links p) s (new_link (count_links_of d.world p) sync prot (d.world.nodes s)))
        (d.world.headers p + 1) (d.after p) d.world.packets (d.world.gathering p) }
    ensures marked { (d : Doubted) (p s : ℕ) (sync : SyncMode) (prot : Prot) (taken : Bool) → (step d.world (LinkAt p s sync prot Marked)).said ≡ Done
        → EffectAt s d (happened d (LinkAt p s sync prot Marked) taken) (record (d.world.nodes s) { mark = Consistent }) (d.world.links s) (d.world.headers s + 1) (d.after s) d.world.packets
        (d.world.gathering s) }
    ensures opened { (d : Doubted) (p s : ℕ) (sync : SyncMode) (prot : Prot) (taken : Bool) → (step d.world (LinkAt p s sync prot Opened)).said ≡ Done
        → EffectAt p d (happened d (LinkAt p s sync prot Opened) taken) (d.world.nodes p) (updated (d.world.links p) s (opened (d.world.links p s) (d.world.nodes p).safe))
        (d.world.headers p + 1) (d.after p) d.world.packets (d.world.gathering p) }
{}

/// Behind the part that brings s to the line of p each further part is done.
pub fn parts_follow()
    ensures made { (w : World) (p s : ℕ) (sync : SyncMode) (prot : Prot) → (step w (LinkAt p s sync prot Joins)).said ≡ Done
        → (step (run w (LinkAt p s sync prot Joins ∷ [])) (LinkAt p s sync prot Made)).said ≡ Done }
    ensures marked { (w : World) (p s : ℕ) (sync : SyncMode) (prot : Prot) → (step w (LinkAt p s sync prot Joins)).said ≡ Done
        → (step (run w (LinkAt p s sync prot Joins ∷ LinkAt p s sync prot Made ∷ [])) (LinkAt p s sync prot Marked)).said ≡ Done }
    ensures opened { (w : World) (p s : ℕ) (sync : SyncMode) (prot : Prot) → (step w (LinkAt p s sync prot Joins)).said ≡ Done
        → (step (run w (LinkAt p s sync prot Joins ∷ LinkAt p s sync prot Made ∷ LinkAt p s sync prot Marked ∷ [])) (LinkAt p s sync prot Opened)).said ≡ Done }
{}

/// What the tests of a line see of a site without links that came to the line of another one, of one with a link more, and of one that is marked.
pub fn shows_a_made_link()
    ensures joined { (a n : Node) (p : ℕ) (row : ℕ → Link) (sites : ℕ) → ((k : ℕ) → k < sites → is_linked (row k) ≡ false)
        → fact_of (joined a p n) row sites ≡ joined_fact a.line a.parent (fact_of n row sites) }
    ensures further { (n : Node) (row : ℕ → Link) (sites s : ℕ) (l : Link) → n.state ≡ Up → HasPlaces sites row → s < sites → is_linked (row s) ≡ false → l.made ≡ Some (links_in sites row)
        → fact_of n (updated row s l) sites ≡ further_fact (link_fact n s l) (fact_of n row sites) }
    ensures marked { (n : Node) (row : ℕ → Link) (sites : ℕ) (mark : Mark) → fact_of (record n { mark = mark }) row sites ≡ marked_fact mark (fact_of n row sites) }
{}

/// What the header of a log keeps of the links of a site of which one changed, or that has one more.
pub fn headers_keep_a_link()
    ensures changed { (row : ℕ → Link) (sites s : ℕ) (l : Link) → l.made ≡ (row s).made
        → kept_links (updated row s l) (linked_sites (updated row s l) sites 0 sites) ≡ kept_over (kept_link s l) (kept_links row (linked_sites row sites 0 sites)) }
    ensures further { (row : ℕ → Link) (sites s : ℕ) (l : Link) → HasPlaces sites row → s < sites → is_linked (row s) ≡ false → l.made ≡ Some (links_in sites row)
        → kept_links (updated row s l) (linked_sites (updated row s l) sites 0 sites) ≡ kept_links row (linked_sites row sites 0 sites) ++ kept_link s l ∷ [] }
{}

/// What a line notes of two sites changes nothing but their fuses: the tests of a line see what they saw, the links fit, and an event at one of the
/// two changes the same.
pub fn notes_burn_fuses()
    ensures shows { (w : World) (s : ℕ) → facts_over (worked_on w s) ≡ facts_over w }
    ensures fits { (d : Doubted) (a b : ℕ) → LinksFit d → LinksFit (noted_both d a b) }
    ensures here { (d : Doubted) (a b s : ℕ) → (s ≡ a) ⊎ (s ≡ b) → (noted_both d a b).world.nodes s ≡ worked (d.world.nodes s) }
    ensures there { (d : Doubted) (a b s : ℕ) → (s ≡ a → ⊥) → (s ≡ b → ⊥) → (noted_both d a b).world.nodes s ≡ d.world.nodes s }
    ensures effect { (d e : Doubted) (a b s : ℕ) (n : Node) (row : ℕ → Link) (many : ℕ) (doubt : Option After) (packets : List Packet) (gathered : Option Gathering) → (s ≡ a) ⊎ (s ≡ b)
        → EffectAt s d e n row many doubt packets gathered → EffectAt s (noted_both d a b) (noted_both e a b) (worked n) row many doubt packets gathered }
{}
