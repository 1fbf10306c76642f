// What the rule of admission promises.
ghost use Rattle.std.specs.Prelude.{◌≡◌, ◌<◌, ◌≤◌, ℕ, false, List, length, get_or};
ghost use Rattle.vx_history.specs.Admission.{admit, Goes, is_down, blocks, changed};
ghost use Rattle.vx_history.specs.declared.admission.Change.{Change};
ghost use Rattle.vx_history.specs.declared.admission.Change.TheVariants.{Stays};
ghost use Rattle.vx_model.specs.declared.link.Link.{Link};

/// Where a write is let in no link is down; after the changes every link leaves room for it; and a link that left room before
/// does not change.
pub fn makes_room()
    ensures up { (need room : ℕ) (links : List Link) (used : List ℕ) (changes : List Change) (at : ℕ) (d : Link) → admit need room links used ≡ Goes changes → at < length links → is_down (get_or links at d) ≡ false }
    ensures room { (need room : ℕ) (links : List Link) (used : List ℕ) (changes : List Change) (at : ℕ) (d : Link) → admit need room links used ≡ Goes changes → at < length links → length links ≤ length used → blocks need room (changed (get_or changes at Stays) (get_or links at d)) (get_or used at 0) ≡ false }
    ensures stays { (need room : ℕ) (links : List Link) (used : List ℕ) (changes : List Change) (at : ℕ) (d : Link) → admit need room links used ≡ Goes changes → at < length links → length links ≤ length used → blocks need room (get_or links at d) (get_or used at 0) ≡ false → get_or changes at Stays ≡ Stays }
{}
