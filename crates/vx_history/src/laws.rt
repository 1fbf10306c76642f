// What the definitions promise of every world that can come about.
ghost use Rattle.std.specs.Prelude.{◌≡◌, ◌≤◌, ◌<◌, ℕ, List, length, None, IsTrue, true};
ghost use Rattle.vx_model.specs.Content.{Write};
ghost use Rattle.vx_history.specs.World.{Fuse, World, empty_world};
ghost use Rattle.vx_model.specs.Sites.{is_origin};
ghost use Rattle.vx_history.specs.Steps.{site_made, raw_made, group_back, group_made, written, half_written, crash_left, deported_world, fallen_world, came_up, session_begun, stopped_by};
ghost use Rattle.vx_history.specs.Good.{Good, IsMade, IsWorking};
ghost use Rattle.vx_model.specs.declared.site.SiteState.TheVariants.{Bare};

/// A world in which no site is made is good, and each event of a primary without links leaves a good world good.
pub fn stays_good()
    ensures empty { Good empty_world }
    ensures site { (w : World) (name : List ℕ) (disks blocks : ℕ) → Good w → Good (site_made w name disks blocks) }
    ensures raw { (w : World) (s : ℕ) → Good w → s < w.sites → (w.nodes s).state ≡ Bare → Good (raw_made w s) }
    ensures group { (w : World) (s : ℕ) → Good w → s < w.sites → (w.nodes s).state ≡ Bare → Good (group_made w s) }
    ensures write { (w : World) (s : ℕ) (x : Write) → Good w → IsWorking (w.nodes s) → Good (written w s x) }
    ensures fault { (w : World) (s : ℕ) (x : Write) (disk : ℕ) → Good w → IsWorking (w.nodes s) → Good (half_written w s x disk) }
    ensures crash { (w : World) (s k : ℕ) → Good w → IsMade (w.nodes s) → is_origin (w.nodes s).role ≡ true → (w.nodes s).safe ≤ k → k ≤ length (w.nodes s).log → Good (crash_left w s k) }
    ensures fall { (w : World) (s : ℕ) → Good w → IsMade (w.nodes s) → length (w.nodes s).log ≤ (w.nodes s).safe → Good (fallen_world w s) }
    ensures deport { (w : World) (s : ℕ) (fuse : Fuse) → Good w → IsMade (w.nodes s) → length (w.nodes s).log ≤ (w.nodes s).safe → Good (deported_world fuse w s) }
    ensures recovery { (w : World) (s : ℕ) → Good w → IsMade (w.nodes s) → length (w.nodes s).log ≤ (w.nodes s).safe → Good (came_up w s) }
    ensures again { (w : World) (s : ℕ) → Good w → IsMade (w.nodes s) → length (w.nodes s).log ≤ (w.nodes s).safe → Good (group_back w s) }
    ensures refused { (w : World) (s : ℕ) → Good w → IsMade (w.nodes s) → Good (session_begun w s) }
    ensures halt { (w : World) (s disk : ℕ) → Good w → IsMade (w.nodes s) → Good (stopped_by w s disk) }
{}
