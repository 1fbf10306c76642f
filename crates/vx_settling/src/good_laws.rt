// What lines over groups of disks keep of good worlds.
ghost use Rattle.std.specs.Prelude.{◌≡◌, ℕ, Bool, true, false, IsTrue};
ghost use Rattle.vx_history.specs.Doubts.{Doubted};
ghost use Rattle.vx_history.specs.Good.{IsMade};
ghost use Rattle.vx_script.specs.declared.line.ScriptLine.{ScriptLine};
ghost use Rattle.vx_world.specs.Lines.{DoubtsAlike, GoodDoubted, RoomStays};
ghost use Rattle.vx_events.specs.Fails.{Fails};
ghost use Rattle.vx_events.specs.GroupEnds.{BringsUp};
ghost use Rattle.vx_events.specs.GroupNotes.{note_at};
ghost use Rattle.vx_events.specs.RvgBack.{RvgFinds};
ghost use Rattle.vx_events.specs.RvgFits.{FitsNoted};
ghost use Rattle.vx_events.specs.Brights.{AllBright};
ghost use Rattle.vx_events.specs.RvgOver.{OpensFor, OverRvg};
ghost use Rattle.vx_events.specs.RvgSteps.{StepFull};
ghost use Rattle.vx_events.specs.RvgViews.{is_over_rvg};
ghost use Rattle.vx_events.specs.StepsOver.{group_place};
ghost use Rattle.vx_events.specs.declared.said.Said.{Said};
ghost use Rattle.vx_settling.specs.Brights.{IsHeldDown};

/// However a line ends over groups of disks, with replicated volume groups or without, a good world that has not strayed behind it stays good, whichever of the sites that
/// are in doubt are as they may be on their disks.
pub fn full_lines_stay_good()
    ensures { (files : Bool) (d : Doubted) (line : ScriptLine) (fails : Fails) (said : Said) (new : Doubted) → GoodDoubted d → new.strayed ≡ false
        → StepFull (Unit {0}) files d line fails said new → GoodDoubted new }
{}

/// It stays known what the disks of all groups hold, also as they may be on disks of sites in doubt, however a line ends that is no refused recovery or import, where
/// imports agree of a group that it brings up.
pub fn full_lines_stay_known()
    ensures { (files : Bool) (d : Doubted) (line : ScriptLine) (fails : Fails) (said : Said) (new : Doubted) → AllBright d → d.strayed ≡ false
        → (BringsUp line → (note_at (d.world.nodes (group_place d.world line))).loose ≡ false) → (IsHeldDown line said → ⊥)
        → StepFull (Unit {0}) files d line fails said new → AllBright new }
{}

/// Where the world has not strayed behind a line, each site that has data volumes has these behind it as before it, with its log. And a site that has the replicated volume
/// group which it notes has the one that it notes then, if it has one still: behind a line at the site, whatever it found on disks that may not agree. So has a site
/// without one of which a recovery or an import finds that it has one, as nothing was known of its disks.
pub fn rvgs_stay_fit()
    ensures rooms { (files : Bool) (d : Doubted) (line : ScriptLine) (fails : Fails) (said : Said) (new : Doubted) → GoodDoubted d → DoubtsAlike d → new.strayed ≡ false
        → StepFull (Unit {0}) files d line fails said new → RoomStays d new }
    ensures over { (tells : Bool) (d : Doubted) (line : ScriptLine) (s : ℕ) (fails : Fails) (said : Said) (new : Doubted) → GoodDoubted d → DoubtsAlike d → IsMade (d.world.nodes s)
        → is_over_rvg (d.world.nodes s) ≡ true → OpensFor d.world line → OverRvg (IsTrue tells) d line s fails said new → FitsNoted (d.world.nodes s)
        → is_over_rvg (new.world.nodes s) ≡ true → FitsNoted (new.world.nodes s) }
    ensures found { (tells : Bool) (d : Doubted) (line : ScriptLine) (s : ℕ) (fails : Fails) (said : Said) (new : Doubted) → (is_over_rvg (d.world.nodes s) ≡ true → ⊥)
        → RvgFinds (IsTrue tells) d line s fails said new → FitsNoted (new.world.nodes s) }
{}
