// What want of memory keeps of good worlds where a group of disks has a replicated volume group.
ghost use Rattle.std.specs.Prelude.{◌≡◌, ℕ, true, false};
ghost use Rattle.vx_history.specs.Doubts.{Doubted};
ghost use Rattle.vx_history.specs.Good.{IsMade};
ghost use Rattle.vx_script.specs.declared.line.ScriptLine.{ScriptLine};
ghost use Rattle.vx_world.specs.Lines.{DoubtsAlike, GoodDoubted, RoomStays};
ghost use Rattle.vx_events.specs.GroupEnds.{BringsUp};
ghost use Rattle.vx_events.specs.GroupNotes.{note_at};
ghost use Rattle.vx_events.specs.RvgFits.{FitsNoted};
ghost use Rattle.vx_events.specs.RvgParts.{RvgShort};
ghost use Rattle.vx_events.specs.RvgViews.{is_over_rvg};
ghost use Rattle.vx_events.specs.Brights.{AllBright};

/// What want of memory leaves of a recovery where a group of disks has a replicated volume group, or of a line that makes one: a good world stays good, each
/// site has its data volumes and its log, and, where imports agree, it stays known what the disks hold. The site has the replicated volume group that it notes.
pub fn rvg_shorts_stay_good()
    ensures good { (d : Doubted) (line : ScriptLine) (s : ℕ) (new : Doubted) → GoodDoubted d → RvgShort (Unit {0}) d line s new → GoodDoubted new }
    ensures rooms { (d : Doubted) (line : ScriptLine) (s : ℕ) (new : Doubted) → GoodDoubted d → DoubtsAlike d → RvgShort (Unit {0}) d line s new → RoomStays d new }
    ensures known { (d : Doubted) (line : ScriptLine) (s : ℕ) (new : Doubted) → AllBright d → (BringsUp line → (note_at (d.world.nodes s)).loose ≡ false)
        → RvgShort (Unit {0}) d line s new → AllBright new }
    ensures fits { (d : Doubted) (line : ScriptLine) (s : ℕ) (new : Doubted) → GoodDoubted d → DoubtsAlike d → IsMade (d.world.nodes s)
        → is_over_rvg (d.world.nodes s) ≡ true → RvgShort (Unit {0}) d line s new → FitsNoted (d.world.nodes s) → FitsNoted (new.world.nodes s) }
{}
