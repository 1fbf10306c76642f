// What lines note of groups of disks.
ghost use Rattle.std.specs.Prelude.{◌≡◌, ℕ, Bool, false, Option, IsTrue};
ghost use Rattle.vx_history.specs.Doubts.{Doubted};
ghost use Rattle.vx_history.specs.Good.{IsMade};
ghost use Rattle.vx_history.specs.Groups.{GroupNode};
ghost use Rattle.vx_script.specs.declared.line.ScriptLine.{ScriptLine};
ghost use Rattle.vx_world.specs.Lines.{GoodDoubted};
ghost use Rattle.vx_events.specs.Brights.{NotesNone};
ghost use Rattle.vx_events.specs.Fails.{Fails};
ghost use Rattle.vx_events.specs.OpenLines.{HasNoOpen};
ghost use Rattle.vx_events.specs.RvgParts.{ShortFull};
ghost use Rattle.vx_events.specs.RvgSteps.{MakesNoRvg, StepFull};
ghost use Rattle.vx_events.specs.StepsOver.{MakesNoGroup};
ghost use Rattle.vx_events.specs.declared.said.Said.{Said};
ghost use Rattle.vx_settling.specs.OtherNotes.{HasNote, may_note};

/// However a line ends, over whatever disks, a site that is more than bare, and at which it does not work, notes of its group what it noted, or none still: also where it is as
/// it may be on its disks.
pub fn other_notes_stay()
    ensures ends { (tells files : Bool) (d : Doubted) (line : ScriptLine) (fails : Fails) (said : Said) (new : Doubted) (i : ℕ) (o : Option GroupNode) → GoodDoubted d
        → IsMade (d.world.nodes i) → HasNote i o d → may_note d.world line i ≡ false → StepFull (IsTrue tells) files d line fails said new → HasNote i o new }
    // Also where memory was wanted.
    ensures short { (tells : Bool) (d : Doubted) (line : ScriptLine) (new : Doubted) (i : ℕ) (o : Option GroupNode) → GoodDoubted d → IsMade (d.world.nodes i)
        → HasNote i o d → may_note d.world line i ≡ false → ShortFull (IsTrue tells) d line new → HasNote i o new }
{}

/// Where no site notes a group of disks, contents are told and the world has not strayed, a line that makes none leaves it so. No line is open there.
pub fn without_groups_none_come()
    ensures none { (files : Bool) (d : Doubted) (line : ScriptLine) (fails : Fails) (said : Said) (new : Doubted) → NotesNone d → d.strayed ≡ false → MakesNoGroup line
        → MakesNoRvg line → StepFull (Unit {0}) files d line fails said new → NotesNone new }
    ensures calm { (files : Bool) (d : Doubted) (line : ScriptLine) (fails : Fails) (said : Said) (new : Doubted) → NotesNone d → d.strayed ≡ false
        → StepFull (Unit {0}) files d line fails said new → new.strayed ≡ false }
    ensures closed { (d : Doubted) → NotesNone d → HasNoOpen d.world }
{}
