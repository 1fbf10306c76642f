// What is so of every run.
ghost use Rattle.std.specs.Prelude.{◌≡◌, ℕ, Bool, true, false, List};
ghost use Rattle.vx_history.specs.Doubts.{Doubted};
ghost use Rattle.vx_history.specs.World.{empty_world};
ghost use Rattle.vx_events.specs.Doubts.{sure};
ghost use Rattle.vx_events.specs.Fails.{Fails};
ghost use Rattle.vx_script.specs.declared.line.ScriptLine.{ScriptLine};
ghost use Rattle.vx_world.specs.Lines.{GoodDoubted};
ghost use Rattle.vx_events.specs.RvgParts.{ShortFull};
ghost use Rattle.vx_cli.specs.Complete.{NoneMakesGroups, StopsOpen};
ghost use Rattle.vx_cli.specs.Ends.{LastWorld, NextGoesWhole};
ghost use Rattle.vx_cli.specs.Runs.{RunsLines};
ghost use Rattle.vx_cli.specs.declared.status.Status.{Status};

/// A run ends in the world behind the lines that it did, unless memory ran out in one that settles a link, behind the crash with which a group that is up is
/// recovered, in the recovery of disks that may not agree, in the import of a group, in the recovery of one with a replicated volume group, or in a line that makes
/// one: no other is done in part.
pub fn no_line_is_done_in_part()
    ensures { (told : Bool) (status : Status) (others : List (List ℕ)) (d last : Doubted) → NextGoesWhole d.world others → LastWorld (told ≡ true) status others d last → last ≡ d }
{}

/// Where memory runs out within a line over disks that tell their contents, in a world that has not strayed, that is good still, whichever of the sites in doubt are
/// as they may be on their disks.
pub fn a_part_stays_good()
    ensures { (d : Doubted) (line : ScriptLine) (new : Doubted) → GoodDoubted d → d.strayed ≡ false → ShortFull (Unit {0}) d line new → GoodDoubted new }
{}

/// A run over disks that tell their contents ends at no open line where none of its lines makes a group of disks: such a script is done whole.
pub fn without_groups_none_is_open()
    ensures { (files : Bool) (status : Status) (lines : List (List ℕ)) → NoneMakesGroups lines → StopsOpen (Unit {0}) files status lines → ⊥ }
{}

/// A world that has not strayed at the end of a run never had in it (calm). And over disks that tell their contents none strays at the end of a run in which no line
/// makes a group of disks (none): so it is good.
pub fn runs_stray_by_what_is_found()
    ensures calm { (told : Bool) (files : Bool) (d : Doubted) (lines : List (List ℕ)) (failures : List Fails) (texts : List (List ℕ)) (new : Doubted)
        → RunsLines (told ≡ true) files d lines failures texts new → new.strayed ≡ false → d.strayed ≡ false }
    ensures none { (files : Bool) (lines : List (List ℕ)) (failures : List Fails) (texts : List (List ℕ)) (new : Doubted) → NoneMakesGroups lines
        → RunsLines (Unit {0}) files (sure empty_world) lines failures texts new → new.strayed ≡ false }
{}
