// What is so of the lines that are built.
ghost use Rattle.std.specs.Prelude.{◌≡◌, Bool, false, true};
ghost use Rattle.vx_history.specs.Doubts.{Doubted};
ghost use Rattle.vx_script.specs.declared.line.ScriptLine.{ScriptLine};
ghost use Rattle.vx_events.specs.Parts.{StopsShort, may_stop};
ghost use Rattle.vx_yard.specs.Lines.{is_built};

/// Want of memory within a line that is built leaves the world as it was, but within one that goes in parts, behind the crash with which a group that is up is
/// recovered, or in the import of a group, whether disks tell their contents or not.
pub fn built_lines_are_whole()
    ensures { (told : Bool) (d : Doubted) (line : ScriptLine) (new : Doubted) → is_built line ≡ true → may_stop d.world line ≡ false → StopsShort (told ≡ true) d line new → new ≡ d }
{}
