// What the tests of a line and those of its event have to do with each other.
ghost use Rattle.std.specs.Prelude.{◌≡◌, ◌⊎◌, ◌+◌, ◌*◌, ◌<◌, ◌≤◌, ℕ, List, [], Bool, true, false, None, Some, length, min, replicate, IsTrue};
ghost use Rattle.vx_model.specs.Content.{Write, blocks_from};
ghost use Rattle.vx_model.specs.Sites.{is_origin};
ghost use Rattle.vx_model.specs.declared.limits.TheConstants.{MOST_NUMBER};
ghost use Rattle.vx_model.specs.declared.site.Role.TheVariants.{Primary};
ghost use Rattle.vx_history.specs.Admission.{Goes};
ghost use Rattle.vx_history.specs.Events.{admitted};
ghost use Rattle.vx_history.specs.Doubts.{Doubted};
ghost use Rattle.vx_history.specs.Step.{step, joined_blocks};
ghost use Rattle.vx_history.specs.Groups.{GroupNode};
ghost use Rattle.vx_history.specs.World.{Node, World};
ghost use Rattle.vx_history.specs.declared.event.Event.TheVariants.{Site as MakeSite, Raw as MakeRaw, Write as WriteAt, Read as ReadAt, Apply as ApplyAt, Crash as CrashAt};
ghost use Rattle.vx_history.specs.declared.event.Said.TheVariants.{Done, DoneAt, Got};
ghost use Rattle.vx_order.specs.Order.{line_refusal};
ghost use Rattle.vx_script.specs.declared.line.ScriptLine.{ScriptLine};
ghost use Rattle.vx_script.specs.declared.line.ScriptLine.TheVariants.{Site, Raw, Crash, Rvg, Write as WriteLine, Put, Read, Show, Apply};
ghost use Rattle.vx_events.specs.Facts.{facts_of, site_number, volume_number};
ghost use Rattle.vx_events.specs.GroupEnds.{GroupEnds, GroupStops};
ghost use Rattle.vx_events.specs.GroupNotes.{IsKnown, NotesBack, note_at};
ghost use Rattle.vx_events.specs.Known.{MayDarken};
ghost use Rattle.vx_config.specs.declared.config.Config.{Config};
ghost use Rattle.vx_events.specs.GroupViews.{config_of};
ghost use Rattle.vx_events.specs.RvgFits.{FitsNoted, FitsSome, MayGetRvg, NoteKeepsRvg, rvg_noted};
ghost use Rattle.vx_events.specs.RvgBack.{RvgBack};
ghost use Rattle.vx_events.specs.RvgWorks.{FuseRanOut, NoneFailed, NoteAgrees};
ghost use Rattle.vx_events.specs.declared.said.Said.TheVariants.{Done as SaysDone};
ghost use Rattle.vx_events.specs.RvgMakes.{MakesRvg, RvgStops};
ghost use Rattle.vx_events.specs.RvgOver.{OpensFor, OverRvg};
ghost use Rattle.vx_events.specs.RvgParts.{RvgShort, ShortFull};
ghost use Rattle.vx_events.specs.RvgSteps.{FoundPlain, HasNoRvgs, MakesNoRvg, StepFull};
ghost use Rattle.vx_events.specs.RvgViews.{is_over_rvg};
ghost use Rattle.vx_events.specs.Fails.{AreBorne, Fails};
ghost use Rattle.vx_events.specs.Lines.{LineStep, is_of_links};
ghost use Rattle.vx_events.specs.Lists.{Choice};
ghost use Rattle.vx_events.specs.Parts.{DonePart, FellFirst, ReadFirst, StopsShort, first_part, goes_in_parts, may_stop};
ghost use Rattle.vx_events.specs.Plain.{HasNoGroups, IsUnlinked, IsSizedAs};
ghost use Rattle.vx_events.specs.StepsOver.{MakesNoGroup, StepOver, group_place, is_for_group, refused_over};
ghost use Rattle.vx_events.specs.Stopping.{StopsBy};
ghost use Rattle.vx_events.specs.Strays.{NotesNoRvgs};
ghost use Rattle.vx_events.specs.declared.said.Said.{Said};

use vx_model::limits::BLOCK;

/// A site without links lets every write in.
pub fn lets_every_write_in()
    ensures { (w : World) (s : ℕ) (x : Write) → IsUnlinked w → admitted w s x ≡ Goes [] }
{}

/// Where no test of a line refuses, its event is not refused by the world: so there is one order of refusals. A write has to find a number,
/// a world without links, and volumes as large as their table says; a read such volumes; a show those and a primary; and an apply a site where writes arise.
pub fn tests_agree()
    ensures site { (w : World) (files : Bool) (name : List ℕ) (disks blocks : ℕ) → line_refusal (facts_of w) files (Site name disks blocks) ≡ None
        → (step w (MakeSite name disks blocks)).said ≡ Done }
    ensures raw { (w : World) (files : Bool) (name : List ℕ) → line_refusal (facts_of w) files (Raw name) ≡ None
        → (step w (MakeRaw (site_number w name))).said ≡ Done }
    ensures crash { (w : World) (files : Bool) (name : List ℕ) (pick kept : ℕ) → line_refusal (facts_of w) files (Crash name pick) ≡ None
        → (step w (CrashAt (site_number w name) kept)).said ≡ Done }
    ensures write { (w : World) (files : Bool) (name volume : List ℕ) (start count fill : ℕ) → line_refusal (facts_of w) files (WriteLine name volume start count fill) ≡ None
        → IsUnlinked w → IsSizedAs (w.nodes (site_number w name)) → (w.nodes (site_number w name)).safe < MOST_NUMBER
        → (step w (WriteAt (site_number w name) (volume_number (w.nodes (site_number w name)) volume) start (replicate (BLOCK * count) fill) None)).said
        ≡ DoneAt ((w.nodes (site_number w name)).safe + 1) }
    ensures put { (w : World) (files : Bool) (name volume : List ℕ) (start : ℕ) (bytes : List ℕ) → line_refusal (facts_of w) files (Put name volume start bytes) ≡ None
        → length bytes ≡ BLOCK → IsUnlinked w → IsSizedAs (w.nodes (site_number w name)) → (w.nodes (site_number w name)).safe < MOST_NUMBER
        → (step w (WriteAt (site_number w name) (volume_number (w.nodes (site_number w name)) volume) start bytes None)).said
        ≡ DoneAt ((w.nodes (site_number w name)).safe + 1) }
    ensures read { (w : World) (files : Bool) (name volume : List ℕ) (start count : ℕ) → line_refusal (facts_of w) files (Read name volume start count) ≡ None
        → IsSizedAs (w.nodes (site_number w name))
        → (step w (ReadAt (site_number w name) (volume_number (w.nodes (site_number w name)) volume) start count)).said
        ≡ Got (joined_blocks (blocks_from (w.nodes (site_number w name)).base (volume_number (w.nodes (site_number w name)) volume) start count)) }
    ensures show { (w : World) (files : Bool) (name volume : List ℕ) (start count : ℕ) → line_refusal (facts_of w) files (Show name volume start count) ≡ None
        → IsSizedAs (w.nodes (site_number w name)) → (w.nodes (site_number w name)).role ≡ Primary
        → (step w (ReadAt (site_number w name) (volume_number (w.nodes (site_number w name)) volume) start count)).said
        ≡ Got (joined_blocks (blocks_from (w.nodes (site_number w name)).base (volume_number (w.nodes (site_number w name)) volume) start count)) }
    ensures apply { (w : World) (files : Bool) (name : List ℕ) (to reached : ℕ) → line_refusal (facts_of w) files (Apply name to) ≡ None
        → is_origin (w.nodes (site_number w name)).role ≡ true → min to (w.nodes (site_number w name)).safe ≤ reached → reached ≤ (w.nodes (site_number w name)).safe
        → (step w (ApplyAt (site_number w name) to reached)).said ≡ DoneAt reached }
{}

/// However a line that works on no group ends over disks that tell their contents, where the world has not strayed, it ends as events of the world do of which one may be
/// ended by a failing disk or by a fuse. So the laws of what such events keep, where sites may be in doubt, hold of lines of every kind.
pub fn lines_are_events()
    ensures { (d : Doubted) (files : Bool) (line : ScriptLine) (fails : Fails) (said : Said) (new : Doubted) → d.strayed ≡ false → is_for_group d.world line ≡ false
        → StepOver (Unit {0}) files d line fails said new → StopsBy (is_of_links line) d line fails new }
{}

/// However a line over a group of disks without a replicated volume group ends, it ends as events of the world do, in worlds that differ in notes
/// alone. So the laws of what events keep hold of such lines too.
pub fn group_lines_are_events()
    ensures { (tells : Bool) (d : Doubted) (line : ScriptLine) (s : ℕ) (fails : Fails) (said : Said) (new : Doubted) → GroupEnds (IsTrue tells) d line s fails said new
        → GroupStops d new }
{}

/// It stays known what the disks of a group hold, but for a recovery or an import of disks that may not agree, and for one that is refused. So it is known
/// from the making of the group on.
pub fn known_disks_stay_known()
    ensures { (d : Doubted) (line : ScriptLine) (s : ℕ) (fails : Fails) (said : Said) (new : Doubted) → GroupEnds (Unit {0}) d line s fails said new
        → (note_at (d.world.nodes s)).dark ≡ false → (MayDarken (note_at (d.world.nodes s)) line said → ⊥) → (note_at (new.world.nodes s)).dark ≡ false }
{}

/// The same of a group with a replicated volume group; and a line that makes one leaves it known.
pub fn known_rvgs_stay_known()
    ensures over { (d : Doubted) (line : ScriptLine) (s : ℕ) (fails : Fails) (said : Said) (new : Doubted) → OverRvg (Unit {0}) d line s fails said new
        → (note_at (d.world.nodes s)).dark ≡ false → (MayDarken (note_at (d.world.nodes s)) line said → ⊥) → (note_at (new.world.nodes s)).dark ≡ false }
    ensures makes { (d : Doubted) (line : ScriptLine) (s : ℕ) (fails : Fails) (said : Said) (new : Doubted) → MakesRvg (Unit {0}) d line s fails said new
        → (note_at (d.world.nodes s)).dark ≡ false → (note_at (new.world.nodes s)).dark ≡ false }
{}

/// A line that makes a replicated volume group of volumes of a disk group ends as events of the world do, from a world on that differs in
/// what its site notes of the group.
pub fn rvg_lines_are_events()
    ensures { (tells : Bool) (d : Doubted) (line : ScriptLine) (s : ℕ) (fails : Fails) (said : Said) (new : Doubted) → MakesRvg (IsTrue tells) d line s fails said new
        → RvgStops d new }
{}

/// Where it is done its site has the replicated volume group of the configuration; and where no test refused the line, its units are volumes of the group.
pub fn made_rvgs_fit()
    ensures fits { (tells : Bool) (d : Doubted) (line : ScriptLine) (s : ℕ) (fails : Fails) (said : Said) (new : Doubted) (c : Config) → MayGetRvg d.world s
        → MakesRvg (IsTrue tells) d line s fails said new → said ≡ SaysDone → config_of (note_at (new.world.nodes s)).config ≡ Some c → FitsSome (new.world.nodes s) c }
    ensures noted { (tells files : Bool) (d : Doubted) (site srl maps : List ℕ) (volumes : List (List ℕ)) (fails : Fails) (said : Said) (new : Doubted)
        → MayGetRvg d.world (site_number d.world site) → refused_over d.world files (Rvg site srl maps volumes) ≡ None
        → MakesRvg (IsTrue tells) d (Rvg site srl maps volumes) (site_number d.world site) fails said new → said ≡ SaysDone
        → FitsNoted (new.world.nodes (site_number d.world site)) }
{}

/// So does each line at a site over a group of disks with a replicated volume group, where the world has not strayed behind it.
pub fn lines_over_rvgs_are_events()
    ensures over { (tells : Bool) (d : Doubted) (line : ScriptLine) (s : ℕ) (fails : Fails) (said : Said) (new : Doubted) → OpensFor d.world line → new.strayed ≡ false
        → OverRvg (IsTrue tells) d line s fails said new → RvgStops d new }
{}

/// So does what want of memory leaves of a recovery or an import of such a site, or of a line that makes a replicated volume group.
pub fn rvg_shorts_are_events()
    ensures { (tells : Bool) (d : Doubted) (line : ScriptLine) (s : ℕ) (new : Doubted) → RvgShort (IsTrue tells) d line s new → RvgStops d new }
{}

/// Where no call of a line failed at such a site, and its fuse did not run out, imports of its group agree behind the line as before, and nothing is begun.
pub fn quiet_rvgs_stay_agreed()
    ensures over { (d : Doubted) (line : ScriptLine) (s : ℕ) (fails : Fails) (said : Said) (new : Doubted) → NoneFailed s fails
        → (FuseRanOut (d.world.nodes s) said → ⊥) → (note_at (d.world.nodes s)).dark ≡ false → NoteAgrees (note_at (d.world.nodes s))
        → OverRvg (Unit {0}) d line s fails said new → NoteAgrees (note_at (new.world.nodes s)) }
{}

/// However a line at such a site ends, the configuration that the site notes has the replicated volume group that it had, and the volumes that it had with their names
/// and their blocks, as long as it is known what the disks hold. So has it behind a recovery or an import that found what is noted. It did where it is
/// known what the disks hold, and the group came up with the same replicated volume group.
pub fn rvgs_stay_noted()
    ensures over { (d : Doubted) (line : ScriptLine) (s : ℕ) (fails : Fails) (said : Said) (new : Doubted) → is_over_rvg (d.world.nodes s) ≡ true
        → OverRvg (Unit {0}) d line s fails said new → (note_at (new.world.nodes s)).dark ≡ false → NoteKeepsRvg (note_at (d.world.nodes s)) (note_at (new.world.nodes s)) }
    ensures back { (tells : Bool) (d : Doubted) (line : ScriptLine) (s : ℕ) (fails : Fails) (said : Said) (new : Doubted) → is_over_rvg (d.world.nodes s) ≡ true
        → RvgBack (IsTrue tells) d line s fails said new → NoteKeepsRvg (note_at (d.world.nodes s)) (note_at (new.world.nodes s)) }
    ensures found { (tells : Bool) (s : ℕ) (n : Node) (fails : Fails) (note middle : GroupNode) → IsKnown (IsTrue tells) middle → rvg_noted middle ≡ rvg_noted note
        → NotesBack (IsTrue tells) s n fails note middle → NoteKeepsRvg note middle }
{}

/// In a world without groups of disks, over disks that tell their contents, a line that makes none does what it does there. A line that works on a group, and is refused or not, ends as
/// events of the world do.
pub fn steps_over_groups()
    ensures over { (tells files : Bool) (d : Doubted) (line : ScriptLine) (fails : Fails) (said : Said) (new : Doubted) → HasNoGroups d.world → MakesNoGroup line
        → LineStep (IsTrue tells) files d line fails said new → StepOver (IsTrue tells) files d line fails said new }
    ensures plain { (tells files : Bool) (d : Doubted) (line : ScriptLine) (fails : Fails) (said : Said) (new : Doubted) → IsTrue tells → HasNoGroups d.world → MakesNoGroup line
        → StepOver (IsTrue tells) files d line fails said new → LineStep (IsTrue tells) files d line fails said new }
    ensures stops { (tells files : Bool) (d : Doubted) (line : ScriptLine) (fails : Fails) (said : Said) (new : Doubted) → is_for_group d.world line ≡ true
        → StepOver (IsTrue tells) files d line fails said new → GroupStops d new }
{}

/// However a line ends that is refused or not, in worlds in which sites are over groups of disks with replicated volume groups or without: it ends as events of the
/// world do, where the world has not strayed behind it.
pub fn full_lines_are_events()
    ensures { (files : Bool) (d : Doubted) (line : ScriptLine) (fails : Fails) (said : Said) (new : Doubted) → new.strayed ≡ false
        → StepFull (Unit {0}) files d line fails said new → RvgStops d new }
{}

/// A world strays where a log comes up from disks of which nothing is known, as imports of a group did not agree. What has not strayed behind a line had not before it. And
/// none strays where no site has a group behind the line; or where no site has a replicated volume group over one before it, and none notes one behind it; or over disks
/// that tell their contents, where it is known before it what the disks of each group hold, and imports of them agree. Want of memory leaves it as it was.
pub fn worlds_stray_by_what_is_found()
    ensures calm { (tells files : Bool) (d : Doubted) (line : ScriptLine) (fails : Fails) (said : Said) (new : Doubted) → StepFull (IsTrue tells) files d line fails said new
        → new.strayed ≡ false → d.strayed ≡ false }
    ensures groups { (tells files : Bool) (d : Doubted) (line : ScriptLine) (fails : Fails) (said : Said) (new : Doubted) → HasNoGroups new.world
        → StepFull (IsTrue tells) files d line fails said new → new.strayed ≡ d.strayed }
    ensures plain { (tells files : Bool) (d : Doubted) (line : ScriptLine) (fails : Fails) (said : Said) (new : Doubted) → HasNoRvgs d.world → NotesNoRvgs new.world
        → StepFull (IsTrue tells) files d line fails said new → new.strayed ≡ d.strayed }
    ensures known { (files : Bool) (d : Doubted) (line : ScriptLine) (fails : Fails) (said : Said) (new : Doubted) → ((i : ℕ) → (note_at (d.world.nodes i)).dark ≡ false)
        → ((i : ℕ) → (note_at (d.world.nodes i)).loose ≡ false) → StepFull (Unit {0}) files d line fails said new → new.strayed ≡ d.strayed }
    ensures short { (tells : Bool) (d : Doubted) (line : ScriptLine) (new : Doubted) → ShortFull (IsTrue tells) d line new → new.strayed ≡ d.strayed }
{}

/// In a world in which no site is over a group of disks with a replicated volume group, a line that makes none, and finds none as it brings a group up, does what it does
/// there.
pub fn steps_over_rvgs()
    ensures full { (tells files : Bool) (d : Doubted) (line : ScriptLine) (fails : Fails) (said : Said) (new : Doubted) → HasNoRvgs d.world → MakesNoRvg line
        → FoundPlain line (group_place d.world line) new → StepOver (IsTrue tells) files d line fails said new → StepFull (IsTrue tells) files d line fails said new }
    ensures over { (tells files : Bool) (d : Doubted) (line : ScriptLine) (fails : Fails) (said : Said) (new : Doubted) → HasNoRvgs d.world → MakesNoRvg line
        → NotesNoRvgs new.world → StepFull (IsTrue tells) files d line fails said new → StepOver (IsTrue tells) files d line fails said new }
{}

/// Only of the line's own site may a call fail in a line that is done, and only where it is over a group: at a raw set no call failed in it.
pub fn only_groups_bear()
    ensures { (w : World) (site : ℕ) (fails : Fails) → (w.nodes site).group ≡ None → AreBorne w site fails → fails ≡ [] }
{}

/// Where memory runs out within a line that does not go in parts nothing is done, whether disks tell their contents or not; of one that does, any first
/// part of its events may be. Of a recovery of a group that is up the crash may be, an import may have read its disks under a fuse, and of disks that may not agree nothing may be known behind either. Where disks tell
/// their contents, and the world has not strayed, nothing else is.
pub fn memory_leaves_a_part()
    ensures none { (d : Doubted) (line : ScriptLine) (new : Doubted) → goes_in_parts line ≡ false → DonePart d line new → new ≡ d }
    ensures any { (d : Doubted) (line : ScriptLine) (c : Choice) (k : ℕ) → goes_in_parts line ≡ true → DonePart d line (first_part d line c k) }
    ensures short { (d : Doubted) (line : ScriptLine) (new : Doubted) → may_stop d.world line ≡ false → StopsShort ⊥ d line new → new ≡ d }
    ensures told { (d : Doubted) (line : ScriptLine) (new : Doubted) → d.strayed ≡ false → StopsShort (Unit {0}) d line new → DonePart d line new ⊎ FellFirst d line new ⊎ ReadFirst d line new }
{}
