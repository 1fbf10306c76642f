// What a line is answered.
ghost use Rattle.std.specs.Prelude.{◌≡◌, IfOk, IsOk, IsSome, false, true};
ghost use Rattle.vx_history.specs.Doubts.{Doubted};
ghost use Rattle.vx_events.specs.OpenLines.{is_open};
ghost use Rattle.vx_events.specs.Parts.{goes_in_parts};
ghost use Rattle.vx_events.specs.StepsOver.{is_for_group};
ghost use Rattle.vx_events.specs.RvgLinks.{links_rvg};
ghost use Rattle.vx_events.specs.RvgSteps.{is_for_rvg};
ghost use Rattle.vx_group_lines.specs.Plain.{goes_to_group, is_group_line};
ghost use Rattle.vx_yard.specs.AboveLines.{WorksIs};
ghost use Rattle.vx_yard.specs.Carries.{Carries};
ghost use Rattle.vx_yard.specs.OfSites.{AsAsked, AsSettled, HasCalled};
ghost use Rattle.vx_script.specs.declared.line.ScriptLine.TheVariants.{Recover};
ghost use Rattle.vx_yard.specs.Lines.{is_built};
ghost use Rattle.vx_yard.specs.LinkLines.{is_on_links};
ghost use Rattle.vx_yard.specs.Standing.{AnswersIs, GoodFor, StandsFor};
ghost use Rattle.vx_yard.specs.Working.{IsFree, TakesNoMemory, refused_in, takes_memory};
ghost use Rattle.vx_yard.specs.Yards.{IsYardKept, IsTold, in_files};

use crate::settled::settle_line;
use std::alloc::Global;
use vx_disk::Rack;
use vx_events::Said;
use vx_group_lines::{filled, holds_group, is_of_group, recover_found, work_group};
use vx_link_lines::{apply_line, deliver_line, work_link};
use vx_model::{Name, No, OutOfMemory};
use vx_net::Net;
use vx_order::{refuse, refuse_packet};
use vx_script::ScriptLine;
use vx_site_lines::{
    crash_line, fuse_line, make_raw, make_site, put_line, read_line, recover_line, set_disk,
    show_line, status_line, write_line,
};
use vx_yard::Yard;

// Recovers a site over no group. A bare one may have a group on its disks.
fn recover<R: Rack>(yard: &mut Yard<R>, alloc: Global, site: &Name) -> Result<Said, OutOfMemory>
    requires kept { IsYardKept yard.old }
    requires free { IsFree yard.old (Recover site.now) }
    ensures leads { (d : Doubted) → StandsFor d yard.old → goes_to_group d.world (Recover site.now) ≡ false → WorksIs d (Recover site.now) yard.old yard.new result }
    ensures asked { (d : Doubted) → StandsFor d yard.old → is_for_group d.world (Recover site.now) ≡ false → AsAsked d.world (Recover site.now) yard.old yard.new }
    ensures told { IsTold yard.new → IsTold yard.old }
    ensures files { in_files yard.new ≡ in_files yard.old }
{
    if holds_group(yard, site) {
        recover_found(yard, alloc, site)
    } else {
        recover_line(yard, alloc, site)
    }
}

// Does a line on links that no test refuses and that is not open.
fn work_links<R: Rack>(
    yard: &mut Yard<R>,
    alloc: Global,
    words: &ScriptLine,
) -> Result<Said, OutOfMemory>
    requires kind { is_on_links words.now ≡ true }
    requires kept { IsYardKept yard.old }
    requires free { IsFree yard.old words.now }
    ensures leads { (d : Doubted) → StandsFor d yard.old → is_open d.world words.now ≡ false → Carries d yard.old → WorksIs d words.now yard.old yard.new result }
    ensures asked { (d : Doubted) → StandsFor d yard.old → links_rvg d.world words.now ≡ false → AsAsked d.world words.now yard.old yard.new }
    ensures called { (d : Doubted) → StandsFor d yard.old → links_rvg d.world words.now ≡ false → IfOk result (λ said. HasCalled d.world words.now said yard.old yard.new) }
    // Memory is short for no line that takes none.
    ensures whole { takes_memory words.now ≡ false → IsOk result }
    ensures told { IsTold yard.new → IsTold yard.old }
    ensures files { in_files yard.new ≡ in_files yard.old }
{
    work_link(yard, alloc, words)
}

// Does a line that no test refuses and that is not open, whole or not at all.
fn work<R: Rack>(yard: &mut Yard<R>, alloc: Global, words: &ScriptLine) -> Result<Said, OutOfMemory>
    requires built { is_built words.now ≡ true }
    requires whole { goes_in_parts words.now ≡ false }
    requires other { is_group_line words.now ≡ false }
    requires kept { IsYardKept yard.old }
    requires free { IsFree yard.old words.now }
    ensures leads { (d : Doubted) → StandsFor d yard.old → goes_to_group d.world words.now ≡ false → is_open d.world words.now ≡ false → Carries d yard.old → GoodFor d yard.old → WorksIs d words.now yard.old yard.new result }
    ensures asked { (d : Doubted) → StandsFor d yard.old → goes_to_group d.world words.now ≡ false → is_for_rvg d.world words.now ≡ false → links_rvg d.world words.now ≡ false → AsAsked d.world words.now yard.old yard.new }
    ensures called { (d : Doubted) → StandsFor d yard.old → goes_to_group d.world words.now ≡ false → is_for_rvg d.world words.now ≡ false → links_rvg d.world words.now ≡ false → Carries d yard.old → GoodFor d yard.old → IfOk result (λ said. HasCalled d.world words.now said yard.old yard.new) }
    // Memory is short for no line that takes none.
    ensures whole { takes_memory words.now ≡ false → IsOk result }
    ensures told { IsTold yard.new → IsTold yard.old }
    ensures files { in_files yard.new ≡ in_files yard.old }
{
    match words {
        ScriptLine::Site {
            site,
            disks,
            blocks,
        } => make_site(yard, alloc, site, *disks, *blocks),
        ScriptLine::Raw { site } => make_raw(yard, alloc, site),
        ScriptLine::Disk { site, disk, state } => Ok(set_disk(yard, site, *disk, *state)),
        ScriptLine::Crash { site, pick } => Ok(crash_line(yard, alloc, site, *pick)),
        ScriptLine::Fuse { site, writes, pick } => Ok(fuse_line(yard, site, *writes, *pick)),
        ScriptLine::Recover { site } => recover(yard, alloc, site),
        ScriptLine::Write {
            site,
            volume,
            block,
            count,
            fill,
        } => {
            let bytes = filled(alloc, *count, *fill)?;
            Ok(write_line(yard, alloc, site, volume, *block, *count, *fill, &bytes))
        }
        ScriptLine::Put {
            site,
            volume,
            block,
            bytes,
        } => Ok(put_line(yard, alloc, site, volume, *block, bytes)),
        ScriptLine::Read {
            site,
            volume,
            block,
            count,
        } => {
            let room = filled(alloc, *count, 0)?;
            Ok(read_line(yard, site, volume, *block, *count, room))
        }
        ScriptLine::Show {
            site,
            volume,
            block,
            count,
        } => {
            let room = filled(alloc, *count, 0)?;
            Ok(show_line(yard, site, volume, *block, *count, room))
        }
        ScriptLine::Apply { site, count } => apply_line(yard, alloc, site, *count),
        ScriptLine::Status { site } => status_line(yard, alloc, site),
        ScriptLine::Deliver { packet } => deliver_line(yard, alloc, *packet),
        ScriptLine::Set { .. }
        | ScriptLine::Link { .. }
        | ScriptLine::Connect { .. }
        | ScriptLine::Cut { .. }
        | ScriptLine::Pause { .. }
        | ScriptLine::Resume { .. }
        | ScriptLine::Pump { .. }
        | ScriptLine::Tick { .. }
        | ScriptLine::Wait { .. } => work_links(yard, alloc, words),
        // A line that goes in parts, works on a group alone, or is not built.
        _ => unreachable!(),
    }
}

// Does a line that no test refuses and that is not open. One that goes in parts may be done in part.
fn perform<R: Rack>(
    yard: &mut Yard<R>,
    alloc: Global,
    words: &ScriptLine,
) -> Result<Said, OutOfMemory>
    requires built { is_built words.now ≡ true }
    requires kept { IsYardKept yard.old }
    requires free { IsFree yard.old words.now }
    ensures leads { (d : Doubted) → StandsFor d yard.old → is_open d.world words.now ≡ false → Carries d yard.old → GoodFor d yard.old → WorksIs d words.now yard.old yard.new result }
    ensures asked { (d : Doubted) → StandsFor d yard.old → is_for_rvg d.world words.now ≡ false → links_rvg d.world words.now ≡ false → AsAsked d.world words.now yard.old yard.new }
    ensures settled { (d : Doubted) → StandsFor d yard.old → links_rvg d.world words.now ≡ false → Carries d yard.old → GoodFor d yard.old → AsSettled words.now yard.old yard.new }
    ensures called { (d : Doubted) → StandsFor d yard.old → is_for_rvg d.world words.now ≡ false → links_rvg d.world words.now ≡ false → Carries d yard.old → GoodFor d yard.old → IfOk result (λ said. HasCalled d.world words.now said yard.old yard.new) }
    // Memory is short for no line that takes none.
    ensures whole { takes_memory words.now ≡ false → IsOk result }
    ensures told { IsTold yard.new → IsTold yard.old }
    ensures files { in_files yard.new ≡ in_files yard.old }
{
    match words {
        ScriptLine::Settle { primary, secondary } => {
            settle_line(yard, alloc, primary, secondary)
        }
        _ => {
            if is_of_group(yard, words) {
                work_group(yard, alloc, words)
            } else {
                work(yard, alloc, words)
            }
        }
    }
}

// The first refusal of a line in the one order, if there is one.
pub(crate) fn refusal<R: Rack>(yard: &Yard<R>, words: &ScriptLine) -> Option<No>
    ensures { result ≡ refused_in yard.now words.now }
{
    let files = yard.dir.is_some();
    match words {
        ScriptLine::Deliver { packet } => refuse_packet(yard.flight.count(), *packet),
        _ => refuse(&yard.facts, files, words),
    }
}

/// What a line is answered: its first refusal in the one order, or what it works.
pub(crate) fn answer<R: Rack>(
    yard: &mut Yard<R>,
    alloc: Global,
    words: &ScriptLine,
) -> Result<Said, OutOfMemory>
    requires built { is_built words.now ≡ true }
    requires kept { IsYardKept yard.old }
    ensures leads { (d : Doubted) → StandsFor d yard.old → (IsFree yard.old words.now → is_open d.world words.now ≡ false) → Carries d yard.old → GoodFor d yard.old → AnswersIs d words.now yard.old yard.new result }
    ensures asked { (d : Doubted) → StandsFor d yard.old → IsFree yard.old words.now → is_for_rvg d.world words.now ≡ false → links_rvg d.world words.now ≡ false → AsAsked d.world words.now yard.old yard.new }
    ensures settled { (d : Doubted) → StandsFor d yard.old → links_rvg d.world words.now ≡ false → Carries d yard.old → GoodFor d yard.old → IsFree yard.old words.now → AsSettled words.now yard.old yard.new }
    ensures called { (d : Doubted) → StandsFor d yard.old → is_for_rvg d.world words.now ≡ false → links_rvg d.world words.now ≡ false → Carries d yard.old → GoodFor d yard.old → IsFree yard.old words.now → IfOk result (λ said. HasCalled d.world words.now said yard.old yard.new) }
    // A line that is refused leaves all disks as they are.
    ensures still { IsSome (refused_in yard.old words.now) → yard.new.disk_sets ≡ yard.old.disk_sets }
    // Nor for a refusal.
    ensures whole { TakesNoMemory yard.old words.now → IsOk result }
    ensures told { IsTold yard.new → IsTold yard.old }
    ensures files { in_files yard.new ≡ in_files yard.old }
{
    match refusal(yard, words) {
        Some(no) => Ok(Said::Refused(no)),
        None => perform(yard, alloc, words),
    }
}
