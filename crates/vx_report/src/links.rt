// The lines of a site's links in its status.
ghost use Rattle.std.specs.Prelude.{◌≡◌, ◌++◌, ◌∷◌, [], OnOk, codes};
ghost use Rattle.std.specs.Fmt.{decimal};
ghost use Rattle.std.specs.List.{flat_map};
ghost use Rattle.vx_report.specs.StatusWords.{phase_text, mode_text};
ghost use Rattle.vx_report.specs.Statuses.{link_way, text_of_link};

use crate::view::LinkView;
use crate::words::{either, push_after, push_site_after, push_text};
use vx_model::{Mode, OutOfMemory, Phase};

/// Appends a line for each link.
pub fn push_links(out: &mut Vec<u8>, links: &[LinkView]) -> Result<(), OutOfMemory>
    ensures { OnOk result (out.new.items ≡ out.old.items ++ flat_map text_of_link links.now) }
{
    for link in links {
        push_link(out, link)?;
    }
    Ok(())
}

fn push_link(out: &mut Vec<u8>, link: &LinkView) -> Result<(), OutOfMemory>
    ensures { OnOk result (out.new.items ≡ out.old.items ++ text_of_link link.now) }
{
    push_link_way(out, link)?;
    push_text(out, b" ")?;
    push_mode(out, link.mode, link.marked)?;
    push_link_counts(out, link.net, link.stored)?;
    Ok(())
}

fn push_link_counts(out: &mut Vec<u8>, net: u64, stored: u64) -> Result<(), OutOfMemory>
    ensures { OnOk result (out.new.items ≡ out.old.items ++ (codes " net " ++ decimal net ++ codes " stored " ++ decimal stored ++ 10 ∷ [])) }
{
    push_after(out, b" net ", net)?;
    push_after(out, b" stored ", stored)?;
    push_text(out, b"\n")
}

#[tactic(auto, unfolding(crate::specs::Statuses::link_way))]
fn push_link_way(out: &mut Vec<u8>, link: &LinkView) -> Result<(), OutOfMemory>
    ensures { OnOk result (out.new.items ≡ out.old.items ++ link_way link.now) }
{
    push_site_after(out, either(link.bunker, b"bunker ", b"link "), &link.name)?;
    push_text(
        out,
        if link.attached {
            b" attached"
        } else {
            b" detached"
        },
    )?;
    push_text(
        out,
        if link.connected {
            b" connected"
        } else {
            b" cut"
        },
    )?;
    push_text(out, either(link.paused, b" paused", b" running"))
}

fn push_mode(out: &mut Vec<u8>, mode: Mode, marked: u32) -> Result<(), OutOfMemory>
    ensures { OnOk result (out.new.items ≡ out.old.items ++ mode_text mode marked) }
{
    match mode {
        Mode::Log => push_text(out, b"log"),
        Mode::Dcm => push_after(out, b"dcm ", u64::from(marked)),
        Mode::Replay { phase, left, .. } => push_replay(out, phase, left),
        Mode::Fork { .. } => push_text(out, b"fork"),
        Mode::Stale => push_text(out, b"stale"),
    }
}

fn push_replay(out: &mut Vec<u8>, phase: Phase, left: u32) -> Result<(), OutOfMemory>
    ensures { OnOk result (out.new.items ≡ out.old.items ++ (codes "replay " ++ phase_text phase ++ 32 ∷ decimal left)) }
{
    push_text(out, b"replay ")?;
    push_text(out, replay_phase(phase))?;
    push_after(out, b" ", u64::from(left))
}

fn replay_phase(phase: Phase) -> &'static [u8]
    ensures { result.now ≡ phase_text phase }
{
    match phase {
        Phase::Start => b"start",
        Phase::Regions => b"regions",
        Phase::Done => b"done",
        Phase::Log => b"log",
    }
}
