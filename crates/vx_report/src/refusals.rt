// The line of a refusal.
ghost use Rattle.std.specs.Prelude.{◌≡◌, ◌≤◌, ◌++◌, ◌∷◌, [], OnOk, IfOk, codes};
ghost use Rattle.std.specs.Fmt.{decimal};
ghost use Rattle.hex.specs.Hex.{encode_lower};
ghost use Rattle.vx_report.specs.Words.{named_text, counted_text};
ghost use Rattle.vx_report.specs.Refusals.{refusal_words, refusal_text};

use crate::words::{push_after, push_hex, push_number, push_site_after, push_text, push_two_after};
use std::alloc::Global;
use vx_model::{Bytes, Counted, Name, Named, No, OutOfMemory};

/// The line of a refusal: `no`, its code and its words.
pub fn refusal(alloc: Global, no: &No) -> Result<Bytes, OutOfMemory>
    ensures { IfOk result (λ text. text ≡ refusal_text no.now) }
{
    let mut out = Vec::new(alloc);
    push_refusal(&mut out, no)?;
    Ok(Bytes::new(out))
}

/// Appends the line of a refusal.
pub fn push_refusal(out: &mut Vec<u8>, no: &No) -> Result<(), OutOfMemory>
    ensures { OnOk result (out.new.items ≡ out.old.items ++ refusal_text no.now) }
{
    push_text(out, b"no ")?;
    push_words(out, no)?;
    push_text(out, b"\n")
}

#[tactic(auto, unfolding(crate::specs::Refusals::refusal_words))]
fn push_words(out: &mut Vec<u8>, no: &No) -> Result<(), OutOfMemory>
    ensures { OnOk result (out.new.items ≡ out.old.items ++ refusal_words no.now) }
{
    match no {
        No::Unknown { what } => push_unknown(out, what),
        No::Exists { name } => push_exists(out, name),
        No::Range => push_text(out, b"3 range"),
        No::Size => push_text(out, b"4 size"),
        No::Role => push_text(out, b"5 role"),
        No::Down => push_text(out, b"6 down"),
        No::Device { disk } => push_after(out, b"7 device ", u64::from(*disk)),
        No::Missing { disk } => push_after(out, b"8 missing ", u64::from(*disk)),
        No::NoConfig => push_text(out, b"9 noconfig"),
        No::LastPlex => push_text(out, b"10 lastplex"),
        No::Space { need, have } => push_two_after(out, b"11 space ", *need, *have),
        No::LogFull { link } => push_site_after(out, b"12 logfull ", link),
        No::Stalled { link } => push_site_after(out, b"13 stalled ", link),
        No::LinkDown { link } => push_site_after(out, b"14 linkdown ", link),
        No::Unconfirmed { number } => push_after(out, b"15 unconfirmed ", *number),
        No::Inconsistent => push_text(out, b"16 inconsistent"),
        No::Behind { stored, head } => push_two_after(out, b"17 behind ", *stored, *head),
        No::Replaying { link } => push_site_after(out, b"18 replaying ", link),
        No::Limit { what, most } => push_limit(out, *what, *most),
        No::Halted { disk } => push_after(out, b"20 halted ", u64::from(*disk)),
        No::Gap { low, need } => push_two_after(out, b"21 gap ", *low, *need),
        No::Damaged {
            unit,
            block,
            stored,
            computed,
        } => push_damaged(out, *unit, *block, stored, computed),
        No::Paused => push_text(out, b"23 paused"),
        No::Unsettled { stored, head } => push_two_after(out, b"24 unsettled ", *stored, *head),
        No::Format { version } => push_after(out, b"25 format ", u64::from(*version)),
    }
}

fn push_unknown(out: &mut Vec<u8>, what: &Named) -> Result<(), OutOfMemory>
    ensures { OnOk result (out.new.items ≡ out.old.items ++ (codes "1 unknown " ++ named_text what.now)) }
{
    push_text(out, b"1 unknown ")?;
    match what {
        Named::Of(name) => push_text(out, name.as_bytes()),
        Named::Number(number) => push_number(out, *number),
    }
}

fn push_exists(out: &mut Vec<u8>, name: &Name) -> Result<(), OutOfMemory>
    ensures { OnOk result (out.new.items ≡ out.old.items ++ (codes "2 exists " ++ name.now)) }
{
    push_text(out, b"2 exists ")?;
    push_text(out, name.as_bytes())
}

fn counted(what: Counted) -> &'static [u8]
    ensures { result.now ≡ counted_text what }
{
    match what {
        Counted::Sites => b"sites",
        Counted::Disks => b"disks",
        Counted::Blocks => b"blocks",
        Counted::Volumes => b"volumes",
        Counted::Plexes => b"plexes",
        Counted::Subdisks => b"subdisks",
        Counted::Links => b"links",
        Counted::Threads => b"threads",
        Counted::Calls => b"calls",
        Counted::Number => b"number",
    }
}

fn push_limit(out: &mut Vec<u8>, what: Counted, most: u64) -> Result<(), OutOfMemory>
    ensures { OnOk result (out.new.items ≡ out.old.items ++ (codes "19 limit " ++ counted_text what ++ 32 ∷ decimal most)) }
{
    push_text(out, b"19 limit ")?;
    push_text(out, counted(what))?;
    push_after(out, b" ", most)
}

fn push_damaged(
    out: &mut Vec<u8>,
    unit: u32,
    block: u64,
    stored: &[u8; 32],
    computed: &[u8; 32],
) -> Result<(), OutOfMemory>
    ensures { OnOk result (out.new.items ≡ out.old.items ++ (codes "22 damaged " ++ decimal unit ++ 32 ∷ decimal block ++ 32 ∷ encode_lower stored.now ++ 32 ∷ encode_lower computed.now)) }
{
    push_two_after(out, b"22 damaged ", u64::from(unit), block)?;
    push_digest(out, stored)?;
    push_digest(out, computed)?;
    Ok(())
}

fn push_digest(out: &mut Vec<u8>, digest: &[u8; 32]) -> Result<(), OutOfMemory>
    ensures { OnOk result (out.new.items ≡ out.old.items ++ 32 ∷ encode_lower digest.now) }
{
    push_text(out, b" ")?;
    push_hex(out, digest)
}
