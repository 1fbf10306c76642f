// The words of a line, as they are printed behind the first: each with one space before it.
ghost use Rattle.std.specs.Prelude.{◌≡◌, ◌++◌, ◌∷◌, [], OnOk};
ghost use Rattle.std.specs.Fmt.{decimal};
ghost use Rattle.std.specs.List.{join_with_byte};
ghost use Rattle.hex.specs.Hex.{encode_lower};
ghost use Rattle.vx_script.specs.Tokens.{comma_name, Key, spaced};
ghost use Rattle.vx_script.specs.Formats.{policy_token};
ghost use Rattle.vx_script.specs.Choices.{log_text, map_text};
ghost use Rattle.vx_script.specs.Grammar.{layout_tokens};

use crate::line::{Layout, ReadPolicy, VolumeLog, VolumeMap};
use crate::word::Word;
use std::alloc::Global;
use vx_model::{Name, OutOfMemory};

/// A word.
pub fn push_word(out: &mut Vec<u8>, word: &[u8]) -> Result<(), OutOfMemory>
    ensures { OnOk result (out.new.items ≡ out.old.items ++ 32 ∷ word.now) }
{
    out.push(b' ')?;
    out.extend_from_slice(word)?;
    Ok(())
}

/// A name behind a label.
pub fn push_name(out: &mut Vec<u8>, label: &[u8], name: &Name) -> Result<(), OutOfMemory>
    ensures { OnOk result (out.new.items ≡ out.old.items ++ 32 ∷ (label.now ++ name.now)) }
{
    push_word(out, label)?;
    out.extend_from_slice(name.as_bytes())?;
    Ok(())
}

/// A number behind a label, in decimals with no leading zero.
pub fn push_number(
    alloc: Global,
    out: &mut Vec<u8>,
    label: &[u8],
    number: u64,
) -> Result<(), OutOfMemory>
    ensures { OnOk result (out.new.items ≡ out.old.items ++ 32 ∷ (label.now ++ decimal number)) }
{
    let text = format!(in alloc; "{number}")?;
    push_word(out, label)?;
    out.extend_from_slice(text.as_bytes())?;
    Ok(())
}

/// Bytes as hexadecimal digits.
pub fn push_hex(alloc: Global, out: &mut Vec<u8>, bytes: &[u8]) -> Result<(), OutOfMemory>
    ensures { OnOk result (out.new.items ≡ out.old.items ++ 32 ∷ encode_lower bytes.now) }
{
    let text = hex::encode(alloc, bytes)?;
    push_word(out, text.as_bytes())
}

fn push_one(out: &mut Vec<u8>, index: usize, name: &Name) -> Result<(), OutOfMemory>
    ensures { OnOk result (out.new.items ≡ out.old.items ++ comma_name index name.now) }
{
    if index > 0 {
        out.push(b',')?;
    }
    out.extend_from_slice(name.as_bytes())?;
    Ok(())
}

/// Names behind a label, with commas between.
pub fn push_names(out: &mut Vec<u8>, label: &[u8], names: &[Name]) -> Result<(), OutOfMemory>
    ensures { OnOk result (out.new.items ≡ out.old.items ++ 32 ∷ (label.now ++ join_with_byte 44 names.now)) }
{
    push_word(out, label)?;
    for (i, name) in names.iter().enumerate() {
        push_one(out, i, name)?;
    }
    Ok(())
}

fn push_policy(alloc: Global, out: &mut Vec<u8>, policy: ReadPolicy) -> Result<(), OutOfMemory>
    ensures { OnOk result (out.new.items ≡ out.old.items ++ spaced (policy_token policy ∷ [])) }
{
    match policy {
        ReadPolicy::Round => push_word(out, b"rdpol=round"),
        ReadPolicy::Prefer { plex } => push_number(alloc, out, b"rdpol=prefer:", plex),
    }
}

fn push_layout(alloc: Global, out: &mut Vec<u8>, layout: Layout) -> Result<(), OutOfMemory>
    ensures { OnOk result (out.new.items ≡ out.old.items ++ spaced (layout_tokens layout [])) }
{
    match layout {
        Layout::Concat => push_word(out, b"layout=concat"),
        Layout::Stripe { columns, width } => {
            push_word(out, b"layout=stripe")?;
            push_number(alloc, out, b"ncol=", columns)?;
            push_number(alloc, out, b"width=", width)?;
            Ok(())
        }
    }
}

/// A volume's options.
#[tactic(auto, using(crate::proofs::LayoutLemmas::layout_spaced))]
pub fn push_options(
    alloc: Global,
    out: &mut Vec<u8>,
    layout: Layout,
    log: VolumeLog,
    map: VolumeMap,
    policy: ReadPolicy,
) -> Result<(), OutOfMemory>
    ensures { OnOk result (out.new.items ≡ out.old.items ++ spaced (layout_tokens layout (Key (log_text log) ∷ Key (map_text map) ∷ policy_token policy ∷ []))) }
{
    push_layout(alloc, out, layout)?;
    push_word(out, log.text())?;
    push_word(out, map.text())?;
    push_policy(alloc, out, policy)?;
    Ok(())
}
