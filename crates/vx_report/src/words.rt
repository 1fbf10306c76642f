// The words that several lines share.
ghost use Rattle.std.specs.Prelude.{◌≡◌, ◌≤◌, ◌++◌, ◌∷◌, OnOk, length, if◌then◌else◌};
ghost use Rattle.std.specs.Fmt.{decimal};
ghost use Rattle.hex.specs.Hex.{encode_lower};
ghost use Rattle.vx_report.specs.Words.{site_name_text};

use itoa::Buffer;
use vx_model::{OutOfMemory, SiteName};

/// Appends these bytes.
pub fn push_text(out: &mut Vec<u8>, text: &[u8]) -> Result<(), OutOfMemory>
    ensures { OnOk result (out.new.items ≡ out.old.items ++ text.now) }
{
    out.extend_from_slice(text)?;
    Ok(())
}

/// Appends a number in decimal digits.
pub fn push_number(out: &mut Vec<u8>, number: u64) -> Result<(), OutOfMemory>
    ensures { OnOk result (out.new.items ≡ out.old.items ++ decimal number) }
{
    let mut buffer = Buffer::new();
    push_text(out, buffer.format(number).as_bytes())
}

/// Appends the name of a site, or its number.
pub fn push_site_name(out: &mut Vec<u8>, site: &SiteName) -> Result<(), OutOfMemory>
    ensures { OnOk result (out.new.items ≡ out.old.items ++ site_name_text site.now) }
{
    match site {
        SiteName::Known(name) => push_text(out, name.as_bytes()),
        SiteName::Number(number) => push_after(out, b"#", u64::from(*number)),
    }
}

/// Appends these bytes and a number.
pub fn push_after(out: &mut Vec<u8>, text: &[u8], number: u64) -> Result<(), OutOfMemory>
    ensures { OnOk result (out.new.items ≡ out.old.items ++ (text.now ++ decimal number)) }
{
    push_text(out, text)?;
    push_number(out, number)
}

/// Appends these bytes and the name of a site.
pub fn push_site_after(out: &mut Vec<u8>, text: &[u8], site: &SiteName) -> Result<(), OutOfMemory>
    ensures { OnOk result (out.new.items ≡ out.old.items ++ (text.now ++ site_name_text site.now)) }
{
    push_text(out, text)?;
    push_site_name(out, site)
}

/// Appends these bytes and two numbers with a space between.
pub fn push_two_after(
    out: &mut Vec<u8>,
    text: &[u8],
    first: u64,
    second: u64,
) -> Result<(), OutOfMemory>
    ensures { OnOk result (out.new.items ≡ out.old.items ++ (text.now ++ decimal first ++ 32 ∷ decimal second)) }
{
    push_after(out, text, first)?;
    push_after(out, b" ", second)
}

/// Appends up to a block of bytes, each as two lower-case hexadecimal digits.
pub fn push_hex(out: &mut Vec<u8>, bytes: &[u8]) -> Result<(), OutOfMemory>
    requires { length bytes.now ≤ 512 }
    ensures { OnOk result (out.new.items ≡ out.old.items ++ encode_lower bytes.now) }
{
    let mut room = [0; 1024];
    let text = &mut room[..2 * bytes.len()];
    hex::encode_to_slice(bytes, text).unwrap();
    push_text(out, text)
}

/// The first of two texts where `flag` holds, else the second.
pub fn either<'a>(flag: bool, yes: &'a [u8], other: &'a [u8]) -> &'a [u8]
    ensures { result.now ≡ (if flag then yes.now else other.now) }
{
    if flag { yes } else { other }
}
