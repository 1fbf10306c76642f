// Flags at a place.
ghost use Rattle.std.specs.Prelude.{◌≡◌, ◌<◌, Bool, length, IfSome, Some};
ghost use Rattle.vx_wire.specs.Fields.{flag_bytes};
ghost use Rattle.vx_wire.specs.Places.{put_at, StandsAt};

/// The flag at a place: None exactly where the byte there is neither 0 nor 1.
pub fn get_flag(bytes: &[u8], at: usize) -> Option<bool>
    requires { at < length bytes.now }
    ensures found { IfSome result (λ flag. StandsAt at (flag_bytes flag) bytes.now) }
    ensures only { (flag : Bool) → StandsAt at (flag_bytes flag) bytes.now → result ≡ Some flag }
{
    match bytes[at] {
        0 => Some(false),
        1 => Some(true),
        _ => None,
    }
}

/// Writes a flag at a place: 1 where it is set, else 0.
pub fn put_flag(bytes: &mut [u8], at: usize, flag: bool)
    requires { at < length bytes.old }
    ensures { bytes.new ≡ put_at at (flag_bytes flag) bytes.old }
{
    bytes[at] = if flag { 1 } else { 0 };
}
