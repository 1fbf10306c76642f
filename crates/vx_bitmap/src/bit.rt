// A bit of a byte.
ghost use Rattle.std.specs.Prelude.{◌≡◌, ◌<◌, ℕ, ◌^◌};
ghost use Rattle.vx_bitmap.specs.Bits.{bit as bit_is, with_bit as with_bit_is};

/// Whether bit k is set, from the lowest.
pub fn has_bit(byte: u8, k: u32) -> bool
    requires { k < 8 }
    ensures { result ≡ bit_is byte k }
{
    (byte / weight(k)) % 2 == 1
}

/// The byte with bit k set or not.
pub(crate) fn with_bit(byte: u8, k: u32, value: bool) -> u8
    requires { k < 8 }
    ensures { result ≡ with_bit_is byte k value }
{
    let has = has_bit(byte, k);
    if value {
        if has { byte } else { byte + weight(k) }
    } else {
        if has { byte - weight(k) } else { byte }
    }
}

fn weight(k: u32) -> u8
    requires { k < 8 }
    ensures { result ≡ 2 ^ k }
{
    [1, 2, 4, 8, 16, 32, 64, 128][k as usize]
}
