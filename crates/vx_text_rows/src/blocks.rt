// What a block, and what is kept of a write, are printed as.
use std::test::Fail;
use vx_model::Name;
use vx_report::{Kept, block, push_kept};

#[test]
fn prints_one_byte_or_all(rt: HostRuntime) -> Result<(), Fail> {
    let equal = block(rt.alloc(), &[0x5a; 512])?;
    assert!(rt; equal.as_slice() == b"5a\n".as_slice());
    let mut bytes = [0; 512];
    bytes[511] = 0xf0;
    let text = block(rt.alloc(), &bytes)?;
    let text = text.as_slice();
    assert!(rt; text.len() == 1025);
    assert!(rt; text.starts_with(b"0000"));
    assert!(rt; text.ends_with(b"00f0\n"));
    Ok(())
}

#[test]
fn prints_what_is_kept_of_a_write(rt: HostRuntime) -> Result<(), Fail> {
    let mut kept = Kept {
        volume: Name::new(b"v"),
        block: 70,
        count: 3,
        bits: [false; 16],
    };
    kept.bits[0] = true;
    kept.bits[2] = true;
    kept.bits[3] = true;
    let mut out = Vec::new(rt.alloc());
    push_kept(&mut out, &kept)?;
    assert!(rt; out.as_slice() == b"kept v 70 101\n".as_slice());
    Ok(())
}
