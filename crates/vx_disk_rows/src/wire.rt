// What no clause says: fields at their places by worked bytes, and digests by another program.
use std::test::*;
use vx_model::{Line, Name};
use vx_wire::{
    BrokenSeal, Field, broken_seal, digest, get_bytes, get_flag, get_line, get_name, get_u8,
    get_u16, get_u32, get_u64, is_zero, put_bytes, put_fields, put_flag, put_line, put_name,
    put_u8, put_u16, put_u32, put_u64, put_zeros, seal,
};

// The digest of no bytes, and that of "abc" (FIPS 180-4, appendix B).
const NOTHING: [u8; 32] = [
    0xe3, 0xb0, 0xc4, 0x42, 0x98, 0xfc, 0x1c, 0x14, 0x9a, 0xfb, 0xf4, 0xc8, 0x99, 0x6f, 0xb9, 0x24,
    0x27, 0xae, 0x41, 0xe4, 0x64, 0x9b, 0x93, 0x4c, 0xa4, 0x95, 0x99, 0x1b, 0x78, 0x52, 0xb8, 0x55,
];

const ABC: [u8; 32] = [
    0xba, 0x78, 0x16, 0xbf, 0x8f, 0x01, 0xcf, 0xea, 0x41, 0x41, 0x40, 0xde, 0x5d, 0xae, 0x22, 0x23,
    0xb0, 0x03, 0x61, 0xa3, 0x96, 0x17, 0x7a, 0x9c, 0xb4, 0x10, 0xff, 0x61, 0xf2, 0x00, 0x15, 0xad,
];

#[test]
fn digests(rt: HostRuntime) {
    assert!(rt; digest(b"") == NOTHING);
    assert!(rt; digest(b"abc") == ABC);
}

#[test]
fn numbers_stand_where_they_are_put(rt: HostRuntime) {
    let mut bytes = [0xff; 28];
    put_u8(&mut bytes, 0, 0x01);
    put_u16(&mut bytes, 1, 0x0203);
    put_u32(&mut bytes, 3, 0x04050607);
    put_u64(&mut bytes, 7, 0x08090a0b0c0d0e0f);
    put_line(
        &mut bytes,
        15,
        Line {
            generation: 0x1011121314151617,
            origin: 0x18191a1b,
        },
    );
    let mut wanted = [0xff; 28];
    for i in 0..27 {
        wanted[i] = i as u8 + 1;
    }
    assert!(rt; bytes == wanted);
    assert!(rt; get_u8(&bytes, 0) == 0x01);
    assert!(rt; get_u16(&bytes, 1) == 0x0203);
    assert!(rt; get_u32(&bytes, 3) == 0x04050607);
    assert!(rt; get_u64(&bytes, 7) == 0x08090a0b0c0d0e0f);
    assert!(rt; get_line(&bytes, 15).generation == 0x1011121314151617);
    assert!(rt; get_line(&bytes, 15).origin == 0x18191a1b);
}

#[test]
fn names_and_flags_stand_where_they_are_put(rt: HostRuntime) {
    let mut bytes = [0xff; 13];
    put_name(&mut bytes, 0, &Name::new(b"log1"));
    put_flag(&mut bytes, 5, true);
    put_flag(&mut bytes, 6, false);
    put_zeros(&mut bytes, 7, 3);
    put_bytes(&mut bytes, 10, b"xy");
    assert!(rt; bytes == *b"\x04log1\x01\x00\x00\x00\x00xy\xff");
    assert!(rt; get_name(&bytes, 0) == Some(Name::new(b"log1")));
    assert!(rt; get_flag(&bytes, 5) == Some(true));
    assert!(rt; get_flag(&bytes, 6) == Some(false));
    assert!(rt; get_flag(&bytes, 11) == None);
    assert!(rt; is_zero(&bytes, 6, 4));
    assert!(rt; !is_zero(&bytes, 6, 5));
    let two: [u8; 2] = get_bytes(&bytes, 10);
    assert!(rt; two == *b"xy");
}

#[test]
#[tactic(auto, unfolding(vx_wire::specs::Fields::spelled, vx_wire::specs::Numbers::be_bytes))]
fn fields_stand_in_their_order(rt: HostRuntime) {
    let mut bytes = [0xff; 17];
    let next = put_fields(
        &mut bytes,
        1,
        &[
            Field::U8(0x01),
            Field::U16(0x0203),
            Field::U32(0x04050607),
            Field::U64(0x08090a0b0c0d0e0f),
        ],
    );
    assert!(rt; next == 16);
    let mut wanted = [0xff; 17];
    for i in 1..16 {
        wanted[i] = i as u8;
    }
    assert!(rt; bytes == wanted);
}

#[test]
fn names_are_whole(rt: HostRuntime) {
    let most = b"\x08abcdefgh\x09abcdefghi\x00\x03ab";
    assert!(rt; get_name(most, 0) == Some(Name::new(b"abcdefgh")));
    assert!(rt; get_name(most, 9) == None);
    assert!(rt; get_name(most, 19) == None);
    assert!(rt; get_name(most, 20) == None);
    assert!(rt; get_name(most, 23) == None);
}

#[test]
fn seals(rt: HostRuntime) {
    // The digest of 480 zeros, by another program.
    let zeros: [u8; 32] = [
        0x4b, 0x48, 0xf2, 0x1a, 0x4b, 0x7a, 0x02, 0xbf, 0xbe, 0xc1, 0x9e, 0xf8, 0x80, 0xa9, 0x67,
        0xa0, 0x23, 0x34, 0xa3, 0xcd, 0xce, 0xf8, 0xae, 0x83, 0xde, 0x2e, 0xf3, 0x27, 0xba, 0x8b,
        0xc5, 0xdd,
    ];
    let mut block = [0; 512];
    seal(&mut block);
    let end: [u8; 32] = get_bytes(&block, 480);
    assert!(rt; end == zeros);
    assert!(rt; broken_seal(&block).is_none());
    block[511] ^= 1;
    let mut stored = zeros;
    stored[31] ^= 1;
    let computed = zeros;
    assert!(rt; broken_seal(&block) == Some(BrokenSeal { stored, computed }));
}
