// What no clause says: a worked crash in a seal, and that each call succeeds on a shelf in memory.
ghost use Rattle.std.specs.Prelude.{IsTrue};
ghost use Rattle.vx_ringio.specs.Tracks.{RingLies};

use std::alloc::Global;
use std::test::*;
use vx_disk::{MemShelf, Rack, Shelf};
use vx_model::limits::LEAST_BLOCKS;
use vx_model::{Blocks, Line, OutOfMemory, State, Stop, Update};
use vx_srl::{Srl, SrlNo};

// A shelf in memory of one disk of 10 blocks.
fn fitted(alloc: Global) -> Result<MemShelf, OutOfMemory> {
    let mut shelf = MemShelf::new(alloc, &[])?;
    if shelf.fit(alloc, None, 0, 1, 10).is_err() {
        return Err(OutOfMemory);
    }
    Ok(shelf)
}

// Whether the log lies on the shelf.
fn lies<S: Shelf>(srl: &Srl, shelf: &S) -> bool
    ensures { IsTrue result → RingLies srl.now.unit srl.now.ring (S.meaning shelf.now) }
{
    srl.unit() < shelf.units() && srl.ring() + 2 <= shelf.size(srl.unit())
}

fn create<S: Shelf>(alloc: Global, shelf: &mut S) -> Result<Srl, Stop> {
    if shelf.units() == 0 {
        return Err(Stop::OutOfMemory);
    }
    Srl::create(alloc, shelf, 0, &State::first(0), 0)
}

fn start<S: Shelf>(alloc: Global, shelf: &mut S) -> Result<Srl, Stop> {
    if shelf.units() == 0 || shelf.size(0) < LEAST_BLOCKS {
        return Err(Stop::OutOfMemory);
    }
    Srl::start(alloc, shelf, 0)
}

// Stages one block of these bytes.
fn stage<S: Shelf>(srl: &mut Srl, shelf: &mut S, value: u8) -> Result<u64, SrlNo> {
    if !lies(srl, shelf) {
        return Ok(99);
    }
    srl.stage(shelf, 1, 7, &[value; 512])
}

fn seal<S: Shelf>(srl: &mut Srl, shelf: &mut S) -> Result<u64, SrlNo> {
    if !lies(srl, shelf) {
        return Ok(99);
    }
    srl.seal(shelf)
}

fn raise<R: Rack>(rack: &mut R) {
    if rack.is_down() {
        rack.revive();
    }
}

// The first byte of a write of the log.
fn first_byte<S: Shelf>(srl: &Srl, shelf: &mut S, n: u64) -> Result<u8, SrlNo> {
    if !lies(srl, shelf) || n > srl.head() {
        return Ok(99);
    }
    let mut update = Update {
        line: Line::default(),
        number: 0,
        vol: 0,
        block: 0,
        bytes: Blocks::filled(1, 0),
    };
    srl.fetch(shelf, n, &mut update)?;
    Ok(update.bytes.as_bytes()[0])
}

// Two records are sealed, and the last flush of the seal is a crash that keeps the header of the second alone. The start finds
// nothing. A record that is sealed then is found by the next start, and the header that was passed over is not taken behind it.
#[test]
fn a_header_that_a_start_passed_over_is_not_taken(rt: HostRuntime) -> Result<(), Fail> {
    let alloc = rt.alloc();
    let mut shelf = fitted(alloc)?;
    let Ok(mut srl) = create(alloc, &mut shelf) else {
        return Err(Fail::from(OutOfMemory));
    };
    shelf.fuse(5, 2);
    assert!(rt; stage(&mut srl, &mut shelf, 0x11) == Ok(1));
    assert!(rt; stage(&mut srl, &mut shelf, 0x22) == Ok(2));
    assert!(rt; seal(&mut srl, &mut shelf).is_err());
    raise(&mut shelf);
    let Ok(mut srl) = start(alloc, &mut shelf) else {
        return Err(Fail::from(OutOfMemory));
    };
    assert!(rt; (srl.head(), srl.session()) == (0, 2));
    assert!(rt; stage(&mut srl, &mut shelf, 0x33) == Ok(1));
    assert!(rt; seal(&mut srl, &mut shelf) == Ok(1));
    shelf.crash(0);
    raise(&mut shelf);
    let Ok(srl) = start(alloc, &mut shelf) else {
        return Err(Fail::from(OutOfMemory));
    };
    assert!(rt; (srl.head(), srl.session()) == (1, 3));
    assert!(rt; first_byte(&srl, &mut shelf, 1) == Ok(0x33));
    Ok(())
}
