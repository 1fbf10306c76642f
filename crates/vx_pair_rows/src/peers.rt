// What no clause says: that updates come over from one group to another on shelves in memory, whichever of their packets are lost, come
// twice, or come in another order.
ghost use Rattle.std.specs.Prelude.{◌≡◌, [], ◌∷◌};
ghost use Rattle.vx_ringio.specs.Bodies.{IsBlocks};

use std::alloc::Global;
use std::test::*;
use vx_courier::send_message;
use vx_disk::{MemShelf, Rack, Shelf};
use vx_history::Said;
use vx_model::limits::MOST_NUMBER;
use vx_model::{Line, Link, Mode, No, OutOfMemory, Prot, State, SyncMode, Units, VolumeUnits};
use vx_net::{Flight, Net};
use vx_packet::{Assembly, Envelope, Message};
use vx_peers::{deliver_answer, deliver_update, pump};
use vx_rvg::Rvg;
use vx_secondary::Secondary;

// The log on disk 0, one volume on disk 1, and the maps on disk 2.
fn three_units() -> Units
    ensures { result ≡ record { srl = 0; maps = 2; vols = 1 ∷ [] } }
{
    let mut vols = VolumeUnits::new();
    vols.push(1);
    Units {
        srl: 0,
        maps: 2,
        vols,
    }
}

// A group on the first line of site 0, on a shelf in memory of three disks of 64 blocks.
fn made(alloc: Global) -> Result<Rvg<MemShelf>, OutOfMemory> {
    let mut shelf = MemShelf::new(alloc, &[])?;
    if shelf.fit(alloc, None, 0, 3, 64).is_err() || shelf.units() != 3 {
        return Err(OutOfMemory);
    }
    match Rvg::create(alloc, shelf, &three_units(), &State::first(0)) {
        Ok(rvg) => Ok(rvg),
        Err(_) => Err(OutOfMemory),
    }
}

// Two sites, of which site 0 has a link to site 1, and what is under way.
#[derive(Drop)]
struct Pair {
    sender: Rvg<MemShelf>,
    link: Link,
    answers: Assembly,
    receiver: Secondary<MemShelf>,
    fed_by: u32,
    updates: Assembly,
    flight: Flight,
}

fn line() -> Line
    ensures { result ≡ record { generation = 1; origin = 0 } }
{
    Line {
        generation: 1,
        origin: 0,
    }
}

// A pair whose link is live and goes by the log from number 0 on.
fn two_sites(alloc: Global) -> Result<Pair, OutOfMemory> {
    let receiver = match Secondary::new(alloc, made(alloc)?) {
        Ok(receiver) => receiver,
        Err(_) => return Err(OutOfMemory),
    };
    Ok(Pair {
        sender: made(alloc)?,
        link: Link {
            site: 1,
            bunker: false,
            attached: true,
            connected: true,
            paused: false,
            sync: SyncMode::Off,
            prot: Prot::Autodcm,
            session: 1,
            net: 0,
            stored: 0,
            sent: 0,
            trimmed: 0,
            mode: Mode::Log,
        },
        answers: Assembly::new(alloc)?,
        receiver,
        fed_by: 0,
        updates: Assembly::new(alloc)?,
        flight: Flight::new(alloc)?,
    })
}

// Logs blocks at the sender; 99 where there is no room.
fn write(sender: &mut Rvg<MemShelf>, start: u64, bytes: &[u8]) -> Result<u64, No>
    requires { IsBlocks bytes.now }
{
    if sender.volumes() == 0 || sender.free() < 17 {
        return Ok(99);
    }
    sender.write(0, start, bytes, 0)
}

// Pumps the link, and answers how many packets were sent by then; 99 where it is refused.
fn pumped(alloc: Global, pair: &mut Pair) -> u64 {
    if pair.sender.head() > MOST_NUMBER
        || pair.sender.state().line.generation > MOST_NUMBER
        || pair.sender.halted().is_some()
        || pair.sender.low() > pair.link.stored.saturating_add(1)
    {
        return 99;
    }
    match pump(alloc, &mut pair.sender, &mut pair.link, 0, &mut pair.flight) {
        Ok(()) => pair.flight.count(),
        Err(_) => 99,
    }
}

// Hands a packet to the receiver: what is said, and how many packets were sent by then.
fn handed(pair: &mut Pair, number: u64) -> (bool, u64) {
    let said = deliver_update(
        &mut pair.receiver,
        &mut pair.fed_by,
        &mut pair.updates,
        1,
        &mut pair.flight,
        number,
    );
    let taken = matches!(said, Ok(Said::Taken));
    (taken, pair.flight.count())
}

// Hands a packet to the sender, whether it is taken.
fn answered(pair: &mut Pair, number: u64) -> bool {
    let safe = pair.sender.head();
    let said = deliver_answer(
        &mut pair.link,
        safe,
        &line(),
        &mut pair.answers,
        &pair.flight,
        number,
    );
    matches!(said, Said::Taken)
}

// The receiver greets the sender.
fn greet(pair: &mut Pair) {
    let envelope = Envelope {
        source: 1,
        target: 0,
        line: line(),
    };
    send_message(
        &mut pair.flight,
        &envelope,
        &Message::Hello {
            session: 1,
            number: 0,
            stored: 0,
        },
    );
}

// The first byte of a block at the receiver.
fn shown(pair: &mut Pair, block: u64) -> u8 {
    if pair.receiver.rvg.volumes() == 0 {
        return 99;
    }
    let mut bytes = [0; 512];
    match pair.receiver.show(0, block, &mut bytes) {
        Ok(()) => bytes[0],
        Err(_) => 99,
    }
}

// Two writes are pumped behind a greeting. The second is ignored before the first; the first is taken and acknowledged, and acknowledged
// again; then the second is taken. Acknowledgements count once.
#[test]
fn a_gap_waits_for_its_turn(rt: HostRuntime) -> Result<(), Fail> {
    let alloc = rt.alloc();
    let mut pair = two_sites(alloc)?;
    greet(&mut pair);
    assert!(rt; answered(&mut pair, 1));
    assert!(rt; write(&mut pair.sender, 0, &[0x11; 512]) == Ok(1));
    assert!(rt; write(&mut pair.sender, 1, &[0x22; 512]) == Ok(2));
    assert!(rt; pumped(alloc, &mut pair) == 3);
    assert!(rt; handed(&mut pair, 3) == (false, 3));
    assert!(rt; handed(&mut pair, 2) == (true, 4));
    assert!(rt; handed(&mut pair, 2) == (false, 5));
    assert!(rt; handed(&mut pair, 3) == (true, 6));
    assert!(rt; (shown(&mut pair, 0), shown(&mut pair, 1)) == (0x11, 0x22));
    assert!(rt; (answered(&mut pair, 4), pair.link.net) == (true, 1));
    assert!(rt; (answered(&mut pair, 5), pair.link.net) == (false, 1));
    assert!(rt; (answered(&mut pair, 6), pair.link.net) == (true, 2));
    assert!(rt; handed(&mut pair, 9) == (false, 6));
    assert!(rt; pumped(alloc, &mut pair) == 6);
    Ok(())
}

// A write of two blocks goes in two packets. The second one is kept without an acknowledgement, and the first one completes the update.
#[test]
fn an_update_comes_in_parts(rt: HostRuntime) -> Result<(), Fail> {
    let alloc = rt.alloc();
    let mut pair = two_sites(alloc)?;
    assert!(rt; write(&mut pair.sender, 4, &[0x33; 1024]) == Ok(1));
    assert!(rt; pumped(alloc, &mut pair) == 2);
    assert!(rt; handed(&mut pair, 2) == (true, 2));
    assert!(rt; shown(&mut pair, 5) == 0);
    assert!(rt; handed(&mut pair, 1) == (true, 3));
    assert!(rt; (shown(&mut pair, 4), shown(&mut pair, 5)) == (0x33, 0x33));
    assert!(rt; (answered(&mut pair, 3), pair.link.net) == (true, 1));
    Ok(())
}
