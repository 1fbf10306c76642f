// What no clause says: the worked lives of a few packets, and that the calls succeed.
use std::test::Fail;
use vx_net::{Flight, Net};

// The first and the last byte of a packet.
fn ends(flight: &Flight, k: u64) -> Option<(u8, u8)> {
    match flight.get(k) {
        Some([first, .., last]) => Some((*first, *last)),
        _ => None,
    }
}

#[test]
fn an_empty_flight_gives_none(rt: HostRuntime) -> Result<(), Fail> {
    let flight = Flight::new(rt.alloc())?;
    assert!(rt; flight.count() == 0);
    assert!(rt; flight.first() == 1);
    for k in [0, 1, 2, u64::MAX] {
        assert!(rt; flight.get(k).is_none());
    }
    Ok(())
}

#[test]
fn packets_come_back_under_their_numbers(rt: HostRuntime) -> Result<(), Fail> {
    let mut flight = Flight::new(rt.alloc())?;
    assert!(rt; flight.send(&[7; 48]) == 1);
    assert!(rt; flight.send(&[8; 1072]) == 2);
    assert!(rt; flight.send(&[1, 2, 3]) == 3);
    assert!(rt; flight.first() == 1);
    assert!(rt; flight.count() == 3);
    for (k, wanted) in [
        (0, None),
        (1, Some((7, 7))),
        (2, Some((8, 8))),
        (3, Some((1, 3))),
        (4, None),
    ] {
        assert!(rt; ends(&flight, k) == wanted);
    }
    assert!(rt; flight.get(2).map(|bytes| bytes.len()) == Some(1072));
    Ok(())
}

// Of two more packets than can be kept the first two are lost.
#[test]
fn the_oldest_are_dropped(rt: HostRuntime) -> Result<(), Fail> {
    let mut flight = Flight::new(rt.alloc())?;
    for k in 1..65539 {
        let number = flight.send(&[(k % 256) as u8, (k / 256 % 256) as u8]);
        assert!(rt; number == k);
    }
    assert!(rt; flight.first() == 3);
    assert!(rt; flight.count() == 65538);
    for (k, wanted) in [
        (2, None),
        (3, Some((3, 0))),
        (1000, Some((232, 3))),
        (65538, Some((2, 0))),
        (65539, None),
    ] {
        assert!(rt; ends(&flight, k) == wanted);
    }
    Ok(())
}
