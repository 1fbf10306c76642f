// What no clause says: that the ends in memory fail at the calls that are named, and what files and full writers give.
use std::fs::{self, File};
use std::test::Fail;
use vx_stream::{Failed, HostSink, HostSource, MemSink, MemSource, Sink, Source};

#[test]
fn takes_what_is_left_but_at_named_calls(rt: HostRuntime) -> Result<(), Fail> {
    let mut source = MemSource::new(rt.alloc(), b"hello", &[2, 4])?;
    let mut into = [0; 3];
    for (wanted, bytes) in [
        (Ok(3), b"hel"),
        (Err(Failed), b"hel"),
        (Ok(2), b"lol"),
        (Err(Failed), b"lol"),
        (Ok(0), b"lol"),
    ] {
        assert!(rt; source.take(&mut into) == wanted);
        assert!(rt; &into[..] == &bytes[..]);
    }
    assert!(rt; source.faults() == 2);
    Ok(())
}

#[test]
fn puts_what_fits_but_at_named_calls(rt: HostRuntime) -> Result<(), Fail> {
    let mut sink = MemSink::new(rt.alloc(), 4, &[1])?;
    for wanted in [Err(Failed), Ok(3), Ok(1), Err(Failed)] {
        assert!(rt; sink.put(b"abc") == wanted);
    }
    assert!(rt; sink.written() == b"abca".as_slice());
    assert!(rt; sink.faults() == 2);
    Ok(())
}

#[test]
fn writes_a_file_and_reads_it_again(rt: HostRuntime) -> Result<(), Fail> {
    let mut sink = HostSink::new(File::create(&rt, "stream")?);
    assert!(rt; sink.put(b"hello") == Ok(5));
    assert!(rt; sink.faults() == 0);
    let mut source = HostSource::new(fs::open(&rt, "stream")?);
    let mut into = [0; 4];
    assert!(rt; source.take(&mut into) == Ok(4));
    assert!(rt; &into[..] == b"hell".as_slice());
    assert!(rt; source.take(&mut into) == Ok(1));
    assert!(rt; &into[..] == b"oell".as_slice());
    assert!(rt; source.take(&mut into) == Ok(0));
    assert!(rt; source.faults() == 0);
    Ok(())
}

#[test]
fn counts_what_a_full_writer_refuses(rt: HostRuntime) -> Result<(), Fail> {
    let mut room = [0; 2];
    let mut sink = HostSink::new(&mut room[..]);
    assert!(rt; sink.put(b"abc") == Ok(2));
    assert!(rt; sink.put(b"c") == Err(Failed));
    assert!(rt; sink.faults() == 1);
    Ok(())
}
