// Disks in files: as each write is answered, another rack over the same files finds it in the log.
ghost use Rattle.std.specs.Prelude.{◌≡◌, [], ◌∷◌};

use std::alloc::Global;
use std::fs;
use std::str::from_utf8;
use std::sync::Wait;
use std::test::Fail;
use std::thread::Threads;
use vx_disk::{MemShelf, Rack, Shelf};
use vx_filedisk::HostRack;
use vx_model::limits::LEAST_BLOCKS;
use vx_model::{Units, VolumeUnits};
use vx_runs::{OpenGate, Status, fresh_racks, vx_main};
use vx_rvg::Rvg;
use vx_stream::{Failed, MemSink, MemSource, Sink};

// A sink that starts a group over a copy of the files at each reply `done N`. It tells contracts nothing of its bytes.
#[derive(Drop)]
struct Watch {
    inner: MemSink,
    rt: HostRuntime,
    alloc: Global,
    // How many groups were to be started, and how many of them did not have N as the number of their last write.
    copies: u64,
    misses: u64,
}

impl Sink for Watch {
    ghost use Rattle.std.specs.Prelude.{None};

    ghost written = { λ _. None };

    ghost faults = { λ s. s.inner.faults };

    fn put(&mut self, bytes: &[u8]) -> Result<usize, Failed> {
        let count = self.inner.put(bytes)?;
        if let Some(number) = last_done(self.inner.written()) {
            self.copies = self.copies.saturating_add(1);
            if head_in_files(self.rt, self.alloc) != Some(number) {
                self.misses = self.misses.saturating_add(1);
            }
        }
        Ok(count)
    }

    fn faults(&self) -> u64 {
        self.inner.faults()
    }
}

// N, where the bytes end with a line `done N`.
fn last_done(bytes: &[u8]) -> Option<u64> {
    let Ok(text) = from_utf8(bytes) else {
        return None;
    };
    let lines = text.strip_suffix("\n")?;
    let line = match lines.rsplit_once("\n") {
        Some((_, last)) => last,
        None => lines,
    };
    match line.strip_prefix("done ")?.parse() {
        Ok(number) => Some(number),
        Err(_) => None,
    }
}

// The number of the last write in the files of the first site, as a start over a copy of them finds it.
fn head_in_files(rt: HostRuntime, alloc: Global) -> Option<u64> {
    let shelf = copy_of_files(rt, alloc)?;
    if shelf.units() != 3
        || shelf.size(0) < LEAST_BLOCKS
        || shelf.size(1) != 64
        || shelf.size(2) != 64
    {
        return None;
    }
    match Rvg::start(alloc, shelf, &three_units()) {
        Ok(rvg) => Some(rvg.head()),
        Err(_) => None,
    }
}

// The log on disk 0, one volume on disk 1, and the maps on disk 2.
fn three_units() -> Units
    ensures { result ≡ record { srl = 0; maps = 2; vols = 1 ∷ [] } }
{
    let mut vols = VolumeUnits::new();
    vols.push(1);
    Units {
        srl: 0,
        maps: 2,
        vols,
    }
}

// The first site's three disks of 64 blocks, in memory.
fn copy_of_files(rt: HostRuntime, alloc: Global) -> Option<MemShelf> {
    let Ok(mut files) = HostRack::new(rt, alloc) else {
        return None;
    };
    let Ok(mut copy) = MemShelf::new(alloc, &[]) else {
        return None;
    };
    if files.fit(alloc, Some("."), 0, 3, 64).is_err() || copy.fit(alloc, None, 0, 3, 64).is_err() {
        return None;
    }
    for disk in 0..3u32 {
        copy_disk(&mut files, &mut copy, disk)?;
    }
    Some(copy)
}

// Copies 64 blocks, and flushes them.
fn copy_disk(files: &mut HostRack, copy: &mut MemShelf, disk: u32) -> Option<()> {
    for block in 0..64u64 {
        copy_block(files, copy, disk, block)?;
    }
    if copy.units() <= disk || copy.flush(disk).is_err() {
        return None;
    }
    Some(())
}

fn copy_block(files: &mut HostRack, copy: &mut MemShelf, disk: u32, block: u64) -> Option<()> {
    let mut bytes = [0; 512];
    if files.units() <= disk || files.size(disk) <= block {
        return None;
    }
    if files.read(disk, block, &mut bytes).is_err() {
        return None;
    }
    if copy.units() <= disk || copy.size(disk) <= block {
        return None;
    }
    if copy.write(disk, block, &bytes).is_err() {
        return None;
    }
    Some(())
}

fn remove(rt: &HostRuntime) {
    let _ = fs::remove_file(rt, "./0-0.vxd");
    let _ = fs::remove_file(rt, "./0-1.vxd");
    let _ = fs::remove_file(rt, "./0-2.vxd");
    remove_receiver(rt);
}

// The files of the second site.
fn remove_receiver(rt: &HostRuntime) {
    let _ = fs::remove_file(rt, "./1-0.vxd");
    let _ = fs::remove_file(rt, "./1-1.vxd");
    let _ = fs::remove_file(rt, "./1-2.vxd");
}

// Runs a script over the files of a folder.
fn run_in_files<H: Threads + Wait + Sync, O: Sink>(
    handle: &H,
    rt: HostRuntime,
    dir: &str,
    script: &[u8],
    sink: &mut O,
) -> Result<Status, Fail> {
    let alloc = rt.alloc();
    let mut words = Vec::new(alloc);
    for word in ["run", "--dir", dir] {
        words.push(String::from_str(alloc, word)?)?;
    }
    let mut source = MemSource::new(alloc, script, &[])?;
    let mut racks = fresh_racks(rt, alloc)?;
    Ok(vx_main(
        handle,
        alloc,
        &words,
        &mut source,
        sink,
        &mut racks,
        &OpenGate,
    ))
}

fn new_sink(rt: HostRuntime) -> Result<Watch, Fail> {
    let alloc = rt.alloc();
    Ok(Watch {
        inner: MemSink::new(alloc, 4096, &[])?,
        rt,
        alloc,
        copies: 0,
        misses: 0,
    })
}

// A later run over the same files takes up the raw set.
#[test]
fn a_write_that_is_answered_is_in_the_files(rt: HostRuntime) -> Result<(), Fail> {
    remove(&rt);
    let script =
        b"site a 3 64\nraw a\nwrite a d1 0 1 11\nwrite a d1 5 1 22\nwrite a d1 63 1 33\nwrite a d1 1 1 44\nwrite a d1 32 1 55\nwrite a d1 7 1 66\nwrite a d1 2 1 77\nwrite a d1 40 1 88\nwrite a d1 9 1 99\nwrite a d1 3 1 aa\n";
    let mut first = new_sink(rt)?;
    let status = run_in_files(&rt, rt, ".", script, &mut first)?;
    let later =
        b"site a 3 64\nrecover a\nread a d1 63 1\nwrite a d1 0 1 bb\nread a d1 0 2\nsite b 3 64\nrecover b\n";
    let mut second = new_sink(rt)?;
    let later_status = run_in_files(&rt, rt, ".", later, &mut second)?;
    remove(&rt);
    assert!(rt; status == Status::Done);
    assert!(rt;
        first.inner.written()
            == b"done\ndone\ndone 1\ndone 2\ndone 3\ndone 4\ndone 5\ndone 6\ndone 7\ndone 8\ndone 9\ndone 10\n".as_slice()
    );
    assert!(rt; first.copies == 10);
    assert!(rt; first.misses == 0);
    assert!(rt; later_status == Status::Done);
    assert!(rt;
        second.inner.written()
            == b"done\nrecovered 10\nsite a up\nrvg primary 1 a head 10 mark consistent session 2\n33\ndone 11\nbb\n44\ndone\nno 9 noconfig\n".as_slice()
    );
    assert!(rt; second.misses == 0);
    Ok(())
}

// What two runs show, the folder of their files, and whether the receiver's files are taken away between them; then both scripts, each with its
// replies.
type Runs = (
    &'static str,
    &'static str,
    bool,
    &'static str,
    &'static str,
    &'static str,
    &'static str,
);

const RUNS: &[Runs] = &[
    // Each site takes up what stands in files of its own.
    (
        "sites have files of their own",
        ".",
        false,
        "site a 3 64\nraw a\nwrite a d1 0 1 11\nsite b 3 64\nraw b\nwrite b d1 0 1 22\nwrite b d1 1 1 33\n",
        "done\ndone\ndone 1\ndone\ndone\ndone 1\ndone 2\n",
        "site a 3 64\nsite b 3 64\nrecover a\nrecover b\nread a d1 0 2\nread b d1 0 2\n",
        "done\ndone\nrecovered 1\nsite a up\nrvg primary 1 a head 1 mark consistent session 2\nrecovered 2\nsite b up\nrvg primary 1 b head 2 mark consistent session 2\n11\n00\n22\n33\n",
    ),
    // The files are looked for in the folder that the words name.
    (
        "a folder that is not there has no disks",
        "./not-there",
        false,
        "site a 3 64\n",
        "no 7 device 0\n",
        "",
        "",
    ),
    // A later run takes up the link and its receiver, each as the header of its log has it.
    (
        "a link stands in the files",
        ".",
        false,
        "site a 3 64\nraw a\nsite b 3 64\nraw b\nlink a b synchronous=off srlprot=fail\nconnect a b\nwrite a d1 0 1 11\nsettle a b\nwrite a d1 1 1 22\n",
        "done\ndone\ndone\ndone\ndone\ndone sent 1 1\ndone 1\nsettled 1 sent 2 5\ndone 2\n",
        "site a 3 64\nsite b 3 64\nrecover a\nrecover b\nconnect a b\nsettle a b\nshow b d1 0 2\n",
        "done\ndone\nrecovered 2\nsite a up\nrvg primary 1 a head 2 mark consistent session 2\nlink b attached cut running log net 1 stored 1\nrecovered 1 sent 1 1\nsite b up\nrvg secondary 1 a head 1 mark consistent session 2\ndone sent 2 2\nsettled 2 sent 3 6\n11\n22\n",
    ),
    // The disks of the receiver are new in the later run: so it is a primary of its own, and the link to it stays.
    (
        "a link to a site that is no secondary is not settled",
        ".",
        true,
        "site a 3 64\nraw a\nsite b 3 64\nraw b\nlink a b synchronous=off srlprot=fail\nconnect a b\nwrite a d1 0 1 11\nsettle a b\nwrite a d1 1 1 22\n",
        "done\ndone\ndone\ndone\ndone\ndone sent 1 1\ndone 1\nsettled 1 sent 2 5\ndone 2\n",
        "site a 3 64\nsite b 3 64\nrecover a\nraw b\nsettle a b\nconnect a b\nsettle a b\nsettle a c\nread b d1 0 2\nstatus a\nstatus b\n",
        "done\ndone\nrecovered 2\nsite a up\nrvg primary 1 a head 2 mark consistent session 2\nlink b attached cut running log net 1 stored 1\ndone\nno 5 role\ndone\nno 5 role\nno 1 unknown c\n00\n00\nsite a up\nrvg primary 1 a head 2 mark consistent session 2\nlink b attached connected running log net 1 stored 1\nsite b up\nrvg primary 1 b head 0 mark consistent session 1\n",
    ),
];

// Whether the run was done, with these replies.
fn is_done(status: Status, sink: &MemSink, wanted: &str) -> bool {
    status == Status::Done && sink.written() == wanted.as_bytes()
}

#[test]
fn later_runs_take_up_what_is_in_the_files(rt: HostRuntime) -> Result<(), Fail> {
    let alloc = rt.alloc();
    for (name, dir, takes, script, wanted, later, later_wanted) in RUNS {
        remove(&rt);
        let mut first = MemSink::new(alloc, 4096, &[])?;
        let status = run_in_files(&rt, rt, dir, script.as_bytes(), &mut first)?;
        if *takes {
            remove_receiver(&rt);
        }
        let mut second = MemSink::new(alloc, 4096, &[])?;
        let later_status = run_in_files(&rt, rt, dir, later.as_bytes(), &mut second)?;
        remove(&rt);
        assert!(rt;
            is_done(status, &first, wanted) && is_done(later_status, &second, later_wanted),
            "{name}"
        );
    }
    Ok(())
}
