// A link that loses each third packet and brings each fifth twice, beside the rules of its two ends in numbers alone.
use std::alloc::Global;
use std::test::Fail;
use vx_model::OutOfMemory;
use vx_runs::{Status, run_over};
use vx_stream::{MemSink, MemSource};

const MADE: &[u8] =
    b"site a 3 4096\nraw a\nsite b 3 4096\nraw b\nlink a b synchronous=off srlprot=fail\nconnect a b\n";

const WAS_MADE: &[u8] = b"done\ndone\ndone\ndone\ndone\ndone sent 1 1\n";

// How many writes there are, how many updates may be under way, and how many may wait at the receiver.
const WRITES: u64 = 1000;

const MOST_UNDER_WAY: u64 = 8;

const MOST_WAITING: u64 = 16;

// A packet, with the number of an update, or up to which the receiver has them in memory or on disk.
#[derive(Clone, Copy, Drop)]
enum Sent {
    Hello { number: u64, stored: u64 },
    Update(u64),
    InMemory(u64),
    OnDisk(u64),
}

// The two ends of a link of one session and all packets, with the script so far and the replies that the rules give to it.
#[derive(Drop)]
struct Pair {
    alloc: Global,
    // At the sender: the writes, and how many of them were sent, are acknowledged from memory and from disk.
    written: u64,
    sent: u64,
    net: u64,
    stored: u64,
    // At the receiver: the updates taken, and how many of them wait in memory.
    received: u64,
    waiting: u64,
    packets: Vec<Sent>,
    // The first packet that was neither lost nor delivered.
    next: u64,
    script: Vec<u8>,
    wanted: Vec<u8>,
}

impl Pair {
    fn new(alloc: Global) -> Result<Pair, OutOfMemory> {
        let mut packets = Vec::new(alloc);
        packets.push(Sent::Hello {
            number: 0,
            stored: 0,
        })?;
        Ok(Pair {
            alloc,
            written: 0,
            sent: 0,
            net: 0,
            stored: 0,
            received: 0,
            waiting: 0,
            packets,
            next: 1,
            script: MADE.to_vec(alloc)?,
            wanted: WAS_MADE.to_vec(alloc)?,
        })
    }

    fn count(&self) -> u64 {
        self.packets.len() as u64
    }

    fn asks(&mut self, line: &str) -> Result<(), OutOfMemory> {
        push(&mut self.script, line)
    }

    // The reply to a line before which there were so many packets.
    fn answers(&mut self, said: &str, before: u64) -> Result<(), OutOfMemory> {
        push(&mut self.wanted, said)?;
        let count = self.count();
        if before < count {
            let sent = format!(in self.alloc; " sent {} {count}", before.wrapping_add(1))?;
            push(&mut self.wanted, &sent)?;
        }
        push(&mut self.wanted, "\n")
    }

    // What the sender does at a pump.
    fn send(&mut self) -> Result<(), OutOfMemory> {
        let low = self.sent.max(self.stored);
        let high = self.written.min(self.net.saturating_add(MOST_UNDER_WAY));
        for number in low..high {
            self.packets.push(Sent::Update(number.wrapping_add(1)))?;
        }
        self.sent = low.max(high);
        Ok(())
    }

    // The receiver takes the update that is next, and acknowledges it and those that it has.
    fn receive(&mut self, number: u64) -> Result<bool, OutOfMemory> {
        let is_next = number == self.received.wrapping_add(1) && self.waiting < MOST_WAITING;
        if is_next {
            self.received = number;
            self.waiting = self.waiting.wrapping_add(1);
        }
        if number <= self.received {
            self.packets.push(Sent::InMemory(self.received))?;
        }
        Ok(is_next)
    }

    // The sender hears up to which update the receiver has them, in memory and on disk.
    fn hear(&mut self, number: u64, stored: u64) -> bool {
        let is_news = self.net < number || self.stored < stored;
        self.stored = self.stored.max(stored);
        self.net = self.net.max(number).max(stored);
        is_news
    }

    // Whether a packet changed what its target has.
    fn take(&mut self, packet: Sent) -> Result<bool, OutOfMemory> {
        match packet {
            Sent::Hello { number, stored } => {
                self.hear(number, stored);
                Ok(true)
            }
            Sent::Update(number) => self.receive(number),
            Sent::InMemory(number) => Ok(self.hear(number, 0)),
            Sent::OnDisk(number) => Ok(self.hear(0, number)),
        }
    }

    // All that waits is applied, and acknowledged from disk.
    fn store(&mut self) -> Result<(), OutOfMemory> {
        if self.waiting > 0 {
            self.waiting = 0;
            self.packets.push(Sent::OnDisk(self.received))?;
        }
        Ok(())
    }

    // Write number n fills one block of the first 64, 37 behind the block of the write before it, with the byte n.
    fn write(&mut self) -> Result<(), OutOfMemory> {
        let number = self.written.wrapping_add(1);
        let line = format!(in self.alloc;
            "write a d1 {} 1 {:02x}\n",
            number.wrapping_mul(37) % 64,
            number % 256
        )?;
        self.asks(&line)?;
        self.written = number;
        let said = format!(in self.alloc; "done {number}")?;
        let before = self.count();
        self.answers(&said, before)
    }

    // What the receiver may lack is sent, or sent again.
    fn pump(&mut self) -> Result<(), OutOfMemory> {
        self.asks("tick a b\npump a b\n")?;
        let before = self.count();
        self.sent = self.net;
        self.answers("done", before)?;
        self.send()?;
        self.answers("done", before)
    }

    fn apply(&mut self) -> Result<(), OutOfMemory> {
        self.asks("apply b 16\n")?;
        let before = self.count();
        self.store()?;
        let said = format!(in self.alloc; "done {}", self.received)?;
        self.answers(&said, before)
    }

    fn deliver(&mut self, number: u64) -> Result<(), OutOfMemory> {
        let line = format!(in self.alloc; "deliver {number}\n")?;
        self.asks(&line)?;
        let before = self.count();
        let is_taken = self.take_at(number)?;
        self.answers(if is_taken { "taken" } else { "ignored" }, before)
    }

    fn take_at(&mut self, number: u64) -> Result<bool, OutOfMemory> {
        let place = number.wrapping_sub(1) as usize;
        if place < self.packets.len() {
            let packet = self.packets[place];
            return self.take(packet);
        }
        Ok(false)
    }

    // Of the packets that were sent by now each third is lost, and of the others each fifth comes twice.
    fn bring(&mut self) -> Result<(), OutOfMemory> {
        let end = self.count().wrapping_add(1);
        for number in self.next..end {
            if number % 3 != 0 {
                self.deliver(number)?;
            }
            if number % 3 != 0 && number % 5 == 0 {
                self.deliver(number)?;
            }
        }
        self.next = end;
        Ok(())
    }

    // Two writes, what is sent then, and what is sent at that. What waits is applied in each second turn.
    fn turn(&mut self, turn: u64) -> Result<(), OutOfMemory> {
        if self.written < WRITES {
            self.write()?;
            self.write()?;
        }
        self.pump()?;
        self.bring()?;
        self.bring()?;
        if turn % 2 == 1 {
            self.apply()?;
            self.bring()?;
        }
        Ok(())
    }

    // All packets from this one on come, and those that are sent at that, each once.
    fn bring_whole(&mut self, first: u64) -> Result<(), OutOfMemory> {
        let middle = self.count().wrapping_add(1);
        for number in first..middle {
            self.take_at(number)?;
        }
        let end = self.count().wrapping_add(1);
        for number in middle..end {
            self.take_at(number)?;
        }
        Ok(())
    }

    // The receiver greets; then turns follow in which nothing is lost, until all is stored.
    fn settle(&mut self) -> Result<(), OutOfMemory> {
        self.asks("settle a b\n")?;
        let before = self.count();
        let number = self.received;
        let stored = self.received.wrapping_sub(self.waiting);
        self.packets.push(Sent::Hello { number, stored })?;
        self.bring_whole(before.wrapping_add(1))?;
        for _turn in 0..WRITES {
            if self.stored < self.written {
                let first = self.count().wrapping_add(1);
                self.sent = self.net;
                self.send()?;
                self.bring_whole(first)?;
                let first = self.count().wrapping_add(1);
                self.store()?;
                self.bring_whole(first)?;
            }
        }
        let said = format!(in self.alloc; "settled {}", self.written)?;
        self.answers(&said, before)
    }

    // Both sites have all writes, and each block as the last write to it left it.
    fn show(&mut self) -> Result<(), OutOfMemory> {
        self.asks("status a\nstatus b\n")?;
        push(
            &mut self.wanted,
            "site a up\nrvg primary 1 a head 1000 mark consistent session 1\nlink b attached connected running log net 1000 stored 1000\nsite b up\nrvg secondary 1 a head 1000 mark consistent session 1\n",
        )?;
        for word in ["read a", "show b"] {
            for start in [0, 16, 32, 48] {
                let line = format!(in self.alloc; "{word} d1 {start} 16\n")?;
                self.asks(&line)?;
            }
            push_blocks(self.alloc, &mut self.wanted)?;
        }
        Ok(())
    }
}

fn push(out: &mut Vec<u8>, text: &str) -> Result<(), OutOfMemory> {
    out.extend_from_slice(text.as_bytes())?;
    Ok(())
}

// The first 64 blocks as the last write to each of them left them.
fn push_blocks(alloc: Global, out: &mut Vec<u8>) -> Result<(), OutOfMemory> {
    let mut bytes = [0_u64; 64];
    for number in 1..WRITES + 1 {
        bytes[(number.wrapping_mul(37) % 64) as usize] = number % 256;
    }
    for byte in bytes {
        let line = format!(in alloc; "{byte:02x}\n")?;
        push(out, &line)?;
    }
    Ok(())
}

// A thousand writes, where packets are lost and come twice from the first write to behind the last. When the receiver lacks no more than may be
// under way at once, the link is settled, and both volumes have what was written. Each reply on the way is what the rules give.
#[test]
fn a_thousand_writes_are_settled(rt: HostRuntime) -> Result<(), Fail> {
    let alloc = rt.alloc();
    let mut pair = Pair::new(alloc)?;
    for turn in 0..4 * WRITES {
        if pair.received.wrapping_add(MOST_UNDER_WAY) < WRITES {
            pair.turn(turn)?;
        }
    }
    assert!(rt; pair.written == WRITES);
    assert!(rt; pair.received.wrapping_add(MOST_UNDER_WAY) >= WRITES);
    pair.settle()?;
    pair.show()?;
    let mut source = MemSource::new(alloc, &pair.script, &[])?;
    let mut sink = MemSink::new(alloc, 1 << 20, &[])?;
    let status = run_over(&rt, alloc, "run", &[], &mut source, &mut sink)?;
    assert!(rt; status == Status::Done);
    assert!(rt; sink.written() == pair.wanted.as_slice());
    Ok(())
}
