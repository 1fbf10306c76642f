// What the replies to the lines of two writes keep to, whatever crashes a site between two lines or within one.
use crate::row::{BYTES, Site, Step};

// How far the link is made.
#[derive(Clone, Copy, PartialEq, Eq, Drop)]
enum Made {
    Not,
    InPart,
    Whole,
}

/// The replies that are left, and what those before them say.
#[derive(Drop)]
pub struct Replies<'a> {
    rest: &'a str,
    // How many packets were sent, and how many before the last reply.
    sent: u64,
    before: u64,
    made: Made,
    live: bool,
    // The site with a fuse, and whether that crashed it.
    fuse: Option<Site>,
    pub is_down: bool,
    // The writes that were answered as done, the one that a fuse cut, and how many the receiver said to have on disk.
    kept: [bool; 3],
    cut: Option<usize>,
    stored: u64,
}

// The number behind these words.
fn number_behind(reply: &str, words: &str) -> Option<u64> {
    number(reply.strip_prefix(words)?)
}

fn number(digits: &str) -> Option<u64> {
    match digits.parse() {
        Ok(number) => Some(number),
        Err(_) => None,
    }
}

impl<'a> Replies<'a> {
    /// The replies to a script in which this site has a fuse.
    pub fn new(text: &'a str, fuse: Option<Site>) -> Replies<'a> {
        Replies {
            rest: text,
            sent: 0,
            before: 0,
            made: Made::Not,
            live: false,
            fuse,
            is_down: false,
            kept: [false; 3],
            cut: None,
            stored: 0,
        }
    }

    // The next line, without its packets: these have the numbers behind those that were sent before.
    fn next(&mut self) -> Option<&'a str> {
        let (line, rest) = self.rest.split_once("\n")?;
        self.rest = rest;
        self.before = self.sent;
        let Some((reply, packets)) = line.split_once(" sent ") else {
            return Some(line);
        };
        let (first, last) = packets.split_once(" ")?;
        let last = number(last)?;
        if number(first)? != self.sent.wrapping_add(1) || last <= self.sent {
            return None;
        }
        self.sent = last;
        Some(reply)
    }

    /// Whether the next reply is this one.
    pub fn is_next(&mut self, wanted: &str) -> bool {
        match self.next() {
            Some(reply) => reply == wanted,
            None => false,
        }
    }

    fn is_next_of(&mut self, words: &str, wanted: u64) -> bool {
        match self.next() {
            Some(reply) => number_behind(reply, words) == Some(wanted),
            None => false,
        }
    }

    // How many writes stand.
    fn writes(&self) -> u64 {
        let mut count = 0_u64;
        for is_kept in self.kept {
            if is_kept {
                count = count.wrapping_add(1);
            }
        }
        count
    }

    fn keep(&mut self, write: usize) {
        if write < 3 {
            self.kept[write] = true;
        }
    }

    /// Whether the next reply may come to this line.
    pub fn may_come(&mut self, step: Step) -> bool {
        let Some(reply) = self.next() else {
            return false;
        };
        if reply == "no 6 down" {
            return self.falls(step);
        }
        if self.is_refused(step) {
            return false;
        }
        match step {
            Step::Link => self.links(reply),
            Step::Connect => self.connects(reply),
            Step::Cut => self.cuts(reply),
            Step::Write(write) => self.writes_next(write, reply),
            Step::Wait(write) => self.waits(write, reply),
            Step::Pump => self.pumps(reply),
            Step::Deliver(packet) => self.delivers(packet, reply),
            Step::Apply => self.applies(reply),
            Step::Settle => self.settles(reply),
        }
    }

    // Whether the site that the fuse crashed is needed.
    fn is_refused(&self, step: Step) -> bool {
        match self.fuse {
            Some(site) => self.is_down && step.needs(site),
            None => false,
        }
    }

    // A line that writes to the disks of the site is cut by its fuse, once.
    fn falls(&mut self, step: Step) -> bool {
        let Some(site) = self.fuse else {
            return false;
        };
        if self.is_down {
            return step.needs(site);
        }
        self.is_down = true;
        if site == Site::Sender {
            self.live = false;
        }
        if let Step::Write(write) = step {
            self.cut = Some(write);
        }
        if let Step::Link = step {
            self.made = Made::InPart;
        }
        step.writes_to(site)
    }

    fn links(&mut self, reply: &str) -> bool {
        self.made = Made::Whole;
        reply == "done"
    }

    // A receiver that is up greets. A link that was cut as it was made may be missing, and its receiver no receiver yet.
    fn connects(&mut self, reply: &str) -> bool {
        self.live = true;
        let greets = !(self.is_down && self.fuse == Some(Site::Receiver));
        match self.made {
            Made::Whole => {
                reply == "done" && self.sent == self.before.wrapping_add(u64::from(greets))
            }
            _ => reply == "done" || reply == "no 1 unknown b",
        }
    }

    fn cuts(&mut self, reply: &str) -> bool {
        self.live = false;
        match self.made {
            Made::Whole => reply == "done",
            _ => reply == "done" || reply == "no 1 unknown b",
        }
    }

    // A write is logged under the next number where the link is live, and refused elsewhere. Without a link it is done.
    fn writes_next(&mut self, write: usize, reply: &str) -> bool {
        let words = match self.made {
            Made::Whole => "logged ",
            _ => "done ",
        };
        let is_next = number_behind(reply, words) == Some(self.writes().wrapping_add(1));
        if is_next {
            self.keep(write);
        }
        let is_refused = reply == "no 14 linkdown b";
        match self.made {
            Made::Whole => if self.live { is_next } else { is_refused },
            _ => is_next || is_refused,
        }
    }

    fn waits(&mut self, write: u64, reply: &str) -> bool {
        let is_done = number_behind(reply, "done ") == Some(write);
        let is_pending = number_behind(reply, "pending ") == Some(write);
        let is_unconfirmed = number_behind(reply, "no 15 unconfirmed ") == Some(write);
        if self.writes() < write {
            return number_behind(reply, "no 1 unknown ") == Some(write);
        }
        match self.made {
            Made::Whole => if self.live {
                is_done || is_pending
            } else {
                is_unconfirmed
            },
            _ => is_done || is_unconfirmed,
        }
    }

    fn pumps(&mut self, reply: &str) -> bool {
        match self.made {
            Made::Whole => reply
                == if self.live {
                    "done"
                } else {
                    "no 14 linkdown b"
                },
            _ => { reply == "done" || reply == "no 14 linkdown b" || reply == "no 1 unknown b" }
        }
    }

    fn delivers(&mut self, packet: u64, reply: &str) -> bool {
        if self.before < packet {
            return number_behind(reply, "no 1 unknown ") == Some(packet);
        }
        reply == "taken" || reply == "ignored"
    }

    // What the receiver has on disk it has from then on.
    fn applies(&mut self, reply: &str) -> bool {
        match number_behind(reply, "done ") {
            Some(number) => self.stores(number),
            None => false,
        }
    }

    fn stores(&mut self, number: u64) -> bool {
        let may = self.stored <= number && number <= self.writes();
        self.stored = number;
        may
    }

    // A link that a fuse cut as it was made is whole, goes by nothing, or is missing.
    fn settles(&mut self, reply: &str) -> bool {
        let is_settled = number_behind(reply, "settled ") == Some(self.writes());
        if is_settled && self.live {
            self.made = Made::Whole;
            let writes = self.writes();
            return self.stores(writes);
        }
        match self.made {
            Made::Whole => !self.live && reply == "no 14 linkdown b",
            _ => reply == "no 5 role" || reply == "no 1 unknown b",
        }
    }

    /// Whether a site crashed, and came up as it has to.
    pub fn crashes(&mut self, site: Site) -> bool {
        self.is_next("done") && self.recovers(site)
    }

    /// Whether a site came up as it has to, with all that was done before its crash, and the write that the fuse cut or not.
    pub fn recovers(&mut self, site: Site) -> bool {
        self.is_down = false;
        let Some(reply) = self.next() else {
            return false;
        };
        let Some(head) = number_behind(reply, "recovered ") else {
            return false;
        };
        match site {
            Site::Sender => self.has_writes(head) && self.sender_shows(head),
            Site::Receiver => self.stores(head) && self.receiver_shows(head),
        }
    }

    fn has_writes(&mut self, head: u64) -> bool {
        if let Some(write) = self.cut {
            if head == self.writes().wrapping_add(1) {
                self.keep(write);
            }
        }
        head == self.writes()
    }

    // The sender's status. Its link is cut.
    fn sender_shows(&mut self, head: u64) -> bool {
        self.live = false;
        let is_up = self.is_next("site a up") && self.shows_log("primary 1 a", head);
        let is_linked = self.rest.starts_with("link b attached cut running ");
        if is_linked {
            self.next();
        }
        is_up && (self.made == Made::InPart || is_linked == (self.made == Made::Whole))
    }

    fn receiver_shows(&mut self, head: u64) -> bool {
        let is_up = self.is_next("site b up");
        let is_log = match self.made {
            Made::Whole => self.shows_log("secondary 1 a", head),
            Made::Not => self.shows_log("primary 1 b", head),
            Made::InPart => self.next().is_some(),
        };
        is_up && is_log
    }

    // The line on the log of a site that crashed once.
    fn shows_log(&mut self, role: &str, head: u64) -> bool {
        let Some(line) = self.next() else {
            return false;
        };
        let Some(log) = line.strip_prefix("rvg ") else {
            return false;
        };
        let Some((of, rest)) = log.split_once(" head ") else {
            return false;
        };
        let Some((last, mark)) = rest.split_once(" mark ") else {
            return false;
        };
        of == role && number(last) == Some(head) && mark == "consistent session 2"
    }

    /// Whether the pair is whole at the end: both sites have all writes that were done and no others, and the receiver has confirmed them. Where the
    /// link was cut as it was made, the sender has them, and the receiver has none.
    pub fn ends(&mut self) -> bool {
        let are_linked = self.may_come(Step::Connect) && self.may_come(Step::Settle);
        let is_whole = self.made == Made::Whole;
        are_linked
            && self.has_blocks(true)
            && self.has_blocks(is_whole)
            && self.confirms(1)
            && self.confirms(2)
            && self.confirms(3)
            && self.rest.is_empty()
    }

    fn has_blocks(&mut self, written: bool) -> bool {
        let mut has_all = true;
        for write in 0..3_usize {
            let wanted = if written && self.kept[write] {
                BYTES[write]
            } else {
                "00"
            };
            if !self.is_next(wanted) {
                has_all = false;
            }
        }
        has_all
    }

    fn confirms(&mut self, write: u64) -> bool {
        if self.made == Made::Whole && write <= self.writes() {
            return self.is_next_of("done ", write);
        }
        self.may_come(Step::Wait(write))
    }
}
