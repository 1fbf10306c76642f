// The first words of lines.
ghost use Rattle.std.specs.Prelude.{◌≡◌};
ghost use Rattle.vx_script.specs.Keywords.{pair_text, keyword_text, keyword_of};

use crate::word::{Word, find_word};

/// The lines of one site.
#[derive(Clone, Copy)]
pub enum SiteVerb {
    Raw,
    Recover,
    Takeover,
    Status,
}

/// The lines of a site and a number.
#[derive(Clone, Copy)]
pub enum NumberVerb {
    Crash,
    Apply,
    Wait,
    Burst,
}

/// The lines of a run of blocks.
#[derive(Clone, Copy)]
pub enum SpanVerb {
    Read,
    Show,
}

/// The lines that set a link's modes.
#[derive(Clone, Copy)]
pub enum LinkVerb {
    Link,
    Set,
    Bunker,
}

/// The lines of two sites.
#[derive(Clone, Copy)]
pub enum PairVerb {
    Attach,
    Detach,
    Pause,
    Resume,
    Connect,
    Cut,
    Pump,
    Tick,
    Settle,
    Resync,
    Migrate,
    Failback,
    Activate,
}

/// The first word of a line.
#[derive(Clone, Copy)]
pub enum Keyword {
    Site,
    Disk,
    Fuse,
    Group,
    Volume,
    Plex,
    Rvg,
    Write,
    Put,
    Deliver,
    Call,
    End,
    OfSite(SiteVerb),
    OfNumber(NumberVerb),
    OfSpan(SpanVerb),
    OfLink(LinkVerb),
    OfPair(PairVerb),
}

pub const KEYWORDS: [Keyword; 38] = [
    Keyword::Site,
    Keyword::Disk,
    Keyword::Fuse,
    Keyword::Group,
    Keyword::Volume,
    Keyword::Plex,
    Keyword::Rvg,
    Keyword::Write,
    Keyword::Put,
    Keyword::Deliver,
    Keyword::Call,
    Keyword::End,
    Keyword::OfSite(SiteVerb::Raw),
    Keyword::OfSite(SiteVerb::Recover),
    Keyword::OfSite(SiteVerb::Takeover),
    Keyword::OfSite(SiteVerb::Status),
    Keyword::OfNumber(NumberVerb::Crash),
    Keyword::OfNumber(NumberVerb::Apply),
    Keyword::OfNumber(NumberVerb::Wait),
    Keyword::OfNumber(NumberVerb::Burst),
    Keyword::OfSpan(SpanVerb::Read),
    Keyword::OfSpan(SpanVerb::Show),
    Keyword::OfLink(LinkVerb::Link),
    Keyword::OfLink(LinkVerb::Set),
    Keyword::OfLink(LinkVerb::Bunker),
    Keyword::OfPair(PairVerb::Attach),
    Keyword::OfPair(PairVerb::Detach),
    Keyword::OfPair(PairVerb::Pause),
    Keyword::OfPair(PairVerb::Resume),
    Keyword::OfPair(PairVerb::Connect),
    Keyword::OfPair(PairVerb::Cut),
    Keyword::OfPair(PairVerb::Pump),
    Keyword::OfPair(PairVerb::Tick),
    Keyword::OfPair(PairVerb::Settle),
    Keyword::OfPair(PairVerb::Resync),
    Keyword::OfPair(PairVerb::Migrate),
    Keyword::OfPair(PairVerb::Failback),
    Keyword::OfPair(PairVerb::Activate),
];

impl PairVerb {
    fn text(self) -> &'static [u8]
        ensures { result.now ≡ pair_text self }
    {
        match self {
            PairVerb::Attach => b"attach",
            PairVerb::Detach => b"detach",
            PairVerb::Pause => b"pause",
            PairVerb::Resume => b"resume",
            PairVerb::Connect => b"connect",
            PairVerb::Cut => b"cut",
            PairVerb::Pump => b"pump",
            PairVerb::Tick => b"tick",
            PairVerb::Settle => b"settle",
            PairVerb::Resync => b"resync",
            PairVerb::Migrate => b"migrate",
            PairVerb::Failback => b"failback",
            PairVerb::Activate => b"activate",
        }
    }
}

impl Word for Keyword {
    ghost word_text = { keyword_text };

    fn text(self) -> &'static [u8] {
        match self {
            Keyword::Site => b"site",
            Keyword::Disk => b"disk",
            Keyword::Fuse => b"fuse",
            Keyword::Group => b"dg",
            Keyword::Volume => b"vol",
            Keyword::Plex => b"plex",
            Keyword::Rvg => b"rvg",
            Keyword::Write => b"write",
            Keyword::Put => b"put",
            Keyword::Deliver => b"deliver",
            Keyword::Call => b"t",
            Keyword::End => b"end",
            Keyword::OfSite(SiteVerb::Raw) => b"raw",
            Keyword::OfSite(SiteVerb::Recover) => b"recover",
            Keyword::OfSite(SiteVerb::Takeover) => b"takeover",
            Keyword::OfSite(SiteVerb::Status) => b"status",
            Keyword::OfNumber(NumberVerb::Crash) => b"crash",
            Keyword::OfNumber(NumberVerb::Apply) => b"apply",
            Keyword::OfNumber(NumberVerb::Wait) => b"wait",
            Keyword::OfNumber(NumberVerb::Burst) => b"burst",
            Keyword::OfSpan(SpanVerb::Read) => b"read",
            Keyword::OfSpan(SpanVerb::Show) => b"show",
            Keyword::OfLink(LinkVerb::Link) => b"link",
            Keyword::OfLink(LinkVerb::Set) => b"set",
            Keyword::OfLink(LinkVerb::Bunker) => b"bunker",
            Keyword::OfPair(verb) => verb.text(),
        }
    }
}

/// The keyword that a word is.
#[tactic(auto, unfolding(crate::specs::Keywords::keyword_of))]
pub fn as_keyword(word: &[u8]) -> Option<Keyword>
    ensures { result ≡ keyword_of word.now }
{
    find_word(&KEYWORDS, word)
}
