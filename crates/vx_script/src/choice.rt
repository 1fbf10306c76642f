// The words that stand at a place which takes one of a few.
ghost use Rattle.vx_script.specs.Choices.{disk_state_text, group_text, plex_text, layout_text, log_text, map_text, sync_text, prot_text, call_text};

use crate::line::{DiskState, VolumeLog, VolumeMap};
use crate::word::Word;
use vx_model::{Prot, SyncMode};

/// What is done to a group.
#[derive(Clone, Copy)]
pub enum GroupVerb {
    Init,
    Deport,
    Import,
}

/// What is done to a plex.
#[derive(Clone, Copy)]
pub enum PlexVerb {
    Detach,
    Attach,
}

/// The first word of a layout.
#[derive(Clone, Copy)]
pub enum LayoutWord {
    IsConcat,
    IsStripe,
}

/// What a call of a burst does.
#[derive(Clone, Copy)]
pub enum CallVerb {
    CallsWrite,
    CallsRead,
}

pub const DISK_STATES: [DiskState; 2] = [DiskState::Fail, DiskState::Work];

pub const GROUP_VERBS: [GroupVerb; 3] = [GroupVerb::Init, GroupVerb::Deport, GroupVerb::Import];

pub const PLEX_VERBS: [PlexVerb; 2] = [PlexVerb::Detach, PlexVerb::Attach];

pub const LAYOUT_WORDS: [LayoutWord; 2] = [LayoutWord::IsConcat, LayoutWord::IsStripe];

pub const VOLUME_LOGS: [VolumeLog; 2] = [VolumeLog::NoLog, VolumeLog::Drl];

pub const VOLUME_MAPS: [VolumeMap; 2] = [VolumeMap::NoMap, VolumeMap::Fmr];

pub const SYNC_MODES: [SyncMode; 3] = [SyncMode::Off, SyncMode::Override, SyncMode::Fail];

pub const PROTS: [Prot; 5] = [
    Prot::Off,
    Prot::Override,
    Prot::Fail,
    Prot::Dcm,
    Prot::Autodcm,
];

pub const CALL_VERBS: [CallVerb; 2] = [CallVerb::CallsWrite, CallVerb::CallsRead];

impl Word for DiskState {
    ghost word_text = { disk_state_text };

    fn text(self) -> &'static [u8] {
        match self {
            DiskState::Fail => b"fail",
            DiskState::Work => b"ok",
        }
    }
}

impl Word for GroupVerb {
    ghost word_text = { group_text };

    fn text(self) -> &'static [u8] {
        match self {
            GroupVerb::Init => b"init",
            GroupVerb::Deport => b"deport",
            GroupVerb::Import => b"import",
        }
    }
}

impl Word for PlexVerb {
    ghost word_text = { plex_text };

    fn text(self) -> &'static [u8] {
        match self {
            PlexVerb::Detach => b"det",
            PlexVerb::Attach => b"att",
        }
    }
}

impl Word for LayoutWord {
    ghost word_text = { layout_text };

    fn text(self) -> &'static [u8] {
        match self {
            LayoutWord::IsConcat => b"layout=concat",
            LayoutWord::IsStripe => b"layout=stripe",
        }
    }
}

impl Word for VolumeLog {
    ghost word_text = { log_text };

    fn text(self) -> &'static [u8] {
        match self {
            VolumeLog::NoLog => b"log=none",
            VolumeLog::Drl => b"log=drl",
        }
    }
}

impl Word for VolumeMap {
    ghost word_text = { map_text };

    fn text(self) -> &'static [u8] {
        match self {
            VolumeMap::NoMap => b"fmr=off",
            VolumeMap::Fmr => b"fmr=on",
        }
    }
}

impl Word for SyncMode {
    ghost word_text = { sync_text };

    fn text(self) -> &'static [u8] {
        match self {
            SyncMode::Off => b"synchronous=off",
            SyncMode::Override => b"synchronous=override",
            SyncMode::Fail => b"synchronous=fail",
        }
    }
}

impl Word for Prot {
    ghost word_text = { prot_text };

    fn text(self) -> &'static [u8] {
        match self {
            Prot::Off => b"srlprot=off",
            Prot::Override => b"srlprot=override",
            Prot::Fail => b"srlprot=fail",
            Prot::Dcm => b"srlprot=dcm",
            Prot::Autodcm => b"srlprot=autodcm",
        }
    }
}

impl Word for CallVerb {
    ghost word_text = { call_text };

    fn text(self) -> &'static [u8] {
        match self {
            CallVerb::CallsWrite => b"write",
            CallVerb::CallsRead => b"read",
        }
    }
}
