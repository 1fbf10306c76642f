// The lines of a script.
use crate::Names;
use vx_model::{Block, Name, Prot, SyncMode};

/// What calls on a disk do from now on.
#[derive(Clone, Copy)]
pub enum DiskState {
    Fail,
    Work,
}

/// How a volume's blocks lie on its columns.
#[derive(Clone, Copy)]
pub enum Layout {
    Concat,
    /// In units of `width` blocks, over `columns` columns.
    Stripe { columns: u64, width: u64 },
}

/// Whether a volume has a dirty region log.
#[derive(Clone, Copy)]
pub enum VolumeLog {
    NoLog,
    Drl,
}

/// Whether a volume keeps maps of what its detached plexes miss.
#[derive(Clone, Copy)]
pub enum VolumeMap {
    NoMap,
    Fmr,
}

/// Which plex a volume is read from.
#[derive(Clone, Copy)]
pub enum ReadPolicy {
    /// Each in turn.
    Round,
    Prefer { plex: u64 },
}

/// A line of the script. Blocks are 512 bytes.
#[derive(Drop)]
pub enum ScriptLine {
    Site {
        site: Name,
        disks: u64,
        blocks: u64,
    },
    Raw {
        site: Name,
    },
    Disk {
        site: Name,
        disk: u64,
        state: DiskState,
    },
    Crash {
        site: Name,
        pick: u64,
    },
    Fuse {
        site: Name,
        writes: u64,
        pick: u64,
    },
    Recover {
        site: Name,
    },
    GroupInit {
        site: Name,
    },
    GroupDeport {
        site: Name,
    },
    GroupImport {
        site: Name,
    },
    Volume {
        site: Name,
        volume: Name,
        blocks: u64,
        mirrors: u64,
        layout: Layout,
        log: VolumeLog,
        map: VolumeMap,
        policy: ReadPolicy,
    },
    PlexDetach {
        site: Name,
        volume: Name,
        plex: u64,
    },
    PlexAttach {
        site: Name,
        volume: Name,
        plex: u64,
    },
    Rvg {
        site: Name,
        srl: Name,
        dcm: Name,
        volumes: Names,
    },
    Write {
        site: Name,
        volume: Name,
        block: u64,
        count: u64,
        fill: u8,
    },
    /// One block is written.
    Put {
        site: Name,
        volume: Name,
        block: u64,
        bytes: Block,
    },
    Read {
        site: Name,
        volume: Name,
        block: u64,
        count: u64,
    },
    Show {
        site: Name,
        volume: Name,
        block: u64,
        count: u64,
    },
    Apply {
        site: Name,
        count: u64,
    },
    Wait {
        site: Name,
        number: u64,
    },
    Link {
        primary: Name,
        secondary: Name,
        sync: SyncMode,
        prot: Prot,
    },
    Set {
        primary: Name,
        secondary: Name,
        sync: SyncMode,
        prot: Prot,
    },
    Attach {
        primary: Name,
        secondary: Name,
    },
    Detach {
        primary: Name,
        secondary: Name,
    },
    Pause {
        primary: Name,
        secondary: Name,
    },
    Resume {
        primary: Name,
        secondary: Name,
    },
    Connect {
        primary: Name,
        secondary: Name,
    },
    Cut {
        primary: Name,
        secondary: Name,
    },
    Pump {
        primary: Name,
        secondary: Name,
    },
    Tick {
        primary: Name,
        secondary: Name,
    },
    Deliver {
        packet: u64,
    },
    Settle {
        primary: Name,
        secondary: Name,
    },
    Resync {
        primary: Name,
        secondary: Name,
    },
    Migrate {
        primary: Name,
        secondary: Name,
    },
    Takeover {
        site: Name,
    },
    Failback {
        new: Name,
        old: Name,
    },
    Bunker {
        primary: Name,
        bunker: Name,
        sync: SyncMode,
        prot: Prot,
    },
    Activate {
        bunker: Name,
        secondary: Name,
    },
    Burst {
        site: Name,
        threads: u64,
    },
    Status {
        site: Name,
    },
    /// A call of a burst: every byte becomes `fill`.
    CallWrite {
        thread: u64,
        volume: Name,
        block: u64,
        count: u64,
        fill: u8,
    },
    /// A call of a burst, of one block.
    CallRead {
        thread: u64,
        volume: Name,
        block: u64,
    },
    /// The end of a burst.
    End,
}
