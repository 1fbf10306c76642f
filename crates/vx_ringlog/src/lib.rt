//! The laws of a ring log: what a crash leaves of it at each moment of each call and of a start, and over whole runs.
//!
//! A log's unit is a header in each of its blocks 0 and 1, and behind them a ring of blocks in which records follow one
//! another. A block is what `vx_srlfmt` says that it is, and nothing else is known of it here. Nothing runs in this
//! crate: its functions carry the laws as their contracts.
#![tactic(auto)]

ghost use Rattle.vx_ringlog.specs.Records.{GivenComesBack, BlocksStand, WriteComesBack};
ghost use Rattle.vx_ringlog.specs.Chain.{LogIsUnique};
ghost use Rattle.vx_ringlog.specs.Logs.{CallIsSafe};
ghost use Rattle.vx_ringlog.specs.Starting.{StartIsSafe, StartIsStill};
ghost use Rattle.vx_ringlog.specs.Runs.{RunIsSafe, MadeIsSafe, NonePassedOver, RestIsStill, NothingLoose};

/// A record that keeps given blocks of 512 bytes has their bytes, one block after another. On disk they are as many
/// whole blocks, each of which begins with the byte of a body block. So a write of whole blocks comes back from the
/// record that logs it.
pub fn blocks_come_back()
    ensures given { GivenComesBack }
    ensures on_disk { BlocksStand }
    ensures write { WriteComesBack }
{}

/// An image has one log: the header of the greater stamp, and the records of the scan from it.
pub fn image_has_one_log()
    ensures { LogIsUnique }
{}

/// At each moment of a call a crash leaves the log as it was, with a first part of what is staged, or the log that the
/// call makes, and behind the call that log stands. No record that a start passed over is taken later. Every call but
/// a stage leaves nothing loose, and a log in which nothing is staged is what a start finds.
pub fn calls_are_safe()
    ensures calls { CallIsSafe }
    ensures passed { NonePassedOver }
    ensures rest { RestIsStill }
    ensures nothing_loose { NothingLoose }
{}

/// A new log has no record, and its first one has the number behind that with which it was made. A start writes both
/// headers; at each moment of it a crash leaves the records that it found, and behind it they are held and
/// nothing is loose.
pub fn starts_are_safe()
    ensures made { MadeIsSafe }
    ensures starts { StartIsSafe }
    ensures still { StartIsStill }
{}

/// Over calls, crashes at any moment and starts, in any order, the log has what was sealed since it was last emptied,
/// but for what was reclaimed, and of what was staged when a crash came a first part.
pub fn runs_are_safe()
    ensures runs { RunIsSafe }
{}
