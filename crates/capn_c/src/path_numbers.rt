//! Functions that write the numbers of a path into the caller's buffer and report the length of the path.

ghost use Rattle.std.specs.Prelude.{◌≡◌, ◌≤◌, ◌*◌, length};
ghost use Rattle.capn_c.specs.PathNumbers.{ArePlaced, TellsPath};

use capn_abi::{CapnReport, refuse, report_at};
use capn_canon::Refusal;
use capn_walk::Stopped;

/// Writes the numbers of `path` at the start of `room` if all of them fit. Otherwise leaves `room` as it was.
pub fn place_path(path: &[u32], room: &mut [u32])
    ensures { ArePlaced path.now room.old room.new }
{
    if path.len() <= room.len() {
        room[..path.len()].copy_from_slice(path);
    }
}

/// Reports `stopped`, the stop of a walk, with the length in bytes of the `path` to that stop. Writes the numbers of
/// `path` into `room` if all of them fit, and returns the status of `stopped`.
pub fn tell_path(stopped: Stopped, path: &[u32], room: &mut [u32], report: &mut CapnReport) -> u32
    requires few { length path.now ≤ 512 }
    ensures told { TellsPath result report.new stopped path.now room.old room.new }
    ensures paid { report.new.paid ≡ stopped.paid }
    ensures visits { report.new.visits ≡ stopped.visits }
{
    let mut told = report_at(0);
    let status = refuse(Refusal::Walk(stopped), &mut told);
    *report = CapnReport {
        length: 4 * path.len() as u64,
        ..told
    };
    place_path(path, room);
    status
}
