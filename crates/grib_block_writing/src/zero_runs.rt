//! Runs of zero blocks.

ghost use Rattle.std.specs.Prelude.{◌≡◌, ◌<◌, ◌≤◌, ◌↔◌, IsTrue, All};
ghost use Rattle.grib_coding.specs.Runs.{run_room, run_number};

use grib_coding::Coding;

/// Whether the codes of a block are all 0. One that stands in a reference is 0 here.
#[inline]
pub fn is_zero_block(codes: &[u32]) -> bool
    ensures { IsTrue result ↔ All (λ code. code ≡ 0) codes.now }
{
    codes.iter().all(|&code| code == 0)
}

/// How many blocks a run can cover whose first one has this place in its interval, from 0: those up to the end of its
/// segment of 64 blocks, and of its interval.
#[inline]
pub fn room_of_run(coding: &Coding, place: u32) -> u32
    requires { place < coding.now.interval }
    ensures is { result ≡ run_room coding.now place }
    ensures some { 1 ≤ result }
    ensures most { result ≤ 64 }
{
    (u32::from(coding.interval) - place).min(64 - place % 64)
}

/// The number of a run of so many blocks: `ends` says whether it goes to the end of its room or to the last block, where
/// more than 4 blocks have a number of their own.
#[inline]
pub fn number_of_run(blocks: u32, ends: bool) -> u32
    requires { 1 ≤ blocks }
    ensures { result ≡ run_number blocks ends }
{
    if blocks <= 4 {
        blocks - 1
    } else if ends {
        4
    } else {
        blocks
    }
}
