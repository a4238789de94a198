//! The octets under a name, read in as many pieces as they come in.

ghost use Rattle.std.specs.Prelude.{◌≡◌, ◌<◌, ◌≤◌, IfSome, MatchResult, OnOk, length, take, true, vec_len};
ghost use Rattle.grib_io.specs.Shelves.{Stays, Tells};
ghost use Rattle.grib_io.specs.Reading as specs;
ghost use Rattle.grib_io.specs.Reading.{CountsRead, FitsIn, IsFirst, MoreRead, StopsAt, stop_of_shelf};
ghost use Rattle.grib_io.specs.declared.reading.ReadStop.TheVariants.{Memory};

use crate::outside::{Shelf, ShelfStop};
use std::alloc::{AllocError, Global};

/// The octets for which there is room at first.
const ROOM: usize = 65_536;

/// Why the octets under a name are not read.
#[derive(Clone, Copy, Debug, PartialEq, Eq)]
pub enum ReadStop {
    /// The name is absent, which is no fault.
    Absent,
    /// The shelf failed.
    Failed,
    /// There is no memory.
    Memory,
}

impl From<AllocError> for ReadStop {
    ghost from_gives = { λ _ stop. stop ≡ Memory };

    fn from(_error: AllocError) -> ReadStop {
        ReadStop::Memory
    }
}

impl From<ShelfStop> for ReadStop {
    ghost from_gives = { λ shelf stop. stop ≡ stop_of_shelf shelf };

    fn from(stop: ShelfStop) -> ReadStop {
        match stop {
            ShelfStop::Absent => ReadStop::Absent,
            ShelfStop::Failed => ReadStop::Failed,
        }
    }
}

/// Reads the octets that stand on the shelf under this name: all of them, or the first ones, no more than `most`.
/// Room is made as they come, for no more than `most` and twice as many as came. The shelf keeps what it holds.
///
/// # Errors
///
/// The name is absent, the shelf failed, or there is no memory.
pub fn octets_under<H: Shelf>(
    alloc: Global,
    name: &str,
    most: Option<usize>,
    shelf: &mut H,
) -> Result<Vec<u8>, ReadStop>
    requires some { IfSome most (λ count. 0 < count) }
    ensures read { MatchResult result
        (λ octets. Tells (H.contents shelf.old) name.now (IsFirst most octets.items))
        (λ stop. Tells (H.contents shelf.old) name.now (StopsAt stop)) }
    ensures kept { Stays (H.contents shelf.old) (H.contents shelf.new) }
    ensures counted { CountsRead result (H.faults shelf.old) (H.faults shelf.new) }
{
    let mut octets = vec![in alloc; 0u8; room_for(most, ROOM)]?;
    let mut filled = 0;
    while asks_on(most, filled) {
        match read_on(name, &mut octets, most, filled, shelf) {
            Ok(0) => {
                octets.truncate(filled);
                return Ok(octets);
            }
            Ok(count) => filled += count,
            Err(stop) => return Err(stop),
        }
    }
    Ok(octets)
}

/// Whether more than this many octets are asked for.
fn asks_on(most: Option<usize>, filled: usize) -> bool
    ensures { result ≡ specs.asks_on most filled }
{
    match most {
        Some(most) => filled < most,
        None => true,
    }
}

/// This much room, but no more than for what is asked for.
fn room_for(most: Option<usize>, size: usize) -> usize
    ensures { result ≡ specs.room_for most size }
{
    match most {
        Some(most) => most.min(size),
        None => size,
    }
}

/// Reads octets under this name after the first `filled`, after as many of `octets`, in which room is made where
/// there is none.
fn read_on<H: Shelf>(
    name: &str,
    octets: &mut Vec<u8>,
    most: Option<usize>,
    filled: usize,
    shelf: &mut H,
) -> Result<usize, ReadStop>
    requires within { filled ≤ vec_len octets.old }
    requires some { 0 < vec_len octets.old }
    requires asked { specs.asks_on most filled ≡ true }
    requires fits { FitsIn most (vec_len octets.old) }
    ensures some { 0 < vec_len octets.new }
    ensures fits { FitsIn most (vec_len octets.new) }
    ensures read { MatchResult result
        (MoreRead (H.contents shelf.old) name.now filled octets.old.items octets.new.items)
        (λ stop. Tells (H.contents shelf.old) name.now (StopsAt stop)) }
    ensures kept { Stays (H.contents shelf.old) (H.contents shelf.new) }
    ensures counted { CountsRead result (H.faults shelf.old) (H.faults shelf.new) }
{
    if filled == octets.len() {
        enlarge(octets, most)?;
    }
    read_more(name, octets.as_mut_slice(), filled, shelf)
}

/// Doubles the room, as far as octets are asked for.
fn enlarge(octets: &mut Vec<u8>, most: Option<usize>) -> Result<(), AllocError>
    requires some { 0 < vec_len octets.old }
    requires asked { specs.asks_on most (vec_len octets.old) ≡ true }
    ensures front { OnOk result (take (vec_len octets.old) octets.new.items ≡ octets.old.items) }
    ensures room { OnOk result (vec_len octets.old < vec_len octets.new) }
    ensures fits { FitsIn most (vec_len octets.new) }
    ensures stays { vec_len octets.old ≤ vec_len octets.new }
{
    let size = room_for(most, octets.len().saturating_mul(2));
    octets.resize(size, 0)
}

/// Reads octets under this name after the first `filled`, into the room after as many of `octets`.
fn read_more<H: Shelf>(
    name: &str,
    octets: &mut [u8],
    filled: usize,
    shelf: &mut H,
) -> Result<usize, ReadStop>
    requires { filled < length octets.old }
    ensures room { length octets.new ≡ length octets.old }
    ensures read { MatchResult result
        (MoreRead (H.contents shelf.old) name.now filled octets.old octets.new)
        (λ stop. Tells (H.contents shelf.old) name.now (StopsAt stop)) }
    ensures kept { Stays (H.contents shelf.old) (H.contents shelf.new) }
    ensures counted { CountsRead result (H.faults shelf.old) (H.faults shelf.new) }
{
    match shelf.read_at(name, filled as u64, &mut octets[filled..]) {
        Ok(count) => Ok(count),
        Err(stop) => Err(ReadStop::from(stop)),
    }
}
