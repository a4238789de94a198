//! A shelf in memory whose calls fail by their numbers.

ghost use Rattle.std.specs.Prelude.{◌≡◌, ℕ, List, ◌++◌, [], None, Some, MatchResult, IfOk, OnErr, min, ◌-◌, length, take, drop, option_copied, unwrap_or};
ghost use Rattle.std.specs.Io.{ReadsAtMost};
ghost use Rattle.grib_io.specs.Outside.{CountsStops};
ghost use Rattle.grib_io.specs.Shelves.{AsBefore, OthersAsBefore, ReadsName, Makes, AddsPiece, CountsShelfRead};
ghost use Rattle.grib_io.specs.Memory.{next_fails, one_more, FailsWhere, ReadFailsWhere};
ghost use Rattle.grib_io.specs.ShelfInMemory.{octets_in};

use crate::calls::Calls;
use crate::outside::{Shelf, ShelfStop, Stop};
use std::alloc::{AllocError, Global};
use std::collections::BTreeMap;

type Names = BTreeMap<String, Vec<u8>>;

/// A shelf that keeps its names and their octets in memory. A call fails exactly where its number,
/// counted from 1 over all its calls, is among some. The calls after the first 2^64 - 1 have no number.
#[derive(Debug, Drop)]
pub struct MemoryShelf {
    alloc: Global,
    names: Names,
    calls: Calls,
}

/// Gives the name these octets. Without memory for the name all stays.
fn put_octets(
    names: &mut Names,
    alloc: Global,
    name: &str,
    octets: Vec<u8>,
) -> Result<(), AllocError>
    ensures name { MatchResult result (λ _. octets_in names.new name.now ≡ Some octets.items)
        (λ _. octets_in names.new name.now ≡ octets_in names.old name.now) }
    ensures others { OthersAsBefore (octets_in names.old) (octets_in names.new) name.now }
{
    let key = String::from_str(alloc, name)?;
    names.insert(key, octets)?;
    Ok(())
}

/// Adds octets to those of the name, which is made where it is absent. Without memory for them all
/// stays.
fn add_octets(names: &mut Names, alloc: Global, name: &str, piece: &[u8]) -> Result<(), AllocError>
    ensures name { MatchResult result
        (λ _. octets_in names.new name.now
        ≡ Some (unwrap_or (octets_in names.old name.now) [] ++ piece.now))
        (λ _. octets_in names.new name.now ≡ octets_in names.old name.now) }
    ensures others { OthersAsBefore (octets_in names.old) (octets_in names.new) name.now }
{
    if let Some(octets) = names.get_mut(name) {
        octets.extend_from_slice(piece)
    } else {
        put_octets(names, alloc, name, Vec::from_slice(alloc, piece)?)
    }
}

/// Copies octets from the offset on to the front of `into`, and answers how many.
fn copy_from(octets: &[u8], offset: u64, into: &mut [u8]) -> usize
    ensures count { result ≡ min (length into.old) (length octets.now - offset) }
    ensures into { into.new ≡ take result (drop offset octets.now) ++ drop result into.old }
{
    let start = offset.min(octets.len() as u64) as usize;
    let left = &octets[start..];
    let count = into.len().min(left.len());
    into[..count].copy_from_slice(&left[..count]);
    count
}

impl MemoryShelf {
    ghost use Rattle.grib_io.specs.ShelfInMemory.{octets_under, calls};

    /// A shelf without names. The calls with the numbers `failing` fail.
    pub fn new(alloc: Global, failing: Vec<u64>) -> MemoryShelf
        ensures names { (name : List ℕ) → octets_under result name ≡ None }
        ensures calls { calls result ≡ record { failing = failing.items; made = 0; faults = 0 } }
    {
        MemoryShelf {
            alloc,
            names: BTreeMap::new(alloc),
            calls: Calls::new(failing),
        }
    }

    /// The octets of the name, None exactly where it is absent.
    pub fn octets(&self, name: &str) -> Option<&[u8]>
        ensures { option_copied result ≡ octets_under self.now name.now }
    {
        Some(self.names.get(name)?.as_slice())
    }

    /// Gives the name these octets. This is not counted as a call. Without memory for it all stays.
    pub fn put(&mut self, name: &str, octets: &[u8]) -> Result<(), AllocError>
        ensures name { MatchResult result (λ _. octets_under self.new name.now ≡ Some octets.now)
            (λ _. octets_under self.new name.now ≡ octets_under self.old name.now) }
        ensures others { OthersAsBefore (octets_under self.old) (octets_under self.new) name.now }
        ensures calls { calls self.new ≡ calls self.old }
    {
        let octets = Vec::from_slice(self.alloc, octets)?;
        put_octets(&mut self.names, self.alloc, name, octets)
    }
}

impl Shelf for MemoryShelf {
    ghost use Rattle.grib_io.specs.ShelfInMemory.{octets_under, calls};

    ghost contents = { λ shelf. Some (octets_under shelf) };

    ghost faults = { λ shelf. (calls shelf).faults };

    fn read_at(&mut self, name: &str, offset: u64, into: &mut [u8]) -> Result<usize, ShelfStop>
        ensures bound { ReadsAtMost result into.new }
        ensures octets { ReadsName (octets_under self.old name.now) offset result into.new }
        ensures kept { AsBefore (octets_under self.old) (octets_under self.new) }
        ensures counted { CountsShelfRead result (calls self.old).faults (calls self.new).faults }
        ensures failed { ReadFailsWhere (next_fails (calls self.old)) result }
        ensures count { IfOk result (λ count. count ≡ min (length into.old)
            (length (unwrap_or (octets_under self.old name.now) []) - offset)) }
        ensures rest { MatchResult result (λ count. drop count into.new ≡ drop count into.old)
            (λ _. into.new ≡ into.old) }
        ensures calls { calls self.new ≡ one_more (calls self.old) }
    {
        self.calls.count()?;
        let Some(octets) = self.names.get(name) else {
            return Err(ShelfStop::Absent);
        };
        Ok(copy_from(octets.as_slice(), offset, into))
    }

    fn make(&mut self, name: &str) -> Result<(), Stop>
        ensures octets { Makes result
            (octets_under self.old name.now) (octets_under self.new name.now) }
        ensures others { OthersAsBefore (octets_under self.old) (octets_under self.new) name.now }
        ensures counted { CountsStops result (calls self.old).faults (calls self.new).faults }
        ensures failed { FailsWhere (next_fails (calls self.old)) result }
        ensures kept { OnErr result
            (octets_under self.new name.now ≡ octets_under self.old name.now) }
        ensures calls { calls self.new ≡ one_more (calls self.old) }
    {
        self.calls.count()?;
        Ok(put_octets(&mut self.names, self.alloc, name, Vec::new(self.alloc))?)
    }

    fn append(&mut self, name: &str, piece: &[u8]) -> Result<(), Stop>
        ensures octets { AddsPiece result piece.now
            (octets_under self.old name.now) (octets_under self.new name.now) }
        ensures others { OthersAsBefore (octets_under self.old) (octets_under self.new) name.now }
        ensures counted { CountsStops result (calls self.old).faults (calls self.new).faults }
        ensures failed { FailsWhere (next_fails (calls self.old)) result }
        ensures kept { OnErr result
            (octets_under self.new name.now ≡ octets_under self.old name.now) }
        ensures calls { calls self.new ≡ one_more (calls self.old) }
    {
        self.calls.count()?;
        Ok(add_octets(&mut self.names, self.alloc, name, piece)?)
    }
}
