//! The octets of an input that were read and are still to be answered.

ghost use Rattle.std.specs.Prelude.{◌≡◌, ◌≤◌, ◌<◌, ◌+◌, ◌-◌, max, ℕ, List, [], length, take, drop, IfOk, OnErr, OnOk, vec_len};
ghost use Rattle.std.specs.Io.KnownBytes.{Keeps, IsAtEnd};
ghost use Rattle.grib_io.specs.Outside.{CountsFailure, CountsStops};
ghost use Rattle.grib_stream.specs.Reading.{Reads, Takes};

use grib_io::{Failed, Source, Stop};
use std::alloc::{AllocError, Global};
use std::marker::Model;

/// The most octets that one read asks for.
pub const READ: usize = 65_536;

/// Octets that were read and are still to be answered. They lie in one buffer, which grows with what
/// comes and is used again for what comes later.
#[derive(Drop)]
pub struct Window {
    octets: Vec<u8>,
    start: usize,
    end: usize,
}

impl Model for Window {
    ghost use Rattle.std.specs.Prelude.{◌≤◌, take, drop, vec_len};
    ghost use Rattle.grib_stream.specs.Reading.{Buffered};

    ghost Value = { Buffered };

    ghost view = { λ window. record { octets = drop window.start (take window.end window.octets.items); room = vec_len window.octets } };

    ghost invariant = { λ window. (window.start ≤ window.end) × (window.end ≤ vec_len window.octets) };
}

impl Window {
    /// A window without octets. It takes no memory.
    pub fn new(alloc: Global) -> Window
        ensures octets { result.octets ≡ [] }
        ensures room { result.room ≡ 0 }
    {
        Window {
            octets: Vec::new(alloc),
            start: 0,
            end: 0,
        }
    }

    /// How many octets it has.
    pub fn len(&self) -> usize
        ensures { result ≡ length self.now.octets }
    {
        self.end - self.start
    }

    /// The octets.
    pub fn as_slice(&self) -> &[u8]
        ensures { result.now ≡ self.now.octets }
    {
        &self.octets[self.start..self.end]
    }

    /// Passes over the first octets.
    pub fn pass(&mut self, count: usize)
        requires { count ≤ length self.old.octets }
        ensures octets { self.new.octets ≡ drop count self.old.octets }
        ensures room { self.new.room ≡ self.old.room }
    {
        self.start += count;
    }

    /// Reads at most `most` octets, one at least where there is one, into the buffer after the others.
    /// Room is made with a view to this many octets that are needed in the end: there is never more than
    /// for these, or for those that are pending, and one read.
    pub fn read<S: Source>(
        &mut self,
        input: &mut S,
        most: usize,
        wanted: usize,
    ) -> Result<usize, Stop>
        requires some { 0 < most }
        ensures read { IfOk result (λ count. Reads (S.left input.old) (S.left input.new)
            self.old.octets self.new.octets count most) }
        ensures kept { OnErr result (self.new.octets ≡ self.old.octets) }
        ensures room { self.new.room ≤ max self.old.room (max wanted (length self.old.octets) + 65536) }
        ensures untaken { OnErr result (Keeps (S.left input.old) (S.left input.new)) }
        ensures counted { CountsStops result (S.faults input.old) (S.faults input.new) }
    {
        let start = make_room(&mut self.octets, self.start, self.end, wanted)?;
        let end = start + (self.end - self.start);
        self.start = start;
        self.end = end;
        let room = most.min(READ);
        let count = read_behind(self.octets.as_mut_slice(), end, room, input)?;
        self.end = end + count;
        Ok(count)
    }
}

/// Makes room for the octets of one read after those from `start` to `end`, and answers where these then
/// begin: it moves them to the front of the buffer, which is made larger where it has to be.
fn make_room(
    octets: &mut Vec<u8>,
    start: usize,
    end: usize,
    wanted: usize,
) -> Result<usize, AllocError>
    requires order { start ≤ end }
    requires within { end ≤ vec_len octets.old }
    ensures same { IfOk result (λ place. drop place (take (place + (end - start)) octets.new.items)
        ≡ drop start (take end octets.old.items)) }
    ensures room { IfOk result (λ place. (place + (end - start)) + 65536 ≤ vec_len octets.new) }
    ensures bound { vec_len octets.new ≤ max (vec_len octets.old) (max wanted (end - start) + 65536) }
    ensures kept { OnErr result (octets.new.items ≡ octets.old.items) }
    ensures len { OnErr result (vec_len octets.new ≡ vec_len octets.old) }
{
    if octets.len() - end >= READ {
        return Ok(start);
    }
    let pending = end - start;
    if octets.len() - pending < READ {
        enlarge(octets, pending, wanted)?;
    }
    if start > 0 {
        octets.copy_within(start..end, 0);
    }
    Ok(0)
}

/// Makes the buffer larger, so that there is room for the octets of one read beside the pending ones:
/// twice as large as it was, but no larger than for the octets that are wanted and one read.
fn enlarge(octets: &mut Vec<u8>, pending: usize, wanted: usize) -> Result<(), AllocError>
    requires within { pending ≤ vec_len octets.old }
    requires little { vec_len octets.old < pending + 65536 }
    ensures front { OnOk result (take (vec_len octets.old) octets.new.items ≡ octets.old.items) }
    ensures room { OnOk result (pending + 65536 ≤ vec_len octets.new) }
    ensures bound { OnOk result (vec_len octets.new ≤ max wanted pending + 65536) }
    ensures kept { OnErr result (octets.new.items ≡ octets.old.items) }
    ensures len { OnErr result (vec_len octets.new ≡ vec_len octets.old) }
{
    let least = pending + READ;
    let most = wanted.saturating_add(READ);
    let size = octets.len().saturating_mul(2).min(most).max(least);
    octets.resize(size, 0)
}

/// Reads into the room of this many octets after the first `end`, which stay as they are.
pub(crate) fn read_behind<S: Source>(
    octets: &mut [u8],
    end: usize,
    room: usize,
    input: &mut S,
) -> Result<usize, Failed>
    requires within { end + room ≤ length octets.old }
    requires some { 0 < room }
    ensures front { take end octets.new ≡ take end octets.old }
    ensures bound { IfOk result (λ count. count ≤ room) }
    ensures taken { IfOk result (λ count. Takes (S.left input.old) (S.left input.new)
        (drop end (take (end + count) octets.new))) }
    ensures end { IfOk result (λ count. count ≡ 0 → IsAtEnd (S.left input.new)) }
    ensures untaken { OnErr result (Keeps (S.left input.old) (S.left input.new)) }
    ensures counted { CountsFailure result (S.faults input.old) (S.faults input.new) }
{
    let count = input.read(&mut octets[end..end + room])?;
    Ok(count)
}
