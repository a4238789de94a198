//! The octets that a message still needs are read.

ghost use Rattle.std.specs.Prelude.{◌≡◌, ◌≢◌, ◌<◌, ◌≤◌, ◌+◌, ◌⊎◌, max, length, IfOk, IfErr, OnOk, OnErr};
ghost use Rattle.grib_io.specs.Outside.{Counted, CountsStops};
ghost use Rattle.grib_stream.specs.Reading.{Gathers, Probes};
ghost use Rattle.grib_stream.specs.Rest.{Stands};
ghost use Rattle.grib_stream.specs.declared.outcome.Outcome.TheVariants.{ReadFault, Memory};

use crate::outcome::Outcome;
use crate::window::{READ, Window, read_behind};
use grib_io::{Source, Stop};

/// The most octets of an input that are answered.
pub const LIMIT: u64 = 1_099_511_627_776;

/// What may still be read of an input.
#[derive(Clone, Copy, Debug, PartialEq, Eq)]
pub enum Rest {
    /// More, as far as is known.
    Open,
    /// Nothing, since as much was taken as is answered.
    Full,
    /// Nothing, since the input is at its end.
    Ended,
}

/// Reads until this many octets are there, as far as the input goes and no more than `left` of it, from
/// which what was read is taken away. No more is read than is wanted, but up to as many octets as one read
/// asks for at most.
pub fn gather<S: Source>(
    window: &mut Window,
    input: &mut S,
    wanted: usize,
    left: &mut u64,
) -> Result<Rest, Stop>
    requires few { length window.old.octets < wanted }
    ensures gathers { Gathers (S.left input.old) (S.left input.new) window.old.octets window.new.octets
        left.old left.new }
    ensures stands { IfOk result
        (λ rest. Stands rest wanted (length window.new.octets) left.new (S.left input.new)) }
    ensures fewer { IfOk result (λ rest. (rest ≡ Rest.Open) ⊎ (length window.new.octets < wanted)) }
    ensures few { OnErr result (length window.new.octets < wanted) }
    ensures short { length window.new.octets ≤ max wanted 65536 }
    ensures room { window.new.room ≤ max window.old.room (wanted + 65536) }
    ensures counted { CountsStops result (S.faults input.old) (S.faults input.new) }
{
    while window.len() < wanted {
        if *left == 0 {
            return Ok(Rest::Full);
        }
        let most = (*left).min(room_for(wanted, window.len()) as u64) as usize;
        let count = window.read(input, most, wanted)?;
        if count == 0 {
            return Ok(Rest::Ended);
        }
        *left -= count as u64;
    }
    Ok(Rest::Open)
}

/// How many octets one read asks for, where this many are wanted and this many are there.
fn room_for(wanted: usize, there: usize) -> usize
    requires { there < wanted }
    ensures some { 0 < result }
    ensures most { result ≤ 65536 }
    ensures short { there + result ≤ max wanted 65536 }
{
    (wanted.max(READ) - there).min(READ)
}

/// Reads as much as is needed, as far as the input goes and as much may be taken.
///
/// # Errors
///
/// The input failed, or there is no memory: the outcome of the run.
pub fn read_on<S: Source>(
    window: &mut Window,
    input: &mut S,
    wanted: u64,
    left: &mut u64,
) -> Result<Rest, Outcome>
    requires few { length window.old.octets < wanted }
    ensures gathers { Gathers (S.left input.old) (S.left input.new) window.old.octets window.new.octets
        left.old left.new }
    ensures stands { IfOk result
        (λ rest. Stands rest wanted (length window.new.octets) left.new (S.left input.new)) }
    ensures few { OnErr result (length window.new.octets < wanted) }
    ensures short { length window.new.octets ≤ max wanted 65536 }
    ensures room { window.new.room ≤ max window.old.room (wanted + 65536) }
    ensures one_of { IfErr result (λ outcome. (outcome ≡ ReadFault) ⊎ (outcome ≡ Memory)) }
    ensures read_fault { IfErr result (λ outcome. outcome ≡ ReadFault
        → Counted (S.faults input.old) (S.faults input.new)) }
    ensures read_calm { IfErr result (λ outcome. outcome ≢ ReadFault
        → S.faults input.new ≡ S.faults input.old) }
    ensures calm { OnOk result (S.faults input.new ≡ S.faults input.old) }
{
    match gather(window, input, wanted as usize, left) {
        Ok(rest) => Ok(rest),
        Err(Stop::Failed) => Err(Outcome::ReadFault),
        Err(Stop::Memory) => Err(Outcome::Memory),
    }
}

/// Takes one octet more than is answered, which shows whether the input is too long.
pub fn probe<S: Source>(input: &mut S) -> Result<(), Outcome>
    ensures { Probes result (S.left input.old) (S.left input.new) (S.faults input.old) (S.faults input.new) }
{
    let mut octet = [0u8; 1];
    match read_behind(&mut octet, 0, 1, input) {
        Ok(0) => Ok(()),
        Ok(_) => Err(Outcome::InputTooLong),
        Err(_) => Err(Outcome::ReadFault),
    }
}
