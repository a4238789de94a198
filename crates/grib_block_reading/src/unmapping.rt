//! The numbers of codes.

ghost use Rattle.std.specs.Prelude.{◌≡◌, ◌+◌, ◌*◌, ◌/◌, ◌^◌, ◌<◌, ◌≤◌, length, take, sum_by, slice_index, OnOk, IfErr};
ghost use Rattle.grib_coding.specs.Mapped.{mapped, reach, half, halves, HaveCodes};

/// The number from 0 to `most` that has this code after the number `before`: there is exactly one.
#[inline(always)]
pub fn unmap(most: u32, before: u32, code: u32) -> u32
    requires before { before ≤ most }
    requires code { code ≤ most }
    ensures is { mapped most before result ≡ code }
    ensures within { result ≤ most }
{
    let above = most - before;
    if half_of(code) <= before.min(above) {
        by_parity(before, code)
    } else if before <= above {
        code
    } else {
        most - code
    }
}

/// Half of a code, rounded up.
#[inline(always)]
fn half_of(code: u32) -> u32
    ensures { result ≡ half code }
{
    code / 2 + code % 2
}

/// The number that is half of the code above the number `before`, or below it where the code is odd.
#[inline(always)]
fn by_parity(before: u32, code: u32) -> u32
    requires below { half code ≤ before }
    requires above { before + half code < 2 ^ 32 }
    ensures even { code ≡ 2 * (code / 2) → result ≡ before + code / 2 }
    ensures odd { code ≡ 2 * (code / 2) + 1 → result + half code ≡ before }
{
    // No branch: which codes are odd cannot be foreseen.
    before + code / 2 - code % 2 * code
}

/// Puts in the place of codes, of which the first is of a number after `before`, the numbers from 0 to `most`
/// that have them. Where all halves of the codes come to no more than the nearer bound is from `before`, no
/// code is tested.
///
/// # Errors
///
/// A code is over `most`: the place of the first that is, from 0. The codes before it have become their
/// numbers; the others stand.
#[inline]
pub fn unmap_block(codes: &mut [u32], most: u32, before: u32) -> Result<(), usize>
    requires before { before ≤ most }
    requires few { length codes.old < 2 ^ 32 }
    ensures ok { OnOk result (HaveCodes most before codes.old codes.new) }
    ensures before_it { IfErr result (λ place. HaveCodes most before (take place codes.old) (take place codes.new)) }
    ensures over { IfErr result (λ place. most < slice_index codes.old place) }
    ensures place { IfErr result (λ place. place < length codes.old) }
{
    if sum_of_halves(codes) <= u64::from(before.min(most - before)) {
        unmap_near(codes, most, before);
        return Ok(());
    }
    unmap_each(codes, most, before)
}

/// The sum of all halves.
#[inline(always)]
fn sum_of_halves(codes: &[u32]) -> u64
    requires { length codes.now < 2 ^ 32 }
    ensures { result ≡ halves codes.now }
{
    let mut sum = 0;
    for code in codes {
        sum += u64::from(half_of(*code));
    }
    sum
}

/// Undoes codes whose halves are so few that no number is far from `before`.
#[inline(always)]
fn unmap_near(codes: &mut [u32], most: u32, before: u32)
    requires before { before ≤ most }
    requires near { halves codes.old ≤ reach most before }
    ensures { HaveCodes most before codes.old codes.new }
{
    let mut before = before;
    for code in codes.iter_mut() {
        before = by_parity(before, *code);
        *code = before;
    }
}

/// Undoes codes one after another, each tested.
fn unmap_each(codes: &mut [u32], most: u32, before: u32) -> Result<(), usize>
    requires { before ≤ most }
    ensures ok { OnOk result (HaveCodes most before codes.old codes.new) }
    ensures before_it { IfErr result (λ place. HaveCodes most before (take place codes.old) (take place codes.new)) }
    ensures over { IfErr result (λ place. most < slice_index codes.old place) }
    ensures place { IfErr result (λ place. place < length codes.old) }
{
    let mut before = before;
    for (place, code) in codes.iter_mut().enumerate() {
        if *code > most {
            return Err(place);
        }
        before = unmap(most, before, *code);
        *code = before;
    }
    Ok(())
}
