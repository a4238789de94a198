//! Codes that follow one another in a group, for whose points there is room.

ghost use Rattle.std.specs.Prelude.{◌≡◌, ◌+◌, ◌≤◌, ◌<◌, ◌^◌, ◌∷◌, [], length};
ghost use Rattle.grib_group_reading.specs.Taking.{number_of};
ghost use Rattle.grib_complex_reading.specs.Told.{Plainly, point_of, telling_after, told};
ghost use Rattle.grib_complex_reading.specs.Tells.{IsWithin, SteadilyTook, telling_of};

use crate::Steady;
use grib_base::Code;
use grib_group_reading::CodeRun;
use grib_packing::{Keeper, Point};

/// Hands the point of each code of a difference on, none of whose numbers can be out of range.
#[derive(Debug, Drop)]
pub(crate) struct Steadily<K> {
    pub steady: Steady,
    pub keeper: K,
}

/// Hands on the points of the codes of a run, which are the scaled integers themselves.
#[inline(always)]
pub(crate) fn keep_plainly<R: CodeRun + Drop, K: Keeper>(mut run: R, mut keeper: K) -> K
    requires stands { R.stands run }
    requires limit { R.limit run ≤ 2 ^ 49 }
    requires room { length (R.codes run) ≤ K.room keeper }
    ensures kept { K.kept keeper (told Plainly (R.codes run)) result }
{
    for _index in 0..run.count() {
        let point = plain_point(run.next());
        keeper = keeper.keep_within(point);
    }
    keeper
}

/// Takes the codes of a run, which are those of differences.
#[inline(always)]
pub(crate) fn keep_steadily<R: CodeRun + Drop, K: Keeper>(
    mut run: R,
    mut taker: Steadily<K>,
) -> Steadily<K>
    requires stands { R.stands run }
    requires room { length (R.codes run) ≤ K.room taker.keeper }
    requires left { taker.steady.left ≡ length (R.codes run) }
    requires below { taker.steady.limit ≡ R.limit run }
    ensures { SteadilyTook K.kept taker (R.codes run) result }
{
    for _index in 0..run.count() {
        let code = run.next();
        taker = taker.take_within(code);
    }
    taker
}

impl<K: Keeper> Steadily<K> {
    /// Takes the next code.
    #[inline(always)]
    fn take_within(self, code: Code) -> Steadily<K>
        requires some { 1 ≤ self.steady.left }
        requires code { number_of code < self.steady.limit }
        requires room { 1 ≤ K.room self.keeper }
        ensures took { SteadilyTook K.kept self (code ∷ []) result }
        ensures left { self.steady.left ≤ result.steady.left + 1 }
        ensures limit { result.steady.limit ≡ self.steady.limit }
        ensures room { K.room self.keeper ≤ K.room result.keeper + 1 }
    {
        let Steadily { mut steady, keeper } = self;
        let point = steady_point(&mut steady, code);
        Steadily {
            steady,
            keeper: keeper.keep_within(point),
        }
    }
}

/// The point of a code, which is the scaled integer itself.
#[inline(always)]
pub(crate) fn plain_point(code: Code) -> Point
    requires { number_of code < 2 ^ 49 }
    ensures { result ≡ point_of Plainly code }
{
    match code {
        Code::Present(number) => Point::Scaled(number as i64),
        Code::Primary => Point::Missing,
        Code::Secondary => Point::Missing2,
    }
}

/// The point of the code of a difference.
#[inline(always)]
fn steady_point(steady: &mut Steady, code: Code) -> Point
    requires some { 1 ≤ steady.old.left }
    requires code { number_of code < steady.old.limit }
    ensures point { result ≡ point_of (telling_of steady.old.run) code }
    ensures within { IsWithin result }
    ensures after { telling_of steady.new.run ≡ telling_after (telling_of steady.old.run) code }
    ensures left { steady.old.left ≤ steady.new.left + 1 }
    ensures limit { steady.new.limit ≡ steady.old.limit }
{
    match code {
        Code::Present(number) => Point::Scaled(steady.push(number)),
        Code::Primary => Point::Missing,
        Code::Secondary => Point::Missing2,
    }
}
