//! What takes codes on.

ghost use Rattle.std.specs.Prelude.{◌≡◌, ℕ, ◌+◌, ◌<◌, ◌≤◌, true, List, [], ◌∷◌, ◌++◌, length, replicate};
ghost use Rattle.grib_base.specs.declared.code.Code.{Code};
ghost use Rattle.grib_group_reading.specs.Taking.{number_of};

use crate::CodeRun;
use crate::code_run::SameRun;
use grib_base::Code;

/// What takes codes one after another. It is handed on by value, so that what it counts stays in
/// registers over a run of codes.
pub trait Taker {
    // Codes are below this.
    ghost limit: { ℕ };

    // It has room for this many further codes.
    ghost room: { Self → ℕ → Type 0 } = { λ _ _. Unit {0} };

    // Where codes are taken one after another, it goes from one state to another.
    ghost took: { Self → List Code → Self → Type 0 };

    /// Takes the next code.
    fn take(self, code: Code) -> Self
        requires below { number_of code < limit }
        requires room { room self 1 }
        ensures { took self (code ∷ []) result };

    ghost none: { (taker : Self) → took taker [] taker };

    ghost more: { (before between after : Self) (codes more_codes : List Code) → took before codes between → took between more_codes after
        → took before (codes ++ more_codes) after };

    ghost fewer: { (taker : Self) (n m : ℕ) → n ≤ m → room taker m → room taker n };

    ghost room_after: { (before after : Self) (codes : List Code) (n : ℕ) → took before codes after → room before (length codes + n)
        → room after n };
}

/// What takes the codes of a run at once, where it is ready for them.
pub trait RunTaker: Taker + Sized {
    // It takes this many codes below a limit at once.
    ghost ready: { Self → ℕ → ℕ → Type 0 } = { λ _ _ _. Unit {0} };

    /// Whether it takes `count` codes below `limit` at once.
    fn is_ready(&self, count: u32, limit: u64) -> bool
        requires { limit ≤ Self.limit }
        ensures { result ≡ true → ready self.now count limit };

    /// Takes the codes of a run, for which it is ready.
    #[inline(always)]
    fn take_run<R: CodeRun + Drop>(self, run: R) -> Self
        requires stands { R.stands run }
        requires limit { R.limit run ≤ Self.limit }
        requires room { Self.room self (length (R.codes run)) }
        requires ready { ready self (length (R.codes run)) (R.limit run) }
        ensures { Self.took self (R.codes run) result }
    {
        take_each(run, self)
    }

    // It takes one code many times in a few steps.
    ghost quick: { Self → Type 0 } = { λ _. Unit {0} };

    /// Whether it takes one code many times in a few steps.
    #[inline(always)]
    fn is_quick(&self) -> bool
        ensures { result ≡ true → quick self.now }
    {
        false
    }

    /// Takes one code, whose number is below a limit, `count` times, where it does so in a few steps.
    #[inline(always)]
    fn take_same(self, code: Code, limit: u64, count: u32) -> Self
        requires below { number_of code < limit }
        requires limit { limit ≤ Self.limit }
        requires room { Self.room self count }
        requires quick { quick self }
        ensures { Self.took self (replicate count code) result }
    {
        take_each(SameRun::new(code, limit, count), self)
    }
}

/// Takes the codes of a run, at once where it is ready for them.
#[inline(always)]
pub fn take_all<R: CodeRun + Drop, T: RunTaker>(run: R, taker: T) -> T
    requires stands { R.stands run }
    requires limit { R.limit run ≤ T.Taker.limit }
    requires room { T.Taker.room taker (length (R.codes run)) }
    ensures { T.Taker.took taker (R.codes run) result }
{
    if taker.is_ready(run.count(), run.limit()) {
        return taker.take_run(run);
    }
    take_each(run, taker)
}

/// Takes the codes of a run, one after another.
#[inline(always)]
pub fn take_each<R: CodeRun + Drop, T: Taker>(mut run: R, mut taker: T) -> T
    requires stands { R.stands run }
    requires limit { R.limit run ≤ T.limit }
    requires room { T.room taker (length (R.codes run)) }
    ensures { T.took taker (R.codes run) result }
{
    for _index in 0..run.count() {
        let code = run.next();
        taker = taker.take(code);
    }
    taker
}
