//! The values of a field, as their codes come.

ghost use Rattle.std.specs.Prelude.{◌≡◌, ◌≤◌, ◌^◌, List, []};
ghost use Rattle.grib_packing.specs.declared.column.Point.{Point as point};
ghost use Rattle.grib_complex_reading.specs.Reach.{IsSteady};
ghost use Rattle.grib_complex_reading.specs.Tells.{PlainTook, Tells, ValuesTook, telling_of};
ghost use Rattle.grib_complex_reading.specs.Laws.{plain-none, plain-more, values-none, values-more};

use crate::Running;
use crate::runs::{Steadily, keep_plainly, keep_steadily, plain_point};
use crate::telling::Teller;
use grib_base::Code;
use grib_group_reading::{CodeRun, RunTaker, Taker};
use grib_packing::Keeper;

/// Tells the point of each code, which is that of a difference, and hands it on.
#[derive(Debug, Drop)]
pub struct Values<K> {
    pub teller: Teller,
    pub keeper: K,
}

impl<K> Values<K> {
    /// No code came yet.
    pub fn start(running: Running, keeper: K) -> Values<K>
        ensures running { result.teller.running ≡ running }
        ensures nothing { Tells (telling_of running) [] result.teller }
        ensures keeper { result.keeper ≡ keeper }
    {
        Values {
            teller: Teller::start(running),
            keeper,
        }
    }
}

impl<K: Keeper> Taker for Values<K> {
    ghost limit = { 2 ^ 49 };

    ghost took = { ValuesTook K.kept };

    #[inline(always)]
    fn take(self, code: Code) -> Values<K> {
        let Values { mut teller, keeper } = self;
        let point = teller.tell(code);
        Values {
            teller,
            keeper: keeper.keep(point),
        }
    }

    ghost none = { values-none K.kept K.none };

    ghost more = { values-more K.kept K.more };

    ghost fewer = { λ _ _ _ _ _. tt };

    ghost room_after = { λ _ _ _ _ _ _. tt };
}

impl<K: Keeper> RunTaker for Values<K> {
    ghost ready = { λ values count limit. (count ≤ K.room values.keeper) × IsSteady values.teller.running count limit };

    #[inline(always)]
    fn is_ready(&self, count: u32, limit: u64) -> bool {
        count <= self.keeper.room() && self.teller.is_ready(count, limit)
    }

    #[inline(always)]
    fn take_run<R: CodeRun + Drop>(self, run: R) -> Values<K> {
        let Values { teller, keeper } = self;
        let Teller {
            running,
            place,
            beyond,
        } = teller;
        let count = run.count();
        let steady = running.into_steady(count, run.limit());
        let Steadily { steady, keeper } = keep_steadily(run, Steadily { steady, keeper });
        let teller = Teller {
            running: steady.into_running(),
            place: place.wrapping_add(u64::from(count)),
            beyond,
        };
        Values { teller, keeper }
    }

    ghost quick = { λ values. (points : List point) → K.kept values.keeper points values.keeper };

    #[inline(always)]
    fn is_quick(&self) -> bool {
        !self.keeper.keeps()
    }

    #[inline(always)]
    fn take_same(self, code: Code, _limit: u64, count: u32) -> Values<K> {
        let Values { mut teller, keeper } = self;
        teller.tell_same(code, count);
        Values { teller, keeper }
    }
}

/// Hands the point of each code on, where a code is the scaled integer itself.
#[derive(Debug, Drop)]
pub struct PlainValues<K> {
    /// What keeps the points.
    pub keeper: K,
}

impl<K: Keeper> Taker for PlainValues<K> {
    ghost limit = { 2 ^ 49 };

    ghost took = { PlainTook K.kept };

    #[inline(always)]
    fn take(self, code: Code) -> PlainValues<K> {
        PlainValues {
            keeper: self.keeper.keep(plain_point(code)),
        }
    }

    ghost none = { plain-none K.kept K.none };

    ghost more = { plain-more K.kept K.more };

    ghost fewer = { λ _ _ _ _ _. tt };

    ghost room_after = { λ _ _ _ _ _ _. tt };
}

impl<K: Keeper> RunTaker for PlainValues<K> {
    ghost ready = { λ values count _. count ≤ K.room values.keeper };

    #[inline(always)]
    fn is_ready(&self, count: u32, _limit: u64) -> bool {
        count <= self.keeper.room()
    }

    #[inline(always)]
    fn take_run<R: CodeRun + Drop>(self, run: R) -> PlainValues<K> {
        PlainValues {
            keeper: keep_plainly(run, self.keeper),
        }
    }
}
