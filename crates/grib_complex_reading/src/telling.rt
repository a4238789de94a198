//! The points that codes tell.

ghost use Rattle.std.specs.Prelude.{◌≡◌, ℕ, ◌+◌, ◌<◌, ◌≤◌, ◌^◌, true, List, [], ◌∷◌, ◌++◌, length, replicate};
ghost use Rattle.grib_base.specs.declared.code.Code.{Code as code_of_value};
ghost use Rattle.grib_group_reading.specs.Taking.{number_of};
ghost use Rattle.grib_complex_reading.specs.Told.{Telling, point_of, after, undoing};
ghost use Rattle.grib_complex_reading.specs.Reach.{IsSteady};
ghost use Rattle.grib_complex_reading.specs.Tells.{Tells, telling_of};

use crate::{Running, ScaledRange};
use grib_base::Code;
use grib_packing::Point;

/// Tells the points of the codes of differences.
#[derive(Debug, Drop)]
pub struct Teller {
    pub(crate) running: Running,
    /// How many points were told.
    pub(crate) place: u64,
    /// The place, from 1, of the first point out of range, or 0.
    pub(crate) beyond: u64,
}

impl Teller {
    /// Has told nothing.
    pub fn start(running: Running) -> Teller
        ensures running { result.running ≡ running }
        ensures nothing { Tells (telling_of running) [] result }
    {
        Teller {
            running,
            place: 0,
            beyond: 0,
        }
    }

    /// The place, from 1, of the first point outside plus and minus 2^60, or 0.
    pub fn beyond(&self) -> u64
        ensures { result ≡ self.now.beyond }
    {
        self.beyond
    }

    /// Whether no number of the next `count` codes below `limit` can be out of range.
    #[inline(always)]
    pub fn is_ready(&self, count: u32, limit: u64) -> bool
        requires { limit ≤ 2 ^ 49 }
        ensures { result ≡ true → IsSteady self.now.running count limit }
    {
        self.running.is_steady(count, limit)
    }

    /// The point of the next code.
    #[inline(always)]
    pub fn tell(&mut self, code: Code) -> Point
        requires { number_of code < 2 ^ 49 }
        ensures stays { 0 < self.old.beyond → self.new.beyond ≡ self.old.beyond }
        ensures undoes { undoing (telling_of self.new.running) ≡ undoing (telling_of self.old.running) }
        ensures tells { (start : Telling) (seen : List code_of_value) → length seen + 1 < 2 ^ 63 → Tells start seen self.old → Tells start (seen ++ code ∷ []) self.new }
        ensures point { (start : Telling) (seen : List code_of_value) → length seen + 1 < 2 ^ 63 → Tells start seen self.old → self.new.beyond ≡ 0 → result ≡ point_of (after start seen) code }
    {
        self.place = self.place.wrapping_add(1);
        let number = match code {
            Code::Present(number) => number,
            Code::Primary => return Point::Missing,
            Code::Secondary => return Point::Missing2,
        };
        match self.running.push(number) {
            Ok(number) => Point::Scaled(number),
            Err(ScaledRange) => {
                if self.beyond == 0 {
                    self.beyond = self.place;
                }
                Point::Missing
            }
        }
    }

    /// The points of `count` codes that are all this one, of which only the place of the first out of range is kept.
    pub fn tell_same(&mut self, code: Code, count: u32)
        requires { number_of code < 2 ^ 49 }
        ensures stays { 0 < self.old.beyond → self.new.beyond ≡ self.old.beyond }
        ensures undoes { undoing (telling_of self.new.running) ≡ undoing (telling_of self.old.running) }
        ensures tells { (start : Telling) (seen : List code_of_value) → length seen + count < 2 ^ 63 → Tells start seen self.old → Tells start (seen ++ replicate count code) self.new }
    {
        let before = self.place;
        self.place = before.wrapping_add(u64::from(count));
        let number = match code {
            Code::Present(number) => number,
            Code::Primary => return,
            Code::Secondary => return,
        };
        let within = self.running.push_same(number, count);
        if within < count && self.beyond == 0 {
            self.beyond = before.wrapping_add(u64::from(within) + 1);
        }
    }
}
