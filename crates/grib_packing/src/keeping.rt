//! What becomes of the points of values.

ghost use Rattle.std.specs.Prelude.{◌≡◌, ℕ, ◌+◌, ◌≤◌, ◌<◌, List, Bool, false, [], ◌∷◌, ◌++◌, length, replicate, IfOk, vec_len, vec_capacity};
ghost use Rattle.grib_bitmap.specs.Mask.{present_count};
ghost use Rattle.grib_packing.specs.Column.{points_with_mask};
ghost use Rattle.grib_packing.specs.declared.column.Point.{Point as point};
ghost use Rattle.grib_packing.specs.declared.column.Point.TheVariants.{Missing};
ghost use Rattle.grib_packing.specs.Kept.{ArePoints, PointsKept, points-none, points-more};

use crate::Point;
use grib_base::push_within;
use grib_bitmap::Mask;
use std::alloc::{AllocError, Global};

/// What the points of values go to, one after another, by value like what takes codes.
pub trait Keeper {
    // Where points are kept one after another, it goes from one state to another.
    ghost kept: { Self → List point → Self → Type 0 };

    /// Whether it keeps points. One that keeps none need not be handed any.
    #[inline]
    fn keeps(&self) -> bool
        ensures { result ≡ false → (points : List point) → kept self.now points self.now }
    {
        true
    }

    // How many points it keeps without a look at where they go.
    ghost room: { Self → ℕ };

    /// How many of the next points it keeps without a look at where they go.
    fn room(&self) -> u32
        ensures { result ≡ room self.now };

    /// Keeps the next point.
    fn keep(self, point: Point) -> Self
        ensures { kept self (point ∷ []) result };

    /// Keeps the next point, where there is room.
    fn keep_within(self, point: Point) -> Self
        requires { 1 ≤ room self }
        ensures kept { kept self (point ∷ []) result }
        ensures room { room self ≤ room result + 1 };

    ghost none: { (keeper : Self) → kept keeper [] keeper };

    ghost more: { (before between after : Self) (points more_points : List point) → kept before points between → kept between more_points after
        → kept before (points ++ more_points) after };
}

/// The points of a column, which take the places of a mask that are present.
#[derive(Debug, Drop)]
pub struct Points {
    /// Behind a pointer, so that it does not move with the points.
    mask: Box<Mask>,
    points: Vec<Point>,
    /// How many present points follow for certain.
    left: u32,
}

impl Points {
    /// No points yet.
    ///
    /// # Errors
    ///
    /// There is no memory for the points.
    pub fn start(alloc: Global, mask: Mask) -> Result<Points, AllocError>
        ensures { IfOk result (ArePoints mask []) }
    {
        let points = Vec::with_capacity(alloc, mask.len() as usize)?;
        let mask = Box::new(alloc, mask)?;
        Ok(Points {
            mask,
            points,
            left: 0,
        })
    }

    /// Keeps the next point where the run of present points has ended. It takes the points by value, so that
    /// they stay in registers where it is not called.
    #[cold]
    #[inline(never)]
    fn keep_next(self, point: Point) -> Points
        requires { self.left ≡ 0 }
        ensures { PointsKept self (point ∷ []) result }
    {
        let mut points = self.skip_missing();
        points.left = points.left.saturating_sub(1);
        push_in_room(&mut points.points, point);
        points
    }

    /// Goes on to the next point that is present, where the run of present points has ended.
    fn skip_missing(mut self) -> Points
        requires { self.left ≡ 0 }
        ensures { (mask : List Bool) (seen : List point) → length seen < present_count mask → ArePoints mask seen self
            → ArePoints mask seen result × (0 < result.left) }
    {
        let mut place = self.points.len();
        while place < self.mask.len() as usize {
            let run = self.mask.run(place as u32);
            if run.present {
                self.left = run.length;
                return self;
            }
            push_missing(&mut self.points, run.length);
            place += run.length as usize;
        }
        self
    }

    /// The points, once all values came.
    pub fn finish(self) -> Vec<Point>
        ensures { (mask : List Bool) (seen : List point) → ArePoints mask seen self → result.items ≡ points_with_mask mask seen }
    {
        let mut points = self.points;
        let left = (self.mask.len() as usize).saturating_sub(points.len());
        push_missing(&mut points, left as u32);
        points
    }
}

impl Keeper for Points {
    ghost kept = { PointsKept };

    ghost room = { λ points. points.left };

    #[inline(always)]
    fn room(&self) -> u32 {
        self.left
    }

    #[inline(always)]
    fn keep(self, point: Point) -> Points {
        if self.left == 0 {
            return self.keep_next(point);
        }
        self.keep_within(point)
    }

    #[inline(always)]
    fn keep_within(self, point: Point) -> Points {
        let mut points = self;
        points.left -= 1;
        push_in_room(&mut points.points, point);
        points
    }

    ghost none = { points-none };

    ghost more = { points-more };
}

/// Nothing is kept of the points.
#[derive(Debug, Drop)]
pub struct Nothing;

impl Keeper for Nothing {
    ghost kept = { λ _ _ _. Unit {0} };

    #[inline]
    fn keeps(&self) -> bool {
        false
    }

    ghost room = { λ _. 4294967295 };

    #[inline]
    fn room(&self) -> u32 {
        u32::MAX
    }

    #[inline]
    fn keep(self, _point: Point) -> Nothing {
        self
    }

    #[inline]
    fn keep_within(self, _point: Point) -> Nothing {
        self
    }

    ghost none = { λ _. tt };

    ghost more = { λ _ _ _ _ _ _ _. tt };
}

/// Adds this many missing points, for which there is memory.
fn push_missing(points: &mut Vec<Point>, count: u32)
    ensures points { vec_len points.old + count ≤ vec_capacity points.old → points.new.items ≡ points.old.items ++ replicate count Missing }
    ensures capacity { vec_capacity points.old ≤ vec_capacity points.new }
{
    for _index in 0..count {
        push_in_room(points, Point::Missing);
    }
}

/// Adds an item where there is memory for it, as there is for each that is kept.
#[inline(always)]
pub fn push_in_room<T: Drop>(items: &mut Vec<T>, item: T)
    ensures items { vec_len items.old < vec_capacity items.old → items.new.items ≡ items.old.items ++ item ∷ [] }
    ensures capacity { vec_capacity items.old ≤ vec_capacity items.new }
{
    if items.len() < items.capacity() {
        push_within(items, item);
    }
}
