//! The coordinates of points in 10^-6 degree.

ghost use Rattle.std.specs.Prelude.{◌≡◌, ℕ, ◌*◌, ◌<◌, List, IfOk};
ghost use Rattle.grib_rescan.specs.Sections.{HasPoints};
ghost use Rattle.grib_places.specs.declared.coordinate.Coordinate.{Coordinate as Told};
ghost use Rattle.grib_places.specs.Degrees.{micro_degrees};
ghost use Rattle.grib_places.specs.Places.{point_degrees};
ghost use Rattle.grib_places.specs.Tables.{AreMicrosOf};

use crate::coordinate::Coordinate;
use crate::line::Line;
use crate::order::StepOrder;
use crate::tables::PlaceMicros;
use std::alloc::{AllocError, Global};

impl PlaceMicros {
    /// Of a grid of template 3.0 without a list of rows: each is the whole number that is nearest to the exact coordinate, half
    /// to even (WMO-No. 306, Volume I.2, FM 92 GRIB edition 2, grid definition template 3.0, flag table 3.4).
    ///
    /// # Errors
    ///
    /// There is no memory.
    pub fn of(
        alloc: Global,
        section: &[u8],
        coordinate: Coordinate,
    ) -> Result<PlaceMicros, AllocError>
        requires { HasPoints section.now }
        ensures { IfOk result (λ places. AreMicrosOf places coordinate section.now) }
    {
        let order = StepOrder::of(section);
        let micros = Line::of(section, coordinate).micros(alloc)?;
        Ok(PlaceMicros {
            order,
            coordinate,
            micros,
        })
    }

    /// The coordinate of a point, counted from 0.
    #[inline]
    pub fn micro(&self, point: u32) -> i64
        requires { point < self.now.order.columns * self.now.order.rows }
        ensures { (coordinate : Told) (s : List ℕ) → AreMicrosOf self.now coordinate s
            → result ≡ micro_degrees (point_degrees coordinate s point) }
    {
        self.micros[self.order.step(self.coordinate, point) as usize]
    }
}
