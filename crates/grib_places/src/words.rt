//! The coordinates of points as words.

ghost use Rattle.std.specs.Prelude.{◌≡◌, ℕ, ◌*◌, ◌<◌, List, IfOk};
ghost use Rattle.grib_rescan.specs.Sections.{HasPoints};
ghost use Rattle.grib_places.specs.declared.coordinate.Coordinate.{Coordinate as Told};
ghost use Rattle.grib_places.specs.Degrees.{degrees_word};
ghost use Rattle.grib_places.specs.Places.{point_degrees};
ghost use Rattle.grib_places.specs.Tables.{AreWordsOf};

use crate::coordinate::Coordinate;
use crate::line::Line;
use crate::order::StepOrder;
use crate::tables::PlaceWords;
use std::alloc::{AllocError, Global};

impl PlaceWords {
    /// Of a grid of template 3.0 without a list of rows: each word has the number that is nearest to the exact coordinate, ties
    /// to even (WMO-No. 306, Volume I.2, FM 92 GRIB edition 2, grid definition template 3.0, flag table 3.4).
    ///
    /// # Errors
    ///
    /// There is no memory.
    pub fn of(
        alloc: Global,
        section: &[u8],
        coordinate: Coordinate,
    ) -> Result<PlaceWords, AllocError>
        requires { HasPoints section.now }
        ensures { IfOk result (λ places. AreWordsOf places coordinate section.now) }
    {
        let order = StepOrder::of(section);
        let words = Line::of(section, coordinate).words(alloc)?;
        Ok(PlaceWords {
            order,
            coordinate,
            words,
        })
    }

    /// The word of a point, counted from 0.
    #[inline]
    pub fn word(&self, point: u32) -> u64
        requires { point < self.now.order.columns * self.now.order.rows }
        ensures { (coordinate : Told) (s : List ℕ) → AreWordsOf self.now coordinate s
            → result ≡ degrees_word (point_degrees coordinate s point) }
    {
        self.words[self.order.step(self.coordinate, point) as usize]
    }
}
