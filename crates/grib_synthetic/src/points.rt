//! The points of the field that is made from a number.

ghost use Rattle.std.specs.Prelude.{◌≡◌, ℕ, ◌+◌, ◌*◌, ◌%◌, ◌^◌, ◌<◌, ◌≤◌, IfOk};
ghost use Rattle.grib_synthetic.specs.Points as field;
ghost use Rattle.grib_synthetic.specs.Maker.{HasMade};

use grib_packing::Point;
use std::alloc::{AllocError, Global};

/// The points of a field with nj rows of ni points. Its memory is taken first.
///
/// # Errors
///
/// There is no memory for the points.
pub fn make_points(alloc: Global, seed: u32, ni: u32, nj: u32) -> Result<Vec<Point>, AllocError>
    requires seed { seed < 2 ^ 31 }
    requires some { 1 ≤ ni }
    requires few_columns { ni ≤ 4096 }
    requires few_rows { nj ≤ 4096 }
    ensures { IfOk result (λ points. points.items ≡ field.made_points seed ni nj) }
{
    let count = ni * nj;
    let mut points = Vec::with_capacity(alloc, count as usize)?;
    let mut maker = Maker::new(seed, ni);
    for _made in 0..count {
        points.push(maker.next())?;
    }
    Ok(points)
}

/// What points are made with, one after another: the random number of the last one, and place i of row j,
/// both from 0, at which the next one stands.
#[derive(Clone, Copy, Debug)]
pub struct Maker {
    ni: u32,
    random: u32,
    i: u32,
    j: u32,
}

impl Maker {
    /// At the first of rows of ni points.
    pub fn new(seed: u32, ni: u32) -> Maker
        requires seed { seed < 2 ^ 31 }
        requires some { 1 ≤ ni }
        ensures made { HasMade result seed 0 }
        ensures ni { result.ni ≡ ni }
    {
        Maker {
            ni,
            random: seed,
            i: 0,
            j: 0,
        }
    }

    /// The next point.
    #[inline]
    pub fn next(&mut self) -> Point
        requires random { self.old.random < 2 ^ 31 }
        requires place { self.old.i + self.old.j < 2 ^ 31 }
        ensures point { (seed n : ℕ) → HasMade self.old seed n → result ≡ field.made_point seed self.old.ni (n + 1) }
        ensures made { (seed n : ℕ) → HasMade self.old seed n → HasMade self.new seed (n + 1) }
        ensures ni { self.new.ni ≡ self.old.ni }
    {
        self.random = next_random(self.random);
        let point = point_with(self.random / 65536, self.i, self.j);
        self.i += 1;
        if self.i == self.ni {
            self.i = 0;
            self.j += 1;
        }
        point
    }
}

/// The random number after this one.
#[inline]
fn next_random(random: u32) -> u32
    requires { random < 2 ^ 31 }
    ensures next { result ≡ (1103515245 * random + 12345) % 2 ^ 31 }
    ensures small { result < 2 ^ 31 }
{
    ((1_103_515_245 * u64::from(random) + 12_345) % (1 << 31)) as u32
}

/// The point at place i of row j, with this noise.
#[inline]
fn point_with(noise: u32, i: u32, j: u32) -> Point
    requires { i + j < 2 ^ 32 }
    ensures { result ≡ field.point_with noise i j }
{
    if noise % 101 == 0 {
        return Point::Missing;
    }
    Point::Scaled(i64::from(64 * slope(i, j) + noise % 64))
}

/// The slope there, which rises to 255 and falls again.
#[inline]
fn slope(i: u32, j: u32) -> u32
    requires { i + j < 2 ^ 32 }
    ensures is { result ≡ field.slope i j }
    ensures most { result ≤ 255 }
{
    let u = (i + j) % 512;
    u.min(511 - u)
}
