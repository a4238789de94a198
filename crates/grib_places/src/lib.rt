//! Where the points of a grid are: their latitudes and longitudes.
#![tactic(auto)]

mod cause;
mod coordinate;
pub mod laws;
mod line;
mod lines;
mod micros;
mod order;
mod rounding;
mod steps;
mod tables;
mod text;
mod words;

pub use cause::{PlaceCause, place_cause};
pub use coordinate::Coordinate;
pub use tables::{PlaceMicros, PlaceWords};
pub use text::DegreesText;
