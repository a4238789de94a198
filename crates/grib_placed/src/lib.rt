//! What the commands print of a message with the places of its points: `dump` with latitudes and longitudes, and why places are
//! not told.
#![tactic(auto)]

mod causes;
mod dumping;
mod form;
mod lines;
mod places;
mod texts;
mod valuing;
mod whole;

pub use causes::message_place_cause;
pub use dumping::PlacedDumping;
pub use valuing::PlacedValuing;
