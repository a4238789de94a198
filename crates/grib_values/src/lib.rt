//! What the commands `values` and `coordinates` print: for each field an array of its values, or two of the places of its points.
#![tactic(auto)]

mod appending;
mod arraying;
mod coordinates;
mod coordinating;
mod shapes;

pub use arraying::Arraying;
pub use coordinating::Coordinating;
