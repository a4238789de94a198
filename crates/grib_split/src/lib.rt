//! The choice of groups: the grouping of a field's codes that takes the fewest bits.
#![tactic(auto)]

mod behind;
mod bound;
mod choosing;
mod chosen;
mod fewest;
pub mod laws;
mod lengths;
mod slots;

pub use bound::bits_at_least;
pub use choosing::{Costs, least_choices};
pub use chosen::chosen_lengths;
pub use fewest::fewest_lengths;
pub use lengths::lengths_of;
