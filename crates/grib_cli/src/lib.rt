//! The top call of the command `grib`: from the arguments and the input to the output, the notes and the files.
#![tactic(auto)]

mod running;

pub use grib_words::{JobFault, job_of, policy_of, profile_of};
pub use running::run;
