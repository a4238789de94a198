//! What is done with an input: its messages are answered one after another.
#![tactic(auto)]

mod answering;
mod closing;
mod comparing;
mod ending;
mod making;
mod reading;
mod serving;

pub use answering::answer_message;
pub use closing::{close, close_with_note};
pub use grib_base::Profile;
pub use grib_command::{
    Answered, Answerer, ByOutput, Changes, Changes1, Conditions, Conditions1, Ending, Job, Name,
    Page,
};
pub use grib_dates::Dates;
pub use grib_dispatch::{Answering, Held};
pub use grib_items::{Instead, Policy};
pub use grib_repack::RepackTarget;
pub use grib_report::Checking;
pub use grib_rescan::Area;
pub use grib_select::{Change, Choice, Choices, Key, Test, Value, Wanted};
pub use grib_stream::{Cause, Kept, Outcome, Place, Totals};
pub use grib_text::{Column, Columns, LineForm};
pub use grib1_select::{Change1, Wanted1};
pub use making::write_noted;
pub use serving::{end_at_once, end_without_memory, serve, serve_under};
