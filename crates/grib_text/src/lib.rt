//! The lines that the program prints.
#![tactic(auto)]

mod cell;
mod column;
mod counts;
mod edition1;
mod fields;
mod first;
mod lining;
mod listed;
mod missing;
mod named;
mod notes;
mod points;
mod products;
mod references;
mod second;
mod stats;
mod times;
mod values;

pub use column::{Column, Columns, LineForm};
pub use counts::{check_line, total_line};
pub use edition1::list_line1;
pub use first::keys_line1;
pub use lining::Lining;
pub use listed::{list_line, summary_line};
pub use named::{field_name, has_field_name};
pub use notes::{refusal_note, refused_line};
pub use points::{append_point_line, point_line};
pub use references::reference_line;
pub use second::keys_line;
pub use stats::stats_line;
pub use values::append_value_line;
