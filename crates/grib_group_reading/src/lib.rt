//! What is read of groups: their lists and the codes of their values, as the octets of Section 7 come (templates 7.2 and
//! 7.3).
#![tactic(auto)]

mod code_run;
mod coding;
mod feeding;
mod list_feeding;
mod lists;
mod numbers;
mod run;
mod table;
mod taker;

pub use code_run::CodeRun;
pub use feeding::{Fed, part_of, rest_of};
pub use list_feeding::FedLists;
pub use lists::{
    Lengths, Lists, References, Widths, lists_fit, octets_of, octets_of_lists, plain_layout,
};
pub use table::Table;
pub use taker::{RunTaker, Taker, take_each};
