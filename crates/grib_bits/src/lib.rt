//! Fields of bits and of whole octets, as numbers with and without sign.
//!
//! A message of FM 92 GRIB is a string of octets. Bits are counted from the left, from the most
//! significant bit of the first octet on (WMO-No. 306, Volume I.2, FM 92 GRIB).
#![tactic(auto)]

mod adding;
mod copying;
mod field;
mod list;
mod number;
mod reading;
mod sign;
mod window;
mod writer;

pub use adding::{Number, add_numbers, add_section, add_section_head, add_section1, add_uint};
pub use copying::write_octets;
pub use field::{get_bits, number_in_word};
pub use list::{read_list, write_list};
pub use number::{write_number, write_u8, write_u16, write_u32};
pub use reading::{has_bit, u8_at, u16_at, u32_at, uint_at};
pub use sign::{raw_of, signed_of};
pub use window::BitWindow;
pub use writer::BitWriter;
