//! Numbers and sections that are added behind other octets.

ghost use Rattle.std.specs.Prelude.{◌≡◌, ◌-◌, ◌^◌, ◌<◌, ◌≤◌, ◌++◌, length, OnOk};
ghost use Rattle.grib_bits.specs.Encoding.{octets_of, number_octets, all_octets, section_head, section_of, section1_of};

use std::alloc::AllocError;

/// A number by how many octets it has.
#[derive(Clone, Copy, Debug)]
pub enum Number {
    /// Of one octet.
    One(u8),
    /// Of two octets, the last two of a greater number.
    Two(u32),
    /// Of three octets, the last three of a greater number.
    Three(u32),
    /// Of four octets.
    Four(u32),
}

/// Adds the last `size` octets of a number, the most significant first.
pub fn add_uint(value: u64, size: usize, out: &mut Vec<u8>) -> Result<(), AllocError>
    requires { size ≤ 8 }
    ensures { OnOk result (out.new.items ≡ out.old.items ++ octets_of size value) }
{
    let octets = value.to_be_bytes();
    out.extend_from_slice(&octets[8 - size..])?;
    Ok(())
}

/// Adds a number, its most significant octet first.
fn add_number(number: Number, out: &mut Vec<u8>) -> Result<(), AllocError>
    ensures { OnOk result (out.new.items ≡ out.old.items ++ number_octets number) }
{
    match number {
        Number::One(value) => add_uint(u64::from(value), 1, out),
        Number::Two(value) => add_uint(u64::from(value), 2, out),
        Number::Three(value) => add_uint(u64::from(value), 3, out),
        Number::Four(value) => add_uint(u64::from(value), 4, out),
    }
}

/// Adds numbers, one after another.
pub fn add_numbers(numbers: &[Number], out: &mut Vec<u8>) -> Result<(), AllocError>
    ensures { OnOk result (out.new.items ≡ out.old.items ++ all_octets numbers.now) }
{
    for number in numbers {
        add_number(*number, out)?;
    }
    Ok(())
}

/// Adds the length and the number of a section of edition 2 with this many octets of contents.
pub fn add_section_head(number: u8, contents: usize, out: &mut Vec<u8>) -> Result<(), AllocError>
    requires { contents < 2 ^ 32 - 5 }
    ensures { OnOk result (out.new.items ≡ out.old.items ++ section_head number contents) }
{
    add_uint(5 + contents as u64, 4, out)?;
    out.push(number)?;
    Ok(())
}

/// Adds the section of edition 2 with this number and these contents.
pub fn add_section(number: u8, contents: &[u8], out: &mut Vec<u8>) -> Result<(), AllocError>
    requires { length contents.now < 2 ^ 32 - 5 }
    ensures { OnOk result (out.new.items ≡ out.old.items ++ section_of number contents.now) }
{
    add_section_head(number, contents.len(), out)?;
    out.extend_from_slice(contents)
}

/// Adds the section of edition 1 with these contents.
pub fn add_section1(contents: &[u8], out: &mut Vec<u8>) -> Result<(), AllocError>
    ensures { OnOk result (out.new.items ≡ out.old.items ++ section1_of contents.now) }
{
    add_uint(3 + contents.len() as u64, 3, out)?;
    out.extend_from_slice(contents)
}
