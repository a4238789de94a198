//! The octets under a name are read, and read as a file.

ghost use Rattle.grib_io.specs.Shelves.{Stays};
ghost use Rattle.grib_file.specs.Read.{CountsFile, ReadsFile};

use crate::file::GribFile;
use crate::finding::file_of;
use crate::stop::FileStop;
use grib_base::Profile;
use grib_io::{Shelf, octets_under};
use std::alloc::Global;

/// Reads the file that stands on the shelf under this name. Its messages are found as those of an input: what stands
/// before, between and behind them is skipped. Those of edition 2 are read by the profile. The shelf keeps what it holds.
///
/// # Errors
///
/// The name is absent, a message is refused, the shelf failed, or there is no memory.
pub fn read_file<H: Shelf>(
    alloc: Global,
    profile: Profile,
    name: &str,
    shelf: &mut H,
) -> Result<GribFile, FileStop>
    ensures read { ReadsFile result profile (H.contents shelf.old) name.now }
    ensures kept { Stays (H.contents shelf.old) (H.contents shelf.new) }
    ensures counted { CountsFile result (H.faults shelf.old) (H.faults shelf.new) }
{
    let octets = octets_under(alloc, name, None, shelf)?;
    let file = file_of(alloc, profile, octets)?;
    Ok(file)
}
