//! What the system says of a device that failed.

use std::alloc::{AllocError, Global};
use std::io::{self, ErrorKind};

/// What a text of the system ends with: the number of the error, which says no more than the text.
const NUMBER: &str = " (os error ";

/// Writes a line to standard error, `grib: ` with the device and what the system says, where a device failed. Nothing is
/// said of a pipe whose reader is gone. Where the line cannot be written, the status alone says so.
pub fn tell_failure(rt: &HostRuntime, device: &str, error: Option<io::Error>) {
    let Some(error) = error else {
        return;
    };
    if error.kind() == ErrorKind::BrokenPipe {
        return;
    }
    if let Ok(text) = text_of(rt.alloc(), &error) {
        let _told = eprintln!(rt; "grib: {device}: {text}");
    }
}

/// What the system says of an error.
fn text_of(alloc: Global, error: &io::Error) -> Result<String, AllocError> {
    let mut text = error.to_string(alloc)?;
    if let Some(end) = text.as_str().find(NUMBER) {
        text.truncate(end);
    }
    Ok(text)
}
