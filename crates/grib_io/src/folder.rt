//! Files that are opened under names, as a file system opens them.

ghost use Rattle.std.specs.Prelude.{◌≡◌, List, ℕ};
ghost use Rattle.std.specs.declared.option.Option.{Option};
ghost use Rattle.std.specs.Io.{ReadsAtMost, WritesAtMost};
ghost use Rattle.std.specs.Io.KnownBytes.{Keeps, WriteAppends};
ghost use Rattle.grib_io.specs.Shelves.{Held};
ghost use Rattle.grib_io.specs.Folders.{Changes, OpensName, ReadsOctets};

use std::fs::OpenOptions;
use std::io;

/// An open file.
pub trait OpenedFile {
    /// What the file holds, where it tells it.
    ghost octets: { Self → Option (List ℕ) };

    /// Copies octets from the offset on to the front of `into`, and answers how many. It answers 0 for an
    /// `into` that is not empty exactly where the offset is at or past the end. It changes nothing.
    fn read_at(&mut self, offset: u64, into: &mut [u8]) -> io::Result<usize>
        ensures bound { ReadsAtMost result into.new }
        ensures octets { ReadsOctets (octets self.old) offset result into.new }
        ensures kept { Keeps (octets self.old) (octets self.new) };

    /// Adds the first octets of `piece` at the end, and answers how many. A refused call adds nothing.
    fn add(&mut self, piece: &[u8]) -> io::Result<usize>
        ensures bound { WritesAtMost result piece.now }
        ensures octets { WriteAppends (octets self.old) (octets self.new) result piece.now };
}

/// Where files are opened under names.
pub trait Folder {
    /// An open file. What is added to it stands under its name when it is closed.
    type File: OpenedFile + Drop;

    /// What stands under each name, where the folder tells it.
    ghost held: { Self → Option Held };

    /// Opens the file of a name: makes it where that is asked for and the name is absent, and empties it
    /// where that is. All other names stay as they are.
    fn open(&mut self, how: &OpenOptions, name: &str) -> io::Result<Self::File>
        ensures { Changes (held self.old) (held self.new) name.now
            (OpensName Self.File.octets how.now result) };

    /// Closes a file that was opened under this name.
    fn close(&mut self, name: &str, file: Self::File)
        ensures { Changes (held self.old) (held self.new) name.now
            (λ _ now. now ≡ Self.File.octets file) };
}
