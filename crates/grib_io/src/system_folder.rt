//! The files of a runtime of std.

ghost use Rattle.std.specs.Prelude.{◌≡◌, ◌≢◌, IfErr, None};
ghost use Rattle.std.specs.IoError.{error_kind};
ghost use Rattle.std.specs.declared.io.ErrorKind.TheVariants.{NotFound};
ghost use Rattle.std.specs.Io.{ReadsAtMost, WritesAtMost};
ghost use Rattle.std.specs.Io.KnownBytes.{WriteAppends};
ghost use Rattle.grib_io.specs.Folders.{ReadsPlaced};

use crate::folder::{Folder, OpenedFile};
use std::fs::{OpenOptions, symlink_metadata};
use std::io::{self, ErrorKind, Read, Seek, SeekFrom, Write};
use std::rt::Files;

/// An open file of std. It tells nothing of what it holds, since no clause of std says what the files that a
/// runtime opens hold. What it asks of the file is said by the file's own views: where a read was sought to, and what
/// was written.
#[derive(Debug, Drop)]
pub struct SystemFile<F> {
    file: F,
}

impl<F: Read + Write + Seek> OpenedFile for SystemFile<F> {
    ghost octets = { λ _. None };

    fn read_at(&mut self, offset: u64, into: &mut [u8]) -> io::Result<usize>
        ensures bound { ReadsAtMost result into.new }
        ensures placed { ReadsPlaced F.stream_position F.stream_bytes F.remaining self.old.file
            self.new.file offset result into.new }
    {
        read_from(&mut self.file, offset, into)
    }

    fn add(&mut self, piece: &[u8]) -> io::Result<usize>
        ensures bound { WritesAtMost result piece.now }
        ensures written { WriteAppends (F.contents self.old.file) (F.contents self.new.file)
            result piece.now }
    {
        self.file.write(piece)
    }
}

/// The files of a runtime of std, whose names are paths. It tells nothing of what they hold, since no clause of
/// std says what a file system holds. A file that is not to be read is to be opened to append, or empty. It is
/// opened only where its name is absent or stands for a regular file: a link, a device, a pipe or a folder is
/// refused as one that already exists, so that nothing is written through or into it.
#[derive(Debug, Drop)]
pub struct SystemFolder<R> {
    files: R,
}

impl<R: Files + Drop> SystemFolder<R> {
    /// The files of this runtime. It takes no memory.
    pub fn new(files: R) -> SystemFolder<R> {
        SystemFolder { files }
    }
}

impl<R: Files + Drop> Folder for SystemFolder<R> {
    type File = SystemFile<R::File>;

    ghost held = { λ _. None };

    fn open(&mut self, how: &OpenOptions, name: &str) -> io::Result<SystemFile<R::File>> {
        if !how.asks_read() {
            refuse_irregular(&self.files, name)?;
        }
        let file = how.open(&self.files, name)?;
        Ok(SystemFile { file })
    }

    fn close(&mut self, _name: &str, _file: SystemFile<R::File>) {}
}

/// Refuses a name that stands for something else than a regular file, and one of which that cannot be told. A link
/// is not followed. What takes the name between this look and the opening is not seen.
fn refuse_irregular<R: Files>(files: &R, name: &str) -> io::Result<()>
    ensures { IfErr result (λ error. error_kind error ≢ NotFound) }
{
    match symlink_metadata(files, name) {
        Ok(metadata) if metadata.is_file() => Ok(()),
        Ok(_) => Err(io::Error::new(ErrorKind::AlreadyExists, "not a regular file")),
        Err(error) if error.kind() == ErrorKind::NotFound => Ok(()),
        Err(error) => Err(error),
    }
}

/// Reads octets of a file from the offset on, once.
fn read_from<F: Read + Seek>(file: &mut F, offset: u64, into: &mut [u8]) -> io::Result<usize>
    ensures bound { ReadsAtMost result into.new }
    ensures placed { ReadsPlaced F.stream_position F.stream_bytes F.remaining file.old file.new
        offset result into.new }
{
    file.seek(SeekFrom::Start(offset))?;
    file.read(into)
}
