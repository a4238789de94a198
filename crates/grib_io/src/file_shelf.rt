//! A shelf of files.

ghost use Rattle.std.specs.Prelude.{◌≡◌, ◌↔◌, IfErr, MatchResult, OnErr, OnOk};
ghost use Rattle.std.specs.IoError.{error_kind};
ghost use Rattle.std.specs.declared.io.ErrorKind.TheVariants.{NotFound};
ghost use Rattle.std.specs.Io.{ReadsAtMost};
ghost use Rattle.std.specs.Io.KnownBytes.{Appends};
ghost use Rattle.grib_io.specs.Outside.{AppendsFront, CountsStop, CountsStops};
ghost use Rattle.grib_io.specs.Shelves.{AddsPiece, CountsShelfRead, CountsShelfStop, Makes, OthersStay, ReadsAt, Stays, Turns};
ghost use Rattle.grib_io.specs.Memory.{next_count, next_count_after};

use crate::folder::{Folder, OpenedFile};
use crate::outside::{Shelf, ShelfStop, Stop};
use crate::system_folder::SystemFolder;
use std::alloc::Global;
use std::fs::OpenOptions;
use std::io::{self, ErrorKind};
use std::marker::Model;
use std::rt::Files;

/// A shelf whose names are those of the files of a folder. Each error of the folder is a fault, an
/// interruption too, and so is a write of nothing; only where a file that is opened to be read is not found, its
/// name is absent. It tells what the folder tells.
#[derive(Debug, Drop)]
pub struct FileShelf<D> {
    folder: D,
    faults: u64,
    /// Where names of files that fail are kept.
    names: Option<Global>,
    failure: Option<Failure>,
}

/// What failed first.
#[derive(Debug, Drop)]
struct Failure {
    error: io::Error,
    /// The name of the file, where names are kept and there is memory for it.
    name: Option<String>,
}

impl<D> Model for FileShelf<D> {
    ghost use Rattle.grib_io.specs.Adapters.{CountedFolder};

    ghost Value = { CountedFolder D };

    ghost view = { λ shelf. record { folder = shelf.folder; faults = shelf.faults } };
}

impl<R: Files + Drop> FileShelf<SystemFolder<R>> {
    /// A shelf of the files of this runtime, without a fault so far. It takes no memory.
    pub fn new(rt: R) -> FileShelf<SystemFolder<R>>
        ensures { result.faults ≡ 0 }
    {
        FileShelf::over(SystemFolder::new(rt))
    }
}

impl<D: Folder> FileShelf<D> {
    /// A shelf of the files of this folder, without a fault so far. It takes no memory.
    pub fn over(folder: D) -> FileShelf<D>
        ensures { result ≡ record { folder = folder; faults = 0 } }
    {
        FileShelf {
            folder,
            faults: 0,
            names: None,
            failure: None,
        }
    }

    /// The shelf, which keeps the name of the file that fails first.
    pub fn with_names(self, alloc: Global) -> FileShelf<D>
        ensures { result ≡ self }
    {
        FileShelf {
            names: Some(alloc),
            ..self
        }
    }

    /// The error that was the first fault, for its text.
    pub fn error(&self) -> Option<io::Error> {
        Some(self.failure.as_ref()?.error)
    }

    /// The name of the file that failed first, where names are kept.
    pub fn failed_name(&self) -> Option<&str> {
        Some(self.failure.as_ref()?.name.as_ref()?.as_str())
    }

    /// Keeps what failed first.
    fn keep_failure(&mut self, name: &str, error: io::Error)
        ensures { self.new ≡ self.old }
    {
        if self.failure.is_some() {
            return;
        }
        let name = match self.names {
            Some(alloc) => String::from_str(alloc, name).ok(),
            None => None,
        };
        self.failure = Some(Failure { error, name });
    }

    /// Counts a fault of the file of this name.
    fn fail(&mut self, name: &str, error: io::Error) -> Stop
        ensures answer { result ≡ Stop.Failed }
        ensures shelf { self.new ≡ record self.old { faults = next_count self.old.faults } }
        ensures counted { CountsStop result self.old.faults self.new.faults }
    {
        self.keep_failure(name, error);
        self.faults = self.faults.saturating_add(1);
        Stop::Failed
    }

    /// Counts the fault of a read.
    fn fail_to_read(&mut self, name: &str, error: io::Error) -> ShelfStop
        ensures answer { result ≡ ShelfStop.Failed }
        ensures shelf { self.new ≡ record self.old { faults = next_count self.old.faults } }
        ensures counted { CountsShelfStop result self.old.faults self.new.faults }
    {
        self.fail(name, error);
        ShelfStop::Failed
    }

    /// Why a file could not be opened to be read: its name is absent exactly where it is not found.
    fn unopened(&mut self, name: &str, error: io::Error) -> ShelfStop
        ensures absent { result ≡ ShelfStop.Absent ↔ error_kind error ≡ NotFound }
        ensures shelf { self.new ≡ record self.old { faults = next_count_after result self.old.faults } }
        ensures counted { CountsShelfStop result self.old.faults self.new.faults }
    {
        if error.kind() == ErrorKind::NotFound {
            return ShelfStop::Absent;
        }
        self.fail_to_read(name, error)
    }
}

impl<D: Folder> Shelf for FileShelf<D> {
    ghost contents = { λ shelf. D.held shelf.folder };

    ghost faults = { λ shelf. shelf.faults };

    fn read_at(&mut self, name: &str, offset: u64, into: &mut [u8]) -> Result<usize, ShelfStop>
        ensures bound { ReadsAtMost result into.new }
        ensures octets { ReadsAt (D.held self.old.folder) name.now offset result into.new }
        ensures kept { Stays (D.held self.old.folder) (D.held self.new.folder) }
        ensures counted { CountsShelfRead result self.old.faults self.new.faults }
        ensures faults { MatchResult result (λ _. self.new.faults ≡ self.old.faults)
            (λ stop. self.new.faults ≡ next_count_after stop self.old.faults) }
    {
        let mut file = match self.folder.open(OpenOptions::new().read(true), name) {
            Ok(file) => file,
            Err(error) => return Err(self.unopened(name, error)),
        };
        match file.read_at(offset, into) {
            Ok(count) => Ok(count),
            Err(error) => Err(self.fail_to_read(name, error)),
        }
    }

    fn make(&mut self, name: &str) -> Result<(), Stop>
        ensures octets { Turns (D.held self.old.folder) (D.held self.new.folder) name.now (Makes result) }
        ensures others { OthersStay (D.held self.old.folder) (D.held self.new.folder) name.now }
        ensures counted { CountsStops result self.old.faults self.new.faults }
        ensures stop { IfErr result (λ stop. stop ≡ Stop.Failed) }
        ensures faults { MatchResult result (λ _. self.new.faults ≡ self.old.faults)
            (λ _. self.new.faults ≡ next_count self.old.faults) }
    {
        let opened = self.folder.open(
            OpenOptions::new().write(true).create(true).truncate(true),
            name,
        );
        match opened {
            Ok(_) => Ok(()),
            Err(error) => Err(self.fail(name, error)),
        }
    }

    fn append(&mut self, name: &str, piece: &[u8]) -> Result<(), Stop>
        ensures octets { Turns (D.held self.old.folder) (D.held self.new.folder) name.now
            (AddsPiece result piece.now) }
        ensures others { OthersStay (D.held self.old.folder) (D.held self.new.folder) name.now }
        ensures counted { CountsStops result self.old.faults self.new.faults }
        ensures stop { IfErr result (λ stop. stop ≡ Stop.Failed) }
        ensures faults { MatchResult result (λ _. self.new.faults ≡ self.old.faults)
            (λ _. self.new.faults ≡ next_count self.old.faults) }
    {
        let opened = self
            .folder
            .open(OpenOptions::new().append(true).create(true), name);
        let mut file = match opened {
            Ok(file) => file,
            Err(error) => return Err(self.fail(name, error)),
        };
        let written = write_piece(&mut file, piece);
        self.folder.close(name, file);
        match written {
            Ok(()) => Ok(()),
            Err(error) => Err(self.fail(name, error)),
        }
    }
}

/// Adds a whole piece to a file. Nothing is tried twice, and a write of nothing is an error. Where the piece is
/// not added whole, some front of it is.
fn write_piece<F: OpenedFile>(file: &mut F, piece: &[u8]) -> io::Result<()>
    ensures whole { OnOk result (Appends (F.octets file.old) (F.octets file.new) piece.now) }
    ensures front { OnErr result (AppendsFront (F.octets file.old) (F.octets file.new) piece.now) }
{
    let mut written = 0;
    while written < piece.len() {
        let count = file.add(&piece[written..])?;
        if count == 0 {
            return Err(io::Error::from(ErrorKind::WriteZero));
        }
        written += count;
    }
    Ok(())
}
