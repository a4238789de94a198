//! The commands by name.

ghost use Rattle.std.specs.Prelude.{◌≡◌};
ghost use Rattle.grib_words.specs.Reading.{command_named, name_of, reads_input};

/// What a command line can ask for, by its first argument.
#[derive(Clone, Copy, Debug, PartialEq, Eq)]
pub enum Command {
    Check,
    List,
    Keys,
    Stats,
    Dump,
    Values,
    Coordinates,
    Filter,
    Split,
    Set,
    Repack,
    Migrate,
    Demote,
    Rescan,
    Crop,
    Compare,
    Make,
    Help,
    Version,
}

impl Command {
    /// The command of this name, `None` where there is none.
    pub fn named(word: &str) -> Option<Command>
        ensures { result ≡ command_named word.now }
    {
        match word {
            "check" => Some(Command::Check),
            "list" => Some(Command::List),
            "keys" => Some(Command::Keys),
            "stats" => Some(Command::Stats),
            "dump" => Some(Command::Dump),
            "values" => Some(Command::Values),
            "coordinates" => Some(Command::Coordinates),
            "filter" => Some(Command::Filter),
            "split" => Some(Command::Split),
            "set" => Some(Command::Set),
            "repack" => Some(Command::Repack),
            "migrate" => Some(Command::Migrate),
            "demote" => Some(Command::Demote),
            "rescan" => Some(Command::Rescan),
            "crop" => Some(Command::Crop),
            "compare" => Some(Command::Compare),
            "make" => Some(Command::Make),
            "help" | "--help" => Some(Command::Help),
            "version" | "--version" => Some(Command::Version),
            _ => None,
        }
    }

    /// The name of the command.
    pub fn name(self) -> &'static str
        ensures { result.now ≡ name_of self }
    {
        match self {
            Command::Check => "check",
            Command::List => "list",
            Command::Keys => "keys",
            Command::Stats => "stats",
            Command::Dump => "dump",
            Command::Values => "values",
            Command::Coordinates => "coordinates",
            Command::Filter => "filter",
            Command::Split => "split",
            Command::Set => "set",
            Command::Repack => "repack",
            Command::Migrate => "migrate",
            Command::Demote => "demote",
            Command::Rescan => "rescan",
            Command::Crop => "crop",
            Command::Compare => "compare",
            Command::Make => "make",
            Command::Help => "help",
            Command::Version => "version",
        }
    }

    /// Whether it reads messages from the input.
    pub fn reads_input(self) -> bool
        ensures { result ≡ reads_input self }
    {
        !matches!(self, Command::Make | Command::Help | Command::Version)
    }
}
