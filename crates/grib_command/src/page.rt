//! The pages that the program prints of itself.

ghost use Rattle.std.specs.Prelude.{◌≡◌};
ghost use Rattle.grib_command.specs.Pages.{text_of};

/// A text on the program, which needs no input.
#[derive(Clone, Copy, Debug, PartialEq, Eq)]
pub enum Page {
    /// The commands, each with the names of its arguments.
    Help,
    /// The version of the program.
    Version,
}

const HELP: &str = "\
grib check                                        lines on messages and input\n\
grib list [with=KEY,..] [names=FILE]              a line for each field\n\
grib keys [show=KEY,..] [names=FILE]              the keys of each field\n\
grib dump [decimals=0..18] [place=yes]            the points of each field\n\
grib values [as=f8|f4]                            fields as arrays of NumPy\n\
grib coordinates                                  places of points, likewise\n\
grib stats                                        counts and extremes of fields\n\
grib filter KEY=VALUE .. [name=N,.. names=FILE]   fields that have these values\n\
grib split out=NAME [editions=both]               fields as files NAME.1, NAME.2\n\
grib set KEY=VALUE .. [dates=valid]               new values of keys\n\
grib repack to=0|2|3|42|least [order=1|2]         fields packed anew\n\
grib migrate params=FILE [local=keep|ecmwf]       edition 1 to edition 2\n\
grib migrate .. [surfaces=FILE]                   names that say their level\n\
grib demote params=FILE [local=keep] [earth=any]  edition 2 to edition 1\n\
grib demote .. [tables=any]                       by records of any tables\n\
grib rescan                                       points in scanning mode 0\n\
grib crop i0=N i1=N j0=N j1=N                     a box of each grid\n\
grib crop north=D south=D west=D east=D           a box in degrees\n\
grib crop lat=D lon=D                             the nearest point\n\
grib compare with=FILE [sections=all] [quiet=yes] fields beside those of a file\n\
grib make seed=N ni=N nj=N to=0|2|3 [order=1|2]   a message made from a number\n\
grib help                                         this page\n\
grib version                                      the version of this program\n\
Further arguments, in any place:\n\
check to stats [refused=pass]                     goes on after what is refused\n\
filter to crop [refused=copy|pass]                the same, or copies it\n\
filter to crop [kept=copy|pass]                   goes on after what cannot be changed\n\
dump, values, coordinates [kept=pass]             the same\n\
check to compare [profile=open]                   any grid, product and packing\n\
Messages come from standard input and go to standard output. The pages: man grib\n\
";

const VERSION: &str = "grib 1.0.0-alpha\n";

impl Page {
    /// What is printed.
    pub fn text(self) -> &'static str
        ensures { result.now ≡ text_of self }
    {
        match self {
            Page::Help => HELP,
            Page::Version => VERSION,
        }
    }
}
