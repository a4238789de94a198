//! How the points of a grid follow one another, in steps from the first.

ghost use Rattle.std.specs.Prelude.{◌≤◌};

/// How the points of a grid follow one another: bits 3 and 4 of its scanning mode, and its size.
#[derive(Clone, Copy, Debug)]
pub(crate) struct StepOrder {
    pub(crate) by_columns: bool,
    pub(crate) alternates: bool,
    pub(crate) columns: u32,
    pub(crate) rows: u32,
    ghost some_columns: { 1 ≤ columns },
    ghost some_rows: { 1 ≤ rows },
}
