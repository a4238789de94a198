//! Whole numbers of any size, as sums of two parts.

ghost use Rattle.std.specs.Prelude.{◌≢◌, ◌^◌, ◌≤◌, pos};

/// A whole number.
#[derive(Clone, Copy, Debug, PartialEq, Eq)]
pub enum Number {
    Near(i128),
    Far(FarSum),
}

/// The number `high * 2 ^ gap + low`.
#[derive(Clone, Copy, Debug, PartialEq, Eq)]
pub struct FarSum {
    pub(crate) high: i64,
    pub(crate) gap: u32,
    pub(crate) low: i64,
    ghost some: { high ≢ pos 0 },
    ghost far: { 64 ≤ gap },
    ghost few: { gap ≤ 2 ^ 17 },
}
