//! Points of two fields decided in 128 bits, without memory.

ghost use Rattle.std.specs.Prelude.{◌≡◌, ◌<◌, ◌≤◌, ◌^◌, nat_abs};

/// The points with the scaled numbers X of a field have the whole numbers `origin + X * stride`.
#[derive(Clone, Copy, Debug)]
pub(crate) struct Line {
    pub(crate) origin: i128,
    pub(crate) stride: i64,
    ghost origin_small: { nat_abs origin < 2 ^ 126 },
}

/// Two points have the same value exactly where their whole numbers are equal.
#[derive(Clone, Copy, Debug)]
pub(crate) struct Quick {
    pub(crate) left: Line,
    pub(crate) right: Line,
}
