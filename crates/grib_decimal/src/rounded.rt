/// A rounded number: its sign and its magnitude.
#[derive(Clone, Copy, Debug)]
pub(crate) struct Rounded {
    pub(crate) negative: bool,
    pub(crate) number: u128,
}
