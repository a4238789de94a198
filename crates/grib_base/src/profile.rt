//! What is accepted beside the templates that are known.

/// Which grids, products and packings are accepted, as docs/PROFILE.md says.
#[derive(Clone, Copy, Debug, PartialEq, Eq)]
pub enum Profile {
    /// Those alone whose templates are stated there.
    Stated,
    /// Any: what has another template is opaque, and is copied as it stands.
    Open,
}
