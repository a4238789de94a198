//! Which targets stand for a parameter.

ghost use Rattle.std.specs.Prelude.{◌≡◌};
ghost use Rattle.grib_params.specs.Pairs as pairs;

use crate::row::Target;

/// The versions of the master and the local tables that a target needs to have to stand for a parameter
/// (Section 1, octets 10 and 11).
#[derive(Clone, Copy, Debug, PartialEq, Eq)]
pub enum TableMatch {
    /// Those of the parameter.
    Same,
    /// Any. From 192 on a category or a number is for local use (code tables 4.1 and 4.2): there the local
    /// tables have to be those of the parameter, and the master tables may be any.
    Any,
}

impl TableMatch {
    /// Whether a target stands for a parameter.
    pub(crate) fn matches(self, parameter: &Target, target: &Target) -> bool
        ensures { result ≡ pairs.matches self parameter.now target.now }
    {
        match self {
            TableMatch::Same => same_target(parameter, target),
            TableMatch::Any => {
                same_parameter(parameter, target)
                    && (!is_local(parameter) || parameter.local == target.local)
            }
        }
    }
}

/// Whether two targets are one.
fn same_target(a: &Target, b: &Target) -> bool
    ensures { result ≡ pairs.same_target a.now b.now }
{
    a.discipline == b.discipline
        && a.category == b.category
        && a.number == b.number
        && a.master == b.master
        && a.local == b.local
}

/// Whether two targets have the same discipline, category and number.
fn same_parameter(a: &Target, b: &Target) -> bool
    ensures { result ≡ pairs.same_parameter a.now b.now }
{
    a.discipline == b.discipline && a.category == b.category && a.number == b.number
}

/// Whether the category or the number is for local use.
fn is_local(target: &Target) -> bool
    ensures { result ≡ pairs.is_local target.now }
{
    target.category >= 192 || target.number >= 192
}
