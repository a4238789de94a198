//! What the packed numbers of a group mean.

ghost use Rattle.std.specs.Prelude.{◌≡◌, ℕ, ◌+◌, ◌^◌, ◌<◌, ◌≤◌};
ghost use Rattle.grib_packing.specs.Groups.{code_of};
ghost use Rattle.grib_group_reading.specs.Taking.{code_by};

use grib_base::Code;
use grib_packing::{Group, Layout};

/// What the packed numbers of one group mean: a code, unless they are one of the marks. A mark that
/// no number is has all bits set.
#[derive(Clone, Copy, Debug)]
pub(crate) struct Coding {
    reference: u64,
    primary: u64,
    secondary: u64,
}

impl Coding {
    /// The meaning of the numbers of a group. A group of width 0 has the number 0 alone, and the
    /// reference says whether it is a mark.
    #[inline(always)]
    pub(crate) fn of(layout: &Layout, group: Group) -> Coding
        requires width { group.width ≤ 48 }
        requires bits { layout.now.reference_bits ≤ 48 }
        ensures codes { (n : ℕ) → n < 2 ^ group.width → code_by result n ≡ code_of layout.now group n }
        ensures reference { result.reference ≡ group.reference }
        ensures small { result.reference < 2 ^ 32 }
    {
        if group.width == 0 {
            return Coding::of_one(layout, group.reference);
        }
        let top = 1u64 << group.width;
        Coding {
            reference: u64::from(group.reference),
            primary: if layout.management == 0 {
                u64::MAX
            } else {
                top - 1
            },
            secondary: if layout.management == 2 {
                top - 2
            } else {
                u64::MAX
            },
        }
    }

    /// The meaning of the number 0 of a group of width 0 with this reference.
    fn of_one(layout: &Layout, reference: u32) -> Coding
        requires bits { layout.now.reference_bits ≤ 48 }
        ensures codes { code_by result 0 ≡ code_of layout.now (record { reference = reference; width = 0; count = 0 }) 0 }
        ensures reference { result.reference ≡ reference }
        ensures small { result.reference < 2 ^ 32 }
    {
        let top = 1u64 << layout.reference_bits;
        let reference = u64::from(reference);
        Coding {
            reference,
            primary: if layout.management != 0 && reference + 1 == top {
                0
            } else {
                u64::MAX
            },
            secondary: if layout.management == 2 && reference + 2 == top {
                0
            } else {
                u64::MAX
            },
        }
    }

    /// What the numbers of codes are below, where packed numbers have `width` bits.
    #[inline(always)]
    pub(crate) fn limit(self, width: u32) -> u64
        requires width { width ≤ 48 }
        requires small { self.reference < 2 ^ 32 }
        ensures { result ≡ self.reference + 2 ^ width }
    {
        self.reference + (1 << width)
    }

    /// The code of a packed number.
    #[inline(always)]
    pub(crate) fn code(self, number: u64) -> Code
        requires { self.reference + number < 2 ^ 64 }
        ensures { result ≡ code_by self number }
    {
        if number < self.primary.min(self.secondary) {
            Code::Present(self.reference + number)
        } else if number == self.primary {
            Code::Primary
        } else if number == self.secondary {
            Code::Secondary
        } else {
            Code::Present(self.reference + number)
        }
    }
}
