//! The groups of a field, as their three lists.

ghost use Rattle.std.specs.Prelude.{◌≡◌, ◌^◌, ◌<◌, [], vec_len};
ghost use Rattle.grib_group_reading.specs.Table.{group_at, IsWhole};

use grib_packing::Group;
use std::alloc::Global;

/// The groups of a field. Their references, widths and lengths stand in three lists, as in Section 7.
#[derive(Debug, Drop)]
pub struct Table {
    pub references: Vec<u32>,
    pub widths: Vec<u8>,
    pub lengths: Vec<u32>,
}

impl Table {
    /// No group. It takes no memory.
    pub fn empty(alloc: Global) -> Table
        ensures references { result.references.items ≡ [] }
        ensures widths { result.widths.items ≡ [] }
        ensures lengths { result.lengths.items ≡ [] }
    {
        Table {
            references: Vec::new(alloc),
            widths: Vec::new(alloc),
            lengths: Vec::new(alloc),
        }
    }

    /// How many groups there are.
    #[inline]
    pub fn len(&self) -> usize
        ensures { result ≡ vec_len self.now.lengths }
    {
        self.lengths.len()
    }

    /// The group at an index.
    #[inline]
    pub fn group(&self, index: usize) -> Group
        requires whole { IsWhole self.now }
        requires within { index < vec_len self.now.lengths }
        ensures group { result ≡ group_at self.now index }
        ensures reference { result.reference < 2 ^ 32 }
    {
        Group {
            reference: self.references[index],
            width: self.widths[index],
            count: self.lengths[index],
        }
    }
}
