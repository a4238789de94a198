//! Laws over the definitions.

ghost use Rattle.std.specs.Prelude.{◌≡◌, ℕ, ◌+◌, ◌≤◌, ◌++◌, Bool, List, length, drop};
ghost use Rattle.grib_bits.specs.Bits.{bits};
ghost use Rattle.grib_base.specs.declared.code.Code as code_io;
ghost use Rattle.grib_packing.specs.declared.layout.Layout as layout_packing;
ghost use Rattle.grib_packing.specs.Packed.{group_parts};
ghost use Rattle.grib_groups.specs.Encoding.{LaysOut, ReadsBack};

/// What is written as groups reads back: a Section 7 that has the parts of some codes after `skip` octets of
/// extra descriptors, whatever follows, is accepted and has these codes.
pub fn what_is_written_reads_back()
    ensures { (layout : layout_packing.Layout) (codes : List code_io.Code) (lengths : List ℕ) (s7 : List ℕ) (skip : ℕ) (after : List Bool)
        → LaysOut layout codes lengths → 5 + skip ≤ length s7
        → bits (drop (5 + skip) s7) ≡ group_parts layout.management codes lengths ++ after
        → ReadsBack layout s7 skip codes }
{}
