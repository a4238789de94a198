//! The definitions tried on a worked list.

ghost use Rattle.std.specs.Prelude.{◌≡◌, length};
ghost use Rattle.grib_coding.specs.Reading.{decoded, read_as};
ghost use Rattle.grib_coding.specs.Streams.{coding};
ghost use Rattle.grib_coding.specs.Written.{written};
ghost use Rattle.grib_fewest.specs.Lists.{list_bits};
ghost use Rattle.grib_fewest.specs.Worked.{past_numbers, past_items};

/// A run past its segment can have fewer bits than the two runs that are written, by one here. So the law asks for lists
/// in which none goes past it.
pub fn a_run_past_its_segment()
    ensures read { decoded (coding 1 16 8 128) 536 (list_bits (coding 1 16 8 128) past_items) ≡ read_as (coding 1 16 8 128) past_numbers }
    ensures bits { length (list_bits (coding 1 16 8 128) past_items) ≡ 79 }
    ensures written_bits { length (written (coding 1 16 8 128) past_numbers) ≡ 80 }
{}
