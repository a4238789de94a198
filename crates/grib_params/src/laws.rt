//! What the definitions say of texts that are written out.

ghost use Rattle.std.specs.Prelude.{◌≡◌, ℕ, List, ◌∷◌, ◌++◌, [], Some, None, codes};
ghost use Rattle.grib_params.specs.Fields.{Field, number_in, rows_of};
ghost use Rattle.grib_params.specs.declared.surface_row.SurfaceTarget.{SurfaceTarget};
ghost use Rattle.grib_params.specs.SurfaceRows.{surface_rows_of};
ghost use Rattle.grib_params.specs.Surfaces as surfaces;
ghost use Rattle.grib_params.specs.Surfaces.{SurfaceEntries, surface_at, surface_in, surface_verdict};
ghost use Rattle.grib_params.specs.Table.{Duplicate, Entries, Good, Row, Verdict, lookup_in, table_verdict};

/// Where a text is a table, a look-up in the table finds what it finds in the rows of the text, one record
/// after another.
pub fn a_table_has_the_rows_of_its_text()
    ensures { (text : List ℕ) (table : Entries) → table_verdict text ≡ Good table
        → (centre version parameter : ℕ)
        → lookup_in table centre version parameter ≡ lookup_in (rows_of text) centre version parameter }
{}

/// And where a text is a table of surfaces.
pub fn a_table_of_surfaces_has_the_rows_of_its_text()
    ensures { (text : List ℕ) (table : SurfaceEntries) → surface_verdict text ≡ surfaces.Good table
        → (centre version parameter kind level : ℕ) → surface_in table centre version parameter kind level
        ≡ surface_in (surface_rows_of text) centre version parameter kind level }
{}

/// A number has one spelling, so two records have the same first three fields exactly where they are kept
/// under the same key.
pub fn a_number_has_one_spelling()
    ensures { (first second : Field) (number : ℕ) → number_in first ≡ Some number
        → number_in second ≡ Some number → first ≡ second }
{}

/// Texts that are tables. Numbers are read from their octets; a byte order mark, quotes round a field,
/// empty lines, and which end of line a record has, if any, make no difference. A text with no record is
/// a table.
pub fn tables_are_read()
    ensures plain { table_verdict (codes "98,2,11,0,0,1,2,0\n")
        ≡ Good (((Some 98, 2, 11), record { discipline = 0; category = 0; number = 1; master = 2; local = 0 }) ∷ []) }
    ensures unended { table_verdict (codes "98,2,11,0,0,1,2,0")
        ≡ table_verdict (codes "98,2,11,0,0,1,2,0\n") }
    ensures returned { table_verdict (codes "98,2,11,0,0,1,2,0\r\n")
        ≡ table_verdict (codes "98,2,11,0,0,1,2,0\n") }
    ensures marked { table_verdict (239 ∷ 187 ∷ 191 ∷ codes "98,2,11,0,0,1,2,0\n")
        ≡ table_verdict (codes "98,2,11,0,0,1,2,0\n") }
    ensures quoted { table_verdict (codes "\"98\",2,11,0,0,\"1\",2,0\n")
        ≡ table_verdict (codes "98,2,11,0,0,1,2,0\n") }
    ensures spaced { table_verdict (codes "\n\r\n98,2,11,0,0,1,2,0\n\n")
        ≡ table_verdict (codes "98,2,11,0,0,1,2,0\n") }
    ensures none { table_verdict [] ≡ Good [] }
{}

/// Texts that are no tables, with the first record at fault.
pub fn others_are_refused()
    ensures repeated { table_verdict (codes "98,2,11,0,0,0,2,0\n98,2,11,0,0,0,2,0\n") ≡ Duplicate 2 }
    ensures repeated_all { table_verdict (codes "*,2,11,0,0,0,2,0\n98,2,11,0,0,0,2,0\n*,2,11,1,1,1,1,1\n") ≡ Duplicate 3 }
    ensures repeated_badly { table_verdict (codes "98,2,11,0,0,0,2,0\n98,2,11,0,0,0,2,x\n") ≡ Row 2 }
    ensures large { table_verdict (codes "98,2,256,0,0,0,2,0\n") ≡ Row 1 }
    ensures zeros { table_verdict (codes "98,2,007,0,0,0,2,0\n") ≡ Row 1 }
    ensures short { table_verdict (codes "98,2\n") ≡ Row 1 }
    ensures long { table_verdict (codes "98,2,11,0,0,0,2,0,\n") ≡ Row 1 }
    ensures star { table_verdict (codes "98,*,11,0,0,0,2,0\n") ≡ Row 1 }
    ensures space { table_verdict (codes "98, 2,11,0,0,0,2,0\n") ≡ Row 1 }
    ensures sign { table_verdict (codes "98,+2,11,0,0,0,2,0\n") ≡ Row 1 }
    ensures none { table_verdict (codes "98,,11,0,0,0,2,0\n") ≡ Row 1 }
    ensures empty_lines { table_verdict (codes "\n98,2,11,0,0,0,2,0\n\n\nname\n") ≡ Row 2 }
    ensures last { table_verdict (codes "98,2,11,0,0,0,2,0\n98,2,12") ≡ Row 2 }
{}

/// Texts that are tables of surfaces: `*` stands for every centre and every level, `-` for a missing scale
/// factor and a missing value.
pub fn surfaces_are_read()
    ensures plain { surface_verdict (codes "98,128,167,1,0,0,0,0,2,0,103,0,2\n")
        ≡ surfaces.Good ((
          ((Some 98, 128, 167), 1, Some 0),
          record {
            target = record { discipline = 0; category = 0; number = 0; master = 2; local = 0 };
            kind = 103;
            scale_factor = 0;
            scaled_value = 2;
          },
        ) ∷ []) }
    ensures every { surface_verdict (codes "*,128,134,1,*,0,3,0,2,0,1,-,-\n")
        ≡ surfaces.Good ((
          ((None, 128, 134), 1, None),
          record {
            target = record { discipline = 0; category = 3; number = 0; master = 2; local = 0 };
            kind = 1;
            scale_factor = 255;
            scaled_value = 4294967295;
          },
        ) ∷ []) }
    ensures large { surface_verdict (codes "98,128,49,105,65535,0,2,22,2,0,103,255,4294967295\n")
        ≡ surface_verdict (codes "98,128,49,105,65535,0,2,22,2,0,103,-,-\n") }
    ensures none { surface_verdict [] ≡ surfaces.Good [] }
{}

/// Texts that are no tables of surfaces, with the first record at fault.
pub fn other_surfaces_are_refused()
    ensures short { surface_verdict (codes "98,128,167,1,0,0,0,0,2,0,103,0\n") ≡ surfaces.Row 1 }
    ensures long { surface_verdict (codes "98,128,167,1,0,0,0,0,2,0,103,0,2,\n") ≡ surfaces.Row 1 }
    ensures parameters { surface_verdict (codes "98,2,11,0,0,0,2,0\n") ≡ surfaces.Row 1 }
    ensures star { surface_verdict (codes "98,128,167,*,0,0,0,0,2,0,103,0,2\n") ≡ surfaces.Row 1 }
    ensures missing { surface_verdict (codes "98,128,167,1,0,0,0,0,2,0,-,0,2\n") ≡ surfaces.Row 1 }
    ensures level { surface_verdict (codes "98,128,167,1,65536,0,0,0,2,0,103,0,2\n") ≡ surfaces.Row 1 }
    ensures value { surface_verdict (codes "98,128,167,1,0,0,0,0,2,0,103,0,4294967296\n") ≡ surfaces.Row 1 }
    ensures repeated { surface_verdict (codes "98,128,167,1,0,0,0,0,2,0,103,0,2\n98,128,167,1,0,0,0,0,2,0,103,0,2\n")
        ≡ surfaces.Duplicate 2 }
    ensures others { surface_verdict (codes "98,128,167,1,0,0,0,0,2,0,103,0,2\n98,128,167,1,*,0,0,0,2,0,103,0,2\n*,128,167,1,0,0,0,0,2,0,103,0\n")
        ≡ surfaces.Row 3 }
{}

/// Of the records that a message may have, the one with its centre and its level goes before the one with its
/// centre and `*` for the level, that before the one with `*` for the centre and its level, and that before
/// the one with `*` for both.
pub fn the_nearest_record_is_found()
    ensures of_both { (table : SurfaceEntries) (centre version parameter kind level : ℕ) (found : SurfaceTarget)
        → surface_at table ((Some centre, version, parameter), kind, Some level) ≡ Some found
        → surface_in table centre version parameter kind level ≡ Some found }
    ensures of_centre { (table : SurfaceEntries) (centre version parameter kind level : ℕ)
        → surface_at table ((Some centre, version, parameter), kind, Some level) ≡ None
        → (found : SurfaceTarget)
        → surface_at table ((Some centre, version, parameter), kind, None) ≡ Some found
        → surface_in table centre version parameter kind level ≡ Some found }
    ensures of_level { (table : SurfaceEntries) (centre version parameter kind level : ℕ)
        → surface_at table ((Some centre, version, parameter), kind, Some level) ≡ None
        → surface_at table ((Some centre, version, parameter), kind, None) ≡ None
        → (found : SurfaceTarget)
        → surface_at table ((None, version, parameter), kind, Some level) ≡ Some found
        → surface_in table centre version parameter kind level ≡ Some found }
    ensures of_neither { (table : SurfaceEntries) (centre version parameter kind level : ℕ)
        → surface_at table ((Some centre, version, parameter), kind, Some level) ≡ None
        → surface_at table ((Some centre, version, parameter), kind, None) ≡ None
        → surface_at table ((None, version, parameter), kind, Some level) ≡ None
        → surface_in table centre version parameter kind level
        ≡ surface_at table ((None, version, parameter), kind, None) }
{}
