//! Laws over the definitions.

ghost use Rattle.std.specs.Prelude.{◌≡◌, ℕ, Bool, List, true, unwrap_or};
ghost use Rattle.grib_bits.specs.Encoding.{section_of, all_octets};
ghost use Rattle.grib_bits.specs.Octets.{octets};
ghost use Rattle.grib_params.specs.Surfaces.{SurfaceEntries};
ghost use Rattle.grib_params.specs.Table.{Entries};
ghost use Rattle.grib_dyadic.specs.Meaning.{SameMeaning};
ghost use Rattle.grib1_sections.specs.Acceptance.{grid, identification};
ghost use Rattle.grib1_sections.specs.Column.{column1_of, meaning1_of};
ghost use Rattle.grib1_sections.specs.Coordinates.{coordinate_list};
ghost use Rattle.grib2_message.specs.Message.{IsMessage};
ghost use Rattle.grib2_message.specs.Fields.{field_count, column_of, meaning_of, part_octets};
ghost use Rattle.grib_migrate.specs.declared.labels.Local.{Local};
ghost use Rattle.grib_migrate.specs.declared.labels.Local.TheVariants.{Ecmwf};
ghost use Rattle.grib_migrate.specs.Chosen.{named_in, surfaces_by, target_by};
ghost use Rattle.grib_migrate.specs.Labels.{contents_of, has_labels, member_by, writes_local};
ghost use Rattle.grib_migrate.specs.Migrated.{migrated, migrated_with, no_surfaces, no_unit};
ghost use Rattle.grib_migrate.specs.Products.{identification_numbers, product_octets_by};
ghost use Rattle.grib_migrate.specs.Source.{no_target};
ghost use Rattle.grib_migrate.specs.Times.{unit_of};
ghost use Rattle.grib_migrate_law.specs.Source.{MayBeMigrated, MayBeMigratedWith};

/// Where nothing of an accepted message of edition 1 is lost, what it is migrated to is accepted as a message of
/// edition 2 with one field.
pub fn what_is_migrated_is_accepted()
    ensures accepted { (table : Entries) (keep_local : Bool) (message : List ℕ)
        → MayBeMigrated table keep_local message
        → IsMessage (migrated table keep_local message) }
    ensures one_field { (table : Entries) (keep_local : Bool) (message : List ℕ)
        → MayBeMigrated table keep_local message
        → field_count (migrated table keep_local message) ≡ 1 }
{}

/// That field has the scaled integers and the missing points of the message of edition 1, and at each grid point
/// its exact value.
pub fn what_is_migrated_keeps_its_values()
    ensures points { (table : Entries) (keep_local : Bool) (message : List ℕ)
        → MayBeMigrated table keep_local message
        → (column_of (migrated table keep_local message) 1).points ≡ (column1_of message).points }
    ensures meaning { (table : Entries) (keep_local : Bool) (message : List ℕ)
        → MayBeMigrated table keep_local message
        → SameMeaning (meaning_of (migrated table keep_local message) 1) (meaning1_of message) }
{}

/// The same of a message that is migrated by both tables and by what is chosen of local use.
pub fn what_is_chosen_is_accepted()
    ensures accepted { (table : Entries) (surfaces : SurfaceEntries) (local : Local) (message : List ℕ)
        → MayBeMigratedWith table surfaces local message
        → IsMessage (migrated_with table surfaces local message) }
    ensures one_field { (table : Entries) (surfaces : SurfaceEntries) (local : Local) (message : List ℕ)
        → MayBeMigratedWith table surfaces local message
        → field_count (migrated_with table surfaces local message) ≡ 1 }
{}

/// And of its values.
pub fn what_is_chosen_keeps_its_values()
    ensures points { (table : Entries) (surfaces : SurfaceEntries) (local : Local) (message : List ℕ)
        → MayBeMigratedWith table surfaces local message
        → (column_of (migrated_with table surfaces local message) 1).points ≡ (column1_of message).points }
    ensures meaning { (table : Entries) (surfaces : SurfaceEntries) (local : Local) (message : List ℕ)
        → MayBeMigratedWith table surfaces local message
        → SameMeaning (meaning_of (migrated_with table surfaces local message) 1) (meaning1_of message) }
{}

/// The field has the sections that are chosen: Section 1 with the reference time, Section 4 with the parameter, the
/// member of an ensemble, the times and the surfaces, and Section 2 where one is written.
pub fn what_is_chosen_stands()
    ensures identification { (table : Entries) (surfaces : SurfaceEntries) (local : Local) (message : List ℕ)
        → MayBeMigratedWith table surfaces local message
        → (let s1 = identification message in
        let target = unwrap_or (target_by table (named_in surfaces s1) s1) no_target in
        part_octets (migrated_with table surfaces local message) 1 1 ≡ section_of 1 (all_octets (identification_numbers target s1))) }
    ensures product { (table : Entries) (surfaces : SurfaceEntries) (local : Local) (message : List ℕ)
        → MayBeMigratedWith table surfaces local message
        → (let s1 = identification message in
        let named = named_in surfaces s1 in
        part_octets (migrated_with table surfaces local message) 1 4 ≡ section_of 4 (product_octets_by (member_by local s1)
        (unwrap_or (target_by table named s1) no_target) s1 (coordinate_list (grid message))
        (unwrap_or (unit_of s1) no_unit) (unwrap_or (surfaces_by named s1) no_surfaces))) }
    ensures own { (table : Entries) (surfaces : SurfaceEntries) (local : Local) (message : List ℕ)
        → MayBeMigratedWith table surfaces local message
        → (let s1 = identification message in writes_local local s1 ≡ true
        → part_octets (migrated_with table surfaces local message) 1 2 ≡ section_of 2 (contents_of local s1)) }
{}

/// Where ECMWF's labels are there and are written, Section 2 has the same class, type, stream and version of the
/// experiment.
pub fn labels_stand()
    ensures { (table : Entries) (surfaces : SurfaceEntries) (message : List ℕ)
        → MayBeMigratedWith table surfaces Ecmwf message → has_labels (identification message) ≡ true
        → (let s1 = identification message in
        let s2 = part_octets (migrated_with table surfaces Ecmwf message) 1 2 in
        (octets s2 6 7 ≡ 1) × (octets s2 8 9 ≡ octets s1 42 42) × (octets s2 10 11 ≡ octets s1 43 43)
        × (octets s2 12 13 ≡ octets s1 44 45) × (octets s2 14 17 ≡ octets s1 46 49)) }
{}
