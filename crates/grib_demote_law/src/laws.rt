//! Laws over the definitions.

ghost use Rattle.std.specs.Prelude.{◌≡◌, ◌<◌, ◌^◌, ℕ, Bool, true, false, Some, None, is_none, List, All};
ghost use Rattle.grib_bits.specs.Octets.{octets};
ghost use Rattle.grib_dyadic.specs.Meaning.{SameMeaning};
ghost use Rattle.grib_params.specs.Table.{Entries, Good, lookup_in, table_verdict};
ghost use Rattle.grib_params.specs.Pairs.{Pair, first_pair, is_local};
ghost use Rattle.grib_params.specs.declared.matching.TableMatch.{TableMatch};
ghost use Rattle.grib_params.specs.declared.matching.TableMatch.TheVariants.{Same, Any};
ghost use Rattle.grib_params.specs.declared.row.Target.{Target};
ghost use Rattle.grib1_sections.specs.Message.{IsMessage1};
ghost use Rattle.grib1_sections.specs.Column.{column1_of, meaning1_of};
ghost use Rattle.grib2_products.specs.Spelled.{coordinate_list};
ghost use Rattle.grib2_message.specs.Fields.{column_of, meaning_of, part_octets};
ghost use Rattle.grib_migrate.specs.Levels.{lacks_number, surfaces_at};
ghost use Rattle.grib_migrate.specs.References.{binary32_of};
ghost use Rattle.grib_migrate.specs.Losses.{first_loss};
ghost use Rattle.grib_migrate.specs.Migrated.{migrated};
ghost use Rattle.grib_demote.specs.declared.level.Level.{Level};
ghost use Rattle.grib_demote.specs.Levels.{level_of};
ghost use Rattle.grib_demote.specs.Words.{ibm_of};
ghost use Rattle.grib_demote.specs.Demoted.{demoted};
ghost use Rattle.grib_select.specs.Values.{key_value_of};
ghost use Rattle.grib_demote_law.specs.Coordinates.{SameWords};
ghost use Rattle.grib_demote_law.specs.Field.{MayBeDemoted};
ghost use Rattle.grib_demote_law.specs.Keys.{kept_keys, table_keys};
ghost use Rattle.grib_demote_law.specs.Records.{Finds, parameter_of, record_of};

/// Where nothing of a field of an accepted message of edition 2 is lost, what it is demoted to is accepted as a
/// message of edition 1.
pub fn what_is_demoted_is_accepted()
    ensures { (table : Entries) (matching : TableMatch) (keep_local any_earth : Bool) (message : List ℕ) (field : ℕ)
        → MayBeDemoted table matching keep_local any_earth message field
        → IsMessage1 (demoted table matching keep_local message field) }
{}

/// The first version and parameter that a table has for a parameter are found in the table with a target that
/// stands for it: with the parameter itself where the tables have to be the same.
pub fn the_first_pair_is_found_again()
    ensures stands { (table : Entries) (matching : TableMatch) (centre : ℕ) (parameter : Target) (pair : Pair)
        → first_pair table matching centre parameter ≡ Some pair → Finds table matching centre parameter pair }
    ensures same { (table : Entries) (centre : ℕ) (parameter : Target) (pair : Pair)
        → first_pair table Same centre parameter ≡ Some pair
        → lookup_in table centre pair.0 pair.1 ≡ Some parameter }
{}

/// By any tables a parameter has the version and parameter that its record's own parameter has by the same tables.
/// A parameter that has them by the same tables has some by any.
pub fn any_tables_are_those_of_the_record()
    ensures own { (table : Entries) (centre : ℕ) (parameter target : Target) (pair : Pair)
        → first_pair table Any centre parameter ≡ Some pair
        → lookup_in table centre pair.0 pair.1 ≡ Some target
        → first_pair table Same centre target ≡ Some pair }
    ensures wider { (table : Entries) (centre : ℕ) (parameter : Target) (pair : Pair)
        → first_pair table Same centre parameter ≡ Some pair
        → is_none (first_pair table Any centre parameter) ≡ false }
{}

/// The level of a field fits its octets, has fixed surfaces, and has no number where its type has none.
pub fn the_level_has_surfaces()
    ensures fits { (section : List ℕ) (level : Level) → level_of section ≡ Some level
        → (level.level_type < 256) × (level.number < 65536) }
    ensures surfaces { (section : List ℕ) (level : Level) → level_of section ≡ Some level
        → (number top bottom : ℕ) → is_none (surfaces_at level.level_type number top bottom) ≡ false }
    ensures no_number { (section : List ℕ) (level : Level) → level_of section ≡ Some level
        → lacks_number level.level_type ≡ true → level.number ≡ 0 }
{}

/// The IBM word of a binary32 word has a binary32 word.
pub fn a_word_comes_back()
    ensures { (word other : ℕ) → word < 2 ^ 32 → ibm_of word ≡ Some other
        → (other < 2 ^ 32) × (is_none (binary32_of other) ≡ false) }
{}

/// Where nothing of a field is lost, nothing of what it is demoted to is lost when that is migrated with the same
/// table and the same choice for the octets of the centre. The table is one that was read from a text.
pub fn nothing_is_lost_on_the_way_back()
    ensures { (text : List ℕ) (table : Entries) (matching : TableMatch) (keep_local any_earth : Bool) (message : List ℕ) (field : ℕ)
        → table_verdict text ≡ Good table
        → MayBeDemoted table matching keep_local any_earth message field
        → first_loss table keep_local (demoted table matching keep_local message field) ≡ None }
{}

/// What a field is demoted to has its scaled integers and its missing points, and at each grid point its exact
/// value.
pub fn what_is_demoted_keeps_its_values()
    ensures points { (table : Entries) (matching : TableMatch) (keep_local any_earth : Bool) (message : List ℕ) (field : ℕ)
        → MayBeDemoted table matching keep_local any_earth message field
        → (column1_of (demoted table matching keep_local message field)).points ≡ (column_of message field).points }
    ensures meaning { (table : Entries) (matching : TableMatch) (keep_local any_earth : Bool) (message : List ℕ) (field : ℕ)
        → MayBeDemoted table matching keep_local any_earth message field
        → SameMeaning (meaning_of message field) (meaning1_of (demoted table matching keep_local message field)) }
{}

/// A field that is demoted and migrated back has its scaled integers and its missing points, and at each grid point
/// its exact value.
pub fn means_what_it_meant()
    ensures points { (text : List ℕ) (table : Entries) (matching : TableMatch) (keep_local any_earth : Bool) (message : List ℕ) (field : ℕ)
        → table_verdict text ≡ Good table
        → MayBeDemoted table matching keep_local any_earth message field
        → (column_of (migrated table keep_local (demoted table matching keep_local message field)) 1).points
        ≡ (column_of message field).points }
    ensures meaning { (text : List ℕ) (table : Entries) (matching : TableMatch) (keep_local any_earth : Bool) (message : List ℕ) (field : ℕ)
        → table_verdict text ≡ Good table
        → MayBeDemoted table matching keep_local any_earth message field
        → SameMeaning (meaning_of (migrated table keep_local (demoted table matching keep_local message field)) 1)
        (meaning_of message field) }
{}

/// A field that is demoted and migrated back has the values of all keys that edition 1 has a place for, and those of
/// the versions of the tables that its record has to have.
pub fn has_its_keys()
    ensures keys { (text : List ℕ) (table : Entries) (matching : TableMatch) (keep_local any_earth : Bool) (message : List ℕ) (field : ℕ)
        → table_verdict text ≡ Good table
        → MayBeDemoted table matching keep_local any_earth message field
        → All (λ key. key_value_of (migrated table keep_local (demoted table matching keep_local message field)) 1 key
        ≡ key_value_of message field key) kept_keys }
    ensures tables { (text : List ℕ) (table : Entries) (matching : TableMatch) (keep_local any_earth : Bool) (message : List ℕ) (field : ℕ)
        → table_verdict text ≡ Good table
        → MayBeDemoted table matching keep_local any_earth message field
        → All (λ key. key_value_of (migrated table keep_local (demoted table matching keep_local message field)) 1 key
        ≡ key_value_of message field key) (table_keys matching (is_local (parameter_of message field))) }
{}

/// A field that is demoted and migrated back has the versions of the tables of its record: octets 10 and 11 of
/// Section 1.
pub fn has_the_tables_of_its_record()
    ensures { (text : List ℕ) (table : Entries) (matching : TableMatch) (keep_local any_earth : Bool) (message : List ℕ) (field : ℕ)
        → table_verdict text ≡ Good table
        → MayBeDemoted table matching keep_local any_earth message field
        → (row : Target) → record_of table matching message field ≡ Some row
        → (octets (part_octets (migrated table keep_local (demoted table matching keep_local message field)) 1 1) 10 10 ≡ row.master)
        × (octets (part_octets (migrated table keep_local (demoted table matching keep_local message field)) 1 1) 11 11 ≡ row.local) }
{}

/// A field that is demoted and migrated back has as many vertical coordinates, and each is the same number.
pub fn has_its_vertical_coordinates()
    ensures { (text : List ℕ) (table : Entries) (matching : TableMatch) (keep_local any_earth : Bool) (message : List ℕ) (field : ℕ)
        → table_verdict text ≡ Good table
        → MayBeDemoted table matching keep_local any_earth message field
        → SameWords
        (coordinate_list (part_octets (migrated table keep_local (demoted table matching keep_local message field)) 1 4))
        (coordinate_list (part_octets message field 4)) }
{}
