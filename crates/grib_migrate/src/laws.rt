//! Laws over the definitions.

ghost use Rattle.std.specs.Prelude.{◌≡◌, ◌↔◌, ℕ, ◌*◌, Bool, List, [], Some, pos, ◌+ℤ◌};
ghost use Rattle.grib_params.specs.Table.{Entries};
ghost use Rattle.grib1_sections.specs.Keys.{key_in};
ghost use Rattle.grib_keys.specs.declared.key1.Key1.TheVariants.{P2};
ghost use Rattle.grib_migrate.specs.declared.date.Moment.{Moment};
ghost use Rattle.grib_migrate.specs.Labels.{kept_where};
ghost use Rattle.grib_migrate.specs.Losses.{first_loss, first_loss_with};
ghost use Rattle.grib_migrate.specs.Migrated.{migrated, migrated_with};
ghost use Rattle.grib_migrate.specs.Dates.{IsCivil, seconds_of, reference_time, within_9999, later_in, end_of};

/// What is some seconds after a date and time of years 1 to 9999 is the one date and time of these years with as
/// many seconds more, by 86,400 seconds for each day number of the calendar and those of the time of day. So the
/// end of an interval is P2 units after the reference time, and there is none where that is after year 9999.
pub fn later_is_by_seconds()
    ensures later { (m e : Moment) (n : ℕ) → IsCivil m
        → (later_in m n ≡ Some e) ↔ (IsCivil e × (seconds_of e ≡ seconds_of m +ℤ pos n)) }
    ensures interval { (s1 : List ℕ) (unit_seconds : ℕ) (e : Moment) → IsCivil (reference_time s1)
        → (within_9999 (end_of s1 unit_seconds) ≡ Some e)
        ↔ (IsCivil e × (seconds_of e
        ≡ seconds_of (reference_time s1) +ℤ pos (key_in s1 P2 * unit_seconds))) }
{}

/// With an empty table of surfaces, and octets for local use preserved or refused, the losses and the message are
/// those by the parameter table alone.
pub fn plain_choices_change_nothing()
    ensures losses { (table : Entries) (keep_local : Bool) (message : List ℕ)
        → first_loss_with table [] (kept_where keep_local) message ≡ first_loss table keep_local message }
    ensures octets { (table : Entries) (keep_local : Bool) (message : List ℕ)
        → migrated_with table [] (kept_where keep_local) message ≡ migrated table keep_local message }
{}
