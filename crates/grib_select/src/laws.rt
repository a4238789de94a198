//! Laws over the definitions, under each profile.

ghost use Rattle.std.specs.Prelude.{◌≡◌, ◌≢◌, ℕ, ◌≤◌, ◌<◌, List, None, Some, All, AllPairs, IsTrue};
ghost use Rattle.grib_base.specs.declared.profile.Profile.{Profile};
ghost use Rattle.grib2_message.specs.Fields.{field_count, column_of};
ghost use Rattle.grib2_message.specs.Message.{IsMessageUnder};
ghost use Rattle.grib_keys.specs.declared.condition.Change.{Change};
ghost use Rattle.grib_keys.specs.declared.condition.Value.{Value};
ghost use Rattle.grib_keys.specs.declared.key.Key.{Key};
ghost use Rattle.grib_keys.specs.Keys.{can_set};
ghost use Rattle.grib_select.specs.Bounds.{IsWithin64};
ghost use Rattle.grib_select.specs.Single.{single_of};
ghost use Rattle.grib_select.specs.Changed.{with_keys, set_fault};
ghost use Rattle.grib_select.specs.Values.{key_value_of};

/// A field of an accepted message that is cut out is an accepted message of one field, with the same column.
pub fn what_is_cut_out_keeps_its_column()
    ensures accepted { (profile : Profile) (message : List ℕ) (i : ℕ) → IsMessageUnder profile message → 1 ≤ i → i ≤ field_count message
        → IsMessageUnder profile (single_of message i) }
    ensures one { (profile : Profile) (message : List ℕ) (i : ℕ) → IsMessageUnder profile message → 1 ≤ i → i ≤ field_count message
        → field_count (single_of message i) ≡ 1 }
    ensures column { (profile : Profile) (message : List ℕ) (i : ℕ) → IsMessageUnder profile message → 1 ≤ i → i ≤ field_count message
        → column_of (single_of message i) 1 ≡ column_of message i }
{}

/// An accepted message in which keys that can be set got other values is an accepted message with as many
/// fields, each with the same column. Where no change is at fault and no key stands twice, each field has the
/// keys with their new values.
pub fn what_is_set_keeps_each_column()
    ensures accepted { (profile : Profile) (message : List ℕ) (changes : List Change) → IsMessageUnder profile message
        → All (λ c. IsTrue (can_set c.key)) changes → IsMessageUnder profile (with_keys message changes) }
    ensures fields { (profile : Profile) (message : List ℕ) (changes : List Change) → IsMessageUnder profile message
        → All (λ c. IsTrue (can_set c.key)) changes
        → field_count (with_keys message changes) ≡ field_count message }
    ensures columns { (profile : Profile) (message : List ℕ) (changes : List Change) (i : ℕ) → IsMessageUnder profile message
        → All (λ c. IsTrue (can_set c.key)) changes
        → column_of (with_keys message changes) i ≡ column_of message i }
    ensures values { (profile : Profile) (message : List ℕ) (changes : List Change) (i : ℕ) → IsMessageUnder profile message
        → All (λ c. IsTrue (can_set c.key)) changes → AllPairs (λ a b. a.key ≢ b.key) changes
        → set_fault message changes ≡ None → 1 ≤ i → i ≤ field_count message
        → All (λ c. key_value_of (with_keys message changes) i c.key ≡ Some c.value) changes }
{}

/// The value of a key of a field of an accepted message is missing, or a number within 64 bits with sign.
pub fn values_are_within_64_bits()
    ensures { (profile : Profile) (message : List ℕ) (i : ℕ) (key : Key) (value : Value) → IsMessageUnder profile message
        → All (λ octet. octet < 256) message → 1 ≤ i → i ≤ field_count message
        → key_value_of message i key ≡ Some value → IsWithin64 value }
{}
