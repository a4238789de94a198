//! What follows from the tables of keys.

ghost use Rattle.std.specs.Prelude.{◌≡◌, Some};
ghost use Rattle.grib_keys.specs.declared.key.Key.{Key};
ghost use Rattle.grib_keys.specs.declared.key1.Key1.{Key1};
ghost use Rattle.grib_keys.specs.Keys.{name_of, key_named};
ghost use Rattle.grib_keys.specs.Keys1.{name1_of, key1_named};

/// Each key is the one of its name, so no two keys of an edition have the same name.
pub fn names_tell_keys()
    ensures second { (key : Key) → key_named (name_of key) ≡ Some key }
    ensures first { (key : Key1) → key1_named (name1_of key) ≡ Some key }
{}
