//! A file whose messages are accepted.

ghost use Rattle.std.specs.Prelude.{◌≡◌, All, IfSome, IsTrue, length, slice_get};
ghost use Rattle.grib_file.specs.Entries.{IsEntryOf, fields_at};
ghost use Rattle.grib_file.specs.Read.{AreOfOneMessage, IsFieldOf};

use crate::entries::Entry;
use crate::field::FileField;
use grib_base::Profile;
use std::marker::Model;

/// A file whose messages are accepted by a profile. A clause sees its fields in order. It keeps its octets once, and
/// where each field stands in them.
#[derive(Debug, Drop)]
pub struct GribFile {
    profile: Profile,
    octets: Vec<u8>,
    entries: Vec<Entry>,
}

impl Model for GribFile {
    ghost use Rattle.std.specs.Prelude.{All};
    ghost use Rattle.grib_file.specs.Filed.{FileFields};

    ghost Value = { FileFields };

    ghost use Rattle.grib_file.specs.Entries.{IsEntryOf, fields_at};

    ghost view = { λ file. record { profile = file.profile; fields = fields_at file.octets.items file.entries.items } };

    ghost invariant = { λ file. All (IsEntryOf file.profile file.octets.items) file.entries.items };
}

impl GribFile {
    /// The file of these octets, in which the fields stand so.
    pub(crate) fn of(profile: Profile, octets: Vec<u8>, entries: Vec<Entry>) -> GribFile
        requires { All (IsEntryOf profile octets.items) entries.items }
        ensures profile { result.profile ≡ profile }
        ensures fields { result.fields ≡ fields_at octets.items entries.items }
    {
        GribFile {
            profile,
            octets,
            entries,
        }
    }

    /// How many fields it has.
    pub fn count(&self) -> u64
        ensures count { result ≡ length self.now.fields }
        ensures accepted { All (IsFieldOf self.now.profile) self.now.fields }
    {
        self.entries.len() as u64
    }

    /// The field with this index, which begins at 0, if there is one.
    pub fn field(&self, index: u64) -> Option<FileField<'_>>
        ensures field { result ≡ slice_get self.now.fields index }
        ensures accepted { IfSome result (λ field. IsFieldOf self.now.profile field) }
    {
        if index >= self.entries.len() as u64 {
            return None;
        }
        let entry = self.entries[index as usize];
        let message = &self.octets[entry.start..entry.start + entry.length];
        Some(FileField::of(self.profile, message, entry.number))
    }

    /// Whether the fields with these indices, which begin at 0, stand in one message. Where it says that they do not, nothing
    /// is claimed.
    pub fn are_of_one_message(&self, index: u64, other: u64) -> bool
        ensures { IsTrue result
            → AreOfOneMessage (slice_get self.now.fields index) (slice_get self.now.fields other) }
    {
        let count = self.entries.len() as u64;
        if index >= count || other >= count {
            return false;
        }
        let here = self.entries[index as usize];
        let there = self.entries[other as usize];
        here.start == there.start && here.length == there.length
    }
}
