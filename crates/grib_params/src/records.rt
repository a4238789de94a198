//! Texts of records, read into tables.

ghost use Rattle.std.specs.Prelude.{◌≡◌, ℕ, List, MatchResult};
ghost use Rattle.csv.specs.Records.{fields_of};
ghost use Rattle.grib_params.specs.declared.fault.TableFault.{TableFault as Fault};
ghost use Rattle.grib_params.specs.Fields.{Fields};
ghost use Rattle.grib_params.specs.Rows.{Adds, IsPut, IsVerdict};

use crate::fault::TableFault;
use crate::table::MOST_OCTETS;
use csv::{ByteRecord, ErrorKind, ReaderBuilder};
use std::alloc::Global;
use std::collections::BTreeMap;

/// A table that the records of a text make, one after another.
pub trait FromRecords: Drop {
    /// What is said of a text.
    ghost Verdict: { Type 0 };

    /// That the text is this table.
    ghost good: { Self → Verdict };

    /// Why a text is no table.
    ghost IsFault: { Verdict → Fault → Type 0 };

    /// The verdict on a text.
    ghost verdict: { List ℕ → Verdict };

    /// The verdict on the records that follow the first of some count, of which a table is made.
    ghost verdict_from: { ℕ → Self → List Fields → Verdict };

    /// The table of no records.
    ghost none: { Self };

    /// The table of no records. It takes no memory.
    fn empty(alloc: Global) -> Self
        ensures { result ≡ none };

    /// The table of the records before the one with this number, from 1, and of that one.
    fn with_record(self, alloc: Global, given: &ByteRecord, number: u64) -> Result<Self, TableFault>
        ensures { Adds IsFault verdict_from result self (fields_of given.now) number };

    ghost judged: { IsVerdict none good IsFault verdict verdict_from };
}

/// Reads the records of a text into a table. There is no header row, and empty lines are no records.
pub fn read_rows<R: FromRecords>(alloc: Global, text: &[u8]) -> Result<R, TableFault>
    ensures { MatchResult result
        (λ table. R.verdict text.now ≡ R.good table) (R.IsFault (R.verdict text.now)) }
{
    if text.len() > MOST_OCTETS {
        return Err(TableFault::TooLarge);
    }
    let records = ReaderBuilder::new()
        .has_headers(false)
        .flexible(true)
        .from_reader(alloc, text)
        .into_byte_records();
    let mut table = R::empty(alloc);
    let mut number: u64 = 0;
    for record in records {
        number += 1;
        let record = match record {
            Ok(record) => record,
            Err(error) => {
                // Octets in memory are read, and a record may have any length: what is left is memory.
                let is_uneven = matches!(error.kind(), ErrorKind::UnequalLengths { .. });
                prove!(!is_uneven);
                return Err(TableFault::Memory);
            }
        };
        table = table.with_record(alloc, &record, number)?;
    }
    Ok(table)
}

/// Puts the row of the record with this number under its key, unless there is one.
pub(crate) fn put<K: Ord + Drop, T: Drop>(
    rows: &mut BTreeMap<K, T>,
    row: Option<(K, T)>,
    number: u64,
) -> Result<(), TableFault>
    ensures { IsPut K.cmp row number rows.old.entries rows.new.entries result }
{
    let Some((key, row)) = row else {
        return Err(TableFault::Row(number));
    };
    match rows.insert(key, row) {
        Ok(None) => Ok(()),
        Ok(Some(_)) => Err(TableFault::Duplicate(number)),
        Err(_) => Err(TableFault::Memory),
    }
}
