//! A table, read from a text and looked up.

ghost use Rattle.std.specs.Prelude.{◌≡◌, MatchResult};
ghost use Rattle.grib_params.specs.Table.{Good, IsFault, lookup_in, table_verdict};
ghost use Rattle.grib_params.specs.Pairs as pairs;
ghost use Rattle.grib_params.specs.Pairs.{first_pair};

use crate::fault::TableFault;
use crate::matching::TableMatch;
use crate::records::{FromRecords, put, read_rows};
use crate::row::{Key, Target, row_of};
use csv::ByteRecord;
use std::alloc::Global;
use std::collections::BTreeMap;
use std::marker::Model;

/// The most octets of a text.
pub const MOST_OCTETS: usize = 1_048_576;

/// Which parameters of edition 2 stand for those of edition 1. A contract sees the targets with their
/// keys.
#[derive(Debug, Drop)]
pub struct Table {
    targets: BTreeMap<Key, Target>,
}

impl Model for Table {
    ghost use Rattle.grib_params.specs.Table.{Entries};

    ghost Value = { Entries };

    ghost view = { λ a. a.targets.entries };
}

impl FromRecords for Table {
    ghost use Rattle.std.specs.Prelude.{[]};
    ghost use Rattle.grib_params.specs.Judged.{table_judged};
    ghost use Rattle.grib_params.specs.Table as table;

    ghost Verdict = { table.Verdict };

    ghost good = { table.Good };

    ghost IsFault = { table.IsFault };

    ghost verdict = { table.table_verdict };

    ghost verdict_from = { table.verdict_from };

    ghost none = { [] };

    ghost judged = { table_judged };

    fn empty(alloc: Global) -> Table {
        Table {
            targets: BTreeMap::new(alloc),
        }
    }

    fn with_record(
        self,
        _alloc: Global,
        given: &ByteRecord,
        number: u64,
    ) -> Result<Table, TableFault> {
        let mut targets = self.targets;
        put(&mut targets, row_of(given), number)?;
        Ok(Table { targets })
    }
}

impl Table {
    /// Reads a table from its text: one record a line, `centre,version,parameter,discipline,category,
    /// number,master,local`, with no header row. Empty lines are no records.
    ///
    /// # Errors
    ///
    /// The text is too large; a record is no row, or has the first three fields of an earlier one (the
    /// first record at fault, by its number from 1); or there is no memory.
    pub fn read(alloc: Global, text: &[u8]) -> Result<Table, TableFault>
        ensures { MatchResult result
            (λ table. table_verdict text.now ≡ Good table) (IsFault (table_verdict text.now)) }
    {
        read_rows(alloc, text)
    }

    /// The target of the record with these three, else of the record with `*` and the other two, else
    /// `None`. It takes no memory.
    pub fn lookup(&self, centre: u8, version: u8, parameter: u8) -> Option<Target>
        ensures { result ≡ lookup_in self.now centre version parameter }
    {
        match self.targets.get(&(Some(centre), version, parameter)) {
            Some(target) => Some(*target),
            None => self.targets.get(&(None, version, parameter)).copied(),
        }
    }

    /// The other way round: the first version and parameter, by version, then parameter, for which the table has
    /// a record, and a look-up with this centre finds one, that stands for this parameter of edition 2. It takes
    /// no memory.
    pub fn first_pair(
        &self,
        matching: TableMatch,
        centre: u8,
        parameter: &Target,
    ) -> Option<(u8, u8)>
        ensures { result ≡ first_pair self.now matching centre parameter.now }
    {
        let mut first = None;
        for (key, target) in &self.targets {
            let pair = (key.1, key.2);
            if matching.matches(parameter, target)
                && self.has_target(matching, centre, parameter, pair)
            {
                first = Some(earlier(first, pair));
            }
        }
        first
    }

    /// Whether a look-up finds a target that stands for this parameter.
    fn has_target(
        &self,
        matching: TableMatch,
        centre: u8,
        parameter: &Target,
        pair: (u8, u8),
    ) -> bool
        ensures { result ≡ pairs.has_target self.now matching centre parameter.now pair }
    {
        match self.lookup(centre, pair.0, pair.1) {
            Some(target) => matching.matches(parameter, &target),
            None => false,
        }
    }
}

/// The earlier of two pairs, where there is one already.
fn earlier(first: Option<(u8, u8)>, pair: (u8, u8)) -> (u8, u8)
    ensures { result ≡ pairs.earlier first pair }
{
    match first {
        Some(first) if !is_before(pair, first) => first,
        _ => pair,
    }
}

/// Whether a pair stands before another, by version, then parameter.
fn is_before(a: (u8, u8), b: (u8, u8)) -> bool
    ensures { result ≡ pairs.is_before a b }
{
    a.0 < b.0 || (a.0 == b.0 && a.1 < b.1)
}
