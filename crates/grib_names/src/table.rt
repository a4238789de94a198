//! A table of names, read from a text and looked up.

ghost use Rattle.std.specs.Prelude.{◌≡◌, false, IfOk, MatchResult, option_map};
ghost use Rattle.std.specs.BTreeMap.{insert_entry};
ghost use Rattle.grib_names.specs.Table.{Good, IsNamesFault, name_of, names_verdict, numbers_cmp, repeats};

use crate::row::{Numbers, ShortName, row_of};
use csv::ByteRecord;
use grib_params::{FromRecords, TableFault, read_rows};
use std::alloc::{AllocError, Global};
use std::collections::{BTreeMap, BTreeSet};
use std::marker::Model;

/// The short names of parameters of edition 2. A contract sees the names with their numbers, discipline, category and
/// number.
#[derive(Debug, Drop)]
pub struct NameTable {
    names: BTreeMap<Numbers, ShortName>,
    /// Each name of these.
    taken: BTreeSet<String>,
}

impl Model for NameTable {
    ghost use Rattle.grib_names.specs.Table.{NameEntries};
    ghost use Rattle.grib_names.specs.Taken.{IsTaken};

    ghost Value = { NameEntries };

    ghost view = { λ a. a.names.entries };

    ghost invariant = { λ a. IsTaken a.names.entries a.taken };
}

impl FromRecords for NameTable {
    ghost use Rattle.std.specs.Prelude.{[]};
    ghost use Rattle.grib_names.specs.Judged.{names_judged};
    ghost use Rattle.grib_names.specs.Table as table;

    ghost Verdict = { table.NameVerdict };

    ghost good = { table.Good };

    ghost IsFault = { table.IsNamesFault };

    ghost verdict = { table.names_verdict };

    ghost verdict_from = { table.names_verdict_from };

    ghost none = { [] };

    ghost judged = { names_judged };

    fn empty(alloc: Global) -> NameTable {
        NameTable {
            names: BTreeMap::new(alloc),
            taken: BTreeSet::new(alloc),
        }
    }

    fn with_record(
        self,
        alloc: Global,
        given: &ByteRecord,
        number: u64,
    ) -> Result<NameTable, TableFault> {
        let Some((numbers, name)) = row_of(given) else {
            return Err(TableFault::Row(number));
        };
        if self.repeats(numbers, name) {
            return Err(TableFault::Duplicate(number));
        }
        match self.with_name(alloc, numbers, name) {
            Ok(table) => Ok(table),
            Err(_) => Err(TableFault::Memory),
        }
    }
}

impl NameTable {
    /// Reads a table from its text: one record a line, `discipline,category,number,name`, with no header row. The name
    /// is 1 to 32 letters, digits, `_` and `-`, each other field a number from 0 to 255. Empty lines are no records.
    ///
    /// # Errors
    ///
    /// The text is too large; a record is no row, or has the three numbers or the name of an earlier one (the first
    /// record at fault, by its number from 1); or there is no memory.
    pub fn parse(alloc: Global, text: &[u8]) -> Result<NameTable, TableFault>
        ensures { MatchResult result
            (λ table. names_verdict text.now ≡ Good table) (IsNamesFault (names_verdict text.now)) }
    {
        read_rows(alloc, text)
    }

    /// The name of the record with these numbers, else `None`. It takes no memory.
    pub fn name_of(&self, discipline: u8, category: u8, number: u8) -> Option<&str>
        ensures { option_map (λ name. name.now) result ≡ name_of self.now discipline category number }
    {
        match self.names.get(&(discipline, category, number)) {
            Some(name) => Some(name.as_str()),
            None => None,
        }
    }

    /// Whether a record has these numbers, or this name.
    fn repeats(&self, numbers: Numbers, name: &str) -> bool
        ensures { result ≡ repeats self.now (numbers, name.now) }
    {
        self.names.contains_key(&numbers) || self.taken.contains(name)
    }

    /// The table with one record more.
    fn with_name(self, alloc: Global, numbers: Numbers, name: &str) -> Result<NameTable, AllocError>
        requires { repeats self (numbers, name.now) ≡ false }
        ensures { IfOk result (λ table. table ≡ insert_entry numbers_cmp self numbers name.now) }
    {
        let NameTable {
            mut names,
            mut taken,
        } = self;
        taken.insert(String::from_str(alloc, name)?)?;
        names.insert(numbers, ShortName::of(String::from_str(alloc, name)?))?;
        Ok(NameTable { names, taken })
    }
}
