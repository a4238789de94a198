//! A table of surfaces, read from a text and looked up.

ghost use Rattle.std.specs.Prelude.{◌≡◌, [], MatchResult};
ghost use Rattle.grib_params.specs.Surfaces.{Good, IsSurfaceFault, surface_in, surface_under, surface_verdict};

use crate::fault::TableFault;
use crate::records::{FromRecords, put, read_rows};
use crate::row::Key;
use crate::surface_row::{SurfaceKey, SurfaceTarget, surface_row_of};
use csv::ByteRecord;
use std::alloc::Global;
use std::collections::BTreeMap;
use std::marker::Model;

/// Which parameter of edition 2 at which fixed surface stands for a parameter of edition 1 whose name says
/// its level. A contract sees the targets with their keys.
#[derive(Debug, Drop)]
pub struct SurfaceTable {
    targets: BTreeMap<SurfaceKey, SurfaceTarget>,
}

impl Model for SurfaceTable {
    ghost use Rattle.grib_params.specs.Surfaces.{SurfaceEntries};

    ghost Value = { SurfaceEntries };

    ghost view = { λ a. a.targets.entries };
}

impl FromRecords for SurfaceTable {
    ghost use Rattle.std.specs.Prelude.{[]};
    ghost use Rattle.grib_params.specs.Judged.{surfaces_judged};
    ghost use Rattle.grib_params.specs.Surfaces as surfaces;

    ghost Verdict = { surfaces.SurfaceVerdict };

    ghost good = { surfaces.Good };

    ghost IsFault = { surfaces.IsSurfaceFault };

    ghost verdict = { surfaces.surface_verdict };

    ghost verdict_from = { surfaces.surface_verdict_from };

    ghost none = { [] };

    ghost judged = { surfaces_judged };

    fn empty(alloc: Global) -> SurfaceTable {
        SurfaceTable::new(alloc)
    }

    fn with_record(
        self,
        _alloc: Global,
        given: &ByteRecord,
        number: u64,
    ) -> Result<SurfaceTable, TableFault> {
        let mut targets = self.targets;
        put(&mut targets, surface_row_of(given), number)?;
        Ok(SurfaceTable { targets })
    }
}

impl SurfaceTable {
    /// A table that has nothing. It takes no memory.
    pub fn new(alloc: Global) -> SurfaceTable
        ensures { result ≡ [] }
    {
        SurfaceTable {
            targets: BTreeMap::new(alloc),
        }
    }

    /// Reads a table from its text: one record a line, `centre,version,parameter,levelType,level,discipline,
    /// category,number,master,local,surface1,scale1,value1`, with no header row. Centre and level may be `*`,
    /// for every one; scale1 and value1 `-`, for a missing one. The level is a number from 0 to 65,535 and the
    /// value one from 0 to 4,294,967,295, each other a number from 0 to 255. Empty lines are no records.
    ///
    /// # Errors
    ///
    /// The text is too large; a record is no row, or has the first five fields of an earlier one (the first
    /// record at fault, by its number from 1); or there is no memory.
    pub fn read(alloc: Global, text: &[u8]) -> Result<SurfaceTable, TableFault>
        ensures { MatchResult result
            (λ table. surface_verdict text.now ≡ Good table) (IsSurfaceFault (surface_verdict text.now)) }
    {
        read_rows(alloc, text)
    }

    /// The target of a message with this centre, version, parameter, type of level and level: of the record
    /// with its centre and its level; else with its centre and `*` for the level; else with `*` for the centre
    /// and its level; else with `*` for both; else `None`. It takes no memory.
    pub fn lookup(
        &self,
        centre: u8,
        version: u8,
        parameter: u8,
        level_type: u8,
        level: u16,
    ) -> Option<SurfaceTarget>
        ensures { result ≡ surface_in self.now centre version parameter level_type level }
    {
        match self.under((Some(centre), version, parameter), level_type, level) {
            Some(target) => Some(target),
            None => self.under((None, version, parameter), level_type, level),
        }
    }

    /// The target of the record with this level, else of the one with `*` for it.
    fn under(&self, key: Key, level_type: u8, level: u16) -> Option<SurfaceTarget>
        ensures { result ≡ surface_under self.now key level_type level }
    {
        match self.targets.get(&(key, level_type, Some(level))) {
            Some(target) => Some(*target),
            None => self.targets.get(&(key, level_type, None)).copied(),
        }
    }
}
