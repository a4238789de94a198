//! What was counted after an item.

ghost use Rattle.std.specs.Prelude.{◌≡◌, ◌<◌, ◌+◌, ◌^◌};
ghost use Rattle.grib_items.specs.Answer as answers;
ghost use Rattle.grib_items.specs.Answer.{counts_of, totals_by};

use crate::policy::ItemTotals;
use grib_stream::{Extent, Totals, Whole};

/// After a message that was answered.
pub(crate) fn one_answered(totals: &ItemTotals, message: &Whole) -> ItemTotals
    requires messages { totals.now.counted.messages + 1 < 2 ^ 64 }
    requires fields { totals.now.counted.fields + message.now.fields < 2 ^ 64 }
    requires written { totals.now.counted.written + message.now.written < 2 ^ 64 }
    ensures { result ≡ totals_by (answers.one_answered (counts_of totals.now) message.now.fields message.now.written)
        totals.now.counted.skipped }
{
    ItemTotals {
        counted: Totals {
            messages: totals.counted.messages + 1,
            fields: totals.counted.fields + message.fields,
            written: totals.counted.written + message.written,
            ..totals.counted
        },
        ..*totals
    }
}

/// After a message that was not changed, instead of which this many octets were written.
pub(crate) fn one_kept(totals: &ItemTotals, message: &Extent, written: u64) -> ItemTotals
    requires messages { totals.now.counted.messages + 1 < 2 ^ 64 }
    requires fields { totals.now.counted.fields + message.now.fields < 2 ^ 64 }
    requires written { totals.now.counted.written + written < 2 ^ 64 }
    requires kept { totals.now.kept + 1 < 2 ^ 64 }
    ensures { result ≡ totals_by (answers.one_kept (counts_of totals.now) message.now.fields written)
        totals.now.counted.skipped }
{
    ItemTotals {
        counted: Totals {
            messages: totals.counted.messages + 1,
            fields: totals.counted.fields + message.fields,
            written: totals.counted.written + written,
            ..totals.counted
        },
        kept: totals.kept + 1,
        ..*totals
    }
}

/// After octets that were refused, of which this many are skipped, and instead of which this many were written.
pub(crate) fn one_refused(totals: &ItemTotals, octets: u64, written: u64) -> ItemTotals
    requires skipped { totals.now.counted.skipped + octets < 2 ^ 64 }
    requires written { totals.now.counted.written + written < 2 ^ 64 }
    requires refused { totals.now.refused + 1 < 2 ^ 64 }
    ensures { result ≡ totals_by (answers.one_refused (counts_of totals.now) written)
        (totals.now.counted.skipped + octets) }
{
    ItemTotals {
        counted: Totals {
            skipped: totals.counted.skipped + octets,
            written: totals.counted.written + written,
            ..totals.counted
        },
        refused: totals.refused + 1,
        ..*totals
    }
}
