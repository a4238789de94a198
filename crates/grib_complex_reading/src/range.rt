//! Fields whose numbers cannot leave the range, whatever their codes are.

ghost use Rattle.std.specs.Prelude.{◌≡◌, ◌⊎◌, ℕ, ◌+◌, ◌-◌, ◌*◌, ◌^◌, ◌<◌, ◌≤◌, min, cond, ◌==◌, List, Bool, true, false, length, nat_abs};
ghost use Rattle.grib_base.specs.Rules.{first_place};
ghost use Rattle.grib_packing.specs.declared.layout.Layout.{Layout as layout_of_groups};
ghost use Rattle.grib_packing.specs.Entries.{is_out_of_range};
ghost use Rattle.grib_packing.specs.Groups.{codes_from};
ghost use Rattle.grib_group_reading.specs.Taking.{values as values_of};
ghost use Rattle.grib_group_reading.specs.Table.{groups_in, IsWhole, IsNarrow};
ghost use Rattle.grib_packing.specs.Differences.{NoNumber};
ghost use Rattle.grib_complex_reading.specs.Told.{told as points_of, After};
ghost use Rattle.grib_complex_reading.specs.Descriptors.{descriptors_in};
ghost use Rattle.grib_complex_reading.specs.Range.{stretch as stretch_of, reach as reach_of};

use crate::noted::Told;
use grib_group_reading::Table;
use grib_packing::Group;

/// Whether the numbers cannot leave plus and minus 2^60 that are undone with this, whatever the codes of the
/// groups are: a code moves the next difference by no more than its group says, and a difference moves the
/// numbers that follow.
pub fn stays_by(told: &Told, table: &Table, values: u32) -> bool
    requires order { (told.now.order ≡ 1) ⊎ (told.now.order ≡ 2) }
    requires first { nat_abs told.now.first ≤ 2 ^ 31 }
    requires second { nat_abs told.now.second ≤ 2 ^ 31 }
    requires minimum { nat_abs told.now.minimum ≤ 2 ^ 31 }
    requires whole { IsWhole table.now }
    requires narrow { IsNarrow table.now }
    requires values { values_of (groups_in table.now) ≤ values }
    requires some { 1 ≤ values }
    ensures { result ≡ true → (layout : layout_of_groups) (numbers : List Bool)
        → first_place is_out_of_range (points_of (After (descriptors_in told.now) NoNumber) (codes_from layout (groups_in table.now) numbers)) ≡ 0 }
{
    let far = told.first.unsigned_abs() + told.second.unsigned_abs();
    let each = far.saturating_add(reach(table, told.minimum));
    far.saturating_add(each.saturating_mul(times(told.order, values))) <= 1 << 60
}

/// How often a difference moves the numbers at most: each of the values once, where the differences
/// themselves are differences.
fn times(order: u8, values: u32) -> u64
    ensures { result ≡ cond (order == 2) values 1 }
{
    if order == 2 { u64::from(values) } else { 1 }
}

/// How far all codes together can move a difference.
fn reach(table: &Table, minimum: i64) -> u64
    requires whole { IsWhole table.now }
    requires narrow { IsNarrow table.now }
    requires minimum { nat_abs minimum ≤ 2 ^ 31 }
    ensures { result ≡ min (reach_of minimum (groups_in table.now)) (2 ^ 64 - 1) }
{
    let mut reach = 0u64;
    for index in 0..table.len() {
        let group = table.group(index);
        let codes = u64::from(group.count).saturating_mul(stretch(group, minimum));
        reach = reach.saturating_add(codes);
    }
    reach
}

/// How far a code of a group can move a difference.
fn stretch(group: Group, minimum: i64) -> u64
    requires width { group.width ≤ 32 }
    requires minimum { nat_abs minimum ≤ 2 ^ 31 }
    ensures { result ≡ stretch_of minimum group }
{
    let least = i64::from(group.reference) + minimum;
    let most = least + ((1u64 << group.width) - 1) as i64;
    least.unsigned_abs().max(most.unsigned_abs())
}
