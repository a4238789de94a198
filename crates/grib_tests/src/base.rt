//! What all readers of messages share: reasons and lists.

use grib_base::{List, Reason};
use std::test::Fail;

#[test]
fn list_has_its_items_in_order(rt: HostRuntime) -> Result<(), Fail> {
    let list = List::of([3u8, 1, 2].to_vec(rt.alloc())?);
    assert_eq!(rt; list.as_slice(), [3u8, 1, 2].as_slice());
    Ok(())
}

#[test]
fn reasons_have_their_numbers(rt: HostRuntime) {
    let table = [
        (Reason::Truncated, 1),
        (Reason::BitmapIndicator, 16),
        (Reason::DataTooShort, 27),
        (Reason::ExtraFlags, 37),
        (Reason::BlockCode, 38),
    ];
    for (reason, number) in table {
        assert_eq!(rt; reason.number(), number);
    }
}

#[test]
fn reason_prints_its_name(rt: HostRuntime) -> Result<(), Fail> {
    let reason = Reason::GridTemplate;
    let printed = format!(in rt.alloc(); "{reason}")?;
    assert_eq!(rt; printed.as_str(), "GridTemplate");
    Ok(())
}
