//! Tables, read and looked up.

use grib_params::{Table, TableFault, Target};
use std::alloc::Global;
use std::fmt::Write;
use std::test::Fail;

// The fault of a text, `None` where it is a table.
fn fault_of(alloc: Global, text: &[u8]) -> Option<TableFault> {
    Table::read(alloc, text).err()
}

// A target of discipline 0 and category 0 by master tables 2.
fn target(number: u8) -> Target {
    Target {
        discipline: 0,
        category: 0,
        number,
        master: 2,
        local: 0,
    }
}

#[test]
fn centre_before_every_centre(rt: HostRuntime) -> Result<(), Fail> {
    let text: &[u8] = b"*,2,11,0,0,0,2,0\n98,2,11,0,0,1,2,0\n";
    let table = Table::read(rt.alloc(), text)?;
    assert_eq!(rt; table.lookup(98, 2, 11), Some(target(1)));
    assert_eq!(rt; table.lookup(7, 2, 11), Some(target(0)));
    assert_eq!(rt; table.lookup(7, 3, 11), None);
    assert_eq!(rt; table.lookup(98, 2, 12), None);
    Ok(())
}

#[test]
fn ends_of_line_marks_and_quotes(rt: HostRuntime) -> Result<(), Fail> {
    let texts: [&[u8]; 6] = [
        b"98,2,11,0,0,1,2,0",
        b"98,2,11,0,0,1,2,0\r\n",
        b"98,2,11,0,0,1,2,0\r",
        b"\xEF\xBB\xBF98,2,11,0,0,1,2,0\n",
        b"\"98\",\"2\",11,0,0,1,2,\"0\"\n",
        b"\n\r\n98,2,11,0,0,1,2,0\n\n",
    ];
    for text in texts {
        let table = Table::read(rt.alloc(), text)?;
        assert_eq!(rt; table.lookup(98, 2, 11), Some(target(1)));
    }
    Ok(())
}

// Octets that are no text, a mark inside the text, and a quote that is no quote.
#[test]
fn octets_that_are_no_digits(rt: HostRuntime) -> Result<(), Fail> {
    let texts: [&[u8]; 4] = [
        b"98,2,11,0,0,1,2,\xFF",
        b"98,2,11,0,0,1,2,0\n\xEF\xBB\xBF98,2,12,0,0,1,2,0\n",
        b"98,2,1\"1\",0,0,1,2,0\n",
        b"98,2,\"1\n1\",0,0,1,2,0\n",
    ];
    let faults = [
        TableFault::Row(1),
        TableFault::Row(2),
        TableFault::Row(1),
        TableFault::Row(1),
    ];
    for (text, fault) in texts.into_iter().zip(faults) {
        assert_eq!(rt; fault_of(rt.alloc(), text), Some(fault));
    }
    Ok(())
}

// More rows than a buffer of the reader holds.
#[test]
fn many_rows(rt: HostRuntime) -> Result<(), Fail> {
    let mut text = String::new(rt.alloc());
    for version in 0..=255_u8 {
        for parameter in 0..8_u8 {
            writeln!(text, "98,{version},{parameter},0,0,{parameter},2,0")?;
        }
    }
    let table = Table::read(rt.alloc(), text.as_bytes())?;
    for version in 0..=255_u8 {
        for parameter in 0..8_u8 {
            assert_eq!(rt;
                table.lookup(98, version, parameter),
                Some(target(parameter))
            );
        }
        assert_eq!(rt; table.lookup(98, version, 8), None);
    }
    writeln!(text, "98,200,7,0,0,0,2,0")?;
    assert_eq!(rt;
        fault_of(rt.alloc(), text.as_bytes()),
        Some(TableFault::Duplicate(2049))
    );
    Ok(())
}

#[test]
fn faults_are_told(rt: HostRuntime) -> Result<(), Fail> {
    let text = format!(in rt.alloc(); "{}, {}", TableFault::Row(3), TableFault::Duplicate(4))?;
    assert_eq!(rt;
        text.as_str(),
        "record 3 of the table is no row, record 4 of the table repeats an earlier one"
    );
    Ok(())
}
