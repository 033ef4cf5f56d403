use super::{Fault, field_in, is_named, records_of, thousandths, whole_number};
use std::test::Fail;

/// Texts, how many records are asked for, how many come before the uneven one, and that one's number.
const TEXTS: [(&str, usize, usize, Option<u64>); 12] = [
    ("", 9, 0, None),
    ("\n\r\n", 9, 0, None),
    ("a,b", 9, 1, None),
    ("\u{feff}a,b\n\nc,d\r\n", 2, 2, None),
    ("a,b\nc\nd,e\n", 9, 1, Some(2)),
    ("a\nb\nc,d\ne,f,g\n", 3, 2, Some(3)),
    ("a\nb\nc,d\ne,f,g\n", 2, 2, None),
    ("\"a,b\"\n\"c\nd\"\n", 9, 2, None),
    ("a,b\nc,d\n,\n,,", 9, 3, Some(4)),
    ("a,b\nc,d\n,\n,,", 3, 3, None),
    ("a,b\nc,d\n", 1, 1, None),
    ("a,b\nc\n", 0, 0, None),
];

#[test]
fn records(rt: HostRuntime) -> Result<(), Fail> {
    for (text, most, rows, uneven) in TEXTS {
        let records = records_of(rt.alloc(), text.as_bytes(), most).expect(&rt, "records");
        assert_eq!(rt; records.rows.len(), rows, "{text}");
        assert_eq!(rt; records.uneven_row(), uneven, "{text}");
    }
    Ok(())
}

/// A quote within a field is a byte of it, and a doubled one in quotes is one.
#[test]
fn fields(rt: HostRuntime) -> Result<(), Fail> {
    let text = " \ta b\t,\" \",,\"\"\"x\",y\"z,\n";
    let records = records_of(rt.alloc(), text.as_bytes(), 1).expect(&rt, "records");
    let row = records.rows.first().expect(&rt, "a record");
    for (column, field) in ["a b", "", "", "\"x", "y\"z", "", ""].iter().enumerate() {
        assert!(rt; is_named(row, column, field), "{field}");
        assert_eq!(rt; field_in(row, column), field.as_bytes());
    }
    Ok(())
}

/// Fields, their value as a whole number from 1 to 999999, and their thousandths from 1 to 2000 wholes.
const NUMBERS: [(&str, Result<u32, Fault>, Result<u64, Fault>); 14] = [
    ("7", Ok(7), Ok(7000)),
    ("0002000", Ok(2000), Ok(2_000_000)),
    ("0", Err(Fault::OutOfRange), Err(Fault::OutOfRange)),
    ("1000000", Err(Fault::OutOfRange), Err(Fault::OutOfRange)),
    (
        "18446744073709551617",
        Err(Fault::OutOfRange),
        Err(Fault::OutOfRange),
    ),
    ("1999.5", Err(Fault::NotWhole), Ok(1_999_500)),
    ("1999.05", Err(Fault::NotWhole), Ok(1_999_050)),
    ("1999.005", Err(Fault::NotWhole), Ok(1_999_005)),
    ("1999.0050", Err(Fault::NotWhole), Err(Fault::NotWhole)),
    ("0.999", Err(Fault::NotWhole), Err(Fault::OutOfRange)),
    ("2000.001", Err(Fault::NotWhole), Err(Fault::OutOfRange)),
    ("1.2.3", Err(Fault::WrongKind), Err(Fault::WrongKind)),
    (".5", Err(Fault::WrongKind), Err(Fault::WrongKind)),
    ("+5", Err(Fault::WrongKind), Err(Fault::WrongKind)),
];

#[test]
fn numbers(rt: HostRuntime) -> Result<(), Fail> {
    for (field, whole, thousand) in NUMBERS {
        assert_eq!(rt;
            whole_number(field.as_bytes(), 1, 999_999),
            whole,
            "{field}"
        );
        assert_eq!(rt; thousandths(field.as_bytes(), 1, 2000), thousand, "{field}");
    }
    Ok(())
}
