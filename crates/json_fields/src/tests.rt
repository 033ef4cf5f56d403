use super::*;
use std::test::Fail;

/// What stands under the key `n` of each text, as a number from 2 to 5.
const NUMBERS: [(&str, Result<u32, Fault>); 15] = [
    ("{\"n\":2,\"m\":7}", Ok(2)),
    ("{\"n\":9,\"n\":5}", Ok(5)),
    ("{\"n\":1}", Err(Fault::OutOfRange)),
    ("{\"n\":6}", Err(Fault::OutOfRange)),
    ("{\"n\":-3}", Err(Fault::OutOfRange)),
    ("{\"n\":18446744073709551615}", Err(Fault::OutOfRange)),
    ("{\"n\":18446744073709551616}", Err(Fault::NotWhole)),
    ("{\"n\":-9223372036854775809}", Err(Fault::NotWhole)),
    ("{\"n\":3.0}", Err(Fault::NotWhole)),
    ("{\"n\":3e0}", Err(Fault::NotWhole)),
    ("{\"n\":-0}", Err(Fault::NotWhole)),
    ("{\"n\":\"3\"}", Err(Fault::WrongKind)),
    ("{\"n\":[3]}", Err(Fault::WrongKind)),
    ("{\"n\":null}", Err(Fault::WrongKind)),
    ("{\"m\":3}", Err(Fault::MissingKey)),
];

/// Texts that are no JSON.
const NO_JSON: [&str; 8] = [
    "",
    " ",
    "{",
    "[1,]",
    "01",
    "{\"n\":1e400}",
    "\u{feff}3",
    "3 4",
];

#[test]
fn numbers_under_a_key(rt: HostRuntime) -> Result<(), Fail> {
    for (text, wanted) in NUMBERS {
        let value = json_value(rt.alloc(), text.as_bytes())?;
        assert!(rt; object_from(&value).is_ok());
        assert_eq!(rt; number_under(&value, "n", 2, 5), wanted, "{text}");
    }
    Ok(())
}

#[test]
fn lists_and_members(rt: HostRuntime) -> Result<(), Fail> {
    let value = json_value(rt.alloc(), b"{\"list\":[4,\"x\"],\"n\":1}")?;
    let list = list_under(&value, "list").expect(&rt, "a list");
    assert_eq!(rt; list.len(), 2);
    assert_eq!(rt; number_from(&list[0], 0, 4), Ok(4));
    assert_eq!(rt; number_from(&list[1], 0, 4), Err(Fault::WrongKind));
    let n = member_from(&value, "n").expect(&rt, "a member");
    assert!(rt; object_from(n).is_err() && list_from(n).is_err());
    assert!(rt; matches!(list_under(&value, "lists"), Err(Fault::MissingKey)));
    Ok(())
}

#[test]
fn no_json(rt: HostRuntime) -> Result<(), Fail> {
    for text in NO_JSON {
        let answer = json_value(rt.alloc(), text.as_bytes());
        assert!(rt;
            matches!(answer, Err(ReadErr::Fault(Fault::NotJson))),
            "{text}"
        );
    }
    let answer = json_value(rt.alloc(), b"\"\xc3\"");
    assert!(rt; matches!(answer, Err(ReadErr::Fault(Fault::NotJson))));
    Ok(())
}
