// Lines that ask for a word, and lines that do not.
use word_lines::{Query, parse_line};

#[test]
fn prefix_and_blanks(rt: HostRuntime) {
    let query = Query {
        form: 1,
        word: 0xAB,
        offset: 2,
    };
    assert_eq!(rt; parse_line(b"1 0xaB 2"), Some(query));
    assert_eq!(rt; parse_line(b"\t01 0XAb  2\r"), Some(query));
    assert_eq!(rt; parse_line(b"1 0x 2"), None);
}

#[test]
fn largest_numbers(rt: HostRuntime) {
    let query = Query {
        form: u64::MAX,
        word: u64::MAX,
        offset: 0,
    };
    assert_eq!(rt;
        parse_line(b"18446744073709551615 ffffffffffffffff 0"),
        Some(query)
    );
    assert_eq!(rt; parse_line(b"18446744073709551616 0 0"), None);
    assert_eq!(rt; parse_line(b"1 0x10000000000000000 0"), None);
}
