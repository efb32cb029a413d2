use crate::{Kind, Line, Mark, Reader, Record, ShortBuffer, Trouble, write_line};
use std::test::Fail;

fn first_of(input: &[u8]) -> Option<Record> {
    let mut reader = Reader::new(input);
    match reader.next() {
        Ok(Some(part)) => Some(part.record()),
        _ => None,
    }
}

// How many records an input has, and the number and the place of its fault. No input here has more than three.
fn reading(input: &[u8]) -> (usize, Option<(u32, usize)>) {
    let mut reader = Reader::new(input);
    for count in 0..4 {
        match reader.next() {
            Ok(Some(_)) => {}
            Ok(None) => return (count, None),
            Err(fault) => return (count, Some((u32::from(fault.trouble), fault.place))),
        }
    }
    (4, None)
}

#[test]
fn numbers_are_read_high_byte_first(rt: HostRuntime) {
    let table: [(&[u8], Record); 6] = [
        (
            &[1, 0, 10, 1, 2, 3, 4, 5, 6, 7, 8, 9, 10],
            Record::Populate {
                address: 0x0102_0304_0506_0708,
                attributes: 0x090A,
            },
        ),
        (
            &[2, 0, 8, 1, 2, 3, 4, 5, 6, 7, 8],
            Record::Release {
                address: 0x0102_0304_0506_0708,
            },
        ),
        (
            &[3, 0, 10, 0, 0, 0, 0, 0, 0, 0, 255, 255, 0],
            Record::Protect {
                address: 255,
                attributes: 0xFF00,
            },
        ),
        (
            &[4, 0, 9, 255, 0, 0, 0, 0, 0, 0, 1, 2],
            Record::Touch {
                address: 0xFF00_0000_0000_0001,
                access: 2,
            },
        ),
        (
            &[5, 0, 8, 0, 0, 0, 0, 0, 4, 16, 52],
            Record::Try { address: 0x41034 },
        ),
        (&[6, 0, 0], Record::Census),
    ];
    for (input, record) in table {
        assert_eq!(rt; first_of(input), Some(record), "{input:?}");
    }
}

#[test]
fn an_input_ends_or_has_one_fault(rt: HostRuntime) {
    let table: [(&[u8], usize, Option<(u32, usize)>); 20] = [
        (&[], 0, None),
        (&[6, 0, 0], 1, None),
        (
            &[6, 0, 0, 2, 0, 8, 1, 2, 3, 4, 5, 6, 7, 8, 6, 0, 0],
            3,
            None,
        ),
        // one byte and two, whatever the tag
        (&[6], 0, Some((13, 0))),
        (&[9], 0, Some((13, 0))),
        (&[9, 0], 0, Some((13, 0))),
        // a tag before a length, and a length before a payload
        (&[0, 0, 0, 6, 0, 0], 0, Some((14, 0))),
        (&[7, 255, 255], 0, Some((14, 0))),
        (&[6, 0, 1, 6, 0, 0], 0, Some((15, 0))),
        (&[6, 1, 0], 0, Some((15, 0))),
        (&[2, 8, 0, 1, 2, 3, 4, 5, 6, 7, 8], 0, Some((15, 0))),
        (&[2, 0, 8, 1, 2, 3, 4, 5, 6, 7], 0, Some((13, 0))),
        // behind one record
        (&[6, 0, 0, 8, 0, 0, 6, 0, 0], 1, Some((14, 3))),
        (&[6, 0, 0, 4, 0, 8, 6, 0, 0], 1, Some((15, 3))),
        (&[6, 0, 0, 2, 0, 8, 6, 0, 0], 1, Some((13, 3))),
        // and at the last
        (&[6, 0, 0, 6, 0, 0, 255, 0, 0], 2, Some((14, 6))),
        (&[6, 0, 0, 6, 0, 0, 1, 0, 8], 2, Some((15, 6))),
        (&[6, 0, 0, 6, 0, 0, 3, 0, 10], 2, Some((13, 6))),
        (&[6, 0, 0, 6, 0, 0, 6, 0], 2, Some((13, 6))),
        (&[6, 0, 0, 6, 0, 0, 6], 2, Some((13, 6))),
    ];
    for (input, records, fault) in table {
        assert_eq!(rt; reading(input), (records, fault), "{input:?}");
    }
}

#[test]
fn a_payload_is_a_part_of_the_input(rt: HostRuntime) {
    let input = [6, 0, 0, 4, 0, 9, 0, 0, 0, 0, 0, 4, 16, 52, 1, 2];
    let mut reader = Reader::new(&input);
    assert!(rt; matches!(reader.next(), Ok(Some(part)) if part.payload.is_empty()));
    let second = reader.next();
    assert!(rt;
        matches!(second, Ok(Some(part)) if part.place == 3 && part.payload == [0, 0, 0, 0, 0, 4, 16, 52, 1].as_slice())
    );
    assert!(rt; matches!(reader.next(), Err(fault) if fault.place == 15));
    assert!(rt; matches!(reader.next(), Err(fault) if fault.place == 15));
}

#[test]
fn a_line_stands_at_the_front(rt: HostRuntime) {
    const MOST: u32 = u32::MAX;
    let table: [(Line, &[u8]); 20] = [
        (Line::Populated { frame: 4097 }, b"p 4097\n"),
        (Line::Populated { frame: MOST }, b"p 4294967295\n"),
        (Line::Released { frame: 0 }, b"r 0\n"),
        (Line::Released { frame: MOST }, b"r 4294967295\n"),
        (Line::Protected { attributes: 3 }, b"a 3\n"),
        (Line::Protected { attributes: 65535 }, b"a 65535\n"),
        (touched(16_781_364, Mark::Missed), b"t 16781364 w\n"),
        (touched(16_781_364, Mark::Hit), b"t 16781364 h\n"),
        (touched(0, Mark::Hit), b"t 0 h\n"),
        (
            touched(u64::MAX, Mark::Missed),
            b"t 18446744073709551615 w\n",
        ),
        (Line::Tried { frame: 10 }, b"f 10\n"),
        (Line::Tried { frame: MOST }, b"f 4294967295\n"),
        (counted(1, 0, 1, 0), b"c 1 0 1 0\n"),
        (
            counted(MOST, MOST, MOST, MOST),
            b"c 4294967295 4294967295 4294967295 4294967295\n",
        ),
        (refused(Kind::Touch, 9), b"t !9\n"),
        (refused(Kind::Populate, 4), b"p !4\n"),
        (refused(Kind::Release, MOST), b"r !4294967295\n"),
        (faulted(Trouble::Cut, 0), b"x 13 0\n"),
        (faulted(Trouble::UnknownTag, 3), b"x 14 3\n"),
        (faulted(Trouble::WrongLength, MOST), b"x 15 4294967295\n"),
    ];
    for (line, text) in table {
        let mut buffer = [b'#'; 70];
        assert_eq!(rt; write_line(line, &mut buffer), Ok(text.len()), "{line:?}");
        assert!(rt;
            buffer.starts_with(text) && buffer.ends_with(b"######"),
            "{line:?}"
        );
    }
}

fn touched(physical: u64, mark: Mark) -> Line {
    Line::Touched { physical, mark }
}

fn counted(nodes: u32, rows: u32, pages: u32, fills: u32) -> Line {
    Line::Counted {
        nodes,
        rows,
        pages,
        fills,
    }
}

fn refused(kind: Kind, number: u32) -> Line {
    Line::Refused { kind, number }
}

fn faulted(trouble: Trouble, place: u32) -> Line {
    Line::Faulted { trouble, place }
}

#[test]
fn a_short_buffer_is_left_untouched(rt: HostRuntime) {
    let line = Line::Populated { frame: 4097 };
    let mut short = [b'#'; 63];
    assert_eq!(rt; write_line(line, &mut short), Err(ShortBuffer));
    assert!(rt; short.iter().all(|byte| *byte == b'#'));
    assert_eq!(rt; u32::from(ShortBuffer), 16);
    let mut enough = [b'#'; 64];
    assert_eq!(rt; write_line(line, &mut enough), Ok(7));
}
