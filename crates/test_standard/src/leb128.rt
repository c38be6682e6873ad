//! Numbers as LEB128 (section 5.2.2).

use std::test::Fail;
use wa_syntax::{read_i32, read_i64, read_u32, write_i32, write_i64, write_u32};

#[test]
fn numbers_without_a_sign_are_written_as_by_other_tools(rt: HostRuntime) -> Result<(), Fail> {
    let table: [(u32, &[u8]); 5] = [
        (0, &[0x00]),
        (127, &[0x7f]),
        (128, &[0x80, 0x01]),
        (624485, &[0xe5, 0x8e, 0x26]),
        (4294967295, &[0xff, 0xff, 0xff, 0xff, 0x0f]),
    ];
    for (number, spelling) in table {
        let mut out = Vec::new(rt.alloc());
        write_u32(&mut out, number)?;
        assert_eq!(rt; out.as_slice(), spelling, "at {number}");
    }
    Ok(())
}

#[test]
fn numbers_with_a_sign_are_written_as_by_other_tools(rt: HostRuntime) -> Result<(), Fail> {
    let table: [(i64, &[u8]); 8] = [
        (-1, &[0x7f]),
        (64, &[0xc0, 0x00]),
        (-128, &[0x80, 0x7f]),
        (-123456, &[0xc0, 0xbb, 0x78]),
        (2147483647, &[0xff, 0xff, 0xff, 0xff, 0x07]),
        (-2147483648, &[0x80, 0x80, 0x80, 0x80, 0x78]),
        (
            i64::MAX,
            &[0xff, 0xff, 0xff, 0xff, 0xff, 0xff, 0xff, 0xff, 0xff, 0x00],
        ),
        (
            i64::MIN,
            &[0x80, 0x80, 0x80, 0x80, 0x80, 0x80, 0x80, 0x80, 0x80, 0x7f],
        ),
    ];
    for (number, spelling) in table {
        let mut out = Vec::new(rt.alloc());
        write_i64(&mut out, number)?;
        assert_eq!(rt; out.as_slice(), spelling, "at {number}");

        if let Ok(number) = i32::try_from(number) {
            let mut out = Vec::new(rt.alloc());
            write_i32(&mut out, number)?;
            assert_eq!(rt; out.as_slice(), spelling, "at {number}");
        }
    }
    Ok(())
}

#[test]
fn spellings_are_read_within_the_bytes_and_bits_of_their_type(rt: HostRuntime) {
    // What the bytes are as u32, as i32 and as i64.
    let table: [(&[u8], Option<u32>, Option<i32>, Option<i64>); 13] = [
        (&[], None, None, None),
        (&[0x80], None, None, None),
        (&[0x7f], Some(127), Some(-1), Some(-1)),
        (&[0x81, 0x80, 0x80, 0x80, 0x00], Some(1), Some(1), Some(1)),
        (&[0xff, 0xff, 0xff, 0xff, 0x7f], None, Some(-1), Some(-1)),
        (
            &[0xff, 0xff, 0xff, 0xff, 0x0f],
            Some(4294967295),
            None,
            Some(4294967295),
        ),
        (
            &[0xff, 0xff, 0xff, 0xff, 0x1f],
            None,
            None,
            Some(8589934591),
        ),
        (
            &[0x80, 0x80, 0x80, 0x80, 0x70],
            None,
            None,
            Some(-4294967296),
        ),
        (&[0x81, 0x80, 0x80, 0x80, 0x80, 0x00], None, None, Some(1)),
        (&[0xff, 0xff, 0xff, 0xff, 0xff, 0x7f], None, None, Some(-1)),
        (
            &[0xff, 0xff, 0xff, 0xff, 0xff, 0xff, 0xff, 0xff, 0xff, 0x7f],
            None,
            None,
            Some(-1),
        ),
        (
            &[0xff, 0xff, 0xff, 0xff, 0xff, 0xff, 0xff, 0xff, 0xff, 0x01],
            None,
            None,
            None,
        ),
        (
            &[
                0x80, 0x80, 0x80, 0x80, 0x80, 0x80, 0x80, 0x80, 0x80, 0x80, 0x00,
            ],
            None,
            None,
            None,
        ),
    ];
    for (spelling, as_u32, as_i32, as_i64) in table {
        assert!(rt; spelling.len() < 12);
        let end = spelling.len() as u32;
        assert_eq!(rt;
            read_u32(spelling, 0),
            as_u32.map(|n| (n, end)),
            "at {spelling:?}"
        );
        assert_eq!(rt;
            read_i32(spelling, 0),
            as_i32.map(|n| (n, end)),
            "at {spelling:?}"
        );
        assert_eq!(rt;
            read_i64(spelling, 0),
            as_i64.map(|n| (n, end)),
            "at {spelling:?}"
        );
    }
}
