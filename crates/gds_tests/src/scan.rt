use fill_base::Point;
use gds_record::*;
use std::test::*;

#[test]
fn a_record_and_what_follows(rt: HostRuntime) -> Result<(), Fail> {
    let bytes = [0x00, 0x06, 0x00, 0x02, 0x02, 0x58, 0x00, 0x04, 0x04, 0x00];
    let (header, rest) = next_record(&bytes)?;
    assert_eq!(rt; header.kind, kind::HEADER);
    assert_eq!(rt; header.form, form::WORDS);
    assert_eq!(rt; header.body.len(), 2);
    assert_eq!(rt; word(header.body), 600);
    let (end, rest) = next_record(rest)?;
    assert_eq!(rt; end.kind, kind::ENDLIB);
    assert_eq!(rt; end.form, form::NONE);
    assert_eq!(rt; end.body.len(), 0);
    assert_eq!(rt; rest.len(), 0);
    Ok(())
}

#[test]
fn no_record(rt: HostRuntime) {
    let cases: [(&[u8], RecordError); 9] = [
        (&[], RecordError::Truncated),
        (&[0x00], RecordError::Truncated),
        (&[0x00, 0x06], RecordError::Truncated),
        (&[0x00, 0x06, 0x00], RecordError::Truncated),
        (&[0x00, 0x06, 0x00, 0x02, 0x02], RecordError::Truncated),
        (&[0x00, 0x05], RecordError::BadLength),
        (
            &[0x00, 0x05, 0x00, 0x02, 0x02, 0x58],
            RecordError::BadLength,
        ),
        (&[0x00, 0x02, 0x00, 0x00], RecordError::BadLength),
        (&[0x00, 0x00], RecordError::BadLength),
    ];
    for (bytes, want) in cases {
        match next_record(bytes) {
            Ok(_) => assert!(rt; false, "{bytes:?}"),
            Err(e) => assert_eq!(rt; e, want, "{bytes:?}"),
        }
    }
}

#[test]
fn written_as_the_format_says(rt: HostRuntime) -> Result<(), Fail> {
    let mut out = Vec::new(rt.alloc());
    put_record(&mut out, kind::LIBNAME, form::TEXT, b"LIB\0")?;
    put_record(&mut out, kind::ENDLIB, form::NONE, &[])?;
    let want = [0, 8, 2, 6, 0x4c, 0x49, 0x42, 0, 0, 4, 4, 0];
    assert_eq!(rt; out.as_slice(), want.as_slice());
    no_spelling_begins_another();
    laws::constants_are_manual();
    Ok(())
}

#[test]
fn numbers_points_and_names(rt: HostRuntime) {
    assert_eq!(rt; word(&[0xff, 0xfe]), 0xfffe);
    assert_eq!(rt; number(&[0xff, 0xff, 0xff, 0xfe]), -2);
    assert_eq!(rt; number(&[0x80, 0, 0, 0]), -2147483648);
    assert_eq!(rt;
        point(&[0, 0, 0, 9, 0xff, 0xff, 0xff, 0xff]),
        Point { x: 9, y: -1 }
    );
    assert_eq!(rt; name(b"TOP\0"), b"TOP".as_slice());
    assert_eq!(rt; name(b"TOP\0\0\0"), b"TOP".as_slice());
    assert_eq!(rt; name(b"A\0B\0"), b"A\0B".as_slice());
    assert_eq!(rt; name(b"\0\0"), b"".as_slice());
}

#[test]
fn one_in_each_spelling(rt: HostRuntime) {
    assert_eq!(rt; unit_mag(&[0x41, 0x10, 0, 0, 0, 0, 0, 0]), Ok(()));
    assert_eq!(rt; unit_mag(&[0x42, 0x01, 0, 0, 0, 0, 0, 0]), Ok(()));
    assert_eq!(rt; unit_mag(&[0x4e, 0, 0, 0, 0, 0, 0, 1]), Ok(()));
    assert_eq!(rt; unit_mag(&[0, 0, 0, 0, 0, 0, 0, 0]), Err(BadReal));
    assert_eq!(rt; unit_mag(&[0xc1, 0x10, 0, 0, 0, 0, 0, 0]), Err(BadReal));
    assert_eq!(rt; unit_mag(&[0x41, 0x20, 0, 0, 0, 0, 0, 0]), Err(BadReal));
    assert_eq!(rt; unit_mag(&[0x41, 0x10, 0, 0, 0, 0, 0, 1]), Err(BadReal));
}

#[test]
fn quarter_turns_of_degrees(rt: HostRuntime) {
    let cases: [([u8; 8], Result<u8, BadReal>); 12] = [
        ([0x42, 0x5a, 0, 0, 0, 0, 0, 0], Ok(1)),
        ([0x43, 0x05, 0xa0, 0, 0, 0, 0, 0], Ok(1)),
        ([0x42, 0xb4, 0, 0, 0, 0, 0, 0], Ok(2)),
        ([0x43, 0x10, 0xe0, 0, 0, 0, 0, 0], Ok(3)),
        ([0x43, 0x16, 0x80, 0, 0, 0, 0, 0], Ok(0)),
        ([0xc2, 0x5a, 0, 0, 0, 0, 0, 0], Ok(3)),
        ([0xc3, 0x16, 0x80, 0, 0, 0, 0, 0], Ok(0)),
        ([0; 8], Ok(0)),
        ([0xff, 0, 0, 0, 0, 0, 0, 0], Ok(0)),
        ([0x42, 0x2d, 0, 0, 0, 0, 0, 0], Err(BadReal)),
        ([0x42, 0x5a, 0, 0, 0, 0, 0, 1], Err(BadReal)),
        ([0x43, 0x1c, 0x20, 0, 0, 0, 0, 0], Err(BadReal)),
    ];
    for (bytes, want) in cases {
        assert_eq!(rt; quarter_turns(&bytes), want, "{bytes:?}");
    }
}
