//! Each call once with ample memory. The bytes are the ends of the rows of table 3-7 of The Unicode Standard, and their neighbours.
use super::*;
use std::alloc::{AllocError, AllocFailed};
use std::test::Fail as Failed;

#[test]
fn reads_utf8(rt: HostRuntime) -> Result<(), Failed> {
    let table: [(&[u8], &[u16]); 9] = [
        (b"", &[]),
        (b"main", &[0x6D, 0x61, 0x69, 0x6E]),
        (b"\x00\x7F", &[0, 0x7F]),
        (b"\xC2\x80\xDF\xBF", &[0x80, 0x7FF]),
        (b"\xE0\xA0\x80\xED\x9F\xBF", &[0x800, 0xD7FF]),
        (b"\xEE\x80\x80\xEF\xBF\xBF", &[0xE000, 0xFFFF]),
        (b"\xF0\x90\x80\x80", &[0xD800, 0xDC00]),
        (b"\xF0\x9F\x98\x80", &[0xD83D, 0xDE00]),
        (b"\xEF\xBB\xBF\xF4\x8F\xBF\xBF", &[0xFEFF, 0xDBFF, 0xDFFF]),
    ];
    for (bytes, units) in table {
        let text = Text::from_utf8(rt.alloc(), bytes)?;
        assert_eq!(rt; text.units(), units, "of {bytes:?}");
        assert_eq!(rt; text.to_utf8(rt.alloc())?.as_slice(), bytes, "of {units:?}");
    }
    Ok(())
}

#[test]
fn refuses_other_bytes(rt: HostRuntime) {
    let table: [(&[u8], usize); 14] = [
        (b"\xC3\x28", 0),
        (b"a\xC3\x28", 1),
        (b"\x80", 0),
        (b"\xC0\x80", 0),
        (b"\xC1\xBF", 0),
        (b"\xE0\x9F\xBF", 0),
        (b"\xED\xA0\x80", 0),
        (b"\xF0\x8F\xBF\xBF", 0),
        (b"\xF4\x90\x80\x80", 0),
        (b"\xF5\x80\x80\x80", 0),
        (b"\xC2\xA9\xE2\x82", 2),
        (b"\xF0\x9F\x98", 0),
        (b"\xF0\x9F\x98\x80\xFF", 4),
        (b"ok\xEF\xBF", 2),
    ];
    for (bytes, at) in table {
        let refused = Text::from_utf8(rt.alloc(), bytes);
        assert_eq!(rt; refused, Err(Fail::Found(BadUtf8 { at })), "of {bytes:?}");
    }
}

#[test]
fn writes_lone_surrogates_as_question_marks(rt: HostRuntime) -> Result<(), Failed> {
    let table: [(&[u16], &[u8]); 8] = [
        (&[0xD800], b"?"),
        (&[0xDFFF], b"?"),
        (&[0xD800, 0x41], b"?A"),
        (&[0xD83D, 0xDE00], b"\xF0\x9F\x98\x80"),
        (&[0xDE00, 0xD83D], b"??"),
        (&[0xD83D, 0xD83D, 0xDE00], b"?\xF0\x9F\x98\x80"),
        (&[0xD83D, 0xDE00, 0xDE00], b"\xF0\x9F\x98\x80?"),
        (&[0x41, 0xDBFF], b"A?"),
    ];
    for (units, bytes) in table {
        let text = Text::from_units(rt.alloc(), units.to_vec(rt.alloc())?)?;
        assert_eq!(rt; text.to_utf8(rt.alloc())?.as_slice(), bytes, "of {units:?}");
    }
    Ok(())
}

#[test]
fn builds_and_compares(rt: HostRuntime) -> Result<(), Failed> {
    let mut text = Text::new(rt.alloc());
    assert!(rt; text.is_empty());
    text.push(0x6B)?;
    text.push_units(&[0x63])?;
    assert_eq!(rt; text.len(), 2);
    assert!(rt; !text.is_empty());
    assert_eq!(rt; text.unit_at(1), 0x63);
    assert_eq!(rt; text, Text::from_str(rt.alloc(), "kc")?);
    assert_eq!(rt; text, text.copy(rt.alloc())?);
    assert_ne!(rt; text, Text::from_str(rt.alloc(), "kC")?);
    assert_eq!(rt; text.units(), [0x6B, 0x63].as_slice());
    Ok(())
}

#[test]
fn changes_leave_copies_as_they_are(rt: HostRuntime) -> Result<(), Failed> {
    let mut text = Text::from_units(rt.alloc(), [0x61; 300].to_vec(rt.alloc())?)?;
    let mut other = text.copy(rt.alloc())?;
    let third = other.copy(rt.alloc())?;
    other.push(0x62)?;
    other.push(0x63)?;
    text.push_units(&[0x64])?;
    assert_eq!(rt; (other.len(), other.unit_at(301)), (302, 0x63));
    assert_eq!(rt; (text.len(), text.unit_at(300)), (301, 0x64));
    assert_eq!(rt; third.units(), [0x61; 300].as_slice());
    Ok(())
}

#[test]
fn refills(rt: HostRuntime) -> Result<(), Failed> {
    let mut text = Text::new(rt.alloc());
    let mut copy = text.copy(rt.alloc())?;
    copy.push(0x61)?;
    assert!(rt; text.is_empty());
    text.refill(&[0x62, 0x63])?;
    let mut other = text.copy(rt.alloc())?;
    other.refill(&[0x64])?;
    assert_eq!(rt; text.units(), [0x62, 0x63].as_slice());
    assert_eq!(rt; other.units(), [0x64].as_slice());
    other.refill(&[])?;
    assert!(rt; other.is_empty());
    assert_eq!(rt; copy.units(), [0x61].as_slice());
    Ok(())
}

#[test]
fn numbers_names(rt: HostRuntime) -> Result<(), Failed> {
    let mut names = Names::new(rt.alloc());
    assert!(rt; names.is_empty());
    for (word, number) in [("b", 0), ("a", 1), ("b", 0), ("", 2), ("a", 1)] {
        assert_eq!(rt; names.find(&Text::from_str(rt.alloc(), "c")?), None);
        let added = names.add(Text::from_str(rt.alloc(), word)?)?;
        assert_eq!(rt; added, number, "of {word:?}");
        assert_eq!(rt;
            names.find(&Text::from_str(rt.alloc(), word)?),
            Some(number),
            "of {word:?}"
        );
    }
    assert_eq!(rt; names.len(), 3);
    assert!(rt; !names.is_empty());
    assert_eq!(rt; *names.text(1), Text::from_str(rt.alloc(), "a")?);
    Ok(())
}

#[test]
fn keeps_want_of_memory_apart(rt: HostRuntime) {
    assert_eq!(rt; Fail::<BadUtf8>::from(AllocError), Fail::Memory);
    assert_eq!(rt;
        Fail::<BadUtf8>::from(Memory::from(AllocError)),
        Fail::Memory
    );
    assert_eq!(rt; Memory::from(AllocError::from(Memory)), Memory);
    let refused = AllocFailed { value: 1u8 };
    assert_eq!(rt; Fail::<BadUtf8>::from(refused), Fail::Memory);
    assert_ne!(rt; Fail::Found(BadUtf8 { at: 0 }), Fail::Memory);
}

/// The bytes are the ends of the ranges of the JVM Specification SE 8, 4.4.7.
#[test]
fn reads_and_writes_modified_utf8(rt: HostRuntime) -> Result<(), Failed> {
    let table: [(&[u8], &[u16]); 9] = [
        (b"", &[]),
        (b"main\x01\x7F", &[0x6D, 0x61, 0x69, 0x6E, 1, 0x7F]),
        (b"\xC0\x80", &[0]),
        (b"\xC2\x80\xDF\xBF", &[0x80, 0x7FF]),
        (b"\xE0\xA0\x80\xED\x9F\xBF", &[0x800, 0xD7FF]),
        (b"\xED\xA0\x80\xED\xBF\xBF", &[0xD800, 0xDFFF]),
        (b"\xED\xA0\xBD\xED\xB8\x80", &[0xD83D, 0xDE00]),
        (b"\xED\xBE\x80\xED\xA0\x80", &[0xDF80, 0xD800]),
        (b"\xEE\x80\x80\xEF\xBF\xBF", &[0xE000, 0xFFFF]),
    ];
    for (bytes, units) in table {
        let text = Text::from_modified(rt.alloc(), bytes)?;
        assert_eq!(rt; text.units(), units, "of {bytes:?}");
        assert_eq!(rt;
            text.to_modified(rt.alloc())?.as_slice(),
            bytes,
            "of {units:?}"
        );
    }
    Ok(())
}

#[test]
fn refuses_other_modified_bytes(rt: HostRuntime) {
    let table: [(&[u8], usize); 14] = [
        (b"\x00", 0),
        (b"a\x00b", 1),
        (b"\x80", 0),
        (b"\xC0\x81", 0),
        (b"\xC1\xBF", 0),
        (b"\xC2", 0),
        (b"\xC2\x7F", 0),
        (b"\xC2\xC0", 0),
        (b"\xE0\x80\x80", 0),
        (b"\xE0\x9F\xBF", 0),
        (b"a\xE0\xA0", 1),
        (b"\xC3\xA9\xE4\xB8\x2D", 2),
        (b"ok\xF0\x9F\x98\x80", 2),
        (b"\xED\xA0\xBD\xFF", 3),
    ];
    for (bytes, at) in table {
        let refused = Text::from_modified(rt.alloc(), bytes);
        assert_eq!(rt;
            refused,
            Err(Fail::Found(BadModified { at })),
            "of {bytes:?}"
        );
    }
}
