//! What `read_class` answers to some files.

use class_file::format_fault::{FormatCode, FormatFault};
use class_file::pool::Entry;
use class_reader::read_class;
use kc_text::Fail;
use std::test::Fail as Failed;

// A class M right below java/lang/Object, whose public static method main()V only returns.
const BYTES: [u8; 100] = [
    0xCA, 0xFE, 0xBA, 0xBE, 0, 0, 0, 52, 0, 8, 1, 0, 1, 77, 7, 0, 1, 1, 0, 16, 106, 97, 118, 97,
    47, 108, 97, 110, 103, 47, 79, 98, 106, 101, 99, 116, 7, 0, 3, 1, 0, 4, 109, 97, 105, 110, 1,
    0, 3, 40, 41, 86, 1, 0, 4, 67, 111, 100, 101, 0, 33, 0, 2, 0, 4, 0, 0, 0, 0, 0, 1, 0, 9, 0, 5,
    0, 6, 0, 1, 0, 7, 0, 0, 0, 13, 0, 0, 0, 0, 0, 0, 0, 1, 0xB1, 0, 0, 0, 0, 0, 0,
];

#[test]
fn reads_a_class(rt: HostRuntime) -> Result<(), Failed> {
    let class = read_class(rt.alloc(), &BYTES).ok().ok_or("no class")?;
    assert_eq!(rt; class.pool.count(), 8);
    assert_eq!(rt; class.flags, 33);
    assert_eq!(rt; class.this_name.units(), [77].as_slice());
    assert_eq!(rt; class.methods.len(), 1);
    Ok(())
}

fn is_fault(rt: &HostRuntime, bytes: &[u8], at: usize, code: FormatCode) -> bool {
    match read_class(rt.alloc(), bytes) {
        Err(Fail::Found(found)) => found == FormatFault { at, code },
        _ => false,
    }
}

// A byte that is changed, and the first fault then.
const FAULTS: [(usize, u8, usize, FormatCode); 8] = [
    (0, 0, 0, FormatCode::BadMagic),
    (5, 1, 4, FormatCode::Version),
    (9, 0, 8, FormatCode::BadPool),
    (10, 4, 10, FormatCode::OutOfProfile),
    (13, 0, 13, FormatCode::BadName),
    (16, 2, 15, FormatCode::BadIndex),
    (49, 41, 75, FormatCode::BadDescriptor),
    (93, 0xBA, 93, FormatCode::BadCode),
];

#[test]
fn tells_the_first_fault(rt: HostRuntime) {
    for (place, byte, at, code) in FAULTS {
        let mut bytes = BYTES;
        bytes[place % 100] = byte;
        assert!(rt; is_fault(&rt, &bytes, at, code));
    }
    assert!(rt; is_fault(&rt, &BYTES[..99], 98, FormatCode::Truncated));
}

// A class M with the fields a and b of the type I and the method f()V, which has a frame; then a byte that does not belong to it.
const FRAMED: [u8; 151] = [
    202, 254, 186, 190, 0, 0, 0, 52, 0, 12, 1, 0, 1, 77, 7, 0, 1, 1, 0, 16, 106, 97, 118, 97, 47,
    108, 97, 110, 103, 47, 79, 98, 106, 101, 99, 116, 7, 0, 3, 1, 0, 1, 97, 1, 0, 1, 73, 1, 0, 1,
    98, 1, 0, 13, 83, 116, 97, 99, 107, 77, 97, 112, 84, 97, 98, 108, 101, 1, 0, 4, 67, 111, 100,
    101, 1, 0, 1, 102, 1, 0, 3, 40, 41, 86, 0, 33, 0, 2, 0, 4, 0, 0, 0, 2, 0, 9, 0, 5, 0, 6, 0, 0,
    0, 9, 0, 7, 0, 6, 0, 0, 0, 1, 0, 9, 0, 10, 0, 11, 0, 1, 0, 9, 0, 0, 0, 22, 0, 0, 0, 0, 0, 0, 0,
    1, 177, 0, 0, 0, 1, 0, 8, 0, 0, 0, 3, 0, 1, 0, 0, 0, 0,
];

const FRAMED_FAULTS: [(usize, u8, usize, FormatCode); 4] = [
    (105, 5, 106, FormatCode::Doubled),
    (144, 2, 147, FormatCode::Truncated),
    (146, 0, 147, FormatCode::Trailing),
    (147, 200, 147, FormatCode::BadFrame),
];

#[test]
fn tells_the_first_fault_of_members(rt: HostRuntime) {
    for (place, byte, at, code) in FRAMED_FAULTS {
        let mut bytes = FRAMED;
        bytes[place % 151] = byte;
        assert!(rt; is_fault(&rt, &bytes[..150], at, code));
    }
    assert!(rt; read_class(rt.alloc(), &FRAMED[..150]).is_ok());
    assert!(rt; is_fault(&rt, &FRAMED, 150, FormatCode::Trailing));
}

fn push_all(bytes: &mut Vec<u8>, byte: u8, count: usize) -> Result<(), Failed> {
    for _ in 0..count {
        bytes.push(byte)?;
    }
    Ok(())
}

// The class above with as many frames as a method can have: one of as many local variables as a frame can have, and behind it those
// of one byte that say the same.
fn many_frames(rt: &HostRuntime) -> Result<Vec<u8>, Failed> {
    let mut bytes = Vec::new(rt.alloc());
    bytes.extend_from_slice(&FRAMED[..122])?;
    bytes.extend_from_slice(&131_097u32.to_be_bytes())?;
    bytes.extend_from_slice(&FRAMED[126..141])?;
    bytes.extend_from_slice(&131_078u32.to_be_bytes())?;
    bytes.extend_from_slice(&[0xFF, 0xFF, 255, 0, 0, 0xFF, 0xFF])?;
    push_all(&mut bytes, 1, 65_535)?;
    push_all(&mut bytes, 0, 2)?;
    push_all(&mut bytes, 0, 65_534)?;
    push_all(&mut bytes, 0, 2)?;
    Ok(bytes)
}

// Each with local variables of its own would take four thousand million types.
#[test]
fn frames_share_local_variables(rt: HostRuntime) -> Result<(), Failed> {
    let bytes = many_frames(&rt)?;
    let class = read_class(rt.alloc(), &bytes).ok().ok_or("no class")?;
    let method = class.methods.as_slice().first().ok_or("no method")?;
    assert_eq!(rt; method.frames.len(), 65_535);
    let last = method.frames.as_slice().last().ok_or("no frame")?;
    assert_eq!(rt; last.at, 65_534);
    assert_eq!(rt; last.locals.len(), 65_535);
    Ok(())
}

// A pool that holds a text and a long twice is kept as it stands.
const REPEATED: [u8; 122] = [
    202, 254, 186, 190, 0, 0, 0, 52, 0, 13, 1, 0, 1, 77, 7, 0, 1, 1, 0, 16, 106, 97, 118, 97, 47,
    108, 97, 110, 103, 47, 79, 98, 106, 101, 99, 116, 7, 0, 3, 1, 0, 4, 109, 97, 105, 110, 1, 0, 3,
    40, 41, 86, 1, 0, 4, 67, 111, 100, 101, 1, 0, 1, 77, 5, 0, 0, 0, 0, 0, 0, 0, 7, 5, 0, 0, 0, 0,
    0, 0, 0, 7, 0, 33, 0, 2, 0, 4, 0, 0, 0, 0, 0, 1, 0, 9, 0, 5, 0, 6, 0, 1, 0, 7, 0, 0, 0, 13, 0,
    0, 0, 0, 0, 0, 0, 1, 177, 0, 0, 0, 0, 0, 0,
];

#[test]
fn reads_repeated_entries(rt: HostRuntime) -> Result<(), Failed> {
    let class = read_class(rt.alloc(), &REPEATED).ok().ok_or("no class")?;
    assert_eq!(rt; class.pool.count(), 13);
    assert!(rt; matches!(class.pool.get(9), Some(Entry::Long(7))));
    assert!(rt; matches!(class.pool.get(11), Some(Entry::Long(7))));
    assert!(rt; class.pool.get(12).is_none());
    Ok(())
}

// Any byte behind the pool may be changed.
#[test]
fn answers_for_changed_bytes(rt: HostRuntime) {
    for place in 59..100 {
        for byte in 0..255 {
            let mut bytes = BYTES;
            bytes[place] = byte;
            assert!(rt; !matches!(read_class(rt.alloc(), &bytes), Err(Fail::Memory)));
        }
    }
}
