use super::*;
use std::test::Fail as Failed;

// The bytes that javac 17 writes for the class `public interface M { static void main() {} }` of Java 8, without debugging
// information.
const CLASS: [u8; 100] = [
    0xCA, 0xFE, 0xBA, 0xBE, 0, 0, 0, 52, 0, 8, 7, 0, 2, 1, 0, 1, 77, 7, 0, 4, 1, 0, 16, 106, 97,
    118, 97, 47, 108, 97, 110, 103, 47, 79, 98, 106, 101, 99, 116, 1, 0, 4, 109, 97, 105, 110, 1,
    0, 3, 40, 41, 86, 1, 0, 4, 67, 111, 100, 101, 6, 1, 0, 1, 0, 3, 0, 0, 0, 0, 0, 1, 0, 9, 0, 5,
    0, 6, 0, 1, 0, 7, 0, 0, 0, 13, 0, 0, 0, 0, 0, 0, 0, 1, 0xB1, 0, 0, 0, 0, 0, 0,
];

#[test]
fn copies_a_class(rt: HostRuntime) -> Result<(), Failed> {
    let copy = copy_of(rt.alloc(), &CLASS).ok().ok_or("no class")?;
    assert_eq!(rt; copy.as_slice(), CLASS.as_slice());
    Ok(())
}

// A byte changed in every place: the copy of what is still a class is no longer, and nothing else but a fault is told.
#[test]
fn answers_for_changed_bytes(rt: HostRuntime) {
    for place in 0..100 {
        for byte in 0..=255 {
            let mut bytes = CLASS;
            bytes[place] = byte;
            match copy_of(rt.alloc(), &bytes) {
                Ok(copy) => assert!(rt; copy.len() <= 100),
                Err(Fail::Found(fault)) => assert!(rt; fault.at <= 100),
                Err(Fail::Memory) => assert!(rt; false),
            }
        }
    }
}
