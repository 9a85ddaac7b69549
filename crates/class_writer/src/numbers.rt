//! Numbers as bytes, the highest byte first.
ghost use Rattle.std.specs.Prelude.{◌≡◌, ◌++◌, OnOk};
ghost use Rattle.class_file.specs.InstrBytes.{u1, u2, u4, s1, s2, s4, s8};

use byteorder::{BigEndian, WriteBytesExt};
use kc_text::Memory;

pub fn put_u1(out: &mut Vec<u8>, number: u8) -> Result<(), Memory>
    ensures { OnOk result (out.new.items ≡ out.old.items ++ u1 number) }
{
    match out.write_u8(number) {
        Ok(()) => Ok(()),
        Err(_refused) => Err(Memory),
    }
}

pub fn put_u2(out: &mut Vec<u8>, number: u16) -> Result<(), Memory>
    ensures { OnOk result (out.new.items ≡ out.old.items ++ u2 number) }
{
    match out.write_u16::<BigEndian>(number) {
        Ok(()) => Ok(()),
        Err(_refused) => Err(Memory),
    }
}

pub fn put_u4(out: &mut Vec<u8>, number: u32) -> Result<(), Memory>
    ensures { OnOk result (out.new.items ≡ out.old.items ++ u4 number) }
{
    match out.write_u32::<BigEndian>(number) {
        Ok(()) => Ok(()),
        Err(_refused) => Err(Memory),
    }
}

pub fn put_s1(out: &mut Vec<u8>, number: i8) -> Result<(), Memory>
    ensures { OnOk result (out.new.items ≡ out.old.items ++ s1 number) }
{
    match out.write_i8(number) {
        Ok(()) => Ok(()),
        Err(_refused) => Err(Memory),
    }
}

pub fn put_s2(out: &mut Vec<u8>, number: i16) -> Result<(), Memory>
    ensures { OnOk result (out.new.items ≡ out.old.items ++ s2 number) }
{
    match out.write_i16::<BigEndian>(number) {
        Ok(()) => Ok(()),
        Err(_refused) => Err(Memory),
    }
}

pub fn put_s4(out: &mut Vec<u8>, number: i32) -> Result<(), Memory>
    ensures { OnOk result (out.new.items ≡ out.old.items ++ s4 number) }
{
    match out.write_i32::<BigEndian>(number) {
        Ok(()) => Ok(()),
        Err(_refused) => Err(Memory),
    }
}

pub fn put_s8(out: &mut Vec<u8>, number: i64) -> Result<(), Memory>
    ensures { OnOk result (out.new.items ≡ out.old.items ++ s8 number) }
{
    match out.write_i64::<BigEndian>(number) {
        Ok(()) => Ok(()),
        Err(_refused) => Err(Memory),
    }
}
