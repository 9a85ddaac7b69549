//! Instructions as bytes (Java Virtual Machine Specification SE 8, 6.5).
ghost use Rattle.std.specs.Prelude.{◌≡◌, ◌++◌, ◌∷◌, [], OnOk};
ghost use Rattle.class_file.specs.InstrBytes.{u1, u2, s1, s2, instr_bytes};

use crate::numbers::{put_s1, put_s2, put_u1, put_u2};
use class_file::instr::Instr;
use kc_text::Memory;

const WIDE: u8 = 0xC4;

fn put_unsigned1(out: &mut Vec<u8>, opcode: u8, number: u8) -> Result<(), Memory>
    ensures { OnOk result (out.new.items ≡ out.old.items ++ (opcode ∷ [] ++ u1 number)) }
{
    put_u1(out, opcode)?;
    put_u1(out, number)
}

fn put_unsigned2(out: &mut Vec<u8>, opcode: u8, number: u16) -> Result<(), Memory>
    ensures { OnOk result (out.new.items ≡ out.old.items ++ (opcode ∷ [] ++ u2 number)) }
{
    put_u1(out, opcode)?;
    put_u2(out, number)
}

fn put_signed1(out: &mut Vec<u8>, opcode: u8, number: i8) -> Result<(), Memory>
    ensures { OnOk result (out.new.items ≡ out.old.items ++ (opcode ∷ [] ++ s1 number)) }
{
    put_u1(out, opcode)?;
    put_s1(out, number)
}

fn put_signed2(out: &mut Vec<u8>, opcode: u8, number: i16) -> Result<(), Memory>
    ensures { OnOk result (out.new.items ≡ out.old.items ++ (opcode ∷ [] ++ s2 number)) }
{
    put_u1(out, opcode)?;
    put_s2(out, number)
}

fn put_wide(out: &mut Vec<u8>, opcode: u8, number: u16) -> Result<(), Memory>
    ensures { OnOk result (out.new.items ≡ out.old.items ++ (0xC4 ∷ opcode ∷ [] ++ u2 number)) }
{
    put_u1(out, WIDE)?;
    put_unsigned2(out, opcode, number)
}

fn put_iinc(out: &mut Vec<u8>, local: u8, number: i8) -> Result<(), Memory>
    ensures { OnOk result (out.new.items ≡ out.old.items ++ (0x84 ∷ [] ++ u1 local ++ s1 number)) }
{
    put_unsigned1(out, 0x84, local)?;
    put_s1(out, number)
}

fn put_wide_iinc(out: &mut Vec<u8>, local: u16, number: i16) -> Result<(), Memory>
    ensures { OnOk result (out.new.items ≡ out.old.items ++ (0xC4 ∷ 0x84 ∷ [] ++ u2 local ++ s2 number)) }
{
    put_wide(out, 0x84, local)?;
    put_s2(out, number)
}

fn put_invokeinterface(out: &mut Vec<u8>, index: u16, count: u8) -> Result<(), Memory>
    ensures { OnOk result (out.new.items ≡ out.old.items ++ (0xB9 ∷ [] ++ u2 index ++ u1 count ++ u1 0)) }
{
    put_unsigned2(out, 0xB9, index)?;
    put_u1(out, count)?;
    put_u1(out, 0)
}

/// Puts an instruction at the end.
pub fn put_instr(out: &mut Vec<u8>, instr: &Instr) -> Result<(), Memory>
    ensures { OnOk result (out.new.items ≡ out.old.items ++ instr_bytes instr.now) }
{
    match instr {
        Instr::Nop => put_u1(out, 0x00),
        Instr::AconstNull => put_u1(out, 0x01),
        Instr::IconstM1 => put_u1(out, 0x02),
        Instr::Iconst0 => put_u1(out, 0x03),
        Instr::Iconst1 => put_u1(out, 0x04),
        Instr::Iconst2 => put_u1(out, 0x05),
        Instr::Iconst3 => put_u1(out, 0x06),
        Instr::Iconst4 => put_u1(out, 0x07),
        Instr::Iconst5 => put_u1(out, 0x08),
        Instr::Lconst0 => put_u1(out, 0x09),
        Instr::Lconst1 => put_u1(out, 0x0A),
        Instr::Bipush(number) => put_signed1(out, 0x10, *number),
        Instr::Sipush(number) => put_signed2(out, 0x11, *number),
        Instr::Ldc(number) => put_unsigned1(out, 0x12, *number),
        Instr::LdcW(number) => put_unsigned2(out, 0x13, *number),
        Instr::Ldc2W(number) => put_unsigned2(out, 0x14, *number),
        Instr::Iload(number) => put_unsigned1(out, 0x15, *number),
        Instr::Lload(number) => put_unsigned1(out, 0x16, *number),
        Instr::Aload(number) => put_unsigned1(out, 0x19, *number),
        Instr::Iload0 => put_u1(out, 0x1A),
        Instr::Iload1 => put_u1(out, 0x1B),
        Instr::Iload2 => put_u1(out, 0x1C),
        Instr::Iload3 => put_u1(out, 0x1D),
        Instr::Lload0 => put_u1(out, 0x1E),
        Instr::Lload1 => put_u1(out, 0x1F),
        Instr::Lload2 => put_u1(out, 0x20),
        Instr::Lload3 => put_u1(out, 0x21),
        Instr::Aload0 => put_u1(out, 0x2A),
        Instr::Aload1 => put_u1(out, 0x2B),
        Instr::Aload2 => put_u1(out, 0x2C),
        Instr::Aload3 => put_u1(out, 0x2D),
        Instr::Aaload => put_u1(out, 0x32),
        Instr::Istore(number) => put_unsigned1(out, 0x36, *number),
        Instr::Lstore(number) => put_unsigned1(out, 0x37, *number),
        Instr::Astore(number) => put_unsigned1(out, 0x3A, *number),
        Instr::Istore0 => put_u1(out, 0x3B),
        Instr::Istore1 => put_u1(out, 0x3C),
        Instr::Istore2 => put_u1(out, 0x3D),
        Instr::Istore3 => put_u1(out, 0x3E),
        Instr::Lstore0 => put_u1(out, 0x3F),
        Instr::Lstore1 => put_u1(out, 0x40),
        Instr::Lstore2 => put_u1(out, 0x41),
        Instr::Lstore3 => put_u1(out, 0x42),
        Instr::Astore0 => put_u1(out, 0x4B),
        Instr::Astore1 => put_u1(out, 0x4C),
        Instr::Astore2 => put_u1(out, 0x4D),
        Instr::Astore3 => put_u1(out, 0x4E),
        Instr::Aastore => put_u1(out, 0x53),
        Instr::Pop => put_u1(out, 0x57),
        Instr::Pop2 => put_u1(out, 0x58),
        Instr::Dup => put_u1(out, 0x59),
        Instr::DupX1 => put_u1(out, 0x5A),
        Instr::Dup2 => put_u1(out, 0x5C),
        Instr::Iadd => put_u1(out, 0x60),
        Instr::Ladd => put_u1(out, 0x61),
        Instr::Isub => put_u1(out, 0x64),
        Instr::Lsub => put_u1(out, 0x65),
        Instr::Imul => put_u1(out, 0x68),
        Instr::Lmul => put_u1(out, 0x69),
        Instr::Idiv => put_u1(out, 0x6C),
        Instr::Ldiv => put_u1(out, 0x6D),
        Instr::Irem => put_u1(out, 0x70),
        Instr::Lrem => put_u1(out, 0x71),
        Instr::Ineg => put_u1(out, 0x74),
        Instr::Lneg => put_u1(out, 0x75),
        Instr::Ishl => put_u1(out, 0x78),
        Instr::Lshl => put_u1(out, 0x79),
        Instr::Ishr => put_u1(out, 0x7A),
        Instr::Lshr => put_u1(out, 0x7B),
        Instr::Iushr => put_u1(out, 0x7C),
        Instr::Lushr => put_u1(out, 0x7D),
        Instr::Iand => put_u1(out, 0x7E),
        Instr::Land => put_u1(out, 0x7F),
        Instr::Ior => put_u1(out, 0x80),
        Instr::Lor => put_u1(out, 0x81),
        Instr::Ixor => put_u1(out, 0x82),
        Instr::Lxor => put_u1(out, 0x83),
        Instr::Iinc(local, number) => put_iinc(out, *local, *number),
        Instr::I2l => put_u1(out, 0x85),
        Instr::L2i => put_u1(out, 0x88),
        Instr::I2c => put_u1(out, 0x92),
        Instr::Lcmp => put_u1(out, 0x94),
        Instr::Ifeq(number) => put_signed2(out, 0x99, *number),
        Instr::Ifne(number) => put_signed2(out, 0x9A, *number),
        Instr::Iflt(number) => put_signed2(out, 0x9B, *number),
        Instr::Ifge(number) => put_signed2(out, 0x9C, *number),
        Instr::Ifgt(number) => put_signed2(out, 0x9D, *number),
        Instr::Ifle(number) => put_signed2(out, 0x9E, *number),
        Instr::IfIcmpeq(number) => put_signed2(out, 0x9F, *number),
        Instr::IfIcmpne(number) => put_signed2(out, 0xA0, *number),
        Instr::IfIcmplt(number) => put_signed2(out, 0xA1, *number),
        Instr::IfIcmpge(number) => put_signed2(out, 0xA2, *number),
        Instr::IfIcmpgt(number) => put_signed2(out, 0xA3, *number),
        Instr::IfIcmple(number) => put_signed2(out, 0xA4, *number),
        Instr::IfAcmpeq(number) => put_signed2(out, 0xA5, *number),
        Instr::IfAcmpne(number) => put_signed2(out, 0xA6, *number),
        Instr::Goto(number) => put_signed2(out, 0xA7, *number),
        Instr::Ireturn => put_u1(out, 0xAC),
        Instr::Lreturn => put_u1(out, 0xAD),
        Instr::Areturn => put_u1(out, 0xB0),
        Instr::Return => put_u1(out, 0xB1),
        Instr::Getstatic(number) => put_unsigned2(out, 0xB2, *number),
        Instr::Putstatic(number) => put_unsigned2(out, 0xB3, *number),
        Instr::Getfield(number) => put_unsigned2(out, 0xB4, *number),
        Instr::Putfield(number) => put_unsigned2(out, 0xB5, *number),
        Instr::Invokevirtual(number) => put_unsigned2(out, 0xB6, *number),
        Instr::Invokespecial(number) => put_unsigned2(out, 0xB7, *number),
        Instr::Invokestatic(number) => put_unsigned2(out, 0xB8, *number),
        Instr::Invokeinterface(index, count) => put_invokeinterface(out, *index, *count),
        Instr::New(number) => put_unsigned2(out, 0xBB, *number),
        Instr::Anewarray(number) => put_unsigned2(out, 0xBD, *number),
        Instr::Arraylength => put_u1(out, 0xBE),
        Instr::Athrow => put_u1(out, 0xBF),
        Instr::Checkcast(number) => put_unsigned2(out, 0xC0, *number),
        Instr::Instanceof(number) => put_unsigned2(out, 0xC1, *number),
        Instr::Ifnull(number) => put_signed2(out, 0xC6, *number),
        Instr::Ifnonnull(number) => put_signed2(out, 0xC7, *number),
        Instr::WideIload(number) => put_wide(out, 0x15, *number),
        Instr::WideLload(number) => put_wide(out, 0x16, *number),
        Instr::WideAload(number) => put_wide(out, 0x19, *number),
        Instr::WideIstore(number) => put_wide(out, 0x36, *number),
        Instr::WideLstore(number) => put_wide(out, 0x37, *number),
        Instr::WideAstore(number) => put_wide(out, 0x3A, *number),
        Instr::WideIinc(local, number) => put_wide_iinc(out, *local, *number),
    }
}
