//! The table of instructions.

ghost use Rattle.std.specs.Prelude.{◌≡◌, ◌<◌, ◌≤◌, ◌^◌};
ghost use Rattle.class_file.specs.Rows.{length_of, row_of, target};

use crate::instr::Instr;
use crate::row::{Operator, Row, Shift, Test};
use crate::value::Kind;

// The place that is so far from another.
fn target(pc: usize, offset: i16) -> usize
    requires { pc < 2 ^ 32 }
    ensures { result ≡ target pc offset }
{
    let to = pc as i64 + i64::from(offset);
    if to < 0 { 65536 } else { to as usize }
}

/// How many bytes an instruction takes: 1 to 6.
pub fn length_of(instr: &Instr) -> usize
    ensures exact { result ≡ length_of instr.now }
    ensures small { result ≤ 6 }
{
    match instr {
        Instr::Bipush(_)
        | Instr::Ldc(_)
        | Instr::Iload(_)
        | Instr::Lload(_)
        | Instr::Aload(_)
        | Instr::Istore(_)
        | Instr::Lstore(_)
        | Instr::Astore(_) => 2,
        Instr::Sipush(_)
        | Instr::LdcW(_)
        | Instr::Ldc2W(_)
        | Instr::Iinc(_, _)
        | Instr::Ifeq(_)
        | Instr::Ifne(_)
        | Instr::Iflt(_)
        | Instr::Ifge(_)
        | Instr::Ifgt(_)
        | Instr::Ifle(_)
        | Instr::IfIcmpeq(_)
        | Instr::IfIcmpne(_)
        | Instr::IfIcmplt(_)
        | Instr::IfIcmpge(_)
        | Instr::IfIcmpgt(_)
        | Instr::IfIcmple(_)
        | Instr::IfAcmpeq(_)
        | Instr::IfAcmpne(_)
        | Instr::Goto(_)
        | Instr::Ifnull(_)
        | Instr::Ifnonnull(_)
        | Instr::Getstatic(_)
        | Instr::Putstatic(_)
        | Instr::Getfield(_)
        | Instr::Putfield(_)
        | Instr::Invokevirtual(_)
        | Instr::Invokespecial(_)
        | Instr::Invokestatic(_)
        | Instr::New(_)
        | Instr::Anewarray(_)
        | Instr::Checkcast(_)
        | Instr::Instanceof(_) => 3,
        Instr::WideIload(_)
        | Instr::WideLload(_)
        | Instr::WideAload(_)
        | Instr::WideIstore(_)
        | Instr::WideLstore(_)
        | Instr::WideAstore(_) => 4,
        Instr::Invokeinterface(_, _) => 5,
        Instr::WideIinc(_, _) => 6,
        Instr::Nop
        | Instr::AconstNull
        | Instr::IconstM1
        | Instr::Iconst0
        | Instr::Iconst1
        | Instr::Iconst2
        | Instr::Iconst3
        | Instr::Iconst4
        | Instr::Iconst5
        | Instr::Lconst0
        | Instr::Lconst1
        | Instr::Iload0
        | Instr::Iload1
        | Instr::Iload2
        | Instr::Iload3
        | Instr::Lload0
        | Instr::Lload1
        | Instr::Lload2
        | Instr::Lload3
        | Instr::Aload0
        | Instr::Aload1
        | Instr::Aload2
        | Instr::Aload3
        | Instr::Aaload
        | Instr::Istore0
        | Instr::Istore1
        | Instr::Istore2
        | Instr::Istore3
        | Instr::Lstore0
        | Instr::Lstore1
        | Instr::Lstore2
        | Instr::Lstore3
        | Instr::Astore0
        | Instr::Astore1
        | Instr::Astore2
        | Instr::Astore3
        | Instr::Aastore
        | Instr::Pop
        | Instr::Pop2
        | Instr::Dup
        | Instr::DupX1
        | Instr::Dup2
        | Instr::Iadd
        | Instr::Ladd
        | Instr::Isub
        | Instr::Lsub
        | Instr::Imul
        | Instr::Lmul
        | Instr::Idiv
        | Instr::Ldiv
        | Instr::Irem
        | Instr::Lrem
        | Instr::Ineg
        | Instr::Lneg
        | Instr::Ishl
        | Instr::Lshl
        | Instr::Ishr
        | Instr::Lshr
        | Instr::Iushr
        | Instr::Lushr
        | Instr::Iand
        | Instr::Land
        | Instr::Ior
        | Instr::Lor
        | Instr::Ixor
        | Instr::Lxor
        | Instr::I2l
        | Instr::L2i
        | Instr::I2c
        | Instr::Lcmp
        | Instr::Ireturn
        | Instr::Lreturn
        | Instr::Areturn
        | Instr::Return
        | Instr::Arraylength
        | Instr::Athrow => 1,
    }
}

/// What an instruction at a place, in bytes from the code's start, does.
pub fn row_of(pc: usize, instr: &Instr) -> Row
    requires { pc < 2 ^ 32 }
    ensures { result ≡ row_of pc instr.now }
{
    match instr {
        Instr::AconstNull => Row::PushNull,
        Instr::IconstM1 => Row::PushInt(-1),
        Instr::Iconst0 => Row::PushInt(0),
        Instr::Iconst1 => Row::PushInt(1),
        Instr::Iconst2 => Row::PushInt(2),
        Instr::Iconst3 => Row::PushInt(3),
        Instr::Iconst4 => Row::PushInt(4),
        Instr::Iconst5 => Row::PushInt(5),
        Instr::Lconst0 => Row::PushLong(0),
        Instr::Lconst1 => Row::PushLong(1),
        Instr::Bipush(n) => Row::PushInt(i32::from(*n)),
        Instr::Sipush(n) => Row::PushInt(i32::from(*n)),
        Instr::Ldc(i) => Row::PushConstant(*i as usize),
        Instr::LdcW(i) => Row::PushConstant(*i as usize),
        Instr::Iload(i) => Row::Load(Kind::Int, *i as usize),
        Instr::Lload(i) => Row::Load(Kind::Long, *i as usize),
        Instr::Aload(i) => Row::Load(Kind::Ref, *i as usize),
        Instr::WideIload(i) => Row::Load(Kind::Int, *i as usize),
        Instr::WideLload(i) => Row::Load(Kind::Long, *i as usize),
        Instr::WideAload(i) => Row::Load(Kind::Ref, *i as usize),
        Instr::Iload0 => Row::Load(Kind::Int, 0),
        Instr::Iload1 => Row::Load(Kind::Int, 1),
        Instr::Iload2 => Row::Load(Kind::Int, 2),
        Instr::Iload3 => Row::Load(Kind::Int, 3),
        Instr::Lload0 => Row::Load(Kind::Long, 0),
        Instr::Lload1 => Row::Load(Kind::Long, 1),
        Instr::Lload2 => Row::Load(Kind::Long, 2),
        Instr::Lload3 => Row::Load(Kind::Long, 3),
        Instr::Aload0 => Row::Load(Kind::Ref, 0),
        Instr::Aload1 => Row::Load(Kind::Ref, 1),
        Instr::Aload2 => Row::Load(Kind::Ref, 2),
        Instr::Aload3 => Row::Load(Kind::Ref, 3),
        Instr::Istore(i) => Row::Store(Kind::Int, *i as usize),
        Instr::Lstore(i) => Row::Store(Kind::Long, *i as usize),
        Instr::Astore(i) => Row::Store(Kind::Ref, *i as usize),
        Instr::WideIstore(i) => Row::Store(Kind::Int, *i as usize),
        Instr::WideLstore(i) => Row::Store(Kind::Long, *i as usize),
        Instr::WideAstore(i) => Row::Store(Kind::Ref, *i as usize),
        Instr::Istore0 => Row::Store(Kind::Int, 0),
        Instr::Istore1 => Row::Store(Kind::Int, 1),
        Instr::Istore2 => Row::Store(Kind::Int, 2),
        Instr::Istore3 => Row::Store(Kind::Int, 3),
        Instr::Lstore0 => Row::Store(Kind::Long, 0),
        Instr::Lstore1 => Row::Store(Kind::Long, 1),
        Instr::Lstore2 => Row::Store(Kind::Long, 2),
        Instr::Lstore3 => Row::Store(Kind::Long, 3),
        Instr::Astore0 => Row::Store(Kind::Ref, 0),
        Instr::Astore1 => Row::Store(Kind::Ref, 1),
        Instr::Astore2 => Row::Store(Kind::Ref, 2),
        Instr::Astore3 => Row::Store(Kind::Ref, 3),
        Instr::Pop => Row::Pop,
        Instr::Pop2 => Row::Pop2,
        Instr::Dup => Row::Dup,
        Instr::Iadd => Row::IntBinary(Operator::Add),
        Instr::Ladd => Row::LongBinary(Operator::Add),
        Instr::Isub => Row::IntBinary(Operator::Sub),
        Instr::Lsub => Row::LongBinary(Operator::Sub),
        Instr::Imul => Row::IntBinary(Operator::Mul),
        Instr::Lmul => Row::LongBinary(Operator::Mul),
        Instr::Idiv => Row::IntBinary(Operator::Div),
        Instr::Ldiv => Row::LongBinary(Operator::Div),
        Instr::Irem => Row::IntBinary(Operator::Rem),
        Instr::Lrem => Row::LongBinary(Operator::Rem),
        Instr::Ineg => Row::IntNeg,
        Instr::Lneg => Row::LongNeg,
        Instr::I2l => Row::IntToLong,
        Instr::L2i => Row::LongToInt,
        Instr::Lcmp => Row::LongCompare,
        Instr::Ifeq(o) => Row::IfZero(Test::Eq, target(pc, *o)),
        Instr::Ifne(o) => Row::IfZero(Test::Ne, target(pc, *o)),
        Instr::Iflt(o) => Row::IfZero(Test::Lt, target(pc, *o)),
        Instr::Ifge(o) => Row::IfZero(Test::Ge, target(pc, *o)),
        Instr::Ifgt(o) => Row::IfZero(Test::Gt, target(pc, *o)),
        Instr::Ifle(o) => Row::IfZero(Test::Le, target(pc, *o)),
        Instr::IfIcmpeq(o) => Row::IfCompare(Test::Eq, target(pc, *o)),
        Instr::IfIcmpne(o) => Row::IfCompare(Test::Ne, target(pc, *o)),
        Instr::IfIcmplt(o) => Row::IfCompare(Test::Lt, target(pc, *o)),
        Instr::IfIcmpge(o) => Row::IfCompare(Test::Ge, target(pc, *o)),
        Instr::IfIcmpgt(o) => Row::IfCompare(Test::Gt, target(pc, *o)),
        Instr::IfIcmple(o) => Row::IfCompare(Test::Le, target(pc, *o)),
        Instr::Goto(o) => Row::Goto(target(pc, *o)),
        Instr::Ireturn => Row::ReturnValue(Kind::Int),
        Instr::Lreturn => Row::ReturnValue(Kind::Long),
        Instr::Areturn => Row::ReturnValue(Kind::Ref),
        Instr::Return => Row::Return,
        Instr::Nop => Row::Nop,
        Instr::DupX1 => Row::DupX1,
        Instr::Dup2 => Row::Dup2,
        Instr::Iand => Row::IntBinary(Operator::And),
        Instr::Land => Row::LongBinary(Operator::And),
        Instr::Ior => Row::IntBinary(Operator::Or),
        Instr::Lor => Row::LongBinary(Operator::Or),
        Instr::Ixor => Row::IntBinary(Operator::Xor),
        Instr::Lxor => Row::LongBinary(Operator::Xor),
        Instr::Ishl => Row::IntShift(Shift::Left),
        Instr::Lshl => Row::LongShift(Shift::Left),
        Instr::Ishr => Row::IntShift(Shift::Right),
        Instr::Lshr => Row::LongShift(Shift::Right),
        Instr::Iushr => Row::IntShift(Shift::UnsignedRight),
        Instr::Lushr => Row::LongShift(Shift::UnsignedRight),
        Instr::Iinc(i, n) => Row::Increment(*i as usize, i32::from(*n)),
        Instr::WideIinc(i, n) => Row::Increment(*i as usize, i32::from(*n)),
        Instr::I2c => Row::IntToChar,
        Instr::IfAcmpeq(o) => Row::IfSame(true, target(pc, *o)),
        Instr::IfAcmpne(o) => Row::IfSame(false, target(pc, *o)),
        Instr::Ifnull(o) => Row::IfNull(true, target(pc, *o)),
        Instr::Ifnonnull(o) => Row::IfNull(false, target(pc, *o)),
        Instr::Ldc2W(i) => Row::PushLongConstant(*i as usize),
        Instr::Getstatic(i) => Row::GetStatic(*i as usize),
        Instr::Putstatic(i) => Row::PutStatic(*i as usize),
        Instr::Getfield(i) => Row::GetField(*i as usize),
        Instr::Putfield(i) => Row::PutField(*i as usize),
        Instr::Invokevirtual(i) => Row::InvokeVirtual(*i as usize),
        Instr::Invokespecial(i) => Row::InvokeSpecial(*i as usize),
        Instr::Invokestatic(i) => Row::InvokeStatic(*i as usize),
        Instr::Invokeinterface(i, _) => Row::InvokeInterface(*i as usize),
        Instr::New(i) => Row::New(*i as usize),
        Instr::Anewarray(i) => Row::NewArray(*i as usize),
        Instr::Checkcast(i) => Row::CheckCast(*i as usize),
        Instr::Instanceof(i) => Row::InstanceOf(*i as usize),
        Instr::Arraylength => Row::ArrayLength,
        Instr::Aaload => Row::ArrayLoad,
        Instr::Aastore => Row::ArrayStore,
        Instr::Athrow => Row::Throw,
    }
}
