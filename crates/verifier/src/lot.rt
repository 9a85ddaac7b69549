//! Which sets the verifier is built for so far.
ghost use Rattle.std.specs.Prelude.{◌≡◌, ◌<◌, ◌^◌, All, true, length};
ghost use Rattle.class_file.specs.Lots.{in_first_lot};
ghost use Rattle.verifier.specs.Answers.{InLot, IsOfFirstLot, IsCounted};

use class_file::class::{ClassFile, Method, Set};
use class_file::instr::Instr;
use class_file::row::Row;
use class_file::table::row_of;

// The most instructions of a method, and one more.
const MOST: usize = 0x1000_0000;

fn is_row_of_first_lot(row: Row) -> bool
    ensures { result ≡ in_first_lot row }
{
    match row {
        Row::GetStatic(_) => false,
        Row::PutStatic(_) => false,
        Row::GetField(_) => false,
        Row::PutField(_) => false,
        Row::InvokeVirtual(_) => false,
        Row::InvokeSpecial(_) => false,
        Row::InvokeInterface(_) => false,
        Row::New(_) => false,
        Row::NewArray(_) => false,
        Row::CheckCast(_) => false,
        Row::InstanceOf(_) => false,
        Row::ArrayLength => false,
        Row::ArrayLoad => false,
        Row::ArrayStore => false,
        Row::Throw => false,
        Row::Nop => false,
        Row::DupX1 => false,
        Row::Dup2 => false,
        Row::Increment(_, _) => false,
        Row::PushInt(_) => true,
        Row::PushLong(_) => true,
        Row::PushNull => true,
        Row::PushConstant(_) => true,
        Row::PushLongConstant(_) => true,
        Row::Load(_, _) => true,
        Row::Store(_, _) => true,
        Row::Pop => true,
        Row::Pop2 => true,
        Row::Dup => true,
        Row::IntBinary(_) => true,
        Row::LongBinary(_) => true,
        Row::IntShift(_) => true,
        Row::LongShift(_) => true,
        Row::IntNeg => true,
        Row::LongNeg => true,
        Row::IntToLong => true,
        Row::LongToInt => true,
        Row::IntToChar => true,
        Row::LongCompare => true,
        Row::IfZero(_, _) => true,
        Row::IfCompare(_, _) => true,
        Row::IfSame(_, _) => true,
        Row::IfNull(_, _) => true,
        Row::Goto(_) => true,
        Row::Return => true,
        Row::ReturnValue(_) => true,
        Row::InvokeStatic(_) => true,
    }
}

fn is_instr_of_first_lot(instr: &Instr) -> bool
    ensures { result ≡ true → InLot instr.now }
{
    is_row_of_first_lot(row_of(0, instr))
}

fn is_code_of_first_lot(code: &[Instr]) -> bool
    ensures { result ≡ true → All InLot code.now }
{
    code.iter().all(is_instr_of_first_lot)
}

fn is_method_of_first_lot(method: &Method) -> bool
    ensures lot { result ≡ true → All InLot method.now.code }
    ensures counted { result ≡ true → length method.now.code < 2 ^ 28 }
{
    method.code.len() < MOST && is_code_of_first_lot(method.code.as_slice())
}

fn is_class_of_first_lot(class: &ClassFile) -> bool
    ensures lot { result ≡ true → All (λ m. All InLot m.code) class.now.methods }
    ensures counted { result ≡ true → All (λ m. length m.code < 2 ^ 28) class.now.methods }
{
    class.methods.as_slice().iter().all(is_method_of_first_lot)
}

/// Are all instructions of the set of the first lot, with fewer than 268,435,456 of them in each method?
pub fn is_first_lot(set: &Set) -> bool
    ensures lot { result ≡ true → IsOfFirstLot set.now }
    ensures counted { result ≡ true → IsCounted set.now }
{
    set.classes.as_slice().iter().all(is_class_of_first_lot)
}
