//! The shortest instruction for an operation.

ghost use Rattle.std.specs.Prelude.{◌≡◌, ◌<◌, ◌^◌, ◌≤ℤ◌, pos, negsuc, None, Some, MatchOption};
ghost use Rattle.class_file.specs.Rows.{length_of, row_of};
ghost use Rattle.class_file.specs.declared.row.Row.TheVariants as row;
ghost use Rattle.stack_code.specs.Code.{int_bytes, local_bytes};
ghost use Rattle.stack_code.specs.Emission.{IsRow};

use class_file::instr::Instr;
use class_file::value::Kind;

// The instruction that pushes a number from -1 to 5.
fn small_int(n: i32) -> Instr
    requires low { negsuc 0 ≤ℤ n }
    requires high { n ≤ℤ pos 5 }
    ensures { IsRow result (row.PushInt n) 1 }
{
    match n {
        -1 => Instr::IconstM1,
        0 => Instr::Iconst0,
        1 => Instr::Iconst1,
        2 => Instr::Iconst2,
        3 => Instr::Iconst3,
        4 => Instr::Iconst4,
        _ => Instr::Iconst5,
    }
}

/// The shortest instruction that pushes a number without the constant pool, if there is one.
pub fn push_int(n: i32) -> Option<Instr>
    ensures { MatchOption result (int_bytes n ≡ 3) (λ i. IsRow i (row.PushInt n) (int_bytes n)) }
{
    if -1 <= n && n <= 5 {
        Some(small_int(n))
    } else if -128 <= n && n <= 127 {
        Some(Instr::Bipush(n as i8))
    } else if -32768 <= n && n <= 32767 {
        Some(Instr::Sipush(n as i16))
    } else {
        None
    }
}

/// The instruction that loads a local variable of this number; `Long` takes two of them.
pub fn load(kind: Kind, local: u16) -> Instr
    ensures { IsRow result (row.Load kind local) (local_bytes local) }
{
    if local < 256 {
        match kind {
            Kind::Int => Instr::Iload(local as u8),
            Kind::Long => Instr::Lload(local as u8),
            Kind::Ref => Instr::Aload(local as u8),
        }
    } else {
        match kind {
            Kind::Int => Instr::WideIload(local),
            Kind::Long => Instr::WideLload(local),
            Kind::Ref => Instr::WideAload(local),
        }
    }
}

/// The instruction that stores into a local variable of this number; `Long` takes two of them.
pub fn store(kind: Kind, local: u16) -> Instr
    ensures { IsRow result (row.Store kind local) (local_bytes local) }
{
    if local < 256 {
        match kind {
            Kind::Int => Instr::Istore(local as u8),
            Kind::Long => Instr::Lstore(local as u8),
            Kind::Ref => Instr::Astore(local as u8),
        }
    } else {
        match kind {
            Kind::Int => Instr::WideIstore(local),
            Kind::Long => Instr::WideLstore(local),
            Kind::Ref => Instr::WideAstore(local),
        }
    }
}
