//! The instructions by their opcodes (Java Virtual Machine Specification SE 8, 6.5).
ghost use Rattle.std.specs.Prelude.{◌≡◌};
ghost use Rattle.std.specs.Option.{option_map};
ghost use Rattle.class_file.specs.Opcodes.{find_form, form_of, wide_form_of};
ghost use Rattle.class_reader.specs.Forms.{part, form_seen, wide_form_seen, with_short, with_variable, with_index, with_wide_variable};

use class_file::instr::Instr;

/// The operands of an instruction.
#[derive(Clone, Copy)]
pub enum Form {
    Plain(Instr),
    /// `bipush`.
    Byte,
    Short(Short),
    Variable(Variable),
    /// `ldc`.
    Constant,
    Index(Index),
    /// `iinc`.
    Increment,
    /// `invokeinterface`.
    InterfaceCall,
}

/// An instruction with a signed number of two bytes.
#[derive(Clone, Copy)]
pub enum Short {
    Sipush,
    Ifeq,
    Ifne,
    Iflt,
    Ifge,
    Ifgt,
    Ifle,
    IfIcmpeq,
    IfIcmpne,
    IfIcmplt,
    IfIcmpge,
    IfIcmpgt,
    IfIcmple,
    IfAcmpeq,
    IfAcmpne,
    Goto,
    Ifnull,
    Ifnonnull,
}

/// An instruction with the number of a local variable.
#[derive(Clone, Copy)]
pub enum Variable {
    Iload,
    Lload,
    Aload,
    Istore,
    Lstore,
    Astore,
}

/// An instruction with an index of two bytes.
#[derive(Clone, Copy)]
pub enum Index {
    LdcW,
    Ldc2W,
    Getstatic,
    Putstatic,
    Getfield,
    Putfield,
    Invokevirtual,
    Invokespecial,
    Invokestatic,
    New,
    Anewarray,
    Checkcast,
    Instanceof,
}

/// An instruction behind `wide`.
#[derive(Clone, Copy)]
pub enum Wide {
    Variable(Variable),
    /// `iinc`.
    Increment,
}

// Instructions of a constant.
#[tactic(auto, unfolding(class_file::specs::Opcodes::opcodes))]
fn constant(opcode: u8) -> Option<Form>
    ensures { option_map form_seen result ≡ find_form opcode (part 0 16) }
{
    let form = match opcode {
        0x00 => Form::Plain(Instr::Nop),
        0x01 => Form::Plain(Instr::AconstNull),
        0x02 => Form::Plain(Instr::IconstM1),
        0x03 => Form::Plain(Instr::Iconst0),
        0x04 => Form::Plain(Instr::Iconst1),
        0x05 => Form::Plain(Instr::Iconst2),
        0x06 => Form::Plain(Instr::Iconst3),
        0x07 => Form::Plain(Instr::Iconst4),
        0x08 => Form::Plain(Instr::Iconst5),
        0x09 => Form::Plain(Instr::Lconst0),
        0x0A => Form::Plain(Instr::Lconst1),
        0x10 => Form::Byte,
        0x11 => Form::Short(Short::Sipush),
        0x12 => Form::Constant,
        0x13 => Form::Index(Index::LdcW),
        0x14 => Form::Index(Index::Ldc2W),
        _ => return None,
    };
    Some(form)
}

// Instructions of a load.
#[tactic(auto, unfolding(class_file::specs::Opcodes::opcodes))]
fn load(opcode: u8) -> Option<Form>
    ensures { option_map form_seen result ≡ find_form opcode (part 16 16) }
{
    let form = match opcode {
        0x15 => Form::Variable(Variable::Iload),
        0x16 => Form::Variable(Variable::Lload),
        0x19 => Form::Variable(Variable::Aload),
        0x1A => Form::Plain(Instr::Iload0),
        0x1B => Form::Plain(Instr::Iload1),
        0x1C => Form::Plain(Instr::Iload2),
        0x1D => Form::Plain(Instr::Iload3),
        0x1E => Form::Plain(Instr::Lload0),
        0x1F => Form::Plain(Instr::Lload1),
        0x20 => Form::Plain(Instr::Lload2),
        0x21 => Form::Plain(Instr::Lload3),
        0x2A => Form::Plain(Instr::Aload0),
        0x2B => Form::Plain(Instr::Aload1),
        0x2C => Form::Plain(Instr::Aload2),
        0x2D => Form::Plain(Instr::Aload3),
        0x32 => Form::Plain(Instr::Aaload),
        _ => return None,
    };
    Some(form)
}

// Instructions of a store.
#[tactic(auto, unfolding(class_file::specs::Opcodes::opcodes))]
fn store(opcode: u8) -> Option<Form>
    ensures { option_map form_seen result ≡ find_form opcode (part 32 16) }
{
    let form = match opcode {
        0x36 => Form::Variable(Variable::Istore),
        0x37 => Form::Variable(Variable::Lstore),
        0x3A => Form::Variable(Variable::Astore),
        0x3B => Form::Plain(Instr::Istore0),
        0x3C => Form::Plain(Instr::Istore1),
        0x3D => Form::Plain(Instr::Istore2),
        0x3E => Form::Plain(Instr::Istore3),
        0x3F => Form::Plain(Instr::Lstore0),
        0x40 => Form::Plain(Instr::Lstore1),
        0x41 => Form::Plain(Instr::Lstore2),
        0x42 => Form::Plain(Instr::Lstore3),
        0x4B => Form::Plain(Instr::Astore0),
        0x4C => Form::Plain(Instr::Astore1),
        0x4D => Form::Plain(Instr::Astore2),
        0x4E => Form::Plain(Instr::Astore3),
        0x53 => Form::Plain(Instr::Aastore),
        _ => return None,
    };
    Some(form)
}

// Instructions of the operand stack.
#[tactic(auto, unfolding(class_file::specs::Opcodes::opcodes))]
fn stack(opcode: u8) -> Option<Form>
    ensures { option_map form_seen result ≡ find_form opcode (part 48 5) }
{
    let form = match opcode {
        0x57 => Form::Plain(Instr::Pop),
        0x58 => Form::Plain(Instr::Pop2),
        0x59 => Form::Plain(Instr::Dup),
        0x5A => Form::Plain(Instr::DupX1),
        0x5C => Form::Plain(Instr::Dup2),
        _ => return None,
    };
    Some(form)
}

// Instructions of arithmetic.
#[tactic(auto, unfolding(class_file::specs::Opcodes::opcodes))]
fn arithmetic(opcode: u8) -> Option<Form>
    ensures { option_map form_seen result ≡ find_form opcode (part 53 12) }
{
    let form = match opcode {
        0x60 => Form::Plain(Instr::Iadd),
        0x61 => Form::Plain(Instr::Ladd),
        0x64 => Form::Plain(Instr::Isub),
        0x65 => Form::Plain(Instr::Lsub),
        0x68 => Form::Plain(Instr::Imul),
        0x69 => Form::Plain(Instr::Lmul),
        0x6C => Form::Plain(Instr::Idiv),
        0x6D => Form::Plain(Instr::Ldiv),
        0x70 => Form::Plain(Instr::Irem),
        0x71 => Form::Plain(Instr::Lrem),
        0x74 => Form::Plain(Instr::Ineg),
        0x75 => Form::Plain(Instr::Lneg),
        _ => return None,
    };
    Some(form)
}

// Instructions of shifts and bits.
#[tactic(auto, unfolding(class_file::specs::Opcodes::opcodes))]
fn bits(opcode: u8) -> Option<Form>
    ensures { option_map form_seen result ≡ find_form opcode (part 65 12) }
{
    let form = match opcode {
        0x78 => Form::Plain(Instr::Ishl),
        0x79 => Form::Plain(Instr::Lshl),
        0x7A => Form::Plain(Instr::Ishr),
        0x7B => Form::Plain(Instr::Lshr),
        0x7C => Form::Plain(Instr::Iushr),
        0x7D => Form::Plain(Instr::Lushr),
        0x7E => Form::Plain(Instr::Iand),
        0x7F => Form::Plain(Instr::Land),
        0x80 => Form::Plain(Instr::Ior),
        0x81 => Form::Plain(Instr::Lor),
        0x82 => Form::Plain(Instr::Ixor),
        0x83 => Form::Plain(Instr::Lxor),
        _ => return None,
    };
    Some(form)
}

// Instructions of `iinc`, conversions and comparison.
#[tactic(auto, unfolding(class_file::specs::Opcodes::opcodes))]
fn conversion(opcode: u8) -> Option<Form>
    ensures { option_map form_seen result ≡ find_form opcode (part 77 5) }
{
    let form = match opcode {
        0x84 => Form::Increment,
        0x85 => Form::Plain(Instr::I2l),
        0x88 => Form::Plain(Instr::L2i),
        0x92 => Form::Plain(Instr::I2c),
        0x94 => Form::Plain(Instr::Lcmp),
        _ => return None,
    };
    Some(form)
}

// Instructions of branches.
#[tactic(auto, unfolding(class_file::specs::Opcodes::opcodes))]
fn branch(opcode: u8) -> Option<Form>
    ensures { option_map form_seen result ≡ find_form opcode (part 82 15) }
{
    let form = match opcode {
        0x99 => Form::Short(Short::Ifeq),
        0x9A => Form::Short(Short::Ifne),
        0x9B => Form::Short(Short::Iflt),
        0x9C => Form::Short(Short::Ifge),
        0x9D => Form::Short(Short::Ifgt),
        0x9E => Form::Short(Short::Ifle),
        0x9F => Form::Short(Short::IfIcmpeq),
        0xA0 => Form::Short(Short::IfIcmpne),
        0xA1 => Form::Short(Short::IfIcmplt),
        0xA2 => Form::Short(Short::IfIcmpge),
        0xA3 => Form::Short(Short::IfIcmpgt),
        0xA4 => Form::Short(Short::IfIcmple),
        0xA5 => Form::Short(Short::IfAcmpeq),
        0xA6 => Form::Short(Short::IfAcmpne),
        0xA7 => Form::Short(Short::Goto),
        _ => return None,
    };
    Some(form)
}

// Instructions of returns, fields and calls.
#[tactic(auto, unfolding(class_file::specs::Opcodes::opcodes))]
fn member(opcode: u8) -> Option<Form>
    ensures { option_map form_seen result ≡ find_form opcode (part 97 12) }
{
    let form = match opcode {
        0xAC => Form::Plain(Instr::Ireturn),
        0xAD => Form::Plain(Instr::Lreturn),
        0xB0 => Form::Plain(Instr::Areturn),
        0xB1 => Form::Plain(Instr::Return),
        0xB2 => Form::Index(Index::Getstatic),
        0xB3 => Form::Index(Index::Putstatic),
        0xB4 => Form::Index(Index::Getfield),
        0xB5 => Form::Index(Index::Putfield),
        0xB6 => Form::Index(Index::Invokevirtual),
        0xB7 => Form::Index(Index::Invokespecial),
        0xB8 => Form::Index(Index::Invokestatic),
        0xB9 => Form::InterfaceCall,
        _ => return None,
    };
    Some(form)
}

// Instructions of objects and arrays.
#[tactic(auto, unfolding(class_file::specs::Opcodes::opcodes))]
fn object(opcode: u8) -> Option<Form>
    ensures { option_map form_seen result ≡ find_form opcode (part 109 8) }
{
    let form = match opcode {
        0xBB => Form::Index(Index::New),
        0xBD => Form::Index(Index::Anewarray),
        0xBE => Form::Plain(Instr::Arraylength),
        0xBF => Form::Plain(Instr::Athrow),
        0xC0 => Form::Index(Index::Checkcast),
        0xC1 => Form::Index(Index::Instanceof),
        0xC6 => Form::Short(Short::Ifnull),
        0xC7 => Form::Short(Short::Ifnonnull),
        _ => return None,
    };
    Some(form)
}

/// The instruction of an opcode, if there is one.
pub fn form_of(opcode: u8) -> Option<Form>
    ensures { option_map form_seen result ≡ form_of opcode }
{
    if let Some(form) = constant(opcode) {
        return Some(form);
    }
    if let Some(form) = load(opcode) {
        return Some(form);
    }
    if let Some(form) = store(opcode) {
        return Some(form);
    }
    if let Some(form) = stack(opcode) {
        return Some(form);
    }
    if let Some(form) = arithmetic(opcode) {
        return Some(form);
    }
    if let Some(form) = bits(opcode) {
        return Some(form);
    }
    if let Some(form) = conversion(opcode) {
        return Some(form);
    }
    if let Some(form) = branch(opcode) {
        return Some(form);
    }
    if let Some(form) = member(opcode) {
        return Some(form);
    }
    object(opcode)
}

/// The instruction of an opcode behind `wide`, if there is one.
#[tactic(auto, unfolding(class_file::specs::Opcodes::wide_form_of, class_file::specs::Opcodes::wide_opcodes))]
pub fn wide_form_of(opcode: u8) -> Option<Wide>
    ensures { option_map wide_form_seen result ≡ wide_form_of opcode }
{
    let form = match opcode {
        0x15 => Wide::Variable(Variable::Iload),
        0x16 => Wide::Variable(Variable::Lload),
        0x19 => Wide::Variable(Variable::Aload),
        0x36 => Wide::Variable(Variable::Istore),
        0x37 => Wide::Variable(Variable::Lstore),
        0x3A => Wide::Variable(Variable::Astore),
        0x84 => Wide::Increment,
        _ => return None,
    };
    Some(form)
}

impl Short {
    pub fn with(self, number: i16) -> Instr
        ensures { result ≡ with_short self number }
    {
        match self {
            Short::Sipush => Instr::Sipush(number),
            Short::Ifeq => Instr::Ifeq(number),
            Short::Ifne => Instr::Ifne(number),
            Short::Iflt => Instr::Iflt(number),
            Short::Ifge => Instr::Ifge(number),
            Short::Ifgt => Instr::Ifgt(number),
            Short::Ifle => Instr::Ifle(number),
            Short::IfIcmpeq => Instr::IfIcmpeq(number),
            Short::IfIcmpne => Instr::IfIcmpne(number),
            Short::IfIcmplt => Instr::IfIcmplt(number),
            Short::IfIcmpge => Instr::IfIcmpge(number),
            Short::IfIcmpgt => Instr::IfIcmpgt(number),
            Short::IfIcmple => Instr::IfIcmple(number),
            Short::IfAcmpeq => Instr::IfAcmpeq(number),
            Short::IfAcmpne => Instr::IfAcmpne(number),
            Short::Goto => Instr::Goto(number),
            Short::Ifnull => Instr::Ifnull(number),
            Short::Ifnonnull => Instr::Ifnonnull(number),
        }
    }
}

impl Variable {
    pub fn with(self, number: u8) -> Instr
        ensures { result ≡ with_variable self number }
    {
        match self {
            Variable::Iload => Instr::Iload(number),
            Variable::Lload => Instr::Lload(number),
            Variable::Aload => Instr::Aload(number),
            Variable::Istore => Instr::Istore(number),
            Variable::Lstore => Instr::Lstore(number),
            Variable::Astore => Instr::Astore(number),
        }
    }

    pub fn with_wide(self, number: u16) -> Instr
        ensures { result ≡ with_wide_variable self number }
    {
        match self {
            Variable::Iload => Instr::WideIload(number),
            Variable::Lload => Instr::WideLload(number),
            Variable::Aload => Instr::WideAload(number),
            Variable::Istore => Instr::WideIstore(number),
            Variable::Lstore => Instr::WideLstore(number),
            Variable::Astore => Instr::WideAstore(number),
        }
    }
}

impl Index {
    pub fn with(self, index: u16) -> Instr
        ensures { result ≡ with_index self index }
    {
        match self {
            Index::LdcW => Instr::LdcW(index),
            Index::Ldc2W => Instr::Ldc2W(index),
            Index::Getstatic => Instr::Getstatic(index),
            Index::Putstatic => Instr::Putstatic(index),
            Index::Getfield => Instr::Getfield(index),
            Index::Putfield => Instr::Putfield(index),
            Index::Invokevirtual => Instr::Invokevirtual(index),
            Index::Invokespecial => Instr::Invokespecial(index),
            Index::Invokestatic => Instr::Invokestatic(index),
            Index::New => Instr::New(index),
            Index::Anewarray => Instr::Anewarray(index),
            Index::Checkcast => Instr::Checkcast(index),
            Index::Instanceof => Instr::Instanceof(index),
        }
    }
}
