//! Class files as values.

use crate::frames::Frames;
use crate::instr::Instr;
use crate::pool::Pool;
use kc_text::Text;
use shared_list::SharedList;
use sqlite_items::Items;

/// An attribute that is only kept: its name and its bytes.
#[derive(Drop)]
pub struct Attribute {
    pub name: Text,
    pub bytes: Items<u8>,
}

/// A field (Java Virtual Machine Specification SE 8, 4.5).
#[derive(Drop)]
pub struct Field {
    pub flags: u16,
    pub name: Text,
    pub descriptor: Text,
    pub others: Items<Attribute>,
}

/// A row of an exception table (4.7.3): from `start` to `end` (excluded) in bytes. `catch_type` is an index of the pool, or 0
/// for every exception.
#[derive(Clone, Copy)]
pub struct Handler {
    pub start: usize,
    pub end: usize,
    pub at: usize,
    pub catch_type: u16,
}

/// A verification type (4.10.1.2). `Object` has the name of a class or the descriptor of an array.
#[derive(Drop)]
pub enum VType {
    Top,
    Integer,
    Long,
    Null,
    UninitializedThis,
    Object(Text),
    Uninitialized(usize),
}

/// A frame that a method gives (4.7.4), at a place in bytes. A `Long` is one entry of `locals` and of `stack`. `unset` says that
/// the method is a constructor that has not called another constructor yet. Frames that are read share the locals that they have
/// in common, and types of one class of the pool share its name.
#[derive(Drop)]
pub struct Frame {
    pub at: usize,
    pub locals: SharedList<VType>,
    pub stack: Items<VType>,
    pub unset: bool,
}

/// A method (4.6) with its code (4.7.3). An abstract method has no instructions.
#[derive(Drop)]
pub struct Method {
    pub flags: u16,
    pub name: Text,
    pub descriptor: Text,
    pub max_stack: u16,
    pub max_locals: u16,
    pub code: Items<Instr>,
    pub handlers: Items<Handler>,
    pub frames: Frames,
    pub code_others: Items<Attribute>,
    pub others: Items<Attribute>,
}

/// A class file (4.1).
#[derive(Drop)]
pub struct ClassFile {
    pub pool: Pool,
    pub flags: u16,
    pub this_name: Text,
    pub super_name: Text,
    pub interfaces: Items<Text>,
    pub fields: Items<Field>,
    pub methods: Items<Method>,
    pub others: Items<Attribute>,
}

/// Class files that run together, in the order of loading, and the name of the class whose `main` runs.
#[derive(Drop)]
pub struct Set {
    pub classes: Items<ClassFile>,
    pub main: Text,
}
