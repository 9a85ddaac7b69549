// A set with its code spread out by byte offset and its names resolved.

use class_file::row::Row;
use class_file::value::NativeId;
use kc_text::Text;

/// A method with code, by its class's place in the set and its own in the class, with the number of its parameters and of its
/// local variables.
#[derive(Clone, Copy)]
pub struct Target {
    pub class: usize,
    pub method: usize,
    pub params: usize,
    pub max_locals: u16,
}

/// What an index of a constant pool stands for where code names it.
#[derive(Drop)]
pub enum Link {
    Missing,
    Native(NativeId),
    Method(Target),
    Number(i32),
    Wide(i64),
    Literal(Text),
}

/// What stands at a byte offset of a code: what the instruction there does, and the place of the next.
#[derive(Clone, Copy)]
pub struct Op {
    pub row: Row,
    pub next: usize,
}

/// What a row of an exception table catches: all, a class by its number, or nothing that the machine throws.
#[derive(Clone, Copy)]
pub enum Caught {
    All,
    Class(usize),
    Nothing,
}

/// A row of an exception table: from `start` to `end` (excluded) in bytes, and where it leads.
#[derive(Clone, Copy)]
pub struct LinkedHandler {
    pub start: usize,
    pub end: usize,
    pub at: usize,
    pub caught: Caught,
}

/// A method's code, by byte offset, and its exception table.
#[derive(Drop)]
pub struct LinkedMethod {
    pub ops: Vec<Op>,
    pub handlers: Vec<LinkedHandler>,
}

/// A class's methods, its constant pool by index, and its initialiser.
#[derive(Drop)]
pub struct LinkedClass {
    pub methods: Vec<LinkedMethod>,
    pub constants: Vec<Link>,
    pub initialiser: Option<Target>,
}

/// The classes of a set, in its order, and its main method.
#[derive(Drop)]
pub struct Links {
    pub classes: Vec<LinkedClass>,
    pub main: Option<Target>,
}
