//! What classes, type parameters and types are named by.

/// A class, by its place among the heads of a hierarchy's classes. The classes known to the compiler come first.
#[derive(Clone, Copy, Debug, PartialEq, Eq, Hash)]
pub struct ClassId(pub usize);

/// A type parameter of one class or function.
#[derive(Clone, Copy, Debug, PartialEq, Eq, Hash)]
pub struct VarId(pub usize);

/// A type, by its place in a `TypeTable`.
#[derive(Clone, Copy, Debug, PartialEq, Eq, Hash)]
pub struct TypeId(pub usize);

impl ClassId {
    pub const ANY: ClassId = ClassId(0);

    pub const UNIT: ClassId = ClassId(1);

    pub const INT: ClassId = ClassId(2);

    pub const LONG: ClassId = ClassId(3);

    pub const CHAR: ClassId = ClassId(4);

    pub const BOOLEAN: ClassId = ClassId(5);

    pub const STRING: ClassId = ClassId(6);

    pub const ARRAY: ClassId = ClassId(7);

    pub const COMPARABLE: ClassId = ClassId(8);

    pub const THROWABLE: ClassId = ClassId(9);

    pub const EXCEPTION: ClassId = ClassId(10);

    pub const ERROR: ClassId = ClassId(11);

    pub const RUNTIME_EXCEPTION: ClassId = ClassId(12);

    pub const ILLEGAL_ARGUMENT_EXCEPTION: ClassId = ClassId(13);

    pub const NUMBER_FORMAT_EXCEPTION: ClassId = ClassId(14);

    pub const ILLEGAL_STATE_EXCEPTION: ClassId = ClassId(15);

    pub const UNSUPPORTED_OPERATION_EXCEPTION: ClassId = ClassId(16);

    pub const ARITHMETIC_EXCEPTION: ClassId = ClassId(17);

    pub const NULL_POINTER_EXCEPTION: ClassId = ClassId(18);

    pub const CLASS_CAST_EXCEPTION: ClassId = ClassId(19);

    pub const INDEX_OUT_OF_BOUNDS_EXCEPTION: ClassId = ClassId(20);

    pub const ARRAY_INDEX_OUT_OF_BOUNDS_EXCEPTION: ClassId = ClassId(21);

    pub const ARRAY_STORE_EXCEPTION: ClassId = ClassId(22);

    pub const NEGATIVE_ARRAY_SIZE_EXCEPTION: ClassId = ClassId(23);

    pub const INCOMPATIBLE_CLASS_CHANGE_ERROR: ClassId = ClassId(24);

    pub const ABSTRACT_METHOD_ERROR: ClassId = ClassId(25);

    pub const NO_SUCH_ELEMENT_EXCEPTION: ClassId = ClassId(26);
    /// The class of functions without parameters. Those of functions with 1 to 8 parameters follow it in this order.
    pub const FUNCTION_0: ClassId = ClassId(27);
    /// The class of functions with 8 parameters, the last one that is known to the compiler.
    pub const FUNCTION_8: ClassId = ClassId(35);
}
