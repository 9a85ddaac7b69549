//! Files and declarations. Declarations hold no others but members.

use crate::{Arg, Expr, Mod, Span, Type, TypeParam, Word};
use sqlite_items::Items;

/// A file (Kotlin Language Specification 1.9, "Packages and imports"). `package` has the words between the dots, none where the
/// file names no package.
#[derive(Drop)]
pub struct File {
    pub span: Span,
    pub package: Items<Word>,
    pub imports: Items<Import>,
    pub decls: Items<Decl>,
}

/// An import. `star` says that `.*` stands behind the path.
#[derive(Drop)]
pub struct Import {
    pub span: Span,
    pub path: Items<Word>,
    pub star: bool,
}

/// A declaration at the top of a file (Kotlin Language Specification 1.9, "Declarations").
#[derive(Drop)]
pub struct Decl {
    pub span: Span,
    pub mods: Items<Mod>,
    pub kind: DeclKind,
}

#[derive(Drop)]
pub enum DeclKind {
    Class(Class),
    Fun(Fun),
    Prop(Prop),
}

/// A class, an interface or an object (Kotlin Language Specification 1.9, "Classifier declaration").
#[derive(Drop)]
pub struct Class {
    pub form: ClassForm,
    pub name: Word,
    pub params: Items<TypeParam>,
    /// The parameters of the primary constructor, where one is written.
    pub primary: Option<Items<ClassParam>>,
    pub supers: Items<Super>,
    /// The constants of an enum class.
    pub constants: Items<Constant>,
    pub members: Items<Member>,
}

#[derive(Clone, Copy, Debug, PartialEq, Eq)]
pub enum ClassForm {
    Class,
    Interface,
    Object,
}

/// A member of a class's body.
#[derive(Drop)]
pub struct Member {
    pub span: Span,
    pub mods: Items<Mod>,
    pub kind: MemberKind,
}

#[derive(Drop)]
pub enum MemberKind {
    Fun(Fun),
    Prop(Prop),
    /// The statements of an `init` block.
    Init(Items<Expr>),
}

/// A parameter of a primary constructor (Kotlin Language Specification 1.9, "Constructor declaration").
#[derive(Drop)]
pub struct ClassParam {
    pub span: Span,
    pub mods: Items<Mod>,
    pub is_val: bool,
    pub is_var: bool,
    pub name: Word,
    pub ty: Type,
    pub default: Option<Expr>,
}

/// A supertype, with the arguments of the superclass's constructor where brackets are written.
#[derive(Drop)]
pub struct Super {
    pub span: Span,
    pub ty: Type,
    pub args: Option<Items<Arg>>,
}

/// A constant of an enum class (Kotlin Language Specification 1.9, "Enum class declaration").
#[derive(Drop)]
pub struct Constant {
    pub span: Span,
    pub name: Word,
    pub args: Option<Items<Arg>>,
}

/// A function (Kotlin Language Specification 1.9, "Function declaration").
#[derive(Drop)]
pub struct Fun {
    pub params: Items<TypeParam>,
    /// The type before the `.` of an extension function.
    pub receiver: Option<Type>,
    pub name: Word,
    pub values: Items<Param>,
    pub result: Option<Type>,
    pub body: Option<FunBody>,
}

#[derive(Drop)]
pub enum FunBody {
    /// The statements in braces.
    Block(Items<Expr>),
    /// The expression behind `=`.
    Expr(Expr),
}

/// A parameter of a function (Kotlin Language Specification 1.9, "Named, positional and default parameters").
#[derive(Drop)]
pub struct Param {
    pub span: Span,
    pub mods: Items<Mod>,
    pub name: Word,
    pub ty: Type,
    pub default: Option<Expr>,
}

/// A property at the top of a file or in a class (Kotlin Language Specification 1.9, "Property declaration").
#[derive(Drop)]
pub struct Prop {
    pub is_var: bool,
    pub name: Word,
    pub ty: Option<Type>,
    pub value: Option<Expr>,
    pub getter: Option<Getter>,
    pub setter: Option<Setter>,
}

/// A getter (Kotlin Language Specification 1.9, "Getters and setters").
#[derive(Drop)]
pub struct Getter {
    pub span: Span,
    pub ty: Option<Type>,
    pub body: FunBody,
}

/// A setter with the name of its parameter.
#[derive(Drop)]
pub struct Setter {
    pub span: Span,
    pub name: Word,
    pub body: FunBody,
}
