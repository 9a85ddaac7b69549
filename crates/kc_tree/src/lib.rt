//! Surface trees, the places of their parts, and the reasons for which a source is refused.
#![tactic(auto)]

mod decl;
mod expr;
mod fault;
mod types;

pub use decl::{
    Class, ClassForm, ClassParam, Constant, Decl, DeclKind, File, Fun, FunBody, Getter, Import,
    Member, MemberKind, Param, Prop, Setter, Super,
};
pub use expr::{
    Arg, AssignOp, BinaryOp, Branch, CatchPart, Cond, Expr, ExprKind, LocalName, Piece, PostfixOp,
    PrefixOp,
};
pub use fault::{Code, Detail, Fault, Span, Stop, names_differ};
pub use types::{Mod, ModKind, Type, TypeArg, TypeArgKind, TypeKind, TypeParam, Word};

#[cfg(test)]
mod tests;
