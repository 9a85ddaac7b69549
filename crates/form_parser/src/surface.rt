//! A file of the form as it is written.

use crate::tokens::Place;
use kc_core::tree::{BinaryOp, Order};
use sqlite_items::{Boxed, Items};

/// An expression with its place, which includes the brackets around it.
#[cycle(expression)]
#[derive(Drop)]
pub struct Expression {
    pub place: Place,
    pub kind: ExpressionKind,
}

#[cycle(expression)]
#[derive(Drop)]
pub enum ExpressionKind {
    /// A number, or the least `Int` with its sign.
    Number(i32),
    Truth(bool),
    /// A name, with the place of its word, which brackets around it are no part of.
    Name(Place),
    Negation(Boxed<Expression>),
    Not(Boxed<Expression>),
    Binary {
        op: BinaryOp,
        left: Boxed<Expression>,
        right: Boxed<Expression>,
    },
    Compare {
        order: Order,
        left: Boxed<Expression>,
        right: Boxed<Expression>,
    },
    /// `==`, or `!=` where `equal` is false.
    Equality {
        equal: bool,
        left: Boxed<Expression>,
        right: Boxed<Expression>,
    },
    And {
        left: Boxed<Expression>,
        right: Boxed<Expression>,
    },
    Or {
        left: Boxed<Expression>,
        right: Boxed<Expression>,
    },
}

/// The body of a choice or a loop: the statements in braces, or the one statement that stands without. It is a scope.
#[cycle(statement)]
#[derive(Drop)]
pub struct Body {
    pub place: Place,
    pub statements: Items<Statement>,
}

#[cycle(statement)]
#[derive(Drop)]
pub enum Statement {
    /// `val`, or `var`, with its value.
    Declare {
        place: Place,
        is_var: bool,
        name: Place,
        value: Expression,
    },
    Assign {
        place: Place,
        name: Place,
        value: Expression,
    },
    Print {
        place: Place,
        value: Expression,
    },
    If {
        place: Place,
        test: Expression,
        held: Body,
        failed: Option<Boxed<Body>>,
    },
    While {
        place: Place,
        test: Expression,
        body: Body,
    },
}

/// A file: the place of its function's name, that of the function's body, and the statements.
#[derive(Drop)]
pub struct Source {
    pub name: Place,
    pub body: Place,
    pub statements: Items<Statement>,
}
