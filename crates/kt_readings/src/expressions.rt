//! Expressions and statements: a sign and the operands behind it, in brackets.

use crate::lists::{args, branches, catches, conds, exprs, locals, pieces, type_arguments};
use crate::parts::{Part, Parts, around, bracketed, expr, label, labelled, local, sign, type_};
use kc_text::Memory;
use kc_tree::{
    Arg, AssignOp, BinaryOp, Branch, CatchPart, Cond, Expr, ExprKind, LocalName, Piece, PostfixOp,
    PrefixOp, Type, TypeArg, Word,
};
use sqlite_items::Boxed;

fn prefix_sign(op: PrefixOp) -> &'static str {
    match op {
        PrefixOp::Minus => "(- ",
        PrefixOp::Plus => "(+ ",
        PrefixOp::Not => "(! ",
        PrefixOp::Inc => "(++ ",
        PrefixOp::Dec => "(-- ",
    }
}

fn postfix_sign(op: PostfixOp) -> &'static str {
    match op {
        PostfixOp::Inc => " ++)",
        PostfixOp::Dec => " --)",
        PostfixOp::NotNull => " !!)",
    }
}

fn comparison_sign(op: BinaryOp) -> &'static str {
    match op {
        BinaryOp::Equal => "==",
        BinaryOp::NotEqual => "!=",
        BinaryOp::Same => "===",
        BinaryOp::NotSame => "!==",
        BinaryOp::Less => "<",
        BinaryOp::Greater => ">",
        BinaryOp::LessEqual => "<=",
        BinaryOp::GreaterEqual => ">=",
        _ => "?",
    }
}

fn binary_sign(op: BinaryOp) -> &'static str {
    match op {
        BinaryOp::Or => "||",
        BinaryOp::And => "&&",
        BinaryOp::Elvis => "?:",
        BinaryOp::RangeTo => "..",
        BinaryOp::RangeUntil => "..<",
        BinaryOp::Plus => "+",
        BinaryOp::Minus => "-",
        BinaryOp::Times => "*",
        BinaryOp::Div => "/",
        BinaryOp::Rem => "%",
        _ => comparison_sign(op),
    }
}

fn assign_sign(op: AssignOp) -> &'static str {
    match op {
        AssignOp::Set => "=",
        AssignOp::Plus => "+=",
        AssignOp::Minus => "-=",
        AssignOp::Times => "*=",
        AssignOp::Div => "/=",
        AssignOp::Rem => "%=",
    }
}

/// One of two signs.
pub fn choice(first: bool, sign: &'static str, other: &'static str) -> &'static str {
    if first { sign } else { other }
}

fn number(parts: &mut Parts<'_>, value: u64, long: bool) -> Result<(), Memory> {
    let end = choice(long, "L", "");
    parts.extend_from_slice(&[Part::Number(value), Part::Sign(end)])?;
    Ok(())
}

fn character(parts: &mut Parts<'_>, unit: u16) -> Result<(), Memory> {
    let unit = u64::from(unit);
    around(parts, "(char ", Part::Number(unit), ")")
}

fn text<'t>(parts: &mut Parts<'t>, all: &'t [Piece]) -> Result<(), Memory> {
    sign(parts, "(string")?;
    pieces(parts, all)?;
    sign(parts, ")")
}

fn member<'t>(
    parts: &mut Parts<'t>,
    before: &'static str,
    of: &'t Expr,
    name: usize,
) -> Result<(), Memory> {
    bracketed(parts, before, expr(of), Part::Name(name))
}

fn superclass<'t>(parts: &mut Parts<'t>, of: &'t Option<Type>, name: usize) -> Result<(), Memory> {
    if let Some(ty) = of {
        return bracketed(parts, "super", type_(ty), Part::Name(name));
    }
    around(parts, "(super ", Part::Name(name), ")")
}

fn infix<'t>(
    parts: &mut Parts<'t>,
    left: &'t Expr,
    name: usize,
    right: &'t Expr,
) -> Result<(), Memory> {
    around(parts, "(infix ", Part::Name(name), " ")?;
    around(parts, "", expr(left), " ")?;
    around(parts, "", expr(right), ")")
}

fn call<'t>(
    parts: &mut Parts<'t>,
    of: &'t Expr,
    types: &'t [TypeArg],
    all: &'t [Arg],
) -> Result<(), Memory> {
    around(parts, "(call ", expr(of), "")?;
    type_arguments(parts, " ", types)?;
    args(parts, all)?;
    sign(parts, ")")
}

fn index<'t>(parts: &mut Parts<'t>, of: &'t Expr, at: &'t [Expr]) -> Result<(), Memory> {
    around(parts, "(index ", expr(of), " ")?;
    exprs(parts, at, " ")?;
    sign(parts, ")")
}

/// A last operand behind a space, where there is one, and the closing bracket.
fn perhaps<'t>(parts: &mut Parts<'t>, last: Option<&'t Expr>) -> Result<(), Memory> {
    match last {
        Some(value) => around(parts, " ", expr(value), ")"),
        None => sign(parts, ")"),
    }
}

fn conditional<'t>(
    parts: &mut Parts<'t>,
    test: &'t Expr,
    held: &'t Expr,
    failed: Option<&'t Expr>,
) -> Result<(), Memory> {
    around(parts, "(if ", expr(test), " ")?;
    around(parts, "", expr(held), "")?;
    perhaps(parts, failed)
}

fn subject<'t>(
    parts: &mut Parts<'t>,
    bound: &'t Option<LocalName>,
    subject: Option<&'t Expr>,
) -> Result<(), Memory> {
    if let Some(name) = bound {
        around(parts, " val ", local(name), " =")?;
    }
    match subject {
        Some(value) => around(parts, " ", expr(value), ""),
        None => Ok(()),
    }
}

fn cases<'t>(
    parts: &mut Parts<'t>,
    bound: &'t Option<LocalName>,
    of: Option<&'t Expr>,
    all: &'t [Branch],
) -> Result<(), Memory> {
    sign(parts, "(when")?;
    subject(parts, bound, of)?;
    branches(parts, all)?;
    sign(parts, ")")
}

/// Statements between two signs.
pub fn block<'t>(
    parts: &mut Parts<'t>,
    before: &'static str,
    all: &'t [Expr],
    after: &'static str,
) -> Result<(), Memory> {
    sign(parts, before)?;
    exprs(parts, all, "; ")?;
    sign(parts, after)
}

fn attempt<'t>(
    parts: &mut Parts<'t>,
    body: &'t [Expr],
    all: &'t [CatchPart],
    last: Option<&'t Expr>,
) -> Result<(), Memory> {
    block(parts, "(try [", body, "]")?;
    catches(parts, all)?;
    if last.is_some() {
        sign(parts, " finally")?;
    }
    perhaps(parts, last)
}

fn parameters<'t>(
    parts: &mut Parts<'t>,
    of: &'t Option<Word>,
    params: &'t [LocalName],
) -> Result<(), Memory> {
    label(parts, of)?;
    sign(parts, "{")?;
    locals(parts, params)
}

fn lambda<'t>(
    parts: &mut Parts<'t>,
    of: &'t Option<Word>,
    params: &'t [LocalName],
    arrow: bool,
    body: &'t [Expr],
) -> Result<(), Memory> {
    parameters(parts, of, params)?;
    block(parts, choice(arrow, " -> ", ""), body, "}")
}

fn return_<'t>(
    parts: &mut Parts<'t>,
    of: &Option<Word>,
    value: Option<&'t Expr>,
) -> Result<(), Memory> {
    labelled(parts, "(return", of)?;
    perhaps(parts, value)
}

fn variables<'t>(
    parts: &mut Parts<'t>,
    names: &'t [LocalName],
    brackets: bool,
) -> Result<(), Memory> {
    sign(parts, choice(brackets, "(", ""))?;
    locals(parts, names)?;
    sign(parts, choice(brackets, ")", ""))
}

fn declared<'t>(
    parts: &mut Parts<'t>,
    is_var: bool,
    names: &'t [LocalName],
    brackets: bool,
    value: Option<&'t Expr>,
) -> Result<(), Memory> {
    sign(parts, choice(is_var, "(var ", "(val "))?;
    variables(parts, names, brackets)?;
    if value.is_some() {
        sign(parts, " =")?;
    }
    perhaps(parts, value)
}

fn loop_head(parts: &mut Parts<'_>, of: &Option<Word>, before: &'static str) -> Result<(), Memory> {
    sign(parts, "(")?;
    label(parts, of)?;
    sign(parts, before)
}

fn for_head<'t>(
    parts: &mut Parts<'t>,
    of: &Option<Word>,
    names: &'t [LocalName],
    brackets: bool,
) -> Result<(), Memory> {
    loop_head(parts, of, "for ")?;
    variables(parts, names, brackets)
}

fn while_loop<'t>(
    parts: &mut Parts<'t>,
    of: &Option<Word>,
    test: &'t Expr,
    body: &'t Expr,
) -> Result<(), Memory> {
    loop_head(parts, of, "while ")?;
    around(parts, "", expr(test), " ")?;
    around(parts, "", expr(body), ")")
}

fn do_loop<'t>(
    parts: &mut Parts<'t>,
    of: &Option<Word>,
    body: &'t Expr,
    test: &'t Expr,
) -> Result<(), Memory> {
    loop_head(parts, of, "do ")?;
    around(parts, "", expr(body), " while ")?;
    around(parts, "", expr(test), ")")
}

fn loops<'t>(parts: &mut Parts<'t>, kind: &'t ExprKind) -> Result<(), Memory> {
    match kind {
        ExprKind::For {
            label,
            names,
            brackets,
            range,
            body,
            ..
        } => {
            for_head(parts, label, names.as_slice(), *brackets)?;
            around(parts, " in ", expr(range.get()), "")?;
            around(parts, " ", expr(body.get()), ")")
        }
        ExprKind::While { label, test, body } => while_loop(parts, label, test.get(), body.get()),
        ExprKind::DoWhile { label, body, test } => do_loop(parts, label, body.get(), test.get()),
        _ => sign(parts, "?"),
    }
}

fn inner(of: &Option<Boxed<Expr>>) -> Option<&Expr> {
    match of {
        Some(value) => Some(value.get()),
        None => None,
    }
}

fn statements<'t>(parts: &mut Parts<'t>, kind: &'t ExprKind) -> Result<(), Memory> {
    match kind {
        ExprKind::Block(body) => block(parts, "[", body.as_slice(), "]"),
        ExprKind::Local {
            is_var,
            names,
            brackets,
            value,
        } => declared(parts, *is_var, names.as_slice(), *brackets, inner(value)),
        ExprKind::Assign {
            op,
            place,
            value,
            ..
        } => bracketed(
            parts,
            assign_sign(*op),
            expr(place.get()),
            expr(value.get()),
        ),
        _ => loops(parts, kind),
    }
}

fn jumps<'t>(parts: &mut Parts<'t>, kind: &'t ExprKind) -> Result<(), Memory> {
    match kind {
        ExprKind::Return { label, value } => return_(parts, label, inner(value)),
        ExprKind::Break(label) => labelled(parts, "break", label),
        ExprKind::Continue(label) => labelled(parts, "continue", label),
        ExprKind::Throw(value) => around(parts, "(throw ", expr(value.get()), ")"),
        _ => statements(parts, kind),
    }
}

fn control<'t>(parts: &mut Parts<'t>, kind: &'t ExprKind) -> Result<(), Memory> {
    match kind {
        ExprKind::If { test, held, failed } => {
            conditional(parts, test.get(), held.get(), inner(failed))
        }
        ExprKind::When {
            bound,
            subject,
            branches,
        } => cases(parts, bound, inner(subject), branches.as_slice()),
        ExprKind::Try {
            body,
            catches,
            last,
        } => attempt(parts, body.as_slice(), catches.as_slice(), inner(last)),
        ExprKind::Lambda {
            label,
            params,
            arrow,
            body,
        } => lambda(parts, label, params.as_slice(), *arrow, body.as_slice()),
        _ => jumps(parts, kind),
    }
}

fn suffixes<'t>(parts: &mut Parts<'t>, kind: &'t ExprKind) -> Result<(), Memory> {
    match kind {
        ExprKind::Postfix { op, of } => around(parts, "(", expr(of.get()), postfix_sign(*op)),
        ExprKind::Member { of, safe, name } => {
            member(parts, choice(*safe, "?.", "."), of.get(), name.name)
        }
        ExprKind::Call {
            of,
            types,
            args,
            ..
        } => call(parts, of.get(), types.as_slice(), args.as_slice()),
        ExprKind::Index { of, at, .. } => index(parts, of.get(), at.as_slice()),
        ExprKind::Super { of, name } => superclass(parts, of, name.name),
        _ => control(parts, kind),
    }
}

fn operators<'t>(parts: &mut Parts<'t>, kind: &'t ExprKind) -> Result<(), Memory> {
    match kind {
        ExprKind::Prefix { op, of } => around(parts, prefix_sign(*op), expr(of.get()), ")"),
        ExprKind::Binary {
            op,
            left,
            right,
            ..
        } => bracketed(parts, binary_sign(*op), expr(left.get()), expr(right.get())),
        ExprKind::Infix { left, name, right } => {
            infix(parts, left.get(), name.name, right.get())
        }
        ExprKind::In {
            negated,
            value,
            range,
            ..
        } => bracketed(
            parts,
            choice(*negated, "!in", "in"),
            expr(value.get()),
            expr(range.get()),
        ),
        ExprKind::Is { negated, value, ty } => {
            bracketed(
                parts,
                choice(*negated, "!is", "is"),
                expr(value.get()),
                type_(ty),
            )
        }
        ExprKind::As { safe, value, ty } => {
            bracketed(
                parts,
                choice(*safe, "as?", "as"),
                expr(value.get()),
                type_(ty),
            )
        }
        _ => suffixes(parts, kind),
    }
}

/// An expression or a statement.
pub fn expr_parts<'t>(parts: &mut Parts<'t>, of: &'t Expr) -> Result<(), Memory> {
    match &of.kind {
        ExprKind::Number { value, long } => number(parts, *value, *long),
        ExprKind::Char(unit) => character(parts, *unit),
        ExprKind::Truth(held) => sign(parts, choice(*held, "true", "false")),
        ExprKind::Null => sign(parts, "null"),
        ExprKind::This => sign(parts, "this"),
        ExprKind::Name(name) => around(parts, "", Part::Name(*name), ""),
        ExprKind::Paren(inner) => around(parts, "(paren ", expr(inner.get()), ")"),
        ExprKind::Text(all) => text(parts, all.as_slice()),
        _ => operators(parts, &of.kind),
    }
}

pub fn piece_parts<'t>(parts: &mut Parts<'t>, of: &'t Piece) -> Result<(), Memory> {
    match of {
        Piece::Text(text) => around(parts, "\"", Part::Units(text), "\""),
        Piece::Name(word) => around(parts, "$", Part::Name(word.name), ""),
        Piece::Hole(value) => around(parts, "${", expr(value), "}"),
    }
}

fn before_value(parts: &mut Parts<'_>, name: &Option<Word>) -> Result<(), Memory> {
    match name {
        Some(word) => around(parts, "", Part::Name(word.name), "="),
        None => Ok(()),
    }
}

pub fn arg_parts<'t>(parts: &mut Parts<'t>, of: &'t Arg) -> Result<(), Memory> {
    sign(parts, choice(of.trailing, "trailing ", ""))?;
    before_value(parts, &of.name)?;
    around(parts, choice(of.spread, "*", ""), expr(&of.value), "")
}

pub fn cond_parts<'t>(parts: &mut Parts<'t>, of: &'t Cond) -> Result<(), Memory> {
    match of {
        Cond::In { negated, range, .. } => {
            around(parts, choice(*negated, "(!in ", "(in "), expr(range), ")")
        }
        Cond::Is { negated, ty, .. } => {
            around(parts, choice(*negated, "(!is ", "(is "), type_(ty), ")")
        }
        Cond::Value(value) => around(parts, "", expr(value), ""),
    }
}

/// A branch; with no conditions, that of `else`.
pub fn branch_parts<'t>(parts: &mut Parts<'t>, of: &'t Branch) -> Result<(), Memory> {
    let conditions = of.conds.as_slice();
    sign(parts, choice(conditions.is_empty(), "(else ", "("))?;
    conds(parts, conditions)?;
    around(parts, "-> ", expr(&of.body), ")")
}

pub fn catch_parts<'t>(parts: &mut Parts<'t>, of: &'t CatchPart) -> Result<(), Memory> {
    around(parts, "(catch ", Part::Name(of.name.name), ": ")?;
    around(parts, "", type_(&of.ty), " ")?;
    around(parts, "", expr(&of.body), ")")
}
