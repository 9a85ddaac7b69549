//! Expressions: names become numbers of locals, and each operand has the type that its operator takes.

ghost use Rattle.std.specs.Prelude.{◌≡◌, IfOk};
ghost use Rattle.form_elaboration.specs.Nodes as nodes;
ghost use Rattle.form_elaboration.specs.Expressions.{of_type, both, value_of, expression_of};

use crate::nodes::{equality, node, same_type};
use crate::scope::{Visible, found};
use form_parser::Place;
use form_parser::surface::{Expression, ExpressionKind};
use kc_core::tree::{Core, Kind, TypeTree, UnaryOp};
use sqlite_items::Boxed;
use std::alloc::{AllocError, Global};

/// What expressions are elaborated in: the file with its number, and what is in scope.
#[derive(Clone, Copy)]
pub struct Names<'t> {
    pub alloc: Global,
    pub file: usize,
    pub text: &'t [u8],
    pub visible: &'t [Visible],
}

impl Names<'_> {
    fn node(&self, place: Place, ty: TypeTree, kind: Kind) -> Core
        ensures { result ≡ nodes.node self.now.file place ty kind }
    {
        node(self.file, place, ty, kind)
    }

    /// The node of an expression, or none where it has no elaboration.
    #[cycle(elaborate)]
    pub fn expression(&self, expression: &Expression) -> Result<Option<Core>, AllocError>
        ensures { IfOk result (λ o. o ≡ expression_of self.now.file self.now.text.now self.now.visible.now expression.now) }
    {
        self.value(expression.place, &expression.kind)
    }

    // An operand, which is of this type.
    #[cycle(elaborate)]
    fn operand(
        &self,
        ty: TypeTree,
        expression: &Expression,
    ) -> Result<Option<Boxed<Core>>, AllocError>
        ensures { IfOk result (λ o. o ≡ of_type ty (expression_of self.now.file self.now.text.now self.now.visible.now expression.now)) }
    {
        let Some(value) = self.expression(expression)? else {
            return Ok(None);
        };
        if !same_type(value.ty, ty) {
            return Ok(None);
        }
        Ok(Some(Boxed::new(self.alloc, value)?))
    }

    // Two operands, which are of this type.
    #[cycle(elaborate)]
    fn operands(
        &self,
        ty: TypeTree,
        left: &Expression,
        right: &Expression,
    ) -> Result<Option<(Boxed<Core>, Boxed<Core>)>, AllocError>
        ensures { IfOk result (λ o. o ≡ both ty (expression_of self.now.file self.now.text.now self.now.visible.now left.now) (expression_of self.now.file self.now.text.now self.now.visible.now right.now)) }
    {
        let Some(left) = self.operand(ty, left)? else {
            return Ok(None);
        };
        let Some(right) = self.operand(ty, right)? else {
            return Ok(None);
        };
        Ok(Some((left, right)))
    }

    #[cycle(elaborate)]
    fn value(&self, place: Place, kind: &ExpressionKind) -> Result<Option<Core>, AllocError>
        ensures { IfOk result (λ o. o ≡ value_of self.now.file self.now.text.now self.now.visible.now kind.now place) }
    {
        match kind {
            ExpressionKind::Number(value) => Ok(Some(self.node(
                place,
                TypeTree::Int,
                Kind::IntLit(*value),
            ))),
            ExpressionKind::Truth(value) => Ok(Some(self.node(
                place,
                TypeTree::Boolean,
                Kind::BoolLit(*value),
            ))),
            ExpressionKind::Name(word) => match found(self.text, self.visible, *word) {
                Some(one) => Ok(Some(self.node(place, one.ty, Kind::LocalRead(one.local)))),
                None => Ok(None),
            },
            ExpressionKind::Negation(value) => {
                let Some(value) = self.operand(TypeTree::Int, value.get())? else {
                    return Ok(None);
                };
                let op = UnaryOp::Minus;
                Ok(Some(self.node(place, TypeTree::Int, Kind::NumUnary { op, value })))
            }
            ExpressionKind::Not(value) => {
                let Some(value) = self.operand(TypeTree::Boolean, value.get())? else {
                    return Ok(None);
                };
                Ok(Some(self.node(place, TypeTree::Boolean, Kind::Not(value))))
            }
            ExpressionKind::Binary { op, left, right } => {
                let Some((left, right)) = self.operands(TypeTree::Int, left.get(), right.get())?
                else {
                    return Ok(None);
                };
                let op = *op;
                Ok(Some(self.node(place, TypeTree::Int, Kind::NumBinary { op, left, right })))
            }
            ExpressionKind::Compare { order, left, right } => {
                let Some((left, right)) = self.operands(TypeTree::Int, left.get(), right.get())?
                else {
                    return Ok(None);
                };
                let order = *order;
                Ok(Some(self.node(
                    place,
                    TypeTree::Boolean,
                    Kind::NumCompare { order, left, right },
                )))
            }
            ExpressionKind::Equality { equal, left, right } => {
                let Some((left, right)) = self.operands(TypeTree::Int, left.get(), right.get())?
                else {
                    return Ok(None);
                };
                Ok(Some(equality(self.alloc, self.file, place, *equal, left, right)?))
            }
            ExpressionKind::And { left, right } => {
                let Some((left, right)) = self.operands(TypeTree::Boolean, left.get(), right.get())?
                else {
                    return Ok(None);
                };
                Ok(Some(self.node(place, TypeTree::Boolean, Kind::And { left, right })))
            }
            ExpressionKind::Or { left, right } => {
                let Some((left, right)) = self.operands(TypeTree::Boolean, left.get(), right.get())?
                else {
                    return Ok(None);
                };
                Ok(Some(self.node(place, TypeTree::Boolean, Kind::Or { left, right })))
            }
        }
    }
}
