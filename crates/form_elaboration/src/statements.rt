//! Statements: each is elaborated in the scope behind the ones before it.

ghost use Rattle.std.specs.Prelude.{◌≡◌, None, Some, length, option_and_then, IfOk};
ghost use Rattle.std.specs.Option.{option_map};
ghost use Rattle.kc_core.specs.declared.tree.TypeTree.TheVariants as type_is;
ghost use Rattle.form_elaboration.specs.Nodes as nodes;
ghost use Rattle.form_elaboration.specs.Nodes.{printing as printing_of};
ghost use Rattle.form_elaboration.specs.Expressions.{of_type, expression_of};
ghost use Rattle.form_elaboration.specs.Statements as spec;

use crate::expressions::Names;
use crate::nodes::{node, printing, same_type};
use crate::scope::{Scope, Visible, found};
use form_parser::Place;
use form_parser::surface::{Body, Expression, Statement};
use kc_core::tree::{Core, Kind, Local, TypeTree};
use sqlite_items::{Boxed, Items};
use std::alloc::{AllocError, Global};

/// The file that is elaborated: its number, and its text.
#[derive(Clone, Copy)]
pub struct File<'t> {
    pub alloc: Global,
    pub number: usize,
    pub text: &'t [u8],
}

impl File<'_> {
    fn names<'v>(&'v self, visible: &'v [Visible]) -> Names<'v>
        ensures file { result.file ≡ self.now.number }
        ensures text { result.text.now ≡ self.now.text.now }
        ensures visible { result.visible.now ≡ visible.now }
    {
        Names {
            alloc: self.alloc,
            file: self.number,
            text: self.text,
            visible,
        }
    }

    fn expression(&self, scope: &Scope, expression: &Expression) -> Result<Option<Core>, AllocError>
        ensures { IfOk result (λ o. o ≡ expression_of self.now.number self.now.text.now scope.now.visible expression.now) }
    {
        self.names(scope.visible.as_slice()).expression(expression)
    }

    // An expression of this type.
    fn typed(
        &self,
        scope: &Scope,
        ty: TypeTree,
        expression: &Expression,
    ) -> Result<Option<Boxed<Core>>, AllocError>
        ensures { IfOk result (λ o. o ≡ of_type ty (expression_of self.now.number self.now.text.now scope.now.visible expression.now)) }
    {
        let Some(value) = self.expression(scope, expression)? else {
            return Ok(None);
        };
        if !same_type(value.ty, ty) {
            return Ok(None);
        }
        Ok(Some(Boxed::new(self.alloc, value)?))
    }

    fn node(&self, place: Place, kind: Kind) -> Core
        ensures { result ≡ nodes.node self.now.number place type_is.Unit kind }
    {
        node(self.number, place, TypeTree::Unit, kind)
    }

    // A new local with this value.
    fn declare(
        &self,
        scope: &mut Scope,
        place: Place,
        is_var: bool,
        name: Place,
        value: Core,
    ) -> Result<Core, AllocError>
        ensures { IfOk result (λ e. spec.step e scope.new ≡ spec.declaring self.now.number place is_var name scope.old value) }
    {
        let local = scope.locals.len();
        let ty = value.ty;
        scope.visible.push(Visible {
            name,
            local,
            ty,
            is_var,
        })?;
        scope.locals.push(Local {
            name: local,
            ty,
            is_var,
        })?;
        let value = Some(Boxed::new(self.alloc, value)?);
        Ok(self.node(place, Kind::Declare { local, value }))
    }

    fn declaration(
        &self,
        scope: &mut Scope,
        place: Place,
        is_var: bool,
        name: Place,
        value: &Expression,
    ) -> Result<Option<Core>, AllocError>
        ensures { IfOk result (λ o. spec.stepped o scope.new ≡ spec.declaration_of self.now.number self.now.text.now place is_var name value.now scope.old) }
    {
        if found(self.text, scope.visible.as_slice(), name).is_some() {
            return Ok(None);
        }
        let Some(value) = self.expression(scope, value)? else {
            return Ok(None);
        };
        Ok(Some(self.declare(scope, place, is_var, name, value)?))
    }

    fn assignment(
        &self,
        scope: &Scope,
        place: Place,
        name: Place,
        value: &Expression,
    ) -> Result<Option<Core>, AllocError>
        ensures { IfOk result (λ o. o ≡ spec.assignment_of self.now.number self.now.text.now place name value.now scope.now.visible) }
    {
        let Some(one) = found(self.text, scope.visible.as_slice(), name) else {
            return Ok(None);
        };
        if !one.is_var {
            return Ok(None);
        }
        let Some(value) = self.typed(scope, one.ty, value)? else {
            return Ok(None);
        };
        let local = one.local;
        Ok(Some(self.node(place, Kind::LocalWrite { local, value })))
    }

    fn print(
        &self,
        scope: &Scope,
        place: Place,
        value: &Expression,
    ) -> Result<Option<Core>, AllocError>
        ensures { IfOk result (λ o. o ≡ option_map (printing_of self.now.number place) (expression_of self.now.number self.now.text.now scope.now.visible value.now)) }
    {
        let Some(value) = self.expression(scope, value)? else {
            return Ok(None);
        };
        Ok(Some(printing(self.alloc, self.number, place, value)?))
    }

    fn condition(&self, scope: &Scope, test: &Expression) -> Result<Option<Boxed<Core>>, AllocError>
        ensures { IfOk result (λ o. o ≡ spec.condition_of self.now.number self.now.text.now test.now scope.now) }
    {
        self.typed(scope, TypeTree::Boolean, test)
    }

    #[cycle(elaborate)]
    fn choice(
        &self,
        scope: &mut Scope,
        place: Place,
        test: Boxed<Core>,
        held: &Body,
    ) -> Result<Option<Core>, AllocError>
        ensures { IfOk result (λ o. spec.stepped o scope.new ≡ option_and_then (spec.other_way self.now.number place None test) (spec.body_of self.now.number self.now.text.now held.now scope.old)) }
    {
        let Some(held) = self.body(scope, held)? else {
            return Ok(None);
        };
        let failed = None;
        Ok(Some(self.node(place, Kind::If { test, held, failed })))
    }

    #[cycle(elaborate)]
    fn either(
        &self,
        scope: &mut Scope,
        place: Place,
        test: Boxed<Core>,
        held: &Body,
        failed: &Body,
    ) -> Result<Option<Core>, AllocError>
        ensures { IfOk result (λ o. spec.stepped o scope.new ≡ option_and_then (spec.other_way self.now.number place (Some (spec.body_of self.now.number self.now.text.now failed.now)) test) (spec.body_of self.now.number self.now.text.now held.now scope.old)) }
    {
        let Some(held) = self.body(scope, held)? else {
            return Ok(None);
        };
        let Some(failed) = self.body(scope, failed)? else {
            return Ok(None);
        };
        let failed = Some(failed);
        Ok(Some(self.node(place, Kind::If { test, held, failed })))
    }

    // A loop gets the next label, and those in its body get later ones.
    #[cycle(elaborate)]
    fn repetition(
        &self,
        scope: &mut Scope,
        place: Place,
        test: Boxed<Core>,
        body: &Body,
    ) -> Result<Option<Core>, AllocError>
        ensures { IfOk result (λ o. spec.stepped o scope.new ≡ option_map (spec.repeating self.now.number place (length scope.old.loops) test) (spec.body_of self.now.number self.now.text.now body.now (spec.in_loop place scope.old))) }
    {
        let label = scope.loops.len();
        scope.loops.push(place)?;
        let Some(body) = self.body(scope, body)? else {
            return Ok(None);
        };
        Ok(Some(self.node(place, Kind::While { label, test, body })))
    }

    #[cycle(elaborate)]
    #[tactic(auto, unfolding(crate::specs::Statements::statement_of, crate::specs::Statements::body_of))]
    fn statement(
        &self,
        scope: &mut Scope,
        statement: &Statement,
    ) -> Result<Option<Core>, AllocError>
        ensures { IfOk result (λ o. spec.stepped o scope.new ≡ spec.statement_of self.now.number self.now.text.now statement.now scope.old) }
    {
        match statement {
            Statement::Declare {
                place,
                is_var,
                name,
                value,
            } => self.declaration(scope, *place, *is_var, *name, value),
            Statement::Assign { place, name, value } => {
                self.assignment(scope, *place, *name, value)
            }
            Statement::Print { place, value } => self.print(scope, *place, value),
            Statement::If {
                place,
                test,
                held,
                failed,
            } => {
                let Some(test) = self.condition(scope, test)? else {
                    return Ok(None);
                };
                match failed {
                    None => self.choice(scope, *place, test, held),
                    Some(failed) => self.either(scope, *place, test, held, failed.get()),
                }
            }
            Statement::While { place, test, body } => {
                let Some(test) = self.condition(scope, test)? else {
                    return Ok(None);
                };
                self.repetition(scope, *place, test, body)
            }
        }
    }

    /// The nodes of statements in order, or none where one of them has no elaboration.
    #[cycle(elaborate)]
    pub fn statements(
        &self,
        scope: &mut Scope,
        statements: &[Statement],
    ) -> Result<Option<Items<Core>>, AllocError>
        ensures { IfOk result (λ o. spec.all_stepped o scope.new ≡ spec.statements_of self.now.number self.now.text.now statements.now scope.old) }
    {
        let mut parts = Items::new(self.alloc);
        for one in statements {
            let Some(part) = self.statement(scope, one)? else {
                return Ok(None);
            };
            parts.push(part)?;
        }
        Ok(Some(parts))
    }

    // Behind a body its locals are no longer in scope, but keep their numbers. What is in scope is copied, which costs no more than
    // the searches of it.
    #[cycle(elaborate)]
    #[tactic(auto, unfolding(crate::specs::Statements::statement_of, crate::specs::Statements::body_of))]
    fn body(&self, scope: &mut Scope, body: &Body) -> Result<Option<Boxed<Core>>, AllocError>
        ensures { IfOk result (λ o. spec.stepped o scope.new ≡ spec.body_of self.now.number self.now.text.now body.now scope.old) }
    {
        let before = Items::from_slice(self.alloc, scope.visible.as_slice())?;
        let Some(parts) = self.statements(scope, body.statements.as_slice())? else {
            return Ok(None);
        };
        scope.visible = before;
        let node = self.node(body.place, Kind::Block(parts));
        Ok(Some(Boxed::new(self.alloc, node)?))
    }
}
