//! The program of a file.

ghost use Rattle.std.specs.Prelude.{◌≡◌, codes, IfOk};
ghost use Rattle.form_elaboration.specs.Elaboration as elaboration;
ghost use Rattle.form_elaboration.specs.Laws.{ElaboratedIsFormed, ElaboratedIsMain};

use crate::nodes::{node, span};
use crate::scope::Scope;
use crate::statements::File;
use form_parser::NotBuilt;
use form_parser::surface::Source;
use kc_core::tree::{Core, Function, Kind, Local, Program, TypeTree};
use kc_text::{Fail, Text};
use sqlite_items::Items;
use std::alloc::{AllocError, Global};

fn no_scope(alloc: Global) -> Scope
    ensures { result ≡ elaboration.no_scope }
{
    Scope {
        visible: Items::new(alloc),
        locals: Items::new(alloc),
        loops: Items::new(alloc),
    }
}

/// The UTF-16 units of `main`.
fn main_name(alloc: Global) -> Result<Text, AllocError>
    ensures { IfOk result (λ name. name ≡ codes "main") }
{
    let units = Vec::from_slice(alloc, &[109, 97, 105, 110])?;
    Ok(Text::from_units(alloc, units)?)
}

/// The program whose one function is `main`, with these parts and these locals.
fn main_program(
    alloc: Global,
    file: usize,
    source: &Source,
    parts: Items<Core>,
    locals: Items<Local>,
) -> Result<Program, AllocError>
    ensures { IfOk result (λ p. p ≡ elaboration.program_with file source.now parts locals) }
{
    let kind = Kind::Block(parts);
    let main = Function {
        name: main_name(alloc)?,
        span: span(file, source.name),
        params: 0,
        result: TypeTree::Unit,
        locals,
        body: node(file, source.body, TypeTree::Unit, kind),
    };
    let mut functions = Items::new(alloc);
    functions.push(main)?;
    Ok(Program { functions })
}

/// The program of a file with this number, text and surface tree. Places in the tree count units of the text, and those of the
/// program count them in the file. A file with a fault of scopes or types is `NotBuilt`.
pub fn elaborate(
    alloc: Global,
    file: usize,
    text: &[u8],
    source: &Source,
) -> Result<Program, Fail<NotBuilt>>
    ensures { elaboration.Gives (elaboration.program_of file text.now source.now) result }
{
    let of_file = File {
        alloc,
        number: file,
        text,
    };
    let mut scope = no_scope(alloc);
    match of_file.statements(&mut scope, source.statements.as_slice())? {
        Some(parts) => Ok(main_program(alloc, file, source, parts, scope.locals)?),
        None => Err(Fail::Found(NotBuilt)),
    }
}

/// Every elaborated program starts with a well-formed function.
pub fn elaborated_is_formed()
    ensures { ElaboratedIsFormed }
{}

/// Every elaborated program has one function, of the name `main`.
pub fn elaborated_is_main()
    ensures { ElaboratedIsMain }
{}
