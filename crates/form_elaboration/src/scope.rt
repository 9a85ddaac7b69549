//! What is in scope at a place of the source, and the locals that are declared before it.

ghost use Rattle.std.specs.Prelude.{◌≡◌, ◌≤◌, length};
ghost use Rattle.form_elaboration.specs.Names as names;

use form_parser::Place;
use kc_core::tree::{Local, TypeTree};
use sqlite_items::Items;

/// A local that is in scope: where its name is declared, its number, its type, and whether it may be assigned again.
#[derive(Clone, Copy)]
pub struct Visible {
    pub name: Place,
    pub local: usize,
    pub ty: TypeTree,
    pub is_var: bool,
}

/// What is in scope, and what is numbered so far: all locals, and the places of all loops.
#[derive(Drop)]
pub struct Scope {
    pub visible: Items<Visible>,
    pub locals: Items<Local>,
    pub loops: Items<Place>,
}

/// The units at a place.
fn spelling(text: &[u8], place: Place) -> &[u8]
    ensures { result.now ≡ names.spelling text.now place }
{
    if place.start > text.len() {
        return &[];
    }
    let behind = &text[place.start..];
    let length = place.end.saturating_sub(place.start).min(behind.len());
    &behind[..length]
}

fn same_spelling(text: &[u8], left: Place, right: Place) -> bool
    ensures { result ≡ names.same_spelling text.now left right }
{
    spelling(text, left) == spelling(text, right)
}

/// What the name at a place stands for. The names in scope are searched in order by their spelling, since a file of the form has
/// at most 256 bytes, and so few of them.
pub fn found(text: &[u8], visible: &[Visible], name: Place) -> Option<Visible>
    ensures { result ≡ names.found text.now visible.now name }
{
    visible
        .iter()
        .copied()
        .find(|one| same_spelling(text, one.name, name))
}
