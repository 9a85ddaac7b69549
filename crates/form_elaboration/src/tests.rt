//! Tests: files of the form by their texts, with the places in their programs; by their scopes and types; and by their trees as
//! they are written.

mod files;
mod scopes;
mod surfaces;
