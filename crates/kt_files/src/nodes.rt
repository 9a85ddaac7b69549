//! Nodes of files, each from its parts.
ghost use Rattle.std.specs.Prelude.{◌≡◌};

use crate::files::Content;
use crate::modified::Modified;
use kc_tree::{Decl, File, Span, Word};
use sqlite_items::Items;

/// A declaration that stands at `span`.
pub fn declaration_at(span: Span, of: Modified) -> Decl
    ensures { result ≡ record { span = span; mods = of.mods; kind = of.kind } }
{
    let Modified { mods, kind } = of;
    Decl { span, mods, kind }
}

/// A file that stands at `span`, with the words of its package.
pub fn file_at(span: Span, words: Items<Word>, content: Content) -> File
    ensures { result ≡ record { span = span; «package» = words; imports = content.imports; decls = content.decls } }
{
    let Content { imports, decls } = content;
    File {
        span,
        package: words,
        imports,
        decls,
    }
}
