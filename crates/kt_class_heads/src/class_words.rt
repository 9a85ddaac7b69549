//! Single tokens of classes.
ghost use Rattle.std.specs.Prelude.{◌≡◌, drop, not};
ghost use Rattle.grammars.specs.Grammar.{first, test};
ghost use Rattle.kt_grammar.specs.Rows as rows;
ghost use Rattle.kt_grammar.specs.Tokens as tokens_of;
ghost use Rattle.kt_grammar.specs.Tokens.{marked};

use kt_functions::is_modifier_name;
use kt_grammar::begins_type;
use kt_lexer::Token;

fn is_modifier_line(token: &Token) -> bool
    ensures { result ≡ marked tokens_of.is_modifier_name token.now }
{
    is_modifier_name(&token.kind) && token.marked
}

/// Whether the token at the place is none, or no modifier that begins a line.
fn begins_no_line(tokens: &[Token], at: usize) -> bool
    ensures { result ≡ test (λ t. not (marked tokens_of.is_modifier_name t)) (first (drop at tokens.now)) }
{
    match tokens.get(at) {
        Some(token) => !is_modifier_line(token),
        None => false,
    }
}

/// Whether a further supertype begins at the place.
pub fn begins_supertype(tokens: &[Token], at: usize) -> bool
    ensures { result ≡ test rows.begins_supertype (first (drop at tokens.now)) }
{
    begins_type(tokens, at) && begins_no_line(tokens, at)
}
