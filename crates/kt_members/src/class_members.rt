//! The members of classes (Kotlin Language Specification 1.9, "Classifier declaration").
ghost use Rattle.std.specs.Prelude.{◌≡◌, ◌≤◌, ◌++◌, ◌∷◌, [], length};
ghost use Rattle.grammars.specs.Grammar.{row};
ghost use Rattle.kt_bodies.specs.Statements.{Follows};
ghost use Rattle.kt_members.specs.Members as spec;
ghost use Rattle.kt_functions.specs.Sites.{site_of};
ghost use Rattle.kt_grammar.specs.DeclarationsBuilt as built;
ghost use Rattle.kt_grammar.specs.Parsed.{Advances};
ghost use Rattle.kt_grammar.specs.Rows as rows;
ghost use Rattle.kt_grammar.specs.Tokens.{marked};
ghost use Rattle.kt_suffixes.specs.Suffixes.{IsTable};

use crate::member_words::{MemberWord, expect_word};
use crate::modified::modified_member;
use crate::modifier_words::{begins_marked_member, begins_member, is_init_at};
use crate::nodes::init_member;
use kc_text::Fail;
use kc_tree::Member;
use kt_bodies::behind_semicolons;
use kt_functions::Site;
use kt_grammar::{Cursor, Look, eat_op_on, expect_op_on, span_between};
use kt_lexer::{Operator, Token};
use kt_parser::block_at;
use sqlite_items::Items;
use std::alloc::Global;

/// An `init` block.
fn init_block(
    alloc: Global,
    tokens: &[Token],
    looks: &[Look],
    at: Cursor,
) -> Result<(Member, Cursor), Fail<usize>>
    requires looks { IsTable tokens.now looks.now }
    requires within { at.at ≤ length tokens.now }
    ensures { Advances spec.init_block spec.init_of tokens.now at result }
{
    let next = expect_word(tokens, at, MemberWord::Init)?;
    let (body, end) = block_at(alloc, tokens, looks, next)?;
    let span = span_between(tokens, at.at, end.at);
    Ok((init_member(alloc, span, body), end))
}

/// A member of a class or an interface.
///
/// # Errors
///
/// `Found` with the place of the first token with which no member goes on, or the farthest one that a test has looked at. `Memory`
/// where memory is short.
pub fn member(
    alloc: Global,
    tokens: &[Token],
    looks: &[Look],
    site: Site,
    at: Cursor,
) -> Result<(Member, Cursor), Fail<usize>>
    requires looks { IsTable tokens.now looks.now }
    requires within { at.at ≤ length tokens.now }
    ensures { Advances (row (rows.member (site_of site))) built.member_of tokens.now at result }
{
    if is_init_at(tokens, site, at.at) {
        return init_block(alloc, tokens, looks, at);
    }
    modified_member(alloc, tokens, looks, site, at)
}

/// Whether a member follows one that ends before the place, and where it begins.
fn next_member(tokens: &[Token], site: Site, at: Cursor) -> (Cursor, bool)
    requires { at.at ≤ length tokens.now }
    ensures { Follows (rows.begins_member (site_of site)) (marked (rows.begins_member (site_of site))) tokens.now at result.0 result.1 }
{
    let Some(next) = eat_op_on(tokens, at, Operator::Semicolon) else {
        return (at, begins_marked_member(tokens, site, at.at));
    };
    let end = behind_semicolons(tokens, next);
    (end, begins_member(tokens, site, end.at))
}

/// A member, which goes to the list's end.
fn one_more(
    alloc: Global,
    tokens: &[Token],
    looks: &[Look],
    before: Items<Member>,
    site: Site,
    at: Cursor,
) -> Result<(Items<Member>, Cursor), Fail<usize>>
    requires looks { IsTable tokens.now looks.now }
    requires within { at.at ≤ length tokens.now }
    ensures { Advances (row (rows.member (site_of site))) (λ x. before ++ built.member_of x ∷ []) tokens.now at result }
{
    let (found, end) = member(alloc, tokens, looks, site, at)?;
    let mut all = before;
    all.push(found)?;
    Ok((all, end))
}

/// The members behind one, which go to the list's end.
fn further(
    alloc: Global,
    tokens: &[Token],
    looks: &[Look],
    before: Items<Member>,
    site: Site,
    at: Cursor,
) -> Result<(Items<Member>, Cursor), Fail<usize>>
    requires looks { IsTable tokens.now looks.now }
    requires within { at.at ≤ length tokens.now }
    ensures { Advances (row (rows.after_member (site_of site))) (λ x. before ++ built.members_behind x) tokens.now at result }
{
    let mut all = before;
    let mut at = at;
    loop {
        let (next, goes_on) = next_member(tokens, site, at);
        if !goes_on {
            return Ok((all, next));
        }
        let (found, end) = one_more(alloc, tokens, looks, all, site, next)?;
        all = found;
        at = end;
    }
}

/// Members with a `;` or a line's end between them. There may be none, and `;` behind the last.
///
/// # Errors
///
/// As for a member.
pub fn members(
    alloc: Global,
    tokens: &[Token],
    looks: &[Look],
    site: Site,
    at: Cursor,
) -> Result<(Items<Member>, Cursor), Fail<usize>>
    requires looks { IsTable tokens.now looks.now }
    requires within { at.at ≤ length tokens.now }
    ensures { Advances (row (rows.members (site_of site))) built.members_of tokens.now at result }
{
    let none = Items::new(alloc);
    if !begins_member(tokens, site, at.at) {
        return Ok((none, at));
    }
    let (all, end) = one_more(alloc, tokens, looks, none, site, at)?;
    further(alloc, tokens, looks, all, site, end)
}

/// Members, and the brace behind them.
fn to_brace(
    alloc: Global,
    tokens: &[Token],
    looks: &[Look],
    site: Site,
    at: Cursor,
) -> Result<(Items<Member>, Cursor), Fail<usize>>
    requires looks { IsTable tokens.now looks.now }
    requires within { at.at ≤ length tokens.now }
    ensures { Advances (spec.to_brace (site_of site)) spec.before_brace tokens.now at result }
{
    let (all, end) = members(alloc, tokens, looks, site, at)?;
    let end = expect_op_on(tokens, end, Operator::CloseBrace)?;
    Ok((all, end))
}

/// The members in the body of a class or an interface.
///
/// # Errors
///
/// As for a member.
pub fn class_body(
    alloc: Global,
    tokens: &[Token],
    looks: &[Look],
    site: Site,
    at: Cursor,
) -> Result<(Items<Member>, Cursor), Fail<usize>>
    requires looks { IsTable tokens.now looks.now }
    requires within { at.at ≤ length tokens.now }
    ensures { Advances (row (rows.class_body (site_of site))) spec.members_in tokens.now at result }
{
    let next = expect_op_on(tokens, at, Operator::OpenBrace)?;
    let (all, end) = to_brace(alloc, tokens, looks, site, next)?;
    Ok((all, end))
}
