//! Keywords and names.
ghost use Rattle.std.specs.Prelude.{◌≡◌, ◌≤◌, length, take};
ghost use Rattle.kt_lexer.specs.Words as spec;
ghost use Rattle.kt_lexer.specs.Characters.{word_length as run};

use crate::characters::{is_front, starts_word, word_length};
use crate::token::Keyword;

/// The word is these ASCII letters.
pub fn is_spelled(word: &[u16], letters: &[u8]) -> bool
    ensures { result ≡ spec.is_spelled word.now letters.now }
{
    word.len() == letters.len() && is_front(letters, word)
}

fn first_keywords(word: &[u16]) -> Option<Keyword>
    ensures { result ≡ spec.find_spelled word.now spec.first_keywords }
{
    if is_spelled(word, b"as") {
        return Some(Keyword::As);
    }
    if is_spelled(word, b"break") {
        return Some(Keyword::Break);
    }
    if is_spelled(word, b"class") {
        return Some(Keyword::Class);
    }
    if is_spelled(word, b"continue") {
        return Some(Keyword::Continue);
    }
    if is_spelled(word, b"do") {
        return Some(Keyword::Do);
    }
    if is_spelled(word, b"else") {
        return Some(Keyword::Else);
    }
    if is_spelled(word, b"false") {
        return Some(Keyword::False);
    }
    if is_spelled(word, b"for") {
        return Some(Keyword::For);
    }
    if is_spelled(word, b"fun") {
        return Some(Keyword::Fun);
    }
    if is_spelled(word, b"if") {
        return Some(Keyword::If);
    }
    None
}

fn middle_keywords(word: &[u16]) -> Option<Keyword>
    ensures { result ≡ spec.find_spelled word.now spec.middle_keywords }
{
    if is_spelled(word, b"in") {
        return Some(Keyword::In);
    }
    if is_spelled(word, b"interface") {
        return Some(Keyword::Interface);
    }
    if is_spelled(word, b"is") {
        return Some(Keyword::Is);
    }
    if is_spelled(word, b"null") {
        return Some(Keyword::Null);
    }
    if is_spelled(word, b"object") {
        return Some(Keyword::Object);
    }
    if is_spelled(word, b"package") {
        return Some(Keyword::Package);
    }
    if is_spelled(word, b"return") {
        return Some(Keyword::Return);
    }
    if is_spelled(word, b"super") {
        return Some(Keyword::Super);
    }
    if is_spelled(word, b"this") {
        return Some(Keyword::This);
    }
    if is_spelled(word, b"throw") {
        return Some(Keyword::Throw);
    }
    None
}

fn last_keywords(word: &[u16]) -> Option<Keyword>
    ensures { result ≡ spec.find_spelled word.now spec.last_keywords }
{
    if is_spelled(word, b"true") {
        return Some(Keyword::True);
    }
    if is_spelled(word, b"try") {
        return Some(Keyword::Try);
    }
    if is_spelled(word, b"typealias") {
        return Some(Keyword::Typealias);
    }
    if is_spelled(word, b"typeof") {
        return Some(Keyword::Typeof);
    }
    if is_spelled(word, b"val") {
        return Some(Keyword::Val);
    }
    if is_spelled(word, b"var") {
        return Some(Keyword::Var);
    }
    if is_spelled(word, b"when") {
        return Some(Keyword::When);
    }
    if is_spelled(word, b"while") {
        return Some(Keyword::While);
    }
    None
}

/// The keyword that a whole word is.
pub fn keyword_of(word: &[u16]) -> Option<Keyword>
    ensures { result ≡ spec.keyword_of word.now }
{
    if let Some(keyword) = first_keywords(word) {
        return Some(keyword);
    }
    if let Some(keyword) = middle_keywords(word) {
        return Some(keyword);
    }
    last_keywords(word)
}

/// The word in front.
pub fn word_of(text: &[u16]) -> &[u16]
    ensures { result.now ≡ spec.word_of text.now }
{
    &text[..word_length(text)]
}

/// How many units the name in front has: 0 where none stands there.
pub fn name_length(text: &[u16]) -> usize
    ensures value { result ≡ spec.name_length text.now }
    ensures within { result ≤ length text.now }
{
    if !starts_word(text) {
        return 0;
    }
    if keyword_of(word_of(text)).is_some() {
        return 0;
    }
    word_length(text)
}
