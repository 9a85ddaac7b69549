//! The words of a command line.
ghost use Rattle.std.specs.Prelude.{◌≡◌, ℕ, [], ◌∷◌, map, string_bytes, IfSome, IfNone};
ghost use Rattle.kc_cli.specs.SourceFile.{IsSourceFile};
ghost use Rattle.kc_cli.specs.Words.{IsCommand, IsStepCount};

use crate::source_file::is_source_file;
use itoa::Buffer;
use std::marker::Model;

/// A name as it was given, which clauses see as its bytes.
#[derive(Debug, Drop)]
pub struct Name<'a> {
    text: &'a str,
}

impl<'a> Model for Name<'a> {
    ghost use Rattle.std.specs.Prelude.{ℕ, List};

    ghost Value = { List ℕ };

    ghost view = { λ name. name.text.now };
}

impl<'a> Name<'a> {
    pub fn new(text: &'a str) -> Name<'a>
        ensures { result ≡ text.now }
    {
        Name { text }
    }

    pub fn as_str(&self) -> &'a str
        ensures { result.now ≡ self.now }
    {
        self.text
    }
}

/// What `kc` is told to do.
#[derive(Debug, Drop)]
pub enum Command<'a> {
    /// Compiles the source file and runs it for at most so many steps, and stores nothing.
    Exec { steps: u64, file: Name<'a> },
}

// The steps that a program may make where the words don't say how many.
const USUAL_STEPS: u64 = 1_000_000_000;

// The most steps that the words can ask for.
const MOST_STEPS: u64 = 1_000_000_000_000;

// A count of steps, as it is written in decimal without a leading zero.
fn steps_of(word: &str) -> Option<u64>
    ensures some { IfSome result (λ steps. IsStepCount word.now steps) }
    ensures none { IfNone result ((steps : ℕ) → ¬ (IsStepCount word.now steps)) }
{
    let Ok(steps) = word.parse::<u64>() else {
        return None;
    };
    let mut digits = Buffer::new();
    if steps > 0 && steps <= MOST_STEPS && digits.format(steps) == word {
        Some(steps)
    } else {
        None
    }
}

// `exec` of a file by so many steps.
fn exec_of(steps: u64, file: &str) -> Option<Command<'_>>
    ensures some { IfSome result (λ command. (command ≡ Command.Exec steps file.now) × IsSourceFile file.now) }
    ensures none { IfNone result (¬ (IsSourceFile file.now)) }
{
    if is_source_file(file.as_bytes()) {
        Some(Command::Exec {
            steps,
            file: Name::new(file),
        })
    } else {
        None
    }
}

// Two words.
fn usual<'a>(word: &str, file: &'a str) -> Option<Command<'a>>
    ensures meant { IfSome result (λ command. IsCommand (word.now ∷ file.now ∷ []) command) }
    ensures none { IfNone result ((command : Command) → ¬ (IsCommand (word.now ∷ file.now ∷ []) command)) }
{
    if word == "exec" {
        exec_of(USUAL_STEPS, file)
    } else {
        None
    }
}

// Four words.
fn counted<'a>(word: &str, option: &str, number: &str, file: &'a str) -> Option<Command<'a>>
    ensures meant { IfSome result (λ command. IsCommand (word.now ∷ option.now ∷ number.now ∷ file.now ∷ []) command) }
    ensures none { IfNone result ((command : Command) → ¬ (IsCommand (word.now ∷ option.now ∷ number.now ∷ file.now ∷ []) command)) }
{
    if word == "exec" && option == "--steps" {
        exec_of(steps_of(number)?, file)
    } else {
        None
    }
}

/// The command that these words are, if they are one.
pub fn command_of(words: &[String]) -> Option<Command<'_>>
    ensures meant { IfSome result (λ command. IsCommand (map string_bytes words.now) command) }
    ensures none { IfNone result ((command : Command) → ¬ (IsCommand (map string_bytes words.now) command)) }
    ensures one { (one other : Command) → IsCommand (map string_bytes words.now) one →
        IsCommand (map string_bytes words.now) other → one ≡ other }
{
    match words {
        [word, file] => usual(word.as_str(), file.as_str()),
        [word, option, number, file] => counted(
            word.as_str(),
            option.as_str(),
            number.as_str(),
            file.as_str(),
        ),
        _ => None,
    }
}
