//! The form that the name of a source file has.
ghost use Rattle.std.specs.Prelude.{◌≡◌, ◌↔◌, IsTrue};
ghost use Rattle.kc_cli.specs.Scan.{next_of, reads};
ghost use Rattle.kc_cli.specs.SourceFile.{is_word_byte, IsSourceFile};

/// The part of a path that is being read.
#[derive(Clone, Copy, PartialEq, Eq)]
enum Part {
    /// Nothing of the part has been read.
    Begins,
    /// The part begins with a digit, so that only a folder can have this name.
    Folder,
    /// The part may be a folder's name or a base name.
    Base,
}

/// The greatest length of a source file's name, in bytes.
const LONGEST_NAME: usize = 200;

/// Whether this is the name of a source file: folders, each followed by `/`, a base name, and
/// `.kt`, of ASCII letters, digits and `_`, at most 200 bytes.
pub(crate) fn is_source_file(file: &[u8]) -> bool
    ensures { IsTrue result ↔ IsSourceFile file.now }
{
    if file.len() > LONGEST_NAME {
        return false;
    }
    match file.strip_suffix(b".kt") {
        Some(path) => is_path(path),
        None => false,
    }
}

/// Whether the bytes are folders, each followed by `/`, and a base name.
fn is_path(path: &[u8]) -> bool
    ensures { result ≡ reads path.now Part.Begins }
{
    let mut part = Part::Begins;
    for byte in path {
        match next_part(part, *byte) {
            Some(next) => part = next,
            None => return false,
        }
    }
    part == Part::Base
}

/// The part behind this byte, or `None` where no path goes on with it.
fn next_part(part: Part, byte: u8) -> Option<Part>
    ensures { result ≡ next_of part byte }
{
    match part {
        Part::Begins if !is_word_byte(byte) => None,
        Part::Begins if byte.is_ascii_digit() => Some(Part::Folder),
        Part::Begins => Some(Part::Base),
        Part::Folder | Part::Base if is_word_byte(byte) => Some(part),
        Part::Folder | Part::Base if byte == b'/' => Some(Part::Begins),
        Part::Folder | Part::Base => None,
    }
}

fn is_word_byte(byte: u8) -> bool
    ensures { result ≡ is_word_byte byte }
{
    byte.is_ascii_alphanumeric() || byte == b'_'
}
