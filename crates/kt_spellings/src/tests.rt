//! Sources and what they are cut into: each token with `^` before it where it is marked, or the fault.
use kc_text::{Fail, Names, Text};
use kt_lexer::{TokenKind, tokens};
use std::alloc::Global;
use std::process::Abort;
use std::test::Fail as Failed;

/// The tokens or the fault, as a line.
fn shown(alloc: Global, text: &Text) -> Result<String, Failed> {
    let mut names = Names::new(alloc);
    let mut line = String::new(alloc);
    match tokens(alloc, text, 0, &mut names) {
        Ok(cut) => {
            for token in cut.as_slice() {
                let mark = if token.marked { "^" } else { "" };
                let word = format!(in alloc; "{}{:?} ", mark, token.kind)?;
                line.push_str(word.as_str())?;
            }
        }
        Err(Fail::Found(fault)) => {
            let word = format!(in alloc; "{:?} {}", fault.code, fault.at)?;
            line.push_str(word.as_str())?;
        }
        Err(Fail::Memory) => line.push_str("memory")?,
    }
    Ok(line)
}

fn compare(rt: &impl Abort, alloc: Global, table: &[(&str, &str)]) -> Result<(), Failed> {
    for (source, expected) in table {
        let text = Text::from_str(alloc, source)?;
        assert_eq!(rt; shown(alloc, &text)?.as_str(), *expected, "of {source:?}");
    }
    Ok(())
}

#[test]
fn tells_each_fault(rt: HostRuntime) -> Result<(), Failed> {
    let table = [
        ("1 # 2", "BadChar 2"),
        ("a \u{feff}b", "BadChar 2"),
        ("a \u{1F600}", "BadChar 2"),
        ("a \0", "BadChar 2"),
        ("a & b", "BadChar 2"),
        ("x 1a", "BadNumber 2"),
        ("01", "BadNumber 0"),
        ("0x", "BadNumber 0"),
        ("0b2", "BadNumber 0"),
        ("1_", "BadNumber 0"),
        ("0x_1", "BadNumber 0"),
        ("1\u{663}", "BadNumber 0"),
        ("99999999999999999999a", "BadNumber 0"),
        ("9223372036854775808", "LiteralTooWide 0"),
        ("+ 9223372036854775808", "LiteralTooWide 2"),
        ("-9223372036854775809", "LiteralTooWide 1"),
        ("-0x8000000000000000", "LiteralTooWide 1"),
        ("--9223372036854775808", "LiteralTooWide 2"),
        ("\"a\\q\"", "BadEscape 2"),
        ("\"\\u12g4\"", "BadEscape 1"),
        ("'\\q'", "BadEscape 1"),
        ("'\\", "BadEscape 1"),
        ("a ''", "BadCharLiteral 2"),
        ("'ab'", "BadCharLiteral 0"),
        ("'\u{1F600}'", "BadCharLiteral 0"),
        ("'\n'", "BadCharLiteral 0"),
        ("'\\n", "BadCharLiteral 0"),
        ("'", "BadCharLiteral 0"),
        ("a \"b", "UnclosedString 2"),
        ("\"b\n\"", "UnclosedString 0"),
        ("\"${ a", "UnclosedString 0"),
        ("\"${ \"b", "UnclosedString 4"),
        ("\"${ \"b\" {", "UnclosedString 0"),
        ("a /* /* */", "UnclosedComment 2"),
        ("/*/", "UnclosedComment 0"),
    ];
    compare(&rt, rt.alloc(), table.as_slice())
}

#[test]
fn cuts_numbers(rt: HostRuntime) -> Result<(), Failed> {
    let table = [
        ("0", "Number { value: 0, long: false } "),
        ("0L", "Number { value: 0, long: true } "),
        ("1_0__0L", "Number { value: 100, long: true } "),
        ("0xFf", "Number { value: 255, long: false } "),
        ("0b1_01L", "Number { value: 5, long: true } "),
        (
            "9223372036854775807",
            "Number { value: 9223372036854775807, long: false } ",
        ),
        (
            "0x7fffffffffffffffL",
            "Number { value: 9223372036854775807, long: true } ",
        ),
        (
            "- 9223372036854775808L",
            "Op(Minus) Number { value: 9223372036854775808, long: true } ",
        ),
        (
            "-/**/\n9223372036854775808",
            "Op(Minus) ^Number { value: 9223372036854775808, long: false } ",
        ),
        (
            "1..2",
            "Number { value: 1, long: false } Op(Range) Number { value: 2, long: false } ",
        ),
        ("1.a", "Number { value: 1, long: false } Op(Dot) Name(0) "),
    ];
    compare(&rt, rt.alloc(), table.as_slice())
}

#[test]
fn cuts_words_and_operators(rt: HostRuntime) -> Result<(), Failed> {
    let table = [
        (
            "as break class continue do else false",
            "Word(As) Word(Break) Word(Class) Word(Continue) Word(Do) Word(Else) Word(False) ",
        ),
        (
            "for fun if in interface is null object",
            "Word(For) Word(Fun) Word(If) Word(In) Word(Interface) Word(Is) Word(Null) Word(Object) ",
        ),
        (
            "package return super this throw true try",
            "Word(Package) Word(Return) Word(Super) Word(This) Word(Throw) Word(True) Word(Try) ",
        ),
        (
            "typealias typeof val var when while",
            "Word(Typealias) Word(Typeof) Word(Val) Word(Var) Word(When) Word(While) ",
        ),
        (
            "import a.b.*",
            "Name(0) Name(1) Op(Dot) Name(2) Op(Dot) Op(TimesBehindDot) ",
        ),
        (
            "a . * b * c",
            "Name(0) Op(Dot) Op(TimesBehindDot) Name(1) Op(Times) Name(2) ",
        ),
        (
            "a as? b as ?",
            "Name(0) Word(AsSafe) Name(1) Word(As) Op(Question) ",
        ),
        (
            "a !in b !is c !inb",
            "Name(0) Word(NotIn) Name(1) Word(NotIs) Name(2) Op(Not) Name(3) ",
        ),
        (
            "a@ b @c return@a break @a continue@for",
            "Label(0) Name(1) Op(At) Name(2) Word(Return) LabelUse(0) Word(Break) Op(At) Name(0) Word(Continue) Op(At) Word(For) ",
        ),
        (
            "\u{e9}\u{10400}_1 \u{2160} x\u{663}",
            "Name(0) Name(1) Name(2) ",
        ),
        (
            "===!==..<== != <= >=",
            "Op(Identical) Op(NotIdentical) Op(RangeUntil) Op(EqualEqual) Op(NotEqual) Op(LessEqual) Op(GreaterEqual) ",
        ),
        (
            "&& || ++ -- += -= *= /= %=",
            "Op(And) Op(Or) Op(Increment) Op(Decrement) Op(PlusAssign) Op(MinusAssign) Op(TimesAssign) Op(DivideAssign) Op(RemainderAssign) ",
        ),
        (
            "!! ?. ?: -> .. + - * / %",
            "Op(NotNull) Op(SafeDot) Op(Elvis) Op(Arrow) Op(Range) Op(Plus) Op(Minus) Op(Times) Op(Divide) Op(Remainder) ",
        ),
        (
            "= < > ! ? : . , ; @",
            "Op(Assign) Op(Less) Op(Greater) Op(Not) Op(Question) Op(Colon) Op(Dot) Op(Comma) Op(Semicolon) Op(At) ",
        ),
        (
            "([{}])",
            "Op(OpenRound) Op(OpenSquare) Op(OpenBrace) Op(CloseBrace) Op(CloseSquare) Op(CloseRound) ",
        ),
    ];
    compare(&rt, rt.alloc(), table.as_slice())
}

#[test]
fn cuts_strings(rt: HostRuntime) -> Result<(), Failed> {
    let table = [
        ("\"\"", "StringOpen StringClose "),
        (
            "\"a$ $1 $if\"",
            "StringOpen StringText(Text { alloc: Global, units: Some([97, 36, 32, 36, 49, 32, 36, 105, 102]) }) StringClose ",
        ),
        (
            "\"\\t\\b\\n\\r\\'\\\"\\\\\\$\\uD83d\"",
            "StringOpen StringText(Text { alloc: Global, units: Some([9, 8, 10, 13, 39, 34, 92, 36, 55357]) }) StringClose ",
        ),
        (
            "\"a$b-${c}\"",
            "StringOpen StringText(Text { alloc: Global, units: Some([97]) }) StringName(0) StringText(Text { alloc: Global, units: Some([45]) }) HoleOpen Name(1) HoleClose StringClose ",
        ),
        (
            "\"${\"${\"${a}\"}\"}\"",
            "StringOpen HoleOpen StringOpen HoleOpen StringOpen HoleOpen Name(0) HoleClose StringClose HoleClose StringClose HoleClose StringClose ",
        ),
        (
            "\"${{}}}\"",
            "StringOpen HoleOpen Op(OpenBrace) Op(CloseBrace) HoleClose StringText(Text { alloc: Global, units: Some([125]) }) StringClose ",
        ),
        (
            "\"${\n a\n}\"",
            "StringOpen HoleOpen ^Name(0) HoleClose StringClose ",
        ),
        (
            "'a' '\\'' '\\uffff' '\"'",
            "CharLiteral(97) CharLiteral(39) CharLiteral(65535) CharLiteral(34) ",
        ),
        ("\u{feff}a", "Name(0) "),
        (
            "\"\u{feff}\" /*\u{feff}*/",
            "StringOpen StringText(Text { alloc: Global, units: Some([65279]) }) StringClose ",
        ),
    ];
    compare(&rt, rt.alloc(), table.as_slice())
}

#[test]
fn marks_tokens_behind_line_ends(rt: HostRuntime) -> Result<(), Failed> {
    let table = [
        (
            "\na\rb\r\nc // d\ne /*\n*/ f",
            "^Name(0) ^Name(1) ^Name(2) ^Name(3) Name(4) ",
        ),
        (
            "\n&&\n||\n?:\n:\n.\n?.\n)\n]\n}",
            "Op(And) Op(Or) Op(Elvis) ^Op(Colon) Op(Dot) Op(SafeDot) Op(CloseRound) Op(CloseSquare) Op(CloseBrace) ",
        ),
        (
            "\nelse\ncatch\nfinally\ncatcher\ncatch@",
            "Word(Else) Name(0) Name(1) ^Name(2) ^Label(0) ",
        ),
        (
            "(\na\n[\nb\n]\n{\nc\n}\n)\nd",
            "Op(OpenRound) Name(0) Op(OpenSquare) Name(1) Op(CloseSquare) Op(OpenBrace) ^Name(2) Op(CloseBrace) Op(CloseRound) ^Name(3) ",
        ),
        (
            "\n(\n\"${\na}\"\n)",
            "^Op(OpenRound) StringOpen HoleOpen ^Name(0) HoleClose StringClose Op(CloseRound) ",
        ),
        (
            "\n+\n-\n!!\n++\n::\n..",
            "^Op(Plus) ^Op(Minus) ^Op(NotNull) ^Op(Increment) ^Op(Colon) Op(Colon) ^Op(Range) ",
        ),
    ];
    compare(&rt, rt.alloc(), table.as_slice())
}

#[test]
fn answers_deep_comments(rt: HostRuntime) -> Result<(), Failed> {
    let alloc = rt.alloc();
    let mut text = Text::new(alloc);
    for _ in 0..200000 {
        text.push_units(&[47, 42])?;
    }
    assert_eq!(rt; shown(alloc, &text)?.as_str(), "UnclosedComment 0");
    for _ in 0..200000 {
        text.push_units(&[42, 47])?;
    }
    assert_eq!(rt; shown(alloc, &text)?.as_str(), "");
    Ok(())
}

#[test]
fn keeps_numbers_and_counts_units(rt: HostRuntime) -> Result<(), Failed> {
    let alloc = rt.alloc();
    let mut names = Names::new(alloc);
    let old = names.add(Text::from_str(alloc, "b")?)?;
    let text = Text::from_str(alloc, "\u{feff}\u{10400} b")?;
    let cut = match tokens(alloc, &text, 7, &mut names) {
        Ok(cut) => cut,
        Err(_) => return Err(Failed::from("no cut")),
    };
    assert_eq!(rt; cut.len(), 2);
    let first = &cut.as_slice()[0];
    assert_eq!(rt;
        (first.span.file, first.span.start, first.span.end),
        (7, 1, 3)
    );
    let second = &cut.as_slice()[1];
    assert_eq!(rt;
        (second.span.file, second.span.start, second.span.end),
        (7, 4, 5)
    );
    assert_eq!(rt; second.kind, TokenKind::Name(old));
    Ok(())
}
