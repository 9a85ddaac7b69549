//! Words, class names, statuses and lines, each as a table.
use crate::*;
use kc_text::Text;
use std::alloc::{AllocError, Global};
use std::test::Fail;

fn owned_words(alloc: Global, words: &[&str]) -> Result<Vec<String>, AllocError> {
    let mut owned = Vec::new(alloc);
    for word in words {
        owned.push(String::from_str(alloc, word)?)?;
    }
    Ok(owned)
}

/// A file's name of this many letters `a` and `.kt`.
fn long_name(alloc: Global, letters: usize) -> Result<String, AllocError> {
    let mut name = String::new(alloc);
    for _ in 0..letters {
        name.push('a')?;
    }
    name.push_str(".kt")?;
    Ok(name)
}

#[test]
fn takes_exec_with_a_source_file(rt: HostRuntime) -> Result<(), Fail> {
    let long = long_name(rt.alloc(), 197)?;
    assert_eq!(rt; long.len(), 200);
    let files = [
        "one.kt",
        "_x.kt",
        "_.kt",
        "A9_z.kt",
        "a/b/demo_2.kt",
        "2/b.kt",
        "_/1a/kt.kt",
        long.as_str(),
    ];
    for file in files {
        let words = owned_words(rt.alloc(), &["exec", file])?;
        let Some(Command::Exec { steps, file: taken }) = command_of(&words) else {
            return Err(Fail::from("a command"));
        };
        assert_eq!(rt; steps, 1_000_000_000);
        assert_eq!(rt; taken.as_str(), file);
    }
    Ok(())
}

#[test]
fn takes_a_count_of_steps(rt: HostRuntime) -> Result<(), Fail> {
    let counts = [
        ("1", 1),
        ("1000", 1000),
        ("1000000000000", 1_000_000_000_000),
    ];
    for (word, count) in counts {
        let words = owned_words(rt.alloc(), &["exec", "--steps", word, "one.kt"])?;
        let Some(Command::Exec { steps, file }) = command_of(&words) else {
            return Err(Fail::from("a command"));
        };
        assert_eq!(rt; steps, count);
        assert_eq!(rt; file.as_str(), "one.kt");
    }
    Ok(())
}

#[test]
fn refuses_other_counts(rt: HostRuntime) -> Result<(), Fail> {
    let counts = [
        "",
        "0",
        "00",
        "01",
        "+1",
        "-1",
        " 1",
        "1 ",
        "1_000",
        "0x10",
        "1000000000001",
        "18446744073709551617",
        "one.kt",
    ];
    for word in counts {
        let words = owned_words(rt.alloc(), &["exec", "--steps", word, "one.kt"])?;
        assert!(rt; command_of(&words).is_none(), "of {word:?}");
    }
    Ok(())
}

#[test]
fn refuses_other_files(rt: HostRuntime) -> Result<(), Fail> {
    let long = long_name(rt.alloc(), 198)?;
    assert_eq!(rt; long.len(), 201);
    let files = [
        "",
        "one",
        ".kt",
        "kt",
        "1.kt",
        "a//b.kt",
        "/a.kt",
        "a.kt/",
        "a/",
        "a/.kt",
        "a/1.kt",
        "a b.kt",
        "ä.kt",
        "a.KT",
        "a.kt.kt",
        "a.kts",
        "./a.kt",
        "../a.kt",
        "a-b.kt",
        "a.b/c.kt",
        "a.kt\n",
        "a\\b.kt",
        "-.kt",
        long.as_str(),
    ];
    for file in files {
        let words = owned_words(rt.alloc(), &["exec", file])?;
        assert!(rt; command_of(&words).is_none(), "of {file:?}");
    }
    Ok(())
}

#[test]
fn refuses_other_words(rt: HostRuntime) -> Result<(), Fail> {
    let lines: [&[&str]; 15] = [
        &[],
        &["exec", "--steps", "one.kt"],
        &["exec", "--steps", "5"],
        &["exec", "--steps=5", "one.kt"],
        &["exec", "one.kt", "--steps", "5"],
        &["exec", "-steps", "5", "one.kt"],
        &["exec", "--steps", "5", "one.kt", "two.kt"],
        &["exec"],
        &["one.kt"],
        &["one.kt", "exec"],
        &["Exec", "one.kt"],
        &["exec ", "one.kt"],
        &["run", "one.kt"],
        &["exec", "one.kt", "two.kt"],
        &["exec", "exec", "one.kt"],
    ];
    for line in lines {
        let words = owned_words(rt.alloc(), line)?;
        assert!(rt; command_of(&words).is_none(), "of {line:?}");
    }
    Ok(())
}

#[test]
fn names_the_class_of_a_file(rt: HostRuntime) -> Result<(), Fail> {
    let names = [
        ("one.kt", "OneKt"),
        ("a/b/demo_2.kt", "Demo_2Kt"),
        ("_x.kt", "_xKt"),
        ("Main.kt", "MainKt"),
        ("z.kt", "ZKt"),
        ("kt/kt.kt", "KtKt"),
    ];
    for (file, class) in names {
        let words = owned_words(rt.alloc(), &["exec", file])?;
        let Some(Command::Exec { steps: _, file }) = command_of(&words) else {
            return Err(Fail::from("a command"));
        };
        let name = class_name(rt.alloc(), file.as_str())?;
        assert_eq!(rt; name, Text::from_str(rt.alloc(), class)?, "of {class}");
    }
    Ok(())
}

#[test]
fn has_a_code_for_each_status(rt: HostRuntime) {
    let codes = [
        (Status::Ended, 0),
        (Status::Threw, 1),
        (Status::Words, 2),
        (Status::Refused, 3),
        (Status::Limit, 4),
        (Status::ReadFault, 5),
        (Status::WriteFault, 6),
        (Status::ClassRefused, 7),
        (Status::StepLimit, 8),
        (Status::Memory, 70),
    ];
    for (status, code) in codes {
        assert_eq!(rt; status.code(), code, "of {status:?}");
    }
}

#[test]
fn prints_each_report(rt: HostRuntime) -> Result<(), Fail> {
    let reports = [
        (Report::Ended, Status::Ended, ""),
        (Report::Words, Status::Words, "kc: words not understood\n"),
        (
            Report::Refused {
                file: Name::new("one.kt"),
                line: 1,
                column: 1,
                code: Code::NotBuilt,
            },
            Status::Refused,
            "one.kt:1:1: NotBuilt\n",
        ),
        (
            Report::Refused {
                file: Name::new("a/b.kt"),
                line: 120,
                column: 17,
                code: Code::NotBuilt,
            },
            Status::Refused,
            "a/b.kt:120:17: NotBuilt\n",
        ),
        (
            Report::Missing {
                name: Name::new("a.kt"),
            },
            Status::ReadFault,
            "missing: a.kt\n",
        ),
        (
            Report::ReadFailed {
                name: Name::new("a.kt"),
            },
            Status::ReadFault,
            "read failed: a.kt\n",
        ),
        (
            Report::InputFailed,
            Status::ReadFault,
            "read failed: input\n",
        ),
        (Report::WriteFailed, Status::WriteFault, "write failed\n"),
        (
            Report::StepLimit {
                steps: 1_000_000_000,
            },
            Status::StepLimit,
            "steps: 1000000000\n",
        ),
        (Report::Memory, Status::Memory, "out of memory\n"),
    ];
    for (report, status, line) in &reports {
        assert_eq!(rt; line_of(rt.alloc(), report)?.as_slice(), line.as_bytes());
        assert_eq!(rt; report.status(), *status);
        if let Some(fixed) = fixed_line(report) {
            assert_eq!(rt; fixed, line.as_bytes());
        }
    }
    Ok(())
}

#[test]
fn prints_exceptions(rt: HostRuntime) -> Result<(), Fail> {
    let exceptions = [
        (
            "java/lang/ArithmeticException",
            "/ by zero",
            "exception: java.lang.ArithmeticException: / by zero\n",
        ),
        ("E", "", "exception: E: \n"),
        ("a/Größe", "\u{1F600}", "exception: a.Größe: \u{1F600}\n"),
    ];
    for (class, message, line) in exceptions {
        let report = Report::Threw {
            class: Text::from_str(rt.alloc(), class)?,
            message: Some(Text::from_str(rt.alloc(), message)?),
        };
        assert_eq!(rt; line_of(rt.alloc(), &report)?.as_slice(), line.as_bytes());
    }
    Ok(())
}

#[test]
fn prints_an_exception_without_message(rt: HostRuntime) -> Result<(), Fail> {
    let report = Report::Threw {
        class: Text::from_str(rt.alloc(), "a/b/C")?,
        message: None,
    };
    assert_eq!(rt;
        line_of(rt.alloc(), &report)?.as_slice(),
        b"exception: a.b.C\n".as_slice()
    );
    assert_eq!(rt; report.status(), Status::Threw);
    Ok(())
}

#[test]
fn prints_a_lone_surrogate_as_a_question_mark(rt: HostRuntime) -> Result<(), Fail> {
    let class = Text::from_units(rt.alloc(), [0x45, 0x2F, 0xD800].to_vec(rt.alloc())?)?;
    let message = Text::from_units(rt.alloc(), [0x2F, 0xDC00].to_vec(rt.alloc())?)?;
    let message = Some(message);
    let line = line_of(rt.alloc(), &Report::Threw { class, message })?;
    assert_eq!(rt; line.as_slice(), b"exception: E.?: /?\n".as_slice());
    Ok(())
}

#[test]
fn has_fixed_lines_where_nothing_is_named(rt: HostRuntime) {
    assert_eq!(rt;
        fixed_line(&Report::Memory),
        Some(b"out of memory\n".as_slice())
    );
    assert_eq!(rt;
        fixed_line(&Report::WriteFailed),
        Some(b"write failed\n".as_slice())
    );
    assert!(rt; fixed_line(&Report::StepLimit { steps: 1 }).is_none());
    assert_eq!(rt; Code::NotBuilt.name(), b"NotBuilt".as_slice());
}
