//! Whole commands over objects in memory: what goes out, the report's line and the status.

ghost use Rattle.std.specs.Prelude.{◌≡◌, ◌<◌};

use crate::{Status, Steps, kc};
use kc_io::{MemoryFolder, MemorySink, MemorySource};
use std::alloc::{AllocError, Global};
use std::marker::Brand;
use std::sync::ledger::{Blank, Ledger};
use std::test::Fail;

/// A command and what comes of it.
#[derive(Drop)]
struct Case {
    words: &'static [&'static str],
    file: &'static str,
    out: &'static str,
    err: &'static str,
    status: Status,
    runs: bool,
}

/// The calls that fail, by their numbers from 1, and the most bytes that a write takes.
#[derive(Clone, Copy)]
struct Faults {
    tree: u64,
    out: u64,
    err: u64,
    most: usize,
}

const NO_FAULTS: Faults = Faults {
    tree: 0,
    out: 0,
    err: 0,
    most: 4096,
};

fn failing(alloc: Global, call: u64) -> Result<Vec<u64>, AllocError> {
    let mut calls = Vec::new(alloc);
    if call > 0 {
        calls.push(call)?;
    }
    Ok(calls)
}

fn words_of(alloc: Global, words: &[&str]) -> Result<Vec<String>, AllocError> {
    let mut owned = Vec::new(alloc);
    for word in words {
        owned.push(String::from_str(alloc, word)?)?;
    }
    Ok(owned)
}

/// The file is `one.kt` in the folder of sources.
fn files_of(alloc: Global, text: &str) -> Result<Vec<(String, Vec<u8>)>, AllocError> {
    let mut files = Vec::new(alloc);
    let name = String::from_str(alloc, "one.kt")?;
    files.push((name, Vec::from_slice(alloc, text.as_bytes())?))?;
    Ok(files)
}

/// What the command wrote, how it ended, and whether its classes ran.
#[derive(Drop)]
struct Seen {
    out: Vec<u8>,
    err: Vec<u8>,
    status: Status,
    runs: bool,
}

fn over<L: Ledger>(
    alloc: Global,
    words: &[String],
    tree: &mut MemoryFolder,
    out: &mut MemorySink,
    err: &mut MemorySink,
    blank: Blank,
) -> (Status, bool)
    requires name { blank.name ≡ L.name }
    requires parts { blank.parts ≡ L.parts }
    requires some { 0 < blank.parts }
{
    let mut folder = MemoryFolder::new(alloc, Vec::new(alloc), Vec::new(alloc));
    let mut input = MemorySource::new(Vec::new(alloc), 1, Vec::new(alloc));
    let mut steps = Steps::<L>::new(blank);
    let done = kc(
        alloc,
        words,
        tree,
        &mut folder,
        &mut input,
        out,
        err,
        &mut steps,
    );
    (done.status, done.ran.is_some())
}

// The command over objects in memory that fail so.
fn served(alloc: Global, words: &[&str], text: &str, faults: Faults) -> Result<Seen, AllocError> {
    let words = words_of(alloc, words)?;
    let files = files_of(alloc, text)?;
    let mut tree = MemoryFolder::new(alloc, files, failing(alloc, faults.tree)?);
    let mut out = MemorySink::new(alloc, faults.most.max(1), failing(alloc, faults.out)?);
    let mut err = MemorySink::new(alloc, faults.most.max(1), failing(alloc, faults.err)?);
    let (status, runs) = over::<Brand>(alloc, &words, &mut tree, &mut out, &mut err, Blank::new(1));
    Ok(Seen {
        out: Vec::from_slice(alloc, out.bytes())?,
        err: Vec::from_slice(alloc, err.bytes())?,
        status,
        runs,
    })
}

#[test]
fn serves_commands(rt: HostRuntime) -> Result<(), Fail> {
    let exec: &[&str] = &["exec", "one.kt"];
    let cases = [
        Case {
            words: exec,
            file: "fun main() { println(1 + 2 * 3) }",
            out: "7\n",
            err: "",
            status: Status::Ended,
            runs: true,
        },
        Case {
            words: exec,
            file: "fun main() { }",
            out: "",
            err: "",
            status: Status::Ended,
            runs: true,
        },
        Case {
            words: exec,
            file: "fun main() { println(x) }",
            out: "",
            err: "one.kt:1:1: NotBuilt\n",
            status: Status::Refused,
            runs: false,
        },
        Case {
            words: exec,
            file: "fun main() {\n  val a = -2147483648\n  val b = -1\n  println(a / b)\n  val z = 0\n  println(1 / z)\n}\n",
            out: "-2147483648\n",
            err: "exception: java.lang.ArithmeticException: / by zero\n",
            status: Status::Threw,
            runs: true,
        },
        Case {
            words: exec,
            file: "fun main() {\n  val n = 100000\n  println(n * n)\n  println(-7 / 2)\n  println(-7 % 2)\n  println(2147483647 + 1)\n  println(10 - 2 - 3)\n  println(-(-2147483648))\n}",
            out: "1410065408\n-3\n-1\n-2147483648\n5\n-2147483648\n",
            err: "",
            status: Status::Ended,
            runs: true,
        },
        Case {
            words: &["exec", "two.kt"],
            file: "fun main() { }",
            out: "",
            err: "missing: two.kt\n",
            status: Status::ReadFault,
            runs: false,
        },
        Case {
            words: &[],
            file: "",
            out: "",
            err: "kc: words not understood\n",
            status: Status::Words,
            runs: false,
        },
        Case {
            words: &["compile", "one.kt"],
            file: "fun main() { }",
            out: "",
            err: "kc: words not understood\n",
            status: Status::Words,
            runs: false,
        },
    ];
    for case in &cases {
        let seen = served(rt.alloc(), case.words, case.file, NO_FAULTS)?;
        assert_eq!(rt; seen.out.as_slice(), case.out.as_bytes());
        assert_eq!(rt; seen.err.as_slice(), case.err.as_bytes());
        assert!(rt; seen.status == case.status);
        assert!(rt; seen.runs == case.runs);
    }
    Ok(())
}

#[test]
fn runs_choices_and_loops(rt: HostRuntime) -> Result<(), Fail> {
    let programs = [
        (
            "fun main() { var n = 3\n while (n > 0) { println(n); n = n - 1 }\n }",
            "3\n2\n1\n",
        ),
        (
            "fun main() {\n  val t = true; val f = 1 > 2\n  println(t && f || !f)\n  println(f && 1 / 0 == 0)\n  println(t || 1 / 0 == 0)\n  println(1 != 2 && !(1 >= 2))\n}",
            "true\nfalse\ntrue\ntrue\n",
        ),
        (
            "fun main() {\n  var a = 0\n  while (a < 3) {\n    var b = 0\n    while (b <= a) { if (b == a) println(a) else if (b == 0) println(-a)\n      b = b + 1 }\n    a = a + 1\n  }\n}",
            "0\n-1\n1\n-2\n2\n",
        ),
        (
            "fun main() {\n  if (true) { val x = 1; println(x) } else println(2)\n  if (false) println(3)\n  else { val x = false; println(x) }\n  while (false) println(4)\n}",
            "1\nfalse\n",
        ),
    ];
    for (file, out) in &programs {
        let seen = served(rt.alloc(), &["exec", "one.kt"], file, NO_FAULTS)?;
        assert_eq!(rt; seen.out.as_slice(), out.as_bytes());
        assert!(rt; seen.status == Status::Ended);
    }
    Ok(())
}

#[test]
fn refuses_faults_of_types_and_scopes(rt: HostRuntime) -> Result<(), Fail> {
    let bodies = [
        "val x = 1; x = 2",
        "var x = 1; x = true",
        "x = 1",
        "val x = x",
        "val x = 1; val x = 2",
        "val x = 1; if (true) { val x = 2 }",
        "if (true) { val x = 2 }; println(x)",
        "if (1) println(1)",
        "while (0) println(1)",
        "println(true + 1)",
        "println(!1)",
        "println(-true)",
        "println(true == false)",
        "println(1 < 2 < 3)",
        "println(1 && true)",
        "println(\"x\")",
    ];
    for body in bodies {
        let file = format!(in rt.alloc(); "fun main() {{ {body} }}")?;
        let seen = served(rt.alloc(), &["exec", "one.kt"], file.as_str(), NO_FAULTS)?;
        assert_eq!(rt;
            seen.err.as_slice(),
            b"one.kt:1:1: NotBuilt\n".as_slice(),
            "of {body}"
        );
        assert!(rt; seen.status == Status::Refused);
    }
    Ok(())
}

// A turn of this loop is six instructions, the fifth of which writes the line; the call of `main` comes before the first.
#[test]
fn stops_at_the_limit(rt: HostRuntime) -> Result<(), Fail> {
    let counts = [
        ("1", 0),
        ("5", 0),
        ("6", 1),
        ("11", 1),
        ("12", 2),
        ("1000", 166),
    ];
    for (count, lines) in counts {
        let words = &["exec", "--steps", count, "one.kt"];
        let file = "fun main() { while (true) println(1) }";
        let seen = served(rt.alloc(), words, file, NO_FAULTS)?;
        let err = format!(in rt.alloc(); "steps: {count}\n")?;
        assert_eq!(rt; seen.out.len(), 2 * lines, "of {count}");
        assert_eq!(rt; seen.err.as_slice(), err.as_bytes());
        assert!(rt; seen.status == Status::StepLimit);
        assert!(rt; seen.runs);
    }
    Ok(())
}

#[test]
fn reports_faults(rt: HostRuntime) -> Result<(), Fail> {
    let file = "fun main() {\n  println(1)\n  println(2)\n}";
    let cases = [
        (
            Faults {
                tree: 1,
                ..NO_FAULTS
            },
            "",
            "read failed: one.kt\n",
            Status::ReadFault,
        ),
        (
            Faults {
                out: 1,
                ..NO_FAULTS
            },
            "",
            "write failed\n",
            Status::WriteFault,
        ),
        (
            Faults {
                out: 2,
                ..NO_FAULTS
            },
            "1\n",
            "write failed\n",
            Status::WriteFault,
        ),
        (
            Faults {
                out: 2,
                most: 1,
                ..NO_FAULTS
            },
            "1",
            "write failed\n",
            Status::WriteFault,
        ),
        (
            Faults {
                most: 1,
                ..NO_FAULTS
            },
            "1\n2\n",
            "",
            Status::Ended,
        ),
        (
            Faults {
                tree: 1,
                err: 3,
                most: 2,
                ..NO_FAULTS
            },
            "",
            "read",
            Status::WriteFault,
        ),
    ];
    for (faults, out, err, status) in &cases {
        let seen = served(rt.alloc(), &["exec", "one.kt"], file, *faults)?;
        assert_eq!(rt; seen.out.as_slice(), out.as_bytes());
        assert_eq!(rt; seen.err.as_slice(), err.as_bytes());
        assert!(rt; seen.status == *status);
        assert!(rt; seen.runs == (*status == Status::Ended));
    }
    Ok(())
}
