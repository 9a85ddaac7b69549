// What no clause says: that calls succeed with ample memory, and what files and streams give and keep.
use crate::{
    DiskFolder, Folder, FolderRead, MemoryFolder, MemorySink, MemorySource, OutFault, ReadFailed,
    Sink, Source, StdSink, StdSource, write_all,
};
use std::alloc::{AllocError, Global};
use std::io::{ErrorKind, Lock, Read, Write};
use std::test::Fail;
use std::{fs, io};

// What a read of a file answers, in a word: whether it has this text.
fn read_text<F: Folder>(folder: &mut F, alloc: Global, name: &str, text: &str) -> &'static str {
    match folder.read(alloc, name) {
        FolderRead::Bytes(bytes) if bytes.as_slice() == text.as_bytes() => "found",
        FolderRead::Bytes(_) => "another text",
        FolderRead::Missing => "missing",
        FolderRead::Failed => "failed",
        FolderRead::Memory => "memory",
    }
}

// What a write of a file answers, in a word.
fn write_text<F: Folder>(folder: &mut F, alloc: Global, name: &str, text: &str) -> &'static str {
    match folder.write(alloc, name, text.as_bytes()) {
        Ok(()) => "written",
        Err(OutFault::Failed) => "failed",
        Err(OutFault::Memory) => "memory",
    }
}

fn call<F: Folder>(
    folder: &mut F,
    alloc: Global,
    word: &str,
    name: &str,
    text: &str,
) -> &'static str {
    if word == "read" {
        read_text(folder, alloc, name, text)
    } else {
        write_text(folder, alloc, name, text)
    }
}

fn files(alloc: Global, texts: &[(&str, &str)]) -> Result<Vec<(String, Vec<u8>)>, AllocError> {
    let mut files = Vec::new(alloc);
    for (name, text) in texts {
        let name = String::from_str(alloc, name)?;
        files.push((name, Vec::from_slice(alloc, text.as_bytes())?))?;
    }
    Ok(files)
}

#[test]
fn memory_folder_fails_at_the_numbers_given(rt: HostRuntime) -> Result<(), Fail> {
    let alloc = rt.alloc();
    let given = files(alloc, &[("a.kt", "fun"), ("b.kt", "val")])?;
    let mut folder = MemoryFolder::new(alloc, given, Vec::from_slice(alloc, &[3, 7])?);
    let table = [
        ("read", "b.kt", "val", "found"),
        ("read", "c.kt", "", "missing"),
        ("write", "a.kt", "new", "failed"),
        ("read", "a.kt", "fun", "found"),
        ("write", "c.kt", "", "written"),
        ("write", "a.kt", "new", "written"),
        ("read", "c.kt", "", "failed"),
        ("read", "c.kt", "", "found"),
    ];
    for (word, name, text, want) in table {
        assert_eq!(rt;
            call(&mut folder, alloc, word, name, text),
            want,
            "{word} {name}"
        );
    }
    let left = files(alloc, &[("a.kt", "new"), ("b.kt", "val"), ("c.kt", "")])?;
    assert_eq!(rt; folder.files(), left.as_slice());
    Ok(())
}

#[test]
fn disk_folder_reads_and_writes(rt: HostRuntime) -> Result<(), Fail> {
    let alloc = rt.alloc();
    let _ = fs::remove_dir_all(&rt, "kc_io_test_files");
    let mut folder = DiskFolder::new(&rt);
    let name = "kc_io_test_files/deep/Main.class";
    let table = [
        ("read", name, "", "missing", 1),
        ("write", name, "first, and longer", "written", 1),
        ("write", name, "second", "written", 1),
        ("read", name, "second", "found", 1),
        // a folder is no file, and a file no folder
        ("read", "kc_io_test_files/deep", "", "failed", 2),
        (
            "write",
            "kc_io_test_files/deep/Main.class/x",
            "",
            "failed",
            3,
        ),
    ];
    for (word, name, text, want, faults) in table {
        assert_eq!(rt;
            call(&mut folder, alloc, word, name, text),
            want,
            "{word} {name}"
        );
        assert_eq!(rt; folder.faults(), faults, "{word} {name}");
    }
    fs::remove_dir_all(&rt, "kc_io_test_files")?;
    Ok(())
}

#[test]
fn memory_sink_takes_a_piece_in_calls(rt: HostRuntime) -> Result<(), Fail> {
    let failed = Err(OutFault::Failed);
    let table = [
        (100, 0, Ok(()), "hello world"),
        (1, 0, Ok(()), "hello world"),
        (4, 4, Ok(()), "hello world"),
        (4, 3, failed, "hello wo"),
        (4, 1, failed, ""),
    ];
    for (most, failing, want, taken) in table {
        assert!(rt; most >= 1);
        let failing = Vec::from_slice(rt.alloc(), &[failing])?;
        let mut sink = MemorySink::new(rt.alloc(), most, failing);
        let answer = write_all(&mut sink, rt.alloc(), b"hello world");
        assert_eq!(rt; answer, want, "for {taken:?}, at most {most}");
        assert_eq!(rt; sink.bytes(), taken.as_bytes(), "at most {most}");
    }
    Ok(())
}

// What a read into four bytes answers, and whether it gave this text.
fn read_four<I: Source>(source: &mut I, text: &str) -> (Result<usize, ReadFailed>, bool) {
    let mut buf = [0; 4];
    let answer = source.read(&mut buf);
    (answer, buf.starts_with(text.as_bytes()))
}

#[test]
fn memory_source_goes_on_after_a_failure(rt: HostRuntime) -> Result<(), Fail> {
    let bytes = Vec::from_slice(rt.alloc(), b"abcdefg")?;
    let mut source = MemorySource::new(bytes, 3, Vec::from_slice(rt.alloc(), &[2])?);
    let table = [
        (Ok(3), "abc", "defg"),
        (Err(ReadFailed), "", "defg"),
        (Ok(3), "def", "g"),
        (Ok(1), "g", ""),
        (Ok(0), "", ""),
    ];
    for (want, text, left) in table {
        assert_eq!(rt; read_four(&mut source, text), (want, true), "{text:?}");
        assert_eq!(rt; source.left(), left.as_bytes());
    }
    Ok(())
}

// A stream that takes and gives two bytes in a call, and whose second call fails.
#[derive(Drop)]
struct FailsOnce {
    calls: u8,
}

impl FailsOnce {
    fn fails(&mut self) -> bool {
        self.calls = self.calls.saturating_add(1);
        self.calls == 2
    }
}

impl Read for FailsOnce {
    fn read(&mut self, buf: &mut [u8]) -> io::Result<usize> {
        if self.fails() {
            return Err(io::Error::from(ErrorKind::BrokenPipe));
        }
        Ok(buf.len().min(2))
    }
}

impl Write for FailsOnce {
    fn write(&mut self, buf: &[u8]) -> io::Result<usize> {
        if self.fails() {
            return Err(io::Error::from(ErrorKind::BrokenPipe));
        }
        Ok(buf.len().min(2))
    }

    fn flush(&mut self) -> io::Result<()> {
        Ok(())
    }
}

#[test]
fn standard_streams_count_their_failures(rt: HostRuntime) {
    let mut source = StdSource::new(FailsOnce { calls: 0 });
    for (want, faults) in [(Ok(2), 0), (Err(ReadFailed), 1), (Ok(2), 1)] {
        assert_eq!(rt; read_four(&mut source, "").0, want);
        assert_eq!(rt; source.faults(), faults);
    }
    let mut sink = StdSink::new(FailsOnce { calls: 0 });
    for (want, faults) in [(Err(OutFault::Failed), 1), (Ok(()), 1)] {
        assert_eq!(rt; write_all(&mut sink, rt.alloc(), b"abcdef"), want);
        assert_eq!(rt; sink.faults(), faults);
    }
}

#[test]
fn standard_streams_give_and_take_bytes(rt: HostRuntime) {
    let mut source = StdSource::new(b"line".as_slice());
    assert_eq!(rt; read_four(&mut source, "line"), (Ok(4), true));
    assert_eq!(rt; read_four(&mut source, ""), (Ok(0), true));
    assert_eq!(rt; StdSource::new(rt.stdin().lock()).read(&mut []), Ok(0));

    let mut bytes = Vec::new(rt.alloc());
    assert_eq!(rt;
        write_all(&mut StdSink::new(&mut bytes), rt.alloc(), b"line"),
        Ok(())
    );
    assert_eq!(rt; bytes.as_slice(), b"line".as_slice());
    assert_eq!(rt;
        write_all(&mut StdSink::new(rt.stdout()), rt.alloc(), b""),
        Ok(())
    );
    assert_eq!(rt;
        write_all(&mut StdSink::new(rt.stderr()), rt.alloc(), b"a line\n"),
        Ok(())
    );
}
