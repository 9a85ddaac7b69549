//! Each call of the machine once with ample memory, over sets made by hand. What they write is worked out from the Java Virtual Machine
//! Specification SE 8.
use class_file::class::{ClassFile, Frame, Handler, Method, Set, VType};
use class_file::frames::Frames;
use class_file::instr::Instr;
use class_file::pool::{Entry, Pool};
use class_machine::{LoadFault, Machine, RunEnd};
use kc_io::{MemorySink, MemorySource};
use kc_text::{Fail, Memory, Text};
use shared_list::SharedList;
use sqlite_items::Items;
use std::alloc::Global;
use std::test::Fail as Failed;

// Texts of every pool, by their indexes from 1 on.
const TEXTS: [&str; 14] = [
    "M",
    "N",
    "kprof/rt/Console",
    "kprof/rt/Texts",
    "java/lang/ArithmeticException",
    "write",
    "(Ljava/lang/String;)V",
    "ofInt",
    "(I)Ljava/lang/String;",
    "less",
    "(II)I",
    "run",
    "()V",
    "!",
];

// Names with descriptors, at 20 and on, and references to methods, at 24 and on; classes stand from 15 on.
const TYPED: [(u16, u16); 4] = [(6, 7), (8, 9), (10, 11), (12, 13)];

const METHODS: [(u16, u16); 4] = [(17, 20), (18, 21), (15, 22), (16, 23)];

const ARITHMETIC: u16 = 19;

const WRITE: Instr = Instr::Invokestatic(24);

const OF_INT: Instr = Instr::Invokestatic(25);

const LESS: Instr = Instr::Invokestatic(26);

const RUN: Instr = Instr::Invokestatic(27);

const MARK: Instr = Instr::Ldc(28);

// A static method. Where its handler leads, a frame is given with the exception on the stack.
#[derive(Clone, Copy)]
struct Sample<'a> {
    name: &'a str,
    descriptor: &'a str,
    code: &'a [Instr],
    handler: Option<Handler>,
}

fn add(pool: &mut Pool, entry: Entry) -> Result<(), Memory> {
    match pool.index(entry) {
        Ok(_) => Ok(()),
        Err(_) => Err(Memory),
    }
}

fn pool_of(alloc: Global) -> Result<Pool, Memory> {
    let mut pool = Pool::new(alloc);
    for text in TEXTS {
        add(&mut pool, Entry::Utf8(Text::from_str(alloc, text)?))?;
    }
    for name in 1..6 {
        add(&mut pool, Entry::Class(name))?;
    }
    for (name, descriptor) in TYPED {
        add(&mut pool, Entry::NameAndType(name, descriptor))?;
    }
    for (owner, member) in METHODS {
        add(&mut pool, Entry::MethodRef(owner, member))?;
    }
    add(&mut pool, Entry::Str(14))?;
    Ok(pool)
}

fn frames_of(alloc: Global, handler: Option<Handler>) -> Result<Frames, Memory> {
    let mut frames = Frames::new(alloc);
    if let Some(handler) = handler {
        let mut stack = Items::new(alloc);
        stack.push(VType::Object(Text::from_str(alloc, "java/lang/ArithmeticException")?))?;
        frames.push(
            alloc,
            Frame {
                at: handler.at,
                locals: SharedList::new(alloc)?,
                stack,
                unset: false,
            },
        )?;
    }
    Ok(frames)
}

fn handlers_of(alloc: Global, handler: Option<Handler>) -> Result<Items<Handler>, Memory> {
    let mut handlers = Items::new(alloc);
    if let Some(handler) = handler {
        handlers.push(handler)?;
    }
    Ok(handlers)
}

fn method_of(alloc: Global, sample: &Sample) -> Result<Method, Memory> {
    Ok(Method {
        flags: 9,
        name: Text::from_str(alloc, sample.name)?,
        descriptor: Text::from_str(alloc, sample.descriptor)?,
        max_stack: 3,
        max_locals: 2,
        code: Items::from_slice(alloc, sample.code)?,
        handlers: handlers_of(alloc, sample.handler)?,
        frames: frames_of(alloc, sample.handler)?,
        code_others: Items::new(alloc),
        others: Items::new(alloc),
    })
}

fn class_of(alloc: Global, name: &str, samples: &[Sample]) -> Result<ClassFile, Memory> {
    let mut methods = Items::new(alloc);
    for sample in samples {
        methods.push(method_of(alloc, sample)?)?;
    }
    Ok(ClassFile {
        pool: pool_of(alloc)?,
        flags: 0x0021,
        this_name: Text::from_str(alloc, name)?,
        super_name: Text::from_str(alloc, "java/lang/Object")?,
        interfaces: Items::new(alloc),
        fields: Items::new(alloc),
        methods,
        others: Items::new(alloc),
    })
}

fn set_of(alloc: Global, main: &[Sample], other: &[Sample]) -> Result<Set, Memory> {
    let mut classes = Items::new(alloc);
    classes.push(class_of(alloc, "M", main)?)?;
    classes.push(class_of(alloc, "N", other)?)?;
    Ok(Set {
        classes,
        main: Text::from_str(alloc, "M")?,
    })
}

fn method<'a>(name: &'a str, descriptor: &'a str, code: &'a [Instr]) -> Sample<'a> {
    Sample {
        name,
        descriptor,
        code,
        handler: None,
    }
}

fn catching<'a>(
    name: &'a str,
    code: &'a [Instr],
    start: usize,
    end: usize,
    at: usize,
) -> Sample<'a> {
    Sample {
        name,
        descriptor: "()V",
        code,
        handler: Some(Handler {
            start,
            end,
            at,
            catch_type: ARITHMETIC,
        }),
    }
}

fn is_text(alloc: Global, text: &Text, wanted: &str) -> Result<bool, Memory> {
    let bytes = text.to_utf8(alloc)?;
    Ok(bytes.as_slice() == wanted.as_bytes())
}

fn ends_so(alloc: Global, end: &RunEnd, thrown: Option<(&str, &str)>) -> Result<bool, Memory> {
    match (end, thrown) {
        (RunEnd::Ended, None) => Ok(true),
        (
            RunEnd::Threw {
                class,
                message: Some(message),
            },
            Some((class_wanted, message_wanted)),
        ) => Ok(is_text(alloc, class, class_wanted)? && is_text(alloc, message, message_wanted)?),
        _ => Ok(false),
    }
}

fn empty_source(alloc: Global) -> MemorySource {
    MemorySource::new(Vec::new(alloc), 1, Vec::new(alloc))
}

// Does the machine on a set stop where so many steps are made, and end so with the next one, with this written?
fn runs_so(
    alloc: Global,
    set: &Set,
    steps: u64,
    written: &str,
    thrown: Option<(&str, &str)>,
) -> Result<bool, Memory> {
    let mut machine = match Machine::load(alloc, set) {
        Ok(machine) => machine,
        Err(Fail::Found(_)) => return Ok(false),
        Err(Fail::Memory) => return Err(Memory),
    };
    let mut input = empty_source(alloc);
    let mut out = MemorySink::new(alloc, 3, Vec::new(alloc));
    let RunEnd::StepLimit = machine.run(alloc, steps, &mut input, &mut out) else {
        return Ok(false);
    };
    if !machine.is_live() {
        return Ok(false);
    }
    let end = machine.run(alloc, 1, &mut input, &mut out);
    if machine.is_live() {
        return Ok(false);
    }
    let is_end = ends_so(alloc, &end, thrown)?;
    Ok(is_end && out.bytes() == written.as_bytes())
}

const SUBTRACTS: [Instr; 4] = [Instr::Iload0, Instr::Iload1, Instr::Isub, Instr::Ireturn];

const DIVIDES: [Instr; 4] = [Instr::Iload0, Instr::Iload1, Instr::Idiv, Instr::Ireturn];

const MARKS: [Instr; 3] = [MARK, WRITE, Instr::Return];

const WRITES: [Instr; 4] = [Instr::Iconst3, OF_INT, WRITE, Instr::Return];

const RUNS: [Instr; 3] = [RUN, RUN, Instr::Return];

const CALLS: [Instr; 6] = [
    Instr::Bipush(7),
    Instr::Iconst5,
    LESS,
    OF_INT,
    WRITE,
    Instr::Return,
];

const DIVIDES_ITSELF: [Instr; 9] = [
    Instr::Iconst1,
    Instr::Iconst0,
    Instr::Idiv,
    Instr::Pop,
    Instr::Return,
    Instr::Pop,
    MARK,
    WRITE,
    Instr::Return,
];

const CALLS_DIVISION: [Instr; 9] = [
    Instr::Iconst1,
    Instr::Iconst0,
    LESS,
    Instr::Pop,
    Instr::Return,
    Instr::Pop,
    MARK,
    WRITE,
    Instr::Return,
];

#[test]
fn hands_arguments_and_a_result(rt: HostRuntime) -> Result<(), Failed> {
    let alloc = rt.alloc();
    let main = [
        method("main", "()V", &CALLS),
        method("less", "(II)I", &SUBTRACTS),
    ];
    let set = set_of(alloc, &main, &[])?;
    assert!(rt; runs_so(alloc, &set, 10, "2", None)?);
    Ok(())
}

#[test]
fn catches_in_the_frame_that_throws(rt: HostRuntime) -> Result<(), Failed> {
    let alloc = rt.alloc();
    let main = [catching("main", &DIVIDES_ITSELF, 0, 3, 5)];
    let set = set_of(alloc, &main, &[])?;
    assert!(rt; runs_so(alloc, &set, 7, "!", None)?);
    Ok(())
}

#[test]
fn catches_in_the_callers_frame(rt: HostRuntime) -> Result<(), Failed> {
    let alloc = rt.alloc();
    let main = [
        catching("main", &CALLS_DIVISION, 2, 5, 7),
        method("less", "(II)I", &DIVIDES),
    ];
    let set = set_of(alloc, &main, &[])?;
    assert!(rt; runs_so(alloc, &set, 10, "!", None)?);
    Ok(())
}

// The handler's range ends before the call.
#[test]
fn tells_an_exception_that_no_handler_catches(rt: HostRuntime) -> Result<(), Failed> {
    let alloc = rt.alloc();
    let main = [
        catching("main", &CALLS_DIVISION, 1, 2, 7),
        method("less", "(II)I", &DIVIDES),
    ];
    let set = set_of(alloc, &main, &[])?;
    let thrown = Some(("java/lang/ArithmeticException", "/ by zero"));
    assert!(rt; runs_so(alloc, &set, 6, "", thrown)?);
    Ok(())
}

// Each initialiser runs once, before the first method of its class.
#[test]
fn initialises_classes(rt: HostRuntime) -> Result<(), Failed> {
    let alloc = rt.alloc();
    let main = [
        method("main", "()V", &RUNS),
        method("<clinit>", "()V", &WRITES),
    ];
    let other = [
        method("run", "()V", &WRITES),
        method("<clinit>", "()V", &MARKS),
    ];
    let set = set_of(alloc, &main, &other)?;
    assert!(rt; runs_so(alloc, &set, 20, "3!33", None)?);
    Ok(())
}

// A call of a method that is not there is not built.
#[test]
fn refuses_what_is_not_built(rt: HostRuntime) -> Result<(), Failed> {
    let alloc = rt.alloc();
    let main = [method("main", "()V", &CALLS)];
    let set = set_of(alloc, &main, &[])?;
    let is_refused = match Machine::load(alloc, &set) {
        Err(Fail::Found(fault)) => fault == LoadFault::NotBuilt,
        Err(Fail::Memory) => false,
        Ok(_) => false,
    };
    assert!(rt; is_refused);
    Ok(())
}
