//! The first fault of methods made by hand, one or more for each code of the first lot.
use class_file::class::{ClassFile, Frame, Handler, Method, Set, VType};
use class_file::frames::Frames;
use class_file::instr::Instr;
use class_file::pool::{Entry, Pool};
use class_file::verify_code::{VerifyCode, VerifyFault};
use kc_text::{Fail, Memory, Text};
use shared_list::SharedList;
use sqlite_items::Items;
use std::alloc::Global;
use std::test::Fail as Failed;
use verifier::{is_first_lot, verify};

// What lies on a stack: so many Ints, or a thrown object.
#[derive(Clone, Copy)]
enum Lying {
    Ints(usize),
    Thrown,
}

// A frame: its place, how many Ints are in the local variables, and its stack.
#[derive(Clone, Copy)]
struct Given {
    at: usize,
    locals: usize,
    stack: Lying,
}

// A method and its first fault.
#[derive(Clone, Copy)]
struct Sample<'a> {
    name: &'a str,
    descriptor: &'a str,
    flags: u16,
    sizes: (u16, u16),
    code: &'a [Instr],
    handlers: &'a [Handler],
    frames: &'a [Given],
    fault: Option<(usize, VerifyCode)>,
}

// Instructions that are each right between others, and the place of a frame without types, if there is one.
#[derive(Clone, Copy)]
struct Right<'a> {
    descriptor: &'a str,
    before: &'a [Instr],
    each: &'a [Instr],
    after: &'a [Instr],
    frame: Option<usize>,
}

fn int_types(alloc: Global, count: usize) -> Result<Items<VType>, Memory> {
    let mut types = Items::new(alloc);
    for _ in 0..count {
        types.push(VType::Integer)?;
    }
    Ok(types)
}

fn int_locals(alloc: Global, count: usize) -> Result<SharedList<VType>, Memory> {
    let mut types = SharedList::new(alloc)?;
    for _ in 0..count {
        types.push(alloc, VType::Integer)?;
    }
    Ok(types)
}

fn stack_types(alloc: Global, stack: Lying) -> Result<Items<VType>, Memory> {
    match stack {
        Lying::Ints(count) => int_types(alloc, count),
        Lying::Thrown => {
            let mut types = Items::new(alloc);
            types.push(VType::Object(Text::from_str(alloc, "java/lang/Throwable")?))?;
            Ok(types)
        }
    }
}

fn frames_of(alloc: Global, given: &[Given]) -> Result<Frames, Memory> {
    let mut frames = Frames::new(alloc);
    for frame in given {
        frames.push(
            alloc,
            Frame {
                at: frame.at,
                locals: int_locals(alloc, frame.locals)?,
                stack: stack_types(alloc, frame.stack)?,
                unset: false,
            },
        )?;
    }
    Ok(frames)
}

fn code_of(alloc: Global, code: &[Instr]) -> Result<Items<Instr>, Memory> {
    let mut items = Items::new(alloc);
    for instr in code {
        items.push(*instr)?;
    }
    Ok(items)
}

fn handlers_of(alloc: Global, handlers: &[Handler]) -> Result<Items<Handler>, Memory> {
    let mut items = Items::new(alloc);
    for handler in handlers {
        items.push(*handler)?;
    }
    Ok(items)
}

fn method_of(alloc: Global, row: &Sample) -> Result<Method, Memory> {
    Ok(Method {
        flags: row.flags,
        name: Text::from_str(alloc, row.name)?,
        descriptor: Text::from_str(alloc, row.descriptor)?,
        max_stack: row.sizes.0,
        max_locals: row.sizes.1,
        code: code_of(alloc, row.code)?,
        handlers: handlers_of(alloc, row.handlers)?,
        frames: frames_of(alloc, row.frames)?,
        code_others: Items::new(alloc),
        others: Items::new(alloc),
    })
}

fn add(pool: &mut Pool, entry: Entry) -> Result<(), Memory> {
    match pool.index(entry) {
        Ok(_) => Ok(()),
        Err(_) => Err(Memory),
    }
}

// A text at 2, an Int at 3, a Long at 4, and `Console.write` at 11.
fn pool_of(alloc: Global) -> Result<Pool, Memory> {
    let mut pool = Pool::new(alloc);
    add(&mut pool, Entry::Utf8(Text::from_str(alloc, "text")?))?;
    add(&mut pool, Entry::Str(1))?;
    add(&mut pool, Entry::Integer(70_000))?;
    add(&mut pool, Entry::Long(7))?;
    add(
        &mut pool,
        Entry::Utf8(Text::from_str(alloc, "kprof/rt/Console")?),
    )?;
    add(&mut pool, Entry::Class(6))?;
    add(&mut pool, Entry::Utf8(Text::from_str(alloc, "write")?))?;
    add(
        &mut pool,
        Entry::Utf8(Text::from_str(alloc, "(Ljava/lang/String;)V")?),
    )?;
    add(&mut pool, Entry::NameAndType(8, 9))?;
    add(&mut pool, Entry::MethodRef(7, 10))?;
    Ok(pool)
}

fn class_of(alloc: Global, rows: &[Sample]) -> Result<ClassFile, Memory> {
    let mut methods = Items::new(alloc);
    for row in rows {
        methods.push(method_of(alloc, row)?)?;
    }
    Ok(ClassFile {
        pool: pool_of(alloc)?,
        flags: 0x0021,
        this_name: Text::from_str(alloc, "M")?,
        super_name: Text::from_str(alloc, "java/lang/Object")?,
        interfaces: Items::new(alloc),
        fields: Items::new(alloc),
        methods,
        others: Items::new(alloc),
    })
}

fn set_of(alloc: Global, classes: &[&[Sample]]) -> Result<Set, Memory> {
    let mut files = Items::new(alloc);
    for rows in classes {
        files.push(class_of(alloc, rows)?)?;
    }
    Ok(Set {
        classes: files,
        main: Text::from_str(alloc, "M")?,
    })
}

// Is this the answer for these classes?
fn answers(
    alloc: Global,
    classes: &[&[Sample]],
    fault: Option<VerifyFault>,
) -> Result<bool, Memory> {
    let set = set_of(alloc, classes)?;
    if !is_first_lot(&set) {
        return Ok(false);
    }
    match verify(alloc, &set) {
        Ok(_) => Ok(fault.is_none()),
        Err(Fail::Found(found)) => Ok(fault == Some(found)),
        Err(Fail::Memory) => Err(Memory),
    }
}

// Is the row's fault told of a class with its method alone?
fn is_told(alloc: Global, row: &Sample) -> Result<bool, Memory> {
    let fault = match row.fault {
        None => None,
        Some((at, code)) => Some(VerifyFault {
            class: 0,
            method: 0,
            at,
            code,
        }),
    };
    answers(alloc, &[&[*row]], fault)
}

fn are_taken(alloc: Global, row: &Right) -> Result<bool, Memory> {
    for instr in row.each {
        let mut code = Vec::from_slice(alloc, row.before)?;
        code.push(*instr)?;
        code.extend_from_slice(row.after)?;
        let given = Given {
            at: row.frame.unwrap_or(0),
            locals: 0,
            stack: Lying::Ints(0),
        };
        let sample = Sample {
            name: "f",
            descriptor: row.descriptor,
            flags: 9,
            sizes: (6, 6),
            code: &code,
            handlers: &[],
            frames: &[given],
            fault: None,
        };
        if !is_told(alloc, &sample)? {
            return Ok(false);
        }
    }
    Ok(true)
}

// A static method without parameters and result.
fn plain<'a>(
    code: &'a [Instr],
    frames: &'a [Given],
    fault: Option<(usize, VerifyCode)>,
) -> Sample<'a> {
    case("f", "()V", 9, code, &[], frames, fault)
}

fn case<'a>(
    name: &'a str,
    descriptor: &'a str,
    flags: u16,
    code: &'a [Instr],
    handlers: &'a [Handler],
    frames: &'a [Given],
    fault: Option<(usize, VerifyCode)>,
) -> Sample<'a> {
    Sample {
        name,
        descriptor,
        flags,
        sizes: (4, 2),
        code,
        handlers,
        frames,
        fault,
    }
}

#[test]
fn tells_the_first_fault(rt: HostRuntime) -> Result<(), Failed> {
    let at_three = [Given {
        at: 3,
        locals: 0,
        stack: Lying::Ints(0),
    }];
    let at_four = [Given {
        at: 4,
        locals: 0,
        stack: Lying::Ints(0),
    }];
    let at_none = [Given {
        at: 0,
        locals: 0,
        stack: Lying::Ints(0),
    }];
    let at_two = [Given {
        at: 2,
        locals: 1,
        stack: Lying::Ints(0),
    }];
    let caught = [Given {
        at: 3,
        locals: 0,
        stack: Lying::Thrown,
    }];
    let caught_with_int = [Given {
        at: 3,
        locals: 1,
        stack: Lying::Thrown,
    }];
    let first_two = [Handler {
        start: 0,
        end: 2,
        at: 3,
        catch_type: 0,
    }];
    let catches = [
        Instr::Iconst0,
        Instr::Istore0,
        Instr::Return,
        Instr::Pop,
        Instr::Return,
    ];
    let empty_range = [Handler {
        start: 0,
        end: 0,
        at: 0,
        catch_type: 0,
    }];
    let table = [
        plain(&[Instr::Return], &[], None),
        plain(&[Instr::Goto(3), Instr::Return], &at_three, None),
        plain(
            &[Instr::Goto(3), Instr::Return],
            &[],
            Some((3, VerifyCode::MissingFrame)),
        ),
        plain(
            &[Instr::Iconst0, Instr::Goto(3), Instr::Return],
            &at_four,
            Some((1, VerifyCode::WrongFrame)),
        ),
        plain(
            &[Instr::Iload(5), Instr::Pop, Instr::Return],
            &[],
            Some((0, VerifyCode::LocalRange)),
        ),
        plain(
            &[Instr::Pop, Instr::Return],
            &[],
            Some((0, VerifyCode::StackUnderflow)),
        ),
        plain(
            &[
                Instr::Lconst0,
                Instr::Lconst0,
                Instr::Iconst0,
                Instr::Return,
            ],
            &[],
            Some((2, VerifyCode::StackOverflow)),
        ),
        plain(
            &[Instr::AconstNull, Instr::Ineg, Instr::Pop, Instr::Return],
            &[],
            Some((1, VerifyCode::WrongType)),
        ),
        plain(
            &[
                Instr::Lconst0,
                Instr::Lstore0,
                Instr::Iload1,
                Instr::Pop,
                Instr::Return,
            ],
            &[],
            Some((2, VerifyCode::WrongType)),
        ),
        plain(
            &[Instr::Iconst0, Instr::Ireturn],
            &[],
            Some((1, VerifyCode::ReturnType)),
        ),
        plain(
            &[Instr::Goto(1), Instr::Return],
            &[],
            Some((0, VerifyCode::BadTarget)),
        ),
        plain(&[Instr::Iconst0], &[], Some((0, VerifyCode::FallsOff))),
        plain(
            &[
                Instr::Iconst0,
                Instr::Istore0,
                Instr::Iload0,
                Instr::Ifne(-1),
                Instr::Return,
            ],
            &at_two,
            None,
        ),
        case(
            "f",
            "()I",
            9,
            &[Instr::Iconst0, Instr::Ireturn],
            &[],
            &[],
            None,
        ),
        case(
            "<init>",
            "()V",
            1,
            &[Instr::Return],
            &[],
            &[],
            Some((0, VerifyCode::Uninitialised)),
        ),
        case(
            "f",
            "()V",
            9,
            &[Instr::Return],
            &empty_range,
            &at_none,
            Some((0, VerifyCode::BadHandler)),
        ),
        case("f", "()V", 9, &catches, &first_two, &caught, None),
        case(
            "f",
            "()V",
            9,
            &catches,
            &first_two,
            &caught_with_int,
            Some((0, VerifyCode::BadHandler)),
        ),
    ];
    for (n, row) in table.iter().enumerate() {
        assert_eq!(rt; is_told(rt.alloc(), row)?, true, "of row {n}");
    }
    Ok(())
}

// Two rows, one within the other: the inner one's handler wants an Int, which is there before the instructions at 2 and 3 alone.
#[test]
fn tells_nested_rows(rt: HostRuntime) -> Result<(), Failed> {
    let code = [
        Instr::Iconst0,
        Instr::Istore0,
        Instr::Lconst0,
        Instr::Lstore0,
        Instr::Return,
        Instr::Pop,
        Instr::Return,
        Instr::Pop,
        Instr::Return,
    ];
    let frames = [
        Given {
            at: 5,
            locals: 1,
            stack: Lying::Thrown,
        },
        Given {
            at: 7,
            locals: 0,
            stack: Lying::Thrown,
        },
    ];
    let outer = Handler {
        start: 0,
        end: 5,
        at: 7,
        catch_type: 0,
    };
    let table = [
        (2, 4, None),
        (3, 4, None),
        (1, 4, Some((1, VerifyCode::BadHandler))),
        (2, 5, Some((4, VerifyCode::BadHandler))),
    ];
    for (n, (start, end, fault)) in table.iter().enumerate() {
        let inner = Handler {
            start: *start,
            end: *end,
            at: 5,
            catch_type: 0,
        };
        let inner_first = [inner, outer];
        let outer_first = [outer, inner];
        let first = case("f", "()V", 9, &code, &inner_first, &frames, *fault);
        let last = case("f", "()V", 9, &code, &outer_first, &frames, *fault);
        assert_eq!(rt;
            is_told(rt.alloc(), &first)?,
            true,
            "of row {n}, the inner one first"
        );
        assert_eq!(rt;
            is_told(rt.alloc(), &last)?,
            true,
            "of row {n}, the inner one last"
        );
    }
    Ok(())
}

// Two frames in a row, so many Ints long: what one leaves out is unset there, whether it was stored or given before.
#[test]
fn unsets_what_frames_leave_out(rt: HostRuntime) -> Result<(), Failed> {
    let table = [
        (2, 2, Instr::Iload1, None),
        (1, 2, Instr::Iload1, None),
        (1, 1, Instr::Iload0, None),
        (0, 1, Instr::Iload0, Some((5, VerifyCode::WrongFrame))),
        (1, 1, Instr::Iload1, Some((6, VerifyCode::WrongType))),
        (2, 1, Instr::Iload1, Some((6, VerifyCode::WrongType))),
        (2, 0, Instr::Iload0, Some((6, VerifyCode::WrongType))),
    ];
    for (n, (first, second, load, fault)) in table.iter().enumerate() {
        let code = [
            Instr::Iconst0,
            Instr::Istore0,
            Instr::Iconst0,
            Instr::Istore1,
            Instr::Iconst0,
            Instr::Istore1,
            *load,
            Instr::Pop,
            Instr::Return,
        ];
        let frames = [
            Given {
                at: 4,
                locals: *first,
                stack: Lying::Ints(0),
            },
            Given {
                at: 6,
                locals: *second,
                stack: Lying::Ints(0),
            },
        ];
        let told = is_told(rt.alloc(), &plain(&code, &frames, *fault))?;
        assert_eq!(rt; told, true, "of row {n}");
    }
    Ok(())
}

#[test]
fn tells_class_and_method(rt: HostRuntime) -> Result<(), Failed> {
    let right = plain(&[Instr::Return], &[], None);
    let wrong = plain(
        &[Instr::Iconst0, Instr::Pop, Instr::Pop, Instr::Return],
        &[],
        None,
    );
    let fault = VerifyFault {
        class: 1,
        method: 2,
        at: 2,
        code: VerifyCode::StackUnderflow,
    };
    assert!(rt;
        answers(
            rt.alloc(),
            &[&[wrong, right]],
            Some(VerifyFault {
                class: 0,
                method: 0,
                ..fault
            })
        )?
    );
    assert!(rt;
        answers(
            rt.alloc(),
            &[&[right], &[right, right, wrong, wrong]],
            Some(fault)
        )?
    );
    Ok(())
}

#[test]
fn takes_each_instruction(rt: HostRuntime) -> Result<(), Failed> {
    let plain = Right {
        descriptor: "()V",
        before: &[],
        each: &[],
        after: &[Instr::Return],
        frame: None,
    };
    let table = [
        Right {
            each: &[
                Instr::AconstNull,
                Instr::IconstM1,
                Instr::Iconst0,
                Instr::Iconst1,
                Instr::Iconst2,
                Instr::Iconst3,
                Instr::Iconst4,
                Instr::Iconst5,
                Instr::Bipush(-1),
                Instr::Sipush(300),
                Instr::Ldc(2),
                Instr::LdcW(3),
            ],
            after: &[Instr::Pop, Instr::Return],
            ..plain
        },
        Right {
            each: &[Instr::Lconst0, Instr::Lconst1, Instr::Ldc2W(4)],
            after: &[Instr::Pop2, Instr::Return],
            ..plain
        },
        Right {
            before: &[Instr::Iconst0],
            each: &[
                Instr::Pop,
                Instr::Istore(4),
                Instr::WideIstore(5),
                Instr::Istore0,
                Instr::Istore1,
                Instr::Istore2,
                Instr::Istore3,
            ],
            ..plain
        },
        Right {
            before: &[Instr::Lconst0],
            each: &[
                Instr::Pop2,
                Instr::Lstore(4),
                Instr::WideLstore(4),
                Instr::Lstore0,
                Instr::Lstore1,
                Instr::Lstore2,
                Instr::Lstore3,
            ],
            ..plain
        },
        Right {
            before: &[Instr::AconstNull],
            each: &[
                Instr::Astore(4),
                Instr::WideAstore(5),
                Instr::Astore0,
                Instr::Astore1,
                Instr::Astore2,
                Instr::Astore3,
            ],
            ..plain
        },
        Right {
            before: &[
                Instr::Iconst0,
                Instr::Istore0,
                Instr::Iconst0,
                Instr::Istore1,
                Instr::Iconst0,
                Instr::Istore2,
                Instr::Iconst0,
                Instr::Istore3,
            ],
            each: &[
                Instr::Iload(3),
                Instr::WideIload(2),
                Instr::Iload0,
                Instr::Iload1,
                Instr::Iload2,
                Instr::Iload3,
            ],
            after: &[Instr::Pop, Instr::Return],
            ..plain
        },
        Right {
            before: &[
                Instr::Lconst0,
                Instr::Lstore0,
                Instr::Lconst0,
                Instr::Lstore2,
            ],
            each: &[
                Instr::Lload(2),
                Instr::WideLload(0),
                Instr::Lload0,
                Instr::Lload2,
            ],
            after: &[Instr::Pop2, Instr::Return],
            ..plain
        },
        Right {
            before: &[
                Instr::Lconst0,
                Instr::Lstore1,
                Instr::Lconst0,
                Instr::Lstore3,
            ],
            each: &[Instr::Lload1, Instr::Lload3],
            after: &[Instr::Pop2, Instr::Return],
            ..plain
        },
        Right {
            before: &[
                Instr::AconstNull,
                Instr::Astore0,
                Instr::AconstNull,
                Instr::Astore1,
                Instr::AconstNull,
                Instr::Astore2,
                Instr::AconstNull,
                Instr::Astore3,
            ],
            each: &[
                Instr::Aload(3),
                Instr::WideAload(2),
                Instr::Aload0,
                Instr::Aload1,
                Instr::Aload2,
                Instr::Aload3,
            ],
            after: &[Instr::Pop, Instr::Return],
            ..plain
        },
        Right {
            before: &[Instr::Iconst0],
            each: &[Instr::Dup],
            after: &[Instr::Pop2, Instr::Return],
            ..plain
        },
        Right {
            before: &[Instr::Iconst1, Instr::Iconst1],
            each: &[
                Instr::Iadd,
                Instr::Isub,
                Instr::Imul,
                Instr::Idiv,
                Instr::Irem,
                Instr::Ishl,
                Instr::Ishr,
                Instr::Iushr,
                Instr::Iand,
                Instr::Ior,
                Instr::Ixor,
            ],
            after: &[Instr::Pop, Instr::Return],
            ..plain
        },
        Right {
            before: &[Instr::Lconst1, Instr::Lconst1],
            each: &[
                Instr::Ladd,
                Instr::Lsub,
                Instr::Lmul,
                Instr::Ldiv,
                Instr::Lrem,
                Instr::Land,
                Instr::Lor,
                Instr::Lxor,
            ],
            after: &[Instr::Pop2, Instr::Return],
            ..plain
        },
        Right {
            before: &[Instr::Lconst1, Instr::Iconst1],
            each: &[Instr::Lshl, Instr::Lshr, Instr::Lushr],
            after: &[Instr::Pop2, Instr::Return],
            ..plain
        },
        Right {
            before: &[Instr::Iconst1],
            each: &[Instr::Ineg, Instr::I2c],
            after: &[Instr::Pop, Instr::Return],
            ..plain
        },
        Right {
            before: &[Instr::Lconst1],
            each: &[Instr::Lneg],
            after: &[Instr::Pop2, Instr::Return],
            ..plain
        },
        Right {
            before: &[Instr::Iconst1],
            each: &[Instr::I2l],
            after: &[Instr::Pop2, Instr::Return],
            ..plain
        },
        Right {
            before: &[Instr::Lconst1],
            each: &[Instr::L2i],
            after: &[Instr::Pop, Instr::Return],
            ..plain
        },
        Right {
            before: &[Instr::Lconst1, Instr::Lconst1],
            each: &[Instr::Lcmp],
            after: &[Instr::Pop, Instr::Return],
            ..plain
        },
        Right {
            before: &[Instr::Iconst1],
            each: &[
                Instr::Ifeq(3),
                Instr::Ifne(3),
                Instr::Iflt(3),
                Instr::Ifge(3),
                Instr::Ifgt(3),
                Instr::Ifle(3),
            ],
            frame: Some(4),
            ..plain
        },
        Right {
            before: &[Instr::Iconst1, Instr::Iconst1],
            each: &[
                Instr::IfIcmpeq(3),
                Instr::IfIcmpne(3),
                Instr::IfIcmplt(3),
                Instr::IfIcmpge(3),
                Instr::IfIcmpgt(3),
                Instr::IfIcmple(3),
            ],
            frame: Some(5),
            ..plain
        },
        Right {
            before: &[Instr::AconstNull, Instr::AconstNull],
            each: &[Instr::IfAcmpeq(3), Instr::IfAcmpne(3)],
            frame: Some(5),
            ..plain
        },
        Right {
            before: &[Instr::AconstNull],
            each: &[Instr::Ifnull(3), Instr::Ifnonnull(3)],
            frame: Some(4),
            ..plain
        },
        Right {
            each: &[Instr::Goto(3)],
            frame: Some(3),
            ..plain
        },
        Right {
            before: &[Instr::Ldc(2)],
            each: &[Instr::Invokestatic(11)],
            ..plain
        },
        Right {
            each: &[Instr::Return],
            after: &[],
            ..plain
        },
        Right {
            descriptor: "()I",
            before: &[Instr::Iconst1],
            each: &[Instr::Ireturn],
            after: &[],
            frame: None,
        },
        Right {
            descriptor: "()J",
            before: &[Instr::Lconst1],
            each: &[Instr::Lreturn],
            after: &[],
            frame: None,
        },
        Right {
            descriptor: "()Ljava/lang/String;",
            before: &[Instr::AconstNull],
            each: &[Instr::Areturn],
            after: &[],
            frame: None,
        },
    ];
    for (n, row) in table.iter().enumerate() {
        assert_eq!(rt; are_taken(rt.alloc(), row)?, true, "of row {n}");
    }
    Ok(())
}
