ghost use Rattle.std.specs.Prelude.{◌≡◌, ◌++◌, IfOk, OnOk, true};
ghost use Rattle.class_file.specs.Indexing.{added};
ghost use Rattle.class_writer.specs.Examples.{is_new, main_pool, main_method, main_class};

use super::*;
use class_file::class::{ClassFile, Method};
use class_file::frames::Frames;
use class_file::instr::Instr;
use class_file::pool::{Entry, Pool, PoolFull};
use kc_text::{Fail, Memory, Text};
use sqlite_items::Items;
use std::alloc::Global;
use std::test::Fail as Failed;

fn add(pool: &mut Pool, entry: Entry) -> Result<(), Fail<PoolFull>>
    requires { is_new pool.old entry ≡ true }
    ensures { OnOk result (pool.new ≡ pool.old ++ added entry) }
{
    let _ = pool.index(entry)?;
    Ok(())
}

fn pool(alloc: Global) -> Result<Pool, Fail<PoolFull>>
    ensures { IfOk result (λ pool. pool ≡ main_pool) }
{
    let mut pool = Pool::new(alloc);
    add(&mut pool, Entry::Class(2))?;
    add(&mut pool, Entry::Utf8(Text::from_str(alloc, "M")?))?;
    add(&mut pool, Entry::Class(4))?;
    add(
        &mut pool,
        Entry::Utf8(Text::from_str(alloc, "java/lang/Object")?),
    )?;
    add(&mut pool, Entry::Utf8(Text::from_str(alloc, "main")?))?;
    add(&mut pool, Entry::Utf8(Text::from_str(alloc, "()V")?))?;
    add(&mut pool, Entry::Utf8(Text::from_str(alloc, "Code")?))?;
    Ok(pool)
}

fn method(alloc: Global) -> Result<Method, Memory>
    ensures { IfOk result (λ method. method ≡ main_method) }
{
    let mut code = Items::new(alloc);
    code.push(Instr::Return)?;
    Ok(Method {
        flags: 9,
        name: Text::from_str(alloc, "main")?,
        descriptor: Text::from_str(alloc, "()V")?,
        max_stack: 0,
        max_locals: 0,
        code,
        handlers: Items::new(alloc),
        frames: Frames::new(alloc),
        code_others: Items::new(alloc),
        others: Items::new(alloc),
    })
}

fn class(alloc: Global) -> Result<ClassFile, Fail<PoolFull>>
    ensures { IfOk result (λ class. class ≡ main_class) }
{
    let pool = pool(alloc)?;
    let this_name = Text::from_str(alloc, "M")?;
    let super_name = Text::from_str(alloc, "java/lang/Object")?;
    let mut methods = Items::new(alloc);
    methods.push(method(alloc)?)?;
    Ok(ClassFile {
        pool,
        flags: 0x601,
        this_name,
        super_name,
        interfaces: Items::new(alloc),
        fields: Items::new(alloc),
        methods,
        others: Items::new(alloc),
    })
}

// The bytes that javac 17 writes for the class `public interface M { static void main() {} }` of Java 8, without debugging
// information.
const BYTES: [u8; 100] = [
    0xCA, 0xFE, 0xBA, 0xBE, 0, 0, 0, 52, 0, 8, 7, 0, 2, 1, 0, 1, 77, 7, 0, 4, 1, 0, 16, 106, 97,
    118, 97, 47, 108, 97, 110, 103, 47, 79, 98, 106, 101, 99, 116, 1, 0, 4, 109, 97, 105, 110, 1,
    0, 3, 40, 41, 86, 1, 0, 4, 67, 111, 100, 101, 6, 1, 0, 1, 0, 3, 0, 0, 0, 0, 0, 1, 0, 9, 0, 5,
    0, 6, 0, 1, 0, 7, 0, 0, 0, 13, 0, 0, 0, 0, 0, 0, 0, 1, 0xB1, 0, 0, 0, 0, 0, 0,
];

#[test]
fn writes_a_class(rt: HostRuntime) -> Result<(), Failed> {
    let class = class(rt.alloc())?;
    let bytes = write_class(rt.alloc(), &class)?;
    assert_eq!(rt; bytes.as_slice(), BYTES.as_slice());
    Ok(())
}
