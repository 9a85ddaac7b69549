//! The class files of a program.

ghost use Rattle.std.specs.Prelude.{◌≡◌, ◌∷◌, [], IfOk, codes};
ghost use Rattle.stack_code.specs.Agrees.{IsOwnName};
ghost use Rattle.form_elaboration.specs.Laws.{HasMain};
ghost use Rattle.kc_cli.specs.Compiled.{Compiles, HasShortCode, MainIsSmall};

use class_file::class::{ClassFile, Method, Set};
use class_file::pool::Pool;
use kc_core::tree::Program;
use kc_text::{Fail, Memory, Text};
use sqlite_items::Items;
use stack_code::method::emit_function;
use std::alloc::Global;

// ACC_PUBLIC and ACC_SUPER (JVM Specification SE 8, 4.1).
const PUBLIC_SUPER: u16 = 0x0021;

// A list of one thing.
fn alone<T: Drop>(alloc: Global, item: T) -> Result<Items<T>, Memory>
    ensures { IfOk result (λ items. items ≡ item ∷ []) }
{
    let mut items = Items::new(alloc);
    items.push(item)?;
    Ok(items)
}

// A public class with one method.
fn class_of(alloc: Global, name: Text, pool: Pool, method: Method) -> Result<ClassFile, Memory>
    ensures name { IfOk result (λ c. c.this_name ≡ name) }
    ensures pool { IfOk result (λ c. c.pool ≡ pool) }
    ensures above { IfOk result (λ c. c.super_name ≡ codes "java/lang/Object") }
    ensures methods { IfOk result (λ c. c.methods ≡ method ∷ []) }
{
    Ok(ClassFile {
        pool,
        flags: PUBLIC_SUPER,
        this_name: name,
        super_name: Text::from_str(alloc, "java/lang/Object")?,
        interfaces: Items::new(alloc),
        fields: Items::new(alloc),
        methods: alone(alloc, method)?,
        others: Items::new(alloc),
    })
}

/// The class of this name, with the program's `main` as its one method, as a set of its own. `main` must be small, so that it is
/// not too large for a class file.
pub fn compile(alloc: Global, program: &Program, name: Text) -> Result<Set, Memory>
    requires main { HasMain program.now }
    requires small { MainIsSmall program.now }
    requires own { IsOwnName name }
    ensures compiled { IfOk result (λ set. Compiles set program.now 0) }
    ensures named { IfOk result (λ set. set.main ≡ name) }
    ensures short { IfOk result (λ set. HasShortCode set) }
{
    let functions = program.functions.as_slice();
    let mut pool = Pool::new(alloc);
    let method = match emit_function(alloc, &mut pool, &functions[0]) {
        Ok(method) => method,
        Err(Fail::Memory) => return Err(Memory),
        // `main` is small.
        Err(Fail::Found(_)) => unreachable!(),
    };
    let main = name.copy(alloc)?;
    let class = class_of(alloc, name, pool, method)?;
    let classes = alone(alloc, class)?;
    Ok(Set { classes, main })
}
