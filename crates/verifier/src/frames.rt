// The frames of a method.
ghost use Rattle.std.specs.Prelude.{◌≡◌, ◌++◌, ◌∷◌, ◌-◌, [], map, reverse, replicate, OnOk, IfOk};
ghost use Rattle.class_file.specs.declared.class.VType.TheVariants as vtype;
ghost use Rattle.class_file.specs.Members.{described};
ghost use Rattle.class_file.specs.Verification.{spread, padded, is_static, is_constructor, receiver_types, first_types};
ghost use Rattle.verifier_types.specs.Seen.{type_of};
ghost use Rattle.verifier_types.specs.Frames.{shown};
ghost use Rattle.verifier_types.specs.Calls.{call_seen};

use class_file::class::{ClassFile, Method, VType};
use kc_text::Memory;
use std::alloc::Global;
use verifier_types::{Call, Known, Locals, Stack, VerificationType, is_init};

// A Long takes two places.
fn push_local<'a>(locals: &mut Locals<'a>, t: VerificationType<'a>) -> Result<(), Memory>
    ensures { OnOk result (locals.new ≡ locals.old ++ spread (type_of t.entry ∷ [])) }
{
    locals.push(t)?;
    if let VerificationType::Long = t {
        locals.push(VerificationType::Top)?;
    }
    Ok(())
}

fn push_params<'a>(locals: &mut Locals<'a>, types: &[VerificationType<'a>]) -> Result<(), Memory>
    ensures { OnOk result (locals.new ≡ locals.old ++ spread (map type_of types.now)) }
{
    for t in types {
        push_local(locals, *t)?;
    }
    Ok(())
}

fn pad(locals: &mut Locals, max: usize) -> Result<(), Memory>
    ensures { OnOk result (locals.new ≡ padded max locals.old) }
{
    let missing = max.saturating_sub(locals.len());
    for _ in 0..missing {
        locals.push(VerificationType::Top)?;
    }
    Ok(())
}

/// So many local variables that hold nothing.
pub fn blank<'a>(alloc: Global, max: usize) -> Result<Locals<'a>, Memory>
    ensures { IfOk result (λ locals. locals ≡ replicate max vtype.Top) }
{
    let mut locals = Locals::new(alloc);
    pad(&mut locals, max)?;
    Ok(locals)
}

/// The stack of a given frame, whose top stands last.
pub fn given_stack<'a>(alloc: Global, types: &'a [VType]) -> Result<Stack<'a>, Memory>
    ensures { IfOk result (λ stack. stack ≡ reverse types.now) }
{
    let mut stack = Stack::new(alloc);
    for t in types {
        stack.push(VerificationType::given(t))?;
    }
    Ok(stack)
}

fn is_static(method: &Method) -> bool
    ensures { result ≡ is_static method.now }
{
    method.flags & 8 == 8
}

fn is_constructor(method: &Method) -> bool
    ensures { result ≡ is_constructor method.now }
{
    is_init(method.name.units()) && !is_static(method)
}

fn push_receiver<'a>(
    locals: &mut Locals<'a>,
    class: &'a ClassFile,
    method: &Method,
) -> Result<(), Memory>
    ensures { OnOk result (locals.new ≡ locals.old ++ receiver_types class.now method.now) }
{
    if is_static(method) {
        return Ok(());
    }
    if is_constructor(method) {
        locals.push(VerificationType::UninitializedThis)?;
        return Ok(());
    }
    locals.push(VerificationType::Object(class.this_name.units()))?;
    Ok(())
}

/// The types that a method starts with; `call` is what its descriptor says.
pub fn first_types<'a>(
    alloc: Global,
    class: &'a ClassFile,
    method: &Method,
    call: &Call<'a>,
) -> Result<Known<'a>, Memory>
    requires { call_seen call.now ≡ described method.now.descriptor }
    ensures { IfOk result (λ known. shown known ≡ first_types class.now method.now) }
{
    let mut locals = Locals::new(alloc);
    push_receiver(&mut locals, class, method)?;
    push_params(&mut locals, &call.params)?;
    pad(&mut locals, method.max_locals as usize)?;
    Ok(Known {
        locals,
        stack: Stack::new(alloc),
        unset: is_constructor(method),
    })
}
