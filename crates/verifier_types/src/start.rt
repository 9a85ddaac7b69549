//! The types of the local variables that a method starts with.
ghost use Rattle.std.specs.Prelude.{◌≡◌, ◌++◌, OnOk, IfOk, map, codes};
ghost use Rattle.class_file.specs.Pools.{is_text};
ghost use Rattle.class_file.specs.Classes.{is_static_flag};
ghost use Rattle.class_file.specs.ClassBytes.{receiver};
ghost use Rattle.class_file.specs.Members.{described};
ghost use Rattle.verifier_types.specs.Seen.{type_of};

use crate::calls::described;
use crate::types::VerificationType;
use class_file::class::VType;
use kc_text::{Memory, Text};
use shared_list::SharedList;
use std::alloc::Global;

static INIT: [u16; 6] = [60, 105, 110, 105, 116, 62];

const STATIC: u16 = 8;

/// Is it the name of constructors?
pub fn is_init(name: &[u16]) -> bool
    ensures { result ≡ is_text name.now (codes "<init>") }
{
    name == INIT.as_slice()
}

/// Do the flags have ACC_STATIC (Java Virtual Machine Specification SE 8, 4.6)?
pub fn is_static(flags: u16) -> bool
    ensures { result ≡ is_static_flag flags }
{
    flags & STATIC != 0
}

fn push_receiver(
    alloc: Global,
    locals: &mut SharedList<VType>,
    this: &Text,
    flags: u16,
    name: &Text,
) -> Result<(), Memory>
    ensures { OnOk result (locals.new ≡ locals.old ++ receiver this.now flags name.now) }
{
    if is_static(flags) {
        return Ok(());
    }
    if is_init(name.units()) {
        locals.push(alloc, VType::UninitializedThis)?;
        return Ok(());
    }
    locals.push(alloc, VType::Object(this.copy(alloc)?))?;
    Ok(())
}

fn owned(alloc: Global, seen: VerificationType) -> Result<VType, Memory>
    ensures { IfOk result (λ kept. kept ≡ type_of seen.entry) }
{
    match seen {
        VerificationType::Top => Ok(VType::Top),
        VerificationType::Integer => Ok(VType::Integer),
        VerificationType::Long => Ok(VType::Long),
        VerificationType::Null => Ok(VType::Null),
        VerificationType::UninitializedThis => Ok(VType::UninitializedThis),
        VerificationType::Object(name) => {
            let units = Vec::from_slice(alloc, name)?;
            Ok(VType::Object(Text::from_units(alloc, units)?))
        }
        VerificationType::Uninitialized(at) => Ok(VType::Uninitialized(at)),
    }
}

fn push_types(
    alloc: Global,
    locals: &mut SharedList<VType>,
    types: &[VerificationType],
) -> Result<(), Memory>
    ensures { OnOk result (locals.new ≡ locals.old ++ map type_of types.now) }
{
    for seen in types {
        locals.push(alloc, owned(alloc, *seen)?)?;
    }
    Ok(())
}

/// The types of the local variables that a method of this class starts with: its object, unless it is static, and its parameters. A
/// `Long` is one.
pub fn start_locals(
    alloc: Global,
    this: &Text,
    flags: u16,
    name: &Text,
    descriptor: &Text,
) -> Result<SharedList<VType>, Memory>
    ensures { IfOk result (λ locals. locals ≡ receiver this.now flags name.now ++ (described descriptor.now).params) }
{
    let mut locals = SharedList::new(alloc)?;
    push_receiver(alloc, &mut locals, this, flags, name)?;
    let call = described(alloc, descriptor)?;
    push_types(alloc, &mut locals, &call.params)?;
    Ok(locals)
}
