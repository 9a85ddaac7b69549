//! Sets that verify.
ghost use Rattle.std.specs.Prelude.{◌≡◌, ◌+◌, ◌<◌, ◌^◌, All, length, IfOk, Some, None};
ghost use Rattle.kc_text.specs.Fail.{IfFound};
ghost use Rattle.class_file.specs.Verification.{Verifies, first_fault, methods_fault, classes_fault};
ghost use Rattle.verifier.specs.Answers.{InLot, IsOfFirstLot, IsCounted};

use crate::scan::method_fault;
use class_file::class::{ClassFile, Set};
use class_file::verify_code::VerifyFault;
use kc_text::{Fail, Memory};
use std::alloc::Global;
use std::marker::Model;
use verifier_types::NamedSet;

/// A set of class files that verifies (Java Virtual Machine Specification SE 8, 4.10.1).
#[derive(Drop)]
pub struct Verified<'a> {
    set: &'a Set,
}

impl<'a> Model for Verified<'a> {
    ghost use Rattle.class_file.specs.declared.class.Set.{Set as SetValue};
    ghost use Rattle.class_file.specs.Verification.{Verifies};

    ghost Value = { SetValue };

    ghost view = { λ v. v.set.now };

    ghost invariant = { λ v. Verifies v.set.now };
}

impl<'a> Verified<'a> {
    /// The set.
    pub fn set(&self) -> &'a Set
        ensures same { result.now ≡ self.now }
        ensures verifies { Verifies self.now }
    {
        self.set
    }
}

fn methods_fault(
    alloc: Global,
    set: &NamedSet,
    number: usize,
    class: &ClassFile,
) -> Result<Option<VerifyFault>, Memory>
    requires codes { All (λ m. length m.code < 2 ^ 28) class.now.methods }
    requires lot { All (λ m. All InLot m.code) class.now.methods }
    ensures { IfOk result (λ fault. fault ≡ methods_fault set.now number class.now 0 class.now.methods) }
{
    let methods = class.methods.as_slice();
    for (n, method) in methods.iter().enumerate() {
        if let Some(place) = method_fault(alloc, set, class, method)? {
            return Ok(Some(VerifyFault {
                class: number,
                method: n,
                at: place.at,
                code: place.code,
            }));
        }
    }
    Ok(None)
}

#[tactic(auto, unfolding(class_file::specs::Verification::first_fault))]
fn named_fault(alloc: Global, set: &NamedSet) -> Result<Option<VerifyFault>, Memory>
    requires codes { IsCounted set.now }
    requires lot { IsOfFirstLot set.now }
    ensures { IfOk result (λ fault. fault ≡ first_fault set.now) }
{
    let classes = set.as_set().classes.as_slice();
    for (n, class) in classes.iter().enumerate() {
        if let Some(fault) = methods_fault(alloc, set, n, class)? {
            return Ok(Some(fault));
        }
    }
    Ok(None)
}

fn set_fault(alloc: Global, set: &Set) -> Result<Option<VerifyFault>, Memory>
    requires codes { IsCounted set.now }
    requires lot { IsOfFirstLot set.now }
    ensures { IfOk result (λ fault. fault ≡ first_fault set.now) }
{
    let named = NamedSet::new(alloc, set)?;
    named_fault(alloc, &named)
}

/// A set of class files whose instructions are of the first lot: verified where it verifies, and else its first fault, in the order
/// of classes, methods and code.
pub fn verify<'a>(alloc: Global, set: &'a Set) -> Result<Verified<'a>, Fail<VerifyFault>>
    requires codes { IsCounted set.now }
    requires lot { IsOfFirstLot set.now }
    ensures ok { IfOk result (λ verified. verified ≡ set.now) }
    ensures fault { IfFound result (λ fault. (first_fault set.now ≡ Some fault) × ¬ (Verifies set.now)) }
{
    match set_fault(alloc, set)? {
        None => Ok(Verified { set }),
        Some(fault) => Err(Fail::Found(fault)),
    }
}
