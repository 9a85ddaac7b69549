//! The descriptors of methods (Java Virtual Machine Specification SE 8, 4.3.3), read as verification types.
ghost use Rattle.std.specs.Prelude.{false, ◌≡◌, ◌∷◌, ◌++◌, ◌+◌, ◌≤◌, ◌<◌, ◌==◌, [], length, map, position, Some, None, IfOk, take, drop};
ghost use Rattle.std.specs.Option.{option_map, option_copied};
ghost use Rattle.class_file.specs.Members.{type_of_field, call_of};
ghost use Rattle.class_file.specs.Descriptors.{is_class_name, first_type, class_type, up_to_semicolon, parameters, signature, field_type, result_of};
ghost use Rattle.class_file.specs.ClassBytes.{is_field_descriptor};
ghost use Rattle.verifier_types.specs.Seen.{type_of};
ghost use Rattle.verifier_types.specs.Calls.{name_step, read_of, read_seen, call_seen, Results, SemicolonAt, SpelledReads, ArrayReads, prefixed, parsed};

use crate::types::VerificationType;
use kc_text::Memory;
use std::alloc::Global;

/// What a call takes, the last operand on top, and what it gives.
#[derive(Drop)]
pub struct Call<'a> {
    pub params: Vec<VerificationType<'a>>,
    pub result: Option<VerificationType<'a>>,
}

/// A type that was read, and what is left behind it.
#[derive(Clone, Copy)]
pub struct TypeRead<'a> {
    pub kind: VerificationType<'a>,
    pub rest: &'a [u16],
}

// How many units stand before the first `;`.
fn semicolon_place(units: &[u16]) -> Option<usize>
    ensures { result ≡ position (λ u. u == 59) units.now }
{
    units.iter().position(|unit| *unit == 59)
}

fn semicolon(units: &[u16]) -> Option<usize>
    ensures { SemicolonAt result units.now }
{
    semicolon_place(units)
}

// Whether a part of a class's name has begun after one more unit, or that the name is none.
fn name_step(begun: bool, unit: u16) -> Option<bool>
    ensures { result ≡ name_step begun unit }
{
    if unit == 47 {
        return if begun { Some(false) } else { None };
    }
    if unit == 46 || unit == 91 {
        return None;
    }
    Some(true)
}

fn is_class_name(units: &[u16]) -> bool
    ensures { result ≡ is_class_name false units.now }
{
    let mut begun = false;
    for unit in units {
        let Some(next) = name_step(begun, *unit) else {
            return false;
        };
        begun = next;
    }
    begun
}

// How many units a class's name and its `;` take.
fn spelled_length(units: &[u16]) -> Option<usize>
    ensures { SpelledReads result units.now }
{
    let at = semicolon(units)?;
    if !is_class_name(&units[..at]) {
        return None;
    }
    Some(at + 1)
}

// How many units the descriptor behind a `[` takes.
fn array_length(units: &[u16]) -> Option<usize>
    ensures { ArrayReads result units.now }
{
    match units {
        [] => None,
        [first, rest @ ..] => {
            if *first == 91 {
                let more = array_length(rest)?;
                return Some(more + 1);
            }
            if *first != 76 {
                return None;
            }
            let more = spelled_length(rest)?;
            Some(more + 1)
        }
    }
}

// Behind `L`.
fn class_type(units: &[u16]) -> Option<TypeRead>
    ensures { option_map read_seen result ≡ option_map read_of (class_type (up_to_semicolon units.now)) }
{
    let at = semicolon(units)?;
    if !is_class_name(&units[..at]) {
        return None;
    }
    Some(TypeRead {
        kind: VerificationType::Object(&units[..at]),
        rest: &units[at + 1..],
    })
}

fn first_type(units: &[u16]) -> Option<TypeRead>
    ensures { option_map read_seen result ≡ option_map read_of (first_type units.now) }
{
    match units {
        [] => None,
        [73, rest @ ..] => Some(TypeRead {
            kind: VerificationType::Integer,
            rest,
        }),
        [67, rest @ ..] => Some(TypeRead {
            kind: VerificationType::Integer,
            rest,
        }),
        [90, rest @ ..] => Some(TypeRead {
            kind: VerificationType::Integer,
            rest,
        }),
        [74, rest @ ..] => Some(TypeRead {
            kind: VerificationType::Long,
            rest,
        }),
        [76, rest @ ..] => class_type(rest),
        [91, rest @ ..] => match array_length(rest) {
            None => None,
            Some(count) => Some(TypeRead {
                kind: VerificationType::Object(&units[..count + 1]),
                rest: &rest[count..],
            }),
        },
        _ => None,
    }
}

/// Is this the descriptor of a field?
pub fn is_field_descriptor(units: &[u16]) -> bool
    ensures { result ≡ is_field_descriptor units.now }
{
    match first_type(units) {
        None => false,
        Some(read) => read.rest.is_empty(),
    }
}

// The parameters up to `)`, of which there are at most so many, behind those that were read; and what is left behind them.
fn parameters<'a>(
    units: &'a [u16],
    most: usize,
    params: &mut Vec<VerificationType<'a>>,
) -> Result<Option<&'a [u16]>, Memory>
    ensures { IfOk result (λ rest. parsed (map type_of params.new.items) (option_copied rest) ≡ prefixed (map type_of params.old.items) (parameters most units.now)) }
{
    let mut rest = units;
    let mut left = most;
    loop {
        let [first, behind @ ..] = rest else {
            return Ok(None);
        };
        if *first == 41 {
            return Ok(Some(behind));
        }
        if left == 0 {
            return Ok(None);
        }
        left -= 1;
        let Some(read) = first_type(rest) else {
            return Ok(None);
        };
        params.push(read.kind)?;
        rest = read.rest;
    }
}

// What stands behind the parameters: none where it is neither `V` nor a type alone.
fn result_type(units: &[u16]) -> Option<Option<VerificationType>>
    ensures { Results result units.now }
{
    match units {
        [86] => Some(None),
        _ => {
            let read = first_type(units)?;
            if read.rest.is_empty() {
                Some(Some(read.kind))
            } else {
                None
            }
        }
    }
}

/// What a method of this descriptor takes and gives, or none where it is no descriptor.
pub fn signature(alloc: Global, descriptor: &[u16]) -> Result<Option<Call>, Memory>
    ensures { IfOk result (λ call. option_map call_seen call ≡ option_map call_of (signature descriptor.now)) }
{
    let [40, units @ ..] = descriptor else {
        return Ok(None);
    };
    let mut params = Vec::new(alloc);
    let Some(rest) = parameters(units, units.len(), &mut params)? else {
        return Ok(None);
    };
    match result_type(rest) {
        None => Ok(None),
        Some(outcome) => Ok(Some(Call {
            params,
            result: outcome,
        })),
    }
}
