//! Descriptors (Java Virtual Machine Specification SE 8, 4.3): those of the profile, and those that the standard has.
ghost use Rattle.std.specs.Prelude.{◌≡◌, ◌==◌, ◌∷◌, false};
ghost use Rattle.std.specs.Option.{option_copied};
ghost use Rattle.class_file.specs.Descriptors.{is_array_name, up_to_semicolon, first_type};
ghost use Rattle.class_file.specs.ClassBytes.{is_field_descriptor, is_method_descriptor, is_type_name};
ghost use Rattle.class_file.specs.DescriptorFaults.{behind_type, is_any_field_descriptor, is_any_method_descriptor, field_descriptor_fault, method_descriptor_fault, descriptor_fault, type_name_fault, unless};
ghost use Rattle.class_reader.specs.Descriptors.{name_step, name_behind, elements_behind, is_base, rest_of, behind_first, is_whole, is_result, is_open, is_method};

use class_file::format_fault::FormatCode;

/// Whose types are taken.
#[derive(Clone, Copy)]
pub enum Types {
    /// `I`, `C`, `Z`, `J`, classes, and arrays of classes.
    Profile,
    /// All types of the standard.
    Standard,
}

// Whether a part of a class's name has begun after one more unit, or that the name is none.
fn name_step(begun: bool, unit: u16) -> Option<bool>
    ensures { result ≡ name_step begun unit }
{
    if unit == 47 {
        return if begun { Some(false) } else { None };
    }
    if unit == 46 || unit == 91 {
        return None;
    }
    Some(true)
}

// What is behind a class's name and its `;`.
fn name_behind(units: &[u16]) -> Option<&[u16]>
    ensures { option_copied result ≡ name_behind false (up_to_semicolon units.now) }
{
    let mut begun = false;
    let mut rest = units;
    loop {
        let [unit, behind @ ..] = rest else {
            return None;
        };
        if *unit == 59 {
            return if begun { Some(behind) } else { None };
        }
        let Some(next) = name_step(begun, *unit) else {
            return None;
        };
        begun = next;
        rest = behind;
    }
}

// What is behind the type of the elements of an array of the profile.
fn elements_behind(units: &[u16]) -> Option<&[u16]>
    ensures { option_copied result ≡ elements_behind units.now }
{
    let mut rest = units;
    loop {
        let [unit, behind @ ..] = rest else {
            return None;
        };
        if *unit != 91 {
            return if *unit == 76 {
                name_behind(behind)
            } else {
                None
            };
        }
        rest = behind;
    }
}

fn is_base(unit: u16) -> bool
    ensures { result ≡ is_base unit }
{
    matches!(unit, 66 | 67 | 68 | 70 | 73 | 74 | 83 | 90)
}

// What is behind a type that is no array.
fn one_behind(unit: u16, behind: &[u16]) -> Option<&[u16]>
    requires { (unit == 91) ≡ false }
    ensures { option_copied result ≡ behind_type (unit ∷ behind.now) }
{
    if is_base(unit) {
        return Some(behind);
    }
    if unit == 76 {
        return name_behind(behind);
    }
    None
}

// What is behind a type of the standard.
fn standard_behind(units: &[u16]) -> Option<&[u16]>
    ensures { option_copied result ≡ behind_type units.now }
{
    let mut rest = units;
    loop {
        let [unit, behind @ ..] = rest else {
            return None;
        };
        if *unit != 91 {
            return one_behind(*unit, behind);
        }
        rest = behind;
    }
}

// What is behind a type of the profile that is no array.
fn profile_one_behind(unit: u16, behind: &[u16]) -> Option<&[u16]>
    requires { (unit == 91) ≡ false }
    ensures { option_copied result ≡ rest_of (first_type (unit ∷ behind.now)) }
{
    if unit == 73 || unit == 67 || unit == 90 || unit == 74 {
        return Some(behind);
    }
    if unit == 76 {
        return name_behind(behind);
    }
    None
}

// What is behind a type of the profile.
fn profile_behind(units: &[u16]) -> Option<&[u16]>
    ensures { option_copied result ≡ rest_of (first_type units.now) }
{
    let [unit, behind @ ..] = units else {
        return None;
    };
    if *unit == 91 {
        return elements_behind(behind);
    }
    profile_one_behind(*unit, behind)
}

fn first_behind(types: Types, units: &[u16]) -> Option<&[u16]>
    ensures { option_copied result ≡ behind_first types units.now }
{
    match types {
        Types::Profile => profile_behind(units),
        Types::Standard => standard_behind(units),
    }
}

fn is_field(types: Types, units: &[u16]) -> bool
    ensures { result ≡ is_whole types units.now }
{
    match first_behind(types, units) {
        None => false,
        Some(rest) => rest.is_empty(),
    }
}

fn is_result(types: Types, units: &[u16]) -> bool
    ensures { result ≡ is_result types units.now }
{
    match units {
        [86] => true,
        _ => is_field(types, units),
    }
}

// Is this what stands behind the `(` of a method's descriptor of so many parameters at most?
fn is_open(types: Types, units: &[u16], most: usize) -> bool
    ensures { result ≡ is_open types most units.now }
{
    let mut rest = units;
    let mut left = most;
    loop {
        let [unit, behind @ ..] = rest else {
            return false;
        };
        if *unit == 41 {
            return is_result(types, behind);
        }
        if left == 0 {
            return false;
        }
        left -= 1;
        let Some(next) = first_behind(types, rest) else {
            return false;
        };
        rest = next;
    }
}

fn is_method(types: Types, units: &[u16]) -> bool
    ensures { result ≡ is_method types units.now }
{
    match units {
        [40, rest @ ..] => is_open(types, rest, rest.len()),
        _ => false,
    }
}

// Is it a field's descriptor of the profile?
fn is_field_descriptor(units: &[u16]) -> bool
    ensures { result ≡ is_field_descriptor units.now }
{
    is_field(Types::Profile, units)
}

// Is it a method's descriptor of the profile?
fn is_method_descriptor(units: &[u16]) -> bool
    ensures { result ≡ is_method_descriptor units.now }
{
    is_method(Types::Profile, units)
}

/// Is it a field's descriptor of the standard?
pub fn is_any_field_descriptor(units: &[u16]) -> bool
    ensures { result ≡ is_any_field_descriptor units.now }
{
    is_field(Types::Standard, units)
}

/// Is it a method's descriptor of the standard?
pub fn is_any_method_descriptor(units: &[u16]) -> bool
    ensures { result ≡ is_any_method_descriptor units.now }
{
    is_method(Types::Standard, units)
}

// What is wrong with a text, unless the profile takes it.
fn unless(in_profile: bool, in_standard: bool) -> Option<FormatCode>
    ensures { result ≡ unless in_profile in_standard }
{
    if in_profile {
        return None;
    }
    if in_standard {
        return Some(FormatCode::OutOfProfile);
    }
    Some(FormatCode::BadDescriptor)
}

/// What is wrong with a text in place of a field's descriptor.
pub fn field_descriptor_fault(units: &[u16]) -> Option<FormatCode>
    ensures { result ≡ field_descriptor_fault units.now }
{
    unless(is_field_descriptor(units), is_any_field_descriptor(units))
}

/// What is wrong with a text in place of a method's descriptor.
pub fn method_descriptor_fault(units: &[u16]) -> Option<FormatCode>
    ensures { result ≡ method_descriptor_fault units.now }
{
    unless(is_method_descriptor(units), is_any_method_descriptor(units))
}

/// What is wrong with a text in place of a descriptor.
pub fn descriptor_fault(units: &[u16]) -> Option<FormatCode>
    ensures { result ≡ descriptor_fault units.now }
{
    let in_profile = is_field_descriptor(units) || is_method_descriptor(units);
    let in_standard = is_any_field_descriptor(units) || is_any_method_descriptor(units);
    unless(in_profile, in_standard)
}

fn is_type_name(units: &[u16]) -> bool
    ensures { result ≡ is_type_name units.now }
{
    match units {
        [91, ..] => is_field_descriptor(units),
        _ => true,
    }
}

/// What is wrong with a text in place of the name of a class or an array.
pub fn type_name_fault(units: &[u16]) -> Option<FormatCode>
    ensures { result ≡ type_name_fault units.now }
{
    unless(is_type_name(units), is_any_field_descriptor(units))
}
