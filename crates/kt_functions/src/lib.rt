//! Functions and their parameters (Kotlin Language Specification 1.9, "Function declaration" and "Declarations with type parameters").
#![tactic(auto)]

mod functions;
mod modifier_words;
mod parameters;
mod receivers;
mod sites;
mod type_parameters;
mod values;

pub use functions::function;
pub use modifier_words::{
    begins_parameter, is_modifier, is_modifier_name, is_word_at, modifier_of, modifiers,
};
pub use parameters::typed_value;
pub use sites::Site;
pub use type_parameters::parameters_of_type;
pub use values::{body, default_value};
