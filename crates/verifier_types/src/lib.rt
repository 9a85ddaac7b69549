//! What the verifier knows of a method's frame, and what each instruction of the first lot makes of it.
#![tactic(auto)]

mod assign;
mod built_ins;
mod calls;
mod constants;
mod descriptors;
mod known;
mod locals;
mod named_set;
mod names;
mod places;
mod rows;
mod stack;
mod start;
mod statics;
mod types;
mod use_types;

pub use assign::assignable;
pub use calls::{described, name_at};
pub use descriptors::Call;
pub use known::Known;
pub use locals::Locals;
pub use named_set::NamedSet;
pub use names::{is_array_name, is_special_name, reference_below};
pub use rows::step;
pub use stack::Stack;
pub use start::{is_init, is_static, start_locals};
pub use statics::Statics;
pub use types::VerificationType;
