//! The grammar of files, declarations, statements, expressions and types, and the parser of types, of operators and of lists of
//! expressions (Kotlin Language Specification 1.9, "Syntax grammar").
#![tactic(auto)]

mod arguments;
mod arrows;
mod beginnings;
mod casts;
mod cursor;
mod locals;
mod lookahead;
mod nodes;
mod operands;
mod operators;
mod prefixes;
mod signs;
mod tokens;
mod turns;
mod types;

ghost use Rattle.kt_grammar.specs.DeclarationExamples.{FilesRead, ClassesRead, MembersRead, FilesBuilt};
ghost use Rattle.kt_grammar.specs.Examples.{OperatorsRead, CallsRead, TypeArgumentsRead, ElsesRead, StatementsRead, FunctionTypesRead, MarksRead, ListsRead, ComparisonsRead, ClausesRead, TreesBuilt, PlacesBuilt};

pub use arguments::Operands;
pub use arrows::type_before_arrow;
pub use beginnings::{begins_argument, begins_expression};
pub use casts::{cast_turns, typed_turn};
pub use cursor::{Cursor, behind, eat_op_on, expect_op_on};
pub use locals::{bare_names, colon_type, names, typed_name};
pub use lookahead::{
    Frame, Frames, Goal, Look, Mode, Next, Place, arguments_form, else_follows, result_follows,
    step, suffix_follows,
};
pub use nodes::{across, is_negated, is_safe, word_of};
pub use operands::operand_type;
pub use operators::Operators;
pub use signs::{Level, Sign, eat_sign, expect_sign};
pub use tokens::{
    begins_type, begins_type_argument, class, eat, eat_name, eat_op, eat_out, eat_unmarked,
    eat_word, expect_name, expect_op, is_at, is_name_at, is_op_at, is_unmarked_at, keyword_class,
    name_class, operator_class, span_between, word_at,
};
pub use types::{dotted, type_arguments, type_at};

/// Operators and lines in small lists of tokens.
pub fn operators_are_read()
    ensures { OperatorsRead }
{}

/// Calls.
pub fn calls_are_read()
    ensures { CallsRead }
{}

/// Type arguments, comparisons and casts.
pub fn type_arguments_are_read()
    ensures { TypeArgumentsRead }
{}

/// `if` with and without `else`.
pub fn elses_are_read()
    ensures { ElsesRead }
{}

/// Statements, assignments and `try`.
pub fn statements_are_read()
    ensures { StatementsRead }
{}

/// Function types before the arrow of a branch or of a lambda's parameters.
pub fn function_types_are_read()
    ensures { FunctionTypesRead }
{}

/// What must stand on the same line, and what need not.
pub fn marks_are_read()
    ensures { MarksRead }
{}

/// Commas behind the last of a list, and labels behind calls.
pub fn lists_are_read()
    ensures { ListsRead }
{}

/// `<` in a list of arguments.
pub fn comparisons_are_read()
    ensures { ComparisonsRead }
{}

/// Clauses of `try`, and jumps.
pub fn clauses_are_read()
    ensures { ClausesRead }
{}

/// The trees of small expressions and statements.
pub fn trees_are_built()
    ensures { TreesBuilt }
{}

/// The places of nodes.
pub fn places_are_built()
    ensures { PlacesBuilt }
{}

/// Files: lines and `;` between declarations, the package and imports.
pub fn files_are_read()
    ensures { FilesRead }
{}

/// Classes, interfaces and enums.
pub fn classes_are_read()
    ensures { ClassesRead }
{}

/// Receivers, parameters, accessors, and what is left out behind `abstract`.
pub fn members_are_read()
    ensures { MembersRead }
{}

/// The trees of small files, with places.
pub fn files_are_built()
    ensures { FilesBuilt }
{}
