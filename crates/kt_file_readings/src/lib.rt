//! Trees of files as lines, and what small files are read as.
#![tactic(auto)]

mod classes;
mod files;
mod functions;
mod properties;

pub use files::line_of_file;

#[cfg(test)]
mod accessor_tests;
#[cfg(test)]
mod class_tests;
#[cfg(test)]
mod depth_tests;
#[cfg(test)]
mod enum_tests;
#[cfg(test)]
mod function_tests;
#[cfg(test)]
mod head_tests;
#[cfg(test)]
mod interface_tests;
#[cfg(test)]
mod member_tests;
#[cfg(test)]
mod modifier_tests;
#[cfg(test)]
mod property_tests;
#[cfg(test)]
mod readings;
#[cfg(test)]
mod receiver_tests;
#[cfg(test)]
mod separator_tests;
#[cfg(test)]
mod supertype_tests;
#[cfg(test)]
mod type_parameter_tests;
