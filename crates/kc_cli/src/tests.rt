//! Tests: words, lines and statuses; and whole commands over objects in memory.

mod commands;
mod lines;
