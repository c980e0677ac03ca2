// The rule book: readers of its bytes, and the types of a book that was checked.
#![tactic(auto)]

// the six tables, and their limits
pub mod tables;
// numbers of a book, and its table of contents
pub mod readers;
// a book whose tables stand where they should, and its records
pub mod frame;
// a book whose indices are in their tables, and its atoms
pub mod ready;
