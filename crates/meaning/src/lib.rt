// Document 01 as definitions, and the demands. Of code it has the types that definitions and functions share.
#![tactic(auto)]

// what the codes of a book stand for
pub mod codes;
// the records of the six tables
pub mod records;
