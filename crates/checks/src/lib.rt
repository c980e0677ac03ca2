// The checks 1 to 12 of a rule book.
#![tactic(auto)]

// why a book is refused
pub mod refusal;
// checks 1 to 3: length, counts and offsets
mod frame;
// checks 4 and 5: codes and indices
mod records;
// check 6: pairs of equal atoms
mod pairs;
// check 7: given answers
mod given;
// check 8: levels of certain and uncertain predicates
mod mixture;
// checks 9 to 11: which elements a comparison uses positively
mod signs;
// checks 9 to 11: how high uses reach
mod reaches;
// checks 9 to 11: each rule against the limit of its head
mod uses;
// the twelve in their order
pub mod check;
