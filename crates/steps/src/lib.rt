// The three steps of a level, and the round that takes them all at once.
#![tactic(auto)]

// a level, and the answers before a round
pub mod level;
// what a round may do to each atom
pub mod due;
// steps (a) and (b): the truth of the rules that conclude an atom
pub mod gather;
// step (c): which rules have a false body, what it remembers, and a search
pub mod fails;
pub mod order;
pub mod search;
pub mod strike;
pub mod unfounded;
// the round, and what it writes
pub mod round;
pub mod settle;
