// Rounds, levels, and the answers of a book.
#![tactic(auto)]

// any bytes and any room get answers or a refusal
pub mod answer;
// what stands beside the rounds of a level
pub mod levels;
// rounds until one changes nothing
pub mod rounds;
// levels from 0 upward
pub mod solve;
// the answers, written into the room once
pub mod write;
