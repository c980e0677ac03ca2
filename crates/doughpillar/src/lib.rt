// The C face: every function that C calls, and nothing else. Archived as libdoughpillar.a.
#![tactic(auto)]

// answers, or one refusal
pub mod answer;
// what a book says of itself
pub mod contents;
