// Steps, runs and levels of abstract rules: one model.
#![tactic(auto)]

// the three answers, and their codes
pub mod answer;
