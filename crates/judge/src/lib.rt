// The truth of literals, comparisons and rule bodies at the answers under work.
#![tactic(auto)]

pub mod body;
pub mod comparison;
pub mod elements;
pub mod extremes;
pub mod judge;
pub mod literal;
pub mod relations;
pub mod sums;
