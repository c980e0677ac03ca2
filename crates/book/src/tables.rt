// The six tables by their places in the contents, and the most records that each may have.
pub const PREDICATES: usize = 0;

pub const ATOMS: usize = 1;

pub const RULES: usize = 2;

pub const HYPOTHESES: usize = 3;

pub const COMPARISONS: usize = 4;

pub const ELEMENTS: usize = 5;

pub const MOST_PREDICATES: usize = 128;

pub const MOST_ATOMS: usize = 2048;

pub const MOST_RULES: usize = 2048;

pub const MOST_HYPOTHESES: usize = 4096;

pub const MOST_COMPARISONS: usize = 512;

pub const MOST_ELEMENTS: usize = 4096;
