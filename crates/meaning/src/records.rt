// The records of the six tables, as document 01 has them. Codes are the bytes that stand there: refusal 4 is about
// those that no case has.
ghost use Rattle.std.specs.Prelude.{◌≡◌};
ghost use Rattle.meaning.specs.Reading.{literal_in, literal_of};

use crate::codes::Literal;

#[derive(Clone, Copy)]
pub struct Predicate {
    pub kind: u8,
    pub level: usize,
}

#[derive(Clone, Copy)]
pub struct Atom {
    pub predicate: usize,
    pub given: u8,
}

#[derive(Clone, Copy)]
pub struct RuleRecord {
    pub head: usize,
    pub first: usize,
    pub many: usize,
}

#[derive(Clone, Copy)]
pub struct HypothesisRecord {
    pub sort: u8,
    pub index: usize,
}

#[derive(Clone, Copy)]
pub struct ComparisonRecord {
    pub aggregate: u8,
    pub relation: u8,
    pub bound: i64,
    pub first: usize,
    pub many: usize,
}

#[derive(Clone, Copy)]
pub struct ElementRecord {
    pub sign: u8,
    pub atom: usize,
    pub weight: i64,
}

impl HypothesisRecord {
    // The literal that it is about, if that is no comparison.
    pub fn literal(self) -> Option<Literal>
        ensures { result ≡ literal_in self.sort self.index }
    {
        match self.sort {
            0 => Some(Literal::Plain(self.index)),
            1 => Some(Literal::Negated(self.index)),
            2.. => None,
        }
    }
}

impl ElementRecord {
    // Sign 0 is the atom, any other its negation.
    pub fn literal(self) -> Literal
        ensures { result ≡ literal_of self.sign self.atom }
    {
        match self.sign {
            0 => Literal::Plain(self.atom),
            1.. => Literal::Negated(self.atom),
        }
    }
}
