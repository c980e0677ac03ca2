// What the codes of a book stand for. A code that is not listed reads as the last.
ghost use Rattle.std.specs.Prelude.{◌≡◌};
ghost use Rattle.meaning.specs.Reading.{aggregate_of, kind_of, relation_of, sort_of};

// What the rules of a predicate say of its atoms.
#[derive(Clone, Copy, PartialEq, Eq)]
pub enum Kind {
    Certain,
    Open,
    Complete,
    Closed,
}

impl From<u8> for Kind {
    ghost from_gives = { λ code k. k ≡ kind_of code };

    fn from(code: u8) -> Kind {
        match code {
            0 => Kind::Certain,
            1 => Kind::Open,
            2 => Kind::Complete,
            3 => Kind::Closed,
            4.. => Kind::Closed,
        }
    }
}

// What a comparison is over.
#[derive(Clone, Copy, PartialEq, Eq)]
pub enum Aggregate {
    Count,
    Sum,
    Min,
    Max,
}

impl From<u8> for Aggregate {
    ghost from_gives = { λ code x. x ≡ aggregate_of code };

    fn from(code: u8) -> Aggregate {
        match code {
            0 => Aggregate::Count,
            1 => Aggregate::Sum,
            2 => Aggregate::Min,
            3 => Aggregate::Max,
            4.. => Aggregate::Max,
        }
    }
}

// =, ≠, <, ≤, > and ≥.
#[derive(Clone, Copy, PartialEq, Eq)]
pub enum Relation {
    Eq,
    Ne,
    Lt,
    Le,
    Gt,
    Ge,
}

impl From<u8> for Relation {
    ghost from_gives = { λ code x. x ≡ relation_of code };

    fn from(code: u8) -> Relation {
        match code {
            0 => Relation::Eq,
            1 => Relation::Ne,
            2 => Relation::Lt,
            3 => Relation::Le,
            4 => Relation::Gt,
            5 => Relation::Ge,
            6.. => Relation::Ge,
        }
    }
}

// What a hypothesis is about.
#[derive(Clone, Copy, PartialEq, Eq)]
pub enum Sort {
    Atom,
    NotAtom,
    Comparison,
}

impl From<u8> for Sort {
    ghost from_gives = { λ code x. x ≡ sort_of code };

    fn from(code: u8) -> Sort {
        match code {
            0 => Sort::Atom,
            1 => Sort::NotAtom,
            2 => Sort::Comparison,
            3.. => Sort::Comparison,
        }
    }
}

// An atom, or its negation.
#[derive(Clone, Copy, PartialEq, Eq)]
pub enum Literal {
    Plain(usize),
    Negated(usize),
}
