// Why a book is refused, in the order of the checks; and the number that the entry returns.
ghost use Rattle.std.specs.Prelude.{◌≡◌, ◌+◌, ◌*◌};
ghost use Rattle.meaning.specs.Refusal.{packed};
ghost use Rattle.checks.specs.Refused.{said};

// Where a check looks at more tables than one, the place says which.
#[derive(Clone, Copy, PartialEq, Eq)]
pub enum Refusal {
    // fewer than 48 bytes
    Length,
    // a count above its limit
    Count { table: u8 },
    // an offset that is not where the body before ended
    Offset { table: u8 },
    // a length that is not the end of the last body
    End,
    // a code or level that is not listed
    Code { table: u8, record: u16 },
    // an index that is not in its table
    Index { table: u8, record: u16 },
    // one atom twice in one comparison
    Pair { comparison: u16 },
    // an answer given to an atom that isn't open, or that a rule concludes
    Given { atom: u16 },
    // one level for a certain predicate and an uncertain one
    Mixture { predicate: u16 },
    // a use above the head's level
    Height { rule: u16 },
    // a non-positive use in a certain head's own level
    Sign { rule: u16 },
    // an uncertain use under a certain head
    Certainty { rule: u16 },
    // answer room shorter than the number of atoms
    Room,
}

// Number, table and record, whatever they are, in one number, as the C entry returns them.
pub fn packed(number: u8, table: u8, record: u16) -> u32
    ensures { result ≡ number * 10000000 + table * 1000000 + «record» }
{
    u32::from(number) * 10000000 + u32::from(table) * 1000000 + u32::from(record)
}

// The number of the check, and the place.
impl From<Refusal> for u32 {
    ghost from_gives = { λ refusal n. n ≡ packed (said refusal) };

    fn from(refusal: Refusal) -> u32 {
        let (number, table, record) = match refusal {
            Refusal::Length => (1, 0, 0),
            Refusal::Count { table } => (2, table, 0),
            Refusal::Offset { table } => (3, table, 0),
            Refusal::End => (3, 0, 0),
            Refusal::Code { table, record } => (4, table, record),
            Refusal::Index { table, record } => (5, table, record),
            Refusal::Pair { comparison } => (6, 5, comparison),
            Refusal::Given { atom } => (7, 2, atom),
            Refusal::Mixture { predicate } => (8, 1, predicate),
            Refusal::Height { rule } => (9, 3, rule),
            Refusal::Sign { rule } => (10, 3, rule),
            Refusal::Certainty { rule } => (11, 3, rule),
            Refusal::Room => (12, 0, 0),
        };
        packed(number, table, record)
    }
}
