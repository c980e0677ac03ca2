// Which elements a comparison uses positively, found once for all of them: those of sign 0, those of sign 1, or none.
ghost use Rattle.std.specs.Prelude.{◌≡◌};
ghost use Rattle.meaning.specs.Refusal.{grows, is_above, is_below, shrinks};

use meaning::codes::{Aggregate, Relation};

// The four of this file stay four: each is a row of document 01's table, and one function over the sign would have all
// their cases.

// > or ≥?
fn is_above(relation: Relation) -> bool
    ensures { result ≡ is_above relation }
{
    matches!(relation, Relation::Gt | Relation::Ge)
}

// < or ≤?
fn is_below(relation: Relation) -> bool
    ensures { result ≡ is_below relation }
{
    matches!(relation, Relation::Lt | Relation::Le)
}

// Those of sign 0?
pub(crate) fn grows_in(aggregate: Aggregate, relation: Relation) -> bool
    ensures { result ≡ grows aggregate relation }
{
    match aggregate {
        Aggregate::Count => is_above(relation),
        Aggregate::Sum => false,
        Aggregate::Min => is_below(relation),
        Aggregate::Max => is_above(relation),
    }
}

// Those of sign 1?
pub(crate) fn shrinks_in(aggregate: Aggregate, relation: Relation) -> bool
    ensures { result ≡ shrinks aggregate relation }
{
    match aggregate {
        Aggregate::Count => is_below(relation),
        Aggregate::Sum => false,
        Aggregate::Min => false,
        Aggregate::Max => false,
    }
}
