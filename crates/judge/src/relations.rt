// The opposite and the mirrored of each relation, in the order of their codes, and the truth that two of them decide.
ghost use Rattle.std.specs.Prelude.{◌≡◌, Bool};
ghost use Rattle.meaning.specs.declared.codes.Relation.{Relation};
ghost use Rattle.meaning.specs.Truth.{mirror, opposite};
ghost use Rattle.judge.specs.Gathered.{judged};

use meaning::codes::Relation;
use meaning::codes::Relation::{Eq, Ge, Gt, Le, Lt, Ne};
use theory::answer::Truth;

const OPPOSITE: [Relation; 6] = [Ne, Eq, Ge, Gt, Le, Lt];

// The relation that a reversed order makes of each. One reader of both tables would be no plainer: its contract would
// have to say which table it reads.
const MIRROR: [Relation; 6] = [Eq, Ne, Gt, Ge, Lt, Le];

pub fn opposite_of(relation: Relation) -> Relation
    ensures { result ≡ opposite relation }
{
    OPPOSITE[relation as usize]
}

pub fn mirror_of(relation: Relation) -> Relation
    ensures { result ≡ mirror relation }
{
    MIRROR[relation as usize]
}

// The truth of a comparison, by which relations hold: false when its opposite does, else undefined.
pub fn decide<F: Fn(Relation) -> bool>(relation: Relation, holds: F) -> Truth
    requires { F.IsAlwaysCallable holds }
    ensures { (test : Relation → Bool) → ((r : Relation) (x : Bool) → F.post holds r x → x ≡ test r) →
        result ≡ judged test relation }
{
    if holds(relation) {
        Truth::True
    } else if holds(opposite_of(relation)) {
        Truth::False
    } else {
        Truth::Undefined
    }
}
