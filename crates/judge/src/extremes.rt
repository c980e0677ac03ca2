// Max, and min by the reversed order.
ghost use Rattle.std.specs.Prelude.{◌≡◌, ℤ, Bool, ◌&&◌, ◌+◌, ◌≤◌};
ghost use Rattle.std.specs.Int.Signed.{lt_z};
ghost use Rattle.meaning.specs.Format.{element_count};
ghost use Rattle.meaning.specs.declared.codes.Relation.{Relation};
ghost use Rattle.meaning.specs.Reading.{relation_of};
ghost use Rattle.meaning.specs.Truth.{above, attained, mirror};
ghost use Rattle.judge.specs.Held.{held};
ghost use Rattle.judge.specs.Ranges.{elements_read};
ghost use Rattle.judge.specs.Gathered.{added, gathered, judged, picked};

use crate::judge::Judge;
use crate::relations::{decide, mirror_of};
use meaning::codes::Relation;
use meaning::records::ComparisonRecord;
use theory::answer::Truth;

// An order of the weights, and what it makes of a relation.
pub trait Order {
    ghost below: { ℤ → ℤ → Bool };

    ghost turned: { Relation → Relation };

    fn below(w: i64, k: i64) -> bool
        ensures { result ≡ below w k };

    fn turned(relation: Relation) -> Relation
        ensures { result ≡ turned relation };
}

// That of max.
pub struct Upward;

impl Order for Upward {
    ghost below = { lt_z };

    ghost turned = { λ r. r };

    fn below(w: i64, k: i64) -> bool {
        w < k
    }

    fn turned(relation: Relation) -> Relation {
        relation
    }
}

// That of min, which mirrors its relation.
pub struct Reversed;

impl Order for Reversed {
    ghost below = { above };

    ghost turned = { mirror };

    fn below(w: i64, k: i64) -> bool {
        k < w
    }

    fn turned(relation: Relation) -> Relation {
        mirror_of(relation)
    }
}

// What one reading of the elements finds: is there a definite one; is some definite weight equal to the bound, above
// it, at least it; is every possible one unequal to it, below it, at most it. A trait of this and of `Ends` would be no
// plainer: of the two only the ends ask that what is added fits.
#[derive(Clone, Copy)]
pub struct Extremes {
    pub definite: bool,
    pub equal: bool,
    pub above: bool,
    pub reaching: bool,
    pub unequal: bool,
    pub below: bool,
    pub within: bool,
}

// Of no element.
const NONE: Extremes = Extremes {
    definite: false,
    equal: false,
    above: false,
    reaching: false,
    unequal: true,
    below: true,
    within: true,
};

impl Extremes {
    // One element more: is it definite, is it possible, and is its weight below or above the bound?
    #[inline(always)]
    fn add(&self, definite: bool, possible: bool, below: bool, above: bool) -> Extremes
        ensures { result ≡ added self.now definite possible below above }
    {
        Extremes {
            definite: self.definite | definite,
            equal: self.equal | (definite & (!below & !above)),
            above: self.above | (definite & above),
            reaching: self.reaching | (definite & !below),
            unequal: self.unequal & (!possible | (below | above)),
            below: self.below & (!possible | below),
            within: self.within & (!possible | !above),
        }
    }

    // Of the elements that c ranges over.
    fn of<O: Order>(judge: &Judge, c: &ComparisonRecord) -> Extremes
        requires { c.now.first + c.now.many ≤ element_count judge.now.book.frame.bytes.now }
        ensures { let b = judge.now.book.frame.bytes.now in
            let es = elements_read b c.now.first (c.now.first + c.now.many) in
            result ≡ gathered O.below (held judge.now.answers.now) c.now.bound es }
    {
        let mut found = NONE;
        for e in c.first..c.first + c.many {
            let next = judge.tested(e);
            let below = O::below(next.weight, c.bound);
            let above = O::below(c.bound, next.weight);
            found = found.add(next.definite, next.possible, below, above);
        }
        found
    }

    // Never true without a definite element.
    fn attained(&self, relation: Relation) -> bool
        ensures { result ≡ (self.now.definite && picked relation self.now) }
    {
        self.definite
            & match relation {
                Relation::Eq => self.equal & self.within,
                Relation::Ne => self.unequal | self.above,
                Relation::Lt => self.below,
                Relation::Le => self.within,
                Relation::Gt => self.above,
                Relation::Ge => self.reaching,
            }
    }
}

impl<'a> Judge<'a> {
    // Max and min, by their order.
    #[tactic(auto, using(crate::proofs::ExtremeLaws::attained_is))]
    pub fn extreme_truth<O: Order>(&self, c: &ComparisonRecord) -> Truth
        requires { c.now.first + c.now.many ≤ element_count self.now.book.frame.bytes.now }
        ensures { let b = self.now.book.frame.bytes.now in let A = held self.now.answers.now in
            let es = elements_read b c.now.first (c.now.first + c.now.many) in
            let holds = λ (r : Relation). attained O.below (O.turned r) A es c.now.bound in
            result ≡ judged holds (relation_of c.now.relation) }
    {
        let found = Extremes::of::<O>(self, c);
        decide(Relation::from(c.relation), |r| found.attained(O::turned(r)))
    }
}
