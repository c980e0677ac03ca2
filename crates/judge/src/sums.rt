// Count and sum: the least and the most that they can come to.
ghost use Rattle.std.specs.Prelude.{◌≡◌, ℤ, pos, ◌+◌, ◌+ℤ◌, ◌^◌, ◌<◌, ◌≤◌, nat_abs};
ghost use Rattle.meaning.specs.Format.{element_count};
ghost use Rattle.meaning.specs.declared.codes.Relation.{Relation};
ghost use Rattle.meaning.specs.Reading.{relation_of};
ghost use Rattle.meaning.specs.Truth.{between, least, least_share, most, most_share, weighed};
ghost use Rattle.judge.specs.Gathered.{judged};
ghost use Rattle.judge.specs.Held.{held};
ghost use Rattle.judge.specs.Ranges.{elements_read, weighing};

use crate::judge::Judge;
use crate::relations::decide;
use meaning::codes::Relation;
use meaning::records::ComparisonRecord;
use theory::answer::Truth;

// What an element weighs.
pub trait Weight {
    ghost weight: { ℤ → ℤ };

    fn weight(own: i64) -> i64
        requires { nat_abs own ≤ 2 ^ 31 }
        ensures is { result ≡ weight own }
        ensures small { nat_abs result ≤ 2 ^ 31 };
}

// In a count, each weighs 1.
pub struct One;

impl Weight for One {
    ghost weight = { λ own. pos 1 };

    fn weight(own: i64) -> i64 {
        1
    }
}

// In a sum, each has its own weight.
pub struct Own;

impl Weight for Own {
    ghost weight = { λ own. own };

    fn weight(own: i64) -> i64 {
        own
    }
}

#[derive(Clone, Copy)]
pub struct Ends {
    pub least: i64,
    pub most: i64,
}

// Of no element.
const NONE: Ends = Ends { least: 0, most: 0 };

impl Ends {
    // One element more: its weight if definite; if undefined, a negative weight for the least, a positive one for the
    // most.
    fn add(self, truth: Truth, w: i64) -> Ends
        requires least { nat_abs self.least + nat_abs w < 2 ^ 63 }
        requires most { nat_abs self.most + nat_abs w < 2 ^ 63 }
        ensures least { result.least ≡ self.least +ℤ least_share truth w }
        ensures most { result.most ≡ self.most +ℤ most_share truth w }
    {
        match truth {
            Truth::Undefined => Ends {
                least: self.least + w.min(0),
                most: self.most + w.max(0),
            },
            Truth::True => Ends {
                least: self.least + w,
                most: self.most + w,
            },
            Truth::False => self,
        }
    }

    // Of the elements that c ranges over.
    fn of<W: Weight>(judge: &Judge, c: &ComparisonRecord) -> Ends
        requires { c.now.first + c.now.many ≤ element_count judge.now.book.frame.bytes.now }
        ensures least { let b = judge.now.book.frame.bytes.now in
            let es = elements_read b c.now.first (c.now.first + c.now.many) in
            result.least ≡ least (weighing W.weight) (held judge.now.answers.now) es }
        ensures most { let b = judge.now.book.frame.bytes.now in
            let es = elements_read b c.now.first (c.now.first + c.now.many) in
            result.most ≡ most (weighing W.weight) (held judge.now.answers.now) es }
    {
        let mut found = NONE;
        for e in c.first..c.first + c.many {
            let next = judge.element(e);
            found = found.add(next.truth, W::weight(next.weight));
        }
        found
    }

    // = k when least and most are k; > k when least > k; and so on.
    #[tactic(auto, unfolding(meaning::specs::Truth::between))]
    fn between(self, relation: Relation, k: i64) -> bool
        ensures { result ≡ between relation self.least self.most k }
    {
        match relation {
            Relation::Eq => self.least == k && self.most == k,
            Relation::Ne => self.least > k || self.most < k,
            Relation::Lt => self.most < k,
            Relation::Le => self.most <= k,
            Relation::Gt => self.least > k,
            Relation::Ge => self.least >= k,
        }
    }
}

impl<'a> Judge<'a> {
    // Count and sum, by what an element weighs.
    pub fn sum_truth<W: Weight>(&self, c: &ComparisonRecord) -> Truth
        requires { c.now.first + c.now.many ≤ element_count self.now.book.frame.bytes.now }
        ensures { let b = self.now.book.frame.bytes.now in let A = held self.now.answers.now in
            let es = elements_read b c.now.first (c.now.first + c.now.many) in
            let holds = λ (r : Relation). weighed (weighing W.weight) r A es c.now.bound in
            result ≡ judged holds (relation_of c.now.relation) }
    {
        let ends = Ends::of::<W>(self, c);
        decide(Relation::from(c.relation), |r| ends.between(r, c.bound))
    }
}
