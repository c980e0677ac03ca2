// The elements of a comparison: the truth of each, and its weight.
ghost use Rattle.std.specs.Prelude.{◌≡◌, ◌^◌, ◌<◌, ◌≤◌, nat_abs};
ghost use Rattle.meaning.specs.Format.{element_count};
ghost use Rattle.meaning.specs.Truth.{definite, element_truth, possible};
ghost use Rattle.judge.specs.Held.{held};
ghost use Rattle.judge.specs.Ranges.{element_read};

use crate::judge::Judge;
use crate::literal::{is_false, is_true, literal};
use theory::answer::Truth;

// An element at some answers.
#[derive(Clone, Copy)]
pub struct Weighed {
    pub truth: Truth,
    pub weight: i64,
}

// An element as max and min ask of it.
#[derive(Clone, Copy)]
pub struct Tested {
    pub definite: bool,
    pub possible: bool,
    pub weight: i64,
}

impl<'a> Judge<'a> {
    #[tactic(auto, using(crate::proofs::ElementLaws::elements), unfolding(meaning::specs::Reading::element_of))]
    pub fn element(&self, e: usize) -> Weighed
        requires { e < element_count self.now.book.frame.bytes.now }
        ensures truth { let b = self.now.book.frame.bytes.now in
            result.truth ≡ element_truth (held self.now.answers.now) (element_read b e) }
        ensures weight { result.weight ≡ (element_read self.now.book.frame.bytes.now e).weight }
        ensures small { nat_abs result.weight ≤ 2 ^ 31 }
    {
        let record = self.book.frame.element(e);
        Weighed {
            truth: literal(self.answers, record.literal()),
            weight: record.weight,
        }
    }

    #[tactic(auto, using(crate::proofs::ElementLaws::elements), unfolding(meaning::specs::Reading::element_of))]
    pub fn tested(&self, e: usize) -> Tested
        requires { e < element_count self.now.book.frame.bytes.now }
        ensures definite { let b = self.now.book.frame.bytes.now in
            result.definite ≡ definite (held self.now.answers.now) (element_read b e) }
        ensures possible { let b = self.now.book.frame.bytes.now in
            result.possible ≡ possible (held self.now.answers.now) (element_read b e) }
        ensures weight { result.weight ≡ (element_read self.now.book.frame.bytes.now e).weight }
        ensures small { nat_abs result.weight ≤ 2 ^ 31 }
    {
        let record = self.book.frame.element(e);
        let literal = record.literal();
        Tested {
            definite: is_true(self.answers, literal),
            possible: !is_false(self.answers, literal),
            weight: record.weight,
        }
    }
}
