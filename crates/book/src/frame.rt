// A book whose tables stand where they should, as it does after checks 1 to 3, and the records of its tables: each is
// what document 01's definition says, and no caller sees an offset.
ghost use Rattle.std.specs.Prelude.{◌≡◌, ◌+◌, ◌*◌, ◌^◌, ◌<◌, ◌≤◌, nat_abs};
ghost use Rattle.meaning.specs.Format.{atom_count, comparison_count, count_of, element_count, hypothesis_count};
ghost use Rattle.meaning.specs.Format.{predicate_count, rule_count};
ghost use Rattle.book.specs.Framed.{Framed, Place};
ghost use Rattle.book.specs.Records.{atom_in, comparison_in, element_in, hypothesis_in, predicate_in, rule_in};

use crate::readers::{count_of, offset_of, signed, size_of, word};
use crate::tables::{ATOMS, COMPARISONS, ELEMENTS, HYPOTHESES, PREDICATES, RULES};
use meaning::records::{
    Atom, ComparisonRecord, ElementRecord, HypothesisRecord, Predicate, RuleRecord,
};

#[derive(Clone, Copy)]
pub struct Frame<'a> {
    pub bytes: &'a [u8],
    ghost framed: { Framed bytes.now },
}

impl<'a> Frame<'a> {
    // How many records the k-th table has.
    pub fn count(&self, k: usize) -> usize
        requires { k < 6 }
        ensures is { result ≡ count_of self.now.bytes.now k }
        ensures small { result < 2 ^ 32 }
    {
        count_of(self.bytes, k)
    }

    // Where a record stands. The offset is in the contents, so nothing is added up.
    #[tactic(auto, using(crate::proofs::Places::placing))]
    fn place(&self, k: usize, i: usize) -> usize
        requires table { k < 6 }
        requires row { i < count_of self.now.bytes.now k }
        ensures { Place self.now.bytes.now k i result }
    {
        offset_of(self.bytes, k) + size_of(k) * i
    }

    #[tactic(auto, using(crate::proofs::RecordLaws::records))]
    pub fn predicate(&self, i: usize) -> Predicate
        requires { i < predicate_count self.now.bytes.now }
        ensures is { result ≡ predicate_in self.now.bytes.now i }
        ensures small { result.level < 256 }
    {
        let at = self.place(PREDICATES, i);
        Predicate {
            kind: self.bytes[at],
            level: usize::from(self.bytes[at + 1]),
        }
    }

    #[tactic(auto, using(crate::proofs::RecordLaws::records))]
    pub fn atom(&self, i: usize) -> Atom
        requires { i < atom_count self.now.bytes.now }
        ensures is { result ≡ atom_in self.now.bytes.now i }
        ensures small { result.predicate < 2 ^ 16 }
    {
        let at = self.place(ATOMS, i);
        Atom {
            predicate: word(self.bytes, at),
            given: self.bytes[at + 2],
        }
    }

    #[tactic(auto, using(crate::proofs::RecordLaws::records))]
    pub fn rule(&self, i: usize) -> RuleRecord
        requires { i < rule_count self.now.bytes.now }
        ensures is { result ≡ rule_in self.now.bytes.now i }
        ensures small { (result.head < 2 ^ 16) × (result.first < 2 ^ 16) × (result.many < 2 ^ 16) }
    {
        let at = self.place(RULES, i);
        RuleRecord {
            head: word(self.bytes, at),
            first: word(self.bytes, at + 2),
            many: word(self.bytes, at + 4),
        }
    }

    #[tactic(auto, using(crate::proofs::RecordLaws::records))]
    pub fn hypothesis(&self, i: usize) -> HypothesisRecord
        requires { i < hypothesis_count self.now.bytes.now }
        ensures is { result ≡ hypothesis_in self.now.bytes.now i }
        ensures small { result.index < 2 ^ 16 }
    {
        let at = self.place(HYPOTHESES, i);
        HypothesisRecord {
            sort: self.bytes[at],
            index: word(self.bytes, at + 1),
        }
    }

    #[tactic(auto, using(crate::proofs::RecordLaws::records))]
    pub fn comparison(&self, i: usize) -> ComparisonRecord
        requires { i < comparison_count self.now.bytes.now }
        ensures is { result ≡ comparison_in self.now.bytes.now i }
        ensures small { (nat_abs result.bound ≤ 2 ^ 31) × (result.first < 2 ^ 16) × (result.many < 2 ^ 16) }
    {
        let at = self.place(COMPARISONS, i);
        ComparisonRecord {
            aggregate: self.bytes[at],
            relation: self.bytes[at + 1],
            bound: signed(self.bytes, at + 2),
            first: word(self.bytes, at + 6),
            many: word(self.bytes, at + 8),
        }
    }

    #[tactic(auto, using(crate::proofs::RecordLaws::records))]
    pub fn element(&self, i: usize) -> ElementRecord
        requires { i < element_count self.now.bytes.now }
        ensures is { result ≡ element_in self.now.bytes.now i }
        ensures small { (result.atom < 2 ^ 16) × (nat_abs result.weight ≤ 2 ^ 31) }
    {
        let at = self.place(ELEMENTS, i);
        ElementRecord {
            sign: self.bytes[at],
            atom: word(self.bytes, at + 1),
            weight: signed(self.bytes, at + 3),
        }
    }
}
