// Checks 9 to 11: how high a use reaches, and the highest use of a comparison.
ghost use Rattle.std.specs.Prelude.{◌≡◌, ◌<◌, ◌≤◌};
ghost use Rattle.meaning.specs.Format.{atom_count, comparison_count, element_count};
ghost use Rattle.book.specs.Records.{element_in};
ghost use Rattle.checks.specs.Uses.{asks_of, comparison_reach, limit_of, looks_at, reach_of, said_of, used_as};
ghost use Rattle.checks.specs.Refused.{said};

use crate::refusal::Refusal;
use crate::signs::{grows_in, shrinks_in};
use book::ready::Book;
use meaning::codes::{Aggregate, Literal, Relation};

// What a check asks of the atoms that a rule uses: 9 their levels, 10 the signs, 11 whether they are certain. It stays
// an enum, with four short matches: `specs/Uses` gives each answer by its cases, and closures or a trait would say each
// of them three times.
#[derive(Clone, Copy, PartialEq, Eq)]
pub(crate) enum Aspect {
    Height,
    Sign,
    Certainty,
}

impl Aspect {
    // The refusal of a rule at fault.
    pub(crate) fn refusal(self, rule: u16) -> Refusal
        ensures { said result ≡ said_of self rule }
    {
        match self {
            Aspect::Height => Refusal::Height { rule },
            Aspect::Sign => Refusal::Sign { rule },
            Aspect::Certainty => Refusal::Certainty { rule },
        }
    }
}

// A book, as one of the three checks looks at it.
#[derive(Clone, Copy)]
pub(crate) struct View<'a> {
    pub(crate) book: Book<'a>,
    pub(crate) aspect: Aspect,
}

impl<'a> View<'a> {
    // Does the check look at this use?
    fn looks_at(&self, atom: usize, positive: bool) -> bool
        requires { atom < atom_count self.now.book.frame.bytes.now }
        ensures { result ≡ looks_at self.now.book.frame.bytes.now self.now.aspect
            (record { atom = atom; positive = positive }) }
    {
        match self.aspect {
            Aspect::Height => true,
            Aspect::Sign => !positive,
            Aspect::Certainty => !self.book.is_certain(atom),
        }
    }

    // The level above the atom's if it does, else 0.
    #[tactic(auto, unfolding(crate::specs::Uses::reach_of))]
    pub(crate) fn use_reach(&self, atom: usize, positive: bool) -> usize
        requires { atom < atom_count self.now.book.frame.bytes.now }
        ensures is { result ≡ reach_of self.now.book.frame.bytes.now self.now.aspect
            (record { atom = atom; positive = positive }) }
        ensures small { result ≤ 256 }
    {
        if self.looks_at(atom, positive) {
            self.book.level(atom) + 1
        } else {
            0
        }
    }

    // The same of element e, by whether sign 0 and sign 1 are positive.
    fn element_reach(&self, plain: bool, negated: bool, e: usize) -> usize
        requires { e < element_count self.now.book.frame.bytes.now }
        ensures is { let b = self.now.book.frame.bytes.now in
            result ≡ reach_of b self.now.aspect (used_as plain negated (element_in b e)) }
        ensures small { result ≤ 256 }
    {
        match self.book.frame.element(e).literal() {
            Literal::Plain(atom) => self.use_reach(atom, plain),
            Literal::Negated(atom) => self.use_reach(atom, negated),
        }
    }

    // The highest of comparison c.
    #[tactic(auto, using(crate::proofs::ReachLaws::elements))]
    pub(crate) fn comparison_reach(&self, c: usize) -> usize
        requires { c < comparison_count self.now.book.frame.bytes.now }
        ensures is { result ≡ comparison_reach self.now.book.frame.bytes.now self.now.aspect c }
        ensures small { result ≤ 256 }
    {
        let comparison = self.book.frame.comparison(c);
        let aggregate = Aggregate::from(comparison.aggregate);
        let relation = Relation::from(comparison.relation);
        let plain = grows_in(aggregate, relation);
        let negated = shrinks_in(aggregate, relation);
        let mut reach = 0;
        for e in comparison.first..comparison.first + comparison.many {
            reach = self.element_reach(plain, negated, e).max(reach);
        }
        reach
    }

    // Does the check ask anything of rules with this head?
    pub(crate) fn asks_of(&self, head: usize) -> bool
        requires { head < atom_count self.now.book.frame.bytes.now }
        ensures { result ≡ asks_of self.now.book.frame.bytes.now self.now.aspect head }
    {
        match self.aspect {
            Aspect::Height => true,
            Aspect::Sign => self.book.is_certain(head),
            Aspect::Certainty => self.book.is_certain(head),
        }
    }

    // How high their uses may reach.
    pub(crate) fn limit_of(&self, head: usize) -> usize
        requires { head < atom_count self.now.book.frame.bytes.now }
        ensures { result ≡ limit_of self.now.book.frame.bytes.now self.now.aspect head }
    {
        match self.aspect {
            Aspect::Height => self.book.level(head) + 1,
            Aspect::Sign => self.book.level(head),
            Aspect::Certainty => 0,
        }
    }
}
