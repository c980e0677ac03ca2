// Step (c), one rule after the other: a rule whose body is not false at what is assumed takes its head back.
ghost use Rattle.std.specs.Prelude.{◌≡◌, true, false, ◌<◌, ◌≤◌};
ghost use Rattle.meaning.specs.Format.{rule_count};
ghost use Rattle.steps.specs.Work.{Exact};
ghost use Rattle.steps.specs.Strike.{strikes_at};
ghost use Rattle.steps.specs.Search.{Quiet, book_in};

use crate::order::Order;
use crate::search::Search;
use book::tables::RULES;
use judge::literal::{answer, set_answer};
use theory::answer::Truth;

impl<'a> Search<'a> {
    // Does rule r support a head that is undefined and only assumed false? Most do not: this is written into both loops
    // (`inline`), since a call would cost more than its first test.
    #[inline(always)]
    #[tactic(auto, unfolding(crate::specs::Strike::strikes_at))]
    fn strikes(&mut self, r: usize) -> bool
        requires { r < rule_count (book_in self.old) }
        ensures is { let s = self.old in
            result ≡ strikes_at (book_in s) s.level.answers.now s.state.assumed r }
        ensures same { Quiet self.old self.new }
    {
        let h = self.level.book.frame.rule(r).head;
        if answer(&self.state.assumed, h) != Truth::False {
            return false;
        }
        if answer(self.level.answers, h) != Truth::Undefined {
            return false;
        }
        self.state.supports(r)
    }

    // Rule r strikes, if it must: its head counts as false no longer. Returns whether it did.
    #[inline(always)]
    #[tactic(auto, using(crate::proofs::SearchLaws::strike_some, crate::proofs::SearchLaws::strike_lower))]
    fn strike(&mut self, r: usize) -> bool
        requires { r < rule_count (book_in self.old) }
        ensures is { let s = self.old in
            result ≡ strikes_at (book_in s) s.level.answers.now s.state.assumed r }
        ensures level { self.new.level ≡ self.old.level }
        ensures lower { result ≡ true → self.new.state.left < self.old.state.left }
        ensures same { result ≡ false → Quiet self.old self.new }
    {
        if !self.strikes(r) {
            return false;
        }
        let h = self.level.book.frame.rule(r).head;
        let state = &mut self.state;
        set_answer(&mut state.assumed, h, Truth::Undefined);
        state.left -= 1;
        true
    }

    // A try: the remembered rules that have not struck in this search, in their order. One that strikes moves to the
    // front.
    fn try_order(&mut self, order: &mut Order)
        ensures level { self.new.level ≡ self.old.level }
        ensures fewer { self.new.state.left ≤ self.old.state.left }
    {
        let rules = self.level.book.frame.count(RULES);
        let mut p = self.front;
        let mut quiet = 0;
        // a rule that strikes does not count, as it would in a `for`
        while quiet < rules {
            if self.state.left == 0 {
                break;
            }
            let r = order.after(p);
            if rules <= r {
                break;
            }
            if self.strike(r) {
                p = order.advance(self.front, p, r);
                self.front = r;
            } else {
                p = r;
                quiet += 1;
            }
        }
    }

    // One pass over all the rules; those that strike are remembered. One that strikes nothing ends the search.
    #[tactic(auto, using(crate::proofs::SearchLaws::passing))]
    fn pass(&mut self, order: &mut Order) -> bool
        ensures level { self.new.level ≡ self.old.level }
        ensures fewer { self.new.state.left ≤ self.old.state.left }
        ensures lower { result ≡ true → self.new.state.left < self.old.state.left }
        ensures ends { let s = self.new in
            result ≡ false → Exact (book_in s) s.level.number s.level.answers.now s.state.assumed }
    {
        let mut struck = false;
        for r in 0..self.level.book.frame.count(RULES) {
            if self.strike(r) {
                order.remember(self.front, r);
                self.front = r;
                struck = true;
            }
        }
        struck
    }

    // A try, and a pass if that leaves something. Returns whether there may be more to strike.
    #[tactic(auto, using(crate::proofs::SearchLaws::left_none))]
    pub fn turn(&mut self, order: &mut Order) -> bool
        ensures level { self.new.level ≡ self.old.level }
        ensures fewer { self.new.state.left ≤ self.old.state.left }
        ensures lower { result ≡ true → self.new.state.left < self.old.state.left }
        ensures ends { let s = self.new in
            result ≡ false → Exact (book_in s) s.level.number s.level.answers.now s.state.assumed }
    {
        self.try_order(order);
        if self.state.left == 0 {
            return false;
        }
        self.pass(order)
    }
}
