// Which rules have a false body at what step (c) assumes.
ghost use Rattle.std.specs.Prelude.{◌≡◌, not, ◌+◌, ◌*◌, ◌<◌, ◌≤◌, IfSome};
ghost use Rattle.theory.specs.Truth.{is_false};
ghost use Rattle.meaning.specs.Format.{comparison_count, hypothesis_count, rule_count};
ghost use Rattle.meaning.specs.Truth.{body_truth};
ghost use Rattle.book.specs.Records.{rule_read};
ghost use Rattle.judge.specs.Held.{fresh_at, held};
ghost use Rattle.steps.specs.Strike.{Begins, fails_at, fails_in};
ghost use Rattle.steps.specs.Search.{Looked, book_of};

use crate::search::{Assumption, Finding};
use judge::judge::Judge;
use judge::literal::is_false;
use theory::answer::Truth;

// The block that begins at h, if it ends by `end`.
fn block_at(h: usize, end: usize) -> Option<usize>
    requires order { h ≤ end }
    requires room { end ≤ 4096 }
    ensures { IfSome result (Begins h end) }
{
    if h % 64 != 0 {
        return None;
    }
    if end < h + 64 {
        return None;
    }
    Some(h / 64)
}

impl<'a> Assumption<'a> {
    // Comparison c is judged, and what was found is kept.
    fn judged_false(&mut self, c: usize) -> bool
        requires { c < comparison_count (book_of self.old) }
        ensures is { result ≡ is_false (fresh_at (book_of self.old) self.old.assumed c) }
        ensures same { Looked self.old self.new }
    {
        let judge = Judge {
            book: self.book,
            answers: &self.assumed,
        };
        if judge.comparison(c) == Truth::False {
            self.comparisons[c] = Finding::FalseAt(self.left as u16);
            return true;
        }
        self.comparisons[c] = Finding::NotFalse;
        false
    }

    fn comparison_fails(&mut self, c: usize) -> bool
        requires { c < comparison_count (book_of self.old) }
        ensures is { result ≡ is_false (fresh_at (book_of self.old) self.old.assumed c) }
        ensures same { Looked self.old self.new }
    {
        match self.comparisons[c] {
            Finding::NotFalse => false,
            Finding::FalseAt(left) if usize::from(left) == self.left => true,
            _ => self.judged_false(c),
        }
    }

    #[tactic(auto, using(judge::proofs::LiteralLaws::literals), unfolding(crate::specs::Strike::fails_at))]
    fn fails(&mut self, h: usize) -> bool
        requires { h < hypothesis_count (book_of self.old) }
        ensures is { result ≡ fails_at (book_of self.old) self.old.assumed h }
        ensures same { Looked self.old self.new }
    {
        let hypothesis = self.book.frame.hypothesis(h);
        match hypothesis.literal() {
            Some(literal) => is_false(&self.assumed, literal),
            None => self.comparison_fails(hypothesis.index),
        }
    }

    // Is one of the hypotheses from `first` on false, up to `end`?
    #[tactic(auto, using(crate::proofs::FailLaws::ranging))]
    fn some_fails(&mut self, first: usize, end: usize) -> bool
        requires order { first ≤ end }
        requires there { end ≤ hypothesis_count (book_of self.old) }
        ensures is { result ≡ fails_in (book_of self.old) self.old.assumed first end }
        ensures same { Looked self.old self.new }
    {
        for h in first..end {
            if self.fails(h) {
                return true;
            }
        }
        false
    }

    // The same of block k. It stays a call: a block is 64 hypotheses, and the loops over rules are the shorter without
    // it.
    #[inline(never)]
    #[tactic(auto, using(crate::proofs::KnownLaws::block_clear))]
    fn block_fails(&mut self, k: usize) -> bool
        requires block { k < 64 }
        requires there { 64 * k + 64 ≤ hypothesis_count (book_of self.old) }
        ensures is { let b = book_of self.old in
            result ≡ fails_in b self.old.assumed (64 * k) (64 * k + 64) }
        ensures same { Looked self.old self.new }
    {
        if self.clear[k] {
            return false;
        }
        if self.some_fails(64 * k, 64 * k + 64) {
            return true;
        }
        self.clear[k] = true;
        false
    }

    // Is no hypothesis of rule r false?
    #[inline(always)]
    #[tactic(auto, using(crate::proofs::FailLaws::ranging))]
    pub fn supports(&mut self, r: usize) -> bool
        requires { r < rule_count (book_of self.old) }
        ensures is { let b = book_of self.old in
            result ≡ not (is_false (body_truth (held self.old.assumed) (rule_read b r).body)) }
        ensures same { Looked self.old self.new }
    {
        let rule = self.book.frame.rule(r);
        let end = rule.first + rule.many;
        let mut h = rule.first;
        // by 64 or by 1, as no range goes
        while h < end {
            match block_at(h, end) {
                Some(k) => {
                    if self.block_fails(k) {
                        return false;
                    }
                    h += 64;
                }
                None => {
                    if self.fails(h) {
                        return false;
                    }
                    h += 1;
                }
            }
        }
        true
    }
}
