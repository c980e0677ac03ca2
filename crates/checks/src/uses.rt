// Checks 9 to 11: each rule against the atoms that it uses, of which none may reach above the limit of the rule's head.
// The highest use of each comparison is found once, for all rules that name it.
ghost use Rattle.std.specs.Prelude.{◌≡◌, ◌<◌};
ghost use Rattle.std.proofs.Math.Option.{none};
ghost use Rattle.meaning.specs.Format.{comparison_count, hypothesis_count, rule_count, tables};
ghost use Rattle.meaning.specs.Reading.{levels_of, reading};
ghost use Rattle.meaning.specs.Refusal.{refusal10, refusal11, refusal9};
ghost use Rattle.checks.specs.Uses.{Reaches, hypothesis_reach, rule_fault, rule_refusal};
ghost use Rattle.checks.specs.Refused.{refused};

use crate::reaches::{Aspect, View};
use crate::refusal::Refusal;
use book::ready::Book;
use book::tables::{COMPARISONS, MOST_COMPARISONS, RULES};
use meaning::codes::Sort;

// How high each comparison of a book reaches, found once for all rules that name it.
#[inline(always)]
fn reaches(view: View) -> [u16; MOST_COMPARISONS]
    ensures { let b = view.entry.book.frame.bytes.now in Reaches b view.entry.aspect (comparison_count b) result }
{
    let mut found = [0u16; MOST_COMPARISONS];
    for c in 0..view.book.frame.count(COMPARISONS) {
        found[c] = view.comparison_reach(c) as u16;
    }
    found
}

// A book as one of the three checks looks at it, and how high its comparisons reach. What asks this is written into
// each of the three (`inline`), so that no loop asks which of them it is. The array is lent for that: one that stood in
// here would keep the aspect in memory beside it, and a book whose rules name many hypotheses takes a third more then.
#[derive(Clone, Copy)]
struct Reach<'a, 'b> {
    view: View<'a>,
    found: &'b [u16; MOST_COMPARISONS],
    ghost right: { let b = view.book.frame.bytes.now in Reaches b view.aspect (comparison_count b) found.now },
}

impl<'a, 'b> Reach<'a, 'b> {
    // How high hypothesis h reaches.
    #[inline(always)]
    #[tactic(auto, using(crate::proofs::HypothesisLaws::sorts))]
    fn hypothesis_reach(&self, h: usize) -> usize
        requires { h < hypothesis_count self.now.view.book.frame.bytes.now }
        ensures { result ≡ hypothesis_reach self.now.view.book.frame.bytes.now self.now.view.aspect h }
    {
        let hypothesis = self.view.book.frame.hypothesis(h);
        // a match was tried, and computes the code anew for each hypothesis
        let sort = Sort::from(hypothesis.sort);
        if sort == Sort::Comparison {
            return usize::from(self.found[hypothesis.index]);
        }
        self.view.use_reach(hypothesis.index, sort == Sort::Atom)
    }

    // Does a hypothesis of rule r reach above the limit?
    #[inline(always)]
    fn rule_fault(&self, r: usize) -> bool
        requires { r < rule_count self.now.view.book.frame.bytes.now }
        ensures { result ≡ rule_fault self.now.view.book.frame.bytes.now self.now.view.aspect r }
    {
        let rule = self.view.book.frame.rule(r);
        if !self.view.asks_of(rule.head) {
            return false;
        }
        let limit = self.view.limit_of(rule.head);
        // `any` was tried, and reads the table's offset anew for each hypothesis
        for h in rule.first..rule.first + rule.many {
            if limit < self.hypothesis_reach(h) {
                return true;
            }
        }
        false
    }
}

// The lowest such rule.
#[inline(always)]
#[tactic(auto, using(crate::proofs::RuleLaws::ruled))]
fn check_rules(book: &Book, aspect: Aspect) -> Result<(), Refusal>
    ensures { refused result ≡ rule_refusal book.now.frame.bytes.now aspect }
{
    let view = View {
        book: *book,
        aspect,
    };
    let found = reaches(view);
    let reach = Reach {
        view,
        found: &found,
    };
    // as in check 8
    for r in 0..book.frame.count(RULES) {
        if reach.rule_fault(r) {
            return Err(aspect.refusal(r as u16));
        }
    }
    Ok(())
}

// The three differ in the aspect alone; each has the contract of its own refusal.

// 9: a rule uses a predicate of a higher level than its head's.
pub(crate) fn check_heights(book: &Book) -> Result<(), Refusal>
    ensures { let t = tables book.now.frame.bytes.now in refused result ≡ refusal9 (reading t).rules (levels_of t) }
{
    check_rules(book, Aspect::Height)
}

// 10: the head is certain and uses a predicate of its own level non-positively. It is made after 9, so that no atom
// that a rule uses is above its head's level.
pub(crate) fn check_signs(book: &Book) -> Result<(), Refusal>
    requires { let t = tables book.now.frame.bytes.now in refusal9 (reading t).rules (levels_of t) ≡ none }
    ensures { let t = tables book.now.frame.bytes.now in refused result ≡ refusal10 (reading t) (levels_of t) }
{
    check_rules(book, Aspect::Sign)
}

// 11: the head is certain and uses an uncertain predicate.
pub(crate) fn check_certainty(book: &Book) -> Result<(), Refusal>
    ensures { refused result ≡ refusal11 (reading (tables book.now.frame.bytes.now)) }
{
    check_rules(book, Aspect::Certainty)
}
