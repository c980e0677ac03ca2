// Checks 4 and 5: codes that are not listed, and indices that are not in their tables, table by table.
ghost use Rattle.std.specs.Prelude.{◌≡◌, cond, ltb, ℕ, ◌<◌, Bool};
ghost use Rattle.meaning.specs.Format.{atom_count, comparison_count, count_of, tables};
ghost use Rattle.meaning.specs.Refusal.{code_refusals, first_of, refusal5};
ghost use Rattle.checks.specs.Faults.{Answering, at_place, bodies_refusal, stray_in, unlisted_in};
ghost use Rattle.checks.specs.Refused.{refused};

use crate::refusal::Refusal;
use book::frame::Frame;
use book::tables::{ATOMS, COMPARISONS, ELEMENTS, HYPOTHESES, PREDICATES, RULES};
use meaning::codes::Sort;

// 4, at record i of the k-th body. The bytes are compared as they stand, since what is not listed has no kind.
#[tactic(auto, unfolding(crate::specs::Faults::unlisted_in))]
fn unlisted(frame: &Frame, k: usize, i: usize) -> bool
    requires table { k < 6 }
    requires row { i < count_of frame.now.bytes.now k }
    ensures { result ≡ unlisted_in frame.now.bytes.now k i }
{
    match k {
        PREDICATES => {
            let predicate = frame.predicate(i);
            (3 < predicate.kind) | (127 < predicate.level)
        }
        ATOMS => 2 < frame.atom(i).given,
        HYPOTHESES => 2 < frame.hypothesis(i).sort,
        COMPARISONS => {
            let comparison = frame.comparison(i);
            (3 < comparison.aggregate) | (5 < comparison.relation)
        }
        ELEMENTS => 1 < frame.element(i).sign,
        _ => false,
    }
}

// How many records a hypothesis may point at: sorts 0 and 1 at atoms, any other, as refusal 5 has it, at comparisons.
fn among(frame: &Frame, sort: u8) -> usize
    ensures { let b = frame.now.bytes.now in result ≡ cond (ltb sort 2) (atom_count b) (comparison_count b) }
{
    match Sort::from(sort) {
        Sort::Atom | Sort::NotAtom => frame.count(ATOMS),
        Sort::Comparison => frame.count(COMPARISONS),
    }
}

// 5, likewise. No sum of two numbers of 16 bits wraps.
#[tactic(auto, unfolding(crate::specs::Faults::stray_in))]
fn stray(frame: &Frame, k: usize, i: usize) -> bool
    requires table { k < 6 }
    requires row { i < count_of frame.now.bytes.now k }
    ensures { result ≡ stray_in frame.now.bytes.now k i }
{
    match k {
        ATOMS => frame.count(PREDICATES) <= frame.atom(i).predicate,
        RULES => {
            let rule = frame.rule(i);
            (frame.count(ATOMS) <= rule.head) | (frame.count(HYPOTHESES) < rule.first + rule.many)
        }
        HYPOTHESES => {
            let hypothesis = frame.hypothesis(i);
            among(frame, hypothesis.sort) <= hypothesis.index
        }
        COMPARISONS => {
            let comparison = frame.comparison(i);
            frame.count(ELEMENTS) < comparison.first + comparison.many
        }
        ELEMENTS => frame.count(ATOMS) <= frame.element(i).atom,
        _ => false,
    }
}

// The lowest record at fault of the first body that has one: its table and its number. The test is the caller's, a
// closure: an enum of the two checks would be asked at each record which of them it is, and again for the refusal.
fn find_fault<F: Fn(usize, usize) -> bool>(frame: &Frame, at_fault: F) -> Option<(u8, u16)>
    requires { (k i : ℕ) → k < 6 → i < count_of frame.now.bytes.now k → F.pre at_fault k i }
    ensures { (number : ℕ) (test : ℕ → ℕ → Bool) → Answering (F.post at_fault) test →
        at_place number result ≡ bodies_refusal frame.now.bytes.now number test }
{
    for k in 0..6 {
        for i in 0..frame.count(k) {
            if at_fault(k, i) {
                return Some((k as u8 + 1, i as u16));
            }
        }
    }
    None
}

// 4: a code or level that is not listed.
pub(crate) fn check_codes(frame: &Frame) -> Result<(), Refusal>
    ensures { refused result ≡ first_of (code_refusals (tables frame.now.bytes.now)) }
{
    match find_fault(frame, |k, i| unlisted(frame, k, i)) {
        Some((table, record)) => Err(Refusal::Code { table, record }),
        None => Ok(()),
    }
}

// 5: an index that is not in its table, or a range that ends past it.
pub(crate) fn check_indices(frame: &Frame) -> Result<(), Refusal>
    ensures { refused result ≡ refusal5 (tables frame.now.bytes.now) }
{
    match find_fault(frame, |k, i| stray(frame, k, i)) {
        Some((table, record)) => Err(Refusal::Index { table, record }),
        None => Ok(()),
    }
}
