// Check 8: a predicate shares its level with a lower-numbered one, one certain and the other uncertain.
ghost use Rattle.std.specs.Prelude.{◌≡◌, ◌<◌};
ghost use Rattle.meaning.specs.Format.{predicate_count, tables};
ghost use Rattle.meaning.specs.Refusal.{mixed, mixed_below, refusal8};
ghost use Rattle.meaning.specs.Reading.{is_certain, kind_of};
ghost use Rattle.book.specs.Records.{predicate_in};
ghost use Rattle.checks.specs.Refused.{refused};

use crate::refusal::Refusal;
use book::frame::Frame;
use book::tables::PREDICATES;
use meaning::codes::Kind;
use meaning::records::Predicate;

// Of a record: `is_certain` of `Book` is of an atom.
fn certain(predicate: Predicate) -> bool
    ensures { result ≡ is_certain (kind_of predicate.kind) }
{
    Kind::from(predicate.kind) == Kind::Certain
}

// One level for a certain predicate and an uncertain one.
fn mixed(p: Predicate, q: Predicate) -> bool
    ensures { result ≡ mixed p q }
{
    (p.level == q.level) & (certain(p) != certain(q))
}

// The predicates below the i-th.
fn mixed_below(frame: &Frame, i: usize) -> bool
    requires { i < predicate_count frame.now.bytes.now }
    ensures { let b = frame.now.bytes.now in result ≡ mixed_below (tables b).predicates i (predicate_in b i) }
{
    let predicate = frame.predicate(i);
    (0..i).any(|j| mixed(predicate, frame.predicate(j)))
}

// 8: the lowest predicate that does.
#[tactic(auto, using(crate::proofs::MixtureLaws::mixture))]
pub(crate) fn check_mixture(frame: &Frame) -> Result<(), Refusal>
    ensures { refused result ≡ refusal8 (tables frame.now.bytes.now).predicates }
{
    // a loop of three lines: a search that is lent the test was tried, and is no shorter
    for i in 0..frame.count(PREDICATES) {
        if mixed_below(frame, i) {
            return Err(Refusal::Mixture {
                predicate: i as u16,
            });
        }
    }
    Ok(())
}
