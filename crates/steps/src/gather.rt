// Steps (a) and (b): for each atom that a round may decide, the truth of the rules that conclude it.
ghost use Rattle.std.specs.Prelude.{◌≡◌};
ghost use Rattle.meaning.specs.Format.{rule_count};
ghost use Rattle.steps.specs.Round.{Gathered, join};

use crate::level::Level;
use book::tables::{MOST_ATOMS, RULES};
use judge::body::Bodies;
use judge::judge::Judge;
use theory::answer::Truth;

// One more body: true if one is true, false if both are false.
fn joined(best: Truth, body: Truth) -> Truth
    ensures { result ≡ join best body }
{
    match (best, body) {
        (Truth::True, _) | (_, Truth::True) => Truth::True,
        (Truth::False, Truth::False) => Truth::False,
        _ => Truth::Undefined,
    }
}

impl<'a> Level<'a> {
    // All rules once. An atom to which no step is due is passed over.
    pub fn gather(&self, due: &[u8; MOST_ATOMS]) -> [Truth; MOST_ATOMS]
        ensures { let b = self.now.book.frame.bytes.now in
            Gathered b self.now.answers.now due.now result (rule_count b) }
    {
        let mut bodies = Bodies::new(&Judge {
            book: self.book,
            answers: self.answers,
        });
        let mut best = [Truth::False; MOST_ATOMS];
        for r in 0..self.book.frame.count(RULES) {
            let head = self.book.frame.rule(r).head;
            if due[head] != 0 {
                best[head] = joined(best[head], bodies.body(r));
            }
        }
        best
    }
}
