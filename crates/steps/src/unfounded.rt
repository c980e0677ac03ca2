// Step (c): the greatest unfounded set, found by striking out. No set is held but the assumed answers: at first all
// candidates of the level count as false, and a rule whose body is not false at what is assumed takes its head back.
ghost use Rattle.std.specs.Prelude.{◌≡◌};
ghost use Rattle.steps.specs.Work.{Exact};
ghost use Rattle.steps.specs.Due.{Due};
ghost use Rattle.steps.specs.Strike.{counted_truth};

use crate::level::Level;
use crate::order::{Order, START};
use crate::search::{Assumption, Finding, Search};
use book::tables::{MOST_ATOMS, MOST_COMPARISONS};
use judge::literal::{answer, set_answer};
use theory::answer::Truth;

// An atom to which all three steps are due counts as false.
fn counted(due: u8, x: Truth) -> Truth
    ensures { result ≡ counted_truth due x }
{
    if due == 3 { Truth::False } else { x }
}

impl<'a> Level<'a> {
    // The start of a search: all candidates count as false, the atoms to which all three steps are due.
    #[tactic(auto, using(crate::proofs::StartLaws::counted_fits))]
    fn assume(&self, due: &[u8; MOST_ATOMS]) -> Search<'a>
        requires { Due self.now.book.frame.bytes.now self.now.number self.now.answers.now due.now }
        ensures { result.level ≡ self.now }
    {
        let mut assumed = [Truth::Undefined; MOST_ATOMS];
        let mut left = 0u16;
        for a in 0..self.answers.len() {
            let x = answer(self.answers, a);
            set_answer(&mut assumed, a, counted(due[a], x));
            left += u16::from(due[a] == 3);
        }
        Search {
            level: *self,
            state: Assumption {
                book: self.book,
                assumed,
                comparisons: [Finding::Unknown; MOST_COMPARISONS],
                clear: [false; 64],
                left: usize::from(left),
            },
            front: START,
        }
    }

    // A search: turns until nothing is left, or a pass strikes nothing out.
    pub fn unfounded(&self, due: &[u8; MOST_ATOMS], order: &mut Order) -> [Truth; MOST_ATOMS]
        requires { Due self.now.book.frame.bytes.now self.now.number self.now.answers.now due.now }
        ensures { Exact self.now.book.frame.bytes.now self.now.number self.now.answers.now result }
    {
        let mut search = self.assume(due);
        while search.turn(order) {}
        search.state.assumed
    }
}
