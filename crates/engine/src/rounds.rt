// Rounds until one changes nothing.
ghost use Rattle.std.specs.Prelude.{◌≡◌, length, take};
ghost use Rattle.laws.specs.Lists.{times};
ghost use Rattle.meaning.specs.Format.{atom_count};
ghost use Rattle.meaning.specs.Model as Model;
ghost use Rattle.steps.specs.Work.{levels_in, rules_in};

use book::ready::Book;
use book::tables::{ATOMS, MOST_ATOMS};
use steps::level::Level;
use steps::order::Order;
use theory::answer::Truth;

// Leads where as many rounds as there are atoms lead. The order is step (c)'s: no answer depends on what it holds.
// Memory is fixed: the answers of the atoms are the first of 2,048.
#[tactic(auto, using(crate::proofs::RestLaws::resting))]
pub fn rounds(book: &Book, level: usize, answers: &mut [Truth; MOST_ATOMS], order: &mut Order)
    ensures { let b = book.now.frame.bytes.now in
        take (atom_count b) answers.new
        ≡ times (atom_count b) (Model.round (rules_in b) (levels_in b) level) (take (atom_count b) answers.old) }
{
    let n = book.frame.count(ATOMS);
    loop {
        let at = Level {
            book: *book,
            number: level,
            answers: &answers[..n],
        };
        let Some(after) = at.round(order) else {
            return;
        };
        *answers = after;
    }
}
