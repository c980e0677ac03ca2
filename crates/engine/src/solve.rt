// Levels from 0 upward; each starts from the lower levels' answers and the given atoms.
ghost use Rattle.std.specs.Prelude.{◌≡◌, length, take};
ghost use Rattle.meaning.specs.Format.{atom_count};
ghost use Rattle.meaning.specs.Model as Model;
ghost use Rattle.meaning.specs.Outcome.{model_of};
ghost use Rattle.steps.specs.Work.{levels_in, rules_in};

use crate::levels::{busy, close_level, given_answers};
use crate::rounds::rounds;
use book::ready::Book;
use book::tables::{ATOMS, MOST_ATOMS};
use steps::level::Level;
use steps::order::Order;
use theory::answer::Truth;

// One level, and its closing if it is certain.
#[tactic(auto, using(crate::proofs::SolveLaws::levelling))]
fn work_level(book: &Book, level: usize, answers: &mut [Truth; MOST_ATOMS], order: &mut Order)
    ensures { let b = book.now.frame.bytes.now in
        take (atom_count b) answers.new
        ≡ Model.level (rules_in b) (levels_in b) level (take (atom_count b) answers.old) }
{
    let n = book.frame.count(ATOMS);
    let at = Level {
        book: *book,
        number: level,
        answers: &answers[..n],
    };
    if busy(&at) {
        rounds(book, level, answers, order);
        close_level(book, &mut answers[..n], level);
    }
}

// The model of a book.
#[tactic(auto, using(crate::proofs::SolveLaws::all_levels), unfolding(meaning::specs::Model::levels_below))]
pub fn solve(book: &Book) -> [Truth; MOST_ATOMS]
    ensures long { length result ≡ 2048 }
    ensures is { let b = book.now.frame.bytes.now in take (atom_count b) result ≡ model_of b }
{
    let mut answers = given_answers(book);
    let mut order = Order::empty();
    for level in 0..128 {
        work_level(book, level, &mut answers, &mut order);
    }
    answers
}
