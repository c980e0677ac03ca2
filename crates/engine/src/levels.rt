// What stands beside the rounds of a level: is there anything to decide, the closing of a certain level, the given
// answers.
ghost use Rattle.std.specs.Prelude.{◌≡◌, ◌<◌, length, take};
ghost use Rattle.laws.specs.Lists.{any_to};
ghost use Rattle.meaning.specs.Format.{atom_count, predicate_count, tables};
ghost use Rattle.meaning.specs.Reading.{given_of};
ghost use Rattle.meaning.specs.Model.{close, closing};
ghost use Rattle.steps.specs.Work.{levels_in, rules_in};
ghost use Rattle.steps.specs.Due.{pending_in};
ghost use Rattle.engine.specs.Levels.{level_is};

use book::ready::Book;
use book::tables::{ATOMS, MOST_ATOMS, PREDICATES};
use judge::literal::{answer, set_answer};
use steps::level::Level;
use theory::answer::Truth;

// Has the level a predicate? One without costs no more than this look.
fn inhabited(book: &Book, level: usize) -> bool
    ensures { let b = book.now.frame.bytes.now in result ≡ any_to (level_is b level) (predicate_count b) }
{
    (0..book.frame.count(PREDICATES)).any(|p| book.frame.predicate(p).level == level)
}

// Is some atom of the level undefined?
pub fn busy(level: &Level) -> bool
    ensures { let b = level.now.book.frame.bytes.now in
        result ≡ any_to (pending_in b level.now.number level.now.answers.now) (atom_count b) }
{
    inhabited(&level.book, level.number) && (0..level.answers.len()).any(|a| level.pending(a))
}

#[tactic(auto, unfolding(meaning::specs::Model::closing))]
fn closed_answer(book: &Book, level: usize, a: usize, x: Truth) -> Truth
    requires { a < atom_count book.now.frame.bytes.now }
    ensures { let b = book.now.frame.bytes.now in result ≡ closing (rules_in b) (levels_in b) level a x }
{
    if x == Truth::Undefined && book.level(a) == level && book.is_certain(a) {
        Truth::False
    } else {
        x
    }
}

// A certain level that is finished: all its other atoms become false.
#[tactic(auto, using(crate::proofs::LevelLaws::closes))]
pub fn close_level(book: &Book, answers: &mut [Truth], level: usize)
    requires { length answers.old ≡ atom_count book.now.frame.bytes.now }
    ensures { let b = book.now.frame.bytes.now in
        answers.new ≡ close (rules_in b) (levels_in b) level answers.old }
{
    for a in 0..answers.len() {
        let x = closed_answer(book, level, a, answer(answers, a));
        set_answer(answers, a, x);
    }
}

// The answers that the book gives.
#[tactic(auto, using(crate::proofs::LevelLaws::giving), unfolding(judge::specs::Held::held))]
pub fn given_answers(book: &Book) -> [Truth; MOST_ATOMS]
    ensures long { length result ≡ 2048 }
    ensures is { let b = book.now.frame.bytes.now in take (atom_count b) result ≡ given_of (tables b) }
{
    let mut answers = [Truth::Undefined; MOST_ATOMS];
    for a in 0..book.frame.count(ATOMS) {
        set_answer(&mut answers, a, Truth::from(book.frame.atom(a).given));
    }
    answers
}
