// A level of a book, and the answers before a round.
ghost use Rattle.std.specs.Prelude.{◌≡◌, length};
ghost use Rattle.meaning.specs.Format.{atom_count};

use book::ready::Book;
use theory::answer::Truth;

#[derive(Clone, Copy)]
pub struct Level<'a> {
    pub book: Book<'a>,
    pub number: usize,
    pub answers: &'a [Truth],
    ghost whole: { length answers.now ≡ atom_count book.frame.bytes.now },
}
