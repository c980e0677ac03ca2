// What judges: a book, and the answers at which its comparisons and its rules are judged.
ghost use Rattle.std.specs.Prelude.{◌≤◌, length};
ghost use Rattle.meaning.specs.Format.{atom_count};

use book::ready::Book;
use theory::answer::Truth;

#[derive(Clone, Copy)]
pub struct Judge<'a> {
    pub book: Book<'a>,
    pub answers: &'a [Truth],
    ghost room: { atom_count book.frame.bytes.now ≤ length answers.now },
}
