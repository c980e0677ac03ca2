// Check 7: given answers. The heads of all rules are marked once, so the rules aren't read again for each atom.
ghost use Rattle.std.specs.Prelude.{◌≡◌, ◌<◌};
ghost use Rattle.meaning.specs.Format.{atom_count, tables};
ghost use Rattle.meaning.specs.Reading.{reading};
ghost use Rattle.meaning.specs.Refusal.{refusal7};
ghost use Rattle.checks.specs.Marks.{Marked, wrong_in};
ghost use Rattle.checks.specs.Refused.{refused};

use crate::refusal::Refusal;
use book::ready::Book;
use book::tables::{ATOMS, MOST_ATOMS, RULES};
use meaning::codes::Kind;

// One mark for each atom: does a rule conclude it?
#[tactic(auto, using(crate::proofs::GivenLaws::mark_none))]
fn heads(book: &Book) -> [bool; MOST_ATOMS]
    ensures { Marked book.now.frame.bytes.now result }
{
    let mut marks = [false; MOST_ATOMS];
    for i in 0..book.frame.count(RULES) {
        marks[book.frame.rule(i).head] = true;
    }
    marks
}

// 7, at one atom.
fn wrong(book: &Book, marks: &[bool], a: usize) -> bool
    requires heads { Marked book.now.frame.bytes.now marks.now }
    requires atom { a < atom_count book.now.frame.bytes.now }
    ensures { result ≡ wrong_in book.now.frame.bytes.now a }
{
    // by the byte, as the definition has it
    (book.frame.atom(a).given != 0) & ((book.kind(a) != Kind::Open) | marks[a])
}

// 7: an answer given to an atom that isn't open, or that a rule concludes.
#[tactic(auto, using(crate::proofs::GivenLaws::checking))]
pub(crate) fn check_given(book: &Book) -> Result<(), Refusal>
    ensures { let t = tables book.now.frame.bytes.now in refused result ≡ refusal7 (reading t) t.atoms }
{
    let marks = heads(book);
    // as in check 8
    for a in 0..book.frame.count(ATOMS) {
        if wrong(book, &marks, a) {
            return Err(Refusal::Given { atom: a as u16 });
        }
    }
    Ok(())
}
