// What a round may do to each atom.
ghost use Rattle.std.specs.Prelude.{◌≡◌, ◌<◌};
ghost use Rattle.meaning.specs.Format.{atom_count};
ghost use Rattle.steps.specs.Due.{Due, due_in, pending_in, steps_of};

use crate::level::Level;
use book::tables::MOST_ATOMS;
use judge::literal::answer;
use meaning::codes::Kind;
use theory::answer::Truth;

// How many of the steps (a), (b) and (c) are for a kind: a number and no code, as `Due` has it.
fn steps_of(kind: Kind) -> u8
    ensures { result ≡ steps_of kind }
{
    match kind {
        Kind::Certain | Kind::Open => 1,
        Kind::Complete => 2,
        Kind::Closed => 3,
    }
}

impl<'a> Level<'a> {
    // Is the atom undefined, and of the level?
    #[tactic(auto, unfolding(crate::specs::Due::pending_in))]
    pub fn pending(&self, a: usize) -> bool
        requires { a < atom_count self.now.book.frame.bytes.now }
        ensures { result ≡ pending_in self.now.book.frame.bytes.now self.now.number self.now.answers.now a }
    {
        answer(self.answers, a) == Truth::Undefined && self.book.level(a) == self.number
    }

    #[tactic(auto, unfolding(crate::specs::Due::due_in))]
    fn due_at(&self, a: usize) -> u8
        requires { a < atom_count self.now.book.frame.bytes.now }
        ensures { result ≡ due_in self.now.book.frame.bytes.now self.now.number self.now.answers.now a }
    {
        if self.pending(a) {
            steps_of(self.book.kind(a))
        } else {
            0
        }
    }

    // For each atom, how many steps may decide it in a round of the level.
    pub fn due(&self) -> [u8; MOST_ATOMS]
        ensures { Due self.now.book.frame.bytes.now self.now.number self.now.answers.now result }
    {
        let mut steps = [0u8; MOST_ATOMS];
        for a in 0..self.answers.len() {
            steps[a] = self.due_at(a);
        }
        steps
    }
}
