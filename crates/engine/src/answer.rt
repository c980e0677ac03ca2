// The whole of document 01: any bytes and any room get answers or the one refusal that is theirs.
ghost use Rattle.std.specs.Prelude.{◌≡◌};
ghost use Rattle.meaning.specs.Outcome.{outcome};

use crate::solve::solve;
use crate::write::write_answers;
use book::tables::ATOMS;
use checks::check::check;

// A number in place of a Result: its contract is the C entry's, 0 or the number of the refusal.
#[tactic(auto, using(crate::proofs::AnswerLaws::answering))]
pub fn answer(book: &[u8], room: &mut [u8]) -> u32
    ensures number { result ≡ (outcome book.now room.old).number }
    ensures room { room.new ≡ (outcome book.now room.old).room }
{
    match check(book, room.len()) {
        Ok(book) => {
            let n = book.frame.count(ATOMS);
            let answers = solve(&book);
            write_answers(&answers[..n], room);
            0
        }
        Err(refusal) => u32::from(refusal),
    }
}
