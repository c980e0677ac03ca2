// The answers, written into the room once.
ghost use Rattle.std.specs.Prelude.{◌≡◌, length, take};
ghost use Rattle.meaning.specs.Outcome.{written};

use judge::literal::answer;
use theory::answer::Truth;

// As many answers as there is room for, as the bytes that C is given; later bytes stay.
#[tactic(auto, using(crate::proofs::WriteLaws::written_all), unfolding(judge::specs::Held::held))]
pub fn write_answers(answers: &[Truth], room: &mut [u8])
    ensures { room.new ≡ written (take (length room.old) answers.now) room.old }
{
    for a in 0..room.len().min(answers.len()) {
        room[a] = u8::from(answer(answers, a));
    }
}
