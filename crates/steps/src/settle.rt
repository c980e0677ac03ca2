// What a round writes: all three steps at once, from the answers before it.
ghost use Rattle.std.specs.Prelude.{◌≡◌, ◌≤◌, length};
ghost use Rattle.steps.specs.Round.{Settled, next_truth};

use book::tables::MOST_ATOMS;
use judge::literal::{answer, set_answer};
use theory::answer::Truth;

// One atom: its answer stays where no step is due.
#[tactic(auto, unfolding(crate::specs::Round::next_truth))]
fn next_answer(due: u8, x: Truth, best: Truth, assumed: Truth) -> Truth
    ensures { result ≡ next_truth due x best assumed }
{
    // judged before it is asked for, so that the loop over the atoms is made of vectors
    let falls = (2 <= due) & (best == Truth::False) | (assumed == Truth::False);
    if due == 0 {
        x
    } else if best == Truth::True {
        Truth::True
    } else if falls {
        Truth::False
    } else {
        Truth::Undefined
    }
}

// All atoms: their next answers, if one of them differs from before.
pub fn settle(
    answers: &[Truth],
    due: &[u8; MOST_ATOMS],
    best: &[Truth; MOST_ATOMS],
    assumed: &[Truth; MOST_ATOMS],
) -> Option<[Truth; MOST_ATOMS]>
    requires { length answers.now ≤ 2048 }
    ensures { Settled answers.now due.now best.now assumed.now result }
{
    let mut now = [Truth::Undefined; MOST_ATOMS];
    let mut changed = false;
    for a in 0..answers.len() {
        let x = answer(answers, a);
        let v = next_answer(due[a], x, best[a], answer(assumed, a));
        set_answer(&mut now, a, v);
        changed |= v != x;
    }
    if changed { Some(now) } else { None }
}
