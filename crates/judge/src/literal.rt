// The truth of an atom and of a literal.
ghost use Rattle.std.specs.Prelude.{◌≡◌, ◌<◌, length, set};
ghost use Rattle.theory.specs.Truth.{is_false, is_true};
ghost use Rattle.meaning.specs.Reading.{atom_of};
ghost use Rattle.meaning.specs.Truth.{literal_truth};
ghost use Rattle.judge.specs.Held.{held};

use meaning::codes::Literal;
use theory::answer::Truth;

// No other function reads the answers' memory.
#[tactic(auto, unfolding(crate::specs::Held::held))]
pub fn answer(answers: &[Truth], a: usize) -> Truth
    requires { a < length answers.now }
    ensures { result ≡ held answers.now a }
{
    answers[a]
}

// And no other function writes it.
pub fn set_answer(answers: &mut [Truth], a: usize, x: Truth)
    requires { a < length answers.old }
    ensures { answers.new ≡ set answers.old a x }
{
    answers[a] = x;
}

#[tactic(auto, unfolding(meaning::specs::Truth::literal_truth))]
pub fn literal(answers: &[Truth], literal: Literal) -> Truth
    requires { atom_of literal < length answers.now }
    ensures { result ≡ literal_truth (held answers.now) literal }
{
    match literal {
        Literal::Plain(a) => answer(answers, a),
        Literal::Negated(a) => answer(answers, a).flip(),
    }
}

// Is it true? Here and below "not" chooses with what the atom's answer is compared: to flip the answer first takes a
// table, of which no loop over elements is made of vectors.
#[tactic(auto, unfolding(meaning::specs::Truth::literal_truth))]
pub fn is_true(answers: &[Truth], literal: Literal) -> bool
    requires { atom_of literal < length answers.now }
    ensures { result ≡ is_true (literal_truth (held answers.now) literal) }
{
    match literal {
        Literal::Plain(a) => answer(answers, a) == Truth::True,
        Literal::Negated(a) => answer(answers, a) == Truth::False,
    }
}

// Is it false?
#[tactic(auto, unfolding(meaning::specs::Truth::literal_truth))]
pub fn is_false(answers: &[Truth], literal: Literal) -> bool
    requires { atom_of literal < length answers.now }
    ensures { result ≡ is_false (literal_truth (held answers.now) literal) }
{
    match literal {
        Literal::Plain(a) => answer(answers, a) == Truth::False,
        Literal::Negated(a) => answer(answers, a) == Truth::True,
    }
}
