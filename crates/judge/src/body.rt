// The truth of a hypothesis and of a rule body. A comparison is judged when a rule first asks for it, once for a round.
ghost use Rattle.std.specs.Prelude.{◌≡◌, ◌<◌};
ghost use Rattle.meaning.specs.Format.{comparison_count, hypothesis_count, rule_count};
ghost use Rattle.meaning.specs.Truth.{body_truth};
ghost use Rattle.book.specs.Records.{hypothesis_in, rule_read};
ghost use Rattle.judge.specs.Held.{Asked, fresh_at, held, record_truth};

use crate::judge::Judge;
use crate::literal::literal;
use book::tables::MOST_COMPARISONS;
use theory::answer::Truth;

// The truths of rule bodies at some answers. Known are those of the comparisons that a rule has asked for.
#[derive(Drop)]
pub struct Bodies<'a> {
    pub judge: Judge<'a>,
    pub known: [Option<Truth>; MOST_COMPARISONS],
    ghost asked: { Asked judge.book.frame.bytes.now judge.answers.now known },
}

impl<'a> Bodies<'a> {
    pub fn new(judge: &Judge<'a>) -> Bodies<'a>
        ensures { result.judge ≡ judge.now }
    {
        Bodies {
            judge: *judge,
            known: [None; MOST_COMPARISONS],
        }
    }

    // What is kept is a truth; a search of step (c) keeps other findings, and when they were made.
    fn compared(&mut self, c: usize) -> Truth
        requires { c < comparison_count self.old.judge.book.frame.bytes.now }
        ensures is { result ≡ fresh_at self.old.judge.book.frame.bytes.now self.old.judge.answers.now c }
        ensures judge { self.new.judge ≡ self.old.judge }
    {
        if let Some(truth) = self.known[c] {
            return truth;
        }
        let truth = self.judge.comparison(c);
        self.known[c] = Some(truth);
        truth
    }

    // Its truth; a search of step (c) asks whether it is false, and needs less.
    #[tactic(auto, using(crate::proofs::LiteralLaws::literals))]
    fn hypothesis(&mut self, h: usize) -> Truth
        requires { h < hypothesis_count self.old.judge.book.frame.bytes.now }
        ensures is { let b = self.old.judge.book.frame.bytes.now in let A = self.old.judge.answers.now in
            result ≡ record_truth (held A) (fresh_at b A) (hypothesis_in b h) }
        ensures judge { self.new.judge ≡ self.old.judge }
    {
        let record = self.judge.book.frame.hypothesis(h);
        match record.literal() {
            Some(asked) => literal(self.judge.answers, asked),
            None => self.compared(record.index),
        }
    }

    // True when all hypotheses are true and false when one is false: the first false one ends the reading.
    pub fn body(&mut self, r: usize) -> Truth
        requires { r < rule_count self.old.judge.book.frame.bytes.now }
        ensures is { let b = self.old.judge.book.frame.bytes.now in
            result ≡ body_truth (held self.old.judge.answers.now) (rule_read b r).body }
        ensures judge { self.new.judge ≡ self.old.judge }
    {
        let rule = self.judge.book.frame.rule(r);
        let mut all = Truth::True;
        for h in rule.first..rule.first + rule.many {
            match self.hypothesis(h) {
                Truth::Undefined => all = Truth::Undefined,
                Truth::True => {}
                Truth::False => return Truth::False,
            }
        }
        all
    }
}
