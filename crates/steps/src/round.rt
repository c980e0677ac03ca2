// A round: all three steps at once, from the answers before it.
ghost use Rattle.steps.specs.Round.{Turn};

use crate::level::Level;
use crate::order::Order;
use crate::settle::settle;
use book::tables::MOST_ATOMS;
use theory::answer::Truth;

impl<'a> Level<'a> {
    // The answers after it, if it changes one. The order is step (c)'s: it may hold anything, and no answer depends on
    // it.
    #[tactic(auto, using(crate::proofs::RoundLaws::turned))]
    pub fn round(&self, order: &mut Order) -> Option<[Truth; MOST_ATOMS]>
        ensures { Turn self.now.book.frame.bytes.now self.now.number self.now.answers.now result }
    {
        let due = self.due();
        let best = self.gather(&due);
        let assumed = self.unfounded(&due, order);
        settle(self.answers, &due, &best, &assumed)
    }
}
