// A search of step (c): what is assumed so far, and what it knows of rule bodies. Strikes only take answers away, so
// what is not false stays so for the whole search, and what is false need not be judged again before the next strike.
ghost use Rattle.std.specs.Prelude.{◌≡◌, ◌<◌};
ghost use Rattle.steps.specs.Strike.{Known, Searched};

use crate::level::Level;
use book::ready::Book;
use book::tables::{MOST_ATOMS, MOST_COMPARISONS};
use theory::answer::Truth;

// What judging a comparison found last; if false, how many atoms were left to strike then.
#[derive(Clone, Copy)]
pub enum Finding {
    Unknown,
    NotFalse,
    FalseAt(u16),
}

// What is assumed at some moment, and what is known of rule bodies there.
#[derive(Drop)]
pub struct Assumption<'a> {
    pub book: Book<'a>,
    // the answers, with the candidates that no rule has taken back counted as false
    pub assumed: [Truth; MOST_ATOMS],
    // what was found of each comparison
    pub comparisons: [Finding; MOST_COMPARISONS],
    // of each block of 64 hypotheses, whether it is known that none is false
    pub clear: [bool; 64],
    // how many atoms are left that are only assumed false
    pub left: usize,
    ghost known: { Known book.frame.bytes.now assumed comparisons clear left },
}

// How far it has come.
#[derive(Drop)]
pub struct Search<'a> {
    pub level: Level<'a>,
    pub state: Assumption<'a>,
    // the rule that struck last, or where the order starts
    pub front: usize,
    ghost same: { state.book ≡ level.book },
    ghost searched: { let b = level.book.frame.bytes.now in
        Searched b level.number level.answers.now state.assumed state.left },
    ghost place: { front < 2049 },
}
