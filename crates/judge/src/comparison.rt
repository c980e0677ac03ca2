// The truth of a comparison.
ghost use Rattle.std.specs.Prelude.{◌≡◌, ◌<◌};
ghost use Rattle.meaning.specs.Format.{comparison_count};
ghost use Rattle.meaning.specs.Truth.{comparison_truth};
ghost use Rattle.book.specs.Records.{comparison_read};
ghost use Rattle.judge.specs.Held.{held};

use crate::extremes::{Reversed, Upward};
use crate::judge::Judge;
use crate::sums::{One, Own};
use meaning::codes::Aggregate;
use theory::answer::Truth;

impl<'a> Judge<'a> {
    // Count is sum with weights of 1, and min is max by the reversed order.
    pub fn comparison(&self, c: usize) -> Truth
        requires { c < comparison_count self.now.book.frame.bytes.now }
        ensures { let b = self.now.book.frame.bytes.now in
            result ≡ comparison_truth (held self.now.answers.now) (comparison_read b c) }
    {
        let record = self.book.frame.comparison(c);
        match Aggregate::from(record.aggregate) {
            Aggregate::Count => self.sum_truth::<One>(&record),
            Aggregate::Sum => self.sum_truth::<Own>(&record),
            Aggregate::Min => self.extreme_truth::<Reversed>(&record),
            Aggregate::Max => self.extreme_truth::<Upward>(&record),
        }
    }
}
