// Check 6: one atom twice in one comparison. Ranges of comparisons may overlap; how far each element was compared with
// those after it is remembered, so that no two elements are compared twice.
ghost use Rattle.std.specs.Prelude.{◌≡◌};
ghost use Rattle.meaning.specs.Format.{tables};
ghost use Rattle.meaning.specs.Refusal.{refusal6};
ghost use Rattle.checks.specs.Refused.{refused};

use crate::refusal::Refusal;
use book::ready::Book;
use book::tables::{COMPARISONS, MOST_ELEMENTS};

// 6: comparisons, elements and later elements, left with the place at the first pair. Document 01 names the form:
// labelled loops, one within another.
pub(crate) fn check_pairs(book: &Book) -> Result<(), Refusal>
    ensures { refused result ≡ refusal6 (tables book.now.frame.bytes.now) }
{
    let mut seen = [0u16; MOST_ELEMENTS];
    let mut outcome = Ok(());
    'comparisons: for c in 0..book.frame.count(COMPARISONS) {
        let comparison = book.frame.comparison(c);
        let end = comparison.first + comparison.many;
        for i in comparison.first..end {
            let atom = book.frame.element(i).atom;
            let next = usize::from(seen[i]).max(i + 1);
            for j in next..end {
                if book.frame.element(j).atom == atom {
                    outcome = Err(Refusal::Pair {
                        comparison: c as u16,
                    });
                    break 'comparisons;
                }
            }
            seen[i] = next.max(end) as u16;
        }
    }
    outcome
}
