// What a book's table of contents says, before any check.
ghost use Rattle.std.specs.Prelude.{◌≡◌};
ghost use Rattle.doughpillar.specs.Contents.{atoms_said};

use book::readers::count_of;
use book::tables::ATOMS;

// The bytes of a table of contents.
const CONTENTS: usize = 48;

// How many atoms the book says that it has: none if it has no table of contents. A book that is accepted has so many.
#[unsafe(no_mangle)]
#[tactic(auto, unfolding(crate::specs::Contents::atoms_said))]
pub extern "C" fn doughpillar_atoms(book: &[u8]) -> u32
    ensures { result ≡ atoms_said book.now }
{
    if book.len() < CONTENTS {
        return 0;
    }
    count_of(book, ATOMS) as u32
}
