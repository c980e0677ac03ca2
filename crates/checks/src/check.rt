// The twelve checks in their order: any bytes and any room get the one refusal that is theirs, or none. What a check
// hands on carries what the later ones need.
ghost use Rattle.std.specs.Prelude.{◌≡◌, ◌++◌, IfOk};
ghost use Rattle.meaning.specs.Format.{tables};
ghost use Rattle.meaning.specs.Refusal.{code_refusals, first_of, frame_refusals, level_refusals, record_refusals};
ghost use Rattle.meaning.specs.Refusal.{refusal, room_refusals};
ghost use Rattle.checks.specs.Refused.{refused};

use crate::frame::check_frame;
use crate::given::check_given;
use crate::mixture::check_mixture;
use crate::pairs::check_pairs;
use crate::records::{check_codes, check_indices};
use crate::refusal::Refusal;
use crate::uses::{check_certainty, check_heights, check_signs};
use book::frame::Frame;
use book::ready::Book;
use book::tables::ATOMS;

// 5 to 7: the records.
#[tactic(auto, using(book::proofs::IndexLaws::indexed))]
fn check_records<'a>(frame: &Frame<'a>) -> Result<Book<'a>, Refusal>
    ensures refusal { refused result ≡ first_of (record_refusals (tables frame.now.bytes.now)) }
    ensures same { IfOk result (λ book. book.frame.bytes.now ≡ frame.now.bytes.now) }
{
    check_indices(frame)?;
    let book = Book { frame: *frame };
    check_pairs(&book)?;
    check_given(&book)?;
    Ok(book)
}

// 1 to 7: the tables, whatever their levels.
fn check_tables<'a>(bytes: &'a [u8]) -> Result<Book<'a>, Refusal>
    ensures refusal { refused result ≡ first_of (let b = bytes.now in
        frame_refusals b ++ code_refusals (tables b) ++ record_refusals (tables b)) }
    ensures same { IfOk result (λ book. book.frame.bytes.now ≡ bytes.now) }
{
    let frame = check_frame(bytes)?;
    check_codes(&frame)?;
    check_records(&frame)
}

// 8 to 11: the levels.
fn check_levels(book: &Book) -> Result<(), Refusal>
    ensures { refused result ≡ first_of (level_refusals (tables book.now.frame.bytes.now)) }
{
    check_mixture(&book.frame)?;
    check_heights(book)?;
    check_signs(book)?;
    check_certainty(book)
}

// 12: answer room shorter than the number of atoms.
#[tactic(auto, using(meaning::proofs::Bytes::atoms_length), unfolding(meaning::specs::Refusal::refusal12))]
fn check_room(book: &Book, room: usize) -> Result<(), Refusal>
    ensures { refused result ≡ first_of (room_refusals (tables book.now.frame.bytes.now) room) }
{
    if room < book.frame.count(ATOMS) {
        return Err(Refusal::Room);
    }
    Ok(())
}

#[tactic(auto, unfolding(meaning::specs::Refusal::refusal))]
pub fn check<'a>(bytes: &'a [u8], room: usize) -> Result<Book<'a>, Refusal>
    ensures refusal { refused result ≡ refusal bytes.now room }
    ensures same { IfOk result (λ book. book.frame.bytes.now ≡ bytes.now) }
{
    let book = check_tables(bytes)?;
    check_levels(&book)?;
    check_room(&book, room)?;
    Ok(book)
}
