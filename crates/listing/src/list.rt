// The listing of a book, as one text, and into a buffer that the caller lends.
ghost use Rattle.std.specs.Prelude.{◌≡◌, ◌+◌, ◌*◌, ◌≤◌, ◌++◌, length, take, drop};
ghost use Rattle.std.specs.Counts.{IsPrefixLen};
ghost use Rattle.meaning.specs.Format.{atom_count};
ghost use Rattle.meaning.specs.Demands.{Accepted};
ghost use Rattle.listing.specs.Text.{answers_text, lines_of, listing_of, packed_text, room_length};
ghost use Rattle.listing.specs.Widths.{HasRoom, head_most, line_most, refused_most};

pub use crate::text::TEXT;
use crate::text::{Text, put_line, put_refused};
use book::readers::count_of;
use book::tables::ATOMS;
use engine::answer::answer;
use itoa::Buffer;

// The answer room is always long enough.
const ROOM: usize = 2048;

// The lines of all atoms, in index order.
#[tactic(auto, using(crate::proofs::TextLaws::lines))]
fn put_lines(text: &mut Text, room: &[u8])
    requires { HasRoom text.old (length room.now * line_most) }
    ensures { text.new.bytes ≡ text.old.bytes ++ lines_of room.now (length room.now) }
{
    for (atom, answer) in room.iter().enumerate() {
        put_line(text, atom, *answer);
    }
}

// First the number of atoms, then their lines.
#[tactic(auto, using(crate::proofs::TextLaws::pieces), unfolding(crate::specs::Text::answers_text))]
fn put_answers(text: &mut Text, room: &[u8])
    requires { HasRoom text.old (head_most + length room.now * line_most) }
    ensures { text.new.bytes ≡ text.old.bytes ++ answers_text (length room.now) room.now }
{
    text.push_str("answers ");
    text.push_str(Buffer::new().format(room.len()));
    text.push_str("\n");
    put_lines(text, room);
}

// One line: the entry returns the number, table and record of a refusal packed into one number, as C has it.
fn put_packed(text: &mut Text, packed: u32)
    requires { HasRoom text.old refused_most }
    ensures { text.new.bytes ≡ text.old.bytes ++ packed_text packed }
{
    let number = packed / 10_000_000;
    let table = packed / 1_000_000 % 10;
    let row = packed % 1_000_000;
    put_refused(text, number, table, row);
}

// How many atoms an accepted book has.
#[tactic(auto, using(crate::proofs::ListingLaws::accepted))]
fn atoms_of(book: &[u8]) -> usize
    requires { Accepted book.now room_length }
    ensures count { result ≡ atom_count book.now }
    ensures few { result ≤ room_length }
{
    count_of(book, ATOMS)
}

// What the program prints for a book, in place of what the text held.
#[tactic(auto, using(crate::proofs::ListingLaws::listed))]
pub fn list_text(book: &[u8], text: &mut Text)
    ensures { text.new.bytes ≡ listing_of book.now }
{
    let mut room = [0u8; ROOM];
    text.clear();
    match answer(book, &mut room) {
        0 => put_answers(text, &room[..atoms_of(book)]),
        packed => put_packed(text, packed),
    }
}

// What the program prints for a book, at the start of the buffer; later bytes stay.
pub fn list(book: &[u8], out: &mut [u8; TEXT]) -> usize
    ensures within { IsPrefixLen result out.new }
    ensures text { take result out.new ≡ listing_of book.now }
    ensures later { drop result out.new ≡ drop result out.old }
{
    let mut text = Text::new();
    list_text(book, &mut text);
    let bytes = text.as_str().as_bytes();
    out[..bytes.len()].copy_from_slice(bytes);
    bytes.len()
}
