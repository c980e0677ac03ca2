// Numbers, words and lines, each put at the end of the program's text. `write!` would put them as well, but no contract
// says that it succeeds where there is room: so each is pushed.
ghost use Rattle.std.specs.Prelude.{◌≡◌, ◌+◌, ◌≤◌, ◌++◌, length};
ghost use Rattle.arrayvec.specs.ArrayString.{array_string_len};
ghost use Rattle.meaning.specs.Reading.{truth_of};
ghost use Rattle.listing.specs.Text.{line_of, refused_text, spaced, word_of};
ghost use Rattle.listing.specs.Widths.{HasRoom, line_most, refused_most, spaced_most, word_most};

use arrayvec::ArrayString;
use itoa::Buffer;
use theory::answer::Truth;

// The text is always long enough: a first line of at most 29 bytes, and 2,048 lines of at most 31.
pub const TEXT: usize = 65536;

pub type Text = ArrayString<TEXT>;

// A number after a single space.
#[tactic(auto, using(crate::proofs::TextLaws::pieces), unfolding(crate::specs::Text::spaced))]
pub fn put_spaced(text: &mut Text, n: u32)
    requires { HasRoom text.old spaced_most }
    ensures spaced { text.new.bytes ≡ text.old.bytes ++ spaced n }
    ensures short { array_string_len text.new ≤ array_string_len text.old + spaced_most }
{
    text.push_str(" ");
    text.push_str(Buffer::new().format(n));
}

// One line: a refusal's number, and its place, table and record.
#[tactic(auto, unfolding(crate::specs::Text::place_text, crate::specs::Text::refused_text))]
pub fn put_refused(text: &mut Text, number: u32, table: u32, row: u32)
    requires { HasRoom text.old refused_most }
    ensures { text.new.bytes ≡ text.old.bytes ++ refused_text number table row }
{
    text.push_str("refused");
    put_spaced(text, number);
    put_spaced(text, table);
    put_spaced(text, row);
    text.push_str("\n");
}

// The word for an answer.
fn word(answer: Truth) -> &'static str
    ensures word { result.now ≡ word_of answer }
    ensures short { length result.now ≤ word_most }
{
    match answer {
        Truth::Undefined => "undefined",
        Truth::True => "true",
        Truth::False => "false",
    }
}

// One line: an atom's index and its answer, a byte of the room.
#[tactic(auto, using(crate::proofs::TextLaws::pieces), unfolding(crate::specs::Text::line_of))]
pub fn put_line(text: &mut Text, atom: usize, answer: u8)
    requires { HasRoom text.old line_most }
    ensures line { text.new.bytes ≡ text.old.bytes ++ line_of atom (truth_of answer) }
    ensures short { array_string_len text.new ≤ array_string_len text.old + line_most }
{
    text.push_str(Buffer::new().format(atom));
    text.push_str(" ");
    text.push_str(word(Truth::from(answer)));
    text.push_str("\n");
}
