// The entry of document 01: any bytes and any room get answers or the one refusal that is theirs.
ghost use Rattle.std.specs.Prelude.{◌≡◌};
ghost use Rattle.meaning.specs.Outcome.{outcome};

use engine::answer::answer;

#[unsafe(no_mangle)]
pub extern "C" fn doughpillar_answer(book: &[u8], room: &mut [u8]) -> u32
    ensures number { result ≡ (outcome book.now room.old).number }
    ensures room { room.new ≡ (outcome book.now room.old).room }
{
    answer(book, room)
}
