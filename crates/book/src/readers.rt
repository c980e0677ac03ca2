// Numbers of a book, little-endian, and its table of contents. A reader asks that its bytes are there, and so pays for
// no check: the table of contents is there after check 1.
ghost use Rattle.std.specs.Prelude.{◌≡◌, ◌+◌, ◌^◌, ◌<◌, ◌≤◌, nat_abs, length, get_or};
ghost use Rattle.meaning.specs.Format.{contents, count_of, i32_at, offset_of, sizes, u16_at, u32_at};

// Bytes of a record of the tables 1 to 6. Document 01 names the form, here and with the limits: a constant table, and
// one loop over it. So a table goes by its number, here and in crate checks: an enum would be turned into it each time.
const SIZES: [usize; 6] = [2, 3, 6, 3, 10, 7];

pub(crate) fn word(book: &[u8], i: usize) -> usize
    requires { i + 2 ≤ length book.now }
    ensures is { result ≡ u16_at book.now i }
    ensures small { result < 2 ^ 16 }
{
    usize::from(u16::from_le_bytes([book[i], book[i + 1]]))
}

fn long(book: &[u8], i: usize) -> usize
    requires { i + 4 ≤ length book.now }
    ensures is { result ≡ u32_at book.now i }
    ensures small { result < 2 ^ 32 }
{
    u32::from_le_bytes([book[i], book[i + 1], book[i + 2], book[i + 3]]) as usize
}

// Two's complement of 32 bits.
pub(crate) fn signed(book: &[u8], i: usize) -> i64
    requires { i + 4 ≤ length book.now }
    ensures is { result ≡ i32_at book.now i }
    ensures small { nat_abs result ≤ 2 ^ 31 }
{
    i64::from(i32::from_le_bytes([book[i], book[i + 1], book[i + 2], book[i + 3]]))
}

// k is one of six: a loop over the tables, or a record's own.
pub fn size_of(k: usize) -> usize
    requires { k < 6 }
    ensures { result ≡ get_or sizes k 0 }
{
    SIZES[k]
}

// The table of contents, its entries numbered from 0.
#[tactic(auto, unfolding(meaning::specs::Format::offset_of))]
pub fn offset_of(book: &[u8], k: usize) -> usize
    requires there { contents ≤ length book.now }
    requires table { k < 6 }
    ensures is { result ≡ offset_of book.now k }
    ensures small { result < 2 ^ 32 }
{
    long(book, 8 * k)
}

#[tactic(auto, unfolding(meaning::specs::Format::count_of))]
pub fn count_of(book: &[u8], k: usize) -> usize
    requires there { contents ≤ length book.now }
    requires table { k < 6 }
    ensures is { result ≡ count_of book.now k }
    ensures small { result < 2 ^ 32 }
{
    long(book, 8 * k + 4)
}
