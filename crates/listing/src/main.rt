// Reads a book from standard input and prints its listing: one write of the whole text.
#![tactic(auto)]

ghost use Rattle.std.specs.Prelude.{◌≡◌, IfSome, IsErrOf, OnOk};
ghost use Rattle.std.specs.Io.KnownBytes.{Appends};
ghost use Rattle.listing.specs.Text.{listing_of};
ghost use Rattle.listing.specs.declared.Failure.{Failure};

mod input;
mod list;
mod text;

use crate::input::read_input;
use crate::list::{TEXT, list};
use std::io::{Read, Write};
use thiserror::Error;

// One byte more than the largest book has: a longer book has the refusal of its start.
const BOOK: usize = 64817;

// Why there is no listing, or not all of it.
#[derive(Debug, Drop, Error)]
enum Failure {
    #[error("standard input could not be read")]
    Unread,
    #[error("the text could not be written")]
    Unwritten,
}

// Writes the listing of the book that the reader has.
fn run<R: Read, W: Write>(reader: &mut R, writer: &mut W) -> Result<(), Failure>
    ensures listed { OnOk result (IfSome (R.remaining reader.old) (λ b.
        Appends (W.contents writer.old) (W.contents writer.new) (listing_of b))) }
    ensures unread { IsErrOf result Failure.Unread → writer.new ≡ writer.old }
{
    let mut book = [0u8; BOOK];
    let n = read_input(reader, &mut book).map_err(|_| Failure::Unread)?;
    let mut out = [0u8; TEXT];
    let end = list(&book[..n], &mut out);
    writer
        .write_all(&out[..end])
        .map_err(|_| Failure::Unwritten)
}

fn main(rt: HostRuntime) {
    if let Err(failure) = run(&mut rt.stdin(), &mut rt.stdout()) {
        let _ = eprintln!(rt; "listing: {failure}");
    }
}
