// A book that can be worked on, as it can after check 5: its tables stand where they should, and every index is in its
// table. And the kind and the level of its atoms: those of their predicates.
ghost use Rattle.std.specs.Prelude.{◌≡◌, ◌<◌};
ghost use Rattle.meaning.specs.Format.{atom_count};
ghost use Rattle.meaning.specs.Reading.{is_certain};
ghost use Rattle.book.specs.Framed.{Indexed};
ghost use Rattle.book.specs.Records.{kind_read, level_read};

use crate::frame::Frame;
use meaning::codes::Kind;

#[derive(Clone, Copy)]
pub struct Book<'a> {
    pub frame: Frame<'a>,
    ghost indexed: { Indexed frame.bytes.now },
}

impl<'a> Book<'a> {
    #[tactic(auto, using(crate::proofs::AtomLaws::predicate_there))]
    pub fn kind(&self, a: usize) -> Kind
        requires { a < atom_count self.now.frame.bytes.now }
        ensures { result ≡ kind_read self.now.frame.bytes.now a }
    {
        Kind::from(self.frame.predicate(self.frame.atom(a).predicate).kind)
    }

    #[tactic(auto, using(crate::proofs::AtomLaws::predicate_there))]
    pub fn level(&self, a: usize) -> usize
        requires { a < atom_count self.now.frame.bytes.now }
        ensures is { result ≡ level_read self.now.frame.bytes.now a }
        ensures small { result < 256 }
    {
        self.frame.predicate(self.frame.atom(a).predicate).level
    }

    #[tactic(auto, using(crate::proofs::AtomLaws::predicate_there))]
    pub fn is_certain(&self, a: usize) -> bool
        requires { a < atom_count self.now.frame.bytes.now }
        ensures { result ≡ is_certain (kind_read self.now.frame.bytes.now a) }
    {
        self.kind(a) == Kind::Certain
    }
}
