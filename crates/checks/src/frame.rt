// Checks 1 to 3: length, counts and offsets. A book that passes them is framed.
ghost use Rattle.std.specs.Prelude.{◌≡◌, ◌<◌, ◌≤◌, length, get_or, IfOk};
ghost use Rattle.meaning.specs.Format.{contents, limits};
ghost use Rattle.meaning.specs.Refusal.{first_of, frame_refusals, refusal1, refusal2, refusal3};
ghost use Rattle.checks.specs.Refused.{refused};

use crate::refusal::Refusal;
use book::frame::Frame;
use book::readers::{count_of, offset_of, size_of};
use book::tables::{
    MOST_ATOMS, MOST_COMPARISONS, MOST_ELEMENTS, MOST_HYPOTHESES, MOST_PREDICATES, MOST_RULES,
};

// Most records of the tables 1 to 6. Document 01 names the form: a constant table, and one loop over it.
const LIMITS: [usize; 6] = [
    MOST_PREDICATES,
    MOST_ATOMS,
    MOST_RULES,
    MOST_HYPOTHESES,
    MOST_COMPARISONS,
    MOST_ELEMENTS,
];

fn limit_of(k: usize) -> usize
    requires { k < 6 }
    ensures { result ≡ get_or limits k 0 }
{
    LIMITS[k]
}

// 1: fewer than 48 bytes.
#[tactic(auto, unfolding(meaning::specs::Refusal::refusal1))]
fn check_length(bytes: &[u8]) -> Result<(), Refusal>
    ensures { refused result ≡ refusal1 bytes.now }
{
    if bytes.len() < 48 {
        return Err(Refusal::Length);
    }
    Ok(())
}

// 2: a count above its limit.
#[tactic(auto, using(crate::proofs::FrameLaws::counts))]
fn check_counts(bytes: &[u8]) -> Result<(), Refusal>
    requires { contents ≤ length bytes.now }
    ensures { refused result ≡ refusal2 bytes.now }
{
    for k in 0..6 {
        if limit_of(k) < count_of(bytes, k) {
            return Err(Refusal::Count { table: k as u8 + 1 });
        }
    }
    Ok(())
}

// 3: an offset that is not where the body before ended; then a length that is not the end.
#[tactic(auto, using(crate::proofs::FrameLaws::offsets))]
fn check_offsets(bytes: &[u8]) -> Result<(), Refusal>
    requires { contents ≤ length bytes.now }
    ensures { refused result ≡ refusal3 bytes.now }
{
    let mut at = 48;
    for k in 0..6 {
        if offset_of(bytes, k) != at {
            return Err(Refusal::Offset { table: k as u8 + 1 });
        }
        at += size_of(k) * count_of(bytes, k);
    }
    if bytes.len() != at {
        return Err(Refusal::End);
    }
    Ok(())
}

// The three in their order.
pub(crate) fn check_frame<'a>(bytes: &'a [u8]) -> Result<Frame<'a>, Refusal>
    ensures refusal { refused result ≡ first_of (frame_refusals bytes.now) }
    ensures same { IfOk result (λ frame. frame.bytes.now ≡ bytes.now) }
{
    check_length(bytes)?;
    check_counts(bytes)?;
    check_offsets(bytes)?;
    Ok(Frame { bytes })
}
