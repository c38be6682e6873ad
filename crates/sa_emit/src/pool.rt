//! The pool of frames: how large a frame and the pool are.

use crate::sums::{number, sum};
use failure::{Failure, Invariant, known};
use sa_cfg::{CfgBody, CfgProgram};
use sa_runtime::layout::FRAME_WORDS;
use sa_runtime::trace::{Tracing, traced_words};

/// How many frames the pool has.
const FRAMES: u64 = 10_000;

/// The bytes of the pool's head, which the frames follow.
const HEAD: u32 = 8;

/// The bytes of a word.
const WORD: u32 = 8;

/// Whether instances of a body have a frame while they are suspended: the body is that of an iter of a class. An adapter has the frame of
/// the body that it enters.
pub(crate) fn has_frames(body: &CfgBody) -> bool {
    body.iter && body.feature.is_some()
}

/// How many words a frame takes, so that it has room for what any iter of the program saves.
pub(crate) fn slot_words(flat: &CfgProgram, tracing: Tracing) -> Result<u32, Failure> {
    let mut most = 0;
    for body in flat.bodies.as_slice() {
        most = kept(body).max(most);
    }
    let words = sum(FRAME_WORDS, number(most)?)?;
    sum(words, traced_words(tracing))
}

/// How many variables a frame of this body saves.
fn kept(body: &CfgBody) -> usize {
    if has_frames(body) {
        return body.saved.len();
    }
    0
}

/// How many bytes a frame of so many words takes.
pub(crate) fn slot_bytes(words: u32) -> Result<u32, Failure> {
    known(words.checked_mul(WORD), Invariant::CfgNumber)
}

/// How many bytes the pool takes with frames of so many bytes.
pub(crate) fn pool_bytes(slot_bytes: u32) -> u64 {
    u64::from(HEAD) + FRAMES * u64::from(slot_bytes)
}
