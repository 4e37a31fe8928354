// A copy in the byte buffers of a C program (Q1.1 to Q1.7): the three calls, which crate reader_c exports to C. The record's bytes for
// them are written by `record_bytes` (Q1.8).
#![tactic(auto)]

mod record;
mod replay;

ghost use Rattle.std.specs.Prelude.{◌≡◌, ◌*◌, ◌<◌, eqb, length};
ghost use Rattle.laws.specs.Bytes.{word_from, words_of};
ghost use Rattle.kinds.specs.Refusal.{refusal_in};
ghost use Rattle.kinds.specs.Sizes as sizes;
ghost use Rattle.rules.specs.Reader.{copy_bytes, reader_start_of, reader_replay_of, standing_words, reader_value_code, reader_value_of};
ghost use Rattle.said.specs.Said.{said_of, returned_of};

use kinds::sizes::{ANSWER, COPY, COPY_HEADER, KEYS, MERGED, VALUE};
use kinds::{Refusal, word};
pub use record::record_bytes;
use replay::replay_words;
use words::{BYTES, fill_bytes, read_words, word_at, write_words};

const COPY_BYTES: usize = BYTES * COPY;

const ANSWER_BYTES: usize = BYTES * ANSWER;

// A copy that has replayed nothing: 0 in every byte.
// Stays: 0 or the cause's number is what C reads, here and in the two calls below.
pub fn reader_start(copy: &mut [u8]) -> u64
    ensures value { result ≡ returned_of (said_of (reader_start_of copy.old).answer) }
    ensures copy_after { copy.new ≡ (reader_start_of copy.old).bytes }
{
    if copy.len() != COPY_BYTES {
        return Refusal::Malformed.into();
    }
    fill_bytes(copy);
    0
}

// Whether the bytes are as many as eight times word 0, asked by a division: eight times word 0 could wrap.
fn is_counted(m: &[u8]) -> bool
    ensures { result ≡ eqb (length m.now) (8 * word_from m.now) }
{
    m.is_empty() || m.len() % BYTES == 0 && word_at(m, word::LENGTH) == (m.len() / BYTES) as u64
}

// Replays the merged record whose bytes are `m`. One with more words than any record has is refused before it is read.
pub fn reader_replay(copy: &mut [u8], m: &[u8]) -> u64
    ensures value { result ≡ returned_of (said_of (reader_replay_of copy.old m.now).answer) }
    ensures copy_after { copy.new ≡ (reader_replay_of copy.old m.now).bytes }
{
    let n = m.len() / BYTES;
    if copy.len() != COPY_BYTES || !is_counted(m) || MERGED < n {
        return Refusal::Malformed.into();
    }
    let mut words = [0u64; MERGED];
    read_words(&mut words, m);
    match replay_words(copy, &words[..n]) {
        Err(cause) => cause.into(),
        Ok(()) => 0,
    }
}

#[tactic(auto, unfolding(rules::specs::Reader::reader_value_code))]
fn check_value(copy: &[u8], key: u64, room: usize) -> Result<(), Refusal>
    ensures { refusal_in result ≡ reader_value_code copy.now key room }
{
    if copy.len() != COPY_BYTES || room != ANSWER_BYTES || KEYS as u64 <= key {
        return Err(Refusal::Malformed);
    }
    Ok(())
}

// The key's value, start and then length, and the copy's pair.
#[tactic(auto, unfolding(rules::specs::Reader::standing_words, rules::specs::Value::value_at))]
fn standing(copy: &[u8], key: u64) -> [u64; ANSWER]
    requires { (length copy.now ≡ copy_bytes) × (key < sizes.keys) }
    ensures { result ≡ standing_words (words_of copy.now) key }
{
    let at = COPY_HEADER + VALUE * key as usize;
    let start = word_at(copy, at + word::VALUE_START);
    let length = word_at(copy, at + word::VALUE_LENGTH);
    let number = word_at(copy, word::LAST_NUMBER);
    let coordinator = word_at(copy, word::LAST_COORDINATOR);
    [start, length, number, coordinator]
}

// The same to the answer's bytes.
#[tactic(auto, unfolding(rules::specs::Reader::reader_value_of, said::specs::Said::said_of, said::specs::Said::returned_of))]
pub fn reader_value(copy: &[u8], key: u64, answer: &mut [u8]) -> u64
    ensures value { result ≡ returned_of (said_of (reader_value_of copy.now key answer.old).answer) }
    ensures answer_after { answer.new ≡ (reader_value_of copy.now key answer.old).bytes }
{
    if let Err(cause) = check_value(copy, key, answer.len()) {
        return cause.into();
    }
    write_words(answer, &standing(copy, key));
    0
}
