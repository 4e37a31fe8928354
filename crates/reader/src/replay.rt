// Replay of a merged record's words over a copy in bytes, in place.
ghost use Rattle.std.specs.Prelude.{◌≡◌, ℕ, ◌+◌, ◌*◌, ◌≤◌, ◌<◌, length, set, IfOk};
ghost use Rattle.laws.specs.Bytes.{bytes_of, words_of, Hold};
ghost use Rattle.kinds.specs.Refusal.{refusal_in};
ghost use Rattle.kinds.specs.Sizes as sizes;
ghost use Rattle.rules.specs.Value.{put_value};
ghost use Rattle.rules.specs.Record.{record_head, write_key, write_value};
ghost use Rattle.rules.specs.Copy.{put_writes, replay_code, replay_of};
ghost use Rattle.rules.specs.Reader.{copy_bytes};
ghost use Rattle.said.specs.Said.{said_of, returned_of};

use kinds::sizes::{COPY_HEADER, RECORD_HEADER, VALUE, WRITE};
use kinds::{RecordHead, Refusal, word};
use numbers::precedes;
use records::{merged_ok, read_record};
use values::value_at;
use words::{set_word, word_at};

// Stays: these do in the bytes that C lends, in place, what the crate copy does in words; neither can lend the other its slice.
// The record's header. Its pair has to be above the copy's last; nothing is written before that is known.
#[tactic(auto, unfolding(rules::specs::Copy::replay_code))]
fn check_replay(copy: &[u8], m: &[u64]) -> Result<RecordHead, Refusal>
    requires { length copy.now ≡ copy_bytes }
    ensures refusal { refusal_in result ≡ replay_code (words_of copy.now) m.now }
    ensures head { IfOk result (λ r. r ≡ record_head m.now) }
{
    if !merged_ok(m) {
        return Err(Refusal::Malformed);
    }
    let r = read_record(m);
    let number = word_at(copy, word::LAST_NUMBER);
    let coordinator = word_at(copy, word::LAST_COORDINATOR);
    if !precedes(number, coordinator, r.number, r.coordinator) {
        return Err(Refusal::Behind);
    }
    Ok(r)
}

// Sets two words of the copy.
fn set_two(copy: &mut [u8], i: usize, x: u64, j: usize, y: u64)
    requires copy_len { length copy.old ≡ copy_bytes }
    requires i_lt_copy { (i < sizes.copy) × (j < sizes.copy) }
    ensures { Hold copy.new (set (set (words_of copy.old) i x) j y) }
{
    set_word(copy, i, x);
    set_word(copy, j, y);
}

// Lays one write over the values.
#[tactic(auto, unfolding(rules::specs::Value::put_value))]
fn put_write(copy: &mut [u8], ws: &[u64], i: usize)
    requires copy_len { length copy.old ≡ copy_bytes }
    requires i_lt_merged_writes { (i < sizes.merged_writes) × (sizes.write * i + sizes.write ≤ length ws.now) }
    requires i_bound { write_key ws.now i < sizes.keys }
    ensures { Hold copy.new
        (put_value (words_of copy.old) (sizes.copy_header + sizes.value * write_key ws.now i)
        (write_value ws.now i)) }
{
    let key = ws[WRITE * i + word::WRITE_KEY];
    let v = value_at(ws, WRITE * i + word::WRITE_VALUE);
    let at = COPY_HEADER + VALUE * key as usize;
    set_two(
        copy,
        at + word::VALUE_START,
        v.start,
        at + word::VALUE_LENGTH,
        v.length,
    );
}

// Lays the first n writes over the values, one after the other.
fn put_writes(copy: &mut [u8], ws: &[u64], n: usize)
    requires copy_len { length copy.old ≡ copy_bytes }
    requires n_le_merged_writes { (n ≤ sizes.merged_writes) × (sizes.write * n ≤ length ws.now) }
    requires by_index { (i : ℕ) → i < n → write_key ws.now i < sizes.keys }
    ensures { Hold copy.new (put_writes (words_of copy.old) ws.now n) }
{
    for i in 0..n {
        put_write(copy, ws, i);
    }
}

// Replays a record: takes its pair as the last, and lays its writes over the values.
pub fn replay_words(copy: &mut [u8], m: &[u64]) -> Result<(), Refusal>
    requires { length copy.old ≡ copy_bytes }
    ensures value { refusal_in result ≡ returned_of (said_of (replay_of (words_of copy.old) m.now).answer) }
    ensures copy_after { copy.new ≡ bytes_of (replay_of (words_of copy.old) m.now).copy }
{
    let r = check_replay(copy, m)?;
    set_two(
        copy,
        word::LAST_NUMBER,
        r.number,
        word::LAST_COORDINATOR,
        r.coordinator,
    );
    put_writes(copy, &m[RECORD_HEADER..], r.count as usize);
    Ok(())
}
