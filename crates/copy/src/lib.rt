// A copy (G5 and G6) in lent words: its last pair, then the value of each key.

#![tactic(auto)]

mod writes;

ghost use Rattle.std.specs.Prelude.{◌≡◌, IfOk};
ghost use Rattle.kinds.specs.Refusal.{refusal_in};
ghost use Rattle.rules.specs.Record.{record_head};
ghost use Rattle.rules.specs.Copy.{copy_start_of, replay_code, replay_of, value_code, value_of};

use kinds::sizes::{COPY, COPY_HEADER, KEYS, RECORD_HEADER, VALUE};
use kinds::{Answer, RecordHead, Refusal, word};
use numbers::precedes;
use records::{merged_ok, read_record};
use slices::fill_words;
use values::value_at;
use writes::put_writes;

// A copy that has replayed nothing: 0 in every word.
#[tactic(auto, unfolding(rules::specs::Copy::copy_start_of))]
pub fn start(copy: &mut [u64]) -> Answer
    ensures value { result ≡ (copy_start_of copy.old).answer }
    ensures copy_after { copy.new ≡ (copy_start_of copy.old).copy }
{
    if copy.len() != COPY {
        return Answer::Refused(Refusal::Malformed.into());
    }
    fill_words(copy);
    Answer::Done
}

// The record's header. Its pair has to be above the copy's last; nothing is written before that is known.
#[tactic(auto, unfolding(rules::specs::Copy::replay_code))]
fn check_replay(copy: &[u64], m: &[u64]) -> Result<RecordHead, Refusal>
    ensures refusal { refusal_in result ≡ replay_code copy.now m.now }
    ensures head { IfOk result (λ r. r ≡ record_head m.now) }
{
    if copy.len() != COPY || !merged_ok(m) {
        return Err(Refusal::Malformed);
    }
    let r = read_record(m);
    let number = copy[word::LAST_NUMBER];
    let coordinator = copy[word::LAST_COORDINATOR];
    if !precedes(number, coordinator, r.number, r.coordinator) {
        return Err(Refusal::Behind);
    }
    Ok(r)
}

// Replays a merged record: takes its pair as the last, and lays its writes over the values.
#[tactic(auto, unfolding(rules::specs::Copy::replay_of, rules::specs::Copy::replayed, rules::specs::Record::record_writes))]
pub fn replay(copy: &mut [u64], m: &[u64]) -> Answer
    ensures value { result ≡ (replay_of copy.old m.now).answer }
    ensures copy_after { copy.new ≡ (replay_of copy.old m.now).copy }
{
    let r = match check_replay(copy, m) {
        Err(cause) => return Answer::Refused(cause.into()),
        Ok(r) => r,
    };
    copy[word::LAST_NUMBER] = r.number;
    copy[word::LAST_COORDINATOR] = r.coordinator;
    put_writes(copy, &m[RECORD_HEADER..], r.count as usize);
    Answer::Replayed {
        number: r.number,
        coordinator: r.coordinator,
    }
}

// At a copy every key is good (S2), whatever the house.
#[tactic(auto, unfolding(rules::specs::Copy::value_code))]
fn check_value(copy: &[u64], key: u64) -> Result<(), Refusal>
    ensures { refusal_in result ≡ value_code copy.now key }
{
    if copy.len() != COPY || KEYS as u64 <= key {
        return Err(Refusal::Malformed);
    }
    Ok(())
}

// The key's value, and the pair up to which the copy has replayed.
#[tactic(auto, unfolding(rules::specs::Copy::value_of))]
pub fn value(copy: &[u64], key: u64) -> Answer
    ensures { result ≡ value_of copy.now key }
{
    if let Err(cause) = check_value(copy, key) {
        return Answer::Refused(cause.into());
    }
    let at = COPY_HEADER + VALUE * key as usize;
    let value = value_at(copy, at);
    Answer::Standing {
        value,
        number: copy[word::LAST_NUMBER],
        coordinator: copy[word::LAST_COORDINATOR],
    }
}
