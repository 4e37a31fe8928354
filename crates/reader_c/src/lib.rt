// The three calls that C makes (c/reader.h): each is the call of crate reader, with its contract.
#![tactic(auto)]

ghost use Rattle.std.specs.Prelude.{◌≡◌};
ghost use Rattle.rules.specs.Reader.{reader_start_of, reader_replay_of, reader_value_of};
ghost use Rattle.said.specs.Said.{said_of, returned_of};

// A copy that has replayed nothing: 0 in every byte.
#[unsafe(no_mangle)]
pub extern "C" fn reader_start(copy: &mut [u8]) -> u64
    ensures value { result ≡ returned_of (said_of (reader_start_of copy.old).answer) }
    ensures copy_after { copy.new ≡ (reader_start_of copy.old).bytes }
{
    reader::reader_start(copy)
}

// Replays the merged record whose bytes are `m`.
#[unsafe(no_mangle)]
pub extern "C" fn reader_replay(copy: &mut [u8], m: &[u8]) -> u64
    ensures value { result ≡ returned_of (said_of (reader_replay_of copy.old m.now).answer) }
    ensures copy_after { copy.new ≡ (reader_replay_of copy.old m.now).bytes }
{
    reader::reader_replay(copy, m)
}

// The key's value, start and then length, and the copy's pair, to the answer's bytes.
#[unsafe(no_mangle)]
pub extern "C" fn reader_value(copy: &[u8], key: u64, answer: &mut [u8]) -> u64
    ensures value { result ≡ returned_of (said_of (reader_value_of copy.now key answer.old).answer) }
    ensures answer_after { answer.new ≡ (reader_value_of copy.now key answer.old).bytes }
{
    reader::reader_value(copy, key, answer)
}
