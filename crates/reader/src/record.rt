// A merged record as the bytes in which it travels to a reading room (Q1.3 and Q1.8).
ghost use Rattle.std.specs.Prelude.{◌≡◌};
ghost use Rattle.rules.specs.Reader.{record_bytes_of};

use kinds::{Answer, Refusal};
use records::merged_ok;
use words::{BYTES, write_words};

// Writes a merged record to a buffer of exactly its bytes.
#[tactic(auto, unfolding(rules::specs::Reader::record_bytes_of, rules::specs::Reader::record_bytes_code))]
pub fn record_bytes(m: &[u64], out: &mut [u8]) -> Answer
    ensures value { result ≡ (record_bytes_of m.now out.old).answer }
    ensures out_after { out.new ≡ (record_bytes_of m.now out.old).bytes }
{
    if !merged_ok(m) || out.len() != BYTES * m.len() {
        return Answer::Refused(Refusal::Malformed.into());
    }
    write_words(out, m);
    Answer::Done
}
