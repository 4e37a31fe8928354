// A lent record: its header as a value, and whether it is well made, by kind.
ghost use Rattle.std.specs.Prelude.{◌≡◌, true, ◌≤◌, length};
ghost use Rattle.kinds.specs.Sizes as sizes;
ghost use Rattle.rules.specs.House.{house_ok};
ghost use Rattle.rules.specs.Record.{write_offset, record_head, record_shape, part_ok, state_ok, merged_ok};

use crate::head::{merged_head_ok, part_head_ok, state_head_ok};
use crate::writes::{merged_writes_ok, part_writes_ok};
use kinds::sizes::{RECORD_HEADER, WRITE};
use kinds::{House, RecordHead, word};

// Where the writes stand: nowhere, if there are none.
// Stays: 0 for nowhere is the word that a record has (write_offset in rules), so an option would be turned back at once.
#[tactic(auto, unfolding(rules::specs::Record::write_offset))]
pub fn write_offset(n: u64) -> u64
    ensures { result ≡ write_offset n }
{
    if n == 0 { 0 } else { RECORD_HEADER as u64 }
}

#[tactic(auto, unfolding(rules::specs::Record::record_head))]
pub fn read_record(m: &[u64]) -> RecordHead
    requires { sizes.record_header ≤ length m.now }
    ensures { result ≡ record_head m.now }
{
    RecordHead {
        kind: m[word::KIND],
        site: m[word::SITE],
        number: m[word::NUMBER],
        coordinator: m[word::COORDINATOR],
        tx: m[word::RECORD_TX],
        mask: m[word::RECORD_MASK],
        count: m[word::WRITE_COUNT],
    }
}

// Stays: messages asks the same of its own sizes; one function for both takes five more numbers, two sizes and three positions.
// Length, count and offset agree. A count above the length is no write count of it, and twice another does not wrap.
#[tactic(auto, unfolding(rules::specs::Record::record_shape))]
fn shape_ok(m: &[u64]) -> bool
    ensures { result ≡ record_shape m.now }
{
    let size = m.len() as u64;
    if size < RECORD_HEADER as u64 {
        return false;
    }
    let count = m[word::WRITE_COUNT];
    m[word::LENGTH] == size
        && count <= size
        && size == RECORD_HEADER as u64 + WRITE as u64 * count
        && m[word::WRITE_OFFSET] == write_offset(count)
}

// Whether the words are those of some part record of the house (cause 2).
#[tactic(auto, unfolding(rules::specs::Record::part_ok))]
pub fn part_ok(o: House, m: &[u64]) -> bool
    requires { house_ok o ≡ true }
    ensures { result ≡ part_ok o m.now }
{
    if !shape_ok(m) {
        return false;
    }
    let r = read_record(m);
    part_head_ok(o, r) && part_writes_ok(o, r.site, &m[RECORD_HEADER..], r.count as usize)
}

// The same of a state record.
#[tactic(auto, unfolding(rules::specs::Record::state_ok))]
pub fn state_ok(o: House, m: &[u64]) -> bool
    ensures { result ≡ state_ok o m.now }
{
    shape_ok(m) && state_head_ok(o, read_record(m))
}

// The same of a merged record, which may be of any house.
#[tactic(auto, unfolding(rules::specs::Record::merged_ok))]
pub fn merged_ok(m: &[u64]) -> bool
    ensures { result ≡ merged_ok m.now }
{
    if !shape_ok(m) {
        return false;
    }
    let r = read_record(m);
    merged_head_ok(r) && merged_writes_ok(&m[RECORD_HEADER..], r.count as usize)
}
