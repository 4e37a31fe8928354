// A lent message: its header as a value, and whether it is well made.
ghost use Rattle.std.specs.Prelude.{◌≡◌, ◌≤◌, length};
ghost use Rattle.kinds.specs.Sizes as sizes;
ghost use Rattle.rules.specs.Message.{entry_offset, message_head, message_shape, message_ok};

use crate::entries::entries_ok;
use crate::head::head_ok;
use kinds::sizes::{ENTRY, MESSAGE_HEADER};
use kinds::{House, MessageHead, word};

// Where the entries stand: nowhere, if there are none.
// Stays: 0 for nowhere is the word that a message has (entry_offset in rules), so an option would be turned back at once.
#[tactic(auto, unfolding(rules::specs::Message::entry_offset))]
pub fn entry_offset(n: u64) -> u64
    ensures { result ≡ entry_offset n }
{
    if n == 0 { 0 } else { MESSAGE_HEADER as u64 }
}

#[tactic(auto, unfolding(rules::specs::Message::message_head))]
pub fn read_head(m: &[u64]) -> MessageHead
    requires { sizes.message_header ≤ length m.now }
    ensures { result ≡ message_head m.now }
{
    MessageHead {
        kind: m[word::KIND],
        from: m[word::FROM],
        to: m[word::TO],
        channel: m[word::CHANNEL],
        tx: m[word::MESSAGE_TX],
        clock: m[word::CLOCK],
        argument: m[word::ARGUMENT],
        count: m[word::ENTRY_COUNT],
    }
}

// Stays: records asks the same of its own sizes; one function for both takes five more numbers, two sizes and three positions.
// Length, count and offset agree. A count above the length is no entry count of it, and three times another does not wrap.
#[tactic(auto, unfolding(rules::specs::Message::message_shape))]
fn shape_ok(m: &[u64]) -> bool
    ensures { result ≡ message_shape m.now }
{
    let size = m.len() as u64;
    if size < MESSAGE_HEADER as u64 {
        return false;
    }
    let count = m[word::ENTRY_COUNT];
    m[word::LENGTH] == size
        && count <= size
        && size == MESSAGE_HEADER as u64 + ENTRY as u64 * count
        && m[word::ENTRY_OFFSET] == entry_offset(count)
}

// Whether the words are those of some message of the house (M17).
#[tactic(auto, unfolding(rules::specs::Message::message_ok))]
pub fn message_ok(o: House, m: &[u64]) -> bool
    requires { o.sites ≤ sizes.sites }
    ensures { result ≡ message_ok o m.now }
{
    if !shape_ok(m) {
        return false;
    }
    let h = read_head(m);
    head_ok(o, h) && entries_ok(o, &m[MESSAGE_HEADER..], h.count as usize)
}
