// A message written to the front of a lent slice.
ghost use Rattle.std.specs.Prelude.{◌≡◌, ◌*◌, ◌≤◌, length};
ghost use Rattle.laws.specs.Overlay.{overlay};
ghost use Rattle.kinds.specs.Sizes as sizes;
ghost use Rattle.rules.specs.Message.{head_words, message_words, message_length};

use crate::layout::entry_offset;
use kinds::sizes::{ENTRY, MESSAGE_HEADER};
use kinds::{MessageHead, word};
use slices::copy_words;

fn write_head(out: &mut [u64], h: MessageHead)
    requires { (sizes.message_header ≤ length out.old) × (h.count ≤ sizes.cert_entries) }
    ensures { out.new ≡ overlay out.old (head_words h) }
{
    out[word::LENGTH] = MESSAGE_HEADER as u64 + ENTRY as u64 * h.count;
    out[word::KIND] = h.kind;
    out[word::FROM] = h.from;
    out[word::TO] = h.to;
    out[word::CHANNEL] = h.channel;
    out[word::MESSAGE_TX] = h.tx;
    out[word::CLOCK] = h.clock;
    out[word::ARGUMENT] = h.argument;
    out[word::ENTRY_COUNT] = h.count;
    out[word::ENTRY_OFFSET] = entry_offset(h.count);
}

// Writes the message, and returns how many words it has.
pub fn write_message(out: &mut [u64], h: MessageHead, es: &[u64]) -> usize
    requires { (length es.now ≡ sizes.entry * h.count)
        × ((h.count ≤ sizes.cert_entries) × (message_length h.count ≤ length out.old)) }
    ensures { (result ≡ length (message_words h es.now))
        × (out.new ≡ overlay out.old (message_words h es.now)) }
{
    write_head(out, h);
    copy_words(&mut out[MESSAGE_HEADER..], es);
    MESSAGE_HEADER + es.len()
}
