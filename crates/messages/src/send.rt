// The same message to each recipient: the participants other than the sender, ascending.
ghost use Rattle.std.specs.Prelude.{◌≡◌, true, ◌*◌, ◌≤◌, ◌<◌, length, get_or, ltb};
ghost use Rattle.laws.specs.Choice.{pick};
ghost use Rattle.laws.specs.Overlay.{overlay};
ghost use Rattle.kinds.specs.Sizes as sizes;
ghost use Rattle.rules.specs.Send.{is_recipient, words_to, messages_to, step_count, step_recipients, counts_low, CountsLow};

use crate::write::write_message;
use kinds::MessageHead;
use kinds::sizes::{LAST, SITES};

// Whether site i + 1 is a participant other than the sender.
#[tactic(auto, unfolding(rules::specs::Send::is_recipient))]
pub fn is_recipient(mask: u64, sender: u64, i: usize) -> bool
    requires { i < sizes.sites }
    ensures { result ≡ is_recipient mask sender i }
{
    (mask >> i) % 2 == 1 && i as u64 + 1 != sender
}

fn count_low(sent: [u64; SITES], mask: u64, sender: u64, i: usize) -> bool
    requires { i < sizes.sites }
    ensures { result ≡ pick (is_recipient mask sender i) (ltb (get_or sent i 0) sizes.last) true }
{
    !is_recipient(mask, sender, i) || sent[i] < LAST
}

// Whether a further message to each recipient can be counted (cause 13).
pub fn counts_low(sent: [u64; SITES], mask: u64, sender: u64) -> bool
    ensures { result ≡ counts_low sent mask sender }
{
    (0..SITES).all(|i| count_low(sent, mask, sender, i))
}

// The counts after one message to each recipient.
pub fn step_recipients(sent: [u64; SITES], mask: u64, sender: u64) -> [u64; SITES]
    requires { CountsLow sent mask sender }
    ensures { result ≡ step_recipients sent mask sender sizes.sites }
{
    let mut counts = sent;
    for i in 0..SITES {
        if is_recipient(mask, sender, i) {
            counts[i] += 1;
        }
    }
    counts
}

// Writes the message to site i + 1 where it is a recipient, and returns how many words were written.
fn write_to(
    out: &mut [u64],
    h: MessageHead,
    sent: [u64; SITES],
    mask: u64,
    i: usize,
    es: &[u64],
) -> usize
    requires i_lt_sites { (i < sizes.sites) × (length (words_to h sent mask es.now i) ≤ length out.old) }
    requires counts_low { CountsLow sent mask h.from }
    requires es_len { (length es.now ≡ sizes.entry * h.count) × (h.count ≤ sizes.cert_entries) }
    ensures { (result ≡ length (words_to h sent mask es.now i))
        × (out.new ≡ overlay out.old (words_to h sent mask es.now i)) }
{
    if !is_recipient(mask, h.from, i) {
        return 0;
    }
    let g = MessageHead {
        to: i as u64 + 1,
        channel: sent[i] + 1,
        ..h
    };
    write_message(out, g, es)
}

// Writes the message to each recipient, each directly behind the one before, and returns how many words were written.
#[tactic(auto, using(rules::specs::SendLaws::messages_fit))]
pub fn broadcast(
    out: &mut [u64],
    h: MessageHead,
    sent: [u64; SITES],
    mask: u64,
    es: &[u64],
) -> usize
    requires outgoing_in_bounds { (sizes.outgoing ≤ length out.old) × ((1 ≤ h.from) × (h.from ≤ sizes.sites)) }
    requires counts_low { CountsLow sent mask h.from }
    requires es_len { (length es.now ≡ sizes.entry * h.count) × (h.count ≤ sizes.cert_entries) }
    ensures { (result ≡ length (messages_to h sent mask es.now sizes.sites))
        × (out.new ≡ overlay out.old (messages_to h sent mask es.now sizes.sites)) }
{
    let mut at: usize = 0;
    for i in 0..SITES {
        at += write_to(&mut out[at..], h, sent, mask, i, es);
    }
    at
}
