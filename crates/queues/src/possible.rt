// Whether a handed merger and its queues are possible (S19): one pass over the places in use.
ghost use Rattle.std.specs.Prelude.{◌≡◌, true, ◌+◌, ◌≤◌, ◌<◌, length};
ghost use Rattle.laws.specs.Scan.{all_below};
ghost use Rattle.kinds.specs.Sizes as sizes;
ghost use Rattle.rules.specs.House.{house_ok};
ghost use Rattle.rules.specs.Merger.{queued_ok, source_ok, source_at, merger_ok};

use crate::place::{place_words, queued_part};
use kinds::sizes::{PART, QUEUE, QUEUES, SITES};
use kinds::word::{LENGTH, SITE};
use kinds::{House, Merger, Source};
use numbers::house_ok;
use records::part_ok;

#[tactic(auto, unfolding(rules::specs::Merger::queued_ok, rules::specs::Record::record_head))]
fn queued_ok(o: House, queues: &[u64], i: usize, j: usize) -> bool
    requires o_value { house_ok o ≡ true }
    requires queues_len { length queues.now ≡ sizes.queues }
    requires i_lt_sites { (i < sizes.sites) × (j < sizes.queue) }
    ensures { result ≡ queued_ok o queues.now i j }
{
    if (PART as u64) < place_words(queues, i, j)[LENGTH] {
        return false;
    }
    let m = queued_part(queues, i, j);
    part_ok(o, m) && m[SITE] == i as u64 + 1
}

fn places_ok(o: House, queues: &[u64], i: usize, n: usize) -> bool
    requires o_value { house_ok o ≡ true }
    requires queues_len { length queues.now ≡ sizes.queues }
    requires i_lt_sites { (i < sizes.sites) × (n ≤ sizes.queue) }
    ensures { result ≡ all_below (queued_ok o queues.now i) n }
{
    (0..n).all(|j| queued_ok(o, queues, i, j))
}

#[tactic(auto, unfolding(rules::specs::Merger::source_ok))]
fn source_ok(o: House, queues: &[u64], c: Source, i: usize) -> bool
    requires o_value { house_ok o ≡ true }
    requires queues_len { length queues.now ≡ sizes.queues }
    requires i_lt_sites { i < sizes.sites }
    ensures { result ≡ source_ok o queues.now c i }
{
    c.queued <= QUEUE && places_ok(o, queues, i, c.queued)
}

fn sources_ok(g: Merger, queues: &[u64]) -> bool
    requires house_value { house_ok g.house ≡ true }
    requires queues_len { length queues.now ≡ sizes.queues }
    ensures { result ≡ all_below (λ i. source_ok g.house queues.now (source_at g i) i) sizes.sites }
{
    (0..SITES).all(|i| source_ok(g.house, queues, g.sources[i], i))
}

#[tactic(auto, unfolding(rules::specs::Merger::merger_ok))]
pub fn merger_ok(g: Merger, queues: &[u64]) -> bool
    ensures { result ≡ merger_ok g queues.now }
{
    queues.len() == QUEUES && house_ok(g.house) && sources_ok(g, queues)
}
