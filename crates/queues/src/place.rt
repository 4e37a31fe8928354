// Where a place lies, and the part that is queued there.
ghost use Rattle.std.specs.Prelude.{◌≡◌, ◌≤◌, ◌<◌, length, get_or};
ghost use Rattle.kinds.specs.Sizes as sizes;
ghost use Rattle.kinds.specs.Word as word;
ghost use Rattle.rules.specs.Merger.{place_at, place_words, queued_part, head_at};

use kinds::RecordHead;
use kinds::sizes::{PART, SITE_QUEUE};
use kinds::word::LENGTH;
use records::read_record;

// The first word of place j of site i + 1.
pub fn place_at(i: usize, j: usize) -> usize
    requires { (i < sizes.sites) × (j < sizes.queue) }
    ensures { result ≡ place_at i j }
{
    SITE_QUEUE * i + PART * j
}

// The words of the place.
pub fn place_words(queues: &[u64], i: usize, j: usize) -> &[u64]
    requires queues_len { length queues.now ≡ sizes.queues }
    requires i_lt_sites { (i < sizes.sites) × (j < sizes.queue) }
    ensures { (length result.now ≡ sizes.part) × (result.now ≡ place_words queues.now i j) }
{
    let at = place_at(i, j);
    &queues[at..at + PART]
}

// The part in them.
pub fn queued_part(queues: &[u64], i: usize, j: usize) -> &[u64]
    requires queues_len { length queues.now ≡ sizes.queues }
    requires i_lt_sites { (i < sizes.sites) × (j < sizes.queue) }
    requires length_bound { get_or (place_words queues.now i j) word.length 0 ≤ sizes.part }
    ensures { result.now ≡ queued_part queues.now i j }
{
    let place = place_words(queues, i, j);
    &place[..place[LENGTH] as usize]
}

pub fn read_head(queues: &[u64], i: usize) -> RecordHead
    requires queues_len { length queues.now ≡ sizes.queues }
    requires i_lt_sites { i < sizes.sites }
    ensures { result ≡ head_at queues.now i }
{
    read_record(place_words(queues, i, 0))
}
