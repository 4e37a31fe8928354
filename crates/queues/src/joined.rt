// The parts of the due record joined: first into words of its own, then written.
ghost use Rattle.std.specs.Prelude.{◌≡◌, ◌*◌, ◌≤◌, ◌<◌, length};
ghost use Rattle.laws.specs.Overlay.{overlay};
ghost use Rattle.kinds.specs.Sizes as sizes;
ghost use Rattle.rules.specs.Merger.{part_writes, joined_writes, merged_words};
ghost use Rattle.rules.specs.MergerWords.{HeadFits, HeadsFit};

use crate::place::queued_part;
use kinds::RecordHead;
use kinds::kind::MERGED;
use kinds::sizes::{MERGED_WRITES, RECORD_HEADER, WRITE};
use numbers::in_mask;
use records::write_record;
use slices::copy_words;

// Lays the writes of the part at the head of site i + 1 over the front of `out`, if the mask names the site.
fn copy_writes(out: &mut [u64], queues: &[u64], mask: u64, i: usize) -> usize
    requires queues_len { length queues.now ≡ sizes.queues }
    requires i_lt_sites { (i < sizes.sites) × (sizes.write * sizes.writes ≤ length out.old) }
    requires head_fits { HeadFits queues.now mask i }
    ensures value { result ≡ length (part_writes queues.now mask i) }
    ensures out_after { out.new ≡ overlay out.old (part_writes queues.now mask i) }
{
    if !in_mask(mask, i as u64 + 1) {
        return 0;
    }
    let ws = &queued_part(queues, i, 0)[RECORD_HEADER..];
    copy_words(out, ws);
    ws.len()
}

// The writes of the parts at the first n sites, by key ascending.
fn join_writes(out: &mut [u64], queues: &[u64], mask: u64, n: usize) -> usize
    requires queues_len { length queues.now ≡ sizes.queues }
    requires n_le_sites { (n ≤ sizes.sites) × (sizes.write * sizes.merged_writes ≤ length out.old) }
    requires heads_fit { HeadsFit queues.now mask n }
    ensures value { result ≡ length (joined_writes queues.now mask n) }
    ensures out_after { out.new ≡ overlay out.old (joined_writes queues.now mask n) }
{
    let mut at = 0;
    for i in 0..n {
        at += copy_writes(&mut out[at..], queues, mask, i);
    }
    at
}

// Writes the merged record of the head r, whose parts stand at the heads of the sites of its mask, and returns its words.
pub fn write_merged(out: &mut [u64], queues: &[u64], n: usize, r: RecordHead) -> usize
    requires queues_len { length queues.now ≡ sizes.queues }
    requires n_le_sites { (n ≤ sizes.sites) × (sizes.merged ≤ length out.old) }
    requires heads_fit { HeadsFit queues.now r.mask n }
    ensures value { result ≡ length (merged_words queues.now n r) }
    ensures out_after { out.new ≡ overlay out.old (merged_words queues.now n r) }
{
    let mut ws = [0u64; WRITE * MERGED_WRITES];
    let k = join_writes(&mut ws, queues, r.mask, n);
    let head = RecordHead {
        kind: MERGED,
        site: 0,
        count: (k / WRITE) as u64,
        ..r
    };
    write_record(out, head, &ws[..k])
}
