// A record written to the front of a lent slice.
ghost use Rattle.std.specs.Prelude.{◌≡◌, ◌*◌, ◌≤◌, length};
ghost use Rattle.laws.specs.Overlay.{overlay};
ghost use Rattle.kinds.specs.Sizes as sizes;
ghost use Rattle.rules.specs.Record.{record_head_words, record_words, record_length};

use crate::layout::write_offset;
use kinds::sizes::{RECORD_HEADER, WRITE};
use kinds::{RecordHead, word};
use slices::copy_words;

fn write_head(out: &mut [u64], r: RecordHead)
    requires { (sizes.record_header ≤ length out.old) × (r.count ≤ sizes.merged_writes) }
    ensures { out.new ≡ overlay out.old (record_head_words r) }
{
    out[word::LENGTH] = RECORD_HEADER as u64 + WRITE as u64 * r.count;
    out[word::KIND] = r.kind;
    out[word::SITE] = r.site;
    out[word::NUMBER] = r.number;
    out[word::COORDINATOR] = r.coordinator;
    out[word::RECORD_TX] = r.tx;
    out[word::RECORD_MASK] = r.mask;
    out[word::WRITE_COUNT] = r.count;
    out[word::WRITE_OFFSET] = write_offset(r.count);
}

// Writes the record, and returns how many words it has.
pub fn write_record(out: &mut [u64], r: RecordHead, ws: &[u64]) -> usize
    requires { (length ws.now ≡ sizes.write * r.count)
        × ((r.count ≤ sizes.merged_writes) × (record_length r.count ≤ length out.old)) }
    ensures { (result ≡ length (record_words r ws.now))
        × (out.new ≡ overlay out.old (record_words r ws.now)) }
{
    write_head(out, r);
    copy_words(&mut out[RECORD_HEADER..], ws);
    RECORD_HEADER + ws.len()
}
