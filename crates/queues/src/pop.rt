// Queues without their heads: the places behind move up.
ghost use Rattle.std.specs.Prelude.{◌≡◌, ◌≤◌, ◌<◌, length, drop};
ghost use Rattle.laws.specs.Overlay.{overlay};
ghost use Rattle.kinds.specs.Sizes as sizes;
ghost use Rattle.rules.specs.Merger.{behind_head, pop_queue_at, pop_queues};

use kinds::sizes::{PART, SITE_QUEUE};
use numbers::in_mask;
use slices::fill_words;

// Removes the head of a site's queue: the places behind it move up, and the last is cleared.
fn drop_head(ws: &mut [u64])
    requires { length ws.old ≡ sizes.site_queue }
    ensures { ws.new ≡ behind_head ws.old }
{
    ws.copy_within(PART.., 0);
    fill_words(&mut ws[SITE_QUEUE - PART..]);
}

#[tactic(auto, unfolding(rules::specs::Merger::pop_queue_at))]
fn pop_queue(queues: &mut [u64], mask: u64, i: usize)
    requires queues_len { length queues.old ≡ sizes.queues }
    requires i_lt_sites { i < sizes.sites }
    ensures { queues.new ≡ pop_queue_at mask i queues.old }
{
    if in_mask(mask, i as u64 + 1) {
        let at = SITE_QUEUE * i;
        drop_head(&mut queues[at..at + SITE_QUEUE]);
    }
}

// Removes the heads of the sites of the mask, among the first n.
pub fn pop_queues(queues: &mut [u64], mask: u64, n: usize)
    requires queues_len { length queues.old ≡ sizes.queues }
    requires n_le_sites { n ≤ sizes.sites }
    ensures { queues.new ≡ pop_queues queues.old mask n }
{
    for i in 0..n {
        pop_queue(queues, mask, i);
    }
}
