// The order of the heads, by (number, coordinator): one value, read from the queues at each call and handed through its methods.
ghost use Rattle.std.specs.Prelude.{◌≡◌, true, ◌+◌, ◌≤◌, ◌<◌, length, unwrap_or, IfSome, IfOk};
ghost use Rattle.laws.specs.Scan.{all_below};
ghost use Rattle.kinds.specs.Sizes as sizes;
ghost use Rattle.rules.specs.House.{in_mask};
ghost use Rattle.rules.specs.Merger.{no_head, has_head, better_head, is_due_at, has_part, is_whole_at, is_whole, head_in, source_at};
ghost use Rattle.rules.specs.MergerLaws.{Queued};
ghost use Rattle.kinds.specs.Refusal.{refusal_in};
ghost use Rattle.merger.specs.Order.{sites_in, order_of, least_in, code_in, without_at, without, due_of, by_number};

use kinds::sizes::SITES;
use kinds::{Merger, RecordHead, Refusal};
use numbers::{in_mask, precedes};
use queues::read_head;

// The head of each site's queue, beside the merger, which says which of them there are.
// Stays: a head of a site without parts is all zeros, as the contract of `read` and the rules' `heads_of` have it.
#[derive(Clone, Copy)]
pub struct Heads {
    pub merger: Merger,
    pub heads: [RecordHead; SITES],
}

// The due head, with the order after it: at each site of its mask one part fewer is queued.
#[derive(Clone, Copy)]
pub struct Due {
    pub head: RecordHead,
    pub heads: Heads,
}

// Why no head is taken, with the order as it was.
#[derive(Clone, Copy)]
pub struct Undue {
    pub cause: Refusal,
    pub heads: Heads,
}

fn no_head() -> RecordHead
    ensures { result ≡ no_head }
{
    RecordHead {
        kind: 0,
        site: 0,
        number: 0,
        coordinator: 0,
        tx: 0,
        mask: 0,
        count: 0,
    }
}

impl Heads {
    pub fn read(g: Merger, queues: &[u64]) -> Heads
        requires sites_le_sites { g.house.sites ≤ sizes.sites }
        requires queues_len { length queues.now ≡ sizes.queues }
        ensures { result ≡ order_of g queues.now }
    {
        let mut heads = [no_head(); SITES];
        for i in 0..g.house.sites as usize {
            heads[i] = read_head(queues, i);
        }
        Heads { merger: g, heads }
    }

    pub fn sites(self) -> usize
        ensures { result ≡ sites_in self }
    {
        self.merger.house.sites as usize
    }

    fn has_head(self, i: usize) -> bool
        requires { i < sizes.sites }
        ensures { result ≡ has_head self.merger i }
    {
        0 < self.merger.sources[i].queued
    }

    // The better of the best site so far and site i + 1.
    fn better(self, i: usize, best: Option<usize>) -> Option<usize>
        requires i_lt_sites { i < sizes.sites }
        requires best_lt_sites { IfSome best (λ k. k < sizes.sites) }
        ensures better { unwrap_or result sizes.sites
            ≡ better_head self.merger self.heads i (unwrap_or best sizes.sites) }
        ensures bound { IfSome result (λ k. k < sizes.sites) }
    {
        if !self.has_head(i) {
            return best;
        }
        let Some(k) = best else {
            return Some(i);
        };
        let a = self.heads[i];
        let b = self.heads[k];
        if precedes(a.number, a.coordinator, b.number, b.coordinator) {
            Some(i)
        } else {
            best
        }
    }

    // The site of the least head, less 1.
    fn least(self) -> Option<usize>
        requires { sites_in self ≤ sizes.sites }
        ensures least { unwrap_or result sizes.sites ≡ least_in self }
        ensures bound { IfSome result (λ k. k < sizes.sites) }
    {
        let mut best = None;
        for i in 0..self.sites() {
            best = self.better(i, best);
        }
        best
    }

    // Site i + 1 has a queued part, or has reached the number.
    fn is_due_at(self, number: u64, i: usize) -> bool
        requires { i < sizes.sites }
        ensures { result ≡ is_due_at self.merger number i }
    {
        self.has_head(i) || number <= self.merger.sources[i].state
    }

    fn all_due(self, number: u64) -> bool
        requires { sites_in self ≤ sizes.sites }
        ensures { result ≡ all_below (is_due_at self.merger number) (sites_in self) }
    {
        for i in 0..self.sites() {
            if !self.is_due_at(number, i) {
                return false;
            }
        }
        true
    }

    // Site i + 1 has a part of r's pair at its head.
    fn has_part(self, r: RecordHead, i: usize) -> bool
        requires { i < sizes.sites }
        ensures { result ≡ has_part self.merger self.heads r i }
    {
        let a = self.heads[i];
        if !self.has_head(i) {
            return false;
        }
        if a.number != r.number {
            return false;
        }
        a.coordinator == r.coordinator
    }

    // It has one where the mask names it, which agrees in words 5 and 6, and none elsewhere.
    fn is_whole_at(self, r: RecordHead, i: usize) -> bool
        requires { i < sizes.sites }
        ensures { result ≡ is_whole_at self.merger self.heads r i }
    {
        let a = self.heads[i];
        let here = self.has_part(r, i);
        if !in_mask(r.mask, i as u64 + 1) {
            return !here;
        }
        if !here {
            return false;
        }
        if a.tx != r.tx {
            return false;
        }
        a.mask == r.mask
    }

    fn is_whole(self, r: RecordHead) -> bool
        requires { sites_in self ≤ sizes.sites }
        ensures { result ≡ is_whole self.merger self.heads r }
    {
        for i in 0..self.sites() {
            if !self.is_whole_at(r, i) {
                return false;
            }
        }
        true
    }

    // The least head, where it is due and whole.
    fn check_due(self) -> Result<RecordHead, Refusal>
        requires { sites_in self ≤ sizes.sites }
        ensures code { refusal_in result ≡ code_in self }
        ensures head { IfOk result (λ r. r ≡ head_in self.heads (least_in self)) }
    {
        let Some(least) = self.least() else {
            return Err(Refusal::Nothing);
        };
        let head = self.heads[least];
        if !self.all_due(head.number) {
            return Err(Refusal::Nothing);
        }
        if !self.is_whole(head) {
            return Err(Refusal::NotWhole);
        }
        Ok(head)
    }

    fn without_at(self, mask: u64, i: usize) -> Heads
        requires i_lt_sites { i < sizes.sites }
        requires queued_nonzero { in_mask mask (i + 1) ≡ true → 0 < (source_at self.merger i).queued }
        ensures { result ≡ without_at mask i self }
    {
        if !in_mask(mask, i as u64 + 1) {
            return self;
        }
        let mut h = self;
        h.merger.sources[i].queued -= 1;
        h
    }

    // The order without the heads of the sites of the mask.
    fn without(self, mask: u64) -> Heads
        requires self_bound { sites_in self ≤ sizes.sites }
        requires queued { Queued self.merger mask }
        ensures { result ≡ without self mask }
    {
        let mut h = self;
        for i in 0..self.sites() {
            h = h.without_at(mask, i);
        }
        h
    }

    // Takes the due pair from the order, and hands both back.
    pub fn take_due(self) -> Result<Due, Undue>
        requires { sites_in self ≤ sizes.sites }
        ensures { by_number result ≡ due_of self }
    {
        match self.check_due() {
            Ok(head) => Ok(Due {
                head,
                heads: self.without(head.mask),
            }),
            Err(cause) => Err(Undue { cause, heads: self }),
        }
    }
}
