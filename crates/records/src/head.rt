// What a record's header must be, by kind.
ghost use Rattle.std.specs.Prelude.{◌≡◌, ◌≤◌};
ghost use Rattle.kinds.specs.Sizes as sizes;
ghost use Rattle.rules.specs.House.{whole_house};
ghost use Rattle.rules.specs.Record.{pair_ok, part_head_ok, state_head_ok, merged_head_ok};

use kinds::sizes::{MERGED_WRITES, SITES, WRITES};
use kinds::{House, RecordHead, kind};
use numbers::{coordinator_of, in_mask, is_mask, is_site, is_tx};

// The largest house: a copy knows no other.
#[tactic(auto, unfolding(rules::specs::House::whole_house, rules::specs::House::even_table, laws::specs::Overlay::overlay))]
fn whole_house() -> House
    ensures { result ≡ whole_house }
{
    House {
        sites: SITES as u64,
        firsts: [0, 256, 512, 768, 1024, 1280, 1536, 1792],
    }
}

// The transaction, its coordinator and its participants.
#[tactic(auto, unfolding(rules::specs::Record::pair_ok))]
fn pair_ok(o: House, r: RecordHead) -> bool
    requires { o.sites ≤ sizes.sites }
    ensures { result ≡ pair_ok o r }
{
    is_tx(o, r.tx) && r.coordinator == coordinator_of(r.tx) && is_mask(o, r.mask)
}

#[tactic(auto, unfolding(rules::specs::Record::part_head_ok))]
pub fn part_head_ok(o: House, r: RecordHead) -> bool
    requires { o.sites ≤ sizes.sites }
    ensures { result ≡ part_head_ok o r }
{
    r.kind == kind::PART
        && is_site(o, r.site)
        && pair_ok(o, r)
        && in_mask(r.mask, r.site)
        && r.count <= WRITES as u64
}

#[tactic(auto, unfolding(rules::specs::Record::state_head_ok))]
pub fn state_head_ok(o: House, r: RecordHead) -> bool
    ensures { result ≡ state_head_ok o r }
{
    r.kind == kind::STATE
        && is_site(o, r.site)
        && r.coordinator == 0
        && r.tx == 0
        && r.mask == 0
        && r.count == 0
}

#[tactic(auto, unfolding(rules::specs::Record::merged_head_ok, rules::specs::House::whole_house))]
pub fn merged_head_ok(r: RecordHead) -> bool
    ensures { result ≡ merged_head_ok r }
{
    r.kind == kind::MERGED
        && r.site == 0
        && pair_ok(whole_house(), r)
        && r.count <= MERGED_WRITES as u64
}
