// Houses and their tables of first keys, as S1, S2 and Q3.1 to Q3.5 say; transaction numbers, masks and pairs, as S3 to S6 number
// them; desks, as Q10.1 and Q10.4 do.

#![tactic(auto)]

ghost use Rattle.std.specs.Prelude.{◌≡◌, ◌≤◌, ◌<◌, length};
ghost use Rattle.laws.specs.Pair.{precedes as precedesOf};
ghost use Rattle.rules.specs.House.{count_ok, table_ok, rest_ok, house_ok, house_of, is_site, is_key, home_of, first_key, end_key};
ghost use Rattle.rules.specs.House.{tx_of, coordinator_of, serial_of, is_tx, mask_of, in_mask, is_mask};
ghost use Rattle.rules.specs.House.{participants as participantsOf, replies_wanted};
ghost use Rattle.rules.specs.Desk.{is_desk, write_limit};
ghost use Rattle.kinds.specs.Sizes as sizes;

use kinds::desk::PROOFING;
use kinds::sizes::{KEYS, PROOFING_WRITES, SERIALS, SITES, WRITES};
use kinds::{House, Key};
use slices::copy_words;

#[tactic(auto, unfolding(rules::specs::House::count_ok))]
pub fn count_ok(n: u64) -> bool
    ensures { result ≡ count_ok n }
{
    1 <= n && n <= SITES as u64
}

// Whether the first `n` words are a good table (Q3.3).
pub fn table_ok(n: u64, t: &[u64]) -> bool
    requires { (1 ≤ n) × (n ≤ sizes.sites) × (n ≤ length t.now) }
    ensures { result ≡ table_ok n t.now }
{
    if t[0] != 0 {
        return false;
    }
    for i in 1..n as usize {
        if t[i] <= t[i - 1] || KEYS as u64 <= t[i] {
            return false;
        }
    }
    true
}

// Whether the places behind the first `n` are 0 (Q3.5).
fn rest_ok(n: u64, t: &[u64]) -> bool
    requires { (n ≤ sizes.sites) × (length t.now ≡ sizes.sites) }
    ensures { result ≡ rest_ok n t.now }
{
    t[n as usize..].iter().all(|first| *first == 0)
}

#[tactic(auto, unfolding(rules::specs::House::house_ok, rules::specs::House::count_ok))]
pub fn house_ok(h: House) -> bool
    ensures { result ≡ house_ok h }
{
    count_ok(h.sites) && table_ok(h.sites, &h.firsts) && rest_ok(h.sites, &h.firsts)
}

// The house of `n` sites with the table `t`.
pub fn house_of(n: u64, t: &[u64]) -> House
    requires { length t.now ≤ sizes.sites }
    ensures { result ≡ house_of n t.now }
{
    let mut firsts: [Key; SITES] = [0; SITES];
    copy_words(&mut firsts, t);
    House { sites: n, firsts }
}

#[tactic(auto, unfolding(rules::specs::House::is_site))]
pub fn is_site(h: House, s: u64) -> bool
    ensures { result ≡ is_site h s }
{
    1 <= s && s <= h.sites
}

#[tactic(auto, unfolding(rules::specs::House::is_key))]
pub fn is_key(key: Key) -> bool
    ensures { result ≡ is_key key }
{
    key < KEYS as u64
}

// The site where a key lives (Q3.1): the first one that is the last, or whose next starts above the key.
// Stays: 9 for a number that is no key is in the public contract (home_of in rules).
pub fn home_of(h: House, key: Key) -> u64
    ensures { result ≡ home_of h key }
{
    if KEYS as u64 <= key {
        return SITES as u64 + 1;
    }
    for i in 1..SITES {
        if h.sites <= i as u64 || key < h.firsts[i] {
            return i as u64;
        }
    }
    SITES as u64
}

// The first key of a site,
pub fn first_key(h: House, s: u64) -> Key
    requires { (1 ≤ s) × (s ≤ sizes.sites) }
    ensures { result ≡ first_key h s }
{
    h.firsts[(s - 1) as usize]
}

// and the key that its range ends before: the last site's keys run to 2,047 (Q3.2).
pub fn end_key(h: House, s: u64) -> Key
    requires { h.sites ≤ sizes.sites }
    ensures { result ≡ end_key h s }
{
    if s < h.sites {
        h.firsts[s as usize]
    } else {
        KEYS as u64
    }
}

#[tactic(auto, unfolding(rules::specs::House::tx_of))]
pub fn tx_of(coordinator: u64, serial: u64) -> u64
    requires { (coordinator ≤ sizes.sites) × (serial < sizes.serials) }
    ensures { result ≡ tx_of coordinator serial }
{
    coordinator * SERIALS + serial
}

#[tactic(auto, unfolding(rules::specs::House::coordinator_of))]
pub fn coordinator_of(tx: u64) -> u64
    ensures { result ≡ coordinator_of tx }
{
    tx / SERIALS
}

#[tactic(auto, unfolding(rules::specs::House::serial_of))]
pub fn serial_of(tx: u64) -> u64
    ensures { result ≡ serial_of tx }
{
    tx % SERIALS
}

#[tactic(auto, unfolding(rules::specs::House::is_tx, rules::specs::House::coordinator_of, rules::specs::House::serial_of))]
pub fn is_tx(h: House, tx: u64) -> bool
    ensures { result ≡ is_tx h tx }
{
    is_site(h, coordinator_of(tx)) && 1 <= serial_of(tx)
}

// The mask of one site.
#[tactic(auto, unfolding(rules::specs::House::mask_of))]
pub fn mask_of(site: u64) -> u64
    requires { (1 ≤ site) × (site ≤ sizes.sites) }
    ensures { result ≡ mask_of site }
{
    1 << (site - 1)
}

#[tactic(auto, unfolding(rules::specs::House::in_mask))]
pub fn in_mask(mask: u64, site: u64) -> bool
    requires { (1 ≤ site) × (site ≤ sizes.sites) }
    ensures { result ≡ in_mask mask site }
{
    (mask >> (site - 1)) % 2 == 1
}

#[tactic(auto, unfolding(rules::specs::House::is_mask))]
pub fn is_mask(h: House, mask: u64) -> bool
    requires { h.sites ≤ sizes.sites }
    ensures { result ≡ is_mask h mask }
{
    mask < 1 << h.sites
}

#[tactic(auto, unfolding(rules::specs::House::participants))]
pub fn participants(mask: u64) -> u64
    ensures { result ≡ participantsOf mask }
{
    mask.count_ones() as u64
}

// One fewer than the participants, of whom this site is one.
#[tactic(auto, unfolding(rules::specs::House::replies_wanted))]
pub fn replies_wanted(own: u64, mask: u64) -> u64
    requires { (1 ≤ own) × (own ≤ sizes.sites) }
    ensures { result ≡ replies_wanted own mask }
{
    participants(mask | mask_of(own)).saturating_sub(1)
}

// (m, d) precedes (n, c): by commit number, then by coordinator.
pub fn precedes(m: u64, d: u64, n: u64, c: u64) -> bool
    ensures { result ≡ precedesOf m d n c }
{
    (m, d) < (n, c)
}

#[tactic(auto, unfolding(rules::specs::Desk::is_desk))]
pub fn is_desk(d: u64) -> bool
    ensures { result ≡ is_desk d }
{
    d <= PROOFING
}

// How many keys a part for a desk may write.
#[tactic(auto, unfolding(rules::specs::Desk::write_limit))]
pub fn write_limit(d: u64) -> usize
    ensures { result ≡ write_limit d }
{
    if d == PROOFING {
        PROOFING_WRITES
    } else {
        WRITES
    }
}
