// What a message's header must be.
ghost use Rattle.std.specs.Prelude.{◌≡◌, true, [], ◌∷◌, ◌≤◌, eqb};
ghost use Rattle.laws.specs.Choice.{pick, every, some};
ghost use Rattle.kinds.specs.Reason as reason;
ghost use Rattle.kinds.specs.Sizes as sizes;
ghost use Rattle.rules.specs.House.{is_mask, in_mask};
ghost use Rattle.rules.specs.Message.{to_coordinator, coordinator_end, carries_clock, argument_ok, most_entries, ends_ok, head_ok};

use kinds::sizes::{CERT_ENTRIES, CONC_ENTRIES};
use kinds::{House, MessageHead, kind, reason};
use numbers::{coordinator_of, in_mask, is_desk, is_mask, is_site, is_tx};

#[tactic(auto, unfolding(rules::specs::Message::to_coordinator))]
fn to_coordinator(kind: u64) -> bool
    ensures { result ≡ to_coordinator kind }
{
    matches!(kind, kind::JOINED | kind::CONC | kind::VOTE)
}

#[tactic(auto, unfolding(rules::specs::Message::coordinator_end))]
fn coordinator_end(h: MessageHead) -> u64
    ensures { result ≡ coordinator_end h }
{
    if to_coordinator(h.kind) { h.to } else { h.from }
}

#[tactic(auto, unfolding(rules::specs::Message::carries_clock))]
fn carries_clock(kind: u64) -> bool
    ensures { result ≡ carries_clock kind }
{
    matches!(kind, kind::PREPARE | kind::VOTE | kind::COMMIT)
}

fn clock_ok(kind: u64, clock: u64) -> bool
    ensures { result ≡ pick (carries_clock kind) true (eqb clock 0) }
{
    carries_clock(kind) || clock == 0
}

fn joined_ok(argument: u64) -> bool
    ensures { result ≡ some (eqb argument 0 ∷ eqb argument reason.full ∷ []) }
{
    matches!(argument, 0 | reason::FULL)
}

fn vote_ok(argument: u64) -> bool
    ensures { result
        ≡ some (eqb argument 0 ∷ eqb argument reason.unknown ∷ eqb argument reason.conflict ∷ eqb argument reason.uncertain ∷ []) }
{
    matches!(
        argument,
        0 | reason::UNKNOWN | reason::CONFLICT | reason::UNCERTAIN
    )
}

fn prepare_ok(o: House, mask: u64, from: u64, to: u64) -> bool
    requires sites_le_sites { o.sites ≤ sizes.sites }
    requires le_from { (1 ≤ from) × (from ≤ sizes.sites) }
    requires le_to { (1 ≤ to) × (to ≤ sizes.sites) }
    ensures { result ≡ every (is_mask o mask ∷ in_mask mask from ∷ in_mask mask to ∷ []) }
{
    is_mask(o, mask) && in_mask(mask, from) && in_mask(mask, to)
}

#[tactic(auto, unfolding(rules::specs::Message::argument_ok))]
fn argument_ok(o: House, h: MessageHead) -> bool
    requires sites_le_sites { o.sites ≤ sizes.sites }
    requires le_from { (1 ≤ h.from) × (h.from ≤ sizes.sites) }
    requires le_to { (1 ≤ h.to) × (h.to ≤ sizes.sites) }
    ensures { result ≡ argument_ok o h }
{
    match h.kind {
        kind::JOIN => is_desk(h.argument),
        kind::JOINED => joined_ok(h.argument),
        kind::PREPARE => prepare_ok(o, h.argument, h.from, h.to),
        kind::VOTE => vote_ok(h.argument),
        _ => h.argument == 0,
    }
}

#[tactic(auto, unfolding(rules::specs::Message::most_entries))]
fn most_entries(kind: u64) -> u64
    ensures { result ≡ most_entries kind }
{
    match kind {
        kind::CONC => CONC_ENTRIES as u64,
        kind::CERT => CERT_ENTRIES as u64,
        _ => 0,
    }
}

// The kind, the two sites and the transaction, whose coordinator is the one that the kind asks.
#[tactic(auto, unfolding(rules::specs::Message::ends_ok))]
fn ends_ok(o: House, h: MessageHead) -> bool
    ensures { result ≡ ends_ok o h }
{
    matches!(h.kind, kind::JOIN..=kind::ABORT)
        && is_site(o, h.from)
        && is_site(o, h.to)
        && h.from != h.to
        && is_tx(o, h.tx)
        && coordinator_of(h.tx) == coordinator_end(h)
}

#[tactic(auto, unfolding(rules::specs::Message::head_ok))]
pub fn head_ok(o: House, h: MessageHead) -> bool
    requires { o.sites ≤ sizes.sites }
    ensures { result ≡ head_ok o h }
{
    ends_ok(o, h)
        && clock_ok(h.kind, h.clock)
        && argument_ok(o, h)
        && h.count <= most_entries(h.kind)
}
