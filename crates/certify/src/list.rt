// The transactions concurrent with a part (C21 to C29): every other prepared one, and every install after its snapshot.
ghost use Rattle.std.specs.Prelude.{◌≡◌, ◌+◌, ◌-◌, ◌*◌, ◌≤◌};
ghost use Rattle.laws.specs.Overlay.{overlay};
ghost use Rattle.kinds.specs.Sizes as sizes;
ghost use Rattle.kinds.specs.Word as word;
ghost use Rattle.rules.specs.Message.{entry_count};
ghost use Rattle.rules.specs.History.{remembered as rememberedOf};
ghost use Rattle.rules.specs.Certify.{concurrent_words, prepared_words, installed_words};
ghost use Rattle.rules.specs.Certify.{prepared_list, installed_list, concurrent as concurrentOf};
ghost use Rattle.lent.specs.Layout.{sub_from, entry_from, live_of, history_of};
ghost use Rattle.lent.specs.Lent.{site_of};
ghost use Rattle.certify.specs.Asks.{Compared, ComparedIn, Preparing, Installing, Listing, Entered};

use join::write_entry;
use kinds::sizes::{ENTRY, HISTORY, LIVE, PLACE, SLOT};
use kinds::word::{PLACE_KEYS, PLACE_MASK, SLOT_KEYS, SLOT_MASK, SLOT_TX};
use kinds::{Core, Keys, Listed, Seat};
use tables::{keys_at, part_at};

// Places for every candidate.
const CANDIDATES: usize = ENTRY * (LIVE + HISTORY);

// An entry, marked where the two are dependent here.
fn write_concurrent(out: &mut [u64], own: Keys, tx: u64, mask: u64, other: Keys)
    requires { Compared out.old own other }
    ensures { out.new ≡ overlay out.old (concurrent_words own tx mask other) }
{
    let mark = u64::from(keys::dependent(own, other));
    write_entry(out, tx, Listed { mask, mark });
}

// The entry of the part of seat `a` at place `i`: none for the part itself, nor for one that is not prepared. Returns how many.
fn write_prepared(
    out: &mut [u64],
    live: &[u64],
    place: usize,
    own: Keys,
    i: usize,
    a: Seat,
) -> usize
    requires { ComparedIn out.old own live.now (sizes.place * i + word.place_keys) }
    ensures upper_bound { result ≤ 1 }
    ensures fact { let b = sub_from a live.now (sizes.place * i) in
        Entered out.old (prepared_words place own i b) result out.new }
{
    if i == place || !live::is_prepared(a.stage) {
        return 0;
    }
    let at = PLACE * i;
    let mask = live[at + PLACE_MASK];
    let keys = keys_at(live, at + PLACE_KEYS);
    write_concurrent(out, own, a.tx, mask, keys);
    1
}

// The other prepared ones. Returns how many.
fn prepared_list(out: &mut [u64], seats: [Seat; LIVE], live: &[u64], place: usize) -> usize
    requires { Preparing out.old live.now place }
    ensures { let parts = live_of seats live.now in
        Entered out.old (prepared_list parts place sizes.live) result out.new }
{
    let own = keys_at(live, PLACE * place + PLACE_KEYS);
    let mut n: usize = 0;
    for i in 0..LIVE {
        let at = ENTRY * n;
        n += write_prepared(&mut out[at..], live, place, own, i, seats[i]);
    }
    n
}

// The entry of the install in a slot.
fn write_installed(out: &mut [u64], history: &[u64], own: Keys, slot: usize)
    requires { ComparedIn out.old own history.now (sizes.slot * slot + word.slot_keys) }
    ensures { let e = entry_from history.now (sizes.slot * slot) in
        out.new ≡ overlay out.old (installed_words own e) }
{
    let at = SLOT * slot;
    let tx = history[at + SLOT_TX];
    let mask = history[at + SLOT_MASK];
    let keys = keys_at(history, at + SLOT_KEYS);
    write_concurrent(out, own, tx, mask, keys);
}

// The remembered installs after the first `seen`. Returns how many.
fn installed_list(out: &mut [u64], history: &[u64], installs: u64, own: Keys, seen: usize) -> usize
    requires { Installing out.old history.now installs own seen }
    ensures value { result ≡ rememberedOf installs - seen }
    ensures out_after { let past = history_of history.now in
        out.new ≡ overlay out.old (installed_list past installs own seen result) }
{
    let n = history::remembered(installs) - seen;
    for i in 0..n {
        let slot = history::recall_slot(installs, seen + i);
        let at = ENTRY * i;
        write_installed(&mut out[at..], history, own, slot);
    }
    n
}

// Writes the list of the part at `place`, by transaction ascending, and returns how many entries it has.
pub fn concurrent(out: &mut [u64], p: Core, live: &[u64], history: &[u64], place: usize) -> usize
    requires { Listing (site_of p live.now history.now) place out.old }
    ensures fact { let s = site_of p live.now history.now in
        (result ≤ sizes.conc_entries) × (result ≡ entry_count (concurrentOf s place)) }
    ensures out_after { let s = site_of p live.now history.now in
        out.new ≡ overlay out.old (concurrentOf s place) }
{
    let installs = p.counters.installs;
    let seats = p.seats;
    let b = part_at(seats, live, place);
    let own = b.keys;
    let snapshot = b.snapshot;
    let seen = history::within(installs, snapshot);
    let mut all: [u64; CANDIDATES] = [0; CANDIDATES];
    let n = prepared_list(&mut all, seats, live, place);
    let at = ENTRY * n;
    let m = installed_list(&mut all[at..], history, installs, own, seen);
    let end = ENTRY * (n + m);
    join::join(out, &all[..end], n + m)
}
