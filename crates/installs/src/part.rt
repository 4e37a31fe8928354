// Install: the queue's least, if decided, goes into the history, and its part record into the log (C51 to C55).
ghost use Rattle.std.specs.Prelude.{◌≡◌, ℕ, ◌≤◌, ◌<◌, List, length, leb, IfOk};
ghost use Rattle.laws.specs.Choice.{pick};
ghost use Rattle.laws.specs.Overlay.{overlay};
ghost use Rattle.kinds.specs.Refusal.{refusal_in};
ghost use Rattle.kinds.specs.Sizes as sizesOf;
ghost use Rattle.rules.specs.Keys.{sorted_count};
ghost use Rattle.rules.specs.History.{slot_of, forget_into};
ghost use Rattle.rules.specs.Install.{entry_of, part_head, part_words, installed_at, install_of};
ghost use Rattle.rules.specs.Queue.{least_queued};
ghost use Rattle.kinds.specs.State.{sub_at};
ghost use Rattle.lent.specs.Layout.{history_of};
ghost use Rattle.lent.specs.Lent.{site_of, Left, Replied};
ghost use Rattle.lent.specs.Laws.{Lengths};
ghost use Rattle.installs.specs.Forgettable.{oldest, Forgettable};
ghost use Rattle.installs.specs.Installable.{Installable, install_code_at};

use kinds::kind::PART;
use kinds::sizes::{BASE, HISTORY, LAST, WRITE, WRITES};
use kinds::{Answer, Core, Entry, RecordHead, Refusal, Reply, Sub, sizes};

// The place of the queue's least, if it installs.
fn check_install(
    p: Core,
    live: &[u64],
    history: &[u64],
    room: usize,
    given: usize,
) -> Result<usize, Refusal>
    ensures code { refusal_in result ≡ install_code_at (site_of p live.now history.now) room given }
    ensures place { IfOk result (λ i. i ≡ least_queued (site_of p live.now history.now).live sizesOf.live) }
{
    if room < sizes::PART {
        return Err(Refusal::Short);
    }
    if given != BASE || !valid::site_ok(p, live, history) {
        return Err(Refusal::Malformed);
    }
    let place = queue::least_queued(p.seats, live).ok_or(Refusal::Nothing)?;
    if !queue::is_installable(p.seats, place) {
        return Err(Refusal::Nothing);
    }
    if LAST <= p.counters.installs {
        return Err(Refusal::Spent);
    }
    Ok(place)
}

// Where the next install is kept, in the place of the oldest beyond `HISTORY`.
fn next_slot(installs: u64) -> usize
    ensures { result ≡ slot_of installs }
{
    (installs % HISTORY as u64) as usize
}

// The writes of the oldest go into the base values once `HISTORY` are remembered.
fn forget_oldest(base: &mut [u64], history: &[u64], installs: u64)
    requires history_len { (length history.now ≡ sizesOf.history_words) × (length base.old ≡ sizesOf.base) }
    requires forgettable { Forgettable (oldest (history_of history.now) installs) }
    ensures { base.new
        ≡ pick (leb sizesOf.history installs) (forget_into base.old (oldest (history_of history.now) installs))
        base.old }
{
    if installs < HISTORY as u64 {
        return;
    }
    let e = tables::entry_at(history, next_slot(installs));
    history::forget_into(base, e.keys);
}

// What the history keeps of a part.
fn entry_of(b: Sub) -> Entry
    ensures { result ≡ entry_of b }
{
    Entry {
        tx: b.tx,
        mask: b.course.mask,
        number: b.course.number,
        keys: b.keys,
    }
}

fn part_head(own: u64, b: Sub, count: usize) -> RecordHead
    requires { count ≡ sorted_count b.keys }
    ensures { result ≡ part_head own b }
{
    RecordHead {
        kind: PART,
        site: own,
        number: b.course.number,
        coordinator: numbers::coordinator_of(b.tx),
        tx: b.tx,
        mask: b.course.mask,
        count: count as u64,
    }
}

// Writes the part record, and returns how many words it has.
fn write_part(out: &mut [u64], own: u64, b: Sub) -> usize
    requires { (b.keys.wrote ≤ sizesOf.writes) × (sizesOf.part ≤ length out.old) }
    ensures { (result ≡ length (part_words own b)) × (out.new ≡ overlay out.old (part_words own b)) }
{
    let mut ws = [0u64; WRITE * WRITES];
    let n = keys::order::sorted_words(&mut ws, b.keys);
    let head = part_head(own, b, n);
    let end = WRITE * n;
    records::write_record(out, head, &ws[..end])
}

// The place is free, the next slot has the part's entry, and the install is counted.
fn kept(p: Core, live: &mut [u64], history: &mut [u64], place: usize, b: Sub) -> Core
    requires lengths { Lengths live.old history.old × (p.counters.installs < sizesOf.last) }
    requires place_lt_live { (place < sizesOf.live) × (b ≡ sub_at (site_of p live.old history.old) place) }
    ensures { (base : List ℕ)
        → Left p live.old history.old result live.new history.new
        (installed_at (site_of p live.old history.old) base place).site }
{
    let free = course::turn::no_sub();
    let mut q = p;
    q.counters.installs += 1;
    q.seats[place] = tables::seat_of(free);
    tables::put_part(live, place, free);
    tables::put_entry(history, next_slot(p.counters.installs), entry_of(b));
    q
}

// The part at a place goes into the history, and its record into the log.
fn install_at(
    p: Core,
    live: &mut [u64],
    history: &mut [u64],
    base: &mut [u64],
    out: &mut [u64],
    place: usize,
) -> Reply
    requires installable { Installable p live.old history.old place }
    requires base_len { (length base.old ≡ sizesOf.base) × (sizesOf.part ≤ length out.old) }
    ensures replied { Replied p live.old history.old result live.new history.new
        (installed_at (site_of p live.old history.old) base.old place) }
    ensures base_after { base.new
        ≡ (installed_at (site_of p live.old history.old) base.old place).lent }
    ensures out_after { out.new
        ≡ overlay out.old
        (installed_at (site_of p live.old history.old) base.old place).words }
{
    let b = tables::part_at(p.seats, live, place);
    forget_oldest(base, history, p.counters.installs);
    let words = write_part(out, p.counters.own, b);
    Reply {
        answer: Answer::Installed {
            number: b.course.number,
            coordinator: numbers::coordinator_of(b.tx),
        },
        words,
        core: kept(p, live, history, place, b),
    }
}

pub fn install(
    p: Core,
    live: &mut [u64],
    history: &mut [u64],
    base: &mut [u64],
    out: &mut [u64],
) -> Reply
    ensures replied { Replied p live.old history.old result live.new history.new
        (install_of (site_of p live.old history.old) (length out.old) base.old) }
    ensures base_after { base.new
        ≡ (install_of (site_of p live.old history.old) (length out.old) base.old).lent }
    ensures out_after { out.new
        ≡ overlay out.old
        (install_of (site_of p live.old history.old) (length out.old) base.old).words }
{
    match check_install(p, live, history, out.len(), base.len()) {
        Ok(place) => install_at(p, live, history, base, out, place),
        Err(cause) => shell::refused_by(p, cause),
    }
}
