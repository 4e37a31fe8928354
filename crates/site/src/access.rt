// Read, write and search.
ghost use Rattle.std.specs.Prelude.{◌≡◌, length, List, [], ℕ, ◌<◌, IfOk};
ghost use Rattle.kinds.specs.Sizes as sizes;
ghost use Rattle.kinds.specs.State.{with_keys};
ghost use Rattle.kinds.specs.Refusal.{refusal_in};
ghost use Rattle.rules.specs.Effect.{taken_of, turn_at};
ghost use Rattle.rules.specs.Course.{with_sub_of};
ghost use Rattle.site.specs.Accessed.{Accessed, Writable, key_code_at, access_code_at};
ghost use Rattle.rules.specs.Live.{place_of};
ghost use Rattle.rules.specs.Access.{read_code, long_code, write_code_at, late_code, written as written_of};
ghost use Rattle.rules.specs.Access.{read_at, write_at, read_of, write_of, search_of};
ghost use Rattle.lent.specs.Lent.{site_of, Replied};

use kinds::sizes::{BASE, READS};
use kinds::stage::ACTIVE;
use kinds::{Answer, Core, Keys, Refusal, Reply, Snapshot, Sub, Taken, Turn, Value};

// The first cause against the state and the key.
fn check_key(p: Core, live: &[u64], history: &[u64], room: usize, key: u64) -> Result<(), Refusal>
    ensures { refusal_in result ≡ key_code_at (site_of p live.now history.now) room key }
{
    if room != BASE || !valid::site_ok(p, live, history) || !numbers::is_key(key) {
        return Err(Refusal::Malformed);
    }
    let house = tables::lent_house(p.house, live.len(), history.len());
    if numbers::home_of(house, key) != p.counters.own {
        return Err(Refusal::Elsewhere);
    }
    Ok(())
}

// Then that of the part: where it is, if it may read and write the key.
fn check_access(
    p: Core,
    live: &[u64],
    history: &[u64],
    room: usize,
    tx: u64,
    key: u64,
) -> Result<usize, Refusal>
    ensures code { refusal_in result ≡ access_code_at (site_of p live.now history.now) room tx key }
    ensures place { IfOk result (λ i. i ≡ place_of (site_of p live.now history.now).live tx) }
{
    check_key(p, live, history, room, key)?;
    let place = live::place_of(p.seats, tx).ok_or(Refusal::Unknown)?;
    if p.seats[place].stage != ACTIVE {
        return Err(Refusal::Stage);
    }
    Ok(place)
}

// A key that is read already needs no room.
fn check_read(lost: bool, has: bool, read: usize) -> Result<(), Refusal>
    ensures { refusal_in result ≡ read_code lost has read }
{
    if lost {
        return Err(Refusal::Forgotten);
    }
    if !has && READS <= read {
        return Err(Refusal::TooMany);
    }
    Ok(())
}

// The last cause of a write: the value does not fit (Q12.5).
fn check_long(value: Value) -> Result<(), Refusal>
    ensures { refusal_in result ≡ long_code value }
{
    if !values::fits(value) {
        return Err(Refusal::TooLong);
    }
    Ok(())
}

// A part with other keys, as a step that sends nothing.
fn with_keys(t: Turn, keys: Keys, answer: Answer) -> Taken
    ensures { result ≡ taken_of (record { answer = answer; words = []; turn = with_sub_of t (with_keys t.sub keys) }) }
{
    Taken {
        answer,
        words: 0,
        turn: course::turn::with_sub(t, Sub { keys, ..t.sub }),
    }
}

// What a part reads: the own write, else the version that the search finds for its snapshot.
fn read_at(
    p: Core,
    live: &mut [u64],
    history: &[u64],
    base: &[u64],
    place: usize,
    key: u64,
) -> Reply
    requires accessed { Accessed p live.old history.now place }
    requires base_len { (length base.now ≡ sizes.base) × (key < sizes.keys) }
    ensures { Replied p live.old history.now result live.new history.now
        (read_at (site_of p live.old history.now) base.now place key) }
{
    let t = shell::turn_at(p, live, place);
    let keys = t.sub.keys;
    if keys::wrote_key(keys, key) {
        let value = keys::wrote_value(keys, key);
        return shell::unaltered(p, Answer::Found { value }, 0);
    }
    let installs = p.counters.installs;
    let snapshot = t.sub.snapshot;
    let lost = history::is_forgotten(installs, snapshot);
    let has = keys::read_key(keys, key);
    if let Err(cause) = check_read(lost, has, keys.read) {
        return shell::refused_by(p, cause);
    }
    let value = history::search(history, installs, base, snapshot, key).value;
    let more = keys::with_read(keys, key);
    shell::settled(p, live, place, with_keys(t, more, Answer::Found { value }))
}

// Reads a key of this site.
pub fn read(p: Core, live: &mut [u64], history: &[u64], base: &[u64], tx: u64, key: u64) -> Reply
    ensures { Replied p live.old history.now result live.new history.now
        (read_of (site_of p live.old history.now) base.now tx key) }
{
    match check_access(p, live, history, base.len(), tx, key) {
        Ok(place) => read_at(p, live, history, base, place, key),
        Err(cause) => shell::refused_by(p, cause),
    }
}

// The version of a key of this site that any snapshot sees, and how many entries of the history the search looked at.
pub fn search(
    p: Core,
    live: &[u64],
    history: &[u64],
    base: &[u64],
    snapshot: u64,
    key: u64,
) -> Answer
    ensures { result ≡ search_of (site_of p live.now history.now) base.now
        (record { installs = snapshot }) key }
{
    if let Err(cause) = check_key(p, live, history, base.len(), key) {
        return Answer::Refused(cause.into());
    }
    let seen = Snapshot { installs: snapshot };
    let found = history::search(history, p.counters.installs, base, seen, key);
    Answer::Searched {
        value: found.value,
        looked: found.looked,
    }
}

// The first cause against a key that the part has not written.
fn check_fresh(
    p: Core,
    live: &[u64],
    history: &[u64],
    place: usize,
    t: Turn,
    key: u64,
    value: Value,
) -> Result<(), Refusal>
    requires { Accessed p live.now history.now place × (t ≡ turn_at (site_of p live.now history.now) place) }
    ensures { refusal_in result ≡ write_code_at (site_of p live.now history.now) place key value }
{
    let installs = p.counters.installs;
    let snapshot = t.sub.snapshot;
    if history::is_forgotten(installs, snapshot) {
        return Err(Refusal::Forgotten);
    }
    if live::key_held(p.seats, live, place, key) {
        return Err(Refusal::Held);
    }
    if history::is_newer(history, installs, snapshot, key) {
        return Err(Refusal::Newer);
    }
    if numbers::write_limit(t.sub.desk) <= t.sub.keys.wrote {
        return Err(Refusal::TooMany);
    }
    check_long(value)
}

// The first cause against a write of the part: causes 8 to 11 never arise for a key that it wrote before.
fn check_late(
    p: Core,
    live: &[u64],
    history: &[u64],
    place: usize,
    t: Turn,
    key: u64,
    value: Value,
) -> Result<(), Refusal>
    requires { Accessed p live.now history.now place × (t ≡ turn_at (site_of p live.now history.now) place) }
    ensures { refusal_in result ≡ late_code (site_of p live.now history.now) place key value }
{
    if keys::wrote_key(t.sub.keys, key) {
        check_long(value)
    } else {
        check_fresh(p, live, history, place, t, key, value)
    }
}

// The part with the key written.
fn written(p: Core, live: &mut [u64], place: usize, t: Turn, key: u64, value: Value) -> Reply
    requires live_len { (length live.old ≡ sizes.live_words) × (place < sizes.live) }
    requires writable { Writable t.sub.keys key }
    ensures { (h : List ℕ) → t ≡ turn_at (site_of p live.old h) place
        → Replied p live.old h result live.new h (written_of (site_of p live.old h) place key value) }
{
    let more = keys::with_write(t.sub.keys, key, value);
    shell::settled(p, live, place, with_keys(t, more, Answer::Done))
}

// What a part writes.
fn write_at(
    p: Core,
    live: &mut [u64],
    history: &[u64],
    place: usize,
    key: u64,
    value: Value,
) -> Reply
    requires { Accessed p live.old history.now place }
    ensures { Replied p live.old history.now result live.new history.now
        (write_at (site_of p live.old history.now) place key value) }
{
    let t = shell::turn_at(p, live, place);
    match check_late(p, live, history, place, t, key, value) {
        Ok(()) => written(p, live, place, t, key, value),
        Err(cause) => shell::refused_by(p, cause),
    }
}

// Writes a key of this site privately, and holds it until install or abort.
pub fn write(p: Core, live: &mut [u64], history: &[u64], tx: u64, key: u64, value: Value) -> Reply
    ensures { Replied p live.old history.now result live.new history.now
        (write_of (site_of p live.old history.now) tx key value) }
{
    match check_access(p, live, history, BASE, tx, key) {
        Ok(place) => write_at(p, live, history, place, key, value),
        Err(cause) => shell::refused_by(p, cause),
    }
}
