// What every call of a site does around its step: a part is taken out of the lent words, and put back.

#![tactic(auto)]

ghost use Rattle.std.specs.Prelude.{◌≡◌, List, ℕ, ◌<◌, length};
ghost use Rattle.kinds.specs.Refusal.{number_of};
ghost use Rattle.kinds.specs.Sizes as sizes;
ghost use Rattle.rules.specs.Effect.{Change, taken_of, turn_at, changed, refused as refusedOf};
ghost use Rattle.shell.specs.Countable.{Countable, Comes};
ghost use Rattle.rules.specs.Deliver.{arrived as arrivedOf, passed as passedOf, join_turn, spoken as spokenOf};
ghost use Rattle.lent.specs.Lent.{site_of, Replied};

use kinds::{Answer, Core, MessageHead, Refusal, Reply, Taken, Turn};

// An answer that alters nothing.
pub fn unaltered(p: Core, answer: Answer, words: usize) -> Reply
    ensures { (ws : List ℕ) → words ≡ length ws → (w h lent : List ℕ)
        → Replied p w h result w h (record { answer = answer; words = ws; site = site_of p w h; lent = lent }) }
{
    Reply {
        answer,
        words,
        core: p,
    }
}

// A refusal by a cause, with its number.
pub fn refused_by(p: Core, cause: Refusal) -> Reply
    ensures { (w h lent : List ℕ) → Replied p w h result w h (refusedOf (number_of cause) (site_of p w h) lent) }
{
    unaltered(p, Answer::Refused(cause.into()), 0)
}

// The part at a place, with its surroundings.
pub fn turn_at(p: Core, live: &[u64], place: usize) -> Turn
    requires { (length live.now ≡ sizes.live_words) × (place < sizes.live) }
    ensures { (h : List ℕ) → result ≡ turn_at (site_of p live.now h) place }
{
    let counters = p.counters;
    let channels = p.channels;
    let seats = p.seats;
    let sub = tables::part_at(seats, live, place);
    Turn {
        counters,
        channels,
        sub,
    }
}

// The same with the channel's count stepped.
pub fn arrived(p: Core, live: &[u64], place: usize, from: u64) -> Turn
    requires { Comes live.now place p.channels from }
    ensures { (h : List ℕ) → result ≡ arrivedOf (site_of p live.now h) place from }
{
    let counters = p.counters;
    let channels = course::turn::taken_from(p.channels, from);
    let seats = p.seats;
    let sub = tables::part_at(seats, live, place);
    Turn {
        counters,
        channels,
        sub,
    }
}

// A new part for a desk, with the channel's count stepped.
pub fn join_turn(p: Core, h: MessageHead, desk: u64) -> Turn
    requires { Countable p.channels h.from }
    ensures { (w g : List ℕ) → result ≡ join_turn (site_of p w g) h desk }
{
    let counters = p.counters;
    let channels = course::turn::taken_from(p.channels, h.from);
    let sub = course::turn::new_sub(h.tx, desk, 0, counters.installs);
    Turn {
        counters,
        channels,
        sub,
    }
}

// A message for a transaction that is not held only steps the count.
pub fn passed(p: Core, from: u64) -> Reply
    requires { Countable p.channels from }
    ensures { (w h : List ℕ) → Replied p w h result w h (passedOf (site_of p w h) from) }
{
    let channels = course::turn::taken_from(p.channels, from);
    let mut q = p;
    q.channels = channels;
    Reply {
        answer: Answer::Done,
        words: 0,
        core: q,
    }
}

// The site with a step taken at a place.
pub fn settled(p: Core, live: &mut [u64], place: usize, a: Taken) -> Reply
    requires { (length live.old ≡ sizes.live_words) × (place < sizes.live) }
    ensures { (c : Change) → a ≡ taken_of c → (h lent : List ℕ)
        → Replied p live.old h result live.new h (changed (site_of p live.old h) place c lent) }
{
    let answer = a.answer;
    let t = a.turn;
    let c = t.counters;
    let d = t.channels;
    let b = t.sub;
    let seat = tables::seat_of(b);
    let mut q = p;
    q.counters = c;
    q.channels = d;
    q.seats[place] = seat;
    tables::put_part(live, place, b);
    Reply {
        answer,
        words: a.words,
        core: q,
    }
}

// The site with a step taken that leaves no part.
pub fn spoken(p: Core, a: Taken) -> Reply
    ensures { (c : Change) → a ≡ taken_of c → (w h : List ℕ) → Replied p w h result w h (spokenOf (site_of p w h) c) }
{
    let answer = a.answer;
    let t = a.turn;
    let c = t.counters;
    let d = t.channels;
    let mut q = p;
    q.counters = c;
    q.channels = d;
    Reply {
        answer,
        words: a.words,
        core: q,
    }
}
