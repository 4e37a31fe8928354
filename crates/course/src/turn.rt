// A turn with one of its parts changed.
ghost use Rattle.std.specs.Prelude.{◌≡◌, ◌+◌, ◌-◌, ◌≤◌, ◌<◌, get_or};
ghost use Rattle.kinds.specs.Sizes as sizes;
ghost use Rattle.kinds.specs.State.{no_keys, no_sub};
ghost use Rattle.rules.specs.Effect.{taken_of};
ghost use Rattle.rules.specs.Course.{new_sub, raise as raiseOf, taken_from, channel_spent, is_outstanding, quietly as quietlyOf};
ghost use Rattle.rules.specs.Course.{with_sub_of};
ghost use Rattle.rules.specs.Course.{with_course_of, with_participant, with_reply, with_decision, with_queue_mark, with_request};
ghost use Rattle.rules.specs.Course.{with_stage};

use crate::channels::step_taken;
use kinds::desk::HOUSE;
use kinds::sizes::{LAST, READS, WRITES};
use kinds::stage::{ACTIVE, DECIDED, FREE, PREPARED, QUEUED};
use kinds::{Answer, Channels, Counters, Course, FRESH, Keys, Snapshot, Sub, Taken, Turn};

pub fn no_keys() -> Keys
    ensures { result ≡ no_keys }
{
    Keys {
        read: 0,
        wrote: 0,
        reads: [0; READS],
        writes: [0; WRITES],
        values: [FRESH; WRITES],
    }
}

// A free place.
pub fn no_sub() -> Sub
    ensures { result ≡ no_sub }
{
    Sub {
        tx: 0,
        desk: HOUSE,
        snapshot: Snapshot { installs: 0 },
        course: Course {
            stage: FREE,
            mask: 0,
            number: 0,
            heard: 0,
            reason: 0,
            listed: 0,
        },
        keys: no_keys(),
    }
}

// A part that begins now, for a desk.
pub fn new_sub(tx: u64, desk: u64, mask: u64, installs: u64) -> Sub
    ensures { result ≡ new_sub tx desk mask installs }
{
    let free = no_sub();
    Sub {
        tx,
        desk,
        snapshot: Snapshot { installs },
        course: Course {
            stage: ACTIVE,
            mask,
            ..free.course
        },
        ..free
    }
}

// The clock raised to the larger.
pub fn raise(t: Turn, n: u64) -> Turn
    ensures { result ≡ raiseOf t n }
{
    let counters = Counters {
        clock: t.counters.clock.max(n),
        ..t.counters
    };
    Turn { counters, ..t }
}

pub fn with_sub(t: Turn, b: Sub) -> Turn
    ensures { result ≡ with_sub_of t b }
{
    Turn { sub: b, ..t }
}

pub fn with_course(t: Turn, c: Course) -> Turn
    ensures { result ≡ with_course_of t c }
{
    with_sub(t, Sub { course: c, ..t.sub })
}

// Nothing to send.
pub fn quietly(t: Turn) -> Taken
    ensures { result ≡ taken_of (quietlyOf t) }
{
    Taken {
        answer: Answer::Done,
        words: 0,
        turn: t,
    }
}

// One more message taken from a site.
pub fn taken_from(c: Channels, site: u64) -> Channels
    requires { (1 ≤ site) × ((site ≤ sizes.sites) × (get_or c.taken (site - 1) 0 < sizes.last)) }
    ensures { result ≡ taken_from c site }
{
    let mut d = c;
    step_taken(&mut d, site);
    d
}

pub fn channel_spent(c: Channels, site: u64) -> bool
    requires { (1 ≤ site) × (site ≤ sizes.sites) }
    ensures { result ≡ channel_spent c site }
{
    LAST <= c.sent[(site - 1) as usize]
}

// A reply of this round is still to come from that site.
pub fn is_outstanding(c: Course, site: u64) -> bool
    requires { (1 ≤ site) × (site ≤ sizes.sites) }
    ensures { result ≡ is_outstanding c site }
{
    numbers::in_mask(c.mask, site) && !numbers::in_mask(c.heard, site)
}

pub fn with_participant(c: Course, site: u64) -> Course
    requires { (1 ≤ site) × (site ≤ sizes.sites) }
    ensures { result ≡ with_participant c site }
{
    Course {
        mask: c.mask | numbers::mask_of(site),
        ..c
    }
}

// A reply that brings no entries.
pub fn with_heard(c: Course, site: u64, reason: u64) -> Course
    requires { (1 ≤ site) × (site ≤ sizes.sites) }
    ensures { result ≡ with_reply c site reason 0 }
{
    Course {
        heard: c.heard | numbers::mask_of(site),
        reason: c.reason.max(reason),
        ..c
    }
}

pub fn with_reply(c: Course, site: u64, entries: usize) -> Course
    requires { (1 ≤ site) × ((site ≤ sizes.sites) × (c.listed + entries ≤ sizes.last)) }
    ensures { result ≡ with_reply c site 0 entries }
{
    Course {
        listed: c.listed + entries,
        ..with_heard(c, site, 0)
    }
}

pub fn with_decision(c: Course, number: u64) -> Course
    ensures { result ≡ with_decision c number }
{
    Course {
        stage: DECIDED,
        number,
        ..c
    }
}

pub fn with_queue_mark(c: Course, clock: u64) -> Course
    ensures { result ≡ with_queue_mark c clock }
{
    Course {
        stage: QUEUED,
        number: clock,
        heard: 0,
        listed: 0,
        ..c
    }
}

pub fn with_request(c: Course, entries: usize) -> Course
    ensures { result ≡ with_request c entries }
{
    Course {
        stage: PREPARED,
        heard: 0,
        listed: entries,
        ..c
    }
}

pub fn with_stage(c: Course, mask: u64, stage: u64) -> Course
    ensures { result ≡ with_stage c mask stage }
{
    Course { stage, mask, ..c }
}
