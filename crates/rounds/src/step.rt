// The calls of a save over two sites by their numbers, in the order of its course. A message or a record is what the last call that
// wrote one wrote.
//
//  1 begin at 1                     9 message at 2, PREPARE     17 merge, the part
//  2 enlist at 1                   10 message at 1, CONC        18 report at 1
//  3 message at 2, JOIN            11 message at 2, CERT        19 merge, the state number
//  4 message at 1, JOINED          12 message at 1, VOTE        20 report at 2
//  5 write at 1                    13 message at 2, COMMIT      21 merge, the state number
//  6 write at 2                    14 install at 1              22 emit
//  7 read at 1                     15 merge, the part           23 replay
//  8 commit at 1                   16 install at 2              24 value
//
// 25 is abandon at 1, behind 7 and in no save. 28 is a message at 2, of no save, to a state that the caller makes. 29 and 30 are reads
// at 1 as 7 is, and 31 a search there: 7 and 31 find no entry that has their key, 29 finds the newest, 30 the oldest. 0, 26 and 27 make
// no call: they are passed what a site's call, the merger's and the copy's are, and pass it on, so that their time is that of the
// others without the call.
use kinds::desk::HOUSE;
use kinds::sizes::{COPY, HISTORY, OUTGOING, QUEUES, SITE_KEYS};
use kinds::{Answer, Core, Merger, MergerOut, Reply, Value};

// Who is called; the copy by the steps that are left.
#[derive(Clone, Copy)]
enum Called {
    Site,
    Merger,
    Copy,
}

// The last step of a save, and the last of all.
pub const LAST_STEP: u64 = 24;

pub const LAST_TIMED: u64 = 31;

// The CERT that asks the most work.
pub const WORST: u64 = 28;

// The steps before an abandon end here.
pub const COMMIT: u64 = 8;

// So many keys of each site are written, by turns.
const WRITTEN: u64 = 200;

// A key that no save writes, so that a read goes through the whole history.
const UNWRITTEN: u64 = 255;

// A save: its transaction, and how many were before it.
#[derive(Clone, Copy)]
pub struct Save {
    pub tx: u64,
    pub before: u64,
}

// A call's answer, how many words it wrote to the outgoing buffer, and what it leaves of a site and of the merger.
#[derive(Clone, Copy)]
pub struct Made {
    pub answer: Answer,
    pub words: usize,
    pub core: Core,
    pub merger: Merger,
}

fn called_by(step: u64) -> Called {
    match step {
        0..=14 | 16 | 18 | 20 | 25 | 28..=31 => Called::Site,
        15 | 17 | 19 | 21 | 22 | 26 => Called::Merger,
        _ => Called::Copy,
    }
}

// The site whose call a step's is, less 1. A step that is no site's is handed the first.
pub fn site_of(step: u64) -> usize {
    match step {
        3 | 6 | 9 | 11 | 13 | 16 | 20 | 28 => 1,
        _ => 0,
    }
}

// The key that the save wrote which is so many before the next one.
fn key_before(n: u64, back: u64) -> u64 {
    (n % WRITTEN + WRITTEN - back % WRITTEN) % WRITTEN
}

// What the save writes which so many come before: a start, and a length other than 0.
fn written_by(n: u64) -> Value {
    Value {
        start: n,
        length: n % WRITTEN + 1,
    }
}

// A search at the site, with all that is installed visible.
fn searched(p: Core, live: &[u64], history: &[u64], base: &[u64]) -> Reply {
    Reply {
        answer: store::search(p, live, history, base, p.counters.installs, UNWRITTEN),
        words: 0,
        core: p,
    }
}

// A site's call. The words of m are the message to take.
fn at_site(
    step: u64,
    v: Save,
    p: Core,
    live: &mut [u64],
    history: &mut [u64],
    base: &mut [u64],
    lists: &mut [u64],
    m: &[u64],
    out: &mut [u64],
) -> Reply {
    let Save { tx, before: n } = v;
    match step {
        0 => Reply {
            answer: Answer::Done,
            words: 0,
            core: p,
        },
        1 => store::begin(p, live, history, HOUSE),
        2 => store::enlist(p, live, history, tx, 2, out),
        5 => store::write(p, live, history, tx, n % WRITTEN, written_by(n)),
        6 => store::write(p, live, history, tx, SITE_KEYS + n % WRITTEN, written_by(n)),
        7 => store::read(p, live, history, base, tx, UNWRITTEN),
        8 => store::commit(p, live, history, tx, lists, out),
        14 | 16 => store::install(p, live, history, base, out),
        18 | 20 => store::report(p, live, history, out),
        25 => store::abandon(p, live, history, tx, out),
        29 => store::read(p, live, history, base, tx, key_before(n, 1)),
        30 => store::read(p, live, history, base, tx, key_before(n, HISTORY as u64)),
        31 => searched(p, live, history, base),
        _ => store::message(p, live, history, m, lists, out),
    }
}

// The merger's call. The words of m are the record to queue.
fn at_merger(step: u64, g: Merger, queues: &mut [u64], m: &[u64], out: &mut [u64]) -> MergerOut {
    match step {
        22 => store::emit(g, queues, out),
        26 => MergerOut {
            answer: Answer::Done,
            words: 0,
            merger: g,
        },
        _ => store::merge(g, queues, m),
    }
}

// The copy's call. The words of m are the record to replay.
fn at_copy(step: u64, v: Save, copy: &mut [u64], m: &[u64]) -> Answer {
    match step {
        24 => store::value(copy, v.before % WRITTEN),
        27 => Answer::Done,
        _ => store::replay(copy, m),
    }
}

fn of_site(o: Reply, merger: Merger) -> Made {
    Made {
        answer: o.answer,
        words: o.words,
        core: o.core,
        merger,
    }
}

fn of_merger(o: MergerOut, core: Core) -> Made {
    Made {
        answer: o.answer,
        words: o.words,
        core,
        merger: o.merger,
    }
}

fn of_copy(answer: Answer, core: Core, merger: Merger) -> Made {
    Made {
        answer,
        words: 0,
        core,
        merger,
    }
}

// A step's call, with its site and the merger. The words of m are what it takes.
pub fn make(
    step: u64,
    v: Save,
    p: Core,
    g: Merger,
    live: &mut [u64],
    history: &mut [u64],
    base: &mut [u64],
    lists: &mut [u64],
    queues: &mut [u64; QUEUES],
    copy: &mut [u64; COPY],
    m: &[u64],
    out: &mut [u64; OUTGOING],
) -> Made {
    match called_by(step) {
        Called::Site => of_site(at_site(step, v, p, live, history, base, lists, m, out), g),
        Called::Merger => of_merger(at_merger(step, g, queues, m, out), p),
        Called::Copy => of_copy(at_copy(step, v, copy, m), p, g),
    }
}

// The first half of the words, or the second.
pub fn half(words: &mut [u64], i: usize) -> &mut [u64] {
    let n = words.len() / 2;
    if i == 0 {
        return &mut words[0..n];
    }
    &mut words[n..]
}
