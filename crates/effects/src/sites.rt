// A site's lines.
use crate::{Done, Lent, TABLE, buffer_of, first_keys, pattern};
use kinds::sizes::{BASE, HISTORY_WORDS, LIVE_WORDS};
use kinds::{Answer, Core, Key, Reply, Value};
use pages::is_refused;
use pieces::{front, front_mut};
use pokes::poke_site;
use verbs::{Line, verb};

#[derive(Clone, Copy)]
pub struct SiteDone {
    pub done: Done,
    pub core: Core,
}

// The start of a site with the first n words of a table.
pub fn start_by(
    sites: u64,
    firsts: [Key; TABLE],
    n: usize,
    own: u64,
    live: &mut [u64],
    history: &mut [u64],
    base: &mut [u64],
    lists: &mut [u64],
) -> Reply {
    store::start_site(sites, front(&firsts, n), own, live, history, base, lists)
}

// A refused start leaves the site as it was.
fn start(
    p: Core,
    l: Line,
    lent: Lent,
    live: &mut [u64],
    history: &mut [u64],
    base: &mut [u64],
    lists: &mut [u64],
) -> Reply {
    let n = first_keys(lent, l.b);
    let o = start_by(l.b, lent.firsts, n, l.c, live, history, base, lists);
    if is_refused(o.answer) {
        return Reply {
            answer: o.answer,
            words: 0,
            core: p,
        };
    }
    o
}

// The value is the line's start and length (Q12.8).
fn write(p: Core, l: Line, live: &mut [u64], history: &[u64]) -> Reply {
    let value = Value {
        start: l.d,
        length: l.e,
    };
    store::write(p, live, history, l.b, l.c, value)
}

// A search hands back no core.
fn search(p: Core, l: Line, live: &[u64], history: &[u64], base: &[u64]) -> Reply {
    Reply {
        answer: store::search(p, live, history, base, l.b, l.c),
        words: 0,
        core: p,
    }
}

// The call, with exactly the words that it is lent.
fn call(
    p: Core,
    l: Line,
    lent: Lent,
    m: &[u64],
    live: &mut [u64],
    history: &mut [u64],
    base: &mut [u64],
    lists: &mut [u64],
    out: &mut [u64],
) -> Reply {
    match l.verb {
        verb::BEGIN => store::begin(p, live, history, l.b),
        verb::ENLIST => store::enlist(p, live, history, l.b, l.c, out),
        verb::READ => store::read(p, live, history, base, l.b, l.c),
        verb::SEARCH => search(p, l, live, history, base),
        verb::WRITE => write(p, l, live, history),
        verb::COMMIT => store::commit(p, live, history, l.b, lists, out),
        verb::ABANDON => store::abandon(p, live, history, l.b, out),
        verb::MESSAGE => store::message(p, live, history, m, lists, out),
        verb::INSTALL => store::install(p, live, history, base, out),
        verb::REPORT => store::report(p, live, history, out),
        _ => start(p, l, lent, live, history, base, lists),
    }
}

fn is_poke(v: u64) -> bool {
    matches!(v, verb::SITE | verb::LIVE | verb::PAST | verb::LIST)
}

// A call is lent as much of the tables as is asked for; a poke is lent the whole of them.
fn obeyed(
    p: Core,
    l: Line,
    lent: Lent,
    m: &[u64],
    live: &mut [u64],
    history: &mut [u64],
    base: &mut [u64],
    lists: &mut [u64],
    out: &mut [u64],
) -> Reply {
    if is_poke(l.verb) {
        return poke_site(p, live, history, lists, l);
    }
    call(
        p,
        l,
        lent,
        m,
        front_mut(live, lent.live),
        front_mut(history, lent.history),
        front_mut(base, lent.base),
        front_mut(lists, lent.lists),
        out,
    )
}

// The checksum of a core and all of its words.
fn whole(p: Core, live: &[u64], history: &[u64], base: &[u64], lists: &[u64]) -> u64 {
    let a = sums::of_words(sums::whole::core(p), live);
    let b = sums::of_words(a, history);
    sums::of_words(sums::of_words(b, base), lists)
}

fn state_of(a: Answer, p: Core, live: &[u64], history: &[u64], base: &[u64]) -> u64 {
    if is_refused(a) {
        return 0;
    }
    sums::seen::site(
        p,
        front(live, LIVE_WORDS),
        front(history, HISTORY_WORDS),
        front(base, BASE),
    )
}

// Calls a site with its tables, and compares it before and after.
pub fn at_site(
    p: Core,
    l: Line,
    lent: Lent,
    m: &[u64],
    live: &mut [u64],
    history: &mut [u64],
    base: &mut [u64],
    lists: &mut [u64],
    out: &mut [u64],
) -> SiteDone {
    let before = whole(p, live, history, base, lists);
    pattern(out);
    let o = obeyed(p, l, lent, m, live, history, base, lists, out);
    let after = whole(o.core, live, history, base, lists);
    SiteDone {
        done: Done {
            answer: o.answer,
            words: o.words,
            buffer: buffer_of(l.verb, out),
            same: before == after,
            state: state_of(o.answer, o.core, live, history, base),
        },
        core: o.core,
    }
}
