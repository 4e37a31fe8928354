// The checksum of every field of a core and of a merger, used or not: a refused call leaves it.
use crate::{more, of_house, of_words, three_more};
use kinds::{Channels, Core, Counters, Merger, Seat, Source};

fn counters(h: u64, c: Counters) -> u64 {
    more(three_more(h, c.own, c.clock, c.serial), c.installs)
}

fn channels(h: u64, c: Channels) -> u64 {
    of_words(of_words(h, &c.sent), &c.taken)
}

fn seats(h: u64, t: &[Seat]) -> u64 {
    t.iter().fold(h, |sum, s| more(more(sum, s.tx), s.stage))
}

pub fn core(p: Core) -> u64 {
    let a = counters(of_house(p.house), p.counters);
    seats(channels(a, p.channels), &p.seats)
}

fn source(h: u64, c: Source) -> u64 {
    more(
        three_more(h, c.state, c.number, c.coordinator),
        c.queued as u64,
    )
}

pub fn merger(g: Merger) -> u64 {
    g.sources
        .iter()
        .fold(of_house(g.house), |sum, c| source(sum, *c))
}
