// Lines of a probe: a verb and up to five numbers. Any other line is a remark.
#![tactic(auto)]

pub mod verb;

use lines::{Place, WORDS};

// Whom a line is for.
#[derive(Clone, Copy, Debug, PartialEq, Eq)]
pub enum Group {
    Nobody,
    Site,
    Merger,
    Copy,
    Hand,
    Lent,
    House,
    Bookmark,
    Bytes,
}

#[derive(Clone, Copy)]
pub struct Line {
    pub group: Group,
    pub verb: u64,
    pub a: u64,
    pub b: u64,
    pub c: u64,
    pub d: u64,
    pub e: u64,
}

pub fn remark() -> Line {
    Line {
        group: Group::Nobody,
        verb: 0,
        a: 0,
        b: 0,
        c: 0,
        d: 0,
        e: 0,
    }
}

// Whom a verb with no number is for.
fn none(v: u64) -> Group {
    match v {
        verb::MERGE | verb::EMIT => Group::Merger,
        _ => Group::Nobody,
    }
}

// Whom a verb with one number is for.
fn one(v: u64) -> Group {
    match v {
        verb::HOUSE => Group::House,
        verb::ROOM
        | verb::PLACES
        | verb::SLOTS
        | verb::BASE
        | verb::LISTS
        | verb::QUEUES
        | verb::COPIES
        | verb::TABLES => Group::Lent,
        verb::BEGIN | verb::MESSAGE | verb::INSTALL | verb::REPORT => Group::Site,
        verb::OPEN => Group::Merger,
        verb::REPLAY | verb::BLANK => Group::Copy,
        verb::CUT => Group::Hand,
        verb::BYTES => Group::Bytes,
        _ => Group::Nobody,
    }
}

// Whom a verb with two numbers is for.
fn two(v: u64) -> Group {
    match v {
        verb::BEGIN | verb::COMMIT | verb::ABANDON => Group::Site,
        verb::MERGER => Group::Merger,
        verb::TABLE => Group::Lent,
        verb::VALUE => Group::Copy,
        verb::RECORD | verb::WORD => Group::Hand,
        verb::PAGE | verb::RUN => Group::Bookmark,
        _ => Group::Nobody,
    }
}

// Whom a verb with three numbers is for.
fn three(v: u64) -> Group {
    match v {
        verb::ENLIST | verb::READ | verb::SEARCH | verb::START | verb::SITE => Group::Site,
        verb::SOURCE | verb::QUEUED => Group::Merger,
        verb::COPIED => Group::Copy,
        verb::LETTER => Group::Hand,
        verb::OFFSET => Group::Bookmark,
        _ => Group::Nobody,
    }
}

// Whom a verb with four numbers is for.
fn four(v: u64) -> Group {
    match v {
        verb::LIVE | verb::PAST | verb::LIST => Group::Site,
        verb::HEAD | verb::ENTRIES | verb::FORM | verb::WRITES => Group::Hand,
        _ => Group::Nobody,
    }
}

// Whom a verb with five numbers is for.
fn five(v: u64) -> Group {
    match v {
        verb::WRITE => Group::Site,
        _ => Group::Nobody,
    }
}

// The line that a scan has read.
pub fn told(s: Place, words: &[u64; WORDS]) -> Line {
    if s.begun == 0 {
        return remark();
    }
    let last = s.word;
    match s.ended {
        0 => made(none(last), last, [0; 5]),
        1 => made(one(words[0]), words[0], [last, 0, 0, 0, 0]),
        2 => made(two(words[0]), words[0], [words[1], last, 0, 0, 0]),
        3 => made(three(words[0]), words[0], [words[1], words[2], last, 0, 0]),
        4 => made(
            four(words[0]),
            words[0],
            [words[1], words[2], words[3], last, 0],
        ),
        5 => made(
            five(words[0]),
            words[0],
            [words[1], words[2], words[3], words[4], last],
        ),
        _ => remark(),
    }
}

fn made(group: Group, verb: u64, numbers: [u64; 5]) -> Line {
    let [a, b, c, d, e] = numbers;
    Line {
        group,
        verb,
        a,
        b,
        c,
        d,
        e,
    }
}
