// The types of the store's state, messages, records and answers, and every size of a house.

#![tactic(auto)]

pub mod desk;
pub mod kind;
pub mod reason;
pub mod refusal;
pub mod sizes;
pub mod stage;
pub mod word;

pub use refusal::Refusal;
use sizes::{HISTORY, LIVE, READS, SITES, WRITES};

// Keys are below 2,048 (S2).
pub type Key = u64;

// A stored highlight: where it starts, and how long it is (Q12.1).
#[derive(Clone, Copy)]
pub struct Value {
    pub start: u64,
    pub length: u64,
}

// What every key holds at the start (Q12.2).
pub const FRESH: Value = Value {
    start: 0,
    length: 0,
};

// How a house is laid out: how many sites it has, and the first key of each, 0 behind them. Which site a key lives at is asked of it
// alone.
#[derive(Clone, Copy)]
pub struct House {
    pub sites: u64,
    pub firsts: [Key; SITES],
}

// What a part may see: the first `installs` installs at its site.
#[derive(Clone, Copy)]
pub struct Snapshot {
    pub installs: u64,
}

// The keys that a part read and wrote, in the order of their first use, and the values written.
#[derive(Clone, Copy)]
pub struct Keys {
    pub read: usize,
    pub wrote: usize,
    pub reads: [Key; READS],
    pub writes: [Key; WRITES],
    pub values: [Value; WRITES],
}

// How far a part has come: `stage` is one of `stage`'s numbers, `number` the mark while its queue entry is open and the commit
// number once it is decided. `mask` is 0 at a participant that has not taken PREPARE. The rest is the coordinator's: `heard` are
// the sites whose reply of this round was taken, `reason` is 12 once a JOINED of 12 was, `listed` counts the gathered entries.
#[derive(Clone, Copy)]
pub struct Course {
    pub stage: u64,
    pub mask: u64,
    pub number: u64,
    pub heard: u64,
    pub reason: u64,
    pub listed: usize,
}

// A subtransaction: a live transaction's part at this site. `desk` is one of `desk`'s numbers.
#[derive(Clone, Copy)]
pub struct Sub {
    pub tx: u64,
    pub desk: u64,
    pub snapshot: Snapshot,
    pub course: Course,
    pub keys: Keys,
}

// An installed transaction's part, as the history keeps it.
#[derive(Clone, Copy)]
pub struct Entry {
    pub tx: u64,
    pub mask: u64,
    pub number: u64,
    pub keys: Keys,
}

// Messages written to, and taken from, each site.
#[derive(Clone, Copy)]
pub struct Channels {
    pub sent: [u64; SITES],
    pub taken: [u64; SITES],
}

#[derive(Clone, Copy)]
pub struct Counters {
    pub own: u64,
    pub clock: u64,
    pub serial: u64,
    pub installs: u64,
}

// A place of the live table: what its scans ask. The rest of the part lies in lent words.
#[derive(Clone, Copy)]
pub struct Seat {
    pub tx: u64,
    pub stage: u64,
}

// What a site keeps by value. The rest of its live parts and its history lie beside it in lent words, and so do its base values and
// the coordinator's gathered lists.
#[derive(Clone, Copy)]
pub struct Core {
    pub house: House,
    pub counters: Counters,
    pub channels: Channels,
    pub seats: [Seat; LIVE],
}

// A site whole, as the rules speak of it: a core with its live and history words read.
#[derive(Clone, Copy)]
pub struct Site {
    pub house: House,
    pub counters: Counters,
    pub channels: Channels,
    pub live: [Sub; LIVE],
    pub history: [Entry; HISTORY],
}

// The first words of a message, without its length and offset, which `count` gives.
#[derive(Clone, Copy)]
pub struct MessageHead {
    pub kind: u64,
    pub from: u64,
    pub to: u64,
    pub channel: u64,
    pub tx: u64,
    pub clock: u64,
    pub argument: u64,
    pub count: u64,
}

// The first words of a record, without its length and offset, which `count` gives. `number` is the commit number or the state number.
#[derive(Clone, Copy)]
pub struct RecordHead {
    pub kind: u64,
    pub site: u64,
    pub number: u64,
    pub coordinator: u64,
    pub tx: u64,
    pub mask: u64,
    pub count: u64,
}

// What a search of the history answers: a version of a key, and how many entries the search looked at.
#[derive(Clone, Copy)]
pub struct Search {
    pub value: Value,
    pub looked: u64,
}

// What a call answers. `Refused` has the cause's number and `Aborted` the reason's; a pair is a commit number and its coordinator.
// `rest` is the bytes into a page.
#[derive(Clone, Copy)]
pub enum Answer {
    Refused(u64),
    Done,
    Begun {
        tx: u64,
    },
    Found {
        value: Value,
    },
    Searched {
        value: Value,
        looked: u64,
    },
    Committed {
        number: u64,
    },
    Aborted {
        reason: u64,
    },
    Installed {
        number: u64,
        coordinator: u64,
    },
    Reported {
        state: u64,
    },
    Emitted {
        number: u64,
        coordinator: u64,
        tx: u64,
    },
    Replayed {
        number: u64,
        coordinator: u64,
    },
    Standing {
        value: Value,
        number: u64,
        coordinator: u64,
    },
    Paged {
        page: u64,
        rest: u64,
    },
    Offset {
        offset: u64,
    },
}

// What a step of a part's course reads and changes: the part, and its site's counters and channels.
#[derive(Clone, Copy)]
pub struct Turn {
    pub counters: Counters,
    pub channels: Channels,
    pub sub: Sub,
}

// A step taken: the answer, how many words it wrote to the outgoing buffer, and what it leaves.
#[derive(Clone, Copy)]
pub struct Taken {
    pub answer: Answer,
    pub words: usize,
    pub turn: Turn,
}

// A site's call: its answer, how many words it wrote to the outgoing buffer, and the core after it.
#[derive(Clone, Copy)]
pub struct Reply {
    pub answer: Answer,
    pub words: usize,
    pub core: Core,
}

// What a list of entries says of one transaction.
#[derive(Clone, Copy)]
pub struct Listed {
    pub mask: u64,
    pub mark: u64,
}

// What the merger keeps of one site's log: its last state number, the pair of its last part, and how many parts are queued.
#[derive(Clone, Copy)]
pub struct Source {
    pub state: u64,
    pub number: u64,
    pub coordinator: u64,
    pub queued: usize,
}

// A merger. The queued parts lie beside it in lent words.
#[derive(Clone, Copy)]
pub struct Merger {
    pub house: House,
    pub sources: [Source; SITES],
}

// A merger's call: its answer, how many words it wrote to the outgoing buffer, and the merger after it.
#[derive(Clone, Copy)]
pub struct MergerOut {
    pub answer: Answer,
    pub words: usize,
    pub merger: Merger,
}
