// A line as a call of the merger, or of a copy.
ghost use Rattle.std.specs.Prelude.{◌≡◌, ℕ, ◌<◌, length, take};
ghost use Rattle.laws.specs.Overlay.{overlay};
ghost use Rattle.kinds.specs.Sizes as sizes;
ghost use Rattle.rules.specs.Merger.{merger_out_of, merger_start_of};
ghost use Rattle.rules.specs.World.{firsts_of};
ghost use Rattle.pieces.specs.Own.{own, Only};
ghost use Rattle.routing.specs.Route.{copies};
ghost use Rattle.stream.specs.Asked.{all_copies, fresh_copy, merging_of, copying_of};

use kinds::reason::MALFORMED;
use kinds::sizes::{COPY, QUEUES};
use kinds::{Answer, House, Merger, MergerOut};
use lines::Command;
use pieces::front;
use routing::COPIES;

// Words of all copies, one behind the other.
pub const ALL_COPIES: usize = COPIES * COPY;

// The merger of a house, started with the house's first keys (Q3.8).
pub fn start_merger(house: House, queues: &mut [u64; QUEUES]) -> Merger
    ensures value { result ≡ (merger_out_of (merger_start_of house.sites (firsts_of house) queues.old)).merger }
    ensures queues_after { queues.new ≡ (merger_start_of house.sites (firsts_of house) queues.old).queues }
{
    let n = house.sites;
    store::start_merger(n, front(&house.firsts, n as usize), queues).merger
}

// A merger's call. The first n words of m are the record to queue.
#[tactic(auto, unfolding(crate::specs::Asked::merging_of))]
pub fn at_merger(
    g: Merger,
    c: Command,
    queues: &mut [u64],
    m: &[u64],
    n: usize,
    out: &mut [u64],
) -> MergerOut
    ensures value { result ≡ merger_out_of (merging_of c g (length out.old) queues.old (take n m.now)) }
    ensures queues_after { queues.new ≡ (merging_of c g (length out.old) queues.old (take n m.now)).queues }
    ensures out_after { out.new ≡ overlay out.old
        (merging_of c g (length out.old) queues.old (take n m.now)).words }
{
    match c {
        Command::Emit => store::emit(g, queues, out),
        _ => store::merge(g, queues, front(m, n)),
    }
}

// Copies that have replayed nothing.
pub fn start_copies(tables: &mut [u64])
    requires { length tables.old ≡ all_copies }
    ensures { (j : ℕ) → j < copies → own sizes.copy j tables.new ≡ fresh_copy }
{
    for i in 0..COPIES {
        let at = i * COPY;
        store::start_copy(&mut tables[at..at + COPY]);
    }
}

// A call of copy i, less 1. The first n words of m are the record to replay.
#[tactic(auto, unfolding(crate::specs::Asked::copying_of))]
pub fn at_copy(c: Command, i: usize, tables: &mut [u64], m: &[u64], n: usize) -> Answer
    requires { (i < copies) × (length tables.old ≡ all_copies) }
    ensures value { result ≡ (copying_of c (own sizes.copy i tables.old) (take n m.now)).answer }
    ensures tables_after { own sizes.copy i tables.new ≡ (copying_of c (own sizes.copy i tables.old) (take n m.now)).copy }
    ensures only { Only sizes.copy i tables.old tables.new }
{
    let from = i * COPY;
    let words = &mut tables[from..from + COPY];
    match c {
        Command::Replay(_) => store::replay(words, front(m, n)),
        Command::Value(_, key) => store::value(words, key),
        _ => Answer::Refused(MALFORMED),
    }
}
