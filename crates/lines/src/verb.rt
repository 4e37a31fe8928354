// Verbs by how many numbers follow them, each as its letters to the base 256.
ghost use Rattle.std.specs.Prelude.{◌≡◌};
ghost use Rattle.lines.specs.Line.{none_of, one_of, two_of, three_of, five_of, many_of};

use crate::Command;

// The desk of a `begin` that gives none.
const HOUSE: u64 = 0;

const EMIT: u64 = 1701669236;

const SITES: u64 = 495690474867;

const BEGIN: u64 = 422608071022;

const COMMIT: u64 = 109330228406644;

const ABANDON: u64 = 27411243344359278;

const INSTALL: u64 = 29676314707455084;

const REPORT: u64 = 125780003615348;

const MERGE: u64 = 469853431653;

const REPLAY: u64 = 125780003414393;

const ENLIST: u64 = 111524939658100;

const TAKE: u64 = 1952541541;

const VALUE: u64 = 508440638821;

const READ: u64 = 1919246692;

const WRITE: u64 = 513020621925;

#[tactic(auto, unfolding(crate::specs::Line::none_of))]
pub fn none(verb: u64) -> Command
    ensures { result ≡ none_of verb }
{
    match verb {
        EMIT => Command::Emit,
        _ => Command::Bad,
    }
}

#[tactic(auto, unfolding(crate::specs::Line::one_of))]
pub fn one(verb: u64, a: u64) -> Command
    ensures { result ≡ one_of verb a }
{
    match verb {
        SITES => Command::Sites(a, 0),
        BEGIN => Command::Begin(a, HOUSE),
        COMMIT => Command::Commit(a),
        ABANDON => Command::Abandon(a),
        INSTALL => Command::Install(a),
        REPORT => Command::Report(a),
        MERGE => Command::Merge(a),
        REPLAY => Command::Replay(a),
        _ => Command::Bad,
    }
}

#[tactic(auto, unfolding(crate::specs::Line::two_of))]
pub fn two(verb: u64, a: u64, b: u64) -> Command
    ensures { result ≡ two_of verb a b }
{
    match verb {
        SITES => Command::Sites(a, 1),
        BEGIN => Command::Begin(a, b),
        ENLIST => Command::Enlist(a, b),
        TAKE => Command::Take(a, b),
        VALUE => Command::Value(a, b),
        _ => Command::Bad,
    }
}

#[tactic(auto, unfolding(crate::specs::Line::three_of))]
pub fn three(verb: u64, a: u64, b: u64, c: u64) -> Command
    ensures { result ≡ three_of verb a b c }
{
    match verb {
        SITES => Command::Sites(a, 2),
        READ => Command::Read(a, b, c),
        _ => Command::Bad,
    }
}

// A write gives its value as start and length (Q12.8).
#[tactic(auto, unfolding(crate::specs::Line::five_of))]
pub fn five(verb: u64, a: u64, b: u64, c: u64, d: u64, e: u64) -> Command
    ensures { result ≡ five_of verb a b c d e }
{
    match verb {
        SITES => Command::Sites(a, 4),
        WRITE => Command::Write(a, b, c, d, e),
        _ => Command::Bad,
    }
}

// A verb with another count of numbers, of which so many stand behind the first.
#[tactic(auto, unfolding(crate::specs::Line::many_of))]
pub fn many(verb: u64, a: u64, behind: u64) -> Command
    ensures { result ≡ many_of verb a behind }
{
    match verb {
        SITES => Command::Sites(a, behind),
        _ => Command::Bad,
    }
}
