// Lines of a script (H1 to H20, Q10.7 and Q12.8): a verb and up to nine numbers, with one space between two words. A line is read byte
// by byte, so none is too long, whatever zeros stand before a number.
#![tactic(auto)]

mod verb;

ghost use Rattle.std.specs.Prelude.{◌≡◌, ◌+◌, ◌-◌, ◌≤◌, ◌<◌, length};
ghost use Rattle.lines.specs.Line.{letter as letterOf, digit as digitOf, grown, start as start_of, stepped, read_on, Ends};
ghost use Rattle.lines.specs.Line.{scan_of, place_of, spaced, took, command_of, word_at, table_of};

use verb::{five, many, none, one, three, two};

#[derive(Clone, Copy)]
pub enum Command {
    // How many sites, and how many first keys the line gives behind that number.
    Sites(u64, u64),
    Begin(u64, u64),
    Enlist(u64, u64),
    Read(u64, u64, u64),
    Write(u64, u64, u64, u64, u64),
    Commit(u64),
    Abandon(u64),
    Take(u64, u64),
    Install(u64),
    Report(u64),
    Merge(u64),
    Emit,
    Replay(u64),
    Value(u64, u64),
    Bad,
}

const NEWLINE: u8 = 10;

const SPACE: u8 = 32;
// A line of this many ended words is none of a script's.
const BAD: u64 = 10;
// How many words can end: a verb and eight numbers. A ninth number is the last word of its line.
pub const WORDS: usize = 9;

const FULL: u64 = 9;

// The largest number, and without its last digit.
const LAST: u64 = 18446744073709551615;

const TENTH: u64 = 1844674407370955161;
// A verb of seven letters is at least this.
const LONGEST: u64 = 281474976710656;

// What has been read of a line: how many words ended, whether the present one has begun (0 or 1), and the present one. The ended
// ones stand in lent words, in their order, the verb first: no step and no reading copies them. A verb is its letters as digits to
// the base 256.
// Stays: `begun` is a number, as the contracts of `step` and `told`, which are equations with Line.Scan, have it.
#[derive(Clone, Copy)]
pub struct Place {
    pub ended: u64,
    pub begun: u64,
    pub word: u64,
}

#[tactic(auto, unfolding(crate::specs::Line::start, crate::specs::Line::place_of))]
pub fn start() -> Place
    ensures { result ≡ place_of start_of }
{
    Place {
        ended: 0,
        begun: 0,
        word: 0,
    }
}

// A verb with one letter more, if the byte is one.
#[tactic(auto, unfolding(crate::specs::Line::letter))]
fn letter(word: u64, b: u8) -> Option<u64>
    ensures { result ≡ letterOf word b }
{
    let x = b as u64;
    if x < 97 {
        return None;
    }
    if 122 < x {
        return None;
    }
    if LONGEST <= word {
        return None;
    }
    Some(word * 256 + x)
}

// A number with one digit more, if the byte is one.
#[tactic(auto, unfolding(crate::specs::Line::digit))]
fn digit(word: u64, b: u8) -> Option<u64>
    ensures { result ≡ digitOf word b }
{
    let x = b as u64;
    if x < 48 {
        return None;
    }
    if 57 < x {
        return None;
    }
    if TENTH < word {
        return None;
    }
    let d = x - 48;
    let tens = word * 10;
    if LAST - d < tens {
        return None;
    }
    Some(tens + d)
}

#[tactic(auto, unfolding(crate::specs::Line::grown))]
fn grow(ended: u64, word: u64, b: u8) -> Option<u64>
    ensures { result ≡ grown ended word b }
{
    if ended == 0 {
        return letter(word, b);
    }
    digit(word, b)
}

// The scan with one byte more.
#[tactic(auto, unfolding(crate::specs::Line::scan_of, crate::specs::Line::place_of, crate::specs::Line::stepped))]
pub fn step(p: Place, words: &mut [u64; WORDS], b: u8) -> Place
    ensures { scan_of result words.new ≡ stepped (scan_of p words.old) b }
{
    let ended = p.ended;
    if BAD <= ended {
        return p;
    }
    if b == SPACE {
        return end_word(p, words);
    }
    grow_word(p, b)
}

// A space ends a word that has begun and is not the ninth number; elsewhere it spoils the line.
#[tactic(auto, unfolding(crate::specs::Line::scan_of, crate::specs::Line::spaced))]
fn end_word(p: Place, words: &mut [u64; WORDS]) -> Place
    ensures { scan_of result words.new ≡ spaced (scan_of p words.old) }
{
    if p.begun == 0 {
        return Place { ended: BAD, ..p };
    }
    if FULL <= p.ended {
        return Place { ended: BAD, ..p };
    }
    words[p.ended as usize] = p.word;
    Place {
        ended: p.ended + 1,
        begun: 0,
        word: 0,
    }
}

// Another byte belongs to the word.
#[tactic(auto, unfolding(crate::specs::Line::took))]
fn grow_word(p: Place, b: u8) -> Place
    ensures { result ≡ took p (grown p.ended p.word b) }
{
    match grow(p.ended, p.word, b) {
        Some(word) => Place {
            begun: 1,
            word,
            ..p
        },
        None => Place { ended: BAD, ..p },
    }
}

// The command that a line is.
#[tactic(auto, unfolding(crate::specs::Line::command_of, crate::specs::Line::scan_of))]
pub fn told(s: Place, words: &[u64; WORDS]) -> Command
    ensures { result ≡ command_of (scan_of s words.now) }
{
    let ended = s.ended;
    let begun = s.begun;
    if begun == 0 {
        return Command::Bad;
    }
    if ended == 0 {
        return none(s.word);
    }
    if ended == 1 {
        return one(words[0], s.word);
    }
    if ended == 2 {
        return two(words[0], words[1], s.word);
    }
    if ended == 3 {
        return three(words[0], words[1], words[2], s.word);
    }
    if ended == 5 {
        return five(words[0], words[1], words[2], words[3], words[4], s.word);
    }
    if FULL < ended {
        return Command::Bad;
    }
    many(words[0], words[1], ended - 1)
}

// A line's word by its place: an ended one, the present one, or 0 behind it.
#[tactic(auto, unfolding(crate::specs::Line::word_at, crate::specs::Line::scan_of))]
fn word_at(s: Place, words: &[u64; WORDS], at: u64) -> u64
    ensures { result ≡ word_at (scan_of s words.now) at }
{
    let ended = s.ended;
    if ended < at {
        return 0;
    }
    if ended == at {
        return s.word;
    }
    if FULL <= at {
        return 0;
    }
    let i = at as usize;
    words[i]
}

// The first keys of a `sites` line in their order, and 0 behind those that it gives.
#[tactic(auto, unfolding(crate::specs::Line::table_of))]
pub fn table(s: Place, words: &[u64; WORDS]) -> [u64; 8]
    ensures { result ≡ table_of (scan_of s words.now) }
{
    [
        word_at(s, words, 2),
        word_at(s, words, 3),
        word_at(s, words, 4),
        word_at(s, words, 5),
        word_at(s, words, 6),
        word_at(s, words, 7),
        word_at(s, words, 8),
        word_at(s, words, 9),
    ]
}

// How far a scan went: to a newline, or to the end of what there is.
#[derive(Clone, Copy)]
pub struct Reached {
    pub at: usize,
    pub place: Place,
}

// Goes on with a scan over text's bytes from `from` on, up to a newline or `to`.
#[tactic(auto, unfolding(crate::specs::Line::scan_of))]
pub fn read(s: Place, words: &mut [u64; WORDS], text: &[u8], from: usize, to: usize) -> Reached
    requires { (from ≤ to) × (to ≤ length text.now) }
    ensures words_after { scan_of result.place words.new
        ≡ read_on text.now from (result.at - from) (scan_of s words.old) }
    ensures ends { Ends text.now from to result.at }
{
    let mut p = s;
    for i in from..to {
        let b = text[i];
        if b == NEWLINE {
            return Reached { at: i, place: p };
        }
        p = step(p, words, b);
    }
    Reached { at: to, place: p }
}
