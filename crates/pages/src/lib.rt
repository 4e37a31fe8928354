// A line's outcome in words (H1 to H20 and Q12.8), gathered in a page.
#![tactic(auto)]

mod decimal;
mod text;

ghost use Rattle.std.specs.Prelude.{◌≡◌, ◌+◌, ◌*◌, ◌≤◌, length};
ghost use Rattle.rules.specs.Answers.{is_refused};
ghost use Rattle.said.specs.Said.{said_of};
ghost use Rattle.pages.specs.Laid.{Laid, line_start, longest, full, nearly, ok_with};
ghost use Rattle.pages.specs.Line.{outcome_of, line_of, line_with};

use handles::write;
use kinds::Answer;
use script::Ending;
use std::rt::Stdout;
use text::{digits, put, told};

// Bytes of a page, and at most of the longest line: an event's number, ` ok` and four numbers.
pub const PAGE: usize = 65536;

const LONGEST: usize = 128;

// What stands before the results of a call that is taken.
const OK: &[u8] = b" ok";

// A page with this much on it has room for a line, and for one with four numbers more.
const FULL: usize = PAGE - LONGEST;

const NEARLY: usize = PAGE - 2 * LONGEST;

// Whether an outcome is a refusal.
pub fn is_refused(a: Answer) -> bool
    ensures { result ≡ is_refused a }
{
    matches!(a, Answer::Refused(_))
}

#[tactic(auto, unfolding(said::specs::Said::said_of, crate::specs::Line::outcome_of, crate::specs::Line::results_of))]
fn outcome(page: &mut [u8], used: usize, a: Answer) -> usize
    requires { used + (ok_with 4) ≤ length page.old }
    ensures laid { Laid page.old used (outcome_of (said_of a)) page.new result }
    ensures upper_bound { result ≤ used + (ok_with 4) }
{
    match a {
        Answer::Refused(code) => told(page, used, b" refused", &[code]),
        Answer::Done => told(page, used, OK, &[]),
        Answer::Begun { tx } => told(page, used, OK, &[tx]),
        Answer::Found { value } => told(page, used, OK, &[value.start, value.length]),
        Answer::Searched { value, looked } => {
            told(page, used, OK, &[value.start, value.length, looked])
        }
        Answer::Committed { number } => told(page, used, OK, &[number]),
        Answer::Aborted { reason } => told(page, used, b" ok abort", &[reason]),
        Answer::Installed {
            number,
            coordinator,
        } => told(page, used, OK, &[number, coordinator]),
        Answer::Reported { state } => told(page, used, OK, &[state]),
        Answer::Emitted {
            number,
            coordinator,
            tx,
        } => told(page, used, OK, &[number, coordinator, tx]),
        Answer::Replayed {
            number,
            coordinator,
        } => told(page, used, OK, &[number, coordinator]),
        Answer::Standing {
            value,
            number,
            coordinator,
        } => told(
            page,
            used,
            OK,
            &[value.start, value.length, number, coordinator],
        ),
        Answer::Paged { page: n, rest } => told(page, used, OK, &[n, rest]),
        Answer::Offset { offset } => told(page, used, OK, &[offset]),
    }
}

fn line(page: &mut [u8], used: usize, event: u64, a: Answer) -> usize
    requires { used + longest ≤ length page.old }
    ensures { Laid page.old used (line_of event (said_of a)) page.new result }
{
    let next = digits(page, used, event);
    let last = outcome(page, next, a);
    put(page, last, b"\n")
}

// What is printed, gathered by the page: `to` is where it goes, and the first `used` bytes are still to be written.
#[derive(Drop)]
pub struct Page {
    pub to: Stdout,
    pub bytes: [u8; PAGE],
    pub used: usize,
}

fn line_with(
    page: &mut [u8],
    used: usize,
    event: u64,
    a: Answer,
    b: u64,
    c: u64,
    d: u64,
    e: u64,
) -> usize
    requires { used + 2 * longest ≤ length page.old }
    ensures { Laid page.old used (line_with event (said_of a) b c d e) page.new result }
{
    let next = digits(page, used, event);
    let told_so_far = outcome(page, next, a);
    let last = told(page, told_so_far, b" ;", &[b, c, d, e]);
    put(page, last, b"\n")
}

impl Page {
    // Nothing is on it yet.
    pub fn new(to: Stdout) -> Page
        ensures { result.used ≡ 0 }
    {
        Page {
            to,
            bytes: [0; PAGE],
            used: 0,
        }
    }

    // Writes out what is on the page, which is empty then.
    pub fn flush(&mut self) -> Result<(), Ending>
        ensures bytes { self.new.bytes ≡ self.old.bytes }
        ensures used { self.new.used ≡ 0 }
    {
        let used = self.used.min(PAGE);
        self.used = 0;
        write(&self.to, &self.bytes[..used]).map_err(Ending::Unwritten)
    }

    // Writes out what is on the page where it is more than `most`.
    fn leave_room(&mut self, most: usize) -> Result<(), Ending>
        ensures bytes { self.new.bytes ≡ self.old.bytes }
        ensures used { self.new.used ≡ line_start most self.old.used }
    {
        if self.used <= most {
            return Ok(());
        }
        self.flush()
    }

    // Puts an event's line on the page, which is written out first where it is full.
    pub fn say(&mut self, event: u64, a: Answer) -> Result<(), Ending>
        ensures { Laid self.old.bytes (line_start full self.old.used) (line_of event (said_of a))
            self.new.bytes self.new.used }
    {
        let flushed = self.leave_room(FULL);
        self.used = line(&mut self.bytes, self.used, event, a);
        flushed
    }

    // The same with four numbers behind the outcome.
    pub fn say_with(
        &mut self,
        event: u64,
        a: Answer,
        b: u64,
        c: u64,
        d: u64,
        e: u64,
    ) -> Result<(), Ending>
        ensures { Laid self.old.bytes (line_start nearly self.old.used) (line_with event (said_of a) b c d e)
            self.new.bytes self.new.used }
    {
        let flushed = self.leave_room(NEARLY);
        self.used = line_with(&mut self.bytes, self.used, event, a, b, c, d, e);
        flushed
    }
}
