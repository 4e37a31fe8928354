// A script's lines, read in large blocks.
#![tactic(auto)]

mod ending;

ghost use Rattle.std.specs.Prelude.{◌≡◌, ◌≤◌, ◌↔◌, true, false, eqb, IsTrue, Ok, Err};
ghost use Rattle.laws.specs.Choice.{pick};
ghost use Rattle.script.specs.declared.ending.Ending.TheVariants.{End};
ghost use Rattle.script.specs.Sizes as sizes;

pub use ending::Ending;
use handles::Source;
use lines::{Command, Place, WORDS};

// Bytes of a block.
pub const TEXT: usize = 65536;

// A script: what it is read from, and a block of it, of which the bytes from `at` to `end` are unread.
#[derive(Drop)]
pub struct Script {
    from: Source,
    block: [u8; TEXT],
    pub at: usize,
    pub end: usize,
    ghost unread: { at ≤ end },
    ghost within: { end ≤ sizes.text },
}

// A last line need not end in a newline: every byte of a line marks its scan.
fn is_line(s: Place) -> bool
    ensures { result ≡ pick (eqb s.ended 0) (pick (eqb s.begun 0) false true) true }
{
    s.ended != 0 || s.begun != 0
}

// What the end of the input leaves: a last line, or none.
fn found_in(s: Place) -> Result<Place, Ending>
    ensures { result ≡ pick (eqb s.ended 0) (pick (eqb s.begun 0) (Err End) (Ok s)) (Ok s) }
{
    if is_line(s) { Ok(s) } else { Err(Ending::End) }
}

impl Script {
    // Nothing of it is read yet.
    pub fn new(from: Source) -> Script
        ensures { result.end ≡ 0 }
    {
        Script {
            from,
            block: [0; TEXT],
            at: 0,
            end: 0,
        }
    }

    // Whether the next line has to be read from the input.
    pub fn is_drained(&self) -> bool
        ensures { IsTrue result ↔ (self.now.end ≤ self.now.at) }
    {
        self.end <= self.at
    }

    // Reads the next block, and answers whether there is one.
    fn refill(&mut self) -> Result<bool, Ending> {
        let read = self.from.read(&mut self.block);
        self.at = 0;
        self.end = 0;
        let end = read.map_err(Ending::Unreadable)?;
        self.end = end;
        Ok(0 < end)
    }

    // Reads a line: its scan, whose ended words are put in `words`.
    pub fn next_scan(&mut self, words: &mut [u64; WORDS]) -> Result<Place, Ending> {
        let mut place = lines::start();
        // A loop has to end, and nothing says that a script does.
        for _ in 0..u64::MAX {
            if self.is_drained() && !self.refill()? {
                break;
            }
            let end = self.end;
            let reached = lines::read(place, words, &self.block, self.at, end);
            place = reached.place;
            if reached.at < end {
                self.at = reached.at + 1;
                return Ok(place);
            }
            self.at = end;
        }
        found_in(place)
    }

    // Reads a line as a command.
    pub fn next_line(&mut self) -> Result<Command, Ending> {
        let mut words = [0u64; WORDS];
        let place = self.next_scan(&mut words)?;
        Ok(lines::told(place, &words))
    }
}
