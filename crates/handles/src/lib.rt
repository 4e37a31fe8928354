// What a program reads and writes. A call of the system that fails gives the system's number of the error.
#![tactic(auto)]

ghost use Rattle.std.specs.Prelude.{◌≤◌, length, IfOk};

use std::fs::File;
use std::io;
use std::io::{Print, Read};
use std::rt::{Stdin, Stdout};

// The number where the library gives an error of its own: EIO.
const NO_NUMBER: i32 = 5;

// The system's number of an error.
pub fn number_of(e: io::Error) -> i32 {
    e.raw_os_error().unwrap_or(NO_NUMBER)
}

// What a script is read from.
#[derive(Drop)]
pub enum Source {
    Standard(Stdin),
    Named(File),
}

impl Source {
    // Reads to the start of a block, and answers how many bytes: 0 at the end.
    pub fn read(&mut self, block: &mut [u8]) -> Result<usize, i32>
        ensures { IfOk result (λ n. n ≤ length block.new) }
    {
        match self {
            Source::Standard(input) => input.read(block),
            Source::Named(file) => file.read(block),
        }
        .map_err(number_of)
    }
}

// Writes all of the bytes. Where that fails, some of them may be written.
pub fn write(to: &Stdout, bytes: &[u8]) -> Result<(), i32> {
    Print::write_all(to, bytes).map_err(number_of)
}
