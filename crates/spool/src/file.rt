// The file with no name that holds the blocks which are not in memory.
ghost use Rattle.std.specs.Prelude.{◌+◌, ◌≤◌};
ghost use Rattle.spool.specs.Sizes as sizes;

use crate::blocks::LAST_BLOCK;
use crate::{BLOCK, STORE, Unkept};
use handles::number_of;
use std::fs::{File, OpenOptions};
use std::io::ErrorKind;
use std::os::fd::AsRawFd;
use std::os::unix::fs::{FileExt, OpenOptionsExt};
use std::random::RandomSource;
use std::rt::Files;
use std::{fs, io};
use words::{read_words, write_words};

const BYTES: usize = words::BYTES * BLOCK;

// How many names are tried in a folder, and the letters of a name's end.
const TRIES: usize = 1000;

const LETTERS: usize = 6;

// A file that is open, or none, and the system's number of the error by which its last failed call ended; 0 before.
#[derive(Drop)]
pub struct Spare {
    file: Option<File>,
    error: i32,
}

impl Spare {
    fn none() -> Spare {
        Spare {
            file: None,
            error: 0,
        }
    }

    fn some(file: File) -> Spare {
        Spare {
            file: Some(file),
            error: 0,
        }
    }

    pub fn is_open(&self) -> bool {
        self.file.is_some()
    }

    // The number under which the system has the file; none where there is no file.
    pub fn descriptor(&self) -> Option<i32> {
        self.file.as_ref().map(|file| file.as_raw_fd())
    }

    pub fn error(&self) -> i32 {
        self.error
    }
}

// A small letter for a byte.
fn letter(x: u8) -> u8 {
    97 + x % 26
}

// Ends a name with letters, as the bytes say.
fn end_in(name: &mut [u8], random: &[u8; LETTERS]) {
    for (place, byte) in name.iter_mut().rev().zip(random) {
        *place = letter(*byte);
    }
}

// Makes a file of a name that no file has, for this user alone, and takes the name away again.
fn make<R: Files<File = File>>(rt: &R, path: &str) -> io::Result<File> {
    let mut how = OpenOptions::new();
    how.read(true).write(true).create_new(true).mode(0o600);
    let file = how.open(rt, path)?;
    let _ = fs::remove_file(rt, path);
    Ok(file)
}

fn try_name<R: Files<File = File> + RandomSource>(rt: &R, name: &mut [u8]) -> io::Result<File> {
    let mut random = [0u8; LETTERS];
    rt.fill_bytes(&mut random)?;
    end_in(name, &random);
    match str::from_utf8(name) {
        Ok(path) => make(rt, path),
        Err(_) => Err(io::Error::from(ErrorKind::InvalidFilename)),
    }
}

// The name's last letters are made anew till no file has the name.
fn open_as<R: Files<File = File> + RandomSource>(rt: &R, name: &mut [u8]) -> Spare {
    for _ in 0..TRIES {
        match try_name(rt, name) {
            Ok(file) => return Spare::some(file),
            Err(e) => {
                if e.kind() != ErrorKind::AlreadyExists {
                    return Spare::none();
                }
            }
        }
    }
    Spare::none()
}

// A new file that has no name any more. Where there is none the store can hold no more than its slots.
pub fn open<R: Files<File = File> + RandomSource>(rt: &R) -> Spare {
    let mut name = *b"/tmp/houseXXXXXX";
    let made = open_as(rt, &mut name);
    if made.is_open() {
        return made;
    }
    let mut other = *b"/var/tmp/houseXXXXXX";
    open_as(rt, &mut other)
}

fn write_block(spare: &mut Spare, bytes: &[u8; BYTES], at: u64) -> Result<(), Unkept> {
    let Some(file) = &spare.file else {
        return Err(Unkept);
    };
    match file.write_at(bytes, at) {
        Ok(BYTES) => Ok(()),
        Ok(_) => Err(Unkept),
        Err(e) => {
            spare.error = number_of(e);
            Err(Unkept)
        }
    }
}

fn read_block(spare: &mut Spare, bytes: &mut [u8; BYTES], at: u64) -> Result<(), Unkept> {
    let Some(file) = &spare.file else {
        return Err(Unkept);
    };
    match file.read_at(bytes, at) {
        Ok(BYTES) => Ok(()),
        Ok(_) => Err(Unkept),
        Err(e) => {
            spare.error = number_of(e);
            Err(Unkept)
        }
    }
}

// Writes the words from `at` on as block b.
pub fn save(spare: &mut Spare, store: &[u64; STORE], at: usize, b: u64) -> Result<(), Unkept>
    requires { at + sizes.block ≤ sizes.store }
{
    if LAST_BLOCK < b {
        return Err(Unkept);
    }
    let mut bytes = [0u8; BYTES];
    write_words(&mut bytes, &store[at..at + BLOCK]);
    write_block(spare, &bytes, b * BYTES as u64)
}

// Reads block b to the words from `at` on.
pub fn load(spare: &mut Spare, store: &mut [u64; STORE], at: usize, b: u64) -> Result<(), Unkept>
    requires { at + sizes.block ≤ sizes.store }
{
    if LAST_BLOCK < b {
        return Err(Unkept);
    }
    let mut bytes = [0u8; BYTES];
    read_block(spare, &mut bytes, b * BYTES as u64)?;
    read_words(&mut store[at..at + BLOCK], &bytes);
    Ok(())
}
