// Blocks: in a slot, or in the file.
ghost use Rattle.std.specs.Prelude.{◌≡◌, ◌+◌, ◌*◌, ◌%◌, ◌<◌, ◌≤◌, IfOk};
ghost use Rattle.spool.specs.Sizes as sizes;

use crate::file::{Spare, load, save};
use crate::{BLOCK, CELLS, FREE, LINK, MADE, SLOTS, STORE, TAGS, Unkept};

// Addresses and block numbers stay below.
pub const LIMIT: u64 = 1125899906842624;

pub const LAST_BLOCK: u64 = LIMIT / BLOCK as u64 - 1;

pub fn slot_of(b: u64) -> usize
    ensures { (result ≡ b % sizes.slots) × (result < sizes.slots) }
{
    (b % SLOTS as u64) as usize
}

// Where the words of block b lie, while it is in memory.
pub fn place_of(b: u64) -> usize
    ensures { (result ≡ sizes.cells + b % sizes.slots * sizes.block) × (result + sizes.block ≤ sizes.store) }
{
    CELLS + slot_of(b) * BLOCK
}

pub fn offset_of(at: u64) -> usize
    ensures { (result ≡ at % sizes.block) × (result < sizes.block) }
{
    (at % BLOCK as u64) as usize
}

// Brings block b into its slot, whose block goes to the file first. The words of a fresh block are of no interest.
pub fn bring(
    spare: &mut Spare,
    store: &mut [u64; STORE],
    b: u64,
    fresh: bool,
) -> Result<(), Unkept> {
    let tag = TAGS + slot_of(b);
    let old = store[tag];
    if old == b {
        return Ok(());
    }
    let place = place_of(b);
    if old != 0 {
        save(spare, store, place, old)?;
    }
    store[tag] = b;
    if fresh {
        return Ok(());
    }
    load(spare, store, place, b)
}

// The address of a block's first word. Blocks have numbers from 1.
pub fn address_of(b: u64) -> Result<u64, Unkept>
    ensures { IfOk result (λ at. at < 1125899906842624) }
{
    if b == 0 || LAST_BLOCK < b {
        return Err(Unkept);
    }
    Ok(b * BLOCK as u64)
}

// The address of the word at `at`: behind a block's last word comes the first of the next.
pub fn follow(spare: &mut Spare, store: &mut [u64; STORE], at: u64) -> Result<u64, Unkept>
    ensures { IfOk result (λ to. to < 1125899906842624) }
{
    if at == 0 || LIMIT <= at {
        return Err(Unkept);
    }
    if offset_of(at) < LINK {
        return Ok(at);
    }
    let b = at / BLOCK as u64;
    bring(spare, store, b, false)?;
    address_of(store[place_of(b) + LINK])
}

// A block that no queue has.
pub fn new_block(spare: &mut Spare, store: &mut [u64; STORE]) -> Result<u64, Unkept>
    ensures { IfOk result (λ b. b ≤ 4398046511103) }
{
    let free = store[FREE];
    if LAST_BLOCK < free {
        return Err(Unkept);
    }
    if free != 0 {
        bring(spare, store, free, false)?;
        store[FREE] = store[place_of(free) + LINK];
        return Ok(free);
    }
    let made = store[MADE];
    if LAST_BLOCK <= made {
        return Err(Unkept);
    }
    store[MADE] = made + 1;
    bring(spare, store, made + 1, true)?;
    Ok(made + 1)
}

// The address to write at: where a block is full, the first of a new one that is linked behind it.
pub fn room(spare: &mut Spare, store: &mut [u64; STORE], at: u64) -> Result<u64, Unkept>
    ensures { IfOk result (λ to. to < 1125899906842624) }
{
    if at == 0 || LIMIT <= at {
        return Err(Unkept);
    }
    if offset_of(at) < LINK {
        return Ok(at);
    }
    let b = new_block(spare, store)?;
    let full = at / BLOCK as u64;
    bring(spare, store, full, false)?;
    store[place_of(full) + LINK] = b;
    address_of(b)
}

// Lets block b go, and answers the one that it was linked to, 0 for none.
pub fn release(spare: &mut Spare, store: &mut [u64; STORE], b: u64) -> Result<u64, Unkept> {
    bring(spare, store, b, false)?;
    let link = place_of(b) + LINK;
    let next = store[link];
    store[link] = store[FREE];
    store[FREE] = b;
    Ok(next)
}
