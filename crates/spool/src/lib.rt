// Queues of messages and records, in any number. An item is some words, of which the first is their count. Items lie in blocks that
// are linked by their last word; a block whose items are all gone is used anew. What does not fit into the lent store's slots is
// kept in a file with no name, so a house with little under way makes no call of the system.
#![tactic(auto)]

mod blocks;
mod file;

ghost use Rattle.std.specs.Prelude.{◌≡◌, ◌+◌, ◌*◌, ◌<◌, ◌≤◌, length, IfOk};
ghost use Rattle.spool.specs.Sizes as sizes;

use blocks::{LIMIT, bring, follow, new_block, offset_of, place_of, release, room};
pub use file::{Spare, open};

// Words of a block, and the position of its link: the number of the next block, from 1; 0 for none.
pub const BLOCK: usize = 256;

pub const LINK: usize = BLOCK - 1;

// Blocks in memory. Block b lies in slot b mod SLOTS.
pub const SLOTS: usize = 256;

// Queues and cursors.
pub const QUEUES: usize = 81;

// Words of the longest item: a message with 376 entries.
pub const ITEM: usize = 1138;

// The store's words: how many blocks were made; the first block that is free; for each queue the address of its first item, that
// behind its last, and how many words are in it; for each slot its block; the slots. An address is block × BLOCK + position. A
// cursor is a row too, of a reader that leaves a queue's items to others: its next item's address, and how many words it has read.
pub const MADE: usize = 0;

pub const FREE: usize = 1;

pub const TABLE: usize = 2;

const ROW: usize = 3;

const HEAD: usize = 0;

const TAIL: usize = 1;

const WORDS: usize = 2;

pub const TAGS: usize = TABLE + ROW * QUEUES;

pub const CELLS: usize = TAGS + SLOTS;

pub const STORE: usize = CELLS + SLOTS * BLOCK;

// What is under way cannot be kept: the file fails, or there is none.
#[derive(Clone, Copy, Debug)]
pub struct Unkept;

// An item that was copied: how many words it has, and the address behind it.
#[derive(Clone, Copy)]
pub struct Item {
    pub words: usize,
    pub next: u64,
}

// How many words of an item are copied, and the address of the next one.
#[derive(Clone, Copy)]
struct Run {
    at: u64,
    done: usize,
}

// Where a word of a queue's row lies.
fn row(queue: usize, word: usize) -> usize
    requires { (queue < sizes.queues) × (word < sizes.row) }
    ensures { (result ≡ sizes.table + sizes.row * queue + word) × (result < sizes.tags) }
{
    TABLE + ROW * queue + word
}

// Copies on, to the end of the block or to n words.
fn read_run(
    spare: &mut Spare,
    store: &mut [u64; STORE],
    r: Run,
    item: &mut [u64; ITEM],
    n: usize,
) -> Result<Run, Unkept>
    requires { (r.done ≤ n) × (n ≤ sizes.item) }
    ensures { IfOk result (λ s. s.done ≤ n) }
{
    let at = follow(spare, store, r.at)?;
    let b = at / BLOCK as u64;
    bring(spare, store, b, false)?;
    let from = offset_of(at);
    let k = (LINK - from).min(n - r.done);
    let start = place_of(b) + from;
    item[r.done..r.done + k].copy_from_slice(&store[start..start + k]);
    Ok(Run {
        at: at + k as u64,
        done: r.done + k,
    })
}

fn read_words(
    spare: &mut Spare,
    store: &mut [u64; STORE],
    at: u64,
    item: &mut [u64; ITEM],
    n: usize,
) -> Result<Item, Unkept>
    requires { n ≤ sizes.item }
{
    let mut r = Run { at, done: 0 };
    // Stays: no index is counted: a step is as long as what is left of a block.
    while r.done < n {
        let next = read_run(spare, store, r, item, n)?;
        if next.done <= r.done {
            return Err(Unkept);
        }
        r = next;
    }
    Ok(Item {
        words: n,
        next: r.at,
    })
}

// The item at an address.
fn item_at(
    spare: &mut Spare,
    store: &mut [u64; STORE],
    at: u64,
    item: &mut [u64; ITEM],
) -> Result<Item, Unkept> {
    let first = follow(spare, store, at)?;
    let b = first / BLOCK as u64;
    bring(spare, store, b, false)?;
    let n = store[place_of(b) + offset_of(first)];
    if n > ITEM as u64 {
        return Err(Unkept);
    }
    read_words(spare, store, first, item, n as usize)
}

// Copies the first item of a queue to the start of `item`. It stays the first.
pub fn front(
    spare: &mut Spare,
    store: &mut [u64; STORE],
    queue: usize,
    item: &mut [u64; ITEM],
) -> Result<Option<Item>, Unkept>
    requires { queue < sizes.queues }
{
    if store[row(queue, WORDS)] == 0 {
        return Ok(None);
    }
    let at = store[row(queue, HEAD)];
    Ok(Some(item_at(spare, store, at, item)?))
}

// Copies the item of a queue that is next for a cursor. It stays the next.
pub fn next(
    spare: &mut Spare,
    store: &mut [u64; STORE],
    queue: usize,
    cursor: usize,
    item: &mut [u64; ITEM],
) -> Result<Option<Item>, Unkept>
    requires { (queue < sizes.queues) × (cursor < sizes.queues) }
{
    let read = store[row(cursor, WORDS)];
    if store[row(queue, WORDS)] <= read {
        return Ok(None);
    }
    if read == 0 {
        return front(spare, store, queue, item);
    }
    let at = store[row(cursor, HEAD)];
    Ok(Some(item_at(spare, store, at, item)?))
}

// Moves a cursor on past its next item, as `next` found it.
pub fn step(store: &mut [u64; STORE], cursor: usize, item: Item)
    requires { cursor < sizes.queues }
{
    let read = store[row(cursor, WORDS)];
    store[row(cursor, HEAD)] = item.next;
    store[row(cursor, WORDS)] = read.wrapping_add(item.words as u64);
}

// Lets the blocks from b on go, up to block `last`. The longest item lies in fewer blocks than it has words.
fn release_to(
    spare: &mut Spare,
    store: &mut [u64; STORE],
    b: u64,
    last: u64,
) -> Result<(), Unkept> {
    let mut at = b;
    for _ in 0..ITEM {
        if at == last {
            return Ok(());
        }
        at = release(spare, store, at)?;
    }
    if at == last { Ok(()) } else { Err(Unkept) }
}

// Takes the first item of a queue away, as `front` found it.
pub fn drop_front(
    spare: &mut Spare,
    store: &mut [u64; STORE],
    queue: usize,
    item: Item,
) -> Result<(), Unkept>
    requires { queue < sizes.queues }
{
    let words = store[row(queue, WORDS)];
    if words < item.words as u64 {
        return Err(Unkept);
    }
    let b = store[row(queue, HEAD)] / BLOCK as u64;
    store[row(queue, HEAD)] = item.next;
    store[row(queue, WORDS)] = words - item.words as u64;
    release_to(spare, store, b, item.next / BLOCK as u64)
}

// Copies on, to the end of the block or of the words.
fn write_run(
    spare: &mut Spare,
    store: &mut [u64; STORE],
    r: Run,
    words: &[u64],
) -> Result<Run, Unkept>
    requires { r.done ≤ length words.now }
    ensures { IfOk result (λ s. s.done ≤ length words.now) }
{
    let at = room(spare, store, r.at)?;
    let b = at / BLOCK as u64;
    bring(spare, store, b, false)?;
    let to = offset_of(at);
    let k = (LINK - to).min(words.len() - r.done);
    let start = place_of(b) + to;
    store[start..start + k].copy_from_slice(&words[r.done..r.done + k]);
    Ok(Run {
        at: at + k as u64,
        done: r.done + k,
    })
}

// Gives a queue its first block.
fn first_block(spare: &mut Spare, store: &mut [u64; STORE], queue: usize) -> Result<(), Unkept>
    requires { queue < sizes.queues }
{
    if store[row(queue, TAIL)] != 0 {
        return Ok(());
    }
    let b = new_block(spare, store)?;
    store[row(queue, HEAD)] = b * BLOCK as u64;
    store[row(queue, TAIL)] = b * BLOCK as u64;
    Ok(())
}

// Puts an item at the end of a queue.
pub fn push(
    spare: &mut Spare,
    store: &mut [u64; STORE],
    queue: usize,
    words: &[u64],
) -> Result<(), Unkept>
    requires { queue < sizes.queues }
{
    first_block(spare, store, queue)?;
    let mut r = Run {
        at: store[row(queue, TAIL)],
        done: 0,
    };
    // Stays: no index is counted: a step is as long as what is left of a block.
    while r.done < words.len() {
        let next = write_run(spare, store, r, words)?;
        if next.done <= r.done {
            return Err(Unkept);
        }
        r = next;
    }
    store[row(queue, TAIL)] = r.at;
    let held = store[row(queue, WORDS)];
    store[row(queue, WORDS)] = held.wrapping_add(words.len() as u64);
    if held < LIMIT { Ok(()) } else { Err(Unkept) }
}
