// What is under way in a house: untaken messages by sender and receiver, the sites' logs, the merged stream with each copy's place.
ghost use Rattle.std.specs.Prelude.{◌≡◌, ◌+◌, ◌*◌, ◌<◌, ◌≤◌, length, IfOk};
ghost use Rattle.kinds.specs.Sizes as sizes;
ghost use Rattle.routing.specs.Route.{copies, channel as channelOf, log as logOf, stream, cursor as cursorOf, none};

use kinds::sizes::SITES;
use kinds::word::{FROM, LENGTH, TO};
use spool::{STORE, Spare, Unkept};

// The queue of the merged stream, behind the channels and the logs.
pub const STREAM: usize = SITES * SITES + SITES;

pub const COPIES: usize = 8;

// The queue of messages between two sites, less 1 each.
pub fn channel(from: usize, to: usize) -> usize
    requires { (from < sizes.sites) × (to < sizes.sites) }
    ensures { (result ≡ channelOf from to) × (result < logOf 0) }
{
    from * SITES + to
}

// The queue of a site's log, less 1.
pub fn log(site: usize) -> usize
    requires { site < sizes.sites }
    ensures { (result ≡ logOf site) × (result < stream) }
{
    SITES * SITES + site
}

// The cursor of a copy, less 1, in the stream.
pub fn cursor(copy: usize) -> usize
    requires { copy < copies }
    ensures { (result ≡ cursorOf copy) × (result < none) }
{
    STREAM + 1 + copy
}

pub fn is_cursor(queue: usize) -> bool {
    STREAM < queue
}

// Sends a message on its channel.
fn send(spare: &mut Spare, store: &mut [u64; STORE], m: &[u64]) -> Result<(), Unkept> {
    if m.len() <= TO {
        return Err(Unkept);
    }
    let from = m[FROM];
    let to = m[TO];
    if from < 1 || from > SITES as u64 || to < 1 || to > SITES as u64 {
        return Err(Unkept);
    }
    spool::push(
        spare,
        store,
        channel((from - 1) as usize, (to - 1) as usize),
        m,
    )
}

// Sends the message at the front of some words, and answers its length.
fn send_first(spare: &mut Spare, store: &mut [u64; STORE], words: &[u64]) -> Result<usize, Unkept>
    ensures { IfOk result (λ n. (1 ≤ n) × (n ≤ length words.now)) }
{
    if words.is_empty() {
        return Err(Unkept);
    }
    let n = words[LENGTH];
    if n < 1 || n > words.len() as u64 {
        return Err(Unkept);
    }
    let end = n as usize;
    send(spare, store, &words[..end])?;
    Ok(end)
}

// Sends each of the messages that stand directly behind one another.
pub fn send_all(spare: &mut Spare, store: &mut [u64; STORE], words: &[u64]) -> Result<(), Unkept> {
    let mut at: usize = 0;
    // Stays: no index is counted: a step is as long as a message.
    while at < words.len() {
        at += send_first(spare, store, &words[at..])?;
    }
    Ok(())
}
