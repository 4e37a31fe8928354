// Parts of lent words. Where there are too few, all are lent.
#![tactic(auto)]

ghost use Rattle.std.specs.Prelude.{◌≡◌, take};

pub fn front(ws: &[u64], n: usize) -> &[u64]
    ensures { result.now ≡ take n ws.now }
{
    if n < ws.len() {
        return &ws[0..n];
    }
    ws
}

pub fn front_mut<T>(ws: &mut [T], n: usize) -> &mut [T] {
    if n < ws.len() {
        return &mut ws[0..n];
    }
    ws
}

pub fn piece_mut(ws: &mut [u64], at: usize, n: usize) -> &mut [u64] {
    if ws.len() < at {
        return ws;
    }
    front_mut(&mut ws[at..], n)
}

pub fn piece(ws: &[u64], at: usize, n: usize) -> &[u64] {
    if ws.len() < at {
        return ws;
    }
    front(&ws[at..], n)
}

// The word at a place; 0 behind the last.
pub fn word(ws: &[u64], i: usize) -> u64 {
    if i < ws.len() {
        return ws[i];
    }
    0
}

// Sets a word, if it is there.
pub fn put(ws: &mut [u64], i: usize, v: u64) {
    if i < ws.len() {
        ws[i] = v;
    }
}
