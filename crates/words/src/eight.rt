// A word and its eight bytes.
ghost use Rattle.std.specs.Prelude.{◌≡◌, ◌≤◌, length};
ghost use Rattle.laws.specs.Overlay.{overlay};
ghost use Rattle.laws.specs.Bytes.{word_bytes, word_from};

use crate::BYTES;

// Lays a word over the first eight bytes.
pub fn put_word(b: &mut [u8], x: u64)
    requires { 8 ≤ length b.old }
    ensures { b.new ≡ overlay b.old (word_bytes x) }
{
    let bytes = x.to_le_bytes();
    b[..BYTES].copy_from_slice(&bytes);
}

// The word that the first eight bytes are.
pub fn get_word(b: &[u8]) -> u64
    requires { 8 ≤ length b.now }
    ensures { result ≡ word_from b.now }
{
    u64::from_le_bytes([b[0], b[1], b[2], b[3], b[4], b[5], b[6], b[7]])
}
