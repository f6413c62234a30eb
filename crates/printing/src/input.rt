//! Words out of bytes.
ghost use Rattle.std.specs.Prelude.{◌≡◌, ◌+◌, ◌*◌, ◌^◌, ◌≤◌, ◌<◌, length, take, drop, get_or};
ghost use Rattle.snapshot.specs.Limits.{word_limit};
ghost use Rattle.printing.specs.Input.{word_in, words_in};

use snapshot::ids::WordCount;

/// A number of bytes.
#[derive(Clone, Copy)]
pub struct ByteCount;

impl ByteCount {
    /// Bytes of an input, at most: four for each word of a snapshot.
    pub const INPUT: usize = 4 * WordCount::SNAPSHOT;
}

// The byte at a place; past the end it reads as 0.
fn byte(bytes: &[u8], i: usize) -> u32
    ensures { (result ≡ get_or bytes.now i 0) × (result < 256) }
{
    if i < bytes.len() {
        u32::from(bytes[i])
    } else {
        0
    }
}

/// The word whose four bytes begin at a place, the lowest first.
// Byte by byte, since those past the end read as 0: `from_le_bytes` takes four bytes, which there may not be.
pub fn word_in(bytes: &[u8], at: usize) -> u32
    requires { at < 2 ^ 32 }
    ensures { result ≡ word_in bytes.now at }
{
    let a = byte(bytes, at);
    let b = byte(bytes, at + 1);
    let c = byte(bytes, at + 2);
    let d = byte(bytes, at + 3);
    a + 256 * b + 65536 * c + 16777216 * d
}

/// Writes the first n words of the bytes; the words past them stay.
// C and the programs lend more words than an input has: those past n stay, as the clause says.
pub fn words_in(bytes: &[u8], words: &mut [u32], n: usize)
    requires { (n ≤ length words.old) × (n ≤ word_limit) }
    ensures { (take n words.new ≡ words_in bytes.now n) × (drop n words.new ≡ drop n words.old) }
{
    for k in 0..n {
        words[k] = word_in(bytes, 4 * k);
    }
}
