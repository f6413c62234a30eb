//! Words, and their kinds and payloads.
//! Reading words. A word past the end reads as 0, as in the definitions.

ghost use Rattle.std.specs.Prelude.{◌≡◌, ◌+◌, get_or};
ghost use Rattle.snapshot.specs.reading.Words.{kind_of, pay_of};

fn wide(x: u32) -> usize
    ensures { result ≡ x }
{
    x as usize
}

/// The word at a place.
pub fn word(words: &[u32], i: usize) -> usize
    ensures { result ≡ get_or words.now i 0 }
{
    if i < words.len() { wide(words[i]) } else { 0 }
}

/// The word i places after a record's head.
pub fn field(words: &[u32], at: usize, i: usize) -> usize
    ensures { result ≡ get_or words.now (at + i) 0 }
{
    if words.len() <= at {
        return 0;
    }
    if words.len() <= i {
        return 0;
    }
    word(words, at + i)
}

/// Bits 31 to 28 of a word.
pub fn kind_of(w: usize) -> usize
    ensures { result ≡ kind_of w }
{
    w / 268435456
}

/// Bits 27 to 0 of a word.
pub fn payload_of(w: usize) -> usize
    ensures { result ≡ pay_of w }
{
    w % 268435456
}

/// The kind of the word at a place.
pub fn kind(words: &[u32], at: usize) -> usize
    ensures { result ≡ kind_of (get_or words.now at 0) }
{
    kind_of(word(words, at))
}

/// The payload of the word at a place.
pub fn payload(words: &[u32], at: usize) -> usize
    ensures { result ≡ pay_of (get_or words.now at 0) }
{
    payload_of(word(words, at))
}
