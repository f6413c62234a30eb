//! Words that are written in hexadecimal, with a space or a line end after each.
//! After four words k, n, h and a, a star drops them and writes n words more: copies of the k words before, in each copy
//! with h added to the heads and a to the arguments.
ghost use Rattle.std.specs.Prelude.{◌≡◌, ◌<◌, ◌≤◌, length, replicate, take, IfOk};
ghost use Rattle.streams.specs.case_text.Words.{digit_of, code_of, IsDigit, next_word, under_way};
ghost use Rattle.streams.specs.case_text.Words.{read_to, stored, raised_by, copied, repeated, words_read};

use std::alloc::{AllocError, Global};

// What a byte says.
// Three cases; in an `Option<Option<u32>>` neither `None` would say which of star and gap it is.
#[derive(Clone, Copy)]
enum Mark {
    Digit(u32),
    Star,
    Gap,
}

#[tactic(auto, unfolding(crate::specs::case_text::Words::digit_of))]
fn mark_of(b: u8) -> Mark
    ensures code { code_of result ≡ digit_of b }
    ensures digit { IsDigit result }
{
    match b {
        b'0'..=b'9' => Mark::Digit(u32::from(b - b'0')),
        b'a'..=b'f' => Mark::Digit(u32::from(b - b'a' + 10)),
        b'*' => Mark::Star,
        _ => Mark::Gap,
    }
}

// The word with one digit more: its last eight digits.
fn with_digit(word: Option<u32>, d: u32) -> u32
    requires { d < 16 }
    ensures { under_way (Some result) ≡ next_word (under_way word) d }
{
    word.unwrap_or(0) % 0x1000_0000 * 16 + d
}

// Puts a word where there is room for it, and answers the place after it.
// `n` is the place of the next word; so in `store` and `repeat_last`. The words are made once: a `push` to a Vec could fail at each.
fn put(words: &mut [u32], n: usize, w: u32) -> usize
    ensures { read_to words.new result ≡ stored (read_to words.old n) (under_way (Some w)) 16 }
{
    if n < words.len() {
        words[n] = w;
        return n + 1;
    }
    n
}

// Stores a word that is whole.
// `n` as in `put`.
#[tactic(auto, using(crate::proofs::case_text::Laws::stored_nothing))]
fn store(words: &mut [u32], n: usize, word: Option<u32>) -> usize
    ensures { read_to words.new result ≡ stored (read_to words.old n) (under_way word) 16 }
{
    match word {
        Some(w) => put(words, n, w),
        None => n,
    }
}

// What a star repeats: so many words, each made of the one some places before.
#[derive(Clone, Copy)]
struct Repeat {
    back: u32,
    count: u32,
    heads: u32,
    arguments: u32,
}

impl Repeat {
    #[tactic(auto, unfolding(crate::specs::case_text::Words::raised_by))]
    fn raised(&self, w: u32) -> u32
        ensures { result ≡ raised_by w self.now.heads self.now.arguments }
    {
        if w < 0x1000_0000 {
            w.wrapping_add(self.arguments)
        } else {
            w.wrapping_add(self.heads)
        }
    }

    // Writes the words from a place on, as far as there is room.
    // A word may be made of one that this loop wrote, and each is raised: `copy_within` does neither.
    fn copy_on(&self, words: &mut [u32], from: usize) -> usize
        requires { from ≤ length words.old }
        ensures { read_to words.new result ≡ copied self.now.count self.now.back self.now.heads self.now.arguments (read_to words.old from) }
    {
        let back = self.back as usize;
        let end = from + self.count as usize;
        for i in from..end {
            if i < back {
                return i;
            }
            if words.len() <= i {
                return i;
            }
            words[i] = self.raised(words[i - back]);
        }
        end
    }
}

// What a star asks for.
// `n` as in `put`: the four words before it are read, and the next ones go over them.
fn repeat_last(words: &mut [u32], n: usize) -> usize
    ensures { read_to words.new result ≡ repeated (read_to words.old n) 17 }
{
    if n < 4 {
        return n;
    }
    if words.len() < n {
        return n;
    }
    let repeat = Repeat {
        back: words[n - 4],
        count: words[n - 3],
        heads: words[n - 2],
        arguments: words[n - 1],
    };
    repeat.copy_on(words, n - 4)
}

/// Reads the words of a text as far as the slice has room, and answers how many.
// Byte by byte: a star may follow a digit and any other byte parts words, so pieces of the text would be no plainer.
pub fn read_words(text: &[u8], words: &mut [u32]) -> usize
    ensures { read_to words.new result ≡ words_read text.now words.old }
{
    let mut n = 0;
    let mut word = None;
    for b in text {
        match mark_of(*b) {
            Mark::Digit(d) => word = Some(with_digit(word, d)),
            Mark::Gap => n = store(words, n, word.take()),
            Mark::Star => {
                n = store(words, n, word.take());
                n = repeat_last(words, n);
            }
        }
    }
    n
}

/// The words of a text, so many at most.
pub fn words_of(alloc: Global, text: &[u8], room: usize) -> Result<Vec<u32>, AllocError>
    ensures { IfOk result (λ v. let read = words_read text.now (replicate room 0) in v.items ≡ take read.count read.words) }
{
    let mut words = vec![in alloc; 0; room]?;
    let count = read_words(text, &mut words);
    words.truncate(count);
    Ok(words)
}

#[cfg(test)]
mod tests {
    use super::*;
    use std::test::Fail;

    #[test]
    fn words_with_a_star(rt: HostRuntime) -> Result<(), Fail> {
        let words = words_of(rt.alloc(), b"5 10000000 2 3 1 4 *\n", 7)?;
        assert_eq!(rt;
            words.as_slice(),
            [5, 0x10000000, 9, 0x10000001, 13].as_slice()
        );
        Ok(())
    }

    // As the test above, with less room than words. Shared, the two would pass text, room and words, which is all that they hold.
    #[test]
    fn no_more_words_than_room(rt: HostRuntime) -> Result<(), Fail> {
        let words = words_of(rt.alloc(), b"1f 2 3 ", 2)?;
        assert_eq!(rt; words.as_slice(), [0x1f, 2].as_slice());
        Ok(())
    }
}
