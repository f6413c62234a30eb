//! Text put into bytes, one piece after the other.
//! No heap: C lends the buffer, so a piece is put at a place of it and no String is made; each clause says what the bytes are.
ghost use Rattle.std.specs.Prelude.{◌+◌, ◌≤◌, [], ◌∷◌, length};
ghost use Rattle.printing.specs.Output.{Put, decimal_to};

/// Digits of a number.
#[derive(Clone, Copy)]
pub struct Digits;

impl Digits {
    /// Digits of a number, at most.
    pub const LIMIT: usize = 20;
}

/// Puts a text at a place, and answers the place after it.
// A loop: `copy_from_slice` has C bring a `memmove`.
pub fn put(out: &mut [u8], at: usize, text: &[u8]) -> usize
    requires { at + length text.now ≤ length out.old }
    ensures { Put out.old at text.now out.new result }
{
    for i in 0..text.len() {
        out[at + i] = text[i];
    }
    at + text.len()
}

fn put_digit(out: &mut [u8], at: usize, digit: u64) -> usize
    requires { (at + 1 ≤ length out.old) × (digit ≤ 9) }
    ensures { Put out.old at ((48 + digit) ∷ []) out.new result }
{
    let text = [48 + digit as u8];
    put(out, at, &text)
}

/// Puts the last digits of a number, so many at most, and answers the place after them.
pub fn put_digits(out: &mut [u8], at: usize, n: u64, most: usize) -> usize
    requires { at + most ≤ length out.old }
    ensures { Put out.old at (decimal_to most n) out.new result }
{
    if most == 0 {
        return at;
    }
    if n < 10 {
        return put_digit(out, at, n);
    }
    let to = put_digits(out, at, n / 10, most - 1);
    put_digit(out, to, n % 10)
}
