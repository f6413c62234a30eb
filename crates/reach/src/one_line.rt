//! The printed line of a reach.
//! It is put into bytes that are lent, as lines are: no heap, so neither a String nor an iterator that joins texts.

ghost use Rattle.std.specs.Prelude.{map, ◌++◌, ◌*◌, ◌≤◌, ◌<◌, length};
ghost use Rattle.snapshot.specs.Limits.{line_limit};
ghost use Rattle.printing.specs.Output.{Put};
ghost use Rattle.find_path_spec.specs.Line.{bytes_of, decimal, joined};
ghost use Rattle.reach.specs.parts.Reach.{reach_line};

use line::put_refusal;
use line::text::put_number;
use printing::output::put;

// Puts numbers at the front, with a blank between them.
fn put_numbers(out: &mut [u8], numbers: &[usize]) -> usize
    requires { (0 < length numbers.now) × (length numbers.now ≤ 21) × (line_limit ≤ length out.old) }
    ensures put { Put out.old 0 (joined (bytes_of " ") (map decimal numbers.now)) out.new result }
    ensures upper_bound { result ≤ 21 * length numbers.now }
{
    let mut to = put_number(out, 0, numbers[0]);
    for n in &numbers[1..] {
        let at = put(out, to, b" ");
        to = put_number(out, at, *n);
    }
    to
}

/// Puts the line of what is told of a reach, a number and counts, and its end at the front, and answers its length. Any number but 0 is a refusal's.
pub fn put_reach(out: &mut [u8], number: usize, counts: &[usize; 21]) -> usize
    requires { line_limit ≤ length out.old }
    ensures { Put out.old 0 (reach_line (record { number = number; counts = counts.now }) ++ bytes_of "\n") out.new result }
{
    if number != 0 {
        return put_refusal(out, number);
    }
    let a = put_numbers(out, counts);
    put(out, a, b"\n")
}
