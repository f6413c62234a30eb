//! The words of an answer.
//! The text of a refusal, and of how many records of each kind there are.
//! The buffer is lent: `wording` has no heap, and its callers know from the clauses that 512 bytes serve.

ghost use Rattle.std.specs.Prelude.{◌≡◌, ◌++◌, ◌+◌, ◌≤◌, length};
ghost use Rattle.printing.specs.Output.{Put, bytes_of, decimal};
ghost use Rattle.printing.specs.wording.Text.{choose, meaning, refusal, asked_there, line, first_lines, last_lines, text_limit};

use crate::output::{Digits, put, put_digits};
use snapshot::layout::Layout;
use snapshot::refusal::Refusal;

/// A number of bytes.
#[derive(Clone, Copy)]
pub struct TextBytes;

impl TextBytes {
    /// Bytes of a buffer that serves for a text.
    pub const LIMIT: usize = 512;
}

/// The text, where the two numbers are the same, or the other.
// The shape of `told_paths::told_routes::looked_in`, of texts: no more is left of either than the test.
pub fn chosen<'a>(n: u32, m: u32, text: &'a [u8], other: &'a [u8]) -> &'a [u8]
    ensures { result.now ≡ choose n m text.now other.now }
{
    if n == m {
        return text;
    }
    other
}

// What a refusal's number means; a number with no meaning of its own has that of an area.
// By numbers: `put_refusal` takes any, and there is no `Refusal` for the others. A row of `chosen`: `Refusal::Form as u32` is no pattern, so a
// `match` would have a guard in each of ten arms, and be no plainer.
fn meaning(n: u32) -> &'static [u8]
    ensures { result.now ≡ meaning n }
{
    let t = b"a work area of fewer than 16384 words\n";
    let t = chosen(
        n,
        Refusal::Edition as u32,
        b"an edition other than 2015, 2018, 2021 and 2024\n",
        t,
    );
    let t = chosen(
        n,
        Refusal::Rest as u32,
        b"a number of bytes that is not a multiple of 4\n",
        t,
    );
    let t = chosen(n, Refusal::Bytes as u32, b"more than 65536 bytes\n", t);
    let count = b"more than 64 crates, 512 modules, 2048 names or 2048 definitions\n";
    let t = chosen(n, Refusal::Count as u32, count, t);
    let place =
        b"a record that does not fit the records before it, or a map or crate left incomplete\n";
    let t = chosen(n, Refusal::Place as u32, place, t);
    let t = chosen(
        n,
        Refusal::Repeated as u32,
        b"something that may stand once only is repeated\n",
        t,
    );
    let t = chosen(
        n,
        Refusal::Undefined as u32,
        b"a number that is not defined yet\n",
        t,
    );
    let range = b"a field outside its range, bad padding, or a builtin with another name\n";
    let t = chosen(n, Refusal::Range as u32, range, t);
    let form = b"an unknown or falling kind, a wrong argument kind, or a missing argument\n";
    let t = chosen(n, Refusal::Form as u32, form, t);
    chosen(n, Refusal::Words as u32, b"more than 16384 words\n", t)
}

// A number after its label.
fn put_labelled(out: &mut [u8], at: usize, label: &[u8], n: u64) -> usize
    requires { at + length label.now + 20 ≤ length out.old }
    ensures put { Put out.old at (label.now ++ decimal n) out.new result }
    ensures upper_bound { result ≤ at + length label.now + 20 }
{
    let a = put(out, at, label);
    put_digits(out, a, n, Digits::LIMIT)
}

// The same, up to the end of the line.
// `n` is the number that is put, and no length.
fn put_line(out: &mut [u8], at: usize, label: &[u8], n: usize) -> usize
    requires { at + length label.now + 21 ≤ length out.old }
    ensures put { Put out.old at ((label.now ++ decimal n) ++ bytes_of "\n") out.new result }
    ensures upper_bound { result ≤ at + length label.now + 21 }
{
    let a = put_labelled(out, at, label, n as u64);
    put(out, a, b"\n")
}

/// The number and its place, then the meaning.
pub fn put_refusal(out: &mut [u8], n: u32, place: usize) -> usize
    requires { text_limit ≤ length out.old }
    ensures { Put out.old 0 (refusal n place) out.new result }
{
    let a = put_labelled(out, 0, b"refused ", n as u64);
    let b = put_line(out, a, b" at ", place);
    put(out, b, meaning(n))
}

/// The refusal of a word at which a question begins.
pub fn put_asked(out: &mut [u8], place: usize) -> usize
    requires { text_limit ≤ length out.old }
    ensures { Put out.old 0 (asked_there place) out.new result }
{
    let a = put_line(out, 0, b"refused 31 at ", place);
    put(
        out,
        a,
        b"a question begins there: path_printer answers questions\n",
    )
}

// The kinds up to modules.
fn put_first_lines(out: &mut [u8], at: usize, l: Layout) -> usize
    requires { at + 144 ≤ length out.old }
    ensures put { Put out.old at (first_lines l.names l.crates l.dependencies l.maps l.modules) out.new result }
    ensures upper_bound { result ≤ at + 144 }
{
    let a = put_line(out, at, b"names ", l.names);
    let b = put_line(out, a, b"crates ", l.crates);
    let c = put_line(out, b, b"dependencies ", l.dependencies);
    let d = put_line(out, c, b"maps ", l.maps);
    put_line(out, d, b"modules ", l.modules)
}

// The kinds from children to externs.
// As `put_first_lines`, of other kinds. A loop over labels and counts needs an invariant that bounds what it has put so far; here the bound of
// each `put_line` gives it.
fn put_last_lines(out: &mut [u8], at: usize, l: Layout) -> usize
    requires { at + 179 ≤ length out.old }
    ensures put { Put out.old at (last_lines l.children l.preludes l.definitions l.scopes l.imports l.externs)
        out.new result }
    ensures upper_bound { result ≤ at + 179 }
{
    let a = put_line(out, at, b"children ", l.children);
    let b = put_line(out, a, b"preludes ", l.preludes);
    let c = put_line(out, b, b"definitions ", l.definitions);
    let d = put_line(out, c, b"scopes ", l.scopes);
    let e = put_line(out, d, b"imports ", l.imports);
    put_line(out, e, b"externs ", l.externs)
}

/// How many records of each kind there are.
pub fn put_counts(out: &mut [u8], l: Layout) -> usize
    requires { text_limit ≤ length out.old }
    ensures { Put out.old 0
        (bytes_of "accepted\n" ++ (first_lines l.names l.crates l.dependencies l.maps l.modules
        ++ (last_lines l.children l.preludes l.definitions l.scopes l.imports l.externs ++ line "members " l.members)))
        out.new result }
{
    let a = put(out, 0, b"accepted\n");
    let b = put_first_lines(out, a, l);
    let c = put_last_lines(out, b, l);
    put_line(out, c, b"members ", l.members)
}
