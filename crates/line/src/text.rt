//! The text of a name and of a number.
//! The bytes are lent by C and there is no heap, so they are copied out of the words one by one.
ghost use Rattle.std.specs.Prelude.{◌≡◌, ◌+◌, ◌*◌, ◌≤◌, ◌<◌, length, take, get_or};
ghost use Rattle.accept.specs.Opened.{snap_in};
ghost use Rattle.printing.specs.Output.{Put};
ghost use Rattle.find_path_spec.specs.Line.{unpacked, written_of, decimal};

use accept::opened::Snapshot;
use find_path_choice::choices::name_len;
use keywords::is_raw;
use printing::output::{Digits, put, put_digits};
use snapshot::ids::Name;
use snapshot::reading::word;
use snapshot::table::name_head;
use snapshot::text::text_of;

fn narrow(x: usize) -> u8
    requires { x < 256 }
    ensures { result ≡ x }
{
    x as u8
}

/// The byte at a place of a text that stands in words, three bytes a word.
pub fn text_byte(text: &[u32], i: usize) -> u8
    ensures { result ≡ get_or (unpacked text.now) i 0 }
{
    let w = word(text, i / 3);
    if i % 3 == 0 {
        return narrow(w % 256);
    }
    if i % 3 == 1 {
        return narrow(w / 256 % 256);
    }
    narrow(w / 65536 % 256)
}

/// Puts the first bytes of such a text.
// n bytes, of which a word has three: a slice of words cannot end inside a word.
pub fn put_text(out: &mut [u8], at: usize, text: &[u32], n: usize) -> usize
    requires { (at + n ≤ length out.old) × (n ≤ 3 * length text.now) }
    ensures put { Put out.old at (take n (unpacked text.now)) out.new result }
    ensures value { result ≡ at + n }
{
    for i in 0..n {
        out[at + i] = text_byte(text, i);
    }
    at + n
}

/// Puts the text of a name as an edition writes it; a number that is no name's puts nothing.
pub(crate) fn put_name(out: &mut [u8], at: usize, db: &Snapshot, edition: usize, n: Name) -> usize
    requires { at + 255 ≤ length out.old }
    ensures put { Put out.old at (written_of (snap_in db.now) edition n.0) out.new result }
    ensures upper_bound { result ≤ at + 255 }
{
    if db.records.layout.names <= n.0 {
        return at;
    }
    let bytes = name_len(db, n);
    let text = text_of(db.records.words, db.area, n);
    let raw = is_raw(db.records.words, name_head(db.area, n), edition);
    if raw {
        let to = put(out, at, b"r#");
        return put_text(out, to, text, bytes);
    }
    put_text(out, at, text, bytes)
}

/// Puts a number in decimal.
pub fn put_number(out: &mut [u8], at: usize, n: usize) -> usize
    requires { at + 20 ≤ length out.old }
    ensures put { Put out.old at (decimal n) out.new result }
    ensures upper_bound { result ≤ at + 20 }
{
    put_digits(out, at, n as u64, Digits::LIMIT)
}
