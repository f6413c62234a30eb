//! The order of names by their texts.
ghost use Rattle.std.specs.Prelude.{◌≡◌, ◌*◌, ◌≤◌, length, take};
ghost use Rattle.snapshot.specs.Words.{text_at};
ghost use Rattle.snapshot.specs.Layouts.{name_head};
ghost use Rattle.accept.specs.Opened.{snap_in};
ghost use Rattle.find_path_spec.specs.Line.{unpacked, text_of};
ghost use Rattle.import_rules.specs.Collect.{text_before};

use accept::opened::Snapshot;
use find_path_choice::choices::name_len;
use line::text::text_byte;
use snapshot::ids::Name;
use snapshot::text::text_of;

// Whether the first bytes of a text stand before those of another.
// Three bytes stand in a word: where the text ends inside the last one, no slice of words has that end.
fn bytes_before(a: &[u32], n: usize, b: &[u32], m: usize) -> bool
    requires { (n ≤ 3 * length a.now) × (m ≤ 3 * length b.now) }
    ensures { result ≡ text_before (take n (unpacked a.now)) (take m (unpacked b.now)) }
{
    for i in 0..n {
        if m <= i {
            return false;
        }
        let x = text_byte(a, i);
        let y = text_byte(b, i);
        if x < y {
            return true;
        }
        if y < x {
            return false;
        }
    }
    n < m
}

// The bytes of a name, none of a number that is no name's.
fn bytes_of(db: &Snapshot, n: Name) -> usize
    ensures n_value { take result (unpacked (text_at db.now.records.words.now (name_head db.now.area.now n.0)))
        ≡ text_of (snap_in db.now) n.0 }
    ensures upper_bound { result ≤ 3 * length (text_at db.now.records.words.now (name_head db.now.area.now n.0)) }
{
    if db.records.layout.names <= n.0 {
        return 0;
    }
    name_len(db, n)
}

/// Whether a name stands before another by its text.
pub fn text_before(db: &Snapshot, x: Name, y: Name) -> bool
    ensures { result ≡ text_before (text_of (snap_in db.now) x.0)
        (text_of (snap_in db.now) y.0) }
{
    let n = bytes_of(db, x);
    let m = bytes_of(db, y);
    let a = text_of(db.records.words, db.area, x);
    let b = text_of(db.records.words, db.area, y);
    bytes_before(a, n, b, m)
}
