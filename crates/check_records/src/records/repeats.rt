//! Whether a record repeats an earlier one of its kind.
//! `owner: bool`, whether a record's owner counts, is a variable of `same_by`: the kinds differ in it as in the number of fields.
ghost use Rattle.std.specs.Prelude.{◌≡◌, ◌+◌, ◌*◌, ◌^◌, ◌<◌, ◌≤◌, true, ◌||◌, leb, length, get_or};
ghost use Rattle.snapshot.specs.Lists.{rows, any};
ghost use Rattle.snapshot.specs.Words.{pay_of};
ghost use Rattle.snapshot.specs.Sizes.{scope_size};
ghost use Rattle.check_records.specs.chains.Chains.{record_key, Chained};
ghost use Rattle.check_records.specs.record_rules.Stands.{same_by};

use snapshot::reading::{field, payload, word};

// Whether two records have the same owner, where it counts, and the same first fields.
// A record is words of the snapshot and no struct, so there is no PartialEq to derive; and which fields count is a parameter.
fn same_fields(words: &[u32], owner: bool, fields: usize, a: usize, b: usize) -> bool
    ensures { result ≡ same_by words.now owner fields a b }
{
    let o = payload(words, a) == payload(words, b);
    let f = field(words, a, 1) == field(words, b, 1);
    let g = field(words, a, 2) == field(words, b, 2);
    (!owner | o) & ((fields < 1) | f) & ((fields < 2) | g)
}

// The same of the record at b, with the first one's payload of the last word that counts: mostly these differ.
fn same(words: &[u32], owner: bool, fields: usize, a: usize, b: usize, last: usize) -> bool
    requires { (b + fields < length words.now) × (fields ≤ 2) × ((leb 1 fields || owner) ≡ true)
        × (last ≡ pay_of (get_or words.now (a + fields) 0)) }
    ensures { result ≡ same_by words.now owner fields a b }
{
    if payload(words, b + fields) != last {
        return false;
    }
    same_fields(words, owner, fields, a, b)
}

/// Whether one of the records from a place on is the same as the one at a place.
pub fn repeated(
    words: &[u32],
    owner: bool,
    fields: usize,
    at: usize,
    base: usize,
    size: usize,
    count: usize,
) -> bool
    requires { (base + size * count ≤ length words.now) × (at + size ≤ length words.now) × (length words.now < 2 ^ 32)
        × (fields < size) × (size ≤ scope_size) × (fields ≤ 2) × ((leb 1 fields || owner) ≡ true) }
    ensures { result ≡ any (same_by words.now owner fields at) (rows (λ k. base + size * k) 0 count) }
{
    let last = payload(words, at + fields);
    for k in 0..count {
        if same(words, owner, fields, at, base + size * k, last) {
            return true;
        }
    }
    false
}

/// The same among the records with a key, by their owner and first fields.
// `while`: it follows links, so the next number is read.
// `record_rules::names::repeated` walks its links alike. One walk for both takes the test of a record as a closure, with what the closure gives in
// each clause, and is no shorter than the two loops.
// Ten parameters: the rows (`base`, `size`, `count`) and the chain (`heads`, `links`, `key`) as structs would be made at each call and taken apart
// at once; the clauses, as `Chained`, speak of each number.
pub fn repeated_with(
    words: &[u32],
    area: &[u32],
    fields: usize,
    at: usize,
    base: usize,
    size: usize,
    count: usize,
    heads: usize,
    links: usize,
    key: usize,
) -> bool
    requires chained { Chained area.now heads links (λ i. record_key words.now fields (base + size * i)) count }
    requires key_value { (key ≡ record_key words.now fields at) × (heads < 2 ^ 32) × (links < 2 ^ 32) × (1 ≤ fields) × (fields ≤ 2) }
    requires count_in_bounds { (base + size * count ≤ length words.now) × (at + size ≤ length words.now)
        × (length words.now < 2 ^ 32) × (fields < size) }
    ensures { result ≡ any (same_by words.now true fields at) (rows (λ k. base + size * k) 0 count) }
{
    let last = payload(words, at + fields);
    let mut k = word(area, heads + key);
    while k != 0 {
        let j = k - 1;
        if same(words, true, fields, at, base + size * j, last) {
            return true;
        }
        k = word(area, links + j);
    }
    false
}
