//! Which names an edition writes with `r#`.
//! Uses the check of names and `printing`.
#![tactic(auto)]

ghost use Rattle.std.specs.Prelude.{◌≡◌, ◌≤◌};
ghost use Rattle.snapshot.specs.Lists.{any};
ghost use Rattle.snapshot.specs.Records.{name_at};
ghost use Rattle.check_rules.specs.Tests.{same_name};
ghost use Rattle.keywords.specs.Keywords.{is_keyword, plain_words, is_raw};
ghost use Rattle.keywords.specs.Editions.{keywords_in};

use check_records::record_rules::names::known;

// The keywords as name records, in the order of the definition, and the places of their heads.
// Words and no strings: `known` compares them with a name's words as a snapshot has them, and a string would be packed into such words at each test.
const KEYWORDS: [u32; 147] = [
    0x10000002, 0x00007361, 0x10000005, 0x00657262, 0x00006b61, 0x10000005, 0x006e6f63, 0x00007473,
    0x10000008, 0x006e6f63, 0x006e6974, 0x00006575, 0x10000005, 0x00617263, 0x00006574, 0x10000004,
    0x00736c65, 0x00000065, 0x10000004, 0x00756e65, 0x0000006d, 0x10000006, 0x00747865, 0x006e7265,
    0x10000005, 0x006c6166, 0x00006573, 0x10000002, 0x00006e66, 0x10000003, 0x00726f66, 0x10000002,
    0x00006669, 0x10000004, 0x00706d69, 0x0000006c, 0x10000002, 0x00006e69, 0x10000003, 0x0074656c,
    0x10000004, 0x006f6f6c, 0x00000070, 0x10000005, 0x0074616d, 0x00006863, 0x10000003, 0x00646f6d,
    0x10000004, 0x00766f6d, 0x00000065, 0x10000003, 0x0074756d, 0x10000003, 0x00627570, 0x10000003,
    0x00666572, 0x10000006, 0x00746572, 0x006e7275, 0x10000004, 0x006c6573, 0x00000066, 0x10000004,
    0x006c6553, 0x00000066, 0x10000006, 0x00617473, 0x00636974, 0x10000006, 0x00727473, 0x00746375,
    0x10000005, 0x00707573, 0x00007265, 0x10000005, 0x00617274, 0x00007469, 0x10000004, 0x00757274,
    0x00000065, 0x10000004, 0x00707974, 0x00000065, 0x10000006, 0x00736e75, 0x00656661, 0x10000003,
    0x00657375, 0x10000005, 0x00656877, 0x00006572, 0x10000005, 0x00696877, 0x0000656c, 0x10000001,
    0x0000005f, 0x10000008, 0x00736261, 0x00617274, 0x00007463, 0x10000006, 0x00636562, 0x00656d6f,
    0x10000003, 0x00786f62, 0x10000002, 0x00006f64, 0x10000005, 0x006e6966, 0x00006c61, 0x10000005,
    0x0063616d, 0x00006f72, 0x10000008, 0x0065766f, 0x00697272, 0x00006564, 0x10000004, 0x00697270,
    0x00000076, 0x10000006, 0x00707974, 0x00666f65, 0x10000007, 0x00736e75, 0x00657a69, 0x00000064,
    0x10000007, 0x00726976, 0x00617574, 0x0000006c, 0x10000005, 0x00656979, 0x0000646c, 0x10000005,
    0x00797361, 0x0000636e, 0x10000005, 0x00617761, 0x00007469, 0x10000003, 0x006e7964, 0x10000003,
    0x00797274, 0x10000003, 0x006e6567,
];

const KEYWORD_HEADS: [u32; 53] = [
    0, 2, 5, 8, 12, 15, 18, 21, 24, 27, 29, 31, 33, 36, 38, 40, 43, 46, 48, 51, 53, 55, 57, 60, 63,
    66, 69, 72, 75, 78, 81, 84, 87, 89, 92, 95, 97, 101, 104, 106, 108, 111, 114, 118, 121, 124,
    128, 132, 135, 138, 141, 143, 145,
];

// The words that cannot be raw, in the same way.
const PLAIN: [u32; 14] = [
    0x10000001, 0x0000005f, 0x10000005, 0x00617263, 0x00006574, 0x10000004, 0x006c6573, 0x00000066,
    0x10000005, 0x00707573, 0x00007265, 0x10000004, 0x006c6553, 0x00000066,
];

const PLAIN_HEADS: [u32; 5] = [0, 2, 5, 8, 11];

// How many of the keywords an edition has. An edition is a year: C may pass any, and only its order counts, so it is no enum.
fn keywords_in(edition: usize) -> usize
    ensures { (result ≡ keywords_in edition) × (result ≤ 53) }
{
    if edition < 2015 {
        return 0;
    }
    if edition < 2018 {
        return 48;
    }
    if edition < 2024 {
        return 52;
    }
    53
}

// Whether the name with its head at a place is a strict or reserved keyword of an edition.
fn is_keyword(words: &[u32], at: usize, edition: usize) -> bool
    ensures { result ≡ is_keyword edition (name_at words.now at) }
{
    let n = keywords_in(edition);
    known(words, at, &KEYWORDS, &KEYWORD_HEADS, n)
}

// Whether the name with its head at a place cannot be raw.
fn is_plain(words: &[u32], at: usize) -> bool
    ensures { result ≡ any (same_name (name_at words.now at)) plain_words }
{
    known(words, at, &PLAIN, &PLAIN_HEADS, 5)
}

/// Whether an edition writes the name with its head at a place with `r#`.
pub fn is_raw(words: &[u32], at: usize, edition: usize) -> bool
    ensures { result ≡ is_raw edition (name_at words.now at) }
{
    if !is_keyword(words, at, edition) {
        return false;
    }
    !is_plain(words, at)
}
