//! The check of all the words.
ghost use Rattle.std.specs.Prelude.{◌≡◌, ◌≤◌, length};
ghost use Rattle.snapshot.specs.Limits.{word_limit, area_limit};
ghost use Rattle.accept.specs.Post.{Judged, Checks};
ghost use Rattle.accept.specs.Ends.{Ended};

use crate::finish::{crates_own, fill_roots, maps_filled};
use crate::turn::turn;
use check_records::chains::chain::{Chains, clear};
use record_index::index_records;
use snapshot::ids::WordCount;
use snapshot::kind::arguments;
use snapshot::layout::Layout;
use snapshot::reading::kind;
use snapshot::records::Records;
use snapshot::refusal::Refusal;

/// Why words are refused, and where: at the offset of a record, or at the number of words for a fault after the last.
#[derive(Clone, Copy, PartialEq, Eq)]
pub struct Refused {
    pub why: Refusal,
    pub at: usize,
}

// What `?` calls where no place is told; no derive makes it.
impl From<Refused> for Refusal {
    ghost from_gives = { λ no why. why ≡ no.why };

    fn from(no: Refused) -> Refusal {
        no.why
    }
}

// The records one after the other.
// `while`: records differ in size, so the place of the next one is read.
fn read_records(words: &[u32], area: &mut [u32]) -> Result<Layout, Refused>
    requires { (length words.now ≤ word_limit) × (area_limit ≤ length area.old) }
    ensures { Ended words.now area.new result }
{
    clear(area, Chains::HEADS, Chains::MARKS_END);
    let mut at = 0;
    let mut last = 0;
    let mut l = Layout::new();
    while at < words.len() {
        l = turn(words, area, l, at, last).map_err(|why| Refused { why, at })?;
        last = kind(words, at);
        at = at + 1 + arguments(words, at);
    }
    Ok(l)
}

// The check in an area that is large enough.
fn check_within(words: &[u32], area: &mut [u32]) -> Result<Layout, Refused>
    requires { area_limit ≤ length area.old }
    ensures { Judged words.now area.new result }
{
    if WordCount::SNAPSHOT < words.len() {
        return Err(Refused {
            why: Refusal::Words,
            at: WordCount::SNAPSHOT,
        });
    }
    let l = read_records(words, area)?;
    if !maps_filled(area, l.maps, l.modules) {
        return Err(Refused {
            why: Refusal::Place,
            at: words.len(),
        });
    }
    if !crates_own(area, l.crates) {
        return Err(Refused {
            why: Refusal::Place,
            at: words.len(),
        });
    }
    fill_roots(area, l.modules);
    let records = Records { words, layout: l };
    index_records(&records, area);
    Ok(l)
}

/// The check of the words, which leaves the tables of accepted words in the work area.
pub fn check(words: &[u32], area: &mut [u32]) -> Result<Layout, Refused>
    ensures { Checks words.now area.old area.new result }
{
    if area.len() < WordCount::AREA {
        return Err(Refused {
            why: Refusal::Area,
            at: 0,
        });
    }
    check_within(words, &mut area[..WordCount::AREA])
}
