//! The search for each distinct item, and what they found.
ghost use Rattle.std.specs.Prelude.{◌≡◌, ◌<◌, ◌≤◌, length, take};
ghost use Rattle.snapshot.specs.Limits.{path_limit, fuel_limit, area_limit, namespace_limit};
ghost use Rattle.snapshot.specs.Records.{scope_at};
ghost use Rattle.snapshot.specs.Layouts.{table_words};
ghost use Rattle.snapshot.specs.Laid.{snap_by};
ghost use Rattle.accept.specs.Post.{Reads};
ghost use Rattle.reach.specs.parts.Reach.{report_for, reach_in};

use crate::parts::firsts::is_met;
use crate::parts::tally::tally;
use crate::parts::{Reach, Viewer};
use answer::checked::found::report_in;
use find_path_spec::Report;
use snapshot::ids::Area;
use snapshot::kind::Size;
use snapshot::record::{scope_definition, scope_ns};
use snapshot::records::Records;

// The report for the item of the scope record with its head at a place; the tables stay.
fn report_for(records: &Records, area: &mut Area, v: Viewer, h: usize) -> Report
    requires reads { Reads records.now.words.now area.old records.now.layout × (v.from.0 < records.now.layout.modules) × (v.fuel ≤ fuel_limit)
        × (0 < v.limit) × (v.limit ≤ path_limit) }
    requires h_bound { ((scope_at records.now.words.now h).definition < records.now.layout.definitions)
        × ((scope_at records.now.words.now h).ns ≤ namespace_limit) }
    ensures value { result ≡ report_for (snap_by records.now area.old) v (scope_at records.now.words.now h) }
    ensures area_unchanged { take table_words area.new ≡ take table_words area.old }
{
    let ns = scope_ns(records.words, h);
    let d = scope_definition(records.words, h);
    report_in(records, area, v.query_for(ns, d), v.fuel)
}

/// The counts of the reports for all distinct items; the tables stay.
// `base + Size::SCOPE * k` as in a `Span`: a method for it would be this sum under a name.
pub fn reach_in(records: &Records, area: &mut Area, v: Viewer) -> Reach
    requires { Reads records.now.words.now area.old records.now.layout × (v.from.0 < records.now.layout.modules) × (v.fuel ≤ fuel_limit)
        × (0 < v.limit) × (v.limit ≤ path_limit) }
    ensures value { result.counts ≡ reach_in (snap_by records.now area.old) v }
    ensures area_unchanged { take table_words area.new ≡ take table_words area.old }
{
    let base = records.layout.scope_base();
    let counts = [0usize; 21];
    let mut reach = Reach { counts };
    for k in 0..records.layout.scopes {
        if !is_met(records, k) {
            let r = report_for(records, area, v, base + Size::SCOPE * k);
            reach = tally(reach, r);
        }
    }
    reach
}
