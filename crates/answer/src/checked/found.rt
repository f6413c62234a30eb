//! What the search of a question found on checked words, read where the options ask for it.
ghost use Rattle.std.specs.Prelude.{◌≡◌, ◌≤◌, ◌<◌, length, take};
ghost use Rattle.snapshot.specs.Limits.{path_limit, fuel_limit, area_limit, namespace_limit};
ghost use Rattle.snapshot.specs.Layouts.{table_words};
ghost use Rattle.snapshot.specs.Laid.{snap_by};
ghost use Rattle.accept.specs.Post.{Reads};
ghost use Rattle.accept.specs.Opened.{snap_in};
ghost use Rattle.find_path_choice.specs.Given.{given};
ghost use Rattle.find_path_spec.specs.Report.{misleads as misleads_in, reported as reported_of, searched};

use accept::opened::Snapshot;
use find_path::find_path;
use find_path_choice::Choice;
use find_path_spec::{Query, Report};
use hir_def::items::{item_of, known_kind_of};
use read_back::paths::reads_back;
use reports::reported;
use snapshot::ids::{Area, DefinitionKind, Namespace, Options};
use snapshot::records::Records;

// Whether a path was found that is to be read, and does not read back to the item. A builtin in types is not read.
fn misleads(db: &Snapshot, q: Query, choice: Option<Choice>) -> bool
    requires { (q.from.0 < db.now.records.layout.modules) × ((given choice).count ≤ 16) }
    ensures { result ≡ misleads_in (snap_in db.now) q (given choice) }
{
    let Some(c) = choice else {
        return false;
    };
    let d = q.definition;
    let builtin = (q.ns == Namespace::TYPES)
        & (known_kind_of(&db.records, d) == Some(DefinitionKind::Builtin));
    let read = (q.options / Options::READ_BACK % 2 == 1) & !builtin;
    if !read {
        return false;
    }
    let item = item_of(&db.records, q.ns, d);
    !reads_back(db, q.from, item, c.kind, &c.names[..c.count])
}

/// The report of the search for the item of a question, for a limit in range; the tables stay.
pub fn report_in(records: &Records, area: &mut Area, q: Query, fuel: usize) -> Report
    requires { Reads records.now.words.now area.old records.now.layout × (q.definition.0 < records.now.layout.definitions)
        × (q.from.0 < records.now.layout.modules) × (q.ns ≤ namespace_limit) × (fuel ≤ fuel_limit) × (0 < q.limit) × (q.limit ≤ path_limit) }
    ensures value { result ≡ reported_of (snap_by records.now area.old) q
        (searched (snap_by records.now area.old) q fuel) }
    ensures area_unchanged { take table_words area.new ≡ take table_words area.old }
{
    let f = find_path(records, area, q, fuel);
    let db = Snapshot {
        records: *records,
        area,
    };
    let misleading = misleads(&db, q, f.choice);
    reported(f, misleading)
}
