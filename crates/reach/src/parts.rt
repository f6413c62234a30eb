//! Parts of the reach of a module: the records that stand for an item first, and the tally of reports.

ghost use Rattle.std.specs.Prelude.{◌≡◌};
ghost use Rattle.reach.specs.parts.Reach.{query_for};

pub mod firsts;
pub mod tally;
pub mod tell;

use find_path_spec::Query;
use snapshot::ids::{DefinitionId, ModuleId};

// Who asks: the viewing module, prefix, options, and the fuel and the limit of each search.
#[derive(Clone, Copy)]
pub struct Viewer {
    pub from: ModuleId,
    pub prefix: usize,
    pub options: usize,
    pub fuel: usize,
    pub limit: usize,
}

impl Viewer {
    /// The question for the item of a definition in a namespace.
    pub fn query_for(self, ns: usize, definition: DefinitionId) -> Query
        ensures { result ≡ query_for self ns definition.0 }
    {
        Query {
            ns,
            definition,
            from: self.from,
            prefix: self.prefix,
            options: self.options,
            limit: self.limit,
        }
    }
}

// The counts of found paths by number of names, 0 to 16, of misleading ones, of none with a full enough tank, of none with an
// empty one, and the names of all found paths together.
// All 21 counts are used, and C gets them in this order: an array and no list.
#[derive(Clone, Copy)]
pub struct Reach {
    pub counts: [usize; 21],
}
