//! The text of a path.
//! Without a heap there is no String to push to: a piece goes into the lent bytes at a place, and the place after it is answered.
ghost use Rattle.std.specs.Prelude.{map, ◌++◌, ◌+◌, ◌≤◌, ◌<◌, length};
ghost use Rattle.accept.specs.Opened.{snap_in};
ghost use Rattle.printing.specs.Output.{Put};
ghost use Rattle.find_path_spec.specs.Line.{bytes_of, written_of, joined, prefix_parts};
ghost use Rattle.line.specs.Joints.{joint_if};

use crate::text::put_name;
use accept::opened::Snapshot;
use printing::output::put;
use snapshot::ids::{Name, PathKind};

// Puts what stands before the names, and no joint.
// By number, as `prefix_parts`: a `match` on `PathKind::of(kind)` was tried, and the proof of its `_` didn't close. So in `put_path`.
fn put_prefix(out: &mut [u8], at: usize, kind: usize) -> usize
    requires { at + 5 ≤ length out.old }
    ensures put { Put out.old at (joined (bytes_of "::") (prefix_parts kind)) out.new result }
    ensures upper_bound { result ≤ at + 5 }
{
    if kind == PathKind::SelfModule as usize {
        return put(out, at, b"self");
    }
    if kind == PathKind::Super as usize {
        return put(out, at, b"super");
    }
    if kind == PathKind::Crate as usize {
        return put(out, at, b"crate");
    }
    at
}

// Puts a name, after a joint where something stands before it.
// `joint` is a test's result: whether anything stands before the name.
fn put_part(out: &mut [u8], at: usize, db: &Snapshot, edition: usize, n: Name, joint: bool) -> usize
    requires { at + 257 ≤ length out.old }
    ensures put { Put out.old at (joint_if joint ++ written_of (snap_in db.now) edition n.0)
        out.new result }
    ensures upper_bound { result ≤ at + 257 }
{
    if joint {
        let to = put(out, at, b"::");
        return put_name(out, to, db, edition, n);
    }
    put_name(out, at, db, edition, n)
}

/// Puts a path as an edition writes it: its prefix and its names, with joints between them.
pub(crate) fn put_path(
    out: &mut [u8],
    at: usize,
    db: &Snapshot,
    edition: usize,
    kind: usize,
    names: &[usize],
) -> usize
    requires room { at + 4117 ≤ length out.old }
    requires count_bound { length names.now ≤ 16 }
    ensures put { Put out.old at
        (joined (bytes_of "::") (prefix_parts kind ++ map (written_of (snap_in db.now) edition)
        names.now)) out.new result }
    ensures upper_bound { result ≤ at + 4117 }
{
    let leading = (kind == PathKind::SelfModule as usize)
        | ((kind == PathKind::Super as usize)
            | ((kind == PathKind::Crate as usize) | (kind == PathKind::Absolute as usize)));
    let mut to = put_prefix(out, at, kind);
    for (i, name) in names.iter().enumerate() {
        let n = Name(*name);
        to = put_part(out, to, db, edition, n, leading | (0 < i));
    }
    to
}
