//! The functions of the static library, for programs in Rust and C. None keeps a state but the one that the caller lends, and none asks
//! anything of its caller but the two that end in `_checked`: these answer on words that `kelumavor_check` accepted before.
#![tactic(auto)]

ghost use Rattle.std.specs.Prelude.{◌≡◌, ◌≤◌, ◌<◌, length};
ghost use Rattle.answer.specs.any_answer.Any.{AnyIn};
ghost use Rattle.answer.specs.asked.Asked.{AskedEach};
ghost use Rattle.answer.specs.asked.StillChecked.{StillChecked};
ghost use Rattle.answer.specs.batch.Batch.{Batch};
ghost use Rattle.edits.specs.Edits.{EditsIn};
ghost use Rattle.exports.specs.Answers.{Answered};
ghost use Rattle.exports.specs.Questions.{Reported, ReportedChecked};
ghost use Rattle.exports.specs.Texts.{name_text, Copied, Named, name_raw, RawNamed};
ghost use Rattle.exports.specs.Reaches.{viewer_of, ReachesIn};
ghost use Rattle.exports.specs.Turns.{Served, Unserved};
ghost use Rattle.exports.specs.Version.{version};
ghost use Rattle.imports.specs.Listings.{ListsIn};
ghost use Rattle.join.specs.Joins.{JoinsIn};
ghost use Rattle.join.specs.new_numbers.New.{NewNumbers, NewName, NewDefinition, NewCrate, NewMap, NewModule};
ghost use Rattle.reports.specs.questions.Questions.{question_of};
ghost use Rattle.reports.specs.Written.{report_size};
ghost use Rattle.edit_rules.specs.Edits.{adding, removing};
ghost use Rattle.edit_rules.specs.Entries.{entry_of};
ghost use Rattle.snapshot.specs.Refusals.{fault_number};
ghost use Rattle.snapshot.specs.Layouts.{table_words};
ghost use Rattle.windows.specs.Windows.{Placed};

mod lent;
mod text;
mod viewer;

use crate::lent::turn_in;
use crate::text::held;
use crate::viewer::viewer_of;
use accept::check::check;
use answer::any_answer::numbers::any_path_in;
use answer::area::clear_front;
use answer::asked::each::find_paths_checked;
use answer::asked::find_path_checked;
use answer::batch::find_paths;
use answer::counts::tell;
use answer::find_path;
use edit_rules::scope_edits::places::EntryKey;
use edits::{add_entry, remove_entry};
use imports::import_list;
use join::join;
use join::new_numbers::numbers::new_numbers;
use join::new_numbers::read::{new_crate, new_definition, new_map, new_module, new_name};
use keywords::is_raw;
use line::text::put_text;
use reach::parts::tell::tell_reach;
use reach::unchecked::find_reach;
use reports::questions::question::question_of;
use reports::{ReportWords, write_report};
use snapshot::ids::{Crate, Name};
use snapshot::kind::Size;
use snapshot::reading::payload;
use snapshot::refusal::Refusal;
use snapshot::table::{Tables, name_head};
use snapshot::text::text_at;
use windows::place;
use windows::state::words::{windows_of, words_of};

/// The format of snapshots, questions and states.
#[derive(Clone, Copy)]
pub struct Format;

impl Format {
    /// One more whenever a program that was built for the one before could be misled.
    pub const VERSION: usize = 2;
}

// The number of a refusal, 0 for none.
fn number_of(r: Result<(), Refusal>) -> usize
    ensures { result ≡ fault_number r }
{
    match r {
        Ok(()) => 0,
        Err(why) => why.number(),
    }
}

/// Checks a snapshot, and leaves the tables of accepted words in the work area; after a refusal the area is as after every other call. Answers
/// the number of the refusal, 0 for none; writes that number, its place, and how many records of each kind there are.
#[unsafe(no_mangle)]
pub extern "C" fn kelumavor_check(
    words: &[u32],
    area: &mut [u32],
    answer: &mut [usize; 14],
) -> usize
    ensures { Answered words.now area.old area.new answer.new result }
{
    match check(words, area) {
        Err(no) => {
            clear_front(area);
            let number = no.why.number();
            *answer = [number, no.at, 0, 0, 0, 0, 0, 0, 0, 0, 0, 0, 0, 0];
            number
        }
        Ok(l) => {
            *answer = [
                0,
                0,
                l.names,
                l.crates,
                l.dependencies,
                l.maps,
                l.modules,
                l.children,
                l.preludes,
                l.definitions,
                l.scopes,
                l.imports,
                l.externs,
                l.members,
            ];
            0
        }
    }
}

/// Copies the text of a name to the front, where there is room for all of it, and answers its length. The tables are the work
/// area as the check of these words left it, or its first words, one for each name.
// `name` is a number of the snapshot and no length: C passes each slice with its own; so in `kelumavor_is_raw` and `kelumavor_new_name`.
#[unsafe(no_mangle)]
pub extern "C" fn kelumavor_name(
    words: &[u32],
    tables: &[u32],
    name: usize,
    out: &mut [u8],
) -> usize
    ensures copied { Copied (name_text words.now tables.now name) out.old out.new result }
    ensures named { Named words.now tables.now name (name_text words.now tables.now name) }
{
    if tables.len() <= name {
        return 0;
    }
    let head = name_head(tables, Name(name));
    let text = text_at(words, head);
    let n = held(text, payload(words, head));
    if out.len() < n {
        return n;
    }
    put_text(out, 0, text, n)
}

/// Whether an edition writes a name with `r#` in front of its text: the edition of the viewing module's crate. The tables are those of
/// `kelumavor_name`.
// `name` as in `kelumavor_name`.
#[unsafe(no_mangle)]
pub extern "C" fn kelumavor_is_raw(
    words: &[u32],
    tables: &[u32],
    name: usize,
    edition: usize,
) -> bool
    ensures value { result ≡ name_raw words.now tables.now name edition }
    ensures raw_named { RawNamed words.now tables.now name edition }
{
    if name < tables.len() {
        return is_raw(words, name_head(tables, Name(name)), edition);
    }
    false
}

/// Answers a question on a snapshot, and writes the report, a word a field, where there is room for all of it; answers whether
/// there was.
#[unsafe(no_mangle)]
pub extern "C" fn kelumavor_find_path(
    words: &[u32],
    area: &mut [u32],
    question: &[u32; Size::QUESTION],
    report: &mut [u32],
) -> bool
    ensures { Reported words.now area.old (question_of question.now) area.new
        report.old report.new result }
{
    let answer = find_path(words, area, question_of(question));
    write_report(answer, report)
}

/// Answers up to 64 questions of seven words each on a snapshot, which is checked once, and writes their reports of 42 words each, one
/// after the other. Answers 0, or the number by which the whole call is refused, with the reports unwritten: 20 a small work area,
/// 44 too many questions, a part of one, or too few words for the reports.
#[unsafe(no_mangle)]
pub extern "C" fn kelumavor_find_paths(
    words: &[u32],
    area: &mut [u32],
    questions: &[u32],
    reports: &mut [u32],
) -> usize
    ensures { Batch words.now area.old questions.now reports.old area.new
        reports.new result }
{
    number_of(find_paths(words, area, questions, reports))
}

/// How many words at the front of the work area are the tables that the check of accepted words leaves there. An area with a copy of them
/// serves as well.
#[unsafe(no_mangle)]
pub extern "C" fn kelumavor_table_words() -> usize
    ensures { result ≡ table_words }
{
    Tables::END
}

/// Answers a question as `kelumavor_find_path` does, on words that `kelumavor_check` accepted, by the numbers that it wrote and the tables that it
/// left in the work area: nothing is checked again, and nothing is cleared. Words and tables stay for the next question.
#[unsafe(no_mangle)]
pub extern "C" fn kelumavor_find_path_checked(
    words: &[u32],
    area: &mut [u32],
    counts: &[usize; 14],
    question: &[u32; Size::QUESTION],
    report: &mut [u32],
) -> bool
    requires { StillChecked words.now area.old counts.now }
    ensures { ReportedChecked words.now area.old counts.now (question_of question.now)
        area.new report.old report.new result }
{
    let answer = find_path_checked(words, area, counts, question_of(question));
    write_report(answer, report)
}

/// Answers up to 64 questions as `kelumavor_find_paths` does, on words as for `kelumavor_find_path_checked`.
#[unsafe(no_mangle)]
pub extern "C" fn kelumavor_find_paths_checked(
    words: &[u32],
    area: &mut [u32],
    counts: &[usize; 14],
    questions: &[u32],
    reports: &mut [u32],
) -> usize
    requires { StillChecked words.now area.old counts.now }
    ensures { AskedEach words.now area.old counts.now questions.now
        reports.old area.new reports.new result }
{
    number_of(find_paths_checked(words, area, counts, questions, reports))
}

/// Places a question for one of the eight windows whose state the caller lends; 65 zeros are the state in which none waits. Answers 0,
/// or the number by which the question is refused, with the state unchanged: 49 no such window, 50 a question of the window waits
/// already.
#[unsafe(no_mangle)]
pub extern "C" fn kelumavor_place(
    state: &mut [u32; 65],
    window: usize,
    question: &[u32; Size::QUESTION],
) -> usize
    ensures { Placed state.old window (question_of question.now) state.new result }
{
    let mut windows = windows_of(*state);
    let r = place(&mut windows, window, question);
    *state = words_of(windows);
    number_of(r)
}

/// Serves the next window that waits, on a snapshot, and writes the report of its question. Answers the window, or 8 where no question
/// waits, or 9 where there are too few words for a report; nothing is changed then.
#[unsafe(no_mangle)]
pub extern "C" fn kelumavor_turn(
    state: &mut [u32; 65],
    words: &[u32],
    area: &mut [u32],
    report: &mut [u32],
) -> usize
    ensures served { report_size ≤ length report.old → Served state.old words.now area.old
        report.old state.new area.new report.new result }
    ensures unserved { length report.old < report_size → Unserved state.old area.old report.old
        state.new area.new report.new result }
{
    if report.len() < ReportWords::COUNT {
        return 9;
    }
    let turned = turn_in(windows_of(*state), words, area);
    *state = words_of(turned.windows);
    let Some(served) = turned.served else {
        return 8;
    };
    write_report(served.report, report);
    served.window.number
}

/// Adds an entry of a scope to the snapshot in the first words, as many as `count` says, which becomes the new count: module,
/// namespace, name, definition, visibility and its number, declared, bits. Answers 0, or the number by which the edit is refused, with words
/// and count unchanged: 20 a small work area, 30 to 36 and 43 the snapshot, 30 also a count above the words, 32, 33 and 35 the entry, 47 a name
/// that is there already, 48 no room.
#[unsafe(no_mangle)]
pub extern "C" fn kelumavor_add_entry(
    words: &mut [u32],
    count: &mut usize,
    area: &mut [u32],
    entry: &[u32; Size::SCOPE],
) -> usize
    ensures { EditsIn words.old count.old area.old (adding (entry_of entry.now))
        words.new area.new (record { number = result; count = count.new }) }
{
    let r = add_entry(words, *count, area, entry);
    tell(r, count)
}

/// Removes the entry of a module, a namespace and a name, and answers as `kelumavor_add_entry` does, with 47 for a name that isn't there.
#[unsafe(no_mangle)]
pub extern "C" fn kelumavor_remove_entry(
    words: &mut [u32],
    count: &mut usize,
    area: &mut [u32],
    owner: usize,
    ns: usize,
    name: usize,
) -> usize
    ensures { EditsIn words.old count.old area.old (removing owner ns name) words.new
        area.new (record { number = result; count = count.new }) }
{
    let key = EntryKey { owner, ns, name };
    let r = remove_entry(words, *count, area, key);
    tell(r, count)
}

/// Writes the import records of a crate, built from the maps, to the target, and their number of words to the count; what stands past
/// them stays. Answers 0, or the number by which the call is refused, with the target unchanged and a count of 0.
#[unsafe(no_mangle)]
pub extern "C" fn kelumavor_import_list(
    words: &[u32],
    area: &mut [u32],
    krate: usize,
    target: &mut [u32],
    count: &mut usize,
) -> usize
    ensures { ListsIn words.now area.old krate target.old target.new
        area.new (record { number = result; count = count.new }) }
{
    *count = 0;
    let r = import_list(words, area, Crate(krate), target);
    tell(r, count)
}

/// Writes the words of two snapshots joined to the target, and their number to the count; what stands past them stays. Answers 0, or the
/// number by which the call is refused, with the target unchanged and a count of 0: 20 a small work area, 30 to 36 and 43 the first
/// snapshot, then the second, 51 a result that passes a limit or does not fit the target.
#[unsafe(no_mangle)]
pub extern "C" fn kelumavor_join(
    first: &[u32],
    second: &[u32],
    area: &mut [u32],
    target: &mut [u32],
    count: &mut usize,
) -> usize
    ensures { JoinsIn first.now second.now area.old target.old target.new
        area.new (record { number = result; count = count.new }) }
{
    *count = 0;
    let r = join(first, second, area, target);
    tell(r, count)
}

/// Leaves in the work area the numbers that the names and definitions of the second snapshot have in the two joined, for `kelumavor_new_name` and
/// `kelumavor_new_definition`; its crates, maps and modules follow those of the first, which keeps its numbers. Answers 0, or the number by which the
/// call is refused, with the work area as `kelumavor_find_path` leaves it: 20 a small work area, 30 to 36 and 43 the first snapshot, then the second.
#[unsafe(no_mangle)]
pub extern "C" fn kelumavor_join_numbers(first: &[u32], second: &[u32], area: &mut [u32]) -> usize
    ensures { NewNumbers first.now second.now area.old area.new result }
{
    number_of(new_numbers(first, second, area))
}

/// The number that a name of the second snapshot has in the two joined, from the area that `kelumavor_join_numbers` left.
// `name` as in `kelumavor_name`.
#[unsafe(no_mangle)]
pub extern "C" fn kelumavor_new_name(area: &[u32], name: usize) -> usize
    ensures { NewName area.now name result }
{
    new_name(area, name)
}

/// The same for a definition.
#[unsafe(no_mangle)]
pub extern "C" fn kelumavor_new_definition(area: &[u32], definition: usize) -> usize
    ensures { NewDefinition area.now definition result }
{
    new_definition(area, definition)
}

/// The number that a crate of the second snapshot has in the two joined: the first has so many, as `kelumavor_check` says.
#[unsafe(no_mangle)]
pub extern "C" fn kelumavor_new_crate(first: usize, number: usize) -> usize
    ensures { NewCrate first number result }
{
    new_crate(first, number)
}

/// The same for a map.
#[unsafe(no_mangle)]
pub extern "C" fn kelumavor_new_map(first: usize, number: usize) -> usize
    ensures { NewMap first number result }
{
    new_map(first, number)
}

/// The same for a module.
#[unsafe(no_mangle)]
pub extern "C" fn kelumavor_new_module(first: usize, number: usize) -> usize
    ensures { NewModule first number result }
{
    new_module(first, number)
}

/// Whether any path names a definition in a module, as the compiler reads paths: a second opinion on a search that found none. The question is
/// namespace, definition and module. Writes the outcome (0 a path, 1 there is none, 2 refused, 3 there are paths, each of more than sixteen
/// names), the path's kind, how many times `super`, and how many names, then the names, and for each the word at which the record begins
/// that it is read by. Answers 0, or the number by which the call is refused.
#[unsafe(no_mangle)]
pub extern "C" fn kelumavor_any_path(
    words: &[u32],
    area: &mut [u32],
    question: &[u32; 3],
    head: &mut [usize; 4],
    names: &mut [usize; 16],
    route: &mut [usize; 16],
) -> usize
    ensures { AnyIn words.now area.old question.now area.new head.new
        names.new route.new result }
{
    any_path_in(words, area, question, head, names, route)
}

/// How much of a workspace can be named from a module: viewing module, prefix, options, and the fuel and the limit of each search. Writes how many
/// items have a path of 0 to 16 names, a misleading one, none, and none with the fuel run out, and the names of all paths together. Answers 0, or
/// the number by which the call is refused, with zeros written.
#[unsafe(no_mangle)]
pub extern "C" fn kelumavor_reach(
    words: &[u32],
    area: &mut [u32],
    viewer: &[u32; Size::REACH],
    counts: &mut [usize; 21],
) -> usize
    ensures { ReachesIn words.now area.old (viewer_of viewer.now) area.new counts.new result }
{
    let reach = find_reach(words, area, viewer_of(viewer));
    tell_reach(reach, counts)
}

/// The version of what goes in and out: 65,536 times that of the format, plus the words of a report.
#[unsafe(no_mangle)]
pub extern "C" fn kelumavor_version() -> usize
    ensures { result ≡ version }
{
    65536 * Format::VERSION + ReportWords::COUNT
}
