//! The cases of the list, each up to a full stop: a title, an equals sign, the words, a question mark and the queries, five
//! words each. Text without an equals sign is a comment. A title is any bytes.
use crate::asked::Asked;
use crate::query::Query;
use accept::check::{Refused, check};
use accept::opened::Snapshot;
use snapshot::records::Records;
use std::io;
use streams::case_text::text::split_once;
use streams::case_text::words::read_words;

fn run_queries(rt: &impl Print, asked: &Asked, queries: &[u32]) -> io::Result<()> {
    let (queries, _) = queries.as_chunks::<5>();
    for numbers in queries {
        let query = Query::from(*numbers);
        match asked.answer(query) {
            Ok(answer) => println!(rt; "{query}: {answer}")?,
            Err(e) => println!(rt; "{query}: {e}")?,
        }
    }
    Ok(())
}

fn judge(rt: &impl Print, words: &[u32], queries: &[u32], area: &mut [u32]) -> io::Result<()> {
    match check(words, area) {
        Err(Refused { why, at }) => {
            let number = why.number();
            println!(rt; "refused {number} at {at}")
        }
        Ok(layout) => {
            let records = Records { words, layout };
            let db = Snapshot { records, area };
            run_queries(rt, &Asked { db }, queries)
        }
    }
}

// The words and queries of the cases before stay where they were read: a star that goes back by 0 reads them.
fn run_case(
    rt: &impl Print,
    case: &[u8],
    words: &mut [u32],
    queries: &mut [u32],
    area: &mut [u32],
) -> io::Result<()> {
    let Some((title, text)) = split_once(case, b'=') else {
        return Ok(());
    };
    let Some((snapshot, asked)) = split_once(text, b'?') else {
        return Ok(());
    };
    rt.write_all(title)?;
    println!(rt)?;
    let n = read_words(snapshot, words).min(words.len());
    let k = read_words(asked, queries).min(queries.len());
    judge(rt, &words[..n], &queries[..k], area)
}

/// Checks and asks each case of the list; bytes after the last full stop are none.
// A case ends with a full stop, which is none of it; `refusals::run` hands on whole lines. One of both would take the end and a closure.
pub fn run(
    rt: &impl Print,
    text: &[u8],
    words: &mut [u32],
    queries: &mut [u32],
    area: &mut [u32],
) -> io::Result<()> {
    for piece in text.split_inclusive(|b| *b == b'.') {
        if let Some(case) = piece.strip_suffix(b".") {
            run_case(rt, case, words, queries, area)?;
        }
    }
    Ok(())
}
