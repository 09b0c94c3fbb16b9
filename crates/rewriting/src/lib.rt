// R320, rewriting: the record at a place of a text, read whole and written as canonical text, over a lent table. Any
// text, place, table and output may be given (R241).
#![tactic(auto)]

ghost use Rattle.std.specs.Prelude.{◌≡◌, length};
ghost use Rattle.rewriting.specs.Numbered.{rewriting_reply};
ghost use Rattle.rewriting.specs.Record.{rewriting_of, buffer_by, table_after};

use place::PlacedRecord;
use reply::{Refusal, Reply};
use whole::Unread;

// R200, R321: what was rewritten: the bytes that were written and the next place.
#[derive(Clone, Copy, Debug, PartialEq, Eq)]
pub struct Rewritten {
    pub bytes: usize,
    pub next: usize,
}

// ---- Rewriting a record.

// Rewrites the record at a place of a text into an output, over a table. R321: what placing refuses with, 7 without its
// next place (R235); 11 if output or table is too short (R322); what the first group that is refused is refused with,
// and which group that is (R323); else 0 with the bytes that were written and the next place. A refusal leaves the
// whole output (R325) and the whole table (R326) as they were.
pub fn rewrite_record(
    rules: rules::Rules,
    text: &[u8],
    at: usize,
    table: &mut [i64],
    out: &mut [u8],
) -> Result<Rewritten, Unread>
    ensures answer { result ≡
        rewriting_of rules text.now at (length table.old) (length out.old) }
    ensures table { table.new ≡ table_after rules text.now at result table.old }
    ensures output { out.new ≡ buffer_by rules text.now at result out.old }
{
    let record = place::place(rules, text, at);
    place::as_checked(record.answer)?;
    let bytes = writing::canonical_length(rules, &record.counts);
    if out.len() < bytes {
        return Err(Unread::from(Refusal::NoRoom));
    }
    let placed = PlacedRecord {
        text,
        counts: &record.counts,
        starts: &record.starts,
        ends: &record.ends,
    };
    let cells = whole::read_placed(rules, placed, table)?;
    writing::put_record(rules, &record.counts, &table[..cells], out);
    let next = Reply::from(record.answer).next;
    Ok(Rewritten { bytes, next })
}

// ---- Replies.

// R200 to R211: the answer's number, with the numbers beside it. Neither `Result` nor `Reply` is of this crate, so no
// `From` may be written here.
pub fn reply_of(answer: Result<Rewritten, Unread>) -> Reply
    ensures { result ≡ rewriting_reply answer }
{
    match answer {
        Ok(rewritten) => reply::written(rewritten.next, rewritten.bytes),
        Err(unread) => Reply::from(unread.why),
    }
}
