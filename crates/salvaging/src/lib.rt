// Getting past a ruined index: where a walk that has stopped may go on, and the pieces of a text (R350 to R353). Any
// text and place may be asked about (R241); they stand apart, as C lends them.
#![tactic(auto)]

ghost use Rattle.std.specs.Prelude.{◌≡◌, ◌<◌, ◌≤◌, length};
ghost use Rattle.place.specs.Placing.{carried};
ghost use Rattle.whole.specs.Whole.{group_by};
ghost use Rattle.salvaging.specs.Numbered.{stretch_reply};
ghost use Rattle.salvaging.specs.Pieces.{piece_at};
ghost use Rattle.salvaging.specs.Stretch.{is_read, are_read, is_sound, stretch_end, stretch_of};

use form::Group;
use place::{PlacedRecord, Placing};
use reply::{Refusal, Reply};

// R353: a piece of a text, with its place and its length. Either kind is a good one, so it is no `Result`.
#[derive(Clone, Copy)]
pub enum Piece {
    // a placed record, which is copied as it stands
    Copied(usize, usize),
    // a stretch
    LeftOut(usize, usize),
}

// Whether a group of a record reads with 0, by the lines that the record names for it. No table is asked for.
fn is_read(rules: rules::Rules, placed: PlacedRecord<'_>, group: Group) -> bool
    ensures { result ≡
        is_read
        (group_by rules placed.entry.text.now (carried placed.entry.counts.now placed.entry.starts.now placed.entry.ends.now)
        group.number) }
{
    reading::check_kept(rules, placed.kept(), group, placed.lines(group)).is_ok()
}

// R351: the same of the three groups that are looked at, one after the other.
fn are_read(rules: rules::Rules, placed: PlacedRecord<'_>) -> bool
    ensures { result ≡
        are_read rules placed.entry.text.now (carried placed.entry.counts.now placed.entry.starts.now placed.entry.ends.now) }
{
    is_read(rules, placed, Group { number: 1 })
        && (is_read(rules, placed, Group { number: 3 })
            && is_read(rules, placed, Group { number: 4 }))
}

// R351: whether the record at a place is worth going on from. Where the two index lines are not right, nothing behind
// them is looked at.
fn is_sound(rules: rules::Rules, text: &[u8], at: usize) -> bool
    ensures { result ≡ is_sound rules text.now at }
{
    let record = place::place(rules, text, at);
    match record.answer {
        Placing::Placed(_) => are_read(
            rules,
            PlacedRecord {
                text,
                counts: &record.counts,
                starts: &record.starts,
                ends: &record.ends,
            },
        ),
        _ => false,
    }
}

// R350: the line starts behind a place are tried one after the other, each once. There is no record at the text's end,
// nor any behind bytes that are no line. The next place is told by the line that stands there, so no range counts it.
fn end_from(rules: rules::Rules, text: &[u8], from: usize) -> usize
    requires { from < length text.now }
    ensures { result ≡ stretch_end rules text.now from }
{
    let mut at = from;
    while at < text.len() {
        at = line::behind_line(text, at);
        if is_sound(rules, text, at) {
            return at;
        }
    }
    at
}

// R352: asks where the stretch ends that begins at a place of a text: at the first later line start from which the walk
// may go on, or at the text's end.
pub fn stretch_end(rules: rules::Rules, text: &[u8], at: usize) -> Result<usize, Refusal>
    ensures { result ≡ stretch_of rules text.now at }
{
    if text.len() < at {
        return Err(Refusal::Beyond);
    }
    if text.len() == at {
        return Err(Refusal::End);
    }
    Ok(end_from(rules, text, at))
}

// R353: the piece that begins at a place inside a text: a record that is placed, with 0 or 7; elsewhere a stretch.
pub fn piece_at(rules: rules::Rules, text: &[u8], at: usize) -> Piece
    requires { at < length text.now }
    ensures { result ≡ piece_at rules text.now at }
{
    match place::place(rules, text, at).answer {
        Placing::Placed(next) => Piece::Copied(at, next - at),
        // R353: it is placed, so it is copied as it stands
        Placing::BrokenRule(_, next) => Piece::Copied(at, next - at),
        Placing::Refused(_) => {
            let end = end_from(rules, text, at);
            Piece::LeftOut(at, end - at)
        }
    }
}

// R352: the answer's number, with the numbers beside it: a next place under 0, where `From` gives what was written.
pub fn reply_of(answer: Result<usize, Refusal>) -> Reply
    ensures { result ≡ stretch_reply answer }
{
    match answer {
        Ok(place) => reply::at_next(0, place, 0),
        Err(why) => Reply::from(why),
    }
}
