// R330, the first record from a given date on: the walk, in the text's order, up to the first record whose date is at
// or after the one that is asked for. Of the groups of each record on the way only group 3 is read; no table is lent.
// Any text and any seven numbers may be given (R241).
#![tactic(auto)]

ghost use Rattle.std.specs.Prelude.{◌≡◌};
ghost use Rattle.place.specs.Placing.{carried};
ghost use Rattle.since.specs.Numbered.{first_reply, place_told, passed_told};
ghost use Rattle.since.specs.Since.{meets, first_from, first_dated};
ghost use Rattle.since.specs.Steps.{date_by, step_at};

use date::Date;
use form::Group;
use place::{PlacedRecord, Placing};
use reply::{Refusal, Reply};

// R200, R334: the record that was found: its place, and how many records were passed.
#[derive(Clone, Copy)]
pub struct Found {
    pub place: usize,
    pub passed: usize,
}

// R334: how many records were passed, and what is refused with.
#[derive(Clone, Copy)]
pub struct Unfound {
    pub passed: usize,
    pub why: Refusal,
}

// What the walk meets at a place, one of three: a `Result` of an `Option` would tell a record that is found from one
// that is passed by `None` and `Some`, and be no plainer.
#[derive(Clone, Copy)]
enum Step {
    // a record that is at or after the date
    Found,
    // another record, with its next place
    Passed(usize),
    // no record
    Stopped(Refusal),
}

// R333: the date of a record, by what it carries.
fn date_by(rules: rules::Rules, placed: PlacedRecord<'_>) -> Option<Date>
    ensures { result ≡ date_by rules placed.entry.text.now (carried placed.entry.counts.now placed.entry.starts.now placed.entry.ends.now) }
{
    reading::date_kept(rules, placed.kept(), placed.lines(Group { number: 3 }))
}

// R332: whether a record is at or after a date. One without a date is not.
fn meets(told: Option<Date>, from: Date) -> bool
    ensures { result ≡ meets from told }
{
    told.is_some_and(|date| date.at_or_after(from))
}

// A step of the walk. A record that answers 7 has no date, so it is passed (R333).
#[tactic(auto, using(std::proofs::lemmas::Grind::common_steps, crate::proofs::Steps::steps))]
fn step_at(rules: rules::Rules, text: &[u8], at: usize, from: Date) -> Step
    ensures { result ≡ step_at rules text.now at from }
{
    let record = place::place(rules, text, at);
    match record.answer {
        Placing::Refused(why) => Step::Stopped(why),
        Placing::BrokenRule(_, next) => Step::Passed(next),
        Placing::Placed(next) => {
            let placed = PlacedRecord {
                text,
                counts: &record.counts,
                starts: &record.starts,
                ends: &record.ends,
            };
            if meets(date_by(rules, placed), from) {
                return Step::Found;
            }
            Step::Passed(next)
        }
    }
}

// R334, R335: the walk up to the first record that is at or after a right date. A text has fewer records than bytes, so
// the loop ends by itself.
#[tactic(auto, using(place::proofs::Counted::records_bytes))]
fn search(rules: rules::Rules, text: &[u8], from: Date) -> Result<Found, Unfound>
    ensures { result ≡ first_dated rules text.now from }
{
    let mut at = 0;
    for passed in 0..usize::MAX {
        match step_at(rules, text, at, from) {
            Step::Found => return Ok(Found { place: at, passed }),
            Step::Stopped(why) => return Err(Unfound { passed, why }),
            Step::Passed(next) => at = next,
        }
    }
    unreachable!()
}

// R330, R334: 10 before the text is looked at; then the record, or where there is none, the reply at which the walk
// stopped.
#[tactic(auto, unfolding(crate::specs::Since::first_from))]
pub fn first_from(rules: rules::Rules, text: &[u8], from: Date) -> Result<Found, Unfound>
    ensures { result ≡ first_from rules text.now from }
{
    let date = from.check().map_err(|position| Unfound {
        passed: 0,
        why: Refusal::BadDate(position),
    })?;
    search(rules, text, date)
}

// ---- Replies.

// R334: the answer's number, with the numbers beside it; place and records passed are told apart. Neither `Result` nor
// `Reply` is of this crate, so no `From` may be written here.
pub fn reply_of(answer: Result<Found, Unfound>) -> Reply
    ensures { result ≡ first_reply answer }
{
    match answer {
        Ok(_) => reply::plain(0),
        Err(unfound) => Reply::from(unfound.why),
    }
}

// R335: the place of the record that was found; 0 where none was.
pub fn place_of(answer: Result<Found, Unfound>) -> usize
    ensures { result ≡ place_told answer }
{
    answer.map_or(0, |found| found.place)
}

// R335: how many records were passed; both apart from the reply, as C has them.
pub fn passed_of(answer: Result<Found, Unfound>) -> usize
    ensures { result ≡ passed_told answer }
{
    match answer {
        Ok(found) => found.passed,
        Err(unfound) => unfound.passed,
    }
}
