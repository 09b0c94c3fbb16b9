// Records in a text: placing one at a place. Rules, text and place stand apart, as C lends them.
#![tactic(auto)]

ghost use Rattle.std.specs.Prelude.{◌≡◌, ◌+◌, ◌++◌, ◌≤◌, length, drop, replicate};
ghost use Rattle.form.specs.Table.{form_of};
ghost use Rattle.line.specs.Lines.{reach};
ghost use Rattle.line.specs.Places.{behind_at};
ghost use Rattle.count.specs.Tally.{lines_by};
ghost use Rattle.place.specs.Index.{indexed, read_entries, read_index_line};
ghost use Rattle.place.specs.Parted.{Parted, lines_named};
ghost use Rattle.place.specs.Numbered.{placing_reply, as_checked, is_placed};
ghost use Rattle.place.specs.Placing.{carried, locate, placing_of, counts_at, starts_at, ends_at, ruled_at};
ghost use Rattle.place.specs.Placing.{Answered, locate_lines_from, locate_from};

use count::Kept;
use form::Group;
use reply::{Refusal, Reply};

// R200 to R207: what placing answers. A record whose counts break a rule is placed all the same (R253), so 7 is neither
// a refusal nor as 0, and this is no `Result`.
#[derive(Clone, Copy)]
pub enum Placing {
    // 0, with the next place
    Placed(usize),
    // 7, with the blamed group and the next place
    BrokenRule(usize, usize),
    // 1 to 6
    Refused(Refusal),
}

// R253, R259: the answer, with the 80 counts of a record that is placed (0 or 7), and from where to where the lines of
// each of its 60 groups stand in the text; else zeros, which R259 tells of a refusal too. Starts and ends are two
// arrays, since C has them so (R366).
#[derive(Clone, Copy)]
pub struct Record {
    pub answer: Placing,
    pub counts: [u16; 80],
    pub starts: [usize; 60],
    pub ends: [usize; 60],
}

// R21, R23: the counts of the 40 entries of an index line's content, if each is well formed.
#[tactic(auto, using(crate::proofs::Entries::storing_none, crate::proofs::Entries::storing_more))]
fn read_entries(content: &[u8]) -> Option<[u16; 40]>
    requires { length content.now ≡ 120 }
    ensures { indexed result ≡ read_entries 40 content.now }
{
    let mut counts = [0; 40];
    for (k, entry) in content.as_chunks::<3>().0.iter().enumerate() {
        counts[k] = field::read_entry(entry)?;
    }
    Some(counts)
}

// R204: an index line's counts, if the line and its entries are well formed.
#[tactic(auto, using(crate::proofs::Steps::line_no_return, crate::proofs::Steps::line_other_length, crate::proofs::Steps::line_entries))]
fn read_index_line(rules: rules::Rules, line: &[u8]) -> Option<[u16; 40]>
    ensures { indexed result ≡ read_index_line rules line.now }
{
    let n = line::content_length(rules, line)?;
    if n != 120 {
        return None;
    }
    read_entries(&line[..n])
}

// R22: the counts of both index lines.
fn joined(first: [u16; 40], second: [u16; 40]) -> [u16; 80]
    ensures { result ≡ first ++ second }
{
    let mut counts = [0; 80];
    let (front, back) = counts.split_at_mut(40);
    front.copy_from_slice(&first);
    back.copy_from_slice(&second);
    counts
}

// R43: the place behind a group's lines. Most groups of a record have the count 0, and nothing is looked up or called
// for them.
#[tactic(auto, using(count::proofs::Tallied::no_lines, line::proofs::Places::behind_at_none))]
fn behind_group(
    rules: rules::Rules,
    text: &[u8],
    at: usize,
    group: Group,
    count: u16,
) -> Option<usize>
    ensures { result ≡ behind_at text.now at (lines_by rules (form_of group.number) count) }
{
    if count == 0 {
        return Some(at);
    }
    let lines = form::lines(rules, group.form(), count);
    line::place_behind(text, at, lines)
}

// R200, R207: counts that break a rule have a next place all the same.
fn ruled_at(next: usize, ruling: Option<usize>) -> Placing
    ensures { result ≡ ruled_at next ruling }
{
    match ruling {
        None => Placing::Placed(next),
        Some(group) => Placing::BrokenRule(group, next),
    }
}

// R203, R207, R259: a record of release 5 whose data lines begin at a place: the lines of one group after the other,
// then the rules on counts. Counts, starts and ends stand under one number, so the range counts it: three iterators
// side by side would be no plainer.
fn with_lines(
    rules: rules::Rules,
    text: &[u8],
    from: usize,
    counts: [u16; 80],
) -> Result<Record, Refusal>
    ensures { Answered rules text.now from
        (locate_lines_from rules text.now from counts) result }
{
    let mut starts = [0; 60];
    let mut ends = [0; 60];
    let mut at = from;
    for k in 0..60 {
        let group = Group { number: k + 1 };
        let next = behind_group(rules, text, at, group, counts[k]).ok_or(Refusal::TooFewLines)?;
        starts[k] = at;
        ends[k] = next;
        at = next;
    }
    let answer = ruled_at(at, count::ruling_of(&counts));
    Ok(Record {
        answer,
        counts,
        starts,
        ends,
    })
}

// R205, R206: a record whose data lines begin at a place: the release and the vacant groups first.
#[tactic(auto, using(crate::proofs::Steps::with_release, crate::proofs::Steps::without_release))]
fn with_counts(
    rules: rules::Rules,
    text: &[u8],
    from: usize,
    counts: [u16; 80],
) -> Result<Record, Refusal>
    ensures { Answered rules text.now from (locate_from rules text.now from counts) result }
{
    count::release_of(&counts)?;
    with_lines(rules, text, from, counts)
}

// R251: the record at a place of a text, or what is refused, in placing's order.
#[tactic(auto, using(crate::proofs::Steps::locate_beyond, crate::proofs::Steps::locate_end, crate::proofs::Steps::first_few, crate::proofs::Steps::second_few, crate::proofs::Steps::first_misformed, crate::proofs::Steps::second_misformed, line::proofs::Places::at_range))]
fn find(rules: rules::Rules, text: &[u8], at: usize) -> Result<Record, Refusal>
    ensures { Answered rules text.now (at + reach (drop at text.now) 2)
        (locate rules text.now at) result }
{
    if text.len() < at {
        return Err(Refusal::Beyond);
    }
    if text.len() == at {
        return Err(Refusal::End);
    }
    let second = line::place_behind(text, at, 1).ok_or(Refusal::TooFewLines)?;
    let end = line::place_behind(text, second, 1).ok_or(Refusal::TooFewLines)?;
    let first = read_index_line(rules, &text[at..second]).ok_or(Refusal::Misformed)?;
    let last = read_index_line(rules, &text[second..end]).ok_or(Refusal::Misformed)?;
    with_counts(rules, text, end, joined(first, last))
}

// The record where nothing is placed.
fn nothing(why: Refusal) -> Record
    ensures answer { result.answer ≡ Placing.Refused why }
    ensures counts { result.counts ≡ replicate 80 0 }
    ensures starts { result.starts ≡ replicate 60 0 }
    ensures ends { result.ends ≡ replicate 60 0 }
{
    Record {
        answer: Placing::Refused(why),
        counts: [0; 80],
        starts: [0; 60],
        ends: [0; 60],
    }
}

// R250: the record at a place of a text; where none is, zeros beside what is refused. By `unwrap_or_else(nothing)` the
// check learns nothing of what `nothing` gives: tried.
pub fn place(rules: rules::Rules, text: &[u8], at: usize) -> Record
    ensures answer { result.answer ≡ placing_of rules text.now at }
    ensures counts { result.counts ≡ counts_at rules text.now at }
    ensures starts { result.starts ≡ starts_at rules text.now at }
    ensures ends { result.ends ≡ ends_at rules text.now at }
{
    match find(rules, text, at) {
        Ok(record) => record,
        Err(why) => nothing(why),
    }
}

// A record's counts, starts and ends, each as it is lent (R366), and a text: the counts keep the rules on counts
// (R261), and what they name for each group is a part of the text (R259). So it is of every record that was placed in
// it with 0. It is built by its parts where placing answered 0, which proves it, and clauses name the parts, to tell
// which is lent.
#[derive(Clone, Copy)]
pub struct PlacedRecord<'a> {
    pub text: &'a [u8],
    pub counts: &'a [u16],
    pub starts: &'a [usize],
    pub ends: &'a [usize],
    ghost parted: { Parted text.now (carried counts.now starts.now ends.now) },
}

impl<'a> PlacedRecord<'a> {
    // R259: the lines of a group, as a part of the text; no copy is made.
    pub fn lines(self, group: Group) -> &'a [u8]
        ensures { result.now ≡
            lines_named self.entry.text.now (carried self.entry.counts.now self.entry.starts.now self.entry.ends.now) group.number }
    {
        let from = self.starts[group.number - 1];
        let to = self.ends[group.number - 1];
        &self.text[from..to]
    }

    // R261: its counts.
    pub fn kept(self) -> Kept<'a>
        ensures { result.counts.now ≡ self.entry.counts.now }
    {
        Kept {
            counts: self.counts,
        }
    }
}

// R200 to R207: the answer's number, with the next place and the group beside it.
impl From<Placing> for Reply {
    ghost from_gives = { λ answer reply. reply ≡ placing_reply answer };

    fn from(answer: Placing) -> Reply {
        match answer {
            Placing::Placed(next) => reply::at_next(0, next, 0),
            Placing::BrokenRule(group, next) => reply::at_next(7, next, group),
            Placing::Refused(why) => Reply::from(why),
        }
    }
}

// R235: the answer as that of a question that goes no further: 7 has no next place there. A conversion that loses
// something has a name, and is no `From`.
pub fn as_checked(answer: Placing) -> Result<(), Refusal>
    ensures { result ≡ as_checked answer }
{
    match answer {
        Placing::Placed(_) => Ok(()),
        Placing::BrokenRule(group, _) => Err(Refusal::BrokenRule(group)),
        Placing::Refused(why) => Err(why),
    }
}

// R253: whether a reply of this number places a record. It is asked of a number, as its contract has it
// (`placed_test`).
pub fn is_placed(number: u32) -> bool
    ensures { result ≡ is_placed number }
{
    matches!(number, 0 | 7)
}
