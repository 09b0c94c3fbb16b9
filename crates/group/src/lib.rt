// A group of the record at a place of a text: read into a table (R260), its lines as a part of the text (R280), a
// characteristic (R290). Any text, place, number and table may be given (R241); they stand apart, as C lends them.
#![tactic(auto)]

ghost use Rattle.std.specs.Prelude.{◌≡◌, ◌&&◌, ◌≤◌, leb, length, MatchResult};
ghost use Rattle.place.specs.Placing.{counts_at};
ghost use Rattle.reading.specs.Read.{reading_of, table_by};
ghost use Rattle.group.specs.Characteristics.{told_by, told_of, characteristic_at};
ghost use Rattle.group.specs.Numbered.{characteristic_reply};
ghost use Rattle.group.specs.Held.{found_at, lines_told, part_start, part_end, part_at, moved};
ghost use Rattle.group.specs.Text.{read_at};

use count::Kept;
use place::Placing;
use reply::{Refusal, Reply};

// From where to where a group's lines stand in a text.
#[derive(Clone, Copy)]
pub struct Part {
    pub from: usize,
    pub to: usize,
}

// The counts of a record, and where a group's lines stand in the text.
#[derive(Clone, Copy)]
struct Held {
    counts: [u16; 80],
    part: Part,
}

// R260, R281: what every question about a group asks first: 12, and the reply of placing, if it is not 0. The group's
// lines stand where the placed record says (R259). R442 has `let .. else` here, where `?` would serve.
#[tactic(auto, using(crate::proofs::Holding::found_none, crate::proofs::Holding::found_by, crate::proofs::Holding::given_start, crate::proofs::Holding::given_end, crate::proofs::Holding::group_low, crate::proofs::Holding::group_high))]
fn held_at(rules: rules::Rules, text: &[u8], at: usize, group: usize) -> Result<Held, Refusal>
    ensures { MatchResult result
        (λ held. (found_at rules text.now at group ≡ Ok tt)
        × (held.counts ≡ counts_at rules text.now at)
        × (held.part.from ≡ part_start rules text.now at group)
        × (held.part.to ≡ part_end rules text.now at group))
        (λ why. found_at rules text.now at group ≡ Err why) }
{
    form::form_of(group).ok_or(Refusal::NoSuchNumber)?;
    let record = place::place(rules, text, at);
    let Placing::Placed(_) = record.answer else {
        return Err(place::as_checked(record.answer).unwrap_err());
    };
    Ok(Held {
        counts: record.counts,
        part: Part {
            from: record.starts[group - 1],
            to: record.ends[group - 1],
        },
    })
}

// Whether the lines of a group can be given, and from where to where they stand in the text. Both places stand beside a
// refusal too, since R283 tells them there.
#[derive(Clone, Copy)]
pub struct Lines {
    pub found: Result<(), Refusal>,
    pub from: usize,
    pub to: usize,
}

// R283: at a refusal both places are the text's start.
impl From<Result<Part, Refusal>> for Lines {
    ghost from_gives = { λ answer lines. lines ≡ lines_told answer };

    fn from(answer: Result<Part, Refusal>) -> Lines {
        match answer {
            Ok(part) => Lines {
                found: Ok(()),
                from: part.from,
                to: part.to,
            },
            Err(why) => Lines {
                found: Err(why),
                from: 0,
                to: 0,
            },
        }
    }
}

// R280: asks where the lines of a group of the record at a place stand, their line ends among them. With count 0 both
// places are where they would begin (R282), and at a refusal both are the text's start (R283).
#[tactic(auto, using(crate::proofs::Holding::missing_start, crate::proofs::Holding::missing_end))]
pub fn lines_at(rules: rules::Rules, text: &[u8], at: usize, group: usize) -> Lines
    ensures found { result.found ≡ found_at rules text.now at group }
    ensures from { result.from ≡ part_start rules text.now at group }
    ensures to { result.to ≡ part_end rules text.now at group }
{
    Lines::from(held_at(rules, text, at, group).map(|held| held.part))
}

// R280, R446: the lines, as a part of the text that was lent; no copy is made.
#[tactic(auto, using(crate::proofs::Holding::span_order, crate::proofs::Holding::span_within), unfolding(crate::specs::Held::part_at))]
pub fn lines_part<'a>(rules: rules::Rules, text: &'a [u8], at: usize, group: usize) -> &'a [u8]
    ensures bytes { result.now ≡ part_at rules text.now at group }
    ensures address { result.ref_ptr ≡ moved text.entry.ref_ptr (part_start rules text.now at group) }
{
    let lines = lines_at(rules, text, at, group);
    &text[lines.from..lines.to]
}

// R260: reads a group of the record at a place of a text into a table: first as `held_at` says, then by the record's
// counts and the group's own lines (R269). A refusal alters nothing (R267).
#[tactic(auto, using(crate::proofs::Holding::span_order, crate::proofs::Holding::span_within, crate::proofs::Holding::given_kept, crate::proofs::Texts::read_missing, crate::proofs::Texts::read_given), unfolding(crate::specs::Held::part_at))]
pub fn read_group(
    rules: rules::Rules,
    text: &[u8],
    at: usize,
    group: usize,
    table: &mut [i64],
) -> Result<usize, Refusal>
    ensures answer { result ≡ reading_of (read_at rules text.now at group (length table.old)) }
    ensures table { table.new ≡
        table_by (read_at rules text.now at group (length table.old)) table.old }
{
    let held = held_at(rules, text, at, group)?;
    let kept = Kept {
        counts: &held.counts,
    };
    let Part { from, to } = held.part;
    reading::read_kept(rules, kept, group, &text[from..to], table)
}

// ---- A characteristic.

// R290: a value in thousandths; no reading; not reported; or why group 4 was not read. R444 has all four as one enum.
#[derive(Clone, Copy)]
pub enum Characteristic {
    Value(i64),
    NoReading,
    NotReported,
    Refused(Refusal),
}

// R291, R293: what is told of a characteristic, by its number and its cell.
#[tactic(auto, using(crate::proofs::Reported::told_none, crate::proofs::Reported::told_value))]
fn told_by(number: usize, cell: i64) -> Characteristic
    ensures { result ≡ told_by number cell }
{
    if characteristic::is_no_reading(number, cell) {
        return Characteristic::NoReading;
    }
    Characteristic::Value(cell)
}

// R212: whether a characteristic has this number.
pub fn is_characteristic(number: usize) -> bool
    ensures { result ≡ leb 1 number && leb number 49 }
{
    (1..=49).contains(&number)
}

// R292: what is told of a characteristic, by the answer of reading group 4 and the cells behind it.
pub fn told_of(number: usize, answer: Result<usize, Refusal>, cells: &[i64]) -> Characteristic
    requires low { 1 ≤ number }
    requires high { number ≤ length cells.now }
    ensures { result ≡ told_of number answer cells.now }
{
    match answer {
        Ok(n) if n < number => Characteristic::NotReported,
        Ok(_) => told_by(number, cells[number - 1]),
        Err(why) => Characteristic::Refused(why),
    }
}

// R294: asks for a characteristic, 1 to 49, of the record at a place of a text. Beside it stands view's, which reads
// group 4 with a record: one function for both would take the reading as a closure, and its contract speak of what that
// reads.
#[tactic(auto, using(crate::proofs::Reported::number_outside, crate::proofs::Reported::number_low, crate::proofs::Reported::number_high, crate::proofs::Reported::four_told), unfolding(crate::specs::Characteristics::characteristic_at))]
pub fn characteristic_at(
    rules: rules::Rules,
    text: &[u8],
    at: usize,
    number: usize,
) -> Characteristic
    ensures { result ≡ characteristic_at rules text.now at number }
{
    if !is_characteristic(number) {
        return Characteristic::Refused(Refusal::NoSuchNumber);
    }
    let mut table = [0; 49];
    let answer = read_group(rules, text, at, 4, &mut table);
    told_of(number, answer, &table)
}

// ---- Replies.

// R200 to R212: the answer's number, with the numbers beside it.
impl From<Characteristic> for Reply {
    ghost from_gives = { λ answer reply. reply ≡ characteristic_reply answer };

    fn from(answer: Characteristic) -> Reply {
        match answer {
            Characteristic::Value(_) | Characteristic::NoReading | Characteristic::NotReported =>
                reply::plain(0),
            Characteristic::Refused(why) => Reply::from(why),
        }
    }
}
