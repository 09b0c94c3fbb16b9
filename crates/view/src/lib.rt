// R285 to R289: questions asked with a record, which says where the lines of its groups stand: whichever record and
// whichever text (R241). The part that it names for the group is looked at first, and is refused with 22 if it is not
// exactly as many whole lines of the text as the group's count needs. What is lent stands apart, as C lends it (R366).
// Beside `group`'s questions, which find the lines by placing: each contract speaks of its own way.
#![tactic(auto)]

ghost use Rattle.std.specs.Prelude.{◌≡◌, length, MatchResult};
ghost use Rattle.reading.specs.Read.{reading_of, table_by};
ghost use Rattle.place.specs.Placing.{carried, carried_by};
ghost use Rattle.group.specs.Held.{moved};
ghost use Rattle.view.specs.With.{found_with, start_with, end_with, part_with, read_with, characteristic_with};

use count::Kept;
use group::{Characteristic, Lines, Part};
use place::Record;
use reply::Refusal;

// R285: what every question asks first: 12; 4 to 7 by the counts; 22 (R286). A record that does not say where a group's
// lines begin or end says 0 (R243).
#[tactic(auto, using(crate::proofs::Found::found_none))]
fn find(
    rules: rules::Rules,
    text: &[u8],
    counts: &[u16],
    starts: &[usize],
    ends: &[usize],
    group: usize,
) -> Result<Part, Refusal>
    ensures { MatchResult result
        (λ part. (found_with rules text.now (carried counts.now starts.now ends.now) group ≡ Ok tt)
        × (part.from ≡ start_with rules text.now (carried counts.now starts.now ends.now) group)
        × (part.to ≡ end_with rules text.now (carried counts.now starts.now ends.now) group))
        (λ why. found_with rules text.now (carried counts.now starts.now ends.now) group ≡ Err why) }
{
    let form = form::form_of(group).ok_or(Refusal::NoSuchNumber)?;
    count::check_counts(counts)?;
    let from = count::at_number(starts, group, 0);
    let to = count::at_number(ends, group, 0);
    let lines = form::lines(rules, form, count::count_of(counts, group));
    if !line::are_lines(text, from, to, lines) {
        return Err(Refusal::BadPart);
    }
    Ok(Part { from, to })
}

// R285: asks where the lines of a group stand by a record's counts, starts and ends. At a refusal both places are the
// text's start (R283). R447 has these questions on plain slices, and the C interface lends the three apart.
#[tactic(auto, using(crate::proofs::Found::missing_start, crate::proofs::Found::missing_end))]
pub fn lines_with(
    rules: rules::Rules,
    text: &[u8],
    counts: &[u16],
    starts: &[usize],
    ends: &[usize],
    group: usize,
) -> Lines
    ensures found { result.found ≡
        found_with rules text.now (carried counts.now starts.now ends.now)
        group }
    ensures from { result.from ≡
        start_with rules text.now (carried counts.now starts.now ends.now)
        group }
    ensures to { result.to ≡
        end_with rules text.now (carried counts.now starts.now ends.now)
        group }
{
    Lines::from(find(rules, text, counts, starts, ends, group))
}

// R285, R287: reads a group into a table: first as `find` says, then by the counts and these lines alone. A refusal
// alters nothing (R267).
#[tactic(auto, using(crate::proofs::Due::with_order, crate::proofs::Due::with_within, crate::proofs::Due::found_kept, crate::proofs::Found::with_missing, crate::proofs::Found::with_given), unfolding(crate::specs::With::part_with))]
pub fn read_with(
    rules: rules::Rules,
    text: &[u8],
    counts: &[u16],
    starts: &[usize],
    ends: &[usize],
    group: usize,
    table: &mut [i64],
) -> Result<usize, Refusal>
    ensures answer { result ≡
        reading_of (read_with rules text.now (carried counts.now starts.now
        ends.now) group (length table.old)) }
    ensures table { table.new ≡
        table_by (read_with rules text.now (carried counts.now starts.now
        ends.now) group (length table.old)) table.old }
{
    let part = find(rules, text, counts, starts, ends, group)?;
    let kept = Kept { counts };
    reading::read_kept(rules, kept, group, &text[part.from..part.to], table)
}

// R297: asks for a characteristic, 1 to 49: 12; what group 4 is refused with; then by its cell.
#[tactic(auto, using(group::proofs::Reported::number_outside, group::proofs::Reported::number_low, group::proofs::Reported::number_high, group::proofs::Reported::four_told), unfolding(crate::specs::With::characteristic_with))]
pub fn characteristic_with(
    rules: rules::Rules,
    text: &[u8],
    counts: &[u16],
    starts: &[usize],
    ends: &[usize],
    number: usize,
) -> Characteristic
    ensures { result ≡
        characteristic_with rules text.now
        (carried counts.now starts.now ends.now) number }
{
    if !group::is_characteristic(number) {
        return Characteristic::Refused(Refusal::NoSuchNumber);
    }
    let mut table = [0; 49];
    let answer = read_with(rules, text, counts, starts, ends, 4, &mut table);
    group::told_of(number, answer, &table)
}

// ---- The same with a record as placing gives it: beside those above, since C lends the three apart (R366) and sao has
// them in a record (R285).

// R285: asks where the lines of a group stand.
pub fn lines_by(rules: rules::Rules, text: &[u8], lent: Record, group: usize) -> Lines
    ensures found { result.found ≡ found_with rules text.now (carried_by lent) group }
    ensures from { result.from ≡ start_with rules text.now (carried_by lent) group }
    ensures to { result.to ≡ end_with rules text.now (carried_by lent) group }
{
    lines_with(rules, text, &lent.counts, &lent.starts, &lent.ends, group)
}

// R285, R446: the lines, as a part of the text that was lent; no copy is made.
#[tactic(auto, using(crate::proofs::Due::with_order, crate::proofs::Due::with_within), unfolding(crate::specs::With::part_with))]
pub fn part_by<'a>(rules: rules::Rules, text: &'a [u8], lent: Record, group: usize) -> &'a [u8]
    ensures bytes { result.now ≡ part_with rules text.now (carried_by lent) group }
    ensures address { result.ref_ptr ≡
        moved text.entry.ref_ptr (start_with rules text.now (carried_by lent) group) }
{
    let lines = lines_by(rules, text, lent, group);
    &text[lines.from..lines.to]
}

// R285: reads a group into a table.
pub fn read_by(
    rules: rules::Rules,
    text: &[u8],
    lent: Record,
    group: usize,
    table: &mut [i64],
) -> Result<usize, Refusal>
    ensures answer { result ≡
        reading_of (read_with rules text.now (carried_by lent) group (length table.old)) }
    ensures table { table.new ≡
        table_by (read_with rules text.now (carried_by lent) group (length table.old))
        table.old }
{
    read_with(
        rules,
        text,
        &lent.counts,
        &lent.starts,
        &lent.ends,
        group,
        table,
    )
}

// R297: asks for a characteristic, 1 to 49.
pub fn characteristic_by(
    rules: rules::Rules,
    text: &[u8],
    lent: Record,
    number: usize,
) -> Characteristic
    ensures { result ≡ characteristic_with rules text.now (carried_by lent) number }
{
    characteristic_with(rules, text, &lent.counts, &lent.starts, &lent.ends, number)
}

// ---- The same with a text and a record kept together: functions of their own, as R447 has them.

// R289, R447: a text, and a record that was placed in it, or any other.
#[derive(Clone, Copy)]
pub struct View<'a> {
    pub text: &'a [u8],
    pub record: Record,
}

// R289, R446: the lines of a group, as a part of the text that was lent.
pub fn part_of<'a>(rules: rules::Rules, view: View<'a>, group: usize) -> &'a [u8]
    ensures bytes { result.now ≡
        part_with rules view.entry.text.now (carried_by view.entry.record) group }
    ensures address { result.ref_ptr ≡ moved view.entry.text.ref_ptr
        (start_with rules view.entry.text.now (carried_by view.entry.record) group) }
{
    part_by(rules, view.text, view.record, group)
}

// R289: where the lines of a group stand.
pub fn lines_of<'a>(rules: rules::Rules, view: View<'a>, group: usize) -> Lines
    ensures found { result.found ≡
        found_with rules view.entry.text.now (carried_by view.entry.record) group }
    ensures from { result.from ≡
        start_with rules view.entry.text.now (carried_by view.entry.record) group }
    ensures to { result.to ≡
        end_with rules view.entry.text.now (carried_by view.entry.record) group }
{
    lines_by(rules, view.text, view.record, group)
}

// R289, R297: a characteristic, 1 to 49.
pub fn characteristic_of<'a>(rules: rules::Rules, view: View<'a>, number: usize) -> Characteristic
    ensures { result ≡
        characteristic_with rules view.entry.text.now (carried_by view.entry.record) number }
{
    characteristic_by(rules, view.text, view.record, number)
}

// R289, R447: the two together; nothing is asked of the record.
pub fn view_of<'a>(text: &'a [u8], lent: Record) -> View<'a>
    ensures { (result.text ≡ text.entry) × (result.record ≡ lent) }
{
    View { text, record: lent }
}

// R289: the record's counts, as they stand.
pub fn counts_of<'a>(view: View<'a>) -> [u16; 80]
    ensures { result ≡ view.entry.record.counts }
{
    view.record.counts
}
