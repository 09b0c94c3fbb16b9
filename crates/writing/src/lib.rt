// Writing a record: counts and cells to canonical text. All is checked first, and a byte is written only when nothing
// is refused (R307). Rules, counts, cells and output stand apart, as C
// lends them, and so does the place at which a part is put.
#![tactic(auto)]

ghost use Rattle.std.specs.Prelude.{◌≡◌, ◌++◌, ℕ, map, ◌+◌, ◌*◌, ◌≤◌, T, length};
ghost use Rattle.base.specs.Every.{every};
ghost use Rattle.base.specs.Part.{over};
ghost use Rattle.base.specs.Sign.{size_of};
ghost use Rattle.form.specs.Table.{row_of};
ghost use Rattle.field.specs.Write.{is_letter};
ghost use Rattle.count.specs.Check.{checked_of};
ghost use Rattle.count.specs.Tally.{cells_before};
ghost use Rattle.date.specs.Date.{dated_of};
ghost use Rattle.writing.specs.Fitting.{many_fit, many_of, fit_of, AllFit};
ghost use Rattle.writing.specs.Text.{line_end, entries_text, index_text, line_of_many, fields_text, many_text};
ghost use Rattle.writing.specs.Text.{groups_text, record_text, many_bytes, bytes_of, record_bytes};
ghost use Rattle.writing.specs.Writing.{writing_of, output_by};

use form::{Form, Group};
use reply::Refusal;

// ---- Checking.

// The first element of a group whose cells fit no field, of all the group's cells.
#[tactic(auto, using(crate::proofs::Rows::some_cells))]
fn elements_fit(form: Form, group: usize, cells: &[i64]) -> Result<(), Refusal>
    ensures { (n : ℕ) → length cells.now ≡ n * (row_of form).cells
        → result ≡ many_fit form group n cells.now }
{
    match cells
        .chunks_exact(form::row_of(form).cells)
        .position(|element| !field::fits(form, element))
    {
        Some(e) => Err(Refusal::NoField(group, e + 1)),
        None => Ok(()),
    }
}

// R303: the first pass, over the cells of all groups in their order.
fn cells_fit(rules: rules::Rules, counts: &[u16], cells: &[i64]) -> Result<(), Refusal>
    requires { length cells.now ≡ cells_before rules counts.now 61 }
    ensures { result ≡ fit_of rules counts.now cells.now }
{
    let mut from = 0;
    for number in 1..61 {
        let form = Group { number }.form();
        let to = from + form::cells(rules, form, count::count_of(counts, number));
        elements_fit(form, number, &cells[from..to])?;
        from = to;
    }
    Ok(())
}

// R140: the date of 19 letters, which stand in cells.
fn date_of(letters: &[i64]) -> Result<date::Date, usize>
    requires many { length letters.now ≡ 19 }
    requires letters { T (every is_letter letters.now) }
    ensures { result ≡ dated_of (map size_of letters.now) }
{
    let mut text = [0; 19];
    field::put_letters(letters, &mut text, 0);
    date::Date::new(&text)
}

// ---- How long the text is.

// R110: elements times width, and two bytes for each line.
#[tactic(auto, using(crate::proofs::Lengths::bytes_few, form::proofs::Counted::lines_few), unfolding(form::specs::Count::lines_of))]
fn group_bytes(rules: rules::Rules, form: Form, count: u16) -> usize
    ensures { result ≡ bytes_of rules form count }
{
    form::elements(rules, form, count) * form::row_of(form).width
        + form::lines(rules, form, count) * 2
}

// R110: the bytes of a record's canonical text, by its counts alone: two index lines of 122 bytes, and the lines of the
// groups.
pub fn canonical_length(rules: rules::Rules, counts: &[u16]) -> usize
    ensures { result ≡ record_bytes rules counts.now }
{
    let mut total = 244;
    for number in 1..61 {
        let form = Group { number }.form();
        total += group_bytes(rules, form, count::count_of(counts, number));
    }
    total
}

// ---- Writing: each is `over`, so that two in a row are one.

// R101: a carriage return and a line feed.
fn put_line_end(out: &mut [u8], at: usize)
    requires { at + 2 ≤ length out.old }
    ensures { out.new ≡ over at line_end out.old }
{
    out[at] = b'\r';
    out[at + 1] = b'\n';
}

#[tactic(auto, using(crate::proofs::Putting::entries_start, crate::proofs::Putting::entries_end, crate::proofs::Putting::entry_room, crate::proofs::Putting::entries_next))]
fn put_entries(counts: &[u16], out: &mut [u8], at: usize)
    requires { at + length (entries_text counts.now) ≤ length out.old }
    ensures { out.new ≡ over at (entries_text counts.now) out.old }
{
    for (i, count) in counts.iter().enumerate() {
        field::put_entry(*count, out, at + i * 3);
    }
}

// R21: an index line of 40 counts.
#[tactic(auto, using(crate::proofs::Lengths::entries_length, crate::proofs::Putting::index_line_put))]
fn put_index_line(counts: &[u16], out: &mut [u8], at: usize)
    requires counts { length counts.now ≡ 40 }
    requires room { at + 122 ≤ length out.old }
    ensures { out.new ≡ over at (entries_text counts.now ++ line_end) out.old }
{
    put_entries(counts, out, at);
    put_line_end(out, at + 120);
}

// R22: both index lines, 1 to 40 and 41 to 80.
#[tactic(auto, using(crate::proofs::Putting::index_put))]
fn put_index(counts: &[u16], out: &mut [u8])
    requires counts { length counts.now ≡ 80 }
    requires room { 244 ≤ length out.old }
    ensures { out.new ≡ over 0 (index_text counts.now) out.old }
{
    put_index_line(&counts[0..40], out, 0);
    put_index_line(&counts[40..80], out, 122);
}

// The fields of a line's cells; the place behind them.
fn put_fields(form: Form, row: form::Row, cells: &[i64], out: &mut [u8], at: usize) -> usize
    requires row { row ≡ row_of form }
    requires fit { AllFit form cells.now }
    requires room { at + many_of form cells.now * (row_of form).width ≤ length out.old }
    ensures answer { result ≡ at + many_of form cells.now * (row_of form).width }
    ensures output { out.new ≡
        over at (fields_text form (line_of_many (many_of form cells.now)) cells.now) out.old }
{
    let mut a = at;
    for element in cells.chunks_exact(row.cells) {
        field::put(form, element, out, a);
        a += row.width;
    }
    a
}

// R44, R102: the lines of a group's cells; the place behind them.
fn put_lines(form: Form, cells: &[i64], out: &mut [u8], at: usize) -> usize
    requires fit { AllFit form cells.now }
    requires room { at + many_bytes form (many_of form cells.now) ≤ length out.old }
    ensures answer { result ≡ at + many_bytes form (many_of form cells.now) }
    ensures output { out.new ≡
        over at (many_text form (many_of form cells.now) cells.now) out.old }
{
    let row = form::row_of(form);
    let mut a = at;
    for line in cells.chunks(row.per_line * row.cells) {
        a = put_fields(form, row, line, out, a);
        put_line_end(out, a);
        a += 2;
    }
    a
}

// The second pass, a loop of its own, since all cells are checked before a byte is written (R307): the lines of all
// groups (R20).
fn put_groups(rules: rules::Rules, counts: &[u16], cells: &[i64], out: &mut [u8], at: usize)
    requires cells { length cells.now ≡ cells_before rules counts.now 61 }
    requires fits { fit_of rules counts.now cells.now ≡ Ok tt }
    requires room { at + length (groups_text rules counts.now cells.now) ≤ length out.old }
    ensures { out.new ≡
        over at (groups_text rules counts.now cells.now) out.old }
{
    let mut from = 0;
    let mut a = at;
    for number in 1..61 {
        let form = Group { number }.form();
        let to = from + form::cells(rules, form, count::count_of(counts, number));
        a = put_lines(form, &cells[from..to], out, a);
        from = to;
    }
}

// ---- Writing a record.

// The canonical text of counts and cells to the front of an output that has room for it. Nothing is checked: this is
// for cells that are known to fit, as those that were read are.
#[tactic(auto, using(crate::proofs::Steps::all_needed, crate::proofs::Steps::all_there, crate::proofs::Steps::index_room, crate::proofs::Steps::groups_room, crate::proofs::Steps::index_groups))]
pub fn put_record(rules: rules::Rules, counts: &[u16], cells: &[i64], out: &mut [u8])
    requires checked { checked_of rules counts.now (length cells.now) ≡ Ok tt }
    requires fits { fit_of rules counts.now cells.now ≡ Ok tt }
    requires room { record_bytes rules counts.now ≤ length out.old }
    ensures { out.new ≡
        over 0 (record_text rules counts.now cells.now) out.old }
{
    put_index(counts, out);
    put_groups(rules, counts, cells, out, 244);
}

// R300 to R307: writes the canonical text of counts and of the cells of all groups to the front of the output, and
// answers 0 with its length; or answers the first of 4, 5, 6, 7, 14 (R302), 13 (R303), 10 (R304, of the letters of
// group 3, which R123 gives 19 at least) and 11 (R305) that is due, and alters no byte. What stands behind the text
// stays.
#[tactic(auto, using(crate::proofs::Steps::all_needed, crate::proofs::Letters::date_inside, crate::proofs::Letters::date_letters_lem, crate::proofs::Letters::date_same), unfolding(crate::specs::Writing::writing_of))]
pub fn write_record(
    rules: rules::Rules,
    counts: &[u16],
    cells: &[i64],
    out: &mut [u8],
) -> Result<usize, Refusal>
    ensures answer { result ≡
        writing_of rules counts.now cells.now (length out.old) }
    ensures output { out.new ≡
        output_by rules counts.now cells.now result out.old }
{
    count::check(rules, counts, cells.len())?;
    cells_fit(rules, counts, cells)?;
    let from = count::add_up(rules, counts, 3).cells;
    date_of(&cells[from..from + 19]).map_err(Refusal::BadDate)?;
    let length = canonical_length(rules, counts);
    if out.len() < length {
        return Err(Refusal::NoRoom);
    }
    put_record(rules, counts, cells, out);
    Ok(length)
}
