// Reading the lines of a group under its record's counts. The lines are checked first, and the table is filled only
// when all of them are clean (R267). The text that they come from is not known here (R269).
#![tactic(auto)]

ghost use Rattle.std.specs.Prelude.{◌≡◌, Some, map, ◌+◌, ◌*◌, ◌^◌, ◌<◌, ◌≤◌, pos, length, drop};
ghost use Rattle.std.proofs.Math.Bool as Bool;
ghost use Rattle.base.specs.Every.{every};
ghost use Rattle.base.specs.Part.{part, over};
ghost use Rattle.base.specs.Pieces.{cells_got};
ghost use Rattle.form.specs.Table.{row_of, form_of};
ghost use Rattle.form.specs.Count.{cells_of};
ghost use Rattle.field.specs.Read.{field_of, formed};
ghost use Rattle.run.specs.Run.{run_cells};
ghost use Rattle.count.specs.Tally.{cells_in};
ghost use Rattle.line.specs.Lines.{reach};
ghost use Rattle.reading.specs.Blanks.{blank, may_be_short, shortest, filled_to, is_right, as_field};
ghost use Rattle.reading.specs.Blanks.{is_formed_at, all_formed, FormedBelow, fields_span, HoldsLetters};
ghost use Rattle.reading.specs.Blanks.{ToPut, right_content};
ghost use Rattle.reading.specs.Plan.{line_behind};
ghost use Rattle.reading.specs.Read.{verdict_of, misfit_of, read_line, line_passed, read_lines, dated, read_form, read_group, reading_of};
ghost use Rattle.reading.specs.Read.{table_by, letters_dated, date_told};

use count::Kept;
use form::{Form, Group, Row};
use reply::Refusal;

// ---- What a line holds. Rules, shortness and columns stand apart, since the laws of a content know no form.

// R64: the form of the fields of a group's lines, and whether its lines may be shorter than their fields, as only lines
// of letters may.
#[derive(Clone, Copy)]
struct LineForm {
    pub fields: Form,
    pub short: bool,
    ghost letters: { HoldsLetters fields short },
}

// R40, R123: a group under its record's counts: its number, its form and its count, which in group 3 has room for the
// date. It is made where the count is known; rules and lines stand beside it, since they are no part of a group.
#[derive(Clone, Copy)]
struct Counted {
    pub group: usize,
    pub form: Form,
    pub count: u16,
    ghost has_form: { form_of group ≡ Some form },
    ghost has_date: { group ≡ 3 → 19 ≤ count },
}

impl Counted {
    // R64: what its lines hold.
    #[tactic(auto, using(crate::proofs::Letters::short_letters))]
    fn line_form(self) -> LineForm
        ensures fields { result.fields ≡ self.form }
        ensures short { result.short ≡ may_be_short self.group }
    {
        LineForm {
            fields: self.form,
            short: may_be_short(self.group),
        }
    }
}

// R64: whether lines of the group may be shorter than their fields.
fn may_be_short(group: usize) -> bool
    ensures { result ≡ may_be_short group }
{
    group == 2 || (group == 54 || group == 55)
}

// R62, R64: how long the content of fields of so many columns is at least.
fn least(short: bool, columns: usize) -> usize
    ensures { result ≡ shortest short columns }
{
    if short { 0 } else { columns }
}

// R66: what stands behind the fields.
fn all_blank(s: &[u8]) -> bool
    ensures { result ≡ every blank s.now }
{
    s.iter().all(|byte| *byte == b' ')
}

// R62 to R64, R66: whether a content is right for fields that take so many columns.
fn is_right(short: bool, columns: usize, content: &[u8]) -> bool
    ensures { result ≡ is_right short columns content.now }
{
    let n = content.len();
    least(short, columns) <= n && (n <= 120 && (n <= columns || all_blank(&content[columns..n])))
}

// R66: the length of a line's content, if there is one and it is right.
fn right_content(rules: rules::Rules, short: bool, columns: usize, line: &[u8]) -> Option<usize>
    ensures { result ≡ right_content rules short columns line.now }
{
    let length = line::content_length(rules, line)?;
    is_right(short, columns, &line[0..length]).then_some(length)
}

// ---- Checking. Lines, the place of one, how many columns its fields take and where they are looked at no further are
// told apart, since the laws of a line speak of places and columns: a slice of each line would be cut and its place
// told besides, no plainer.

// Whether bytes of a line are a field of the form. Where lines may be short, blanks that would be added print too
// (R65).
fn is_field(form: LineForm, bytes: &[u8]) -> bool
    requires columns { length bytes.now ≤ (row_of form.fields).width }
    ensures { result ≡ formed (field_of form.fields (as_field form.fields form.short bytes.now)) }
{
    if form.short {
        return field::all_printable(bytes);
    }
    bytes.len() == form::row_of(form.fields).width && run::formed(form.fields, bytes, 1)
}

// The same of the bytes in the columns of field `k`, from 0, of a line that begins at a place and is looked at up to
// `stop`.
fn is_field_at(form: LineForm, lines: &[u8], at: usize, stop: usize, k: usize) -> bool
    requires order { at ≤ stop }
    requires lines { stop ≤ length lines.now }
    requires few { k ≤ 120 }
    ensures { result ≡ is_formed_at form.fields form.short at stop lines.now k }
{
    let width = form::row_of(form.fields).width;
    let from = stop.min(at + k * width);
    let to = from + width.min(stop - from);
    is_field(form, &lines[from..to])
}

// Whether all fields of a line are formed, in one look. Where lines may be short, blanks that would be added print too
// (R65); where they may not, a field that lacks a column is none. `is_field` is given
// one field's bytes, this a line that may lack some.
fn all_formed(
    form: LineForm,
    k: usize,
    columns: usize,
    lines: &[u8],
    at: usize,
    stop: usize,
) -> bool
    requires columns { columns ≡ k * (row_of form.fields).width }
    requires order { at ≤ stop }
    requires lines { stop ≤ length lines.now }
    ensures { result ≡ all_formed form.fields form.short at stop lines.now k }
{
    let to = at + columns.min(stop - at);
    if form.short {
        return field::all_printable(&lines[at..to]);
    }
    to - at == columns && run::formed(form.fields, &lines[at..to], k)
}

// How many of a line's fields are seen to be formed in one look: all of them or none. A clean line has all of its
// fields formed, so they are gone over one by one only in a line in which there is one to blame.
fn seen_formed(form: LineForm, many: usize, lines: &[u8], at: usize, stop: usize) -> usize
    requires few { many ≤ 120 }
    requires order { at ≤ stop }
    requires lines { stop ≤ length lines.now }
    ensures seen { FormedBelow form.fields form.short at stop lines.now result }
    ensures most { result ≤ many }
{
    let columns = many * form::row_of(form.fields).width;
    if all_formed(form, many, columns, lines, at, stop) {
        many
    } else {
        0
    }
}

// Where the fields of a line are looked for no further, before its end is known. A line that may be short has no length
// of its own: its content is asked for first, and its bytes are looked at twice.
fn fields_stop(rules: rules::Rules, short: bool, columns: usize, lines: &[u8], at: usize) -> usize
    requires { at ≤ length lines.now }
    ensures { result ≡ at + fields_span rules short columns lines.now at }
{
    if short {
        let end = line::behind_line(lines, at);
        return at + line::content_length(rules, &lines[at..end]).unwrap_or(0);
    }
    at + columns.min(lines.len() - at)
}

// R60: a line of a group: its number and its first element's, both from 1, and how many elements it has.
#[derive(Clone, Copy)]
pub struct Line {
    pub number: usize,
    pub first: usize,
    pub many: usize,
}

impl Line {
    // R44: the line behind `j` full ones, where so many elements are left.
    fn behind(j: usize, row: Row, left: usize) -> Line
        requires lines { j + 1 < 2 ^ 64 }
        requires elements { j * row.per_line + 1 < 2 ^ 64 }
        ensures { result ≡ line_behind row.per_line left j }
    {
        Line {
            number: j + 1,
            first: j * row.per_line + 1,
            many: row.per_line.min(left),
        }
    }
}

// R262: what is blamed where a field is misformed. A line that is wrong comes before its fields. Both are refusals, so
// the match is no `ok_or`.
fn misfit(
    rules: rules::Rules,
    short: bool,
    columns: usize,
    lines: &[u8],
    at: usize,
    line: Line,
    k: usize,
) -> Refusal
    requires inside { at ≤ length lines.now }
    requires small { line.first + k ≤ 2 ^ 33 }
    ensures { result ≡
        misfit_of line.number (line.first + k)
        (right_content rules short columns
        (part at (at + reach (drop at lines.now) 1) lines.now)) }
{
    let end = line::behind_line(lines, at);
    match right_content(rules, short, columns, &lines[at..end]) {
        Some(_) => Refusal::BadField(line.number, line.first + k),
        None => Refusal::BadLine(line.number),
    }
}

// R262: where a line ends whose fields, looked for up to `stop`, are all formed, or that it is wrong. No line feed
// stands in fields that are formed, so the line's end is sought behind them.
fn line_end(
    rules: rules::Rules,
    form: LineForm,
    line: Line,
    lines: &[u8],
    at: usize,
    stop: usize,
) -> Result<usize, Refusal>
    requires few { line.many ≤ (row_of form.fields).per_line }
    requires inside { at ≤ length lines.now }
    requires sought { stop ≡ at + fields_span rules form.short (line.many * (row_of form.fields).width) lines.now at }
    requires formed { FormedBelow form.fields form.short at stop lines.now line.many }
    ensures { result ≡ line_passed (at + reach (drop at lines.now) 1)
        (verdict_of (read_line rules form.fields form.short line (part at (at + reach (drop at lines.now) 1) lines.now))) }
{
    let end = line::behind_line(lines, stop);
    let columns = line.many * form::row_of(form.fields).width;
    right_content(rules, form.short, columns, &lines[at..end])
        .and(Some(end))
        .ok_or(Refusal::BadLine(line.number))
}

// The first pass, as R443 has it: each line's fields, and then what stands behind them, up to the first line that is
// bad (R263). It looks at no table.
fn check_lines(rules: rules::Rules, form: LineForm, count: u16, lines: &[u8]) -> Result<(), Refusal>
    ensures { result ≡ verdict_of (read_lines rules form.fields form.short count lines.now) }
{
    let row = form::row_of(form.fields);
    let mut left = form::elements(rules, form.fields, count);
    let mut verdict = Ok(());
    let mut at: usize = 0;
    'lines: for j in 0..form::lines(rules, form.fields, count) {
        let line = Line::behind(j, row, left);
        let columns = line.many * row.width;
        let stop = fields_stop(rules, form.short, columns, lines, at);
        for k in seen_formed(form, line.many, lines, at, stop)..line.many {
            if !is_field_at(form, lines, at, stop, k) {
                verdict = Err(misfit(rules, form.short, columns, lines, at, line, k));
                break 'lines;
            }
        }
        at = line_end(rules, form, line, lines, at, stop)?;
        left -= line.many;
    }
    verdict
}

// R140: the date stands in the first line of group 3, where R123 puts 19 characters at least.
fn date_in(rules: rules::Rules, count: u16, lines: &[u8]) -> Result<date::Date, usize>
    requires date { 19 ≤ count }
    requires clean { verdict_of (read_lines rules Form.A1 Bool.false count lines.now) ≡ Ok tt }
    ensures { result ≡ letters_dated (cells_got (read_lines rules Form.A1 Bool.false count lines.now)) }
{
    let elements = form::elements(rules, Form::A1, count);
    let first = form::row_of(Form::A1).per_line.min(elements);
    date::Date::new(&lines[0..first])
}

// R210: whether these letters are a date.
fn check_date(rules: rules::Rules, count: u16, lines: &[u8]) -> Result<(), Refusal>
    requires date { 19 ≤ count }
    requires clean { verdict_of (read_lines rules Form.A1 Bool.false count lines.now) ≡ Ok tt }
    ensures { result ≡ verdict_of (dated 3 (read_lines rules Form.A1 Bool.false count lines.now)) }
{
    date_in(rules, count, lines).map_err(Refusal::BadDate)?;
    Ok(())
}

// R262, R265: lines, and then the date of group 3.
fn check(rules: rules::Rules, asked: Counted, lines: &[u8]) -> Result<(), Refusal>
    ensures { result ≡
        verdict_of
        (dated asked.group
        (read_lines rules asked.form (may_be_short asked.group) asked.count lines.now)) }
{
    check_lines(rules, asked.line_form(), asked.count, lines)?;
    if asked.group == 3 {
        return check_date(rules, asked.count, lines);
    }
    Ok(())
}

// ---- Filling. What is told apart in checking is told apart here, with the table and a cell of it.

// Letters, and blanks behind them up to so many columns (R65), which the range counts: there may be fewer bytes.
fn put_letters(bytes: &[u8], width: usize, table: &mut [i64], at: usize)
    requires bytes { length bytes.now ≤ width }
    requires room { at + width ≤ length table.old }
    ensures { table.new ≡
        over at (map pos (filled_to width bytes.now)) table.old }
{
    for i in 0..width {
        let letter = bytes.get(i).copied().unwrap_or(b' ');
        table[at + i] = i64::from(letter);
    }
}

// The cells of a line's fields, from its content: all of their columns, with blanks behind the last byte where the line
// is short (R65).
fn put_line(
    form: LineForm,
    k: usize,
    columns: usize,
    content: &[u8],
    table: &mut [i64],
    cell: usize,
)
    requires { ToPut form.fields form.short k columns content.now (length table.old) cell }
    ensures { table.new ≡
        over cell (run_cells form.fields k (filled_to columns content.now)) table.old }
{
    let there = columns.min(content.len());
    if form.short {
        put_letters(&content[0..there], columns, table, cell);
        return;
    }
    run::fill(form.fields, &content[0..there], k, table, cell);
}

// The cells of a clean line that begins at a place, from a cell of the table on; the place behind it.
fn fill_line(
    rules: rules::Rules,
    form: LineForm,
    line: Line,
    lines: &[u8],
    at: usize,
    table: &mut [i64],
    cell: usize,
) -> usize
    requires few { line.many ≤ (row_of form.fields).per_line }
    requires inside { at ≤ length lines.now }
    requires clean { verdict_of (read_line rules form.fields form.short line (part at (at + reach (drop at lines.now) 1) lines.now))
        ≡ Ok tt }
    requires room { cell + line.many * (row_of form.fields).cells ≤ length table.old }
    ensures end { result ≡ at + reach (drop at lines.now) 1 }
    ensures table { table.new ≡ over cell
        (cells_got (read_line rules form.fields form.short line (part at (at + reach (drop at lines.now) 1) lines.now))) table.old }
{
    let columns = line.many * form::row_of(form.fields).width;
    // no line feed stands in the columns of these fields; a line that may be short can end anywhere, so its bytes are
    // looked at twice
    let end = line::behind_line(lines, at + least(form.short, columns));
    // a clean line has a content
    let length = line::content_length(rules, &lines[at..end]).unwrap();
    let stop = at + length;
    put_line(form, line.many, columns, &lines[at..stop], table, cell);
    end
}

// R266: the second pass, the cells of lines that were found clean. It is a loop beside the check's, since all lines are
// checked before a cell is put (R267).
fn fill_lines(rules: rules::Rules, form: LineForm, count: u16, lines: &[u8], table: &mut [i64])
    requires clean { verdict_of (read_lines rules form.fields form.short count lines.now) ≡ Ok tt }
    requires room { cells_of rules form.fields count ≤ length table.old }
    ensures { table.new ≡
        over 0 (cells_got (read_lines rules form.fields form.short count lines.now)) table.old }
{
    let row = form::row_of(form.fields);
    let mut left = form::elements(rules, form.fields, count);
    let mut at: usize = 0;
    let mut cell: usize = 0;
    for j in 0..form::lines(rules, form.fields, count) {
        let line = Line::behind(j, row, left);
        at = fill_line(rules, form, line, lines, at, table, cell);
        cell += line.many * row.cells;
        left -= line.many;
    }
}

// R266 for the lines of a group that were found clean.
fn fill(rules: rules::Rules, asked: Counted, lines: &[u8], table: &mut [i64])
    requires clean { verdict_of
        (read_lines rules asked.form (may_be_short asked.group) asked.count lines.now) ≡ Ok tt }
    requires room { cells_of rules asked.form asked.count ≤ length table.old }
    ensures { table.new ≡
        over 0
        (cells_got
        (read_lines rules asked.form (may_be_short asked.group) asked.count lines.now))
        table.old }
{
    fill_lines(rules, asked.line_form(), asked.count, lines, table);
}

// ---- Reading a group's lines. Rules, counts, group and lines stand apart, since each group has lines of its own.

// R260, for a group whose record is placed with 0: 11 (R264), then the lines and the date, and only then the table.
fn read_form(
    rules: rules::Rules,
    asked: Counted,
    lines: &[u8],
    table: &mut [i64],
) -> Result<usize, Refusal>
    ensures answer { result ≡
        reading_of
        (read_form rules asked.form asked.group asked.count lines.now (length table.old)) }
    ensures table { table.new ≡
        table_by
        (read_form rules asked.form asked.group asked.count lines.now (length table.old))
        table.old }
{
    let cells = form::cells(rules, asked.form, asked.count);
    if table.len() < cells {
        return Err(Refusal::NoRoom);
    }
    check(rules, asked, lines)?;
    fill(rules, asked, lines, table);
    Ok(cells)
}

// R260: reads a group of a record with these counts, whose lines these are, into a table. It is altered only if all is
// clean, and then only as far as the group's cells go (R266, R267).
pub fn read_kept(
    rules: rules::Rules,
    kept: Kept<'_>,
    group: usize,
    lines: &[u8],
    table: &mut [i64],
) -> Result<usize, Refusal>
    ensures answer { result ≡
        reading_of (read_group rules kept.entry.counts.now group lines.now (length table.old)) }
    ensures table { table.new ≡
        table_by (read_group rules kept.entry.counts.now group lines.now (length table.old))
        table.old }
{
    let form = form::form_of(group).ok_or(Refusal::NoSuchNumber)?;
    let count = count::count_of(kept.counts, group);
    let asked = Counted { group, form, count };
    read_form(rules, asked, lines, table)
}

// ---- The two passes by themselves, for a record whose groups are all checked before one of them is filled.

// What `read_kept` refuses a group with, given room. A count of 0 costs no more than a test (R268), and so no call.
#[inline]
pub fn check_kept(
    rules: rules::Rules,
    kept: Kept<'_>,
    group: Group,
    lines: &[u8],
) -> Result<(), Refusal>
    ensures { result ≡
        verdict_of
        (read_group rules kept.entry.counts.now group.number lines.now
        (cells_in rules kept.entry.counts.now group.number)) }
{
    let count = count::count_of(kept.counts, group.number);
    if count == 0 {
        return Ok(());
    }
    let asked = Counted {
        group: group.number,
        form: group.form(),
        count,
    };
    check(rules, asked, lines)
}

// R333: the date of a record with these counts, whose group 3 has these lines. It has one if `read_kept` reads that
// group with 0, given room. No cell is stored.
pub fn date_kept(rules: rules::Rules, kept: Kept<'_>, lines: &[u8]) -> Option<date::Date>
    ensures { result ≡
        date_told
        (read_group rules kept.entry.counts.now 3 lines.now (cells_in rules kept.entry.counts.now 3)) }
{
    let count = count::count_of(kept.counts, 3);
    let letters = LineForm {
        fields: Form::A1,
        short: false,
    };
    check_lines(rules, letters, count, lines).ok()?;
    date_in(rules, count, lines).ok()
}

// The cells of a group that was found clean, from a cell of the table on. It gives the cell behind them.
pub fn fill_kept(
    rules: rules::Rules,
    kept: Kept<'_>,
    group: Group,
    lines: &[u8],
    table: &mut [i64],
    cell: usize,
) -> usize
    requires clean { verdict_of
        (read_group rules kept.counts.now group.number lines.now (cells_in rules kept.counts.now group.number)) ≡ Ok tt }
    requires room { cell + cells_in rules kept.counts.now group.number ≤ length table.old }
    ensures end { result ≡ cell + cells_in rules kept.entry.counts.now group.number }
    ensures table { table.new ≡
        over cell
        (cells_got
        (read_group rules kept.entry.counts.now group.number lines.now
        (cells_in rules kept.entry.counts.now group.number)))
        table.old }
{
    let count = count::count_of(kept.counts, group.number);
    if count == 0 {
        return cell;
    }
    let asked = Counted {
        group: group.number,
        form: group.form(),
        count,
    };
    let end = cell + form::cells(rules, asked.form, count);
    fill(rules, asked, lines, &mut table[cell..end]);
    end
}
