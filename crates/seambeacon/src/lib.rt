// For C: each question of `sao` under a name of its own, in numbers and slices alone. R360: a function answers with the
// reply's number and writes the eight numbers beside it, in the order of `eight_beside`, into lent memory; those that
// the reply's row doesn't name are 0. What else is lent is altered as the question of the same name says. R365: each
// takes the rules first, as a number of flags. include/seambeacon.h tells a caller in C.
#![tactic(auto)]

ghost use Rattle.std.specs.Prelude.{◌≡◌, [], ◌∷◌, length};
ghost use Rattle.seambeacon.specs.Flags.{flagged};
ghost use Rattle.seambeacon.specs.Numbers.{Told, answer_kind, answer_value, seven_date};
ghost use Rattle.seambeacon.specs.Replies.{place_reply, read_reply, lines_reply, characteristic_reply_at, write_reply};
ghost use Rattle.seambeacon.specs.Replies.{record_group_reply, record_lines_reply, record_characteristic_reply};
ghost use Rattle.seambeacon.specs.Replies.{whole_reply, first_from_reply, stretch_end_reply, list_reply, rewrite_reply};
ghost use Rattle.seambeacon.specs.Replies.{call_answer};
ghost use Rattle.decimal.specs.Writing.{put_bytes};
ghost use Rattle.place.specs.Placing.{counts_at, starts_at, ends_at, carried};
ghost use Rattle.reading.specs.Read.{table_by};
ghost use Rattle.group.specs.Text.{read_at};
ghost use Rattle.group.specs.Held.{part_start, part_at};
ghost use Rattle.group.specs.Characteristics.{characteristic_at};
ghost use Rattle.view.specs.With.{start_with, part_with, read_with, characteristic_with};
ghost use Rattle.since.specs.Numbered.{place_told, passed_told};
ghost use Rattle.since.specs.Since.{first_from};
ghost use Rattle.whole.specs.Numbered.{group_told};
ghost use Rattle.whole.specs.Whole.{whole_read, record_read_of};
ghost use Rattle.writing.specs.Writing.{writing_of, output_by};
ghost use Rattle.rewriting.specs.Record.{rewriting_of, table_after, buffer_by};
ghost use Rattle.rewriting.specs.Numbered.{rewriting_group};
ghost use Rattle.reply.specs.Refusals.{checked_reply};
ghost use Rattle.journal.specs.Model.{Sets, Opens, Releases, Undoes};
ghost use Rattle.journal.specs.Calls.{used_by, cells_after, journal_by};
ghost use Rattle.journal.specs.Plays.{replay_of, replayed_open, replayed_cells};
ghost use Rattle.journal.specs.Numbered.{edit_reply};
ghost use Rattle.listing.specs.Listing.{listing};

use date::Date;
use group::Characteristic;
use place::Record;
use reply::Reply;
use rules::Rules;

// ---- Numbers, as C has them (R360): it knows no `From`.

// R360: a reply as its number, and the numbers beside it.
fn tell(r: Reply, beside: &mut [usize; 8]) -> u32
    ensures { Told r result beside.new }
{
    *beside = [
        r.next,
        r.written,
        r.group,
        r.line,
        r.element,
        r.position,
        r.savepoint,
        r.place,
    ];
    r.number
}

// R361: the kind of a characteristic's answer.
fn kind_of(c: Characteristic) -> u32
    ensures { result ≡ answer_kind c }
{
    match c {
        Characteristic::Value(_) => 0,
        Characteristic::NoReading => 1,
        Characteristic::NotReported => 2,
        Characteristic::Refused(_) => 3,
    }
}

// R361: its value, or 0.
fn value_of(c: Characteristic) -> i64
    ensures { result ≡ answer_value c }
{
    match c {
        Characteristic::Value(value) => value,
        _ => 0,
    }
}

// R365: the rules that a number of flags stands for.
fn rules_of(flags: u32) -> Rules
    ensures { result ≡ flagged flags }
{
    rules::choose(flags % 2 == 1, flags / 2 % 2 == 1)
}

// R367: a date as seven numbers, in the order in which they stand in group 3.
fn date_of(seven: &[usize; 7]) -> Date
    ensures { result ≡ seven_date seven.now }
{
    let [year, day_of_year, month, day, hour, minute, second] = *seven;
    Date {
        year,
        day_of_year,
        month,
        day,
        hour,
        minute,
        second,
    }
}

// ---- The questions.

// R250 to R253, R259. Asked: which record stands at a place of a text.
// Answered: the placing reply, with the next place under 0 and 7; the record's 80 counts, and where the lines of each
// of its 60 groups begin and end.
// A refusal but 7 leaves 80 zero counts and 60 zeros for either place.
#[unsafe(no_mangle)]
pub extern "C" fn seambeacon_place_apart(
    rules: u32,
    text: &[u8],
    at: usize,
    counts: &mut [u16; 80],
    starts: &mut [usize; 60],
    ends: &mut [usize; 60],
    beside: &mut [usize; 8],
) -> u32
    ensures reply { Told (place_reply (flagged rules) text.now at) result beside.new }
    ensures counts { counts.new ≡ counts_at (flagged rules) text.now at }
    ensures starts { starts.new ≡ starts_at (flagged rules) text.now at }
    ensures ends { ends.new ≡ ends_at (flagged rules) text.now at }
{
    let Record {
        answer,
        counts: found,
        starts: begin,
        ends: end,
    } = sao::place(rules_of(rules), text, at);
    *counts = found;
    *starts = begin;
    *ends = end;
    tell(Reply::from(answer), beside)
}

// R260 to R268. Asked: the cells of a group, 1 to 60, of the record at a place.
// Answered: 0 with the number of cells, which stand in the table from its first cell on; what stands behind them is
// kept. A refusal leaves the whole table as it was.
#[unsafe(no_mangle)]
pub extern "C" fn seambeacon_read_group(
    rules: u32,
    text: &[u8],
    at: usize,
    group: usize,
    table: &mut [i64],
    beside: &mut [usize; 8],
) -> u32
    ensures reply { Told (read_reply (flagged rules) text.now at group (length table.old)) result
        beside.new }
    ensures table { table.new ≡ table_by
        (read_at (flagged rules) text.now at group (length table.old)) table.old }
{
    let answer = sao::read_group(rules_of(rules), text, at, group, table);
    tell(Reply::from(answer), beside)
}

// R280 to R283, R362. Asked: the lines of a group of the record at a place, with their line ends.
// Answered: 0, and which part of the text holds them: the place where it starts, and its length. With count 0 it is
// empty, and lies where the lines would be.
// A refusal, 12 or what placing refuses with, gives the empty part at place 0.
#[unsafe(no_mangle)]
pub extern "C" fn seambeacon_group_lines(
    rules: u32,
    text: &[u8],
    at: usize,
    group: usize,
    part: &mut [usize; 2],
    beside: &mut [usize; 8],
) -> u32
    ensures reply { Told (lines_reply (flagged rules) text.now at group) result beside.new }
    ensures part { part.new ≡
        part_start (flagged rules) text.now at group ∷
        length (part_at (flagged rules) text.now at group) ∷ [] }
{
    let lines = sao::group_lines_at(rules_of(rules), text, at, group);
    *part = [lines.from, lines.to - lines.from];
    tell(Reply::from(lines.found), beside)
}

// R290 to R296, R361. Asked: a characteristic, 1 to 49, of the record at a place.
// Answered: its kind, and its value in thousandths or 0.
// A refusal is a kind too, and has its reply: 12, or that of reading group 4.
#[unsafe(no_mangle)]
pub extern "C" fn seambeacon_characteristic(
    rules: u32,
    text: &[u8],
    at: usize,
    number: usize,
    kind: &mut u32,
    value: &mut i64,
    beside: &mut [usize; 8],
) -> u32
    ensures reply { Told (characteristic_reply_at (flagged rules) text.now at number) result
        beside.new }
    ensures kind { kind.new ≡
        answer_kind (characteristic_at (flagged rules) text.now at number) }
    ensures value { value.new ≡
        answer_value (characteristic_at (flagged rules) text.now at number) }
{
    let known = sao::characteristic(rules_of(rules), text, at, number);
    *kind = kind_of(known);
    *value = value_of(known);
    tell(Reply::from(known), beside)
}

// ---- With a record, whose members are lent apart (R366): the questions of `sao` that have a record, over `view`,
// which takes the members where they lie.

// R285 to R287. Asked: the cells of a group, 1 to 60, of a record.
// Answered: 0 with the number of cells, which stand in the table from its first cell on; what stands behind them is
// kept. A refusal leaves the whole table as it was.
#[unsafe(no_mangle)]
pub extern "C" fn seambeacon_record_group_apart(
    rules: u32,
    text: &[u8],
    counts: &[u16; 80],
    starts: &[usize; 60],
    ends: &[usize; 60],
    group: usize,
    table: &mut [i64],
    beside: &mut [usize; 8],
) -> u32
    ensures reply { Told (record_group_reply (flagged rules) text.now
        (carried counts.now starts.now ends.now) group
        (length table.old)) result beside.new }
    ensures table { table.new ≡
        table_by (read_with (flagged rules) text.now
        (carried counts.now starts.now ends.now) group
        (length table.old)) table.old }
{
    let answer = view::read_with(rules_of(rules), text, counts, starts, ends, group, table);
    tell(Reply::from(answer), beside)
}

// R285, R286, R362. Asked: the lines of a group of a record, with their line ends.
// Answered: 0, and which part of the text holds them: the place where it starts, and its length.
// A refusal gives the empty part at place 0.
#[unsafe(no_mangle)]
pub extern "C" fn seambeacon_record_lines_apart(
    rules: u32,
    text: &[u8],
    counts: &[u16; 80],
    starts: &[usize; 60],
    ends: &[usize; 60],
    group: usize,
    part: &mut [usize; 2],
    beside: &mut [usize; 8],
) -> u32
    ensures reply { Told (record_lines_reply (flagged rules) text.now
        (carried counts.now starts.now ends.now) group) result beside.new }
    ensures part { part.new ≡
        start_with (flagged rules) text.now
        (carried counts.now starts.now ends.now) group ∷
        length (part_with (flagged rules) text.now
        (carried counts.now starts.now ends.now) group) ∷ [] }
{
    let named = view::lines_with(rules_of(rules), text, counts, starts, ends, group);
    *part = [named.from, named.to - named.from];
    tell(Reply::from(named.found), beside)
}

// R297, R361. Asked: a characteristic, 1 to 49, of a record.
// Answered: its kind, and its value in thousandths or 0.
// A refusal is a kind too, and has its reply: 12, or that of reading group 4, 22 among them.
#[unsafe(no_mangle)]
pub extern "C" fn seambeacon_record_characteristic_apart(
    rules: u32,
    text: &[u8],
    counts: &[u16; 80],
    starts: &[usize; 60],
    ends: &[usize; 60],
    number: usize,
    kind: &mut u32,
    value: &mut i64,
    beside: &mut [usize; 8],
) -> u32
    ensures reply { Told (record_characteristic_reply (flagged rules) text.now
        (carried counts.now starts.now ends.now) number) result beside.new }
    ensures kind { kind.new ≡
        answer_kind (characteristic_with (flagged rules) text.now
        (carried counts.now starts.now ends.now) number) }
    ensures value { value.new ≡
        answer_value (characteristic_with (flagged rules) text.now
        (carried counts.now starts.now ends.now) number) }
{
    let known = view::characteristic_with(rules_of(rules), text, counts, starts, ends, number);
    *kind = kind_of(known);
    *value = value_of(known);
    tell(Reply::from(known), beside)
}

// R271 to R277, R363. Asked: the cells of all groups of the record at a place.
// Answered: 0 with the number of cells, those of groups 1 to 60 one behind the other, which stand in the table from its
// first cell on; what stands behind them is kept. The group that was being read, 0 where none was, is given apart.
// A refusal leaves the whole table as it was.
#[unsafe(no_mangle)]
pub extern "C" fn seambeacon_read_record(
    rules: u32,
    text: &[u8],
    at: usize,
    table: &mut [i64],
    unread: &mut [usize; 1],
    beside: &mut [usize; 8],
) -> u32
    ensures reply { Told (whole_reply (flagged rules) text.now at (length table.old)) result
        beside.new }
    ensures unread { unread.new ≡
        group_told (record_read_of (whole_read (flagged rules) text.now at (length table.old))) ∷
        [] }
    ensures table { table.new ≡
        table_by (whole_read (flagged rules) text.now at (length table.old))
        table.old }
{
    let answer = sao::read_record(rules_of(rules), text, at, table);
    *unread = [whole::group_of(answer)];
    tell(whole::reply_of(answer), beside)
}

// R330 to R337, R367. Asked: the first record of a text's walk whose date is at or after a given one.
// Answered: 0, and apart from it the record's place, and how many records were passed before it.
// A refusal, 10 or that at which the walk stopped, has place 0, and how many records were passed.
#[unsafe(no_mangle)]
pub extern "C" fn seambeacon_first_from(
    rules: u32,
    text: &[u8],
    from: &[usize; 7],
    place: &mut usize,
    passed: &mut usize,
    beside: &mut [usize; 8],
) -> u32
    ensures reply { Told (first_from_reply (flagged rules) text.now (seven_date from.now)) result
        beside.new }
    ensures place { place.new ≡
        place_told (first_from (flagged rules) text.now (seven_date from.now)) }
    ensures passed { passed.new ≡
        passed_told (first_from (flagged rules) text.now (seven_date from.now)) }
{
    let answer = sao::first_from(rules_of(rules), text, date_of(from));
    *place = since::place_of(answer);
    *passed = since::passed_of(answer);
    tell(since::reply_of(answer), beside)
}

// R350 to R352. Asked: where the stretch ends that begins at a place of a text, whatever stands there.
// Answered: 0 with the next place: that of the first later record from which a walk may go on, or the text's end.
// A refusal: 2 beyond the text, 1 at its end.
#[unsafe(no_mangle)]
pub extern "C" fn seambeacon_stretch_end(
    rules: u32,
    text: &[u8],
    at: usize,
    beside: &mut [usize; 8],
) -> u32
    ensures { Told (stretch_end_reply (flagged rules) text.now at) result beside.new }
{
    let answer = sao::stretch_end(rules_of(rules), text, at);
    tell(salvaging::reply_of(answer), beside)
}

// R300 to R307. Asked: to write a record of these counts and of the cells of all groups, group 1's first.
// Answered: 0 with the number of bytes, which stand in the output from its first byte on; what stands behind them is
// kept. A refusal leaves the whole output as it was.
#[unsafe(no_mangle)]
pub extern "C" fn seambeacon_write_record(
    rules: u32,
    counts: &[u16],
    cells: &[i64],
    out: &mut [u8],
    beside: &mut [usize; 8],
) -> u32
    ensures reply { Told (write_reply (flagged rules) counts.now cells.now (length
        out.old)) result
        beside.new }
    ensures output { out.new ≡
        output_by (flagged rules) counts.now cells.now
        (writing_of (flagged rules) counts.now cells.now (length out.old))
        out.old }
{
    let answer = sao::write_record(rules_of(rules), counts, cells, out);
    tell(Reply::from(answer), beside)
}

// R310, R311. Asked: the listing of a text, a line for each record of its walk and the line `end`.
// Answered: 0 with the number of bytes, which stand in the output from its first byte on; what stands behind them is
// kept. A refusal (11) leaves the whole output as it was.
#[unsafe(no_mangle)]
pub extern "C" fn seambeacon_list(
    rules: u32,
    text: &[u8],
    out: &mut [u8],
    beside: &mut [usize; 8],
) -> u32
    ensures reply { Told (list_reply (flagged rules) text.now (length out.old)) result
        beside.new }
    ensures output { out.new ≡
        put_bytes 0 (listing (flagged rules) text.now) out.old }
{
    let answer = sao::list(rules_of(rules), text, out);
    tell(Reply::from(answer), beside)
}

// R320 to R326, R363. Asked: to rewrite the record at a place as canonical text.
// Answered: 0 with the number of bytes and the next place; the bytes stand in the output from its first byte on, the
// record's cells in the table from its first cell on, and what stands behind them is kept. The group that was being
// read, 0 where none was, is given apart: a reply's own group is the blamed one.
// A refusal leaves the whole output and the whole table as they were.
#[unsafe(no_mangle)]
pub extern "C" fn seambeacon_rewrite_record(
    rules: u32,
    text: &[u8],
    at: usize,
    table: &mut [i64],
    out: &mut [u8],
    unread: &mut [usize; 1],
    beside: &mut [usize; 8],
) -> u32
    ensures reply { Told
        (rewrite_reply (flagged rules) text.now at (length table.old) (length out.old))
        result beside.new }
    ensures unread { unread.new ≡
        rewriting_group
        (rewriting_of (flagged rules) text.now at (length table.old) (length out.old)) ∷
        [] }
    ensures table { table.new ≡
        table_after (flagged rules) text.now at
        (rewriting_of (flagged rules) text.now at (length table.old) (length out.old))
        table.old }
    ensures output { out.new ≡
        buffer_by (flagged rules) text.now at
        (rewriting_of (flagged rules) text.now at (length table.old) (length out.old))
        out.old }
{
    let answer = sao::rewrite_record(rules_of(rules), text, at, table, out);
    *unread = [whole::group_of(answer)];
    tell(rewriting::reply_of(answer), beside)
}

// ---- The edit journal.

// R512. Asked: to set a cell, counted from 1, of a group.
// Answered: 0; the cell has the value, the journal a field more, and `used` counts its bytes.
// A refusal leaves cells, journal and `used` as they were; so do those of the next three.
#[unsafe(no_mangle)]
pub extern "C" fn seambeacon_set_cell(
    rules: u32,
    counts: &[u16],
    cells: &mut [i64],
    journal: &mut [u8],
    used: &mut usize,
    group: usize,
    cell: usize,
    value: i64,
    beside: &mut [usize; 8],
) -> u32
    ensures reply { Told (edit_reply
        (call_answer (flagged rules) counts.now journal.old used.old
        cells.old
        (Sets group cell value))) result
        beside.new }
    ensures used { used.new ≡ used_by used.old (Sets group cell value)
        (call_answer (flagged rules) counts.now journal.old used.old
        cells.old
        (Sets group cell value)) }
    ensures cells { cells.new ≡
        cells_after (flagged rules) counts.now journal.old
        used.old (Sets group cell value)
        cells.old
        (call_answer (flagged rules) counts.now journal.old used.old
        cells.old
        (Sets group cell value)) }
    ensures journal { journal.new ≡
        journal_by (flagged rules) counts.now journal.old
        used.old (Sets group cell value)
        cells.old
        (call_answer (flagged rules) counts.now journal.old used.old
        cells.old
        (Sets group cell value)) }
{
    let edited = sao::set_cell(
        rules_of(rules),
        counts,
        cells,
        journal,
        *used,
        group,
        cell,
        value,
    );
    *used = edited.used;
    tell(journal::reply_of(edited.answer), beside)
}

// R513. Asked: to open a savepoint inside those that are open, at most 16.
// Answered: 0 with its number.
#[unsafe(no_mangle)]
pub extern "C" fn seambeacon_open_savepoint(
    rules: u32,
    counts: &[u16],
    cells: &[i64],
    journal: &mut [u8],
    used: &mut usize,
    beside: &mut [usize; 8],
) -> u32
    ensures reply { Told (edit_reply
        (call_answer (flagged rules) counts.now journal.old used.old
        cells.now
        Opens)) result
        beside.new }
    ensures used { used.new ≡ used_by used.old Opens
        (call_answer (flagged rules) counts.now journal.old used.old
        cells.now
        Opens) }
    ensures journal { journal.new ≡
        journal_by (flagged rules) counts.now journal.old used.old Opens
        cells.now
        (call_answer (flagged rules) counts.now journal.old used.old
        cells.now
        Opens) }
{
    let edited = sao::open_savepoint(rules_of(rules), counts, cells, journal, *used);
    *used = edited.used;
    tell(journal::reply_of(edited.answer), beside)
}

// R514. Asked: to release the innermost savepoint.
// Answered: 0; what was set since it was opened stays, and belongs to the one outside.
#[unsafe(no_mangle)]
pub extern "C" fn seambeacon_release_savepoint(
    rules: u32,
    counts: &[u16],
    cells: &[i64],
    journal: &mut [u8],
    used: &mut usize,
    savepoint: usize,
    beside: &mut [usize; 8],
) -> u32
    ensures reply { Told (edit_reply
        (call_answer (flagged rules) counts.now journal.old used.old
        cells.now
        (Releases savepoint))) result
        beside.new }
    ensures used { used.new ≡ used_by used.old (Releases savepoint)
        (call_answer (flagged rules) counts.now journal.old used.old
        cells.now
        (Releases savepoint)) }
    ensures journal { journal.new ≡
        journal_by (flagged rules) counts.now journal.old used.old (Releases savepoint)
        cells.now
        (call_answer (flagged rules) counts.now journal.old used.old
        cells.now
        (Releases savepoint)) }
{
    let edited = sao::release_savepoint(rules_of(rules), counts, cells, journal, *used, savepoint);
    *used = edited.used;
    tell(journal::reply_of(edited.answer), beside)
}

// R515. Asked: to undo to an open savepoint.
// Answered: 0; each cell is what it was when that one was opened, which stays open; those inside it are closed.
#[unsafe(no_mangle)]
pub extern "C" fn seambeacon_undo_to_savepoint(
    rules: u32,
    counts: &[u16],
    cells: &mut [i64],
    journal: &mut [u8],
    used: &mut usize,
    savepoint: usize,
    beside: &mut [usize; 8],
) -> u32
    ensures reply { Told (edit_reply
        (call_answer (flagged rules) counts.now journal.old used.old
        cells.old
        (Undoes savepoint))) result
        beside.new }
    ensures used { used.new ≡ used_by used.old (Undoes savepoint)
        (call_answer (flagged rules) counts.now journal.old used.old
        cells.old
        (Undoes savepoint)) }
    ensures cells { cells.new ≡
        cells_after (flagged rules) counts.now journal.old used.old (Undoes savepoint)
        cells.old
        (call_answer (flagged rules) counts.now journal.old used.old
        cells.old
        (Undoes savepoint)) }
    ensures journal { journal.new ≡
        journal_by (flagged rules) counts.now journal.old used.old (Undoes savepoint)
        cells.old
        (call_answer (flagged rules) counts.now journal.old used.old
        cells.old
        (Undoes savepoint)) }
{
    let edited = sao::undo_to_savepoint(rules_of(rules), counts, cells, journal, *used, savepoint);
    *used = edited.used;
    tell(journal::reply_of(edited.answer), beside)
}

// R540 to R543. Asked: to replay a journal over the table that it began with.
// Answered: 0 with the savepoints that are open behind it; the cells are those that its calls left.
// A refusal leaves the cells as they were, and no savepoint is open.
#[unsafe(no_mangle)]
pub extern "C" fn seambeacon_replay(
    rules: u32,
    counts: &[u16],
    cells: &mut [i64],
    journal: &[u8],
    used: usize,
    opened: &mut usize,
    beside: &mut [usize; 8],
) -> u32
    ensures reply { Told (checked_reply
        (replay_of (flagged rules) counts.now journal.now used cells.old)) result
        beside.new }
    ensures opened { opened.new ≡
        replayed_open (flagged rules) counts.now journal.now used cells.old
        (replay_of (flagged rules) counts.now journal.now used cells.old) }
    ensures cells { cells.new ≡
        replayed_cells (flagged rules) counts.now journal.now used cells.old
        (replay_of (flagged rules) counts.now journal.now used cells.old) }
{
    let replayed = sao::replay(rules_of(rules), counts, cells, journal, used);
    *opened = replayed.open;
    tell(Reply::from(replayed.answer), beside)
}
