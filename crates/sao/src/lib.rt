// The questions, R240. Each may be asked of every text, place, number, table and output; nothing has to hold beforehand
// (R241), and what is asked stands apart, as C lends it. The layers answer them; here each has its name, its
// contract and nothing else. A refusal is the error of a `Result`. `Reply::from`, and the layers' `reply_of` where a 0
// has numbers of its own, give an answer's number, with the numbers beside it (R200 to R217 and R222).
#![tactic(auto)]

ghost use Rattle.std.specs.Prelude.{◌≡◌, length};
ghost use Rattle.decimal.specs.Writing.{put_bytes};
ghost use Rattle.place.specs.Placing.{placing_of, counts_at, starts_at, ends_at, carried_by};
ghost use Rattle.reading.specs.Read.{reading_of, table_by};
ghost use Rattle.group.specs.Text.{read_at};
ghost use Rattle.group.specs.Held.{found_at, part_start, part_end, part_at, moved};
ghost use Rattle.group.specs.Characteristics.{characteristic_at};
ghost use Rattle.view.specs.With.{found_with, start_with, end_with, part_with, read_with, characteristic_with};
ghost use Rattle.salvaging.specs.Stretch.{stretch_of};
ghost use Rattle.since.specs.Since.{first_from};
ghost use Rattle.whole.specs.Whole.{whole_read, record_read_of};
ghost use Rattle.writing.specs.Writing.{writing_of, output_by};
ghost use Rattle.rewriting.specs.Record.{rewriting_of, table_after, buffer_by};
ghost use Rattle.journal.specs.Model.{Sets, Opens, Releases, Undoes};
ghost use Rattle.journal.specs.Calls.{answer_of, used_by, cells_after, journal_by};
ghost use Rattle.journal.specs.Plays.{replay_of, replayed_open, replayed_cells};
ghost use Rattle.listing.specs.Listing.{listing, listed_in};

use date::Date;
use group::{Characteristic, Lines};
use journal::{Edited, Replayed};
use place::Record;
use reply::Refusal;
use rewriting::Rewritten;
use since::{Found, Unfound};
use whole::Unread;

// R250 to R253, R259. Asked: which record stands at a place of a text.
// Answered: the placing, with the next place under 0 and 7, the record's 80 counts, and where the lines of each of its
// 60 groups begin and end. A refusal but 7 has next place 0, 80 zero counts and 60 zeros for either place.
pub fn place(rules: rules::Rules, text: &[u8], at: usize) -> Record
    ensures answer { result.answer ≡ placing_of rules text.now at }
    ensures counts { result.counts ≡ counts_at rules text.now at }
    ensures starts { result.starts ≡ starts_at rules text.now at }
    ensures ends { result.ends ≡ ends_at rules text.now at }
{
    place::place(rules, text, at)
}

// R260 to R268. Asked: the cells of a group, 1 to 60, of the record at a place.
// Answered: 0 with the number of cells, which stand in the table from its first cell on; what stands behind them is
// kept. A refusal leaves the whole table as it was.
pub fn read_group(
    rules: rules::Rules,
    text: &[u8],
    at: usize,
    group: usize,
    table: &mut [i64],
) -> Result<usize, Refusal>
    ensures answer { result ≡ reading_of (read_at rules text.now at group (length table.old)) }
    ensures table { table.new ≡
        table_by (read_at rules text.now at group (length table.old)) table.old }
{
    group::read_group(rules, text, at, group, table)
}

// R280 to R284. Asked: where the lines of a group of the record at a place stand in the text.
// Answered: that they can be given, and from where to where they stand; with count 0 both places are where they would
// be. A refusal has its reply, 12 or what placing refuses with, and both places are 0.
pub fn group_lines_at(rules: rules::Rules, text: &[u8], at: usize, group: usize) -> Lines
    ensures found { result.found ≡ found_at rules text.now at group }
    ensures from { result.from ≡ part_start rules text.now at group }
    ensures to { result.to ≡ part_end rules text.now at group }
{
    group::lines_at(rules, text, at, group)
}

// R280 to R284. Asked: the lines of a group, with their line ends.
// Answered: that part of the lent text, not a copy; with count 0 it is empty, and lies where the lines would be.
// A refusal gives the empty part at place 0.
pub fn group_lines<'a>(rules: rules::Rules, text: &'a [u8], at: usize, group: usize) -> &'a [u8]
    ensures bytes { result.now ≡ part_at rules text.now at group }
    ensures address { result.ref_ptr ≡ moved text.entry.ref_ptr (part_start rules text.now at group) }
{
    group::lines_part(rules, text, at, group)
}

// R290 to R296. Asked: a characteristic, 1 to 49, of the record at a place.
// Answered: its value in thousandths, or that there is no reading, or that it is not reported.
// A refusal has its reply: 12, or that of reading group 4.
pub fn characteristic(rules: rules::Rules, text: &[u8], at: usize, number: usize) -> Characteristic
    ensures { result ≡ characteristic_at rules text.now at number }
{
    group::characteristic_at(rules, text, at, number)
}

// ---- The same with a record (R285 to R288): one that `place` gave, of this text or another, or one that is made up.
// It is placed once and asked with as often as there are questions; the part that it names for the group is looked at
// first, and is 22 if it is not exactly as many whole lines of the text as the group's count needs.

// R285 to R287. Asked: the cells of a group, 1 to 60, of a record.
// Answered: 0 with the number of cells, which stand in the table from its first cell on; what stands behind them is
// kept. A refusal (12; 4, 5, 6, 7 by the counts; 22; 11, 8, 9, 10) leaves the whole table as it was.
pub fn record_group(
    rules: rules::Rules,
    text: &[u8],
    lent: Record,
    group: usize,
    table: &mut [i64],
) -> Result<usize, Refusal>
    ensures answer { result ≡
        reading_of (read_with rules text.now (carried_by lent) group (length table.old)) }
    ensures table { table.new ≡
        table_by (read_with rules text.now (carried_by lent) group (length table.old))
        table.old }
{
    view::read_by(rules, text, lent, group, table)
}

// R285, R286. Asked: where the lines of a group of a record stand in the text.
// Answered: that they can be given, and from where to where they stand; with count 0 both places are where they would
// be. A refusal has its reply, 12, 4, 5, 6, 7 or 22, and both places are 0.
pub fn record_lines_at(rules: rules::Rules, text: &[u8], lent: Record, group: usize) -> Lines
    ensures found { result.found ≡ found_with rules text.now (carried_by lent) group }
    ensures from { result.from ≡ start_with rules text.now (carried_by lent) group }
    ensures to { result.to ≡ end_with rules text.now (carried_by lent) group }
{
    view::lines_by(rules, text, lent, group)
}

// R285, R286. Asked: the lines of a group of a record, with their line ends.
// Answered: that part of the lent text, not a copy. A refusal gives the empty part at place 0.
pub fn record_lines<'a>(rules: rules::Rules, text: &'a [u8], lent: Record, group: usize) -> &'a [u8]
    ensures bytes { result.now ≡ part_with rules text.now (carried_by lent) group }
    ensures address { result.ref_ptr ≡
        moved text.entry.ref_ptr (start_with rules text.now (carried_by lent) group) }
{
    view::part_by(rules, text, lent, group)
}

// R297. Asked: a characteristic, 1 to 49, of a record.
// Answered: its value in thousandths, or that there is no reading, or that it is not reported.
// A refusal has its reply: 12, or that of reading group 4, 22 among them.
pub fn record_characteristic(
    rules: rules::Rules,
    text: &[u8],
    lent: Record,
    number: usize,
) -> Characteristic
    ensures { result ≡ characteristic_with rules text.now (carried_by lent) number }
{
    view::characteristic_by(rules, text, lent, number)
}

// R271 to R277. Asked: the cells of all groups of the record at a place.
// Answered: 0 with the number of cells, those of groups 1 to 60 one behind the other, which stand in the table from its
// first cell on; what stands behind them is kept. A refusal has the number of the group that was being read, 0 where
// none was, and leaves the whole table as it was.
pub fn read_record(
    rules: rules::Rules,
    text: &[u8],
    at: usize,
    table: &mut [i64],
) -> Result<usize, Unread>
    ensures answer { result ≡
        record_read_of (whole_read rules text.now at (length table.old)) }
    ensures table { table.new ≡
        table_by (whole_read rules text.now at (length table.old)) table.old }
{
    whole::read_record(rules, text, at, table)
}

// R300 to R307. Asked: to write a record of these counts and of the cells of all groups, group 1's first.
// Answered: 0 with the number of bytes, which stand in the output from its first byte on; what stands behind them is
// kept. A refusal leaves the whole output as it was.
pub fn write_record(
    rules: rules::Rules,
    counts: &[u16],
    cells: &[i64],
    out: &mut [u8],
) -> Result<usize, Refusal>
    ensures answer { result ≡
        writing_of rules counts.now cells.now (length out.old) }
    ensures output { out.new ≡
        output_by rules counts.now cells.now result out.old }
{
    writing::write_record(rules, counts, cells, out)
}

// R310, R311. Asked: the listing of a text, a line for each record of its walk and the line `end`.
// Answered: 0 with the number of bytes, which stand in the output from its first byte on; what stands behind them is
// kept. A refusal (11) leaves the whole output as it was.
pub fn list(rules: rules::Rules, text: &[u8], out: &mut [u8]) -> Result<usize, Refusal>
    ensures answer { result ≡ listed_in (listing rules text.now) (length out.old) }
    ensures output { out.new ≡ put_bytes 0 (listing rules text.now) out.old }
{
    listing::list(rules, text, out)
}

// R320 to R326. Asked: to rewrite the record at a place as canonical text.
// Answered: 0 with the number of bytes and the next place; the bytes stand in the output from its first byte on, the
// record's cells in the table from its first cell on, and what stands behind them is kept.
// A refusal has the number of the group that was being read, 0 where none was, and leaves the whole output and the
// whole table as they were.
pub fn rewrite_record(
    rules: rules::Rules,
    text: &[u8],
    at: usize,
    table: &mut [i64],
    out: &mut [u8],
) -> Result<Rewritten, Unread>
    ensures answer { result ≡
        rewriting_of rules text.now at (length table.old) (length out.old) }
    ensures table { table.new ≡ table_after rules text.now at result table.old }
    ensures output { out.new ≡ buffer_by rules text.now at result out.old }
{
    rewriting::rewrite_record(rules, text, at, table, out)
}

// R330 to R337. Asked: the first record of a text's walk that is not earlier than a date, which is given by the seven
// numbers that group 3 has.
// Answered: 0 with the record's place, and how many records were passed before it. What stands behind it has no part in
// the answer.
// A refusal has how many records were passed: 10 for a date that breaks the rules of the date, before the text is
// looked at; where there is no such record, what the walk stopped with behind all of them, one of 1 and 3 to 6.
pub fn first_from(rules: rules::Rules, text: &[u8], from: Date) -> Result<Found, Unfound>
    ensures { result ≡ first_from rules text.now from }
{
    since::first_from(rules, text, from)
}

// R350 to R352. Asked: where the stretch ends that begins at a place of a text, whatever stands there.
// Answered: 0 with the next place: the first later line start at which a record is placed with 0 and its groups 1, 3
// and 4 read with 0, or the text's end if there is none. So a walk that stops may go on.
// A refusal: 2 beyond the text, 1 at its end.
pub fn stretch_end(rules: rules::Rules, text: &[u8], at: usize) -> Result<usize, Refusal>
    ensures { result ≡ stretch_of rules text.now at }
{
    salvaging::stretch_end(rules, text, at)
}

// ---- The edit journal, R500 to R550. What is kept between two calls is the caller's: the counts of a record, the
// table of its cells in group order, a journal and how many of its bytes are used; a fresh journal has 0 used.

// R512. Asked: to set a cell, counted from 1, of a group.
// Answered: 0; the cell has the value, and the journal a field more, which has the old value too.
// A refusal leaves cells, journal and bytes used as they were; so do those of the next three.
pub fn set_cell(
    rules: rules::Rules,
    counts: &[u16],
    cells: &mut [i64],
    journal: &mut [u8],
    used: usize,
    group: usize,
    cell: usize,
    value: i64,
) -> Edited
    ensures answer { result.answer ≡
        answer_of rules counts.now journal.old used (length cells.old)
        (Sets group cell value) }
    ensures used { result.used ≡ used_by used (Sets group cell value) result.answer }
    ensures cells { cells.new ≡
        cells_after rules counts.now journal.old used (Sets group cell value)
        cells.old result.answer }
    ensures journal { journal.new ≡
        journal_by rules counts.now journal.old used (Sets group cell value)
        cells.old result.answer }
{
    journal::set_cell(rules, counts, cells, journal, used, group, cell, value)
}

// R513. Asked: to open a savepoint inside those that are open, at most 16.
// Answered: 0 with its number.
pub fn open_savepoint(
    rules: rules::Rules,
    counts: &[u16],
    cells: &[i64],
    journal: &mut [u8],
    used: usize,
) -> Edited
    ensures answer { result.answer ≡
        answer_of rules counts.now journal.old used (length cells.now) Opens }
    ensures used { result.used ≡ used_by used Opens result.answer }
    ensures journal { journal.new ≡
        journal_by rules counts.now journal.old used Opens cells.now result.answer }
{
    journal::open_savepoint(rules, counts, cells, journal, used)
}

// R514. Asked: to release the innermost savepoint.
// Answered: 0; what was set since it was opened stays, and belongs to the one outside.
pub fn release_savepoint(
    rules: rules::Rules,
    counts: &[u16],
    cells: &[i64],
    journal: &mut [u8],
    used: usize,
    savepoint: usize,
) -> Edited
    ensures answer { result.answer ≡
        answer_of rules counts.now journal.old used (length cells.now)
        (Releases savepoint) }
    ensures used { result.used ≡ used_by used (Releases savepoint) result.answer }
    ensures journal { journal.new ≡
        journal_by rules counts.now journal.old used (Releases savepoint)
        cells.now result.answer }
{
    journal::release_savepoint(rules, counts, cells, journal, used, savepoint)
}

// R515. Asked: to undo to an open savepoint.
// Answered: 0; each cell is what it was when that one was opened, which stays open; those inside it are closed.
pub fn undo_to_savepoint(
    rules: rules::Rules,
    counts: &[u16],
    cells: &mut [i64],
    journal: &mut [u8],
    used: usize,
    savepoint: usize,
) -> Edited
    ensures answer { result.answer ≡
        answer_of rules counts.now journal.old used (length cells.old)
        (Undoes savepoint) }
    ensures used { result.used ≡ used_by used (Undoes savepoint) result.answer }
    ensures cells { cells.new ≡
        cells_after rules counts.now journal.old used (Undoes savepoint)
        cells.old result.answer }
    ensures journal { journal.new ≡
        journal_by rules counts.now journal.old used (Undoes savepoint)
        cells.old result.answer }
{
    journal::undo_to_savepoint(rules, counts, cells, journal, used, savepoint)
}

// R540 to R543. Asked: to replay a journal over the table that it began with.
// Answered: 0 with the savepoints that are open behind it; the cells are those that its calls left.
// A refusal leaves the cells as they were.
pub fn replay(
    rules: rules::Rules,
    counts: &[u16],
    cells: &mut [i64],
    journal: &[u8],
    used: usize,
) -> Replayed
    ensures answer { result.answer ≡
        replay_of rules counts.now journal.now used cells.old }
    ensures open { result.open ≡
        replayed_open rules counts.now journal.now used cells.old result.answer }
    ensures cells { cells.new ≡
        replayed_cells rules counts.now journal.now used cells.old result.answer }
{
    journal::replay(rules, counts, cells, journal, used)
}
