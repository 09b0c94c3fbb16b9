// R271, a whole record in one call: its groups are checked in their order, and then one table is filled for all of
// them. Any text, place and table may be given (R241).
#![tactic(auto)]

ghost use Rattle.std.specs.Prelude.{◌≡◌, ◌≤◌, length};
ghost use Rattle.base.specs.Part.{over};
ghost use Rattle.base.specs.Pieces.{cells_got};
ghost use Rattle.count.specs.Tally.{record_cells};
ghost use Rattle.place.specs.Placing.{carried};
ghost use Rattle.reading.specs.Read.{table_by};
ghost use Rattle.whole.specs.Numbered.{record_reply, group_told};
ghost use Rattle.whole.specs.Whole.{unread, whole_read, record_read_of, groups_of, all_by, whole_by};

use form::Group;
use place::PlacedRecord;
use reply::Refusal;

// R272: why a record is not read: the group that was being read, 0 where none was, and what it is refused with.
#[derive(Clone, Copy, Debug, PartialEq, Eq)]
pub struct Unread {
    pub group: usize,
    pub why: Refusal,
}

// R272: what is refused before a group is read.
impl From<Refusal> for Unread {
    ghost from_gives = { λ why answer. answer ≡ unread (0, why) };

    fn from(why: Refusal) -> Unread {
        Unread { group: 0, why }
    }
}

// ---- Two passes over the groups of a placed record.

// The first pass: groups 1 to 60, up to the first that is refused. It looks at no table.
fn check_groups(rules: rules::Rules, placed: PlacedRecord<'_>) -> Result<(), Unread>
    ensures { result ≡ groups_of (all_by rules placed.entry.text.now (carried placed.entry.counts.now placed.entry.starts.now placed.entry.ends.now)) }
{
    for number in 1..61 {
        let group = Group { number };
        let lines = placed.lines(group);
        reading::check_kept(rules, placed.kept(), group, lines).map_err(|why| Unread {
            group: group.number,
            why,
        })?;
    }
    Ok(())
}

// The second pass, a loop of its own, since all groups are checked before a cell is put (R276): the cells of groups
// that were all found clean, into consecutive parts of the table.
fn fill_groups(rules: rules::Rules, placed: PlacedRecord<'_>, table: &mut [i64])
    requires clean { groups_of (all_by rules placed.text.now (carried placed.counts.now placed.starts.now placed.ends.now)) ≡ Ok tt }
    requires room { record_cells rules placed.counts.now ≤ length table.old }
    ensures { table.new ≡
        over 0
        (cells_got (all_by rules placed.entry.text.now (carried placed.entry.counts.now placed.entry.starts.now placed.entry.ends.now)))
        table.old }
{
    let mut cell: usize = 0;
    for next in 1..61 {
        let group = Group { number: next };
        let lines = placed.lines(group);
        cell = reading::fill_kept(rules, placed.kept(), group, lines, table, cell);
    }
}

// R273 to R276 for a record that is placed: 11, then all groups, and only then the table. Inlined, so that where a
// record was just placed its 80 counts are known, and no group's number is tested against them.
#[inline(always)]
pub fn read_placed(
    rules: rules::Rules,
    placed: PlacedRecord<'_>,
    table: &mut [i64],
) -> Result<usize, Unread>
    ensures answer { result ≡
        record_read_of
        (whole_by rules placed.entry.text.now (carried placed.entry.counts.now placed.entry.starts.now placed.entry.ends.now)
        (length table.old)) }
    ensures table { table.new ≡
        table_by
        (whole_by rules placed.entry.text.now (carried placed.entry.counts.now placed.entry.starts.now placed.entry.ends.now)
        (length table.old)) table.old }
{
    let cells = count::add_up(rules, placed.counts, 61).cells;
    if table.len() < cells {
        return Err(Unread::from(Refusal::NoRoom));
    }
    check_groups(rules, placed)?;
    fill_groups(rules, placed, table);
    Ok(cells)
}

// ---- Reading the record at a place.

// R272: what placing refuses with, 7 without its next place (R235); 11; what the first group that is refused is refused
// with, and which group that is; else 0 with the cells. A refusal alters no cell (R276).
pub fn read_record(
    rules: rules::Rules,
    text: &[u8],
    at: usize,
    table: &mut [i64],
) -> Result<usize, Unread>
    ensures answer { result ≡
        record_read_of (whole_read rules text.now at (length table.old)) }
    ensures table { table.new ≡
        table_by (whole_read rules text.now at (length table.old)) table.old }
{
    let record = place::place(rules, text, at);
    place::as_checked(record.answer)?;
    read_placed(
        rules,
        PlacedRecord {
            text,
            counts: &record.counts,
            starts: &record.starts,
            ends: &record.ends,
        },
        table,
    )
}

// ---- Replies.

// R200 to R211: the answer's number, with the numbers beside it. Neither `Result` nor `Reply` is of this crate, so no
// `From` may be written here.
pub fn reply_of(answer: Result<usize, Unread>) -> reply::Reply
    ensures { result ≡ record_reply answer }
{
    match answer {
        Ok(cells) => reply::written(0, cells),
        Err(unread) => reply::Reply::from(unread.why),
    }
}

// R272, R323: the group that was being read; 0 where none was. It is told apart from the reply, as C has it.
pub fn group_of<T: Copy>(answer: Result<T, Unread>) -> usize
    ensures { result ≡ group_told answer }
{
    match answer {
        Ok(_) => 0,
        Err(unread) => unread.group,
    }
}
