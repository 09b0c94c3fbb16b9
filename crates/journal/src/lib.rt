// R500 to R550: the edit journal. All that is kept between calls is the caller's: the counts and the table of all
// cells of a record, a buffer of bytes and how many of them are used. No call has a `requires`: whatever is lent is
// looked at first (R550).
#![tactic(auto)]

ghost use Rattle.std.specs.Prelude.{◌≡◌, true, cond, IfOk, ◌+◌, ◌-◌, ◌<◌, ◌≤◌, ◌^◌, ltb, length, take};
ghost use Rattle.base.specs.Part.{over};
ghost use Rattle.entry.specs.Field.{entry_text, entry_size, set_bytes, savepoint_bytes};
ghost use Rattle.reply.specs.declared.Refusal.TheVariants.{NoRoom};
ghost use Rattle.journal.specs.Layout.{starts_of, spot_of, get_at, put_at};
ghost use Rattle.journal.specs.Model.{Sets, Opens, Releases, Undoes, by_answer};
ghost use Rattle.journal.specs.Entries.{give_back, restore, entries_at, place_at, back_to};
ghost use Rattle.journal.specs.Walks.{ok_entry, depth_after, down, MarksBelow, WalksTo, next_field, passed};
ghost use Rattle.journal.specs.Calls.{whole, Finds, answer_of, cells_after, journal_by, used_by};
ghost use Rattle.journal.specs.Numbered.{edit_reply};
ghost use Rattle.journal.specs.Plays.{matches, played_by, play_of, Plays, by_checked};
ghost use Rattle.journal.specs.Plays.{replay_of, replayed_cells, replayed_open};

use entry::Entry;
use form::Group;
use reply::{Refusal, Reply};

// What a call answers, and how many bytes of the journal are used behind it. 0 of an open has the savepoint's number.
// The bytes used stand beside the answer, since they are told of a refused call too (R518).
#[derive(Clone, Copy)]
pub struct Edited {
    pub answer: Result<usize, Refusal>,
    pub used: usize,
}

// What a replay answers, and how many savepoints are open behind it; none on a refusal, of which that is told too
// (R542).
#[derive(Clone, Copy)]
pub struct Replayed {
    pub answer: Result<(), Refusal>,
    pub open: usize,
}

// The bytes of a journal, and where the cells of each group begin in the table that its fields alter: neither speaks of
// the other's places.
#[derive(Clone, Copy)]
struct Fields<'a> {
    pub bytes: &'a [u8],
    pub starts: &'a [usize; 62],
}

// How far a walk came, with how many fields, and the savepoints open there: `marks` has the number of fields before
// each one's open, and `depth` tells how many there are: memory is fixed, 16 savepoints at most (R511), so it is no
// list.
#[derive(Clone, Copy)]
struct State {
    pub place: usize,
    pub count: usize,
    pub depth: usize,
    pub marks: [usize; 17],
}

// What a call finds that is not refused before it is looked at itself: where the cells of each group begin, and the
// state behind the journal's fields.
#[derive(Clone, Copy)]
struct Looked {
    pub starts: [usize; 62],
    pub state: State,
}

// ---- The table.

// R501: where the cells of each group begin.
fn starts_of(rules: rules::Rules, counts: &[u16]) -> [usize; 62]
    ensures { result ≡ starts_of rules counts.now }
{
    // the range counts groups, and each start stands under the next one's number
    let mut starts = [0; 62];
    let mut sum = 0;
    for number in 1..61 {
        let group = Group { number };
        sum += form::cells(rules, group.form(), count::count_of(counts, number));
        starts[number + 1] = sum;
    }
    starts
}

// R502: the cell of a group, if there is one.
#[tactic(auto, using(crate::proofs::Spots::spot_no_group), unfolding(crate::specs::Layout::spot_of))]
fn spot_of(starts: &[usize; 62], group: usize, cell: usize) -> Option<usize>
    ensures { result ≡ spot_of starts.now group cell }
{
    if 60 < group {
        return None;
    }
    let start = starts[group];
    let before = cell.checked_sub(1)?;
    (before < starts[group + 1].saturating_sub(start)).then(|| start + before)
}

// R502: what a cell holds; 0 where there is none. `get` and `get_mut` alone would have each caller say what is done
// with none.
fn get_at(cells: &[i64], spot: Option<usize>) -> i64
    ensures { result ≡ get_at spot cells.now }
{
    spot.and_then(|place| cells.get(place))
        .copied()
        .unwrap_or(0)
}

fn put_at(cells: &mut [i64], spot: Option<usize>, value: i64)
    ensures { cells.new ≡ put_at spot value cells.old }
{
    if let Some(place) = spot
        && place < cells.len()
    {
        cells[place] = value;
    }
}

// A set gives its old value back.
fn give_back(cells: &mut [i64], starts: &[usize; 62], entry: Entry)
    ensures { cells.new ≡ give_back starts.now entry cells.old }
{
    if let Entry::Set(group, cell, old, _) = entry {
        put_at(cells, spot_of(starts, group, cell), old);
    }
}

// R531: the savepoints open behind a field, if its call would be accepted.
fn depth_after(starts: &[usize; 62], entry: Entry, depth: usize) -> Option<usize>
    ensures { result ≡ depth_after starts.now entry depth }
{
    match entry {
        Entry::Set(group, cell, ..) => spot_of(starts, group, cell).map(|_| depth),
        Entry::Open(k) => (depth < 16 && k == depth + 1).then_some(k),
        Entry::Release(k) => (0 < k && k == depth).then(|| depth - 1),
        Entry::Undo(k) => (0 < k && k <= depth).then_some(k),
        Entry::Misformed => None,
    }
}

// ---- A journal's fields.

impl State {
    // Before the first field.
    const START: State = State {
        place: 0,
        count: 0,
        depth: 0,
        marks: [0; 17],
    };

    // Behind one field more, of so many bytes, and so many savepoints open there.
    fn pass(&mut self, size: usize, depth: usize)
        requires place { self.old.place + size < 2 ^ 64 }
        requires count { self.old.count + 1 < 2 ^ 64 }
        requires depth { self.old.depth ≤ 16 }
        ensures { self.new ≡ passed self.old size depth }
    {
        self.marks[self.depth] = self.count;
        self.place += size;
        self.count += 1;
        self.depth = depth;
    }
}

impl Fields<'_> {
    // The place behind n fields.
    #[tactic(auto, using(entry::proofs::Reading::next_within, crate::proofs::Places::place_done, crate::proofs::Places::place_more))]
    fn place_after(&self, at: usize, n: usize) -> usize
        requires inside { at ≤ length self.now.bytes.now }
        ensures place { result ≡ place_at self.now.bytes.now at n }
        ensures within { result ≤ length self.now.bytes.now }
    {
        let mut place = at;
        for _i in 0..n {
            place += entry::size(entry::field_at(self.bytes, place));
        }
        place
    }

    // R515: the sets among n fields give their old values back, the last first: the later half, then the earlier.
    // Fields have two sizes and can't be gone through backward; a half's beginning is found by going forward.
    #[tactic(auto, using(crate::proofs::Places::back_none, crate::proofs::Places::back_one, crate::proofs::Places::back_halves))]
    fn restore_at(&self, cells: &mut [i64], at: usize, n: usize)
        requires inside { at ≤ length self.now.bytes.now }
        ensures { cells.new ≡
            restore self.now.starts.now (entries_at self.now.bytes.now at n) cells.old }
    {
        if n == 0 {
            return;
        }
        if n == 1 {
            give_back(cells, self.starts, entry::field_at(self.bytes, at));
            return;
        }
        let half = n / 2;
        let middle = self.place_after(at, half);
        self.restore_at(cells, middle, n - half);
        self.restore_at(cells, at, half);
    }

    // R515: what the fields from number m on, of n, give back.
    fn undo_from(&self, cells: &mut [i64], m: usize, n: usize)
        requires before { m ≤ n }
        ensures { cells.new ≡ back_to self.now.starts.now self.now.bytes.now m n cells.old }
    {
        let place = self.place_after(0, m);
        self.restore_at(cells, place, n - m);
    }

    // R530: the field behind those passed, and the savepoints open behind it; none where it is misformed or its call
    // would not be accepted.
    fn next(&self, state: &State) -> Option<(Entry, usize)>
        requires { state.now.place ≤ length self.now.bytes.now }
        ensures { result ≡ next_field self.now.starts.now self.now.bytes.now state.now }
    {
        let entry = entry::field_at(self.bytes, state.place);
        let depth = depth_after(self.starts, entry, state.depth)?;
        Some((entry, depth))
    }

    // R530: all fields, up to the first that is misformed or whose call would not be accepted. The next place is told
    // by the field that stands there, so no range counts it.
    #[tactic(auto, using(crate::proofs::Walking::walking_start, crate::proofs::Walking::walking_stop, crate::proofs::Walking::nearer_end))]
    fn walk(&self) -> State
        ensures { WalksTo self.now.starts.now self.now.bytes.now result }
    {
        let mut state = State::START;
        while let Some((entry, depth)) = self.next(&state) {
            state.pass(entry::size(entry), depth);
        }
        state
    }

    // R541: one accepted field over the cells; false, and nothing altered, where its old value is not the cell's.
    #[tactic(auto, using(crate::proofs::Walking::down_mark))]
    fn play_one(&self, cells: &mut [i64], entry: Entry, state: &State) -> bool
        requires ok { ok_entry self.now.starts.now entry state.now.depth ≡ true }
        requires few { state.now.depth ≤ 16 }
        requires below { MarksBelow state.now.depth state.now.marks state.now.count }
        ensures same { result ≡ matches self.now.starts.now entry cells.old }
        ensures cells { cells.new ≡
            cond result (played_by self.now.starts.now entry self.now.bytes.now state.now.count (down state.now.depth
            state.now.marks) cells.entry.now) cells.old }
    {
        match entry {
            Entry::Set(group, cell, old, new) => {
                let spot = spot_of(self.starts, group, cell);
                if get_at(cells, spot) != old {
                    return false;
                }
                put_at(cells, spot, new);
            }
            Entry::Undo(k) => self.undo_from(cells, state.marks[k - 1], state.count),
            Entry::Open(_) | Entry::Release(_) | Entry::Misformed => {}
        }
        true
    }

    // R540: field after field over the cells, up to the first that is refused. It is a loop beside the walk's: one loop
    // for both would take each field's step over the cells as a closure, and its contract would have to say by the
    // closure's calls what the two clauses say plainly.
    #[tactic(auto, using(crate::proofs::Playing::plays_start, crate::proofs::Playing::plays_stop, crate::proofs::Walking::nearer_end))]
    fn play(&self, cells: &mut [i64]) -> State
        ensures { Plays self.now.starts.now self.now.bytes.now cells.old result cells.new }
    {
        let mut state = State::START;
        while let Some((entry, depth)) = self.next(&state) {
            if !self.play_one(cells, entry, &state) {
                return state;
            }
            state.pass(entry::size(entry), depth);
        }
        state
    }

    // R540, R542: the fields replayed, of whose bytes `used` are said to be used. Where a field is refused the cells go
    // back to what they were: each set that was played gives its old value back.
    #[tactic(auto, using(crate::proofs::Answers::played_place, crate::proofs::Answers::played_cells, crate::proofs::Answers::played_back))]
    fn replay(&self, cells: &mut [i64], used: usize) -> Replayed
        ensures answer { result.answer ≡
            whole (play_of self.now.starts.now self.now.bytes.now cells.old).place used }
        ensures open { result.open ≡
            by_checked result.answer (length (play_of self.now.starts.now self.now.bytes.now cells.old).marks)
            0 }
        ensures cells { cells.new ≡
            by_checked result.answer (play_of self.now.starts.now self.now.bytes.now cells.old).cells cells.old }
    {
        let state = self.play(cells);
        if state.place == used {
            return Replayed {
                answer: Ok(()),
                open: state.depth,
            };
        }
        self.restore_at(cells, 0, state.count);
        Replayed {
            answer: Err(Refusal::BadEntry(state.place)),
            open: 0,
        }
    }
}

// ---- The calls. What a call works on is lent apart, as C lends it and as the clauses name it.

// R550: what every call begins with: the replies 4, 5, 6, 7, 14 and 17, or where the cells stand and the state behind
// the journal's fields. R532: where more bytes are said to be used than the buffer has, all of it is walked.
#[tactic(auto, using(crate::proofs::Answers::check_fails, crate::proofs::Answers::walk_fails, std::proofs::lemmas::List::take_min))]
fn look(
    rules: rules::Rules,
    counts: &[u16],
    cells: usize,
    journal: &[u8],
    used: usize,
) -> Result<Looked, Refusal>
    ensures { Finds rules counts.now journal.now used cells result }
{
    count::check(rules, counts, cells)?;
    let starts = starts_of(rules, counts);
    let bytes = &journal[..used.min(journal.len())];
    let fields = Fields {
        bytes,
        starts: &starts,
    };
    let state = fields.walk();
    if state.place != used {
        return Err(Refusal::BadEntry(state.place));
    }
    Ok(Looked { starts, state })
}

// The field of a call that is accepted, behind the bytes used; 11 where there is no room for it.
fn add(journal: &mut [u8], used: usize, entry: Entry) -> Result<(), Refusal>
    requires inside { used ≤ length journal.old }
    ensures answer { result ≡
        cond (ltb (length journal.old - used) (entry_size entry)) (Err NoRoom) (Ok tt) }
    ensures journal { journal.new ≡
        by_checked result (over used (entry_text entry) journal.old) journal.old }
{
    if journal.len() - used < entry::size(entry) {
        return Err(Refusal::NoRoom);
    }
    entry::put_entry(journal, used, entry);
    Ok(())
}

impl Edited {
    // R518: a call that is done has used the bytes of its field; a refused one leaves their number.
    fn of(answer: Result<usize, Refusal>, used: usize, bytes: usize) -> Edited
        requires room { IfOk answer (λ n. used + bytes < 2 ^ 64) }
        ensures answer { result.answer ≡ answer }
        ensures used { result.used ≡ by_answer answer (used + bytes) used }
    {
        let used = if answer.is_ok() { used + bytes } else { used };
        Edited { answer, used }
    }
}

// R512: sets a cell of a group, and tells 0.
#[tactic(auto, using(crate::proofs::Walking::down_length), unfolding(crate::specs::Calls::answer_of))]
fn set_in(
    rules: rules::Rules,
    counts: &[u16],
    cells: &mut [i64],
    journal: &mut [u8],
    used: usize,
    group: usize,
    cell: usize,
    value: i64,
) -> Result<usize, Refusal>
    ensures answer { result ≡
        answer_of rules counts.now journal.old used (length cells.old) (Sets group cell
        value) }
    ensures room { IfOk result (λ n. used + set_bytes ≤ length journal.old) }
    ensures cells { cells.new ≡
        cells_after rules counts.now journal.old used (Sets group cell value)
        cells.old result }
    ensures journal { journal.new ≡
        journal_by rules counts.now journal.old used (Sets group cell value)
        cells.old result }
{
    let found = look(rules, counts, cells.len(), journal, used)?;
    let place = spot_of(&found.starts, group, cell).ok_or(Refusal::NoSuchNumber)?;
    let old = get_at(cells, Some(place));
    add(journal, used, Entry::Set(group, cell, old, value))?;
    put_at(cells, Some(place), value);
    Ok(0)
}

// R513: opens a savepoint, and tells its number. Beside `release_in`: other refusals, another field and another number
// told.
#[tactic(auto, using(crate::proofs::Walking::down_length), unfolding(crate::specs::Calls::answer_of))]
fn open_in(
    rules: rules::Rules,
    counts: &[u16],
    cells: &[i64],
    journal: &mut [u8],
    used: usize,
) -> Result<usize, Refusal>
    ensures answer { result ≡
        answer_of rules counts.now journal.old used (length cells.now) Opens }
    ensures room { IfOk result (λ n. used + savepoint_bytes ≤ length journal.old) }
    ensures journal { journal.new ≡
        journal_by rules counts.now journal.old used Opens cells.now result }
{
    let found = look(rules, counts, cells.len(), journal, used)?;
    let depth = found.state.depth;
    if 16 <= depth {
        return Err(Refusal::AllOpen);
    }
    add(journal, used, Entry::Open(depth + 1))?;
    Ok(depth + 1)
}

// R514: releases the innermost savepoint, and tells 0. Beside `open_in`, and for its reason.
#[tactic(auto, using(crate::proofs::Walking::down_length), unfolding(crate::specs::Calls::answer_of))]
fn release_in(
    rules: rules::Rules,
    counts: &[u16],
    cells: &[i64],
    journal: &mut [u8],
    used: usize,
    savepoint: usize,
) -> Result<usize, Refusal>
    ensures answer { result ≡
        answer_of rules counts.now journal.old used (length cells.now) (Releases
        savepoint) }
    ensures room { IfOk result (λ n. used + savepoint_bytes ≤ length journal.old) }
    ensures journal { journal.new ≡
        journal_by rules counts.now journal.old used (Releases savepoint) cells.now result }
{
    let found = look(rules, counts, cells.len(), journal, used)?;
    if savepoint == 0 || savepoint != found.state.depth {
        return Err(Refusal::NotOpen);
    }
    add(journal, used, Entry::Release(savepoint))?;
    Ok(0)
}

// R515: undoes to a savepoint that is open, and tells 0. What the cells go back over stands before the field that is
// added.
#[tactic(auto, using(crate::proofs::Walking::down_length, crate::proofs::Walking::down_mark, crate::proofs::Answers::take_over), unfolding(crate::specs::Calls::answer_of))]
fn undo_in(
    rules: rules::Rules,
    counts: &[u16],
    cells: &mut [i64],
    journal: &mut [u8],
    used: usize,
    savepoint: usize,
) -> Result<usize, Refusal>
    ensures answer { result ≡
        answer_of rules counts.now journal.old used (length cells.old)
        (Undoes savepoint) }
    ensures room { IfOk result (λ n. used + savepoint_bytes ≤ length journal.old) }
    ensures cells { cells.new ≡
        cells_after rules counts.now journal.old used (Undoes savepoint) cells.old result }
    ensures journal { journal.new ≡
        journal_by rules counts.now journal.old used (Undoes savepoint) cells.old result }
{
    let found = look(rules, counts, cells.len(), journal, used)?;
    let state = found.state;
    if savepoint == 0 || state.depth < savepoint {
        return Err(Refusal::NotOpen);
    }
    add(journal, used, Entry::Undo(savepoint))?;
    let fields = Fields {
        bytes: &journal[..used],
        starts: &found.starts,
    };
    fields.undo_from(cells, state.marks[savepoint - 1], state.count);
    Ok(0)
}

// R512: sets a cell of a group, counted from 1.
pub fn set_cell(
    rules: rules::Rules,
    counts: &[u16],
    cells: &mut [i64],
    journal: &mut [u8],
    used: usize,
    group: usize,
    cell: usize,
    value: i64,
) -> Edited
    ensures answer { result.answer ≡
        answer_of rules counts.now journal.old used (length cells.old) (Sets group cell
        value) }
    ensures used { result.used ≡ used_by used (Sets group cell value) result.answer }
    ensures cells { cells.new ≡
        cells_after rules counts.now journal.old used (Sets group cell value)
        cells.old result.answer }
    ensures journal { journal.new ≡
        journal_by rules counts.now journal.old used (Sets group cell value)
        cells.old result.answer }
{
    let answer = set_in(rules, counts, cells, journal, used, group, cell, value);
    Edited::of(answer, used, 22)
}

// R513: opens a savepoint inside those that are open; its number is told.
pub fn open_savepoint(
    rules: rules::Rules,
    counts: &[u16],
    cells: &[i64],
    journal: &mut [u8],
    used: usize,
) -> Edited
    ensures answer { result.answer ≡
        answer_of rules counts.now journal.old used (length cells.now) Opens }
    ensures used { result.used ≡ used_by used Opens result.answer }
    ensures journal { journal.new ≡
        journal_by rules counts.now journal.old used Opens cells.now result.answer }
{
    let answer = open_in(rules, counts, cells, journal, used);
    Edited::of(answer, used, 4)
}

// R514: releases the innermost savepoint; what was set since it was opened stays, and belongs to the one outside. It
// takes what `undo_to_savepoint` takes, but alters no cell: C lends them to be read alone.
pub fn release_savepoint(
    rules: rules::Rules,
    counts: &[u16],
    cells: &[i64],
    journal: &mut [u8],
    used: usize,
    savepoint: usize,
) -> Edited
    ensures answer { result.answer ≡
        answer_of rules counts.now journal.old used (length cells.now) (Releases
        savepoint) }
    ensures used { result.used ≡ used_by used (Releases savepoint) result.answer }
    ensures journal { journal.new ≡
        journal_by rules counts.now journal.old used (Releases savepoint) cells.now result.answer }
{
    let answer = release_in(rules, counts, cells, journal, used, savepoint);
    Edited::of(answer, used, 4)
}

// R515: brings the cells to what they were when a savepoint was opened; it stays open, and those inside it are closed.
pub fn undo_to_savepoint(
    rules: rules::Rules,
    counts: &[u16],
    cells: &mut [i64],
    journal: &mut [u8],
    used: usize,
    savepoint: usize,
) -> Edited
    ensures answer { result.answer ≡
        answer_of rules counts.now journal.old used (length cells.old)
        (Undoes savepoint) }
    ensures used { result.used ≡ used_by used (Undoes savepoint) result.answer }
    ensures cells { cells.new ≡
        cells_after rules counts.now journal.old used (Undoes savepoint) cells.old result.answer }
    ensures journal { journal.new ≡
        journal_by rules counts.now journal.old used (Undoes savepoint) cells.old result.answer }
{
    let answer = undo_in(rules, counts, cells, journal, used, savepoint);
    Edited::of(answer, used, 4)
}

// R540: replays a journal over the table that it was begun on, and tells how many savepoints are open.
#[tactic(auto, using(crate::proofs::Answers::replay_refused, crate::proofs::Answers::replay_right, std::proofs::lemmas::List::take_min))]
pub fn replay(
    rules: rules::Rules,
    counts: &[u16],
    cells: &mut [i64],
    journal: &[u8],
    used: usize,
) -> Replayed
    ensures answer { result.answer ≡
        replay_of rules counts.now journal.now used cells.old }
    ensures open { result.open ≡
        replayed_open rules counts.now journal.now used cells.old result.answer }
    ensures cells { cells.new ≡
        replayed_cells rules counts.now journal.now used cells.old result.answer }
{
    if let Err(why) = count::check(rules, counts, cells.len()) {
        return Replayed {
            answer: Err(why),
            open: 0,
        };
    }
    let starts = starts_of(rules, counts);
    let bytes = &journal[..used.min(journal.len())];
    let fields = Fields {
        bytes,
        starts: &starts,
    };
    fields.replay(cells, used)
}

// ---- Replies.

// R516: the reply of a call's answer: 0 of an open has the savepoint's number beside it. It is no `From`, since that of
// such a result tells cells or bytes that were written.
pub fn reply_of(answer: Result<usize, Refusal>) -> Reply
    ensures { result ≡ edit_reply answer }
{
    match answer {
        Ok(savepoint) => reply::opened(savepoint),
        Err(why) => Reply::from(why),
    }
}
