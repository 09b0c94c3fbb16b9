// R520 to R524: one field of the edit journal: its bytes, and the entry that they tell.
#![tactic(auto)]

ghost use Rattle.std.specs.Prelude.{◌≡◌, ◌+◌, ◌<◌, ◌≤◌, length, take, drop};
ghost use Rattle.base.specs.Part.{over};
ghost use Rattle.entry.specs.Bytes.{number_bytes, value_from};
ghost use Rattle.entry.specs.Field.{entry_text, entry_size, set_bytes, savepoint_bytes};
ghost use Rattle.entry.specs.Field.{tagged, set_of, field_at};

// R521, R522: what a field tells: a set with its group, its cell in the group from 1, the old and the new value; an
// open, a release or an undo with the savepoint's number. R523: or none of these, which is a variant and no `None`:
// `BothWays` (specs/Codec.antt) speaks of what is written and read for every field, of such a one that it is nothing.
#[derive(Clone, Copy)]
pub enum Entry {
    Set(usize, usize, i64, i64),
    Open(usize),
    Release(usize),
    Undo(usize),
    Misformed,
}

// The bytes that an entry's field takes.
pub fn size(entry: Entry) -> usize
    ensures { result ≡ entry_size entry }
{
    match entry {
        Entry::Set(..) => 22,
        Entry::Open(_) | Entry::Release(_) | Entry::Undo(_) => 4,
        Entry::Misformed => 0,
    }
}

// R520: the low k bytes of a number at a place, high byte first.
#[tactic(auto, using(crate::proofs::Numbers::low_bytes, crate::proofs::Numbers::length_bytes, base::proofs::Part::over_lent))]
fn put_number_at(out: &mut [u8], at: usize, k: usize, n: u64)
    requires room { at + k ≤ length out.old }
    requires few { k ≤ 8 }
    ensures { out.new ≡ over at (number_bytes k n) out.old }
{
    out[at..at + k].copy_from_slice(&n.to_be_bytes()[8 - k..]);
}

// The number that k bytes at a place hold.
#[tactic(auto, using(crate::proofs::Numbers::filled_value, base::proofs::Part::part_length))]
fn number_at(s: &[u8], at: usize, k: usize) -> u64
    requires inside { at + k ≤ length s.now }
    requires few { k ≤ 8 }
    ensures { result ≡ value_from 0 (take k (drop at s.now)) }
{
    let mut bytes = [0; 8];
    bytes[8 - k..].copy_from_slice(&s[at..at + k]);
    u64::from_be_bytes(bytes)
}

// R521, R524: a set's 19 bytes behind its tag and length; values in two's complement. `usize` has no `From` of a `u64`,
// nor that of it: both are cast, here of one byte and of two.
#[tactic(auto, using(crate::proofs::Signed::signed_cell))]
fn set_of(field: &[u8]) -> Entry
    requires inside { set_bytes ≤ length field.now }
    ensures { result ≡ set_of field.now }
{
    let group = number_at(field, 3, 1);
    let cell = number_at(field, 4, 2);
    let old = number_at(field, 6, 8).cast_signed();
    let new = number_at(field, 14, 8).cast_signed();
    Entry::Set(group as usize, cell as usize, old, new)
}

// R523: the field at a place: tag and length are one of four pairs, and all its bytes are there.
#[tactic(auto, unfolding(crate::specs::Field::entry_in))]
pub fn field_at(s: &[u8], at: usize) -> Entry
    requires inside { at ≤ length s.now }
    ensures { result ≡ field_at s.now at }
{
    let field = &s[at..];
    match field {
        [1, 0, 19, ..] if 22 <= field.len() => set_of(field),
        [2, 0, 1, k, ..] => Entry::Open(usize::from(*k)),
        [3, 0, 1, k, ..] => Entry::Release(usize::from(*k)),
        [4, 0, 1, k, ..] => Entry::Undo(usize::from(*k)),
        _ => Entry::Misformed,
    }
}

// R521: a set's field, from its last bytes to its first.
#[tactic(auto, using(crate::proofs::Numbers::bytes_before, crate::proofs::Signed::unsigned_bits, crate::proofs::Codec::set_length), unfolding(crate::specs::Field::entry_text))]
fn put_set_at(out: &mut [u8], at: usize, group: usize, cell: usize, old: i64, new: i64)
    requires room { at + set_bytes ≤ length out.old }
    ensures { out.new ≡ over at (entry_text (Entry.Set group cell old new)) out.old }
{
    put_number_at(out, at + 14, 8, new.cast_unsigned());
    put_number_at(out, at + 6, 8, old.cast_unsigned());
    put_number_at(out, at + 4, 2, cell as u64);
    put_number_at(out, at + 3, 1, group as u64);
    put_number_at(out, at + 1, 2, 19);
    put_number_at(out, at, 1, 1);
}

// R522: the field of an open, a release or an undo; its tag is a byte of it, as which it is put.
#[tactic(auto, using(crate::proofs::Numbers::bytes_before, crate::proofs::Numbers::length_bytes))]
fn put_numbered_at(out: &mut [u8], at: usize, tag: u64, k: usize)
    requires room { at + savepoint_bytes ≤ length out.old }
    ensures { out.new ≡ over at (tagged tag (number_bytes 1 k)) out.old }
{
    put_number_at(out, at + 3, 1, k as u64);
    put_number_at(out, at + 1, 2, 1);
    put_number_at(out, at, 1, tag);
}

// The field of an entry at a place; what is misformed has none.
#[tactic(auto, using(base::proofs::Part::over_none), unfolding(crate::specs::Field::entry_text))]
pub fn put_entry(out: &mut [u8], at: usize, entry: Entry)
    requires room { at + entry_size entry ≤ length out.old }
    ensures { out.new ≡ over at (entry_text entry) out.old }
{
    match entry {
        Entry::Set(group, cell, old, new) => put_set_at(out, at, group, cell, old, new),
        Entry::Open(k) => put_numbered_at(out, at, 2, k),
        Entry::Release(k) => put_numbered_at(out, at, 3, k),
        Entry::Undo(k) => put_numbered_at(out, at, 4, k),
        Entry::Misformed => {}
    }
}
