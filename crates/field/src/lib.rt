// One field of a form: whether cells have one at all, and its canonical text; and index entries, read and written. What
// a field reads as is said in specs/Read.antt; crate `run` reads fields.
#![tactic(auto)]

ghost use Rattle.std.specs.Prelude.{◌≡◌, ◌+◌, ◌<◌, ◌≤◌, T, length, map};
ghost use Rattle.base.specs.Ascii.{printable};
ghost use Rattle.base.specs.Every.{every};
ghost use Rattle.base.specs.Part.{over};
ghost use Rattle.base.specs.Sign.{size_of};
ghost use Rattle.form.specs.Table.{row_of};
ghost use Rattle.field.specs.Kind.{kind_of, width_of, kind_cells, Small};
ghost use Rattle.field.specs.Write.{is_letter, range_of, fits_of, text_as, field_text};
ghost use Rattle.field.specs.Entry.{entry_of, index_entry_text};

use form::Form;
use number::{Byte, Scan};

// What a field reads as: a cell; the two cells of an E field; letters, whose cells are the bytes themselves. The
// definitions speak by it, and the laws (`Lawful`, specs/Law.antt) of `Misformed` as one of its variants; no code makes
// one, but it is public, and so stays.
#[derive(Clone, Copy)]
pub enum Value {
    Cell(i64),
    Pair(i64, i64),
    Letters,
    Misformed,
}

// What a form's field holds: a whole number or thousandths, from minus `low` to `high`; a number with an exponent; a
// letter, or a line of letters.
#[derive(Clone, Copy)]
enum Kind {
    Whole {
        width: usize,
        low: u64,
        high: u64,
    },
    Fixed {
        width: usize,
        low: u64,
        high: u64,
    },
    Power {
        columns: usize,
        digits: usize,
        places: usize,
        far: u64,
        most: u64,
    },
    OneLetter,
    AllLetters {
        width: usize,
    },
}

// The ten forms. The widths are those of the form's row.
fn kind_of(form: Form) -> Kind
    ensures { result ≡ kind_of form }
{
    match form {
        Form::F7 => Kind::Fixed {
            width: 7,
            low: 99999,
            high: 999999,
        },
        Form::A120 => Kind::AllLetters { width: 120 },
        Form::A1 => Kind::OneLetter,
        Form::F8 => Kind::Fixed {
            width: 8,
            low: 999999,
            high: 9999999,
        },
        Form::I2 => Kind::Whole {
            width: 2,
            low: 9,
            high: 99,
        },
        Form::I3 => Kind::Whole {
            width: 3,
            low: 99,
            high: 999,
        },
        Form::I1 => Kind::Whole {
            width: 1,
            low: 0,
            high: 9,
        },
        Form::E11 => Kind::Power {
            columns: 1,
            digits: 6,
            places: 1,
            far: 999999,
            most: 9,
        },
        Form::E20 => Kind::Power {
            columns: 3,
            digits: 12,
            places: 2,
            far: 999999999999,
            most: 99,
        },
        Form::E8 => Kind::Power {
            columns: 1,
            digits: 3,
            places: 1,
            far: 999,
            most: 9,
        },
    }
}

fn cells_of(kind: Kind) -> usize
    ensures { result ≡ kind_cells kind }
{
    match kind {
        Kind::Whole { .. } | Kind::Fixed { .. } | Kind::OneLetter => 1,
        Kind::Power { .. } => 2,
        Kind::AllLetters { width } => width,
    }
}

// ---- Letters.

// R80: the blank too, which std's `is_ascii_graphic` leaves out.
fn is_printable(b: u8) -> bool
    ensures { result ≡ printable b }
{
    (32..=126).contains(&b)
}

// R80: whether each byte is 32 to 126.
pub fn all_printable(s: &[u8]) -> bool
    ensures { result ≡ every printable s.now }
{
    s.iter().all(|b| is_printable(*b))
}

// ---- Which cells have a field.

fn is_letter(v: i64) -> bool
    ensures { result ≡ is_letter v }
{
    (32..=126).contains(&v)
}

// The same of cells. One function for both would turn each element into a cell by `Into`, and its contract speak of
// what that gives: no plainer than these two.
fn all_letters(cells: &[i64]) -> bool
    ensures { result ≡ every is_letter cells.now }
{
    cells.iter().all(|v| is_letter(*v))
}

fn in_range(kind: Kind, cells: &[i64]) -> bool
    requires { length cells.now ≡ kind_cells kind }
    ensures { result ≡ range_of kind cells.now }
{
    match kind {
        Kind::Whole { low, high, .. } | Kind::Fixed { low, high, .. } => number::within(
            cells[0], low, high,
        ),
        Kind::Power { far, most, .. } => number::within(cells[0], far, far)
            && number::within(cells[1], most, most),
        Kind::OneLetter | Kind::AllLetters { .. } => all_letters(cells),
    }
}

// Whether some field of the form reads as these cells; another number of cells than the form has fits none.
#[tactic(auto, using(crate::proofs::Forms::kind_cells_lem), unfolding(crate::specs::Write::fits_of))]
pub fn fits(form: Form, cells: &[i64]) -> bool
    ensures { result ≡ fits_of form cells.now }
{
    let kind = kind_of(form);
    cells.len() == cells_of(kind) && in_range(kind, cells)
}

// ---- Writing. Cells, output and place stand apart, as in `number`: a struct of them would be built for each field,
// and be no plainer.

// Its byte. What calls it knows that the cell is a letter, so nothing is left to test, as `try_from` would.
fn letter(v: i64) -> u8
    requires { T (is_letter v) }
    ensures { result ≡ size_of v }
{
    v as u8
}

// Writes cells that are letters at a place with room.
pub fn put_letters(cells: &[i64], out: &mut [u8], at: usize)
    requires room { at + length cells.now ≤ length out.old }
    requires letters { T (every is_letter cells.now) }
    ensures { out.new ≡ over at (map size_of cells.now) out.old }
{
    for (i, v) in cells.iter().enumerate() {
        out[at + i] = letter(*v);
    }
}

fn put_as(kind: Kind, cells: &[i64], out: &mut [u8], at: usize)
    requires cells { length cells.now ≡ kind_cells kind }
    requires range { T (range_of kind cells.now) }
    requires room { at + width_of kind ≤ length out.old }
    requires small { Small kind }
    ensures { out.new ≡ over at (text_as kind cells.now) out.old }
{
    match kind {
        Kind::Whole { width, .. } => number::put_i(out, at, width, cells[0]),
        Kind::Fixed { width, .. } => number::put_f(out, at, width, cells[0]),
        Kind::Power {
            columns,
            digits,
            places,
            ..
        } => number::put_e(out, at, columns, digits, places, cells[0], cells[1]),
        Kind::OneLetter | Kind::AllLetters { .. } => put_letters(cells, out, at),
    }
}

// Writes the canonical text of cells that fit at a place with room.
#[tactic(auto, using(crate::proofs::Forms::kind_width, crate::proofs::Fitting::fits_counted, crate::proofs::Fitting::fits_range), unfolding(crate::specs::Write::field_text))]
pub fn put(form: Form, cells: &[i64], out: &mut [u8], at: usize)
    requires fits { T (fits_of form cells.now) }
    requires room { at + (row_of form).width ≤ length out.old }
    ensures { out.new ≡ over at (field_text form cells.now) out.old }
{
    put_as(kind_of(form), cells, out, at);
}

// ---- Index entries.

// R23: the count that an index entry reads as. It has three columns: blanks, and digits to the end. Each column is
// looked at by itself, the last one first: most entries of an index have a digit there and blanks before it. By one
// match over all three an index line took two thirds more instructions: tried. A digit is cast to fewer bits, which
// loses nothing.
#[tactic(auto, using(crate::proofs::Columns::entry_columns), unfolding(crate::specs::Entry::entry_of))]
pub fn read_entry(entry: &[u8]) -> Option<u16>
    ensures { result ≡ entry_of entry.now }
{
    let [first, second, third] = entry else {
        return None;
    };
    let Byte::Digit(units) = number::class(*third) else {
        return None;
    };
    match number::class(*second) {
        Byte::Blank => match number::class(*first) {
            Byte::Blank => Some(units as u16),
            _ => None,
        },
        Byte::Digit(tens) => match number::class(*first) {
            Byte::Blank => Some((tens * 10 + units) as u16),
            Byte::Digit(hundreds) => Some(((hundreds * 10 + tens) * 10 + units) as u16),
            _ => None,
        },
        _ => None,
    }
}

// Writes the canonical text of a count at a place with room.
pub fn put_entry(count: u16, out: &mut [u8], at: usize)
    requires { at + 3 ≤ length out.old }
    ensures { out.new ≡ over at (index_entry_text count) out.old }
{
    number::put_at(out, at, 3, false, Scan::Digits(false, u64::from(count)));
}
