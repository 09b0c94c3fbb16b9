// Numbers in columns: what a byte is there, the cell of a sign and a size, and I, F and E fields of any width written
// from the last column to the first. What such a field reads as is said in specs/Read.antt; crate `run` reads them.
#![tactic(auto)]

ghost use Rattle.std.specs.Prelude.{◌≡◌, ◌∷◌, [], ◌+◌, ◌<◌, ◌≤◌, ◌^◌, length};
ghost use Rattle.base.specs.Part.{over};
ghost use Rattle.base.specs.Sign.{of_sign, negative, size_of, holds};
ghost use Rattle.number.specs.Grammar.{sign_byte};
ghost use Rattle.number.specs.Scan.{class_of};
ghost use Rattle.number.specs.Write.{last_of, back_of, text_of, rest_of, state_of, lead_state, exponent_text, text_i};
ghost use Rattle.number.specs.Write.{text_f, text_e};

// ---- Reading.

// What one byte of a number's columns is: one of four kinds, each of which takes the columns read so far to a state.
#[derive(Clone, Copy)]
pub enum Byte {
    Blank,
    Minus,
    Digit(u64),
    Other,
}

// How far columns have been read: blanks only; a minus too; a minus or none (true for a minus) and digits; no number.
// The definitions of reading speak by it, of no number as of any other state, and writing undoes them step by step.
#[derive(Clone, Copy)]
pub enum Scan {
    Blanks,
    Signed,
    Digits(bool, u64),
    Broken,
}

// What a field of numbers reads as: one cell, or the two of an E field. The definitions speak by it; no
// code makes one, but it is public, and so stays.
#[derive(Clone, Copy)]
pub enum Number {
    One(i64),
    Two(i64, i64),
    Misformed,
}

// R71: one of four kinds, where std's tests of bytes tell two.
pub fn class(b: u8) -> Byte
    ensures { result ≡ class_of b }
{
    match b {
        b' ' => Byte::Blank,
        b'-' => Byte::Minus,
        b'0'..=b'9' => Byte::Digit(u64::from(b - b'0')),
        _ => Byte::Other,
    }
}

// The signed number of a sign and a size, which a cast keeps.
pub fn cell(neg: bool, n: u64) -> i64
    requires { n < 2 ^ 63 }
    ensures { result ≡ of_sign neg n }
{
    if neg { -(n as i64) } else { n as i64 }
}

// ---- Writing: from the last column to the first, one division for each digit.

// The byte in the last column. One digit is cast to a byte.
fn last(st: Scan) -> u8
    ensures { result ≡ last_of st }
{
    match st {
        Scan::Blanks | Scan::Broken => b' ',
        Scan::Signed => b'-',
        Scan::Digits(_, n) => b'0' + (n % 10) as u8,
    }
}

// What the columns before the last hold; filled columns hold digits only.
fn back(filled: bool, st: Scan) -> Scan
    ensures { result ≡ back_of filled st }
{
    match st {
        Scan::Blanks | Scan::Signed => Scan::Blanks,
        Scan::Digits(neg, n) if filled || 10 <= n => Scan::Digits(neg, n / 10),
        Scan::Digits(neg, _) => if neg { Scan::Signed } else { Scan::Blanks },
        Scan::Broken => Scan::Broken,
    }
}

// Fills the columns with it, and gives back what would stand before them. By `iter_mut().rev()` a proof learns no more
// of the columns than their number: tried.
fn put(out: &mut [u8], filled: bool, what: Scan) -> Scan
    ensures output { out.new ≡ text_of filled (length out.old) what }
    ensures answer { result ≡ rest_of filled (length out.old) what }
{
    let mut st = what;
    for i in (0..out.len()).rev() {
        out[i] = last(st);
        st = back(filled, st);
    }
    st
}

// ---- Writing at a place: each is `over`, so that two in a row are one. Output, place and width stand apart, as
// callers count them: a struct of the three would be built for each field, and be no plainer.

pub fn put_at(out: &mut [u8], at: usize, w: usize, filled: bool, what: Scan) -> Scan
    requires { at + w ≤ length out.old }
    ensures output { out.new ≡ over at (text_of filled w what) out.old }
    ensures answer { result ≡ rest_of filled w what }
{
    let e = at + w;
    put(&mut out[at..e], filled, what)
}

// A number's sign (true for a minus) and size, also the least of an i64.
#[derive(Clone, Copy)]
pub struct Magnitude {
    pub neg: bool,
    pub size: u64,
}

// They are told together, since a number is written from both: `unsigned_abs` alone loses the sign.
pub fn signed(v: i64) -> Magnitude
    ensures neg { result.neg ≡ negative v }
    ensures size { result.size ≡ size_of v }
{
    Magnitude {
        neg: v < 0,
        size: v.unsigned_abs(),
    }
}

// Whether v lies from minus `low` to `high`: `low` may be more than an i64 holds, so that no range is made.
pub fn within(v: i64, low: u64, high: u64) -> bool
    ensures { result ≡ holds low high v }
{
    v.unsigned_abs() <= if v < 0 { low } else { high }
}

// The digits of a number, with its sign.
fn digits(v: i64) -> Scan
    ensures { result ≡ state_of v }
{
    let m = signed(v);
    Scan::Digits(m.neg, m.size)
}

// ---- I, F and E fields at a place, canonical (R103 to R108). Each kind has its own numbers, so they are three.

pub fn put_i(out: &mut [u8], at: usize, w: usize, v: i64)
    requires { at + w ≤ length out.old }
    ensures { out.new ≡ over at (text_i w v) out.old }
{
    put_at(out, at, w, false, digits(v));
}

// Thousandths: the last three digits first, and what is left of the number before the point.
pub fn put_f(out: &mut [u8], at: usize, w: usize, v: i64)
    requires room { at + w ≤ length out.old }
    requires w { 4 ≤ w }
    ensures { out.new ≡ over at (text_f w v) out.old }
{
    let h = w - 4;
    let point = at + h;
    let rest = put_at(out, point + 1, 3, true, digits(v));
    out[point] = b'.';
    put_at(out, at, h, false, rest);
}

// What stands before E's point in c columns.
fn lead_state(c: usize, neg: bool) -> Scan
    ensures { result ≡ lead_state c neg }
{
    if neg && c == 1 {
        Scan::Signed
    } else {
        Scan::Digits(neg, 0)
    }
}

fn sign_byte(neg: bool) -> u8
    ensures { result ≡ sign_byte neg }
{
    if neg { b'-' } else { b'+' }
}

// `E`, the exponent's sign and its x digits.
fn put_exponent(out: &mut [u8], at: usize, x: usize, e: i64)
    requires { at + (x + 2) ≤ length out.old }
    ensures { out.new ≡ over at (exponent_text x e) out.old }
{
    let sign = at + 1;
    put_at(out, sign + 1, x, true, digits(e));
    out[sign] = sign_byte(e < 0);
    out[at] = b'E';
}

// c columns, a point, d digits and the exponent, from the last to the first.
pub fn put_e(out: &mut [u8], at: usize, c: usize, d: usize, x: usize, v: i64, e: i64)
    requires { at + (c + d + x + 3) ≤ length out.old }
    ensures { out.new ≡ over at (text_e c d x v e) out.old }
{
    let point = at + c;
    let first = point + 1;
    put_exponent(out, first + d, x, e);
    put_at(out, first, d, true, digits(v));
    out[point] = b'.';
    put_at(out, at, c, false, lead_state(c, v < 0));
}
