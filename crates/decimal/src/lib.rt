// Numbers as decimal text, into bytes that the caller lends: no heap is asked for, and `write!` would leave a front
// part where it has no room. What puts a text answers the place behind it, or none where it has no room: then nothing
// is altered.
#![tactic(auto)]

ghost use Rattle.std.specs.Prelude.{◌≡◌, ◌∷◌, [], ◌++◌, ◌+◌, ◌^◌, ◌<◌, ◌≤◌, length};
ghost use Rattle.base.specs.Columns.{columns};
ghost use Rattle.base.specs.Part.{over};
ghost use Rattle.decimal.specs.Numerals.{last_byte, tenth, numeral};
ghost use Rattle.decimal.specs.Signed.{signed_numeral};
ghost use Rattle.decimal.specs.Rows.{row_text};
ghost use Rattle.decimal.specs.Writing.{end_in, Puts};

// Where k bytes end that are put into so many bytes from a place on.
fn end_in(at: usize, k: usize, size: usize) -> Option<usize>
    ensures { result ≡ end_in at k size }
{
    base::has_room(at, k, size).then(|| at + k)
}

// ---- Numbers

// How many digits n has. 10 to the 20th is no u64. `usize` has no `From` of a `u32`, so it is cast.
#[tactic(auto, using(crate::proofs::Lengths::digits_by_power))]
fn digits(n: u64) -> usize
    ensures length { result ≡ length (numeral n) }
    ensures few { result ≤ 20 }
{
    n.max(1).ilog10() as usize + 1
}

// Fills the bytes with the last digits of n. By `iter_mut().rev()` a proof learns no more of the bytes than their
// number: tried. One digit is cast to a byte.
fn put_digits(out: &mut [u8], n: u64)
    ensures { out.new ≡ columns last_byte tenth (length out.old) n }
{
    let mut left = n;
    for i in (0..out.len()).rev() {
        out[i] = b'0' + (left % 10) as u8;
        left /= 10;
    }
}

// Puts n, whose digits end at `end`.
#[tactic(auto, using(std::proofs::lemmas::Grind::common_steps, crate::proofs::Lengths::numeral_lent))]
fn put_numeral(out: &mut [u8], at: usize, end: usize, n: u64)
    requires place { end ≡ at + length (numeral n) }
    requires room { end ≤ length out.old }
    ensures { out.new ≡ over at (numeral n) out.old }
{
    put_digits(&mut out[at..end], n);
}

// Puts the decimal numeral of n into the bytes from a place on.
#[tactic(auto, unfolding(crate::specs::Writing::put_answer, crate::specs::Writing::put_bytes))]
pub fn put_number(out: &mut [u8], at: usize, n: u64) -> Option<usize>
    ensures { Puts at (numeral n) out.old result out.new }
{
    let end = end_in(at, digits(n), out.len())?;
    put_numeral(out, at, end, n);
    Some(end)
}

// ---- Signed numbers

// Puts the decimal numeral of v, with a minus where it is negative, into the bytes from a place on.
#[tactic(auto, using(std::proofs::lemmas::Grind::common_steps, crate::proofs::Writing::over_first), unfolding(crate::specs::Writing::put_answer, crate::specs::Writing::put_bytes))]
pub fn put_signed(out: &mut [u8], at: usize, v: i64) -> Option<usize>
    ensures { Puts at (signed_numeral v) out.old result out.new }
{
    let n = v.unsigned_abs();
    if 0 <= v {
        return put_number(out, at, n);
    }
    let end = end_in(at, digits(n) + 1, out.len())?;
    out[at] = b'-';
    put_numeral(out, at + 1, end, n);
    Some(end)
}

// ---- Rows

// Where the row of these numbers ends that is put into so many bytes from a place on.
#[tactic(auto, using(std::proofs::lemmas::Grind::common_steps, crate::proofs::Rows::row_ends))]
fn numbers_end(size: usize, at: usize, numbers: &[u64]) -> Option<usize>
    requires { at ≤ size }
    ensures { result ≡ end_in at (length (row_text numbers.now)) size }
{
    if numbers.is_empty() {
        return end_in(at, 1, size);
    }
    let mut end = at;
    for n in numbers {
        end = end_in(end, digits(*n) + 1, size)?;
    }
    Some(end)
}

// Where a row ends that begins with these bytes and is put into so many bytes from a place on: what `put_row` answers,
// with nothing put.
pub fn row_end(size: usize, at: usize, first: &[u8], numbers: &[u64]) -> Option<usize>
    ensures { result ≡ end_in at (length (first.now ++ row_text numbers.now)) size }
{
    numbers_end(size, end_in(at, first.len(), size)?, numbers)
}

// Puts n and the byte behind it; the place behind both.
#[tactic(auto, using(std::proofs::lemmas::Grind::common_steps, crate::proofs::Writing::over_last))]
fn put_ended(out: &mut [u8], at: usize, n: u64, end: u8) -> usize
    requires { at + (length (numeral n) + 1) ≤ length out.old }
    ensures answer { result ≡ at + (length (numeral n) + 1) }
    ensures output { out.new ≡ over at (numeral n ++ (end ∷ [])) out.old }
{
    let behind = at + digits(n);
    put_numeral(out, at, behind, n);
    out[behind] = end;
    behind + 1
}

// Puts the row of these numbers. It stands beside `numbers_end`, which measures it: one walk for both would take a
// closure over each number, with a contract over all of its calls, and be no plainer.
#[tactic(auto, using(std::proofs::lemmas::Grind::common_steps, crate::proofs::Rows::row_put))]
fn put_numbers(out: &mut [u8], at: usize, numbers: &[u64])
    requires { at + length (row_text numbers.now) ≤ length out.old }
    ensures { out.new ≡ over at (row_text numbers.now) out.old }
{
    let [others @ .., last] = numbers else {
        out[at] = b'\n';
        return;
    };
    let mut a = at;
    for n in others {
        a = put_ended(out, a, *n, b' ');
    }
    put_ended(out, a, *last, b'\n');
}

// Puts the bytes of a text, one by one: by std's copy of a slice the archive would need a function more of a C caller.
fn put_text(out: &mut [u8], at: usize, text: &[u8])
    requires { at + length text.now ≤ length out.old }
    ensures { out.new ≡ over at text.now out.old }
{
    for (i, byte) in text.iter().enumerate() {
        out[at + i] = *byte;
    }
}

// Puts a row of numbers with the bytes that it begins with, such as `end `, into the bytes from a place on.
#[tactic(auto, using(std::proofs::lemmas::Grind::common_steps, base::proofs::Part::over_over), unfolding(crate::specs::Writing::put_answer, crate::specs::Writing::put_bytes))]
pub fn put_row(out: &mut [u8], at: usize, first: &[u8], numbers: &[u64]) -> Option<usize>
    ensures { Puts at (first.now ++ row_text numbers.now) out.old result
        out.new }
{
    let end = row_end(out.len(), at, first, numbers)?;
    put_text(out, at, first);
    put_numbers(out, at + first.len(), numbers);
    Some(end)
}
