// A run of fields of one form, one behind the other: whether each is one of the form (R70 to R86), and their cells. The
// form is matched once for a run, and one loop goes over its fields. Fields are arrays of the form's width, a constant:
// so the compiler takes the loops over a field's columns apart.
#![tactic(auto)]

ghost use Rattle.std.specs.Prelude.{◌≡◌, Bool, List, ℕ, ℤ, ◌∷◌, [], map, ◌+◌, ◌*◌, ◌^◌, ◌<◌, ◌≤◌, T, length};
ghost use Rattle.std.specs.List.{flat_map};
ghost use Rattle.base.specs.Digits.{number_of};
ghost use Rattle.base.specs.Every.{every, has};
ghost use Rattle.base.specs.Part.{over};
ghost use Rattle.form.specs.Table.{row_of};
ghost use Rattle.run.specs.Run.{run_formed, run_cells};
ghost use Rattle.run.specs.Columns.{between, is_figure, goes_on, pairs, is_column, is_lead, is_sign, is_whole_field, is_head};
ghost use Rattle.run.specs.Columns.{is_fixed, is_leading, is_power, number_in, figures_in, columns_in};
ghost use Rattle.run.specs.Columns.{whole_cell, fixed_cell, power_first, power_second};

use form::Form;

// ---- Testing, without making a value.

// R80, and runs of digits. No byte is a way out, so that many are looked at in one step.
fn all_between(s: &[u8], first: u8, last: u8) -> bool
    ensures { result ≡ every (between first last) s.now }
{
    let mut ok = true;
    for b in s {
        ok &= (first..=last).contains(b);
    }
    ok
}

// By the same test as `all_between`, so that the compiler sees what a run of digits has said already.
fn is_digit(b: u8) -> bool
    ensures { result ≡ is_figure b }
{
    (b'0'..=b'9').contains(&b)
}

// Whether a column of a number may stand before another: a blank before anything that is right by itself, a minus or a
// digit before a digit.
fn goes_on(x: u8, y: u8) -> bool
    ensures { result ≡ goes_on x y }
{
    x == b' ' || (is_digit(y) && (x == b'-' || is_digit(x)))
}

// Whether each column goes on to the next: then all of them are right, but for the last, which each form asks for.
fn pairs(s: &[u8]) -> bool
    ensures { result ≡ pairs s.now }
{
    s.windows(2).all(|p| goes_on(p[0], p[1]))
}

// R70: a digit stands last.
fn is_whole(s: &[u8]) -> bool
    ensures { result ≡ is_whole_field s.now }
{
    pairs(s) && s.last().is_some_and(|b| is_digit(*b))
}

// R72: a blank, a minus or a digit may stand before the point. By the tests that the columns' pairs make, not by a
// match: so the compiler sees what of it a pair has said already.
fn is_column(b: u8) -> bool
    ensures { result ≡ is_column b }
{
    b == b' ' || b == b'-' || is_digit(b)
}

// R72: what stands before the point: as `is_whole`, but for the last column.
fn is_head(s: &[u8]) -> bool
    ensures { result ≡ is_head s.now }
{
    pairs(s) && s.last().is_some_and(|b| is_column(*b))
}

// R72: the point, and three digits behind it.
fn is_fixed(s: &[u8]) -> bool
    requires { 5 ≤ length s.now }
    ensures { result ≡ is_fixed s.now }
{
    let point = s.len() - 4;
    s[point] == b'.' && is_head(&s[..point]) && all_between(&s[point + 1..], b'0', b'9')
}

// R75, R76: the last column before E's point.
fn is_lead(b: u8) -> bool
    ensures { result ≡ is_lead b }
{
    matches!(b, b'0' | b' ' | b'-')
}

// R75, R76: the columns before E's point have no digit but in the last.
fn is_leading(s: &[u8]) -> bool
    ensures { result ≡ is_leading s.now }
{
    pairs(s)
        && s.split_last().is_some_and(|(last, before)| is_lead(*last)
            && all_between(before, b' ', b'-'))
}

// R74: only the exponent has a plus.
fn is_sign(b: u8) -> bool
    ensures { result ≡ is_sign b }
{
    matches!(b, b'+' | b'-')
}

// R74: c columns, a point, d digits, `E`, a sign, and the exponent's digits.
fn is_power(s: &[u8], c: usize, d: usize) -> bool
    requires width { c + d + 3 ≤ length s.now }
    requires c { 1 ≤ c }
    ensures { result ≡ is_power c d s.now }
{
    let e = c + 1 + d;
    s[c] == b'.'
        && s[e] == b'E'
        && is_sign(s[e + 1])
        && is_leading(&s[..c])
        && all_between(&s[c + 1..e], b'0', b'9')
        && all_between(&s[e + 2..], b'0', b'9')
}

// Whether each field passes a test. By `all` the closure over `test` would have to state these clauses once more:
// tried, and its goals stayed open.
fn each<const W: usize, F: Fn(&[u8]) -> bool>(fields: &[[u8; W]], test: F) -> bool
    requires { (s : _) → length s.now ≡ W → F.pre test s }
    ensures { (h : List ℕ → Bool)
        → ((s : _) (r : Bool) → length s.now ≡ W → F.post test s r → r ≡ h s.now)
        → result ≡ every h fields.now }
{
    for s in fields {
        if !test(s) {
            return false;
        }
    }
    true
}

// Whether each of the k fields of this form, one behind the other, is one of the form. The clauses alone speak of k:
// the bytes say it.
pub fn formed(form: Form, fields: &[u8], k: usize) -> bool
    requires { length fields.now ≡ k * (row_of form).width }
    ensures { result ≡ run_formed form k fields.now }
{
    match form {
        Form::F7 => each(fields.as_chunks::<7>().0, is_fixed),
        Form::A120 | Form::A1 => all_between(fields, b' ', b'~'),
        Form::F8 => each(fields.as_chunks::<8>().0, is_fixed),
        Form::I2 => each(fields.as_chunks::<2>().0, is_whole),
        Form::I3 => each(fields.as_chunks::<3>().0, is_whole),
        Form::I1 => all_between(fields, b'0', b'9'),
        Form::E11 => each(fields.as_chunks::<11>().0, |s| is_power(s, 1, 6)),
        Form::E8 => each(fields.as_chunks::<8>().0, |s| is_power(s, 1, 3)),
        Form::E20 => each(fields.as_chunks::<20>().0, |s| is_power(s, 3, 12)),
    }
}

// ---- Filling. The fields are known to be formed, so no byte is tested again. These say what they make of any bytes,
// and proofs/Cells.antt that of formed fields these are the cells.

// R71: the number that columns make, each of them as much as it is worth. That is below 256, so 12 columns have room.
// The five functions on so few columns say so: a type of them would be made of each part of a field, and be no plainer.
fn number_by<F: Fn(u8) -> u8>(s: &[u8], worth: F) -> u64
    requires few { length s.now ≤ 12 }
    requires callable { F.IsAlwaysCallable worth }
    ensures number { (h : ℕ → ℕ) → ((b n : ℕ) → F.post worth b n → n ≡ h b) → result ≡ number_of (map h s.now) }
    ensures small { result < 2 ^ 48 }
{
    let mut n = 0;
    for b in s {
        n = n * 10 + u64::from(worth(*b));
    }
    n
}

// R71: what stands below `0` counts nothing: so a blank and a minus are worth nothing among digits.
fn number_in(s: &[u8]) -> u64
    requires { length s.now ≤ 12 }
    ensures number { result ≡ number_in s.now }
    ensures small { result < 2 ^ 48 }
{
    number_by(s, |b| b.saturating_sub(b'0'))
}

// The same of columns without a minus, which alone leaves by 16 what it does not count: so no column is tested. Both
// are `number_by`, each with a worth of its own.
fn figures_in(s: &[u8]) -> u64
    requires { length s.now ≤ 12 }
    ensures number { result ≡ figures_in s.now }
    ensures small { result < 2 ^ 48 }
{
    number_by(s, |b| b % 16)
}

// Whether a minus stands in the columns before a number's digits. No byte is a way out, as it is of `contains`.
#[tactic(auto, using(crate::proofs::Loops::has_more))]
fn has_minus(s: &[u8]) -> bool
    ensures { result ≡ has s.now 45 }
{
    let mut minus = false;
    for b in s {
        minus |= *b == b'-';
    }
    minus
}

// The quick sum where it may be had: most numbers have no minus.
fn columns_in(s: &[u8], minus: bool) -> u64
    requires { length s.now ≤ 12 }
    ensures number { result ≡ columns_in minus s.now }
    ensures small { result < 2 ^ 48 }
{
    if minus { number_in(s) } else { figures_in(s) }
}

// R71: the cell of an I field.
fn whole_cell(s: &[u8]) -> i64
    requires { length s.now ≤ 12 }
    ensures { result ≡ whole_cell s.now }
{
    let minus = has_minus(s);
    number::cell(minus, columns_in(s, minus))
}

// R73: the cell of an F field, in thousandths.
fn fixed_cell(s: &[u8]) -> i64
    requires { (5 ≤ length s.now) × (length s.now ≤ 12) }
    ensures { result ≡ fixed_cell s.now }
{
    let point = s.len() - 4;
    let head = &s[..point];
    let minus = has_minus(head);
    number::cell(
        minus,
        columns_in(head, minus) * 1000 + figures_in(&s[point + 1..]),
    )
}

// R77: the two cells of an E field.
fn power_cells(s: &[u8], c: usize, d: usize) -> [i64; 2]
    requires width { c + d + 3 ≤ length s.now }
    requires small { (d ≤ 12) × (length s.now ≤ c + d + 15) }
    ensures { result ≡ power_first c d s.now ∷ power_second c d s.now ∷ [] }
{
    let e = c + 1 + d;
    [
        number::cell(has_minus(&s[..c]), figures_in(&s[c + 1..e])),
        number::cell(s[e + 1] == b'-', figures_in(&s[e + 2..])),
    ]
}

// Puts the cell of each field, one behind the other.
fn fill_each<const W: usize, F: Fn(&[u8]) -> i64>(
    fields: &[[u8; W]],
    table: &mut [i64],
    cell: usize,
    cell_of: F,
)
    requires callable { (s : _) → length s.now ≡ W → F.pre cell_of s }
    requires room { cell + length fields.now ≤ length table.old }
    ensures { (h : List ℕ → ℤ)
        → ((s : _) (z : ℤ) → length s.now ≡ W → F.post cell_of s z → z ≡ h s.now)
        → table.new ≡ over cell (map h fields.now) table.old }
{
    for (i, s) in fields.iter().enumerate() {
        table[cell + i] = cell_of(s);
    }
}

// The same of E fields, which have two cells each: put as two, and not as what a closure gives, of any length.
fn fill_powers<const W: usize>(
    fields: &[[u8; W]],
    c: usize,
    d: usize,
    table: &mut [i64],
    cell: usize,
)
    requires width { c + d + 3 ≤ W }
    requires small { (d ≤ 12) × (W ≤ c + d + 15) }
    requires room { cell + length fields.now * 2 ≤ length table.old }
    ensures { table.new ≡
        over cell (flat_map (λ s. power_first c d s ∷ power_second c d s ∷ []) fields.now) table.old }
{
    let mut at = cell;
    for s in fields {
        let [first, second] = power_cells(s, c, d);
        table[at] = first;
        table[at + 1] = second;
        at += 2;
    }
}

// The cells of such fields, which are known to be formed.
pub fn fill(form: Form, fields: &[u8], k: usize, table: &mut [i64], cell: usize)
    requires run { length fields.now ≡ k * (row_of form).width }
    requires formed { T (run_formed form k fields.now) }
    requires room { cell + k * (row_of form).cells ≤ length table.old }
    ensures { table.new ≡ over cell (run_cells form k fields.now) table.old }
{
    match form {
        Form::F7 => fill_each(fields.as_chunks::<7>().0, table, cell, fixed_cell),
        Form::A120 | Form::A1 => fill_each(
            fields.as_chunks::<1>().0,
            table,
            cell,
            |s| i64::from(s[0]),
        ),
        Form::F8 => fill_each(fields.as_chunks::<8>().0, table, cell, fixed_cell),
        Form::I2 => fill_each(fields.as_chunks::<2>().0, table, cell, whole_cell),
        Form::I3 => fill_each(fields.as_chunks::<3>().0, table, cell, whole_cell),
        Form::I1 => fill_each(
            fields.as_chunks::<1>().0,
            table,
            cell,
            |s| i64::from(s[0].saturating_sub(b'0')),
        ),
        Form::E11 => fill_powers(fields.as_chunks::<11>().0, 1, 6, table, cell),
        Form::E8 => fill_powers(fields.as_chunks::<8>().0, 1, 3, table, cell),
        Form::E20 => fill_powers(fields.as_chunks::<20>().0, 3, 12, table, cell),
    }
}
