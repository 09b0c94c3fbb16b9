// The ten field forms: which group has which, what each takes, and the lines, elements and cells of a group's count.
#![tactic(auto)]

ghost use Rattle.std.specs.Prelude.{◌≡◌, ◌≤◌};
ghost use Rattle.form.specs.Table.{row_of, form_of};
ghost use Rattle.form.specs.Count.{is_segments, segment_elements, elements_of, rounded_up, lines_of, cells_of};

// A form is named by its letter and its width; the number of decimals follows from these.
#[derive(Clone, Copy)]
pub enum Form {
    F7,
    A120,
    A1,
    F8,
    I2,
    I3,
    I1,
    E11,
    E20,
    E8,
}

// A form's field has `width` columns and gives `cells` cells; a full line has `per_line` elements.
#[derive(Clone, Copy)]
pub struct Row {
    pub width: usize,
    pub per_line: usize,
    pub cells: usize,
}

// R41 as one constant table (R440), in the order of the enum. It is a static: a `const` would be built anew where a
// variable indexes it.
static ROWS: [Row; 10] = [
    // F7
    Row {
        width: 7,
        per_line: 16,
        cells: 1,
    },
    // A120
    Row {
        width: 120,
        per_line: 1,
        cells: 120,
    },
    // A1
    Row {
        width: 1,
        per_line: 120,
        cells: 1,
    },
    // F8
    Row {
        width: 8,
        per_line: 15,
        cells: 1,
    },
    // I2
    Row {
        width: 2,
        per_line: 60,
        cells: 1,
    },
    // I3
    Row {
        width: 3,
        per_line: 40,
        cells: 1,
    },
    // I1
    Row {
        width: 1,
        per_line: 120,
        cells: 1,
    },
    // E11
    Row {
        width: 11,
        per_line: 10,
        cells: 2,
    },
    // E20
    Row {
        width: 20,
        per_line: 6,
        cells: 2,
    },
    // E8
    Row {
        width: 8,
        per_line: 15,
        cells: 2,
    },
];

// R40 as one match, in which groups that follow one another are a range (R441).
#[tactic(auto, unfolding(crate::specs::Table::form_of, crate::specs::Table::listed_as, crate::specs::Table::form_among))]
pub fn form_of(group: usize) -> Option<Form>
    ensures { result ≡ form_of group }
{
    match group {
        1 | 6 => Some(Form::F7),
        2 => Some(Form::A120),
        3 | 54 | 55 => Some(Form::A1),
        4
        | 7
        | 8
        | 11..=13
        | 16..=18
        | 21
        | 22
        | 25
        | 26
        | 29
        | 30
        | 33
        | 43
        | 46
        | 47
        | 50..=52
        | 58
        | 59 => Some(Form::F8),
        5 => Some(Form::I2),
        9 | 14 | 19 | 23 | 27 | 31 | 34..=36 | 44 | 48 => Some(Form::I3),
        10 | 15 | 20 | 24 | 28 | 32 | 41 | 45 | 49 | 56 => Some(Form::I1),
        37..=39 | 42 | 57 => Some(Form::E11),
        40 => Some(Form::E20),
        53 | 60 => Some(Form::E8),
        _ => None,
    }
}

// R40: the number of a group, 1 to 60.
#[derive(Clone, Copy)]
pub struct Group {
    pub number: usize,
    ghost low: { 1 ≤ number },
    ghost high: { number ≤ 60 },
}

impl Group {
    // R40: each group has a form.
    #[tactic(auto, using(crate::proofs::Table::has_form))]
    pub fn form(self) -> Form
        ensures { form_of self.number ≡ Some result }
    {
        form_of(self.number).unwrap()
    }
}

// R41: a form's row, by its place in the enum, which only a cast tells.
#[tactic(auto, unfolding(crate::specs::Table::row_of, crate::specs::Table::listed_as))]
pub fn row_of(form: Form) -> Row
    ensures { result ≡ row_of form }
{
    ROWS[form as usize]
}

// ---- What a count stands for. Rules, form and count stand apart: lines and cells are asked for with each alone
// changed.

// R13: whether the form is group 40's, by the name that the definition has.
#[tactic(auto, unfolding(crate::specs::Count::is_segments, crate::specs::Table::listed_as))]
fn is_segments(form: Form) -> bool
    ensures { result ≡ is_segments form }
{
    matches!(form, Form::E20)
}

// R13: the elements of a count of group 40.
#[tactic(auto, using(crate::proofs::Segments::segments_none, crate::proofs::Segments::segments_plain, crate::proofs::Segments::segments_entries))]
fn segment_elements(counting: rules::Counting, count: u16) -> usize
    ensures { result ≡ segment_elements count counting }
{
    let n = usize::from(count);
    match counting {
        rules::Counting::Elements => n,
        rules::Counting::Entries if n == 0 => 0,
        rules::Counting::Entries => 6 * (n - 1) + 1,
    }
}

// R42: the elements of a group of this form and count.
#[tactic(auto, unfolding(crate::specs::Count::elements_of))]
pub fn elements(rules: rules::Rules, form: Form, count: u16) -> usize
    ensures { result ≡ elements_of rules form count }
{
    if is_segments(form) {
        segment_elements(rules.counting, count)
    } else {
        usize::from(count)
    }
}

// n divided by p, rounded up; 0 where p is 0, which std's `div_ceil` rules out and this contract does not.
#[tactic(auto, using(crate::proofs::Rounding::rounded_by_zero, crate::proofs::Rounding::by_div_ceil))]
pub fn rounded_up(n: usize, p: usize) -> usize
    ensures { result ≡ rounded_up n p }
{
    if p == 0 {
        return 0;
    }
    n.div_ceil(p)
}

// R43: its lines, rounded up; none for no elements.
#[tactic(auto, unfolding(crate::specs::Count::lines_of))]
pub fn lines(rules: rules::Rules, form: Form, count: u16) -> usize
    ensures { result ≡ lines_of rules form count }
{
    rounded_up(elements(rules, form, count), row_of(form).per_line)
}

// R46: its cells.
#[tactic(auto, using(crate::proofs::Counted::cells_few), unfolding(crate::specs::Count::cells_of))]
pub fn cells(rules: rules::Rules, form: Form, count: u16) -> usize
    ensures { result ≡ cells_of rules form count }
{
    elements(rules, form, count) * row_of(form).cells
}
