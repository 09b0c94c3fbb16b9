// Counts: the lines and cells that they stand for, the rules on them, and the whole check before they are used. Counts
// are lent as a slice of any length; one that is not there is 0 (R243).
#![tactic(auto)]

ghost use Rattle.std.specs.Prelude.{◌≡◌, ◌==◌, not, ◌∷◌, None, false, ◌&&◌, map, leb, get_or, ◌+◌, ◌^◌, ◌<◌, ◌≤◌};
ghost use Rattle.std.specs.List.{find, range_with_len};
ghost use Rattle.base.specs.Every.{every};
ghost use Rattle.form.specs.Table.{form_of};
ghost use Rattle.form.specs.Count.{is_count};
ghost use Rattle.count.specs.Tally.{count_of, lines_by, cells_by, Before};
ghost use Rattle.count.specs.Rules.{release_of, lower, one, rule, differ, settle, keeps, lowest, head_rules};
ghost use Rattle.count.specs.Rules.{letter_rules, set_rule, set, sets, zero_or, ruling_of};
ghost use Rattle.count.specs.Check.{well_formed, accepted_of, checked_of};

use form::Group;
use reply::Refusal;

// R126: a set's nonzero counts are equal; R127: where `ends` is true, its first and last group are there if any is.
#[derive(Clone, Copy)]
struct Set {
    pub first: usize,
    pub last: usize,
    pub ends: bool,
}

// R125, in its order: eight traces, two profiles. It is a static, so that a loop over it builds no table.
static SETS: [Set; 10] = [
    Set {
        first: 7,
        last: 11,
        ends: true,
    },
    Set {
        first: 12,
        last: 16,
        ends: true,
    },
    Set {
        first: 17,
        last: 21,
        ends: true,
    },
    Set {
        first: 22,
        last: 25,
        ends: false,
    },
    Set {
        first: 26,
        last: 29,
        ends: false,
    },
    Set {
        first: 30,
        last: 33,
        ends: false,
    },
    Set {
        first: 43,
        last: 46,
        ends: false,
    },
    Set {
        first: 47,
        last: 50,
        ends: false,
    },
    Set {
        first: 51,
        last: 53,
        ends: false,
    },
    Set {
        first: 58,
        last: 60,
        ends: false,
    },
];

// R261: counts that keep the rules on counts, as those of a record that was placed with 0 do: they are not tried again.
#[derive(Clone, Copy)]
pub struct Kept<'a> {
    pub counts: &'a [u16],
    ghost kept: { ruling_of counts.now ≡ None },
}

// Lines and cells.
#[derive(Clone, Copy)]
pub struct Totals {
    pub lines: usize,
    pub cells: usize,
}

// R22, R243: what a list has under a number, from 1; `none` where it has no such number. By one chain over
// `checked_sub` and `get` the rules on counts took half as many instructions more: tried.
pub fn at_number<T: Copy>(list: &[T], number: usize, none: T) -> T
    ensures { result ≡ get_or (none ∷ list.now) number none }
{
    if number == 0 {
        return none;
    }
    list.get(number - 1).copied().unwrap_or(none)
}

// The count of a group, by what is 0 where there is none.
pub fn count_of(counts: &[u16], group: usize) -> u16
    ensures { result ≡ count_of counts.now group }
{
    at_number(counts, group, 0)
}

// Totals with those of a group more. Most groups of a record have the count 0, and nothing is looked up for them.
#[tactic(auto, using(crate::proofs::Tallied::no_lines, crate::proofs::Tallied::no_cells, form::proofs::Counted::lines_few, form::proofs::Counted::cells_few))]
fn with_group(rules: rules::Rules, totals: Totals, group: Group, count: u16) -> Totals
    requires lines { totals.lines < 2 ^ 32 }
    requires cells { totals.cells < 2 ^ 32 }
    ensures lines { result.lines ≡ totals.lines + lines_by rules (form_of group.number) count }
    ensures cells { result.cells ≡ totals.cells + cells_by rules (form_of group.number) count }
{
    if count == 0 {
        return totals;
    }
    let form = group.form();
    Totals {
        lines: totals.lines + form::lines(rules, form, count),
        cells: totals.cells + form::cells(rules, form, count),
    }
}

// R27, R28, R47: the lines, the index among them, and the cells before those of a group; before 61: of the whole
// record. Inlined, since most callers know how many counts there are.
#[inline]
pub fn add_up(rules: rules::Rules, counts: &[u16], group: usize) -> Totals
    ensures { Before rules counts.now group result.lines result.cells }
{
    if group == 0 {
        return Totals { lines: 0, cells: 0 };
    }
    let mut totals = Totals { lines: 2, cells: 0 };
    for number in 1..group.min(61) {
        totals = with_group(rules, totals, Group { number }, count_of(counts, number));
    }
    totals
}

// R206: the first vacant number that has a count.
fn first_filled(counts: &[u16]) -> Option<usize>
    ensures { result ≡ find (λ group. not (count_of counts.now group == 0)) (range_with_len 61 19) }
{
    (61..80).find(|group| count_of(counts, *group) != 0)
}

// R205, R206: the release is looked at first, and then the vacant numbers from 61 on.
#[tactic(auto, using(crate::proofs::Vacant::filled_first), unfolding(crate::specs::Rules::release_of))]
pub fn release_of(counts: &[u16]) -> Result<(), Refusal>
    ensures { result ≡ release_of counts.now }
{
    if count_of(counts, 80) != 5 {
        return Err(Refusal::OtherRelease);
    }
    match first_filled(counts) {
        Some(group) => Err(Refusal::FilledVacant(group)),
        None => Ok(()),
    }
}

// The lower of two answers' groups. By the order of `Option` none would be lower than any.
fn lower_of(a: Option<usize>, b: Option<usize>) -> Option<usize>
    ensures { result ≡ lower a b }
{
    match (a, b) {
        (Some(g), Some(h)) => Some(g.min(h)),
        (None, group) | (group, None) => group,
    }
}

// One rule: kept, or its group blamed.
fn ruled(group: usize, kept: bool) -> Option<usize>
    ensures { result ≡ one (rule group kept) }
{
    (!kept).then_some(group)
}

// R121 to R124.
#[tactic(auto, using(crate::proofs::Rulings::lower_kept), unfolding(crate::specs::Rules::head_rules, crate::specs::Rules::lowest))]
fn head_ruling(counts: &[u16]) -> Option<usize>
    ensures { result ≡ lowest (head_rules counts.now) }
{
    let one = ruled(1, count_of(counts, 1) >= 4);
    let two = ruled(2, count_of(counts, 2) <= 2);
    let three = ruled(3, count_of(counts, 3) >= 19);
    let four = ruled(4, (1..=49).contains(&count_of(counts, 4)));
    lower_of(one, lower_of(two, lower_of(three, four)))
}

// Whether a count differs from the one nonzero count seen so far; 0 is no count, and 0 as what was seen is none yet, as
// the definition `differ` has it.
fn differs(seen: u16, n: u16) -> bool
    ensures { result ≡ differ seen n }
{
    n != 0 && seen != 0 && n != seen
}

// What has been seen behind a count.
fn settled(seen: u16, n: u16) -> u16
    ensures { result ≡ settle seen n }
{
    if n == 0 || seen != 0 { seen } else { n }
}

// R126, R127: whether a set keeps its rules. What has been seen of its nonzero counts is one of them, 0 before the
// first.
#[tactic(auto, using(crate::proofs::Sets::seen_start, crate::proofs::Sets::seen_differs, crate::proofs::Sets::seen_end))]
fn kept_by(counts: &[u16], set: &Set) -> bool
    requires { set.now.last ≤ 79 }
    ensures { result ≡ keeps counts.now set.now }
{
    let mut seen = 0;
    // an inclusive range is tested twice a turn
    for g in set.first..set.last + 1 {
        let n = count_of(counts, g);
        if differs(seen, n) {
            return false;
        }
        seen = settled(seen, n);
    }
    if !set.ends || seen == 0 {
        return true;
    }
    count_of(counts, set.first) != 0 && count_of(counts, set.last) != 0
}

// A set that breaks a rule has its first group blamed.
#[tactic(auto, using(crate::proofs::Rulings::lowest_done, crate::proofs::Sets::last_group), unfolding(crate::specs::Rules::sets))]
fn set_ruling(counts: &[u16]) -> Option<usize>
    ensures { result ≡ lowest (map (set_rule counts.now) sets) }
{
    let mut low = None;
    for set in &SETS {
        low = lower_of(low, ruled(set.first, kept_by(counts, set)));
    }
    low
}

// R128, of one group of letters: a rule, and no comparison of std's.
fn zero_or(x: u16, n: u16) -> bool
    ensures { result ≡ zero_or x n }
{
    x == 0 || x == n
}

// R128: the letters go with group 4.
#[tactic(auto, using(crate::proofs::Rulings::lower_kept), unfolding(crate::specs::Rules::letter_rules, crate::specs::Rules::lowest))]
fn letter_ruling(counts: &[u16]) -> Option<usize>
    ensures { result ≡ lowest (letter_rules counts.now) }
{
    let n = count_of(counts, 4);
    let first = ruled(54, zero_or(count_of(counts, 54), n));
    let second = ruled(55, zero_or(count_of(counts, 55), n));
    lower_of(first, second)
}

// R207: each rule is asked, and the lowest group blamed is the answer (R120).
#[tactic(auto, using(crate::proofs::Rulings::lowest_append), unfolding(crate::specs::Rules::ruling_of))]
pub fn ruling_of(counts: &[u16]) -> Option<usize>
    ensures { result ≡ ruling_of counts.now }
{
    lower_of(
        head_ruling(counts),
        lower_of(set_ruling(counts), letter_ruling(counts)),
    )
}

// R129: each count is 0 to 999.
fn all_small(counts: &[u16]) -> bool
    ensures { result ≡ every is_count counts.now }
{
    counts.iter().all(|n| *n <= 999)
}

// R129: 80 counts, each 0 to 999.
#[tactic(auto, unfolding(crate::specs::Check::well_formed))]
fn well_formed(counts: &[u16]) -> bool
    ensures { result ≡ well_formed counts.now }
{
    counts.len() == 80 && all_small(counts)
}

// R204 to R207: the check of counts alone: right, or the first of 4, 5, 6 and 7 that is due. None of these depends on
// what a count counts, so no rules are given.
#[tactic(auto, unfolding(crate::specs::Check::accepted_of))]
pub fn check_counts(counts: &[u16]) -> Result<(), Refusal>
    ensures { result ≡ accepted_of counts.now }
{
    if !well_formed(counts) {
        return Err(Refusal::Misformed);
    }
    release_of(counts)?;
    match ruling_of(counts) {
        Some(group) => Err(Refusal::BrokenRule(group)),
        None => Ok(()),
    }
}

// R302: the whole check of counts and the length of the table of all cells: right, or the first of 4, 5, 6, 7 and 14
// that is due.
#[tactic(auto, using(crate::proofs::Tallied::all_cells), unfolding(crate::specs::Check::checked_of))]
pub fn check(rules: rules::Rules, counts: &[u16], cells: usize) -> Result<(), Refusal>
    ensures { result ≡ checked_of rules counts.now cells }
{
    check_counts(counts)?;
    if cells != add_up(rules, counts, 61).cells {
        return Err(Refusal::OtherLength);
    }
    Ok(())
}
