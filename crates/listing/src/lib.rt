// The listing of a text: a line for each record of its walk (R342), and then the line `end` (R343). What puts it
// answers the number of bytes written, or none where it has no room: then nothing is altered. Rules, text and output
// stand apart, as the question has them. A row's numbers are `u64`, which has no `From` of a `usize`: they are cast.
#![tactic(auto)]

ghost use Rattle.std.specs.Prelude.{◌≡◌, ◌+◌, ◌≤◌, length};
ghost use Rattle.base.specs.Part.{over};
ghost use Rattle.decimal.specs.Writing.{end_in, put_bytes, Puts};
ghost use Rattle.listing.specs.Rows.{next_told, filled_groups, record_row, end_row};
ghost use Rattle.listing.specs.Listing.{listing, printed_listing, listed_in};

use place::Placing;
use reply::{Refusal, Reply};

// R253: the next place, where a record is placed. Neither `Placing` nor `Option` is of this crate, so no `From` may be
// written.
#[tactic(auto, unfolding(crate::specs::Rows::next_told))]
fn next_place(answer: Placing) -> Option<usize>
    ensures { result ≡ next_told answer }
{
    let reply = Reply::from(answer);
    place::is_placed(reply.number).then_some(reply.next)
}

// How many of the groups 1 to 60 have a nonzero count.
#[tactic(auto, using(std::proofs::lemmas::Grind::common_steps, crate::proofs::Groups::filled_count))]
fn filled_groups(counts: &[u16; 80]) -> u64
    ensures { result ≡ filled_groups counts.now }
{
    counts[..60].iter().filter(|count| **count != 0).count() as u64
}

// The row of the record of this number at a place, from what placing answered there.
#[tactic(auto, using(std::proofs::lemmas::Grind::common_steps, count::proofs::Tallied::all_lines), unfolding(crate::specs::Rows::record_row))]
fn record_row(
    rules: rules::Rules,
    number: usize,
    at: usize,
    answer: Placing,
    counts: &[u16; 80],
) -> [u64; 7]
    ensures { result ≡ record_row rules number at answer counts.now }
{
    let reply = Reply::from(answer);
    let lines = count::add_up(rules, counts, 61).lines;
    [
        number as u64,
        at as u64,
        reply.next as u64,
        u64::from(reply.number),
        reply.group as u64,
        filled_groups(counts),
        lines as u64,
    ]
}

// The end row behind so many records, where the walk stopped at a place with this answer.
#[tactic(auto, unfolding(crate::specs::Rows::end_row))]
fn end_row(records: usize, at: usize, answer: Placing) -> [u64; 4]
    ensures { result ≡ end_row records at answer }
{
    let reply = Reply::from(answer);
    [
        records as u64,
        at as u64,
        u64::from(reply.number),
        reply.group as u64,
    ]
}

// Where the listing ends that is put into so many bytes from their start on: a walk with nothing put. A text has fewer
// records than bytes, so the loop ends by itself.
#[tactic(auto, using(std::proofs::lemmas::Grind::common_steps, crate::proofs::Lines::walked))]
fn listing_end(rules: rules::Rules, text: &[u8], size: usize) -> Option<usize>
    ensures { result ≡ end_in 0 (length (listing rules text.now)) size }
{
    let mut end = 0;
    let mut at = 0;
    for k in 0..usize::MAX {
        let here = place::place(rules, text, at);
        let Some(next) = next_place(here.answer) else {
            return decimal::row_end(size, end, b"end ", &end_row(k, at, here.answer));
        };
        let row = record_row(rules, k + 1, at, here.answer, &here.counts);
        end = decimal::row_end(size, end, b"", &row)?;
        at = next;
    }
    unreachable!()
}

// Puts the listing, which has room: a second walk. Both walks as one would take a closure that puts rows into what is
// lent, with a contract over all of its calls: no plainer than two loops.
#[tactic(auto, using(std::proofs::lemmas::Grind::common_steps, crate::proofs::Lines::walked, base::proofs::Part::over_over), unfolding(decimal::specs::Writing::put_answer, decimal::specs::Writing::put_bytes))]
fn put_listing(rules: rules::Rules, text: &[u8], out: &mut [u8])
    requires { length (listing rules text.now) ≤ length out.old }
    ensures { out.new ≡ over 0 (listing rules text.now) out.old }
{
    let mut end = 0;
    let mut at = 0;
    for k in 0..usize::MAX {
        let found = place::place(rules, text, at);
        let Some(next) = next_place(found.answer) else {
            decimal::put_row(out, end, b"end ", &end_row(k, at, found.answer));
            return;
        };
        let row = record_row(rules, k + 1, at, found.answer, &found.counts);
        end = decimal::put_row(out, end, b"", &row).unwrap();
        at = next;
    }
}

// R310, R311: puts the listing of a text into the bytes from their start on: the number of bytes written (0), or that
// there is no room (11), and then nothing is altered. So that nothing is, the text is walked twice: first for where the
// listing ends, then to put it.
#[tactic(auto, using(std::proofs::lemmas::Grind::common_steps), unfolding(decimal::specs::Writing::put_answer, decimal::specs::Writing::put_bytes))]
pub fn render(rules: rules::Rules, text: &[u8], out: &mut [u8]) -> Option<usize>
    ensures { Puts 0 (listing rules text.now) out.old result out.new }
{
    let end = listing_end(rules, text, out.len())?;
    put_listing(rules, text, out);
    Some(end)
}

// R341: what the program prints for its input: the listing, or for more than 65,536 bytes the line `end 0 0 11 0`
// alone.
#[tactic(auto, unfolding(crate::specs::Listing::printed_listing))]
pub fn print(rules: rules::Rules, input: &[u8], out: &mut [u8]) -> Option<usize>
    ensures { Puts 0 (printed_listing rules input.now) out.old result out.new }
{
    if 65536 < input.len() {
        return decimal::put_row(out, 0, b"end ", &[0, 0, 11, 0]);
    }
    render(rules, input, out)
}

// R310: the same as the question's answer.
#[tactic(auto, unfolding(decimal::specs::Writing::put_answer, decimal::specs::Writing::put_bytes))]
pub fn list(rules: rules::Rules, text: &[u8], out: &mut [u8]) -> Result<usize, Refusal>
    ensures answer { result ≡ listed_in (listing rules text.now) (length out.old) }
    ensures output { out.new ≡ put_bytes 0 (listing rules text.now) out.old }
{
    render(rules, text, out).ok_or(Refusal::NoRoom)
}
