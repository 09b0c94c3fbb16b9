// Lines of a text: where so many of them end, whether a part is so many, and what the content of one is.
#![tactic(auto)]

ghost use Rattle.std.specs.Prelude.{◌≡◌, ◌+◌, ◌<◌, ◌≤◌, length, drop};
ghost use Rattle.line.specs.Lines.{feeds, reach};
ghost use Rattle.line.specs.Places.{behind_at};
ghost use Rattle.line.specs.Parts.{are_lines, begins_line};
ghost use Rattle.line.specs.Contents.{content_of};

// Lines that are sought from a place on.
#[derive(Clone, Copy)]
struct Sought {
    pub at: usize,
    pub lines: usize,
}

// The number of line feeds in a block. The sum is a byte, so that the compiler can take many bytes at once.
#[tactic(auto, unfolding(crate::specs::Lines::feeds))]
fn feeds_in(block: &[u8]) -> u8
    requires { length block.now ≤ 255 }
    ensures { result ≡ feeds block.now }
{
    block.iter().map(|byte| u8::from(*byte == 10)).sum()
}

// Passes over blocks of a size, up to one that has as many line feeds as are sought, or up to the text's last bytes:
// what is then sought from there on is what was sought.
#[tactic(auto, using(std::proofs::lemmas::Grind::common_steps, crate::proofs::Places::past_block))]
fn past_blocks(text: &[u8], from: Sought, size: usize) -> Sought
    requires place { from.at ≤ length text.now }
    requires lines { 0 < from.lines }
    requires some { 0 < size }
    requires size { size ≤ 255 }
    ensures place { result.at ≤ length text.now }
    ensures lines { 0 < result.lines }
    ensures sought { behind_at text.now result.at result.lines
        ≡ behind_at text.now from.at from.lines }
{
    let Sought { mut at, mut lines } = from;
    for block in text[at..].chunks_exact(size) {
        let n = usize::from(feeds_in(block));
        if lines <= n {
            break;
        }
        lines -= n;
        at += size;
    }
    Sought { at, lines }
}

// R6: asks for the place behind so many lines from a place of a text, or that fewer line feeds are left. Any place may
// be asked about, also one beyond the text's end. Lines are passed by large blocks and then by small ones, and the last
// bytes are looked at one by one: by their places in the text, of which one is the answer.
#[tactic(auto, using(crate::proofs::Places::byte_by_byte))]
pub fn place_behind(text: &[u8], at: usize, lines: usize) -> Option<usize>
    ensures { result ≡ behind_at text.now at lines }
{
    if lines == 0 {
        return Some(at);
    }
    if text.len() <= at {
        return None;
    }
    let far = past_blocks(text, Sought { at, lines }, 64);
    let near = past_blocks(text, far, 16);
    let mut left = near.lines;
    for i in near.at..text.len() {
        if text[i] == 10 {
            if left == 1 {
                return Some(i + 1);
            }
            left -= 1;
        }
    }
    None
}

// The place behind the line that a place stands in, or the text's end where no line feed follows. Mostly it is asked
// for where fields end, and a line end stands right there: so that is looked for before any block.
#[tactic(auto, using(std::proofs::lemmas::Grind::common_steps, crate::proofs::Places::reached))]
pub fn behind_line(text: &[u8], at: usize) -> usize
    ensures { result ≡ at + reach (drop at text.now) 1 }
{
    if text.len() <= at {
        return at;
    }
    match &text[at..] {
        [10, ..] => at + 1,
        [_, 10, ..] => at + 2,
        _ => place_behind(text, at, 1).unwrap_or(text.len()),
    }
}

// R2: whether a line may begin at a place: at 0, or next to a line feed and behind it.
#[tactic(auto, unfolding(crate::specs::Parts::begins_line))]
fn begins_line(text: &[u8], at: usize) -> bool
    ensures { result ≡ begins_line text.now at }
{
    at == 0 || text.get(at - 1) == Some(&10)
}

// R2, R7: asks whether the bytes from one place to another are exactly so many lines of the text. Any places and any
// number may be asked about; what lies beyond the text's end, or begins inside a line, is no lines, not even none.
#[tactic(auto, using(std::proofs::lemmas::Grind::common_steps, crate::proofs::Parts::lines_no_part, crate::proofs::Parts::lines_asked))]
pub fn are_lines(text: &[u8], from: usize, to: usize, lines: usize) -> bool
    ensures { result ≡ are_lines text.now from to lines }
{
    let Some(part) = text.get(from..to) else {
        return false;
    };
    begins_line(text, from) && place_behind(part, 0, lines) == Some(part.len())
}

// R4, R5, R9: asks how many bytes of a line, which is given with its line feed, are its content. It has none where its
// line end is not one that the rules allow, or where it doesn't end in a line feed.
#[tactic(auto, using(std::proofs::lemmas::Grind::common_steps, crate::proofs::Contents::last_bytes))]
pub fn content_length(rules: rules::Rules, line: &[u8]) -> Option<usize>
    ensures { result ≡ content_of rules line.now }
{
    let [front @ .., 10] = line else {
        return None;
    };
    if let [content @ .., 13] = front {
        return Some(content.len());
    }
    match rules.ends {
        rules::LineEnds::Strict => None,
        rules::LineEnds::Either => Some(front.len()),
    }
}
