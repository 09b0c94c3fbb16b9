// The rules under which questions are asked. A caller chooses them; who chooses nothing has the usual ones.
#![tactic(auto)]

ghost use Rattle.std.specs.Prelude.{◌≡◌};
ghost use Rattle.rules.specs.Choice.{chosen, ends_by, counting_by};

// R9: what a line may end with.
#[derive(Clone, Copy)]
pub enum LineEnds {
    // a carriage return and a line feed
    Strict,
    // a line feed, with or without a carriage return before it
    Either,
}

// R13: what a count of group 40 counts.
#[derive(Clone, Copy)]
pub enum Counting {
    // elements, as a count of every other group
    Elements,
    // entries, a line each: of six elements, and the last one of one
    Entries,
}

// R12: one rule of each kind.
#[derive(Clone, Copy)]
pub struct Rules {
    pub ends: LineEnds,
    pub counting: Counting,
}

// R12: the rules of a caller that chooses nothing.
pub const USUAL: Rules = Rules {
    ends: LineEnds::Either,
    counting: Counting::Elements,
};

// R9: the line end that was asked for, or the usual one. A `From` of a flag would not say what it asks for.
fn ends_by(strict: bool) -> LineEnds
    ensures { result ≡ ends_by strict }
{
    if strict { LineEnds::Strict } else { USUAL.ends }
}

// R13: the count rule that was asked for, or the usual one; no `From` either.
fn counting_by(entries: bool) -> Counting
    ensures { result ≡ counting_by entries }
{
    if entries {
        Counting::Entries
    } else {
        USUAL.counting
    }
}

// R12: the rules that a caller chooses, by words of a program or bits of C.
pub fn choose(strict: bool, entries: bool) -> Rules
    ensures { result ≡ chosen strict entries }
{
    Rules {
        ends: ends_by(strict),
        counting: counting_by(entries),
    }
}
