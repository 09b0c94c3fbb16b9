// R200 to R217 and R222: the replies. What a question refuses with is a `Refusal`, whichever question it is: its answer
// is a `Result`. A reply is told as its number, with the numbers beside it. What a reply's row doesn't name is 0
// (R230).
#![tactic(auto)]

ghost use Rattle.std.specs.Prelude.{◌≡◌, [], ◌∷◌};
ghost use Rattle.reply.specs.Table.{told, next, bytes, group, savepoint};
ghost use Rattle.reply.specs.Refusals.{refusal_reply, checked_reply, answer_reply};

// Why a question is refused; each variant is a reply of R201 to R217 and R222. Which of them a question can give, its
// Due says.
#[derive(Clone, Copy, Debug, PartialEq, Eq)]
pub enum Refusal {
    // 1
    End,
    // 2
    Beyond,
    // 3
    TooFewLines,
    // 4
    Misformed,
    // 5
    OtherRelease,
    // 6, with the lowest vacant number that has a count
    FilledVacant(usize),
    // 7, with the blamed group
    BrokenRule(usize),
    // 8, with the line in the group
    BadLine(usize),
    // 9, with the line and the element in the group
    BadField(usize, usize),
    // 10, with the position blamed
    BadDate(usize),
    // 11
    NoRoom,
    // 12
    NoSuchNumber,
    // 13, with the group and the element
    NoField(usize, usize),
    // 14
    OtherLength,
    // 15
    NotOpen,
    // 16
    AllOpen,
    // 17, with the place of the journal's field
    BadEntry(usize),
    // 22
    BadPart,
}

// R200: a reply's number, and the numbers beside it, as they are told to C.
#[derive(Clone, Copy)]
pub struct Reply {
    pub number: u32,
    pub next: usize,
    pub written: usize,
    pub group: usize,
    pub line: usize,
    pub element: usize,
    pub position: usize,
    pub savepoint: usize,
    pub place: usize,
}

// 0, with no number beside it.
const DONE: Reply = Reply {
    number: 0,
    next: 0,
    written: 0,
    group: 0,
    line: 0,
    element: 0,
    position: 0,
    savepoint: 0,
    place: 0,
};

// A reply with a next place and a group; where one is 0, it has none.
pub fn at_next(number: u32, place: usize, g: usize) -> Reply
    ensures { result ≡ told number ((next, place) ∷ (group, g) ∷ []) }
{
    Reply {
        number,
        next: place,
        group: g,
        ..DONE
    }
}

// 0 with a next place and the bytes that were written; a next place of 0 is none.
pub fn written(place: usize, n: usize) -> Reply
    ensures { result ≡ told 0 ((next, place) ∷ (bytes, n) ∷ []) }
{
    Reply {
        next: place,
        written: n,
        ..DONE
    }
}

// A reply with no number beside it.
pub fn plain(number: u32) -> Reply
    ensures { result ≡ told number [] }
{
    Reply { number, ..DONE }
}

// 0 with the savepoint that was opened; 0 is as none.
pub fn opened(k: usize) -> Reply
    ensures { result ≡ told 0 ((savepoint, k) ∷ []) }
{
    Reply {
        savepoint: k,
        ..DONE
    }
}

// R201 to R217 and R222: a refusal's number, with the numbers beside it.
impl From<Refusal> for Reply {
    ghost from_gives = { λ refusal reply. reply ≡ refusal_reply refusal };

    fn from(refusal: Refusal) -> Reply {
        match refusal {
            Refusal::End => plain(1),
            Refusal::Beyond => plain(2),
            Refusal::TooFewLines => plain(3),
            Refusal::Misformed => plain(4),
            Refusal::OtherRelease => plain(5),
            Refusal::FilledVacant(group) => Reply {
                number: 6,
                group,
                ..DONE
            },
            Refusal::BrokenRule(group) => Reply {
                number: 7,
                group,
                ..DONE
            },
            Refusal::BadLine(line) => Reply {
                number: 8,
                line,
                ..DONE
            },
            Refusal::BadField(line, element) => Reply {
                number: 9,
                line,
                element,
                ..DONE
            },
            Refusal::BadDate(position) => Reply {
                number: 10,
                position,
                ..DONE
            },
            Refusal::NoRoom => plain(11),
            Refusal::NoSuchNumber => plain(12),
            Refusal::NoField(group, element) => Reply {
                number: 13,
                group,
                element,
                ..DONE
            },
            Refusal::OtherLength => plain(14),
            Refusal::NotOpen => plain(15),
            Refusal::AllOpen => plain(16),
            Refusal::BadEntry(place) => Reply {
                number: 17,
                place,
                ..DONE
            },
            Refusal::BadPart => plain(22),
        }
    }
}

// 0 with nothing beside it, or a refusal.
impl From<Result<(), Refusal>> for Reply {
    ghost from_gives = { λ answer reply. reply ≡ checked_reply answer };

    fn from(answer: Result<(), Refusal>) -> Reply {
        match answer {
            Ok(()) => plain(0),
            Err(why) => Reply::from(why),
        }
    }
}

// 0 with the cells or bytes that were written, or a refusal.
impl From<Result<usize, Refusal>> for Reply {
    ghost from_gives = { λ answer reply. reply ≡ answer_reply answer };

    fn from(answer: Result<usize, Refusal>) -> Reply {
        match answer {
            Ok(n) => written(0, n),
            Err(why) => Reply::from(why),
        }
    }
}
