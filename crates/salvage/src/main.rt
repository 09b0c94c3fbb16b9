// The program `salvage` (R341, R349, R356, R357): of standard input, what a walk can place is copied to standard output
// as it stands, past indexes that are ruined; what is left out is told on standard error. Which pieces there are is
// `salvaging::piece_at`'s; here they are only read, asked for and written.
#![tactic(auto)]

ghost use Rattle.std.specs.Prelude.{◌≡◌, [], ◌∷◌, ◌≤◌, length, IfOk, OnOk, OnErr};
ghost use Rattle.std.specs.Io.KnownBytes.{Appends};
ghost use Rattle.decimal.specs.Rows.{row_text};
ghost use Rattle.salvaging.specs.Pieces.{piece_end, copy_of, report_of};
ghost use Rattle.salvaging.specs.Printed.{AllPassed};
ghost use Rattle.salvage.specs.Written.{printed_copy, printed_report};
ghost use Rattle.words.specs.Written.{AppendsFront};

use salvaging::Piece;
use std::io;
use std::io::Write;

// R357: the line of a stretch: its place and its length. An error is that of writing, and a front part of it was
// printed.
#[tactic(auto, using(std::proofs::lemmas::Grind::common_steps, salvaging::proofs::Printing::stretch_room, words::proofs::Fronts::front_over), unfolding(decimal::specs::Writing::put_answer, decimal::specs::Writing::put_bytes))]
fn print_stretch<E: Write>(standard_error: &mut E, place: usize, long: usize) -> io::Result<()>
    ensures told { OnOk result (Appends (E.contents standard_error.old) (E.contents standard_error.new) (row_text (place ∷ long ∷ []))) }
    ensures front { OnErr result (AppendsFront (E.contents standard_error.old) (E.contents standard_error.new)
        (row_text (place ∷ long ∷ []))) }
{
    let mut line = [0u8; 42];
    // two numbers of 20 digits, a space and a line feed have room; a row's are `u64`, which has no `From` of a `usize`
    let end = decimal::put_row(&mut line, 0, b"", &[place as u64, long as u64]).unwrap();
    words::put_all(standard_error, &line[..end])
}

// Prints a piece of the text, and gives the place where it ends. An error is that of writing, and a front part of what
// is due was printed on each output: nothing on the one that the piece is not for.
fn print_piece<W: Write, E: Write>(
    out: &mut W,
    standard_error: &mut E,
    text: &[u8],
    piece: Piece,
) -> io::Result<usize>
    requires { piece_end piece ≤ length text.now }
    ensures end { IfOk result (λ end. end ≡ piece_end piece) }
    ensures copied { OnOk result (Appends (W.contents out.old) (W.contents out.new) (copy_of text.now piece)) }
    ensures reported { OnOk result (Appends (E.contents standard_error.old) (E.contents standard_error.new) (report_of piece)) }
    ensures copied_front { OnErr result (AppendsFront (W.contents out.old) (W.contents out.new)
        (copy_of text.now piece)) }
    ensures reported_front { OnErr result (AppendsFront (E.contents standard_error.old) (E.contents standard_error.new)
        (report_of piece)) }
{
    match piece {
        Piece::Copied(place, long) => {
            let end = place + long;
            words::put_all(out, &text[place..end])?;
            Ok(end)
        }
        Piece::LeftOut(place, long) => {
            print_stretch(standard_error, place, long)?;
            Ok(place + long)
        }
    }
}

// Prints piece after piece from the text's start to its end, and gives the place where it stopped; of a text longer
// than 65,536 bytes, nothing. An error is that of writing, and nothing is printed behind it: on each output stands a
// front part of what is due. Where the next piece begins, this one says: so the loop is no `for` over places.
fn print_text<W: Write, E: Write>(
    out: &mut W,
    standard_error: &mut E,
    rules: rules::Rules,
    text: &[u8],
) -> io::Result<usize>
    ensures passed { IfOk result (λ at. AllPassed rules text.now at) }
    ensures copied { OnOk result (Appends (W.contents out.old) (W.contents out.new) (printed_copy rules text.now)) }
    ensures reported { OnOk result (Appends (E.contents standard_error.old) (E.contents standard_error.new) (printed_report rules text.now)) }
    ensures copied_front { OnErr result (AppendsFront (W.contents out.old) (W.contents out.new)
        (printed_copy rules text.now)) }
    ensures reported_front { OnErr result (AppendsFront (E.contents standard_error.old) (E.contents standard_error.new)
        (printed_report rules text.now)) }
{
    if 65536 < text.len() {
        return Ok(0);
    }
    let mut at: usize = 0;
    while at < text.len() {
        let piece = salvaging::piece_at(rules, text, at);
        at = print_piece(out, standard_error, text, piece)?;
    }
    Ok(at)
}

fn main(rt: HostRuntime) -> io::Result<()> {
    let Ok(asked) = words::given(&rt, &mut rt.stderr(), b"salvage")? else {
        return Ok(());
    };
    let rules = rules::choose(asked.strict, asked.entries);
    let mut space = [0u8; 65537];
    let n = words::filled(&mut rt.stdin(), &mut space)?;
    print_text(&mut rt.stdout(), &mut rt.stderr(), rules, &space[..n])?;
    Ok(())
}
