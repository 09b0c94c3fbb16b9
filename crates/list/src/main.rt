// The program `list` (R341 to R344, R349): standard input is listed on standard output. What is printed is
// `listing::print`'s; here it is only read, asked for and written.
#![tactic(auto)]

ghost use Rattle.std.specs.Prelude.{OnOk, OnErr};
ghost use Rattle.std.specs.Io.KnownBytes.{Appends};
ghost use Rattle.listing.specs.Listing.{printed_listing};
ghost use Rattle.words.specs.Written.{AppendsFront};

use std::io;
use std::io::Write;

// Prints what the program prints for a text. An error is that of writing, and a front part was printed.
#[tactic(auto, using(std::proofs::lemmas::Grind::common_steps, listing::proofs::Bound::printed_within, words::proofs::Fronts::front_over), unfolding(decimal::specs::Writing::put_answer, decimal::specs::Writing::put_bytes))]
fn print_listing<W: Write>(out: &mut W, rules: rules::Rules, text: &[u8]) -> io::Result<()>
    ensures listed { OnOk result (Appends (W.contents out.old) (W.contents out.new) (printed_listing rules text.now)) }
    ensures front { OnErr result (AppendsFront (W.contents out.old) (W.contents out.new)
        (printed_listing rules text.now)) }
{
    let mut page = [0u8; 8192];
    // R347: what is printed is shorter than 8,192 bytes
    let end = listing::print(rules, text, &mut page).unwrap();
    words::put_all(out, &page[..end])
}

fn main(rt: HostRuntime) -> io::Result<()> {
    let Ok(asked) = words::given(&rt, &mut rt.stderr(), b"list")? else {
        return Ok(());
    };
    let rules = rules::choose(asked.strict, asked.entries);
    let mut space = [0u8; 65537];
    let n = words::filled(&mut rt.stdin(), &mut space)?;
    print_listing(&mut rt.stdout(), rules, &space[..n])
}
