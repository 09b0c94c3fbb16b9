// The program `rewrite` (R341, R345, R346, R349): standard input is printed again as canonical text, record by record.
// What a record's text is, and where the next begins, is `sao::rewrite_record`'s; here it is only read, asked for and
// written.
#![tactic(auto)]

ghost use Rattle.std.specs.Prelude.{◌≡◌, length, IfOk, OnOk, OnErr};
ghost use Rattle.std.specs.Io.KnownBytes.{Appends};
ghost use Rattle.rewriting.specs.Printed.{Stopped, printed};
ghost use Rattle.words.specs.Written.{AppendsFront};

use std::io;
use std::io::Write;

// Prints the canonical text of each record from the text's start on, until the first that is not rewritten with 0, and
// gives the place where it stopped; of a text longer than 65,536 bytes, nothing. The table has a cell for each byte of
// the page, which is always enough (R347). An error is that of writing, and nothing is printed behind it: on the output
// stands a front part of what is due. Where the next record begins, this one says: so the loop is no `for` over places.
fn print_text<W: Write>(
    out: &mut W,
    rules: rules::Rules,
    text: &[u8],
    table: &mut [i64],
    page: &mut [u8],
) -> io::Result<usize>
    requires table { length table.old ≡ 8192 }
    requires page { length page.old ≡ 8192 }
    ensures stopped { IfOk result (λ at. Stopped rules text.now at) }
    ensures written { OnOk result (Appends (W.contents out.old) (W.contents out.new) (printed rules text.now)) }
    ensures front { OnErr result (AppendsFront (W.contents out.old) (W.contents out.new)
        (printed rules text.now)) }
{
    if 65536 < text.len() {
        return Ok(0);
    }
    let mut at: usize = 0;
    while at < text.len() {
        let Ok(rewritten) = sao::rewrite_record(rules, text, at, table, page) else {
            return Ok(at);
        };
        words::put_all(out, &page[..rewritten.bytes])?;
        at = rewritten.next;
    }
    Ok(at)
}

fn main(rt: HostRuntime) -> io::Result<()> {
    let Ok(asked) = words::given(&rt, &mut rt.stderr(), b"rewrite")? else {
        return Ok(());
    };
    let rules = rules::choose(asked.strict, asked.entries);
    let mut space = [0u8; 65537];
    let n = words::filled(&mut rt.stdin(), &mut space)?;
    let mut table = [0i64; 8192];
    let mut page = [0u8; 8192];
    print_text(&mut rt.stdout(), rules, &space[..n], &mut table, &mut page)?;
    Ok(())
}
