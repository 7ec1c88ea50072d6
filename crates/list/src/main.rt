// Lists the records of standard input, a line for each, and stops reading after 1,000,000.
#![tactic(auto)]

ghost use Rattle.std.specs.Prelude.{◌≡◌, ◌≤◌, length};
ghost use Rattle.listing.specs.Listing.{most_lines, Lines};
ghost use Rattle.reading.specs.Running.{RunOf};
ghost use Rattle.list.specs.Buffer.{buffer_bytes};

use binomial::Table;
use reading::{Failed, LAST, Maker};

// The bytes of the records that are listed at a time.
const BUFFER: usize = listing::RECORDS * record::BYTES;

// Makes lines of records, by the table of binomials.
#[derive(Drop)]
struct Lister<'a> {
    table: &'a Table,
}

impl Maker for Lister<'_> {
    ghost makes = { Lines };

    ghost buffer_bytes = { buffer_bytes };

    ghost made_bytes = { most_lines };

    const NAME: &'static [u8] = b"list";

    fn make(&self, taken: usize, listed: &[u8], out: &mut [u8]) -> usize {
        listing::lines(listed, reading::number(taken), self.table, out)
    }
}

// Turn by turn, to the end of the input or the last record that is read. The loop stands here and not in `reading`:
// `ended_early` changes its test.
fn run(rt: &HostRuntime, lister: &Lister, buf: &mut [u8], out: &mut [u8]) -> Result<(), Failed>
    requires { (length buf.old ≡ buffer_bytes) × (most_lines ≤ length out.old) }
    ensures { RunOf Lines result }
{
    let mut taken = 0;
    while taken < LAST {
        let more = reading::turn(rt, lister, taken, buf, out)?;
        if more == 0 {
            return Ok(());
        }
        taken += more;
    }
    Ok(())
}

fn main(rt: HostRuntime) {
    let table = Table::new();
    let lister = Lister { table: &table };
    let mut buf = [0u8; BUFFER];
    let mut out = [0u8; listing::LINES];
    let _ = run(&rt, &lister, &mut buf, &mut out);
}
