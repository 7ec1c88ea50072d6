// Writes the sheet of each record of standard input, zero bytes for a refused one, and stops reading after 1,000,000.
#![tactic(auto)]

ghost use Rattle.std.specs.Prelude.{◌≡◌, ◌*◌, ◌≤◌, length};
ghost use Rattle.sheet.specs.Sheet.{sheet_bytes};
ghost use Rattle.reading.specs.Running.{RunOf};
ghost use Rattle.sheets.specs.Sheets.{most_sheets, sheets_buffer, SheetOf, SheetsIn, Makes};

use reading::{Failed, LAST, Maker};

// How many records are read at a time: a pipe holds as many sheets.
const RECORDS: usize = 21;

// Their bytes.
const BUFFER: usize = RECORDS * record::BYTES;

// The bytes of their sheets.
const SHEETS: usize = RECORDS * sheet::BYTES;

// The sheet of the chain of the record in the given bytes, or zero bytes if it is refused.
fn sheet_of(bytes: &[u8], out: &mut [u8])
    requires { length out.old ≡ sheet_bytes }
    ensures { SheetOf bytes.now out.new }
{
    let Ok(record) = record::check(bytes) else {
        return sheet_writer::blank(out);
    };
    let mut area = [0; area::WORDS];
    match chain::chain(record.modulus, record.polynomial, &mut area) {
        Ok(_) => sheet_writer::put(record.modulus, &area, out),
        Err(_) => sheet_writer::blank(out),
    }
}

// The sheets of the records that s is cut into, one after the other; answers their length.
fn sheets(s: &[u8], out: &mut [u8]) -> usize
    requires { (length s.now ≤ sheets_buffer) × (most_sheets * sheet_bytes ≤ length out.old) }
    ensures { SheetsIn s.now out.old out.new result }
{
    for (i, record) in s.chunks(record::BYTES).enumerate() {
        let at = i * sheet::BYTES;
        sheet_of(record, &mut out[at..at + sheet::BYTES]);
    }
    s.len().div_ceil(record::BYTES) * sheet::BYTES
}

// Makes sheets of records.
#[derive(Drop)]
struct Sheeter;

impl Maker for Sheeter {
    ghost makes = { Makes };

    ghost buffer_bytes = { sheets_buffer };

    ghost made_bytes = { most_sheets * sheet_bytes };

    const NAME: &'static [u8] = b"sheets";

    fn make(&self, _taken: usize, listed: &[u8], out: &mut [u8]) -> usize {
        sheets(listed, out)
    }
}

// Turn by turn, to the end of the input or the last record that is read. The loop stands here and not in `reading`:
// `list` has it too, whose edit `ended_early` changes its test.
fn run(rt: &HostRuntime, buf: &mut [u8], out: &mut [u8]) -> Result<(), Failed>
    requires { (length buf.old ≡ sheets_buffer) × (most_sheets * sheet_bytes ≤ length out.old) }
    ensures { RunOf Makes result }
{
    let mut taken = 0;
    while taken < LAST {
        let more = reading::turn(rt, &Sheeter, taken, buf, out)?;
        if more == 0 {
            return Ok(());
        }
        taken += more;
    }
    Ok(())
}

fn main(rt: HostRuntime) {
    let mut buf = [0u8; BUFFER];
    let mut out = [0u8; SHEETS];
    let _ = run(&rt, &mut buf, &mut out);
}
