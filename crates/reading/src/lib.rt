// What programs that read records share: standard input comes in pieces, and of a record that is not whole yet the bytes are kept.
#![tactic(auto)]

ghost use Rattle.std.specs.Prelude.{◌≡◌, List, ℕ, ◌+◌, ◌%◌, ◌<◌, ◌≤◌, length, take};
ghost use Rattle.std.specs.Io.{ReadsAtMost};
ghost use Rattle.record.specs.Record.{record_bytes};
ghost use Rattle.reading.specs.Reading.{most_read, MayRead, Came, number_after, upto, to_front};
ghost use Rattle.reading.specs.Running.{Step, TurnOf};

use std::io;
use std::io::{Read, Write};

// How many records are read at the most.
const MOST: usize = 1000000;

// The bytes of these records.
pub const LAST: usize = MOST * record::BYTES;

// Reading or writing has failed. It is told already, so that a program ends.
#[derive(Debug, Drop)]
pub struct Failed;

// What a program makes of records: it lends a turn what it needs for that.
pub trait Maker {
    // `makes b k t`: t is made of the records that b is cut into, numbered from k on.
    ghost makes: { List ℕ → ℕ → List ℕ → Type 0 };

    // How many bytes are made something of at a time, and the most that they come to.
    ghost buffer_bytes: { ℕ };

    ghost made_bytes: { ℕ };

    // What the program is called where it tells of a failure.
    const NAME: &'static [u8];

    // What is made of the bytes that are listed after `taken`, at the start of out; answers its length.
    fn make(&self, taken: usize, listed: &[u8], out: &mut [u8]) -> usize
        requires { (taken < most_read) × (length listed.now ≤ buffer_bytes) × (made_bytes ≤ length out.old) }
        ensures { (result ≤ length out.old) × makes listed.now (number_after taken) (take result out.new) };
}

// The number of the record that is next, or begun, after `taken` bytes.
pub fn number(taken: usize) -> u32
    requires { taken < most_read }
    ensures { result ≡ number_after taken }
{
    (taken / record::BYTES) as u32 + 1
}

// How many bytes may be read after `taken` into a buffer of so many, behind those of the record that is begun: as many as there is
// room for, and none past the last record that is read.
fn room(taken: usize, bytes: usize) -> usize
    requires { (taken < most_read) × (record_bytes ≤ bytes) }
    ensures { MayRead taken bytes result }
{
    let left = LAST - taken;
    let free = bytes - taken % record::BYTES;
    left.min(free)
}

// A read into the lent bytes, after `taken` bytes. It is the only one, and `taken` is there for what it requires: that no byte past
// the last record that is read is asked for. It answers 0 at the end of the input.
fn read_after(rt: &HostRuntime, taken: usize, bytes: &mut [u8]) -> io::Result<usize>
    requires { taken + length bytes.old ≤ most_read }
    ensures { ReadsAtMost result bytes.new }
{
    rt.stdin().read(bytes)
}

// Tells of a failure by a line to standard error: the program's name, what has failed, at which record. If this fails too nothing is left to do.
fn tell(rt: &HostRuntime, program: &[u8], what: &[u8], number: u32) -> Failed {
    let mut to = rt.stderr();
    let _ = to.write_all(program);
    let _ = to.write_all(what);
    let _ = writeln!(to, "{number}");
    Failed
}

// One read into buf after `taken` bytes, behind those of the record that is begun, which stay: how many bytes have come, none at
// the end of the input.
pub fn more(rt: &HostRuntime, program: &[u8], taken: usize, buf: &mut [u8]) -> Result<usize, Failed>
    requires { (taken < most_read) × (record_bytes ≤ length buf.old) }
    ensures { Came taken buf.old buf.new result }
{
    let from = taken % record::BYTES;
    let to = from + room(taken, buf.len());
    let Ok(got) = read_after(rt, taken, &mut buf[from..to]) else {
        return Err(tell(rt, program, b": reading failed at record ", number(taken)));
    };
    Ok(got)
}

// How many bytes are listed where more have come after those that were kept: those of the whole records, or, where no more have
// come and the input has ended, all.
pub fn listed(kept: usize, more: usize) -> usize
    requires { kept + more ≤ most_read }
    ensures { (result ≤ kept + more) × (result ≡ upto kept more) }
{
    if more == 0 {
        return kept;
    }
    let n = kept + more;
    n - n % record::BYTES
}

// Moves n bytes from index `from` on to the front.
pub fn keep(buf: &mut [u8], from: usize, n: usize)
    requires { from + n ≤ length buf.old }
    ensures { buf.new ≡ to_front buf.old from n }
{
    buf.copy_within(from..from + n, 0);
}

// Writes what was made of a read after `taken` bytes. It is the only write, and one that failed is told.
pub fn put(rt: &HostRuntime, program: &[u8], taken: usize, bytes: &[u8]) -> Result<(), Failed>
    requires { taken < most_read }
{
    let Ok(()) = rt.stdout().write_all(bytes) else {
        return Err(tell(
            rt,
            program,
            b": writing failed at or after record ",
            number(taken),
        ));
    };
    Ok(())
}

// Puts what is made of the bytes that are listed after `taken`. A turn puts by it alone, and `listed` is there for what it requires:
// that what is put is made of these bytes, numbered on.
fn put_made<M: Maker>(
    rt: &HostRuntime,
    taken: usize,
    listed: &[u8],
    made: &[u8],
) -> Result<(), Failed>
    requires { (taken < most_read) × M.makes listed.now (number_after taken) made.now }
{
    put(rt, M::NAME, taken, made)
}

// What a read that brought `more` bytes leads to, after `taken` bytes: what is made of the records that are whole by it is put, and
// the bytes that are not listed yet, fewer than a record, come to the front of buf.
fn step<M: Maker>(
    rt: &HostRuntime,
    maker: &M,
    taken: usize,
    more: usize,
    buf: &mut [u8],
    out: &mut [u8],
) -> Result<(), Failed>
    requires { (taken < most_read) × (taken + more ≤ most_read) × (taken % record_bytes + more ≤ length buf.old)
        × (length buf.old ≤ M.buffer_bytes) × (M.made_bytes ≤ length out.old) }
    ensures { Step M.makes taken more buf.old buf.new }
{
    let kept = taken % record::BYTES;
    let to = listed(kept, more);
    let n = maker.make(taken, &buf[..to], out);
    let is_put = put_made::<M>(rt, taken, &buf[..to], &out[..n]);
    keep(buf, to, kept + more - to);
    is_put
}

// One read after `taken` bytes, and what is made of the records that are whole by it: how many bytes have come, none at the end of
// the input.
pub fn turn<M: Maker>(
    rt: &HostRuntime,
    maker: &M,
    taken: usize,
    buf: &mut [u8],
    out: &mut [u8],
) -> Result<usize, Failed>
    requires { (taken < most_read) × (record_bytes ≤ length buf.old) × (length buf.old ≤ M.buffer_bytes) × (M.made_bytes ≤ length out.old) }
    ensures { TurnOf M.makes taken buf.old buf.new result }
{
    let more = more(rt, M::NAME, taken, buf)?;
    step(rt, maker, taken, more, buf, out)?;
    Ok(more)
}
