// What a list came to on a tuple, written into lent buffers: the new tuple gathered once from the places of its
// fields, after everything is judged; the undo list from its entries.
#![tactic(auto)]

ghost use Rattle.std.specs.Prelude.{◌≡◌, ◌++◌, ◌+◌, ◌^◌, ◌<◌, ◌≤◌, length, take, drop, Ok, Err};
ghost use Rattle.msgpack_first_bytes.specs.Bytes.{pick};
ghost use Rattle.msgpack_values.specs.Pieces.{joined};
ghost use Rattle.msgpack_writing.specs.Forms.{array_header};
ghost use Rattle.msgpack_writing.specs.Put.{next, Writes};
ghost use Rattle.tuples.specs.Call.{bytes};
ghost use Rattle.tuples.specs.Press.{pressing};
ghost use Rattle.tuples.specs.Tuple.{fields_of, plain};
ghost use Rattle.update_places.specs.Place.{fields_in};
ghost use Rattle.update_running.specs.Steps.{entry_mark};
ghost use Rattle.update_running.specs.Held.{entry_bytes, undo_in};
ghost use Rattle.update_delivering.specs.Gathering.{Gathers, Side, Sides, shown, Stands, in_limits, undo_outcome, Entries, Undoes, Delivers, DeliversBoth, Moves};
ghost use Rattle.update_running.specs.Carrying.{comes_to, takes_back, rest_of};
ghost use Rattle.update_delivering.specs.Delivering.{failed_of, call_failed, TriesUpdate, TriesUndo, TriesPress};
ghost use Rattle.tuples.specs.declared.Refusal.TheVariants.{LongUndo};
ghost use Rattle.update_delivering.specs.declared.Failed.TheVariants.{Refused};
ghost use Rattle.update_delivering.specs.declared.Unwritten.TheVariants.{Refused as RefusedYet};

use tuples::{MAX_LIST, MAX_OPERATIONS, MAX_TUPLE, Refusal};
use update_places::{Sources, length_of, start_of};
use update_running::{Stage, Unfinished};

// Why no new tuple is written: the arrays have no room; the work array was full, and the fields up to there stand as
// a tuple in the spare buffer; a refusal, at an operation.
#[derive(Clone, Copy)]
pub enum Unwritten {
    NoRoom,
    // The length of that tuple, and the place and the index of the next operation.
    Moved(usize, usize, usize),
    Refused(Refusal, usize),
}

// The length of the new tuple, or why it is not written.
pub type Tried = Result<usize, Unwritten>;

// Why nothing is written: the arrays have no room; a refusal, at an operation.
#[derive(Clone, Copy)]
pub enum Failed {
    NoRoom,
    Refused(Refusal, usize),
}

// The lengths of the new tuple and of the undo list, or why neither is written.
pub type Pressed = Result<(usize, usize), Failed>;

// Where the work array is full, the call has no room in it.
impl From<Unfinished> for Failed {
    ghost from_gives = { λ e f. f ≡ failed_of e };

    fn from(unfinished: Unfinished) -> Failed {
        match unfinished {
            Unfinished::NoRoom => Failed::NoRoom,
            Unfinished::Full(_, _, _) => Failed::NoRoom,
            Unfinished::Refused(refusal, i) => Failed::Refused(refusal, i),
        }
    }
}

// A refusal of the whole call stands at operation 0.
impl From<Refusal> for Failed {
    ghost from_gives = { λ k f. f ≡ Refused k 0 };

    fn from(refusal: Refusal) -> Failed {
        Failed::Refused(refusal, 0)
    }
}

// A call that takes no more turns had no room in one.
impl From<Unwritten> for Failed {
    ghost from_gives = { λ e f. f ≡ call_failed e };

    fn from(unwritten: Unwritten) -> Failed {
        match unwritten {
            Unwritten::NoRoom => Failed::NoRoom,
            Unwritten::Moved(_, _, _) => Failed::NoRoom,
            Unwritten::Refused(refusal, i) => Failed::Refused(refusal, i),
        }
    }
}

impl From<Refusal> for Unwritten {
    ghost from_gives = { λ k f. f ≡ RefusedYet k 0 };

    fn from(refusal: Refusal) -> Unwritten {
        Unwritten::Refused(refusal, 0)
    }
}

// ---- the new tuple

// The fields of entries that lie side by side: one copy.
fn gather_side(sources: Sources, entries: &[u32], out: &mut [u8], at: usize) -> usize
    requires { Gathers sources.tuple.now sources.list.now sources.work.now entries.now out.old at × Side entries.now }
    ensures { Writes at (joined (fields_in sources.entry.tuple.now sources.entry.list.now sources.entry.work.now entries.now)) result out.old out.new }
{
    if entries.is_empty() {
        return at;
    }
    let from = start_of(entries[0]);
    let p = entries[entries.len() - 1];
    let n = start_of(p) + length_of(p) - from;
    update_places::copy_from(sources, from, n, out, at)
}

// The fields of any entries, back to back: places that lie side by side go in one copy.
fn gather_each(sources: Sources, entries: &[u32], out: &mut [u8], at: usize) -> usize
    requires { Gathers sources.tuple.now sources.list.now sources.work.now entries.now out.old at }
    ensures { Writes at (joined (fields_in sources.entry.tuple.now sources.entry.list.now sources.entry.work.now entries.now)) result out.old out.new }
{
    let mut to = at;
    for side in entries.chunk_by(|a, b| start_of(*a) + length_of(*a) == start_of(*b)) {
        to = gather_side(sources, side, out, to);
    }
    to
}

// The fields of entries of which the first `low` and the last `tail` lie side by side.
fn gather(
    sources: Sources,
    entries: &[u32],
    low: usize,
    tail: usize,
    out: &mut [u8],
    at: usize,
) -> usize
    requires { Gathers sources.tuple.now sources.list.now sources.work.now entries.now out.old at × Sides entries.now low tail }
    ensures { Writes at (joined (fields_in sources.entry.tuple.now sources.entry.list.now sources.entry.work.now entries.now)) result out.old out.new }
{
    let last = low.max(entries.len() - tail);
    let a = gather_side(sources, &entries[..low], out, at);
    let b = gather_each(sources, &entries[low..last], out, a);
    gather_side(sources, &entries[last..], out, b)
}

fn tuple_length(stage: Stage) -> usize
    requires { (stage.fields < 2 ^ 32) × (stage.bytes < 2 ^ 32) }
    ensures { result ≡ length (array_header stage.fields) + stage.bytes }
{
    msgpack_writing::array_header_length(stage.fields as u32) + stage.bytes
}

fn write_tuple(sources: Sources, table: &[u32], stage: Stage, out: &mut [u8])
    requires { Stands sources.tuple.now sources.list.now sources.work.now table.now stage × (length (plain (shown sources.tuple.now sources.list.now sources.work.now table.now stage)) ≤ length out.old) }
    ensures { out.new ≡ plain (shown sources.entry.tuple.now sources.entry.list.now sources.entry.work.now table.now stage)
        ++ drop (length (plain (shown sources.entry.tuple.now sources.entry.list.now sources.entry.work.now table.now stage))) out.old }
{
    let at = msgpack_writing::write_array_header(out, 0, stage.fields as u32);
    let entries = &table[stage.head..stage.head + stage.fields];
    gather(sources, entries, stage.low, stage.tail, out, at);
}

fn deliver(sources: Sources, table: &[u32], stage: Stage, out: &mut [u8]) -> Result<usize, Refusal>
    requires { Stands sources.tuple.now sources.list.now sources.work.now table.now stage }
    ensures { Delivers result (bytes (plain (shown sources.entry.tuple.now sources.entry.list.now sources.entry.work.now table.now stage))) out.old out.new }
{
    let length = tuple_length(stage);
    if out.len() < length {
        return Err(Refusal::ShortBuffer);
    }
    write_tuple(sources, table, stage, out);
    Ok(length)
}

// The fields up to an operation, as a tuple for the operations from there on.
fn rebase(
    sources: Sources,
    table: &[u32],
    stage: Stage,
    at: usize,
    i: usize,
    spare: &mut [u8],
) -> Tried
    requires { Stands sources.tuple.now sources.list.now sources.work.now table.now stage }
    ensures { Moves result (shown sources.entry.tuple.now sources.entry.list.now sources.entry.work.now table.now stage) spare.old spare.new at i }
{
    if spare.len() < MAX_TUPLE {
        return Err(Unwritten::NoRoom);
    }
    write_tuple(sources, table, stage, spare);
    Err(Unwritten::Moved(tuple_length(stage), at, i))
}

// ---- the undo list

fn write_entry(sources: Sources, entry: u64, out: &mut [u8], at: usize) -> usize
    requires { (entry_mark entry < 2 ^ 8) × (at + length (entry_bytes sources.tuple.now sources.list.now sources.work.now entry) ≤ length out.old) }
    ensures { Writes at (entry_bytes sources.entry.tuple.now sources.entry.list.now sources.entry.work.now entry) result out.old out.new }
{
    let f = (entry >> 32) % 0x1_0000;
    let mark = (entry >> 48) as u8;
    let p = (entry % 0x1_0000_0000) as u32;
    let head = [0x93, 0xa1, mark];
    let number = msgpack_writing::write_bytes(out, at, &head);
    let value = msgpack_writing::write_unsigned(out, number, f);
    if mark == 0x23 {
        return msgpack_writing::write_unsigned(out, value, 1);
    }
    update_places::copy_from(sources, start_of(p), length_of(p), out, value)
}

// What was laid last comes first.
fn write_entries(sources: Sources, entries: &[u64], out: &mut [u8], at: usize) -> usize
    requires { Entries entries.now (length entries.now) × (at + length (joined (undo_in sources.tuple.now sources.list.now sources.work.now entries.now)) ≤ length out.old) }
    ensures { Writes at (joined (undo_in sources.entry.tuple.now sources.entry.list.now sources.entry.work.now entries.now)) result out.old out.new }
{
    let mut to = at;
    for entry in entries.iter().rev() {
        to = write_entry(sources, *entry, out, to);
    }
    to
}

// How long the undo list is, where it is within the limits.
fn undo_length(stage: Stage) -> Result<usize, Refusal>
    requires { stage.back < 2 ^ 32 }
    ensures { result ≡ pick (in_limits stage.laid stage.back) (Ok (length (array_header stage.laid) + stage.back)) (Err LongUndo) }
{
    let laid = stage.laid;
    if MAX_OPERATIONS < laid {
        return Err(Refusal::LongUndo);
    }
    let length = msgpack_writing::array_header_length(laid as u32) + stage.back;
    if MAX_LIST < length {
        return Err(Refusal::LongUndo);
    }
    Ok(length)
}

fn write_undo(sources: Sources, back: &[u64], laid: usize, out: &mut [u8])
    requires { Entries back.now laid × (length (plain (undo_in sources.tuple.now sources.list.now sources.work.now (take laid back.now))) ≤ length out.old) }
    ensures { out.new ≡ plain (undo_in sources.entry.tuple.now sources.entry.list.now sources.entry.work.now (take laid back.now))
        ++ drop (length (plain (undo_in sources.entry.tuple.now sources.entry.list.now sources.entry.work.now (take laid back.now)))) out.old }
{
    let at = msgpack_writing::write_array_header(out, 0, laid as u32);
    write_entries(sources, &back[..laid], out, at);
}

fn deliver_undo(
    sources: Sources,
    back: &[u64],
    stage: Stage,
    out: &mut [u8],
) -> Result<usize, Refusal>
    requires { Undoes sources.tuple.now sources.list.now sources.work.now back.now stage }
    ensures { Delivers result (undo_outcome sources.entry.tuple.now sources.entry.list.now sources.entry.work.now back.now stage) out.old out.new }
{
    let length = undo_length(stage)?;
    if out.len() < length {
        return Err(Refusal::ShortBuffer);
    }
    write_undo(sources, back, stage.laid, out);
    Ok(length)
}

// Everything is judged before anything is written.
fn deliver_both(
    sources: Sources,
    table: &[u32],
    back: &[u64],
    stage: Stage,
    out: &mut [u8],
    undo: &mut [u8],
) -> Result<(usize, usize), Refusal>
    requires { Stands sources.tuple.now sources.list.now sources.work.now table.now stage × Undoes sources.tuple.now sources.list.now sources.work.now back.now stage }
    ensures { DeliversBoth result (pressing (bytes (plain (shown sources.entry.tuple.now sources.entry.list.now sources.entry.work.now table.now stage))) (undo_outcome sources.entry.tuple.now sources.entry.list.now sources.entry.work.now back.now stage))
        out.old out.new undo.old undo.new }
{
    let length = tuple_length(stage);
    let undo_length = undo_length(stage)?;
    if out.len() < length {
        return Err(Refusal::ShortBuffer);
    }
    if undo.len() < undo_length {
        return Err(Refusal::ShortBuffer);
    }
    write_tuple(sources, table, stage, out);
    write_undo(sources, back, stage.laid, undo);
    Ok((length, undo_length))
}

// The operations of a list from the one at `start` on, which is the `first` of `count`, on the tuple; the new
// tuple into `out`. What the two work arrays hold afterwards is free.
pub fn update_with(
    tuple: &[u8],
    list: &[u8],
    base: u64,
    start: usize,
    first: usize,
    count: usize,
    table: &mut [u32],
    work: &mut [u8],
    spare: &mut [u8],
    out: &mut [u8],
) -> Tried
    ensures { TriesUpdate result (comes_to first (fields_of tuple.now) (rest_of base count first start list.now)) list.now
        out.old out.new spare.old spare.new work.old table.old base count first }
{
    let mut none = [0u64; 0];
    match update_running::carry_out(
        tuple, list, base, start, first, count, work, table, &mut none,
    ) {
        Err(Unfinished::NoRoom) => Err(Unwritten::NoRoom),
        Err(Unfinished::Refused(refusal, i)) => Err(Unwritten::Refused(refusal, i)),
        Err(Unfinished::Full(stage, at, i)) => {
            rebase(Sources { tuple, list, work }, table, stage, at, i, spare)
        }
        Ok(stage) => Ok(deliver(Sources { tuple, list, work }, table, stage, out)?),
    }
}

// The undo list of the `count` operations of the list from `start` on, into `out`.
pub fn undo_with(
    tuple: &[u8],
    list: &[u8],
    base: u64,
    start: usize,
    count: usize,
    table: &mut [u32],
    work: &mut [u8],
    out: &mut [u8],
) -> Result<usize, Failed>
    ensures { TriesUndo result (comes_to 0 (fields_of tuple.now) (rest_of base count 0 start list.now))
        (takes_back (fields_of tuple.now) (rest_of base count 0 start list.now)) out.old out.new work.old table.old }
{
    let mut back = [0u64; MAX_OPERATIONS];
    let stage = update_running::carry_out(
        tuple, list, base, start, 0, count, work, table, &mut back,
    )?;
    Ok(deliver_undo(Sources { tuple, list, work }, &back, stage, out)?)
}

// Both: the new tuple into `out`, the undo list into `undo`; or neither.
pub fn press_with(
    tuple: &[u8],
    list: &[u8],
    base: u64,
    start: usize,
    count: usize,
    table: &mut [u32],
    work: &mut [u8],
    out: &mut [u8],
    undo: &mut [u8],
) -> Pressed
    ensures { TriesPress result (comes_to 0 (fields_of tuple.now) (rest_of base count 0 start list.now))
        (takes_back (fields_of tuple.now) (rest_of base count 0 start list.now)) out.old out.new undo.old undo.new
        work.old table.old }
{
    let mut back = [0u64; MAX_OPERATIONS];
    let stage = update_running::carry_out(
        tuple, list, base, start, 0, count, work, table, &mut back,
    )?;
    Ok(deliver_both(
        Sources { tuple, list, work },
        table,
        &back,
        stage,
        out,
        undo,
    )?)
}
