// The update call, the undo call and the press call. Each is tried in short arrays first: to zero longer ones
// takes longer than a small update.
#![tactic(auto)]

ghost use Rattle.std.specs.Prelude.{◌≡◌, length};
ghost use Rattle.tuples.specs.Call.{update, undo, update_call, undo_call};
ghost use Rattle.tuples.specs.Press.{press, press_call};
ghost use Rattle.tuples.specs.Limits.{max_tuple};
ghost use Rattle.update_answers.specs.Seen.{seen, press_seen};
ghost use Rattle.update_running.specs.Carrying.{table_room};
ghost use Rattle.update_delivering.specs.Delivering.{long_by};
ghost use Rattle.updates.specs.Telling.{Fronts, came_of, Once, Tries, Tells, Told, ToldOrLong, PressTells, PressToldOrLong, Refuses, answer_by, FewIn, press_answer_by};

use msgpack_values::NO_PLACE;
use tuples::{Answer, MAX_OPERATIONS, MAX_TUPLE, PressAnswer, Refusal};
use update_delivering::{Failed, Pressed, Unwritten};
use update_running::{TABLE_ROOM, WORK_ROOM};

// Where a list has at most so many bytes, the short arrays are tried.
const SHORT_LIST: usize = 512;

const SHORT_TABLE: usize = 144;

const SHORT_WORK: usize = 256;

// What a call asks for: the operations of a list on a tuple. The list's front tells how many they are and where the
// first of them begins; more than the limit where the list is refused.
#[derive(Clone, Copy)]
struct Request<'a> {
    tuple: &'a [u8],
    list: &'a [u8],
    base: u64,
    count: usize,
    start: usize,
}

// The length written, or why nothing is.
type Call = Result<usize, Failed>;

// The front is read once for every try.
fn request_of<'a>(tuple: &'a [u8], list: &'a [u8], base: u64) -> Request<'a>
    ensures { (result.tuple.now ≡ tuple.now) × (result.list.now ≡ list.now) × (result.base ≡ base)
        × Fronts base list.now result.count result.start }
{
    let (count, start) = update_operations::front_of(list, base).unwrap_or((MAX_OPERATIONS + 1, 0));
    Request {
        tuple,
        list,
        base,
        count,
        start,
    }
}

// ---- the tries

// In arrays for most calls. Not inlined, nor are the last tries: every call would set aside the stack of their arrays.
#[inline(never)]
fn tried_more<T, F: FnMut(&mut [u32], &mut [u8]) -> Result<T, Failed>>(
    call: &mut F,
) -> Result<T, Failed>
    requires { F.IsAlwaysCallable call.old }
    ensures { Once F.step call.old result call.new }
{
    let mut table = [0u32; TABLE_ROOM];
    let mut work = [0u8; MAX_TUPLE];
    call(&mut table, &mut work)
}

// In short arrays first, where the list is short.
fn tried<T, F: FnMut(&mut [u32], &mut [u8]) -> Result<T, Failed>>(
    list: &[u8],
    call: &mut F,
) -> Result<T, Failed>
    requires { F.IsAlwaysCallable call.old }
    ensures { Tries F.step call.old result call.new }
{
    if SHORT_LIST < list.len() {
        return tried_more(call);
    }
    let mut table = [0u32; SHORT_TABLE];
    let mut work = [0u8; SHORT_WORK];
    match call(&mut table, &mut work) {
        Err(Failed::NoRoom) => tried_more(call),
        told => told,
    }
}

// ---- the update call

fn update_in(request: Request, table: &mut [u32], work: &mut [u8], out: &mut [u8]) -> Call
    requires { Fronts request.base request.list.now request.count request.start }
    ensures { Tells result (update request.entry.tuple.now request.entry.list.now request.entry.base) out.old out.new }
{
    let mut none = [0u8; 0];
    Ok(update_delivering::update_with(
        request.tuple,
        request.list,
        request.base,
        request.start,
        0,
        request.count,
        table,
        work,
        &mut none,
        out,
    )?)
}

// Wherever the work array is full, the fields up to there become the tuple, and the run goes on from it.
#[inline(never)]
fn update_long(request: Request, out: &mut [u8]) -> Call
    requires { Fronts request.base request.list.now request.count request.start }
    ensures { Told result (update request.entry.tuple.now request.entry.list.now request.entry.base) out.old out.new }
{
    if MAX_TUPLE < request.tuple.len() {
        return Err(Failed::Refused(Refusal::BadTuple, 0));
    }
    let mut table = [0u32; TABLE_ROOM];
    let mut work = [0u8; MAX_TUPLE];
    let mut one = [0u8; MAX_TUPLE];
    let mut other = [0u8; MAX_TUPLE];
    let mut length = msgpack_writing::write_bytes(&mut one, 0, request.tuple);
    let mut at = request.start;
    let mut i = 0;
    // Stays: a loop, since each turn tells where the next begins.
    loop {
        match update_delivering::update_with(
            &one[..length],
            request.list,
            request.base,
            at,
            i,
            request.count,
            &mut table,
            &mut work,
            &mut other,
            out,
        ) {
            Err(Unwritten::Moved(n, place, j)) => {
                length = msgpack_writing::write_bytes(&mut one, 0, &other[..n]);
                at = place;
                i = j;
            }
            Err(Unwritten::NoRoom) => return Err(Failed::NoRoom),
            Err(Unwritten::Refused(refusal, j)) => return Err(Failed::Refused(refusal, j)),
            Ok(n) => return Ok(n),
        }
    }
}

// The update call, but for the place.
fn updated(tuple: &[u8], list: &[u8], base: u64, out: &mut [u8]) -> Call
    ensures { Told result (update tuple.now list.now base) out.old out.new }
{
    let request = request_of(tuple, list, base);
    let mut call = |table: &mut [u32], work: &mut [u8]| update_in(request, table, work, out);
    match tried(list, &mut call) {
        Err(Failed::NoRoom) => update_long(request, out),
        told => told,
    }
}

// The answer on this tuple and list, with its place.
fn answer_of(call: Call, tuple: &[u8], list: &[u8]) -> Answer
    requires { FewIn call }
    ensures { result ≡ answer_by call tuple.now list.now }
{
    match call {
        Ok(length) => Answer {
            number: 0,
            operation: 0,
            length,
            place: NO_PLACE,
        },
        Err(Failed::Refused(refusal, i)) => update_answers::with_place(
            update_answers::refused(refusal, i as u32),
            tuple,
            list,
        ),
        Err(Failed::NoRoom) => update_answers::refused(Refusal::TooLarge, 0),
    }
}

// The list's operations on the tuple; the new tuple into `out`.
pub fn update(tuple: &[u8], list: &[u8], index_base: u64, out: &mut [u8]) -> Answer
    ensures { seen result out.new ≡ update_call tuple.now list.now index_base out.old }
{
    answer_of(updated(tuple, list, index_base, out), tuple, list)
}

// ---- the undo call

fn undo_in(request: Request, table: &mut [u32], work: &mut [u8], out: &mut [u8]) -> Call
    requires { Fronts request.base request.list.now request.count request.start }
    ensures { Tells result (undo request.entry.tuple.now request.entry.list.now request.entry.base) out.old out.new }
{
    update_delivering::undo_with(
        request.tuple,
        request.list,
        request.base,
        request.start,
        request.count,
        table,
        work,
        out,
    )
}

// In the longest work array: where it is full, the undo list is too long.
#[inline(never)]
fn undo_long(request: Request, out: &mut [u8]) -> Call
    requires { Fronts request.base request.list.now request.count request.start }
    ensures { ToldOrLong result (undo request.entry.tuple.now request.entry.list.now request.entry.base)
        (came_of request.entry.tuple.now request.entry.list.now request.entry.base) out.old out.new }
{
    let mut table = [0u32; TABLE_ROOM];
    let mut work = [0u8; WORK_ROOM];
    update_delivering::undo_with(
        request.tuple,
        request.list,
        request.base,
        request.start,
        request.count,
        &mut table,
        &mut work,
        out,
    )
}

// The undo call, but for the place, and for an undo list that is too long for every work array.
fn undone(tuple: &[u8], list: &[u8], base: u64, out: &mut [u8]) -> Call
    ensures { ToldOrLong result (undo tuple.now list.now base) (came_of tuple.now list.now base) out.old out.new }
{
    let request = request_of(tuple, list, base);
    let mut call = |table: &mut [u32], work: &mut [u8]| undo_in(request, table, work, out);
    match tried(list, &mut call) {
        Err(Failed::NoRoom) => undo_long(request, out),
        told => told,
    }
}

// Where 17 is due, if nothing is refused before: what the update call refuses, with a buffer for every tuple.
fn judged(tuple: &[u8], list: &[u8], base: u64) -> Call
    ensures { Refuses result (long_by (came_of tuple.now list.now base)) }
{
    let mut out = [0u8; MAX_TUPLE];
    match updated(tuple, list, base, &mut out) {
        Err(Failed::Refused(refusal, i)) => Err(Failed::Refused(refusal, i)),
        _ => Err(Failed::Refused(Refusal::LongUndo, 0)),
    }
}

// What takes the list's operations on the tuple back; the undo list into `out`.
// Stays: `Refused` and `Ok` have arms of their own, here, in `judged` and in `press`: with one arm `told => told` the proof did not close.
pub fn undo(tuple: &[u8], list: &[u8], index_base: u64, out: &mut [u8]) -> Answer
    ensures { seen result out.new ≡ undo_call tuple.now list.now index_base out.old }
{
    match undone(tuple, list, index_base, out) {
        Err(Failed::NoRoom) => answer_of(judged(tuple, list, index_base), tuple, list),
        Err(Failed::Refused(refusal, i)) => answer_of(
            Err(Failed::Refused(refusal, i)),
            tuple,
            list,
        ),
        Ok(length) => answer_of(Ok(length), tuple, list),
    }
}

// ---- the press call

fn press_in(
    request: Request,
    table: &mut [u32],
    work: &mut [u8],
    out: &mut [u8],
    back: &mut [u8],
) -> Pressed
    requires { Fronts request.base request.list.now request.count request.start }
    ensures { PressTells result (press request.entry.tuple.now request.entry.list.now request.entry.base) out.old out.new back.old back.new }
{
    update_delivering::press_with(
        request.tuple,
        request.list,
        request.base,
        request.start,
        request.count,
        table,
        work,
        out,
        back,
    )
}

// In the longest work array.
#[inline(never)]
fn press_long(request: Request, out: &mut [u8], back: &mut [u8]) -> Pressed
    requires { Fronts request.base request.list.now request.count request.start }
    ensures { PressToldOrLong result (press request.entry.tuple.now request.entry.list.now request.entry.base)
        (undo request.entry.tuple.now request.entry.list.now request.entry.base)
        (came_of request.entry.tuple.now request.entry.list.now request.entry.base) out.old out.new back.old back.new }
{
    let mut table = [0u32; TABLE_ROOM];
    let mut work = [0u8; WORK_ROOM];
    update_delivering::press_with(
        request.tuple,
        request.list,
        request.base,
        request.start,
        request.count,
        &mut table,
        &mut work,
        out,
        back,
    )
}

// The press call, but for the place, and for an undo list that is too long for every work array.
fn pressed(tuple: &[u8], list: &[u8], base: u64, out: &mut [u8], back: &mut [u8]) -> Pressed
    ensures { PressToldOrLong result (press tuple.now list.now base) (undo tuple.now list.now base)
        (came_of tuple.now list.now base) out.old out.new back.old back.new }
{
    let request = request_of(tuple, list, base);
    let mut call = |table: &mut [u32], work: &mut [u8]| press_in(request, table, work, out, back);
    match tried(list, &mut call) {
        Err(Failed::NoRoom) => press_long(request, out, back),
        told => told,
    }
}

fn press_answer(answer: Answer, undo_length: usize) -> PressAnswer
    ensures { result ≡ press_answer_by answer undo_length }
{
    PressAnswer {
        number: answer.number,
        operation: answer.operation,
        length: answer.length,
        undo_length,
        place: answer.place,
    }
}

// Both in one run: the new tuple into `out`, and what takes it back into `back`; or neither.
pub fn press(
    tuple: &[u8],
    list: &[u8],
    index_base: u64,
    out: &mut [u8],
    back: &mut [u8],
) -> PressAnswer
    ensures { press_seen result out.new back.new
        ≡ press_call tuple.now list.now index_base out.old back.old }
{
    match pressed(tuple, list, index_base, out, back) {
        Ok((length, undo_length)) => {
            press_answer(answer_of(Ok(length), tuple, list), undo_length)
        }
        Err(Failed::NoRoom) => press_answer(
            answer_of(judged(tuple, list, index_base), tuple, list),
            0,
        ),
        Err(Failed::Refused(refusal, i)) => {
            press_answer(answer_of(Err(Failed::Refused(refusal, i)), tuple, list), 0)
        }
    }
}
