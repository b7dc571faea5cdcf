// A list run on a tuple: each operation is read, planned and performed in one turn. An operation changes the
// table of places; no byte of a field moves.
#![tactic(auto)]

ghost use Rattle.std.specs.Prelude.{◌≡◌, [], map, ℕ, ◌+◌, ◌-◌, ◌^◌, ◌<◌, ◌≤◌, length, set};
ghost use Rattle.std.proofs.Math.Option.{some};
ghost use Rattle.tuples.specs.Limits.{max_fields, max_operations};
ghost use Rattle.tuples.specs.Tuple.{fields_of};
ghost use Rattle.update_places.specs.Place.{length_of, sum};
ghost use Rattle.update_running.specs.Steps.{entry_of, laid_from, old_of, fitting, performed, table_after, back_after, Among, Sound};
ghost use Rattle.update_running.specs.Held.{fields_now};
ghost use Rattle.update_running.specs.Course.{stepped, work_step, table_step, back_step, CourseSound};
ghost use Rattle.update_running.specs.Carrying.{Carries, Begun, finishing, unfinished_by};
ghost use Rattle.update_planning.specs.declared.TableEdit.TheVariants.{Add, Put, Cut};

use tuples::{MAX_FIELDS, MAX_LIST, MAX_OPERATIONS, MAX_TUPLE, Refusal};
use update_altering::Obstacle;
use update_loading::Unloaded;
use update_numbers::Field;
use update_operations::Action;
use update_planning::{Planned, TableEdit};

// A table of so many entries has room for every tuple and every list.
pub const TABLE_ROOM: usize = MAX_FIELDS + MAX_OPERATIONS + MAX_OPERATIONS;

// The longest work array: what is computed is a field of the tuple, or stands in an undo list.
pub const WORK_ROOM: usize = MAX_TUPLE + MAX_LIST;

const ASSIGN: u64 = 0x3d;

const INSERT: u64 = 0x21;

const REMOVE: u64 = 0x23;

// Between two operations. The fields: where their entries begin in the table, how many they are, their bytes
// together. How many bytes of the work array are in use. The undo list: its operations and their bytes. How
// many fields at the front and at the rear lie side by side.
#[derive(Clone, Copy)]
pub struct Stage {
    pub head: usize,
    pub fields: usize,
    pub bytes: usize,
    pub used: usize,
    pub laid: usize,
    pub back: usize,
    pub low: usize,
    pub tail: usize,
}

// Why a list is not done: the arrays are too small for the tuple and the list; the work array is full at an
// operation, given by its place and its index; an operation, or the list, is refused.
#[derive(Clone, Copy)]
pub enum Unfinished {
    NoRoom,
    Full(Stage, usize, usize),
    Refused(Refusal, usize),
}

// So that `?` passes on why a tuple is not loaded.
impl From<Unloaded> for Unfinished {
    ghost from_gives = { λ unloaded unfinished. unfinished ≡ unfinished_by unloaded };

    fn from(unloaded: Unloaded) -> Unfinished {
        match unloaded {
            Unloaded::Bad => Unfinished::Refused(Refusal::BadTuple, 0),
            Unloaded::NoRoom => Unfinished::NoRoom,
        }
    }
}

// What a list comes to: the stage when all is done.
pub type Ran = Result<Stage, Unfinished>;

// The stage after an operation.
type Performed = Result<Stage, Obstacle>;

// In the course of a run: the stage; or the refusal of an operation, after which what is left is only read,
// since a list that is refused is refused before any of its operations.
type Course = Result<Stage, (Refusal, usize)>;

// The course after an operation; or the stage at which the work array is full.
type Stepped = Result<Course, Stage>;

// Whether n fields of so many bytes are within the limits, the shortest header counted.
fn fits(n: usize, bytes: usize) -> bool
    requires { bytes < 2 ^ 32 }
    ensures { result ≡ fitting n bytes }
{
    n <= MAX_FIELDS && msgpack_writing::array_header_length(n as u32) + bytes <= MAX_TUPLE
}

// ---- the undo list, as entries

// Stays: mark, field number and place in one word, since `Held` and `undo_in` speak of the entries as numbers.
fn entry_of(mark: u64, f: usize, p: u32) -> u64
    requires { (mark < 2 ^ 8) × (f < 2 ^ 16) }
    ensures { result ≡ entry_of mark f p }
{
    (((mark << 16) + f as u64) << 32) + p as u64
}

// An entry, where there is room.
fn lay(back: &mut [u64], laid: usize, entry: u64)
    ensures { back.new ≡ set back.old laid entry }
{
    if laid < back.len() {
        back[laid] = entry;
    }
}

// An entry for each of the places that go.
fn lay_removed(places: &[u32], f: usize, back: &mut [u64], laid: usize)
    requires { (f < 2 ^ 16) × (laid + length places.now < 2 ^ 63) }
    ensures { back.new ≡ laid_from laid (map (entry_of 0x21 f) places.now) back.old }
{
    for (i, p) in places.iter().enumerate() {
        lay(back, laid + i, entry_of(INSERT, f, *p));
    }
}

// Of fields that go: their bytes, and those of the operations that bring them back, each with `head` bytes before its field.
#[derive(Clone, Copy)]
struct Gone {
    bytes: usize,
    back: usize,
}

fn gone_of(places: &[u32], head: usize) -> Gone
    requires { (length places.now ≤ max_fields) × (head ≤ 12) }
    ensures { (result.bytes ≡ sum (map length_of places.now))
        × (result.back ≡ sum (map (λ (p : ℕ). head + length_of p) places.now)) }
{
    let mut bytes: usize = 0;
    let mut back: usize = 0;
    for p in places {
        let k = update_places::length_of(*p);
        bytes += k;
        back += head + k;
    }
    Gone { bytes, back }
}

// ---- plans performed

fn put_field(
    table: &mut [u32],
    back: &mut [u64],
    f: usize,
    p: u32,
    used: usize,
    stage: Stage,
) -> Performed
    requires { Sound stage table.old × (f < stage.fields) }
    ensures { (result ≡ performed (Ok (Put f p used)) stage table.old)
        × (table.new ≡ table_after (Ok (Put f p used)) stage table.old)
        × (back.new ≡ back_after (Ok (Put f p used)) stage table.old back.old) }
{
    let at = stage.head + f;
    let old = table[at];
    let gone = update_places::length_of(old);
    let bytes = stage.bytes - gone + update_places::length_of(p);
    if !fits(stage.fields, bytes) {
        return Err(Obstacle::Refused(Refusal::TooLarge));
    }
    lay(back, stage.laid, entry_of(ASSIGN, f, old));
    table[at] = p;
    Ok(Stage {
        bytes,
        used,
        laid: stage.laid + 1,
        back: stage.back + (3 + msgpack_writing::unsigned_length(f as u64) + gone),
        low: stage.low.min(f),
        tail: stage.tail.min(stage.fields - (f + 1)),
        ..stage
    })
}

fn add_field(table: &mut [u32], back: &mut [u64], f: usize, p: u32, stage: Stage) -> Performed
    requires { Sound stage table.old × (f ≤ stage.fields) }
    ensures { (result ≡ performed (Ok (Add f p)) stage table.old)
        × (table.new ≡ table_after (Ok (Add f p)) stage table.old)
        × (back.new ≡ back_after (Ok (Add f p)) stage table.old back.old) }
{
    let n = stage.fields;
    let bytes = stage.bytes + update_places::length_of(p);
    if !fits(n + 1, bytes) {
        return Err(Obstacle::Refused(Refusal::TooLarge));
    }
    lay(back, stage.laid, entry_of(REMOVE, f, 0));
    let head = update_table::add(table, stage.head, n, f, p);
    Ok(Stage {
        head,
        fields: n + 1,
        bytes,
        laid: stage.laid + 1,
        back: stage.back + (3 + msgpack_writing::unsigned_length(f as u64) + 1),
        low: stage.low.min(f),
        tail: stage.tail.min(n - f),
        ..stage
    })
}

fn cut_fields(table: &mut [u32], back: &mut [u64], f: usize, m: usize, stage: Stage) -> Performed
    requires { Sound stage table.old × (f + m ≤ stage.fields) }
    ensures { (result ≡ performed (Ok (Cut f m)) stage table.old)
        × (table.new ≡ table_after (Ok (Cut f m)) stage table.old)
        × (back.new ≡ back_after (Ok (Cut f m)) stage table.old back.old) }
{
    let n = stage.fields;
    let from = stage.head + f;
    let places = &table[from..from + m];
    let gone = gone_of(places, 3 + msgpack_writing::unsigned_length(f as u64));
    lay_removed(places, f, back, stage.laid);
    let head = update_table::remove(table, stage.head, n, f, m);
    Ok(Stage {
        head,
        fields: n - m,
        bytes: stage.bytes - gone.bytes,
        laid: stage.laid + m,
        back: stage.back + gone.back,
        low: stage.low.min(f),
        tail: stage.tail.min(n - (f + m)),
        ..stage
    })
}

fn perform(table: &mut [u32], back: &mut [u64], plan: Planned, stage: Stage) -> Performed
    requires { Sound stage table.old × Among plan stage.fields }
    ensures { (result ≡ performed plan stage table.old)
        × (table.new ≡ table_after plan stage table.old)
        × (back.new ≡ back_after plan stage table.old back.old) }
{
    match plan? {
        TableEdit::Put(f, p, used) => put_field(table, back, f, p, used, stage),
        TableEdit::Add(f, p) => add_field(table, back, f, p, stage),
        TableEdit::Cut(f, m) => cut_fields(table, back, f, m, stage),
    }
}

// ---- a run

fn entry_at(table: &[u32], head: usize, n: usize, field: Field) -> u32
    requires { head + n ≤ length table.now }
    ensures { result ≡ old_of field head n table.now }
{
    let Some(number) = field else {
        return 0;
    };
    let f = number as usize;
    if n <= f {
        return 0;
    }
    table[head + f]
}

// The i-th operation, which ends at `end`, in the course of a run.
fn step(
    tuple: &[u8],
    list: &[u8],
    work: &mut [u8],
    table: &mut [u32],
    back: &mut [u64],
    field: Field,
    action: Action,
    end: usize,
    i: usize,
    course: Course,
) -> Stepped
    requires { CourseSound course table.old }
    ensures { (result ≡ stepped course tuple.now list.now work.old table.old field action end i)
        × (work.new ≡ work_step course tuple.now list.now work.old table.old field action end)
        × (table.new ≡ table_step course tuple.now list.now work.old table.old field action end)
        × (back.new ≡ back_step course tuple.now list.now work.old table.old back.old field action end) }
{
    let Ok(stage) = course else {
        return Ok(course);
    };
    let n = stage.fields;
    let old = entry_at(table, stage.head, n, field);
    let plan = update_planning::plan(tuple, list, work, stage.used, old, n, field, action, end);
    match perform(table, back, plan, stage) {
        Err(Obstacle::Refused(refusal)) => Ok(Err((refusal, i))),
        Err(Obstacle::Full) => Err(stage),
        Ok(next) => Ok(Ok(next)),
    }
}

// All operations are read, up to `at`: the list ends there, or it is refused.
fn finished(list: &[u8], at: usize, course: Course) -> Ran
    ensures { result ≡ finishing course at list.now }
{
    if at < list.len() {
        return Err(Unfinished::Refused(Refusal::BadList, 0));
    }
    course.map_err(|(refusal, i)| Unfinished::Refused(refusal, i))
}

// The operations of a list from the one at `start` on, which is the `first` of `count`.
fn run(
    tuple: &[u8],
    list: &[u8],
    base: u64,
    start: usize,
    first: usize,
    count: usize,
    work: &mut [u8],
    table: &mut [u32],
    back: &mut [u64],
    stage: Stage,
) -> Ran
    requires { Begun tuple.now list.now work.old table.old back.old count first stage }
    ensures { Carries result (some (fields_now tuple.now list.now work.old table.old stage))
        tuple.now list.now work.new table.new back.new base count first start }
{
    let mut course = Ok(stage);
    let mut at = start;
    for i in first..count {
        let Some((field, action, end)) = update_operations::operation_at(list, at, base) else {
            return Err(Unfinished::Refused(Refusal::BadList, 0));
        };
        course = match step(
            tuple, list, work, table, back, field, action, end, i, course,
        ) {
            Ok(next) => next,
            Err(full) => return Err(Unfinished::Full(full, at, i)),
        };
        at = end;
    }
    finished(list, at, course)
}

// How many operations are left; none where the list was refused.
fn left_of(first: usize, count: usize) -> usize
    ensures { (result ≤ max_operations) × (count ≤ max_operations → result ≡ count - first) }
{
    if MAX_OPERATIONS < count {
        return 0;
    }
    count.saturating_sub(first)
}

// The tuple is judged, and the operations of the list run on it from the one at `start` on, which is the
// `first` of `count`. A count past the limit stands for a list that is refused.
pub fn carry_out(
    tuple: &[u8],
    list: &[u8],
    base: u64,
    start: usize,
    first: usize,
    count: usize,
    work: &mut [u8],
    table: &mut [u32],
    back: &mut [u64],
) -> Ran
    ensures { Carries result (fields_of tuple.now) tuple.now list.now work.new table.new back.new
        base count first start }
{
    let left = left_of(first, count);
    if WORK_ROOM < work.len() {
        return Err(Unfinished::NoRoom);
    }
    if table.len() < left + left {
        return Err(Unfinished::NoRoom);
    }
    let high = table.len() - left;
    let (n, from) = update_loading::load(tuple, &mut table[left..high])?;
    if MAX_OPERATIONS < count || MAX_LIST < list.len() {
        return Err(Unfinished::Refused(Refusal::BadList, 0));
    }
    let stage = Stage {
        head: left,
        fields: n,
        bytes: tuple.len() - from,
        used: 0,
        laid: 0,
        back: 0,
        low: n,
        tail: n,
    };
    run(
        tuple, list, base, start, first, count, work, table, back, stage,
    )
}
