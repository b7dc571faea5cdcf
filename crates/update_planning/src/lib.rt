// An operation planned on the fields that are held.
#![tactic(auto)]

ghost use Rattle.std.specs.Prelude.{◌≡◌, ◌+◌, ◌-◌, leb};
ghost use Rattle.msgpack_first_bytes.specs.Bytes.{pick};
ghost use Rattle.tuples.specs.Limits.{max_tuple};
ghost use Rattle.tuples.specs.declared.Refusal.TheVariants.{TooLarge};
ghost use Rattle.update_places.specs.Place.{in_list, place_of};
ghost use Rattle.update_planning.specs.Plan.{planned, work_after};

use tuples::{MAX_TUPLE, Refusal};
use update_altering::Obstacle;
use update_numbers::Field;
use update_operations::Action;
use update_places::{IN_LIST, IN_WORK};

// What an operation does to the table: a place comes for field f, with so many bytes of the work array in use then;
// one comes before field f; so many fields go from f on.
#[derive(Clone, Copy)]
pub enum TableEdit {
    Put(usize, u32, usize),
    Add(usize, u32),
    Cut(usize, usize),
}

// What an operation does to the fields that it meets, or why nothing.
pub type Planned = Result<TableEdit, Obstacle>;

// The place of a field that the list brings, from `start` on; a start past every list's is taken round.
fn brought(start: usize, end: usize) -> Result<u32, Refusal>
    ensures { result ≡ pick (leb (end - start) max_tuple) (Ok (place_of (in_list + start) (end - start))) (Err TooLarge) }
{
    let long = end.saturating_sub(start);
    if MAX_TUPLE < long {
        return Err(Refusal::TooLarge);
    }
    Ok(update_places::place_of(IN_LIST + start % 0x2_0000, long))
}

// The action on a field of the n that are held; `old` is the field's place, where there is one. A field's new
// bytes go into the work array, behind the `used` that are in use.
pub fn plan(
    tuple: &[u8],
    list: &[u8],
    work: &mut [u8],
    used: usize,
    old: u32,
    n: usize,
    field: Field,
    action: Action,
    end: usize,
) -> Planned
    ensures { (result ≡ planned tuple.now list.now work.old used old n field action end)
        × (work.new ≡ work_after tuple.now list.now work.old used old n field action end) }
{
    let f = field.ok_or(Refusal::NoField)? as usize;
    match action {
        Action::Alter(change) if f < n => {
            let to = update_altering::alter(tuple, list, work, used, old, change, end)?;
            Ok(TableEdit::Put(
                f,
                update_places::place_of(IN_WORK + used % 0x2_0000, to - used),
                to,
            ))
        }
        Action::Assign(start) if f < n => Ok(TableEdit::Put(f, brought(start, end)?, used)),
        Action::Assign(start) if f == n => Ok(TableEdit::Add(f, brought(start, end)?)),
        Action::Insert(start) if f <= n => Ok(TableEdit::Add(f, brought(start, end)?)),
        Action::Remove(m) if f < n => Ok(TableEdit::Cut(f, m.min((n - f) as u64) as usize)),
        _ => Err(Obstacle::Refused(Refusal::NoField)),
    }
}
