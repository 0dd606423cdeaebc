ghost use Rattle.std.specs.Prelude.{◌≡◌, ◌+◌, ◌<◌, ◌≤◌, ℕ, List, true, length, IfOk};
ghost use Rattle.mt_base.specs.declared.ranges.Range.{Range};
ghost use Rattle.mt_verify.specs.Looks.{ArePickedBelow, CanTake, ComesTo, Passed, is_took};

use crate::looks::{ToldRead, is_true};
use mt_base::NoMemory;
use mt_shelves::ShelfMap;

/// The result of one try at a number: the next look took it, or waits for a higher one, or can have none.
#[derive(Clone, Copy, Debug, PartialEq, Eq)]
pub enum Fate {
    Took,
    Waits,
    Stuck,
}

/// The next look takes the number, unless the look after it then has none.
fn take(looks: &[ToldRead], points: &mut Vec<u64>, number: u64) -> Result<Fate, NoMemory>
    requires { length points.old.items < length looks.now }
    ensures longer { IfOk result (λ fate. length points.new.items ≡ length points.old.items + 1) }
    ensures fate { IfOk result (λ fate. (m : ℕ → List Range) → CanTake m number looks.now points.old.items
        → ComesTo m number looks.now points.new.items fate) }
{
    points.push(number)?;
    let next = points.len();
    if next < looks.len() && looks[next].lo < number.saturating_sub(1) {
        return Ok(Fate::Stuck);
    }
    Ok(Fate::Took)
}

/// One try of the look that comes next at a number, whose map this is.
fn try_next(
    map: &mut ShelfMap,
    looks: &[ToldRead],
    points: &mut Vec<u64>,
    number: u64,
) -> Result<Fate, NoMemory>
    requires { length points.old.items < length looks.now }
    ensures map { map.new ≡ map.old }
    ensures longer { IfOk result (λ fate. is_took fate ≡ true → length points.new.items ≡ length points.old.items + 1) }
    ensures fate { IfOk result (λ fate. (m : ℕ → List Range) → m number ≡ map.old.ranges
        → ArePickedBelow m (number + 1) number looks.now points.old.items → ComesTo m number looks.now points.new.items fate) }
{
    let look = looks[points.len()];
    if number < look.lo {
        return Ok(Fate::Waits);
    }
    if look.hi < number {
        return Ok(Fate::Stuck);
    }
    if !is_true(map, &look) {
        return Ok(Fate::Waits);
    }
    take(looks, points, number)
}

/// A lane goes through a number with this map: its looks take it, one after another, up to the first that waits for a higher
/// one. Returns whether none of them is stuck.
pub fn advance(
    map: &mut ShelfMap,
    looks: &[ToldRead],
    points: &mut Vec<u64>,
    number: u64,
) -> Result<bool, NoMemory>
    ensures map { map.new ≡ map.old }
    ensures passed { IfOk result (λ fine. (m : ℕ → List Range) → m number ≡ map.old.ranges
        → ArePickedBelow m number number looks.now points.old.items → Passed m number looks.now points.new.items fine) }
{
    while points.len() < looks.len() {
        match try_next(map, looks, points, number)? {
            Fate::Took => {}
            Fate::Waits => return Ok(true),
            Fate::Stuck => return Ok(false),
        }
    }
    Ok(true)
}
