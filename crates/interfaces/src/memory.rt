// The one test of lent memory: whether it has as many places as are needed.
ghost use Rattle.std.specs.Prelude.{◌≡◌, length};
ghost use Rattle.interfaces.specs.Memory.{room_for};
ghost use Rattle.interfaces.specs.Refusals.{told};

use crate::refusal::Refusal;

/// Refuses memory that has fewer places than are needed.
pub fn check_room<T>(memory: &[T], needed: usize) -> Result<(), Refusal>
    ensures { told result ≡ room_for needed (length memory.now) }
{
    if memory.len() < needed {
        return Err(Refusal::ShortMemory);
    }
    Ok(())
}
