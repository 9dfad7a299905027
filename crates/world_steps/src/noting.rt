// What is noted of the messages that the server took.
ghost use Rattle.std.specs.Prelude.{◌≡◌, MatchResult};
ghost use Rattle.world_ends.specs.Places.{no_marks as unmarked};
ghost use Rattle.world_steps.specs.Parts.{IsWorldMemory, Marked};

use world_ends::{Marks, Places, WorldError};

fn no_marks() -> Marks
    ensures { result ≡ unmarked }
{
    Marks {
        first: None,
        by: None,
        birth: 0,
    }
}

/// Each of so many operations has marks; there is one at most that has none.
pub fn mark(places: &mut Places, taken: usize) -> Result<(), WorldError>
    ensures { MatchResult result (λ _. Marked places.old taken places.new) (λ e. IsWorldMemory e) }
{
    if taken < places.marks.len() {
        return Ok(());
    }
    match places.marks.push(no_marks()) {
        Ok(()) => Ok(()),
        Err(_) => Err(WorldError::Memory),
    }
}
