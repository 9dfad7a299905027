// The next draw of a world.
ghost use Rattle.std.specs.Prelude.{MatchResult};
ghost use Rattle.world_steps.specs.Parts.{IsWorldMemory};
ghost use Rattle.world_steps.specs.serving.Drawn.{ServeDraws};

use crate::WorldError;
use world_ends::draw_8;

/// The first 8 bytes of the next draw, which is taken. Where their count is spent it is as if memory ran out.
pub(crate) fn next_draw(seed: &[u8; 32], draws: &mut u64) -> Result<[u8; 8], WorldError>
    ensures { MatchResult result (λ fresh. ServeDraws seed.now draws.old draws.new fresh) (λ e. IsWorldMemory e) }
{
    let number = *draws;
    match number.checked_add(1) {
        Some(next) => {
            *draws = next;
            Ok(draw_8(seed, number))
        }
        None => Err(WorldError::Memory),
    }
}
