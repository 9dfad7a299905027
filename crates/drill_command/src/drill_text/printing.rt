// The text of a run.
ghost use Rattle.std.specs.Prelude.{◌≡◌, IfOk};
ghost use Rattle.std.specs.String.{string_bytes};
ghost use Rattle.drill_command.specs.drill_text.Text.{IsText, orders_to};
ghost use Rattle.spec_world.specs.Settings.{WorldSettings};
ghost use Rattle.spec_world.specs.World as bytes;
ghost use Rattle.world_ends.specs.results.Ended.{ShowsEnded};

use crate::drill_text::creates::orders_of;
use script_words::{CreateOrder, run_text};
use std::alloc::{AllocError, Global};
use world_ends::{EndedWorld, files, orders};

fn orders_in(alloc: Global, world: &EndedWorld) -> Result<Vec<CreateOrder>, AllocError>
    ensures { IfOk result (λ v. (z : WorldSettings) (w : bytes.World) → ShowsEnded z world.now w
        → v.items ≡ orders_to w.values w.values.client.taken) }
{
    let told = orders(world)?;
    let table = &world.client.table;
    orders_of(
        alloc,
        table.ops.as_slice(),
        table.settled.as_slice(),
        told.as_slice(),
    )
}

/// The refused dialogs, how each operation settled, the order of each create that keeps writers out, and the files. An operation that never
/// settled is unknown, since the script ended.
pub fn text_of(alloc: Global, world: &EndedWorld) -> Result<String, AllocError>
    ensures { IfOk result (λ text. (z : WorldSettings) (w : bytes.World) → ShowsEnded z world.now w → IsText w.values (string_bytes text)) }
{
    let orders = orders_in(alloc, world)?;
    let files = files(world)?;
    let table = &world.client.table;
    run_text(
        alloc,
        table.dialogs.as_slice(),
        table.settled.as_slice(),
        orders.as_slice(),
        files.as_slice(),
    )
}
