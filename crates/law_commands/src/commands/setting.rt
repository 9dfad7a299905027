ghost use Rattle.std.specs.Prelude.{◌≡◌, ◌^◌, ◌<◌, ◌≤◌, ◌++◌, ℕ, List, length};
ghost use Rattle.spec_exchange.specs.Commands.{Setting, SetInfo};
ghost use Rattle.spec_exchange.specs.Operations.{charge};
ghost use Rattle.spec_commands.specs.CommandOf.{set_in};
ghost use Rattle.spec_commands.specs.BodyOf.{body_of, setting_bytes};
ghost use Rattle.law_commands.specs.commands.Fitting.{IsSetting, HeardPaid};

use law_wire::{
    file_allocation_information_law, file_basic_information_law, file_disposition_information_law,
    file_end_of_file_information_law, file_mode_information_law, file_position_information_law,
    file_rename_information_law, set_info_request_law,
};

// SET_INFO
pub fn set_again()
    ensures { (paid : ℕ) (header rest : List ℕ) (file : ℕ) (setting : Setting) → length header ≡ 64 → file < 256 ^ 8
        → IsSetting setting → charge (length (setting_bytes setting)) ≤ paid
        → HeardPaid 17 paid (header ++ (body_of (SetInfo file setting) ++ rest)) set_in (SetInfo file setting) }
{
    set_info_request_law();
    file_basic_information_law();
    file_rename_information_law();
    file_disposition_information_law();
    file_allocation_information_law();
    file_end_of_file_information_law();
    file_position_information_law();
    file_mode_information_law();
}
