ghost use Rattle.std.specs.Prelude.{◌≡◌, true};
ghost use Rattle.spec_wire.specs.messages.Fault.{Reads};
ghost use Rattle.spec_wire.specs.messages.Classes.{is_directory_class, is_query_class, is_set_class, class_fault};

use wire_bytes::MessageError;

/// Whether a listing can be asked by this information class.
#[tactic(auto, unfolding(spec_wire::specs::messages::Classes::is_directory_class))]
pub fn is_directory_class(class: u8) -> bool
    ensures { result ≡ is_directory_class class }
{
    class == 1 || class == 2 || class == 3 || class == 12 || class == 37 || class == 38
}

#[tactic(auto, unfolding(spec_wire::specs::messages::Classes::is_query_class))]
fn is_asked_of_files(class: u8) -> bool
    ensures { result ≡ is_query_class 1 class }
{
    class == 4
        || class == 5
        || class == 6
        || class == 18
        || class == 34
        || class == 7
        || class == 15
        || class == 8
        || class == 9
        || class == 14
        || class == 16
        || class == 17
        || class == 21
        || class == 22
}

#[tactic(auto, unfolding(spec_wire::specs::messages::Classes::is_query_class))]
fn is_asked_of_volumes(class: u8) -> bool
    ensures { result ≡ is_query_class 2 class }
{
    class == 1 || class == 3 || class == 4 || class == 5 || class == 7 || class == 11
}

/// Whether a class can be asked of a file (type 1) or a volume (type 2). The classes of other types
/// are not looked at.
#[tactic(auto, unfolding(spec_wire::specs::messages::Classes::is_query_class))]
pub fn is_query_class(info_type: u8, class: u8) -> bool
    ensures { result ≡ is_query_class info_type class }
{
    match info_type {
        1 => is_asked_of_files(class),
        2 => is_asked_of_volumes(class),
        _ => true,
    }
}

#[tactic(auto, unfolding(spec_wire::specs::messages::Classes::is_set_class))]
fn is_set_of_files(class: u8) -> bool
    ensures { result ≡ is_set_class 1 class }
{
    class == 4
        || class == 10
        || class == 13
        || class == 19
        || class == 20
        || class == 15
        || class == 14
        || class == 16
}

/// Whether a class can be set of a file (type 1); of a volume (type 2) none can. The classes of other
/// types are not looked at.
#[tactic(auto, unfolding(spec_wire::specs::messages::Classes::is_set_class))]
pub fn is_set_class(info_type: u8, class: u8) -> bool
    ensures { result ≡ is_set_class info_type class }
{
    match info_type {
        1 => is_set_of_files(class),
        2 => false,
        _ => true,
    }
}

/// Refuses a class that isn't known.
#[tactic(auto, unfolding(spec_wire::specs::messages::Classes::class_fault))]
pub fn check_class(known: bool, class: u8) -> Result<(), MessageError>
    ensures { Reads (class_fault known class) (λ _. known ≡ true) (λ u. u) result }
{
    if known {
        Ok(())
    } else {
        Err(MessageError::BadClass(class))
    }
}
