ghost use Rattle.std.specs.Prelude.{◌≡◌, ◌+◌, ◌<◌, ◌^◌};
ghost use Rattle.spec_wire.specs.messages.Contexts.{contexts_gap, contexts_told};

/// The zero bytes before `count` contexts that stand behind the first `behind` bytes.
pub(crate) fn gap_of(count: u16, behind: u32) -> u8
    ensures { result ≡ contexts_gap count behind }
{
    if count == 0 {
        return 0;
    }
    ((8 - behind % 8) % 8) as u8
}

/// The place that is told of them.
pub(crate) fn place_of(count: u16, behind: u32) -> u32
    requires { behind < 2 ^ 20 }
    ensures { result ≡ contexts_told count behind }
{
    if count == 0 {
        return 0;
    }
    behind + (8 - behind % 8) % 8
}
