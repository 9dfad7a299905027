// The end of what a peer sends.
ghost use Rattle.std.specs.Prelude.{◌≡◌};
ghost use Rattle.base_outside.specs.network.Link.{is_link_end};

/// Whether a read that gave so many bytes of a buffer was the end.
pub fn is_end(count: usize, buffer: &[u8]) -> bool
    ensures { result ≡ is_link_end count buffer.now }
{
    count == 0 && !buffer.is_empty()
}
