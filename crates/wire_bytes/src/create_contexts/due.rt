ghost use Rattle.std.specs.Prelude.{◌≡◌, true, Some, None, MatchOption};
ghost use Rattle.spec_wire.specs.messages.CreateContexts.{is_named, request_due, reply_due};
ghost use Rattle.wire_bytes.specs.create_contexts.Parts.{due_of};

// Whose contexts are read: those of a request or those of a response.
#[derive(Clone, Copy)]
pub enum Side {
    Request,
    Reply,
}

// The length that the data of a context of this name must have.
#[derive(Clone, Copy)]
pub struct Due {
    pub name: [u8; 4],
    pub length: u32,
}

/// Whether a context has this name.
#[tactic(auto, unfolding(spec_wire::specs::messages::CreateContexts::is_named))]
pub fn is_named(name: &[u8], tag: &[u8; 4]) -> bool
    ensures value { result ≡ is_named name.now tag.now }
    ensures same { result ≡ true → name.now ≡ tag.now }
{
    name == tag.as_slice()
}

#[tactic(auto, unfolding(spec_wire::specs::messages::CreateContexts::request_due))]
fn request_due(name: &[u8]) -> Option<Due>
    ensures { MatchOption result (request_due name.now ≡ None) (λ d. (d.name ≡ name.now) × (request_due name.now ≡ Some d.length)) }
{
    if is_named(name, b"DH2Q") {
        return Some(Due {
            name: *b"DH2Q",
            length: 32,
        });
    }
    if is_named(name, b"DH2C") {
        return Some(Due {
            name: *b"DH2C",
            length: 36,
        });
    }
    None
}

#[tactic(auto, unfolding(spec_wire::specs::messages::CreateContexts::reply_due))]
fn reply_due(name: &[u8]) -> Option<Due>
    ensures { MatchOption result (reply_due name.now ≡ None) (λ d. (d.name ≡ name.now) × (reply_due name.now ≡ Some d.length)) }
{
    if is_named(name, b"DH2Q") {
        return Some(Due {
            name: *b"DH2Q",
            length: 8,
        });
    }
    if is_named(name, b"MxAc") {
        return Some(Due {
            name: *b"MxAc",
            length: 8,
        });
    }
    if is_named(name, b"QFid") {
        return Some(Due {
            name: *b"QFid",
            length: 32,
        });
    }
    None
}

pub fn due_of(side: Side, name: &[u8]) -> Option<Due>
    ensures { MatchOption result (due_of side name.now ≡ None) (λ d. (d.name ≡ name.now) × (due_of side name.now ≡ Some d.length)) }
{
    match side {
        Side::Request => request_due(name),
        Side::Reply => reply_due(name),
    }
}
