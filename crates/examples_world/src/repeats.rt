//! Worked examples of a network that repeats, reorders and redirects, computed by the checker: two channels of one session, each with a
//! signing key of its own; and which secrets are behind signatures.

ghost use Rattle.std.specs.Prelude.{◌≡◌, ℕ, [], ◌∷◌, true, false, Some};
ghost use Rattle.spec_exchange.specs.Operations.{Unsettled};
ghost use Rattle.spec_hostile.specs.RepeatRuns.{Give, is_heard, is_served};
ghost use Rattle.spec_crypto.specs.sessions.Chain.{chain};
ghost use Rattle.spec_world.specs.Logon.{Interim};
ghost use Rattle.spec_hostile.specs.SignedFor.{InSession, OnOpening, no_secret, own_secret, watching};
ghost use Rattle.examples_world.specs.connections.Parts.{said_by};
ghost use Rattle.examples_world.specs.repeats.Linked.{acts_of_one, given, is_signed_at, outcome_in, signed_places, put_bare, put_echo, status_at};
ghost use Rattle.examples_world.specs.repeats.Linked.{linked_channels, places_signed};
ghost use Rattle.examples_world.specs.repeats.Secrets.{accepted_secret, accepting_end, final_reply, line_reply, logon_secret, noted_behind};
ghost use Rattle.examples_world.specs.repeats.Secrets.{put_setup, refused_binding, reply_place, secret_behind, secret_learned, secrets_of};
ghost use Rattle.examples_world.specs.repeats.Secrets.{signed_up};

/// A request that carries a signature was signed for the opening of its channel; another one wasn't signed.
pub fn put_up_example()
    ensures signed { signed_places (put_echo ∷ []) ≡ OnOpening 0 1 ∷ [] }
    ensures bare { signed_places (put_bare ∷ []) ≡ [] }
{}

/// A line's request is signed with the secret of its own end, a SESSION_SETUP that binds with that of the client's session. A client
/// without a session learns it of the end that accepts one; a client with a session keeps what it has.
pub fn client_secrets_example()
    ensures line { secrets_of (signed_up (put_echo ∷ [])) ≡ record { base = 1 ∷ []; value = chain ((0 ∷ []) ∷ []) } ∷ [] }
    ensures setup { secrets_of (signed_up (put_setup ∷ [])) ≡ logon_secret ∷ [] }
    ensures session { places_signed (signed_up (put_setup ∷ [])) ≡ InSession 9 ∷ [] }
    ensures accepted { accepted_secret ≡ logon_secret }
    ensures own { own_secret accepting_end ≡ logon_secret }
    ensures learned { secret_learned false ≡ logon_secret }
    ensures kept { secret_learned true ≡ no_secret }
{}

/// A final response is signed with the secret of the client's end that accepts it: the same exported key, the same five messages. So are
/// the replies behind it on that connection, and in its session the interim response of a later binding, or its refusal; a binding leaves
/// the session's secret.
pub fn server_secrets_example()
    ensures first { secret_behind (watching linked_channels) (final_reply false) ≡ logon_secret }
    ensures bound { secret_behind (watching linked_channels) (final_reply true) ≡ logon_secret }
    ensures first_line { secret_behind (noted_behind false) line_reply ≡ logon_secret }
    ensures bound_line { secret_behind (noted_behind true) line_reply ≡ logon_secret }
    ensures interim { secret_behind (noted_behind false) (said_by (Interim true)) ≡ logon_secret }
    ensures refused { secret_behind (noted_behind false) refused_binding ≡ logon_secret }
    ensures session { secret_behind (noted_behind true) (said_by (Interim true)) ≡ no_secret }
{}

/// A final response, and each reply behind it, is signed for the opening of its connection, the interim response of a binding, or its
/// refusal, for the session.
pub fn server_places_example()
    ensures final_of { reply_place (watching linked_channels) (final_reply false) ≡ OnOpening 0 1 }
    ensures line_of { reply_place (watching linked_channels) line_reply ≡ OnOpening 0 1 }
    ensures interim_of { reply_place (watching linked_channels) (said_by (Interim true)) ≡ InSession 9 }
    ensures refusal_of { reply_place (watching linked_channels) refused_binding ≡ InSession 9 }
{}

/// A request that is given twice is answered once: the second time its message id is gone, and the server's end closes. An ECHO doesn't act.
pub fn given_twice_example()
    ensures answered { status_at (given (Give 0 true 0 ∷ [])) 0 ≡ Some 0 }
    ensures first { is_served (given (Give 0 true 0 ∷ [])).world 0 ≡ true }
    ensures second { is_served (given (Give 0 true 0 ∷ Give 0 true 0 ∷ [])).world 0 ≡ false }
    ensures idle { acts_of_one (Give 0 true 0 ∷ []) ≡ 0 }
{}

/// A request that is given to the other channel is denied there, by an answer that nobody signs, and doesn't act. Its own channel takes
/// it all the same.
pub fn redirected_example()
    ensures denied { status_at (given (Give 1 true 0 ∷ [])) 0 ≡ Some 0xc000_0022 }
    ensures unsigned { is_signed_at (given (Give 1 true 0 ∷ [])) 0 ≡ false }
    ensures apart { acts_of_one (Give 1 true 0 ∷ []) ≡ 0 }
    ensures own { status_at (given (Give 1 true 0 ∷ Give 0 true 0 ∷ [])) 1 ≡ Some 0 }
    ensures signed { is_signed_at (given (Give 1 true 0 ∷ Give 0 true 0 ∷ [])) 1 ≡ true }
{}

/// On the other channel an operation waits for the response to a request of the same message id. The refusal there doesn't settle it: it
/// isn't signed, so the client closes its end of that channel.
pub fn misread_example()
    ensures cut { is_heard (given (Give 1 true 0 ∷ Give 1 false 0 ∷ [])).world 1 ≡ false }
    ensures waits { outcome_in (given (Give 1 true 0 ∷ Give 1 false 0 ∷ [])) 2 ≡ Unsettled }
{}
