//! Worked examples of both ends of a connection in the exchange over bytes, computed by the checker: over what a logon that
//! begins again is made, what is noted of final responses and of what is sealed, what a request costs, what a channel is bound
//! and accepted with, which session a SESSION_SETUP is of, which messages and sessions are refused, and an event that can't
//! happen. No cipher and no hash is computed here.

ghost use Rattle.std.specs.Prelude.{◌≡◌, [], ◌∷◌, true, false, Some, replicate};
ghost use Rattle.spec_exchange.specs.Status.{user_session_deleted, access_denied};
ghost use Rattle.spec_exchange.specs.Client.{SaidSecond};
ghost use Rattle.spec_exchange.specs.Network.{Take};
ghost use Rattle.spec_exchange.specs.CheckSetup.{setup_check};
ghost use Rattle.spec_exchange.specs.Effects.{apply};
ghost use Rattle.spec_exchange.specs.Fold.{nothing_yet};
ghost use Rattle.spec_exchange.specs.Verdict.{Refuse, Challenge};
ghost use Rattle.spec_crypto.specs.sessions.Sealing.{sealed};
ghost use Rattle.spec_crypto.specs.sessions.Signing.{verifies};
ghost use Rattle.spec_world.specs.Ends.{nonce_at, no_client_end, first_server_end, BadFrame, SecondNegotiate};
ghost use Rattle.spec_world.specs.Hearing.{turn_end, fault_of};
ghost use Rattle.spec_world.specs.Logon.{Interim, Final};
ghost use Rattle.spec_world.specs.Sending.{request_text};
ghost use Rattle.spec_world.specs.Dialog.{own_final, flags_fit};
ghost use Rattle.spec_world.specs.World.{may_pay};
ghost use Rattle.spec_world.specs.Events.{bytes_happen, bytes_start, Plain};
ghost use Rattle.examples_world.specs.connections.Parts.{behind, messages_of, transcripts_of, some_keys, seal_of};
ghost use Rattle.examples_world.specs.connections.Parts.{told_sealed, an_echo, keyed_client};
ghost use Rattle.examples_world.specs.connections.Parts.{echo_sent, binding_sent, accepted_on, setup_message};
ghost use Rattle.examples_world.specs.connections.Parts.{second_setup, first_epoch, some_settings};
ghost use Rattle.examples_world.specs.connections.Parts.{making_end, setup_header, binding_verified, an_echo_heard, told_flags};

/// An interim response begins a transcript again: NEGOTIATE's two messages, its request and itself, whatever was in the
/// making. What was sealed counts on.
pub fn begun_again_example()
    ensures making { (behind (Interim true)).server_end.making ≡ Some ((1 ∷ []) ∷ (2 ∷ []) ∷ (7 ∷ []) ∷ (8 ∷ []) ∷ []) }
    ensures counter { (behind (Interim true)).server_end.counter ≡ 5 }
{}

/// A final response that is signed is noted, of a session as of a bound channel, with what was in the making and its request.
pub fn noted_response_example()
    ensures session { messages_of (behind (Final false 1 true)).endings ≡ (8 ∷ []) ∷ [] }
    ensures channel { messages_of (behind (Final true 2 true)).endings ≡ (8 ∷ []) ∷ [] }
    ensures over { transcripts_of (behind (Final true 2 true)).endings ≡ ((1 ∷ []) ∷ (2 ∷ []) ∷ (3 ∷ []) ∷ (4 ∷ []) ∷ (7 ∷ []) ∷ []) ∷ [] }
{}

/// What is sealed is noted, with the nonce that it is sealed under.
pub fn noted_seal_example()
    ensures reply { told_sealed.sealings ≡ seal_of false 5 (8 ∷ []) ∷ [] }
    ensures told { told_sealed.frames ≡ sealed some_keys false (nonce_at 2 5) (8 ∷ []) ∷ [] }
    ensures request { echo_sent.sealings ≡ seal_of true 6 (request_text an_echo 2 false) ∷ [] }
    ensures asked { (echo_sent.wires 0).up ≡ sealed some_keys true (nonce_at 2 6) (request_text an_echo 2 false) ∷ [] }
{}

/// A request takes the credits of its charge and as many ids, and goes up where they are held.
pub fn paid_request_example()
    ensures spent { (echo_sent.wires 0).client_end.purse ≡ record { held = 3; next = 9 } }
    ensures poor { may_pay keyed_client 6 ≡ false }
    ensures rich { may_pay keyed_client 5 ≡ true }
{}

/// In a binding the client signs with the session's key, and the channel has the session's cipher keys.
pub fn binding_client_example()
    ensures signed { verifies some_keys.signing binding_sent ≡ true }
    ensures keys { (own_final keyed_client true 0).to_server ≡ replicate 32 2 }
{}

/// A session is sealed where its final response tells ENCRYPT_DATA, 4.
pub fn accepted_session_example()
    ensures sealed { (accepted_on 4).encrypts ≡ true }
    ensures plain { (accepted_on 0).encrypts ≡ false }
{}

/// A logon's second token is that of a session in the making, whose id the interim response tells.
pub fn session_id_example()
    ensures unknown { setup_check nothing_yet setup_message second_setup ≡ Refuse user_session_deleted }
    ensures told { (apply first_epoch setup_message 0 Challenge).reply.session_id ≡ 0x1_0000_0001 }
{}

/// A Take where nothing comes is none, and takes no moment.
pub fn absent_reply_example()
    ensures { (bytes_happen some_settings (bytes_start some_settings) (Plain (Take 3))).values.moment ≡ 0 }
{}

/// A binding is verified by the key of the session that it names, where it has the flag of a signature.
pub fn binding_server_example()
    ensures signed { binding_verified 8 ≡ verifies some_keys.signing (7 ∷ []) }
    ensures unsigned { binding_verified 0 ≡ false }
{}

/// NEGOTIATE comes first, and once; what another message of its frame bars is refused.
pub fn turn_example()
    ensures first { turn_end (first_server_end []) (setup_header 0) ≡ Some BadFrame }
    ensures once { turn_end making_end (record (setup_header 0) { command = 0 }) ≡ Some SecondNegotiate }
    ensures barred { fault_of making_end true true an_echo_heard ≡ Some access_denied }
{}

/// A session of a guest, one of nobody, and one that is to be sealed without a cipher are refused.
pub fn session_flags_example()
    ensures guest { flags_fit no_client_end (SaidSecond false) (told_flags 1) ≡ false }
    ensures nobody { flags_fit no_client_end (SaidSecond false) (told_flags 2) ≡ false }
    ensures no_cipher { flags_fit no_client_end (SaidSecond false) (told_flags 4) ≡ false }
    ensures usual { flags_fit no_client_end (SaidSecond false) (told_flags 0) ≡ true }
{}
