//! Worked examples of the exchange over bytes, computed by the checker: frames of several messages, related ones, events that
//! found no memory or a server that stopped, what is signed, sealed and bound, and a dialog without credits; and a worked
//! logon, the bytes of which another implementation makes.

ghost use Rattle.std.specs.Prelude.{◌≡◌, ℕ, [], ◌∷◌, ◌+◌, true, false, Some, None, Err, replicate, length};
ghost use Rattle.spec_wire.specs.credits.Ids.{ids_from};
ghost use Rattle.spec_exchange.specs.Client.{SaidFirst, SaidSecond, AskedTree};
ghost use Rattle.spec_exchange.specs.Commands.{Setup, TreeConnect};
ghost use Rattle.spec_exchange.specs.Fold.{nothing_yet};
ghost use Rattle.spec_exchange.specs.Operations.{BadToken};
ghost use Rattle.spec_crypto.specs.tokens.Tokens.{Begins, Bad, begun_by, first_token, final_token};
ghost use Rattle.spec_world.specs.Ends.{BadFrame, OutsideWindow, Stopped};
ghost use Rattle.spec_world.specs.Hearing.{check_frame, is_too_long, opened_by, text_of};
ghost use Rattle.spec_world.specs.Related.{file_at, file_place};
ghost use Rattle.spec_world.specs.Dialog.{pays_next};
ghost use Rattle.spec_world.specs.Logon.{Interim, challenge_of, pending_by, signer_by, final_keys, staying_signer};
ghost use Rattle.spec_world.specs.Sending.{greeting_text, setup_text, request_text};
ghost use Rattle.examples_world.specs.runs.Ends.{greeted_end, frame_step, echo, probe, cancel, two_echoes, related_echoes, statuses_of, go_through, related_probe, first_echo, echo_and_probe, nobody};
ghost use Rattle.examples_world.specs.runs.Ends.{echo_header, faults_of, header_of, in_front_of, lone_setup};
ghost use Rattle.examples_world.specs.runs.Opened.{on_a_tree, made_and_closed, refused_and_closed, refused_and_apart};
ghost use Rattle.examples_world.specs.runs.Opened.{misplaced_create, on_no_session, signers_of, with_between};
ghost use Rattle.examples_world.specs.runs.Keyed.{go_in_session, two_trees, keyed_end, signed_echo, signed_reply};
ghost use Rattle.examples_world.specs.runs.Keyed.{sealed_echo, sealed_reply, keyed_logons, binding, bound_second};
ghost use Rattle.examples_world.specs.runs.Keyed.{probe_reply, flagged_transform, tag_of_0, tag_of_1, tag_of_2, unsigned_refusal};
ghost use Rattle.examples_world.specs.runs.Keyed.{bound_request, other_end, other_signer, refused_by};
ghost use Rattle.examples_world.specs.runs.Events.{two_disconnects, with_mishaps, lacks, halts, setup_behind, penniless};
ghost use Rattle.examples_world.specs.runs.Events.{granting, fault_at};
ghost use Rattle.examples_world.specs.runs.Meeting.{client_of_logon, first_id, sent, dialog_sent, create_asked};
ghost use Rattle.examples_world.specs.runs.Meeting.{greeting_heard, first_setup_heard, last_told, tree_told};
ghost use Rattle.examples_world.specs.runs.Meeting.{create_told, signed_tree_heard, first_moment, alone_logon, shown_alone};
ghost use Rattle.examples_world.specs.runs.Worked as worked;
ghost use Rattle.examples_world.specs.connections.Parts.{some_keys};
ghost use Rattle.examples_world.specs.settings.Logon.{share_name};

/// Two messages of one frame are answered in one frame. Neither is signed, and no key is there to sign with.
pub fn two_echoes_example()
    ensures frames { length (frame_step greeted_end two_echoes).frames ≡ 1 }
    ensures status { (frame_step greeted_end two_echoes).status ≡ Some 0xc000_0022 }
    ensures left { (frame_step greeted_end two_echoes).server_end.window.held ≡ ids_from 3 8 }
{}

/// An id is taken once.
pub fn id_taken_twice_example()
    ensures { (frame_step (frame_step greeted_end (echo 1 0)).server_end (echo 1 0)).ends ≡ Some (OutsideWindow 1) }
{}

/// What stands behind a SESSION_SETUP in its frame is refused, and what stands behind a message that is refused there, though it is
/// signed itself: behind one without a signature, a CANCEL too. An ECHO of no session isn't refused, and bars nothing.
pub fn barred_example()
    ensures setup { faults_of (check_frame greeted_end (in_front_of (header_of 1 1 0 0) (probe 2 0))) ≡ None ∷ Some 0xc000_0022 ∷ [] }
    ensures unsigned { faults_of (check_frame (keyed_end false) (in_front_of (echo_header 2 0 0) signed_echo))
        ≡ Some 0xc000_0022 ∷ Some 0xc000_0022 ∷ [] }
    ensures cancel { faults_of (check_frame (keyed_end false) (in_front_of (header_of 12 2 0 0) signed_echo))
        ≡ Some 0xc000_0022 ∷ Some 0xc000_0022 ∷ [] }
    ensures probe { faults_of (check_frame greeted_end (in_front_of (header_of 13 1 0 0) (probe 2 0))) ≡ None ∷ None ∷ [] }
{}

/// A CANCEL takes no id and has no reply.
pub fn cancel_example()
    ensures frames { (frame_step greeted_end (cancel 1)).frames ≡ [] }
    ensures ends { (frame_step greeted_end (cancel 1)).ends ≡ None }
    ensures held { (frame_step greeted_end (cancel 1)).server_end.window.held ≡ ids_from 1 8 }
{}

/// A related message goes its way whatever the status of the one before it, if it names no open.
pub fn related_messages_example()
    ensures goes { statuses_of (go_through (related_echoes None)).replies ≡ 0 ∷ 0 ∷ [] }
    ensures fails { statuses_of (go_through (related_echoes (Some 0xc000_0022))).replies ≡ 0xc000_0022 ∷ 0 ∷ [] }
{}

/// A file is made, asked for what isn't known and closed in one frame: the CLOSE acts behind the failure.
pub fn made_and_closed_example()
    ensures statuses { statuses_of (on_a_tree made_and_closed).replies ≡ 0 ∷ 0xc000_0003 ∷ 0 ∷ [] }
    ensures opens { (on_a_tree made_and_closed).server.opens ≡ [] }
{}

/// What names no open hands on the one of the message before it: the CLOSE behind an ECHO, a CANCEL, or a CHANGE_NOTIFY, which this
/// server doesn't know, closes what the CREATE made.
pub fn between_example()
    ensures echo { statuses_of (on_a_tree (with_between 13)).replies ≡ 0 ∷ 0 ∷ 0 ∷ [] }
    ensures echo_opens { (on_a_tree (with_between 13)).server.opens ≡ [] }
    ensures cancel { statuses_of (on_a_tree (with_between 12)).replies ≡ 0 ∷ 0 ∷ [] }
    ensures cancel_opens { (on_a_tree (with_between 12)).server.opens ≡ [] }
    ensures notify { statuses_of (on_a_tree (with_between 15)).replies ≡ 0 ∷ 0xc000_00bb ∷ 0 ∷ [] }
    ensures notify_opens { (on_a_tree (with_between 15)).server.opens ≡ [] }
{}

/// Who signs the answer to a CREATE, signs that to the CLOSE that fails with it; nobody signs where the connection found a fault.
pub fn failed_signers_example()
    ensures faulty { signers_of (on_no_session (Some 0xc000_0022)).replies ≡ None ∷ None ∷ [] }
    ensures rightful { signers_of (on_no_session None).replies ≡ Some some_keys.signing ∷ Some some_keys.signing ∷ [] }
{}

/// A CLOSE behind a CREATE that failed fails with its status, also where an ECHO stands between them. Behind a message
/// that isn't related the CREATE is forgotten: an open of zeros is none (FILE_CLOSED).
pub fn refused_create_example()
    ensures related { statuses_of (on_a_tree refused_and_closed).replies ≡ 0xc000_0022 ∷ 0 ∷ 0xc000_0022 ∷ [] }
    ensures apart { statuses_of (on_a_tree refused_and_apart).replies ≡ 0xc000_0022 ∷ 0xc000_0128 ∷ 0xc000_0128 ∷ [] }
{}

/// The related flag on a frame's first message breaks its form, of a CREATE and a SESSION_SETUP too; what isn't signed as owed is
/// refused before.
pub fn first_related_example()
    ensures plain { statuses_of (go_through (first_echo 0 None)).replies ≡ 0 ∷ [] }
    ensures related { statuses_of (go_through (first_echo 4 None)).replies ≡ 0xc000_000d ∷ [] }
    ensures refused { statuses_of (go_through (first_echo 4 (Some 0xc000_0022))).replies ≡ 0xc000_0022 ∷ [] }
    ensures create { statuses_of (on_a_tree misplaced_create).replies ≡ 0xc000_000d ∷ [] }
    ensures setup { statuses_of (go_through (lone_setup 4)).replies ≡ 0xc000_000d ∷ [] }
    ensures placed_setup { statuses_of (go_through (lone_setup 0)).replies ≡ 0xc000_0203 ∷ [] }
{}

/// Without a mishap the frame's step is the connection's own.
pub fn no_mishap_example()
    ensures frames { (with_mishaps (None ∷ None ∷ [])).step.frames ≡ (frame_step greeted_end two_disconnects).frames }
    ensures matches { (with_mishaps (None ∷ None ∷ [])).matches ≡ true }
    ensures lacked { (with_mishaps (None ∷ None ∷ [])).lacked ≡ false }
{}

/// An event that found no memory is answered so, and the message behind it by the step.
pub fn no_memory_example()
    ensures last { (with_mishaps (None ∷ lacks ∷ [])).step.status ≡ Some 0xc000_0017 }
    ensures behind { (with_mishaps (lacks ∷ None ∷ [])).step.status ≡ Some 0xc000_0203 }
    ensures lacked { (with_mishaps (lacks ∷ None ∷ [])).lacked ≡ true }
{}

/// A server that stopped ends the connection without an answer, and no message behind has an event.
pub fn stopped_example()
    ensures ends { (with_mishaps (halts ∷ [])).step.ends ≡ Some (Stopped 3) }
    ensures frames { (with_mishaps (halts ∷ [])).step.frames ≡ [] }
    ensures matches { (with_mishaps (halts ∷ [])).matches ≡ true }
{}

/// As much is given as a frame has events, and no more.
pub fn given_example()
    ensures too_few { (with_mishaps (None ∷ [])).matches ≡ false }
    ensures too_many { (with_mishaps (None ∷ None ∷ None ∷ [])).matches ≡ false }
    ensures behind_a_stop { (with_mishaps (halts ∷ None ∷ [])).matches ≡ false }
{}

/// The 4,097th SESSION_SETUP of a connection has no event.
pub fn setups_example()
    ensures last { (setup_behind 4095 []).matches ≡ false }
    ensures past { (setup_behind 4096 []).matches ≡ true }
    ensures status { (setup_behind 4096 []).step.status ≡ Some 0xc000_009a }
    ensures count { (setup_behind 4096 []).setups ≡ 4096 }
{}

/// A request too short for its FileId names 16 zeros. An IOCTL's stands at 72.
pub fn short_request_example()
    ensures place { file_place 11 ≡ Some 72 }
    ensures short { file_at 72 (replicate 87 1) ≡ replicate 16 0 }
    ensures whole { file_at 72 (replicate 88 1) ≡ replicate 16 1 }
{}

/// No request of a dialog follows where no credit is held behind the response; behind TREE_CONNECT and a binding none does.
pub fn no_credit_example()
    ensures none { fault_at (SaidFirst false) 0 ≡ Some BadToken }
    ensures one { fault_at (SaidFirst false) 1 ≡ None }
    ensures tree { fault_at AskedTree 0 ≡ None }
    ensures binding { pays_next penniless (SaidSecond true) (granting 0).header ≡ true }
{}

/// A related message takes session and tree of the one before it.
pub fn related_session_example()
    ensures { statuses_of (go_in_session (two_trees (100 ∷ []))).replies ≡ 0 ∷ 0 ∷ [] }
{}

/// What is only signed is refused where sealing is owed.
pub fn sealing_owed_example()
    ensures owed { (frame_step (keyed_end true) signed_echo).status ≡ Some 0xc000_0022 }
    ensures not_owed { (frame_step (keyed_end false) signed_echo).status ≡ Some 0 }
{}

/// An ECHO of no session is answered where nothing is signed or sealed, and its answer isn't signed; a related one behind it
/// owes what its own session owes. Behind a message that isn't signed as owed it is refused.
pub fn probe_example()
    ensures keyless { (frame_step greeted_end (probe 1 0)).frames ≡ probe_reply ∷ [] }
    ensures signing { (frame_step (keyed_end false) (probe 1 0)).frames ≡ probe_reply ∷ [] }
    ensures sealing { (frame_step (keyed_end true) (probe 1 0)).frames ≡ probe_reply ∷ [] }
    ensures related { (frame_step greeted_end related_probe).status ≡ Some 0xc000_0022 }
    ensures barred { (frame_step greeted_end echo_and_probe).status ≡ Some 0xc000_0022 }
{}

/// A transform header of other Flags than 1 is none, though its tag is right.
pub fn transform_flags_example()
    ensures none { opened_by (Some some_keys) (flagged_transform 0 tag_of_0) ≡ None }
    ensures two { opened_by (Some some_keys) (flagged_transform 2 tag_of_2) ≡ None }
    ensures one { opened_by (Some some_keys) (flagged_transform 1 tag_of_1) ≡ Some [] }
{}

/// A frame before a session has at most 66,000 bytes.
pub fn first_frames_example()
    ensures long { is_too_long None (replicate 66001 0) ≡ true }
    ensures refused { text_of None (replicate 66001 0) ≡ Err BadFrame }
    ensures whole { is_too_long None (replicate 66000 0) ≡ false }
    ensures later { is_too_long (Some some_keys) (replicate 66001 0) ≡ false }
{}

/// A signed request has a signed reply.
pub fn signed_reply_example()
    ensures { (frame_step (keyed_end false) signed_echo).frames ≡ signed_reply ∷ [] }
{}

/// What isn't signed, or only signed where sealing is owed, has an answer without a signature, though the connection has keys.
pub fn unsigned_refusal_example()
    ensures unsigned { (frame_step (keyed_end false) (echo 1 0)).frames ≡ unsigned_refusal ∷ [] }
    ensures unsealed { (frame_step (keyed_end true) signed_echo).frames ≡ unsigned_refusal ∷ [] }
{}

/// A refused binding is signed by the live session's key with the algorithm of this connection; not where the request isn't signed,
/// has a wrong signature whatever the status, or comes from another client. Where the session isn't live, the connection's own signs.
pub fn refused_binding_example()
    ensures other_algorithm { refused_by true true 0xc000_000d ≡ Some (record some_keys.signing { algorithm = 2 }) }
    ensures other_user { refused_by true true 0xc000_0022 ≡ Some (record some_keys.signing { algorithm = 2 }) }
    ensures unsigned { refused_by false false 0xc000_000d ≡ None }
    ensures ill_signed { refused_by true false 0xc000_0022 ≡ None }
    ensures without_the_key { refused_by true false 0xc000_000d ≡ None }
    ensures not_told { refused_by true false 0xc000_00d0 ≡ None }
    ensures other_client { refused_by true true 0xc000_0203 ≡ None }
    ensures in_the_making { staying_signer nothing_yet keyed_logons other_end binding (Setup (bound_request true true)) 0xc000_00d0
        ≡ Some other_signer }
{}

/// A sealed request has a sealed reply, which takes a nonce.
pub fn sealed_reply_example()
    ensures frames { (frame_step (keyed_end true) sealed_echo).frames ≡ sealed_reply ∷ [] }
    ensures counter { (frame_step (keyed_end true) sealed_echo).server_end.counter ≡ 1 }
{}

/// In a binding the session signs the interim response, and the channel has the session's cipher keys and the next number.
pub fn binding_example()
    ensures signer { signer_by nothing_yet nobody.users keyed_logons 0 greeted_end binding (Setup (bound_request true true)) 0xc000_0016
        (Interim true) ≡ Some some_keys.signing }
    ensures keys { (final_keys nobody.users keyed_logons 0 greeted_end binding true).to_server ≡ replicate 32 2 }
    ensures channel { bound_second.channel ≡ 2 }
{}

/// NEGOTIATE, and the server's step over it.
pub fn worked_greeting_example()
    ensures asked { greeting_text client_of_logon worked.client_salt (dialog_sent 0 0) ≡ worked.greeting }
    ensures told { greeting_heard.frames ≡ worked.greeting_reply ∷ [] }
{}

/// Both SESSION_SETUPs. The second token, and what ends the logon, are given; the final response is signed by AES-CMAC.
pub fn worked_setup_example()
    ensures first { setup_text false 0 first_token (dialog_sent 1 0) ≡ worked.first_setup }
    ensures interim { first_setup_heard.frames ≡ worked.interim ∷ [] }
    ensures second { setup_text false 0 worked.second_token (dialog_sent 2 first_id) ≡ worked.second_setup }
    ensures last { last_told ≡ worked.last_reply }
{}

/// NTLM's messages alone. A type 1 begins a logon where the settings say so, and the type 2 alone answers it. Behind it a type 3
/// in SPNEGO is bad, and the answer that ends the logon is empty.
pub fn worked_bare_example()
    ensures begins { begun_by true worked.type_1 ≡ Some (record { list = []; first = worked.type_1 }) }
    ensures wrapped { begun_by false worked.type_1 ≡ None }
    ensures challenge { challenge_of (pending_by true worked.type_1 worked.server_challenge (first_moment + 3)) ≡ worked.type_2 }
    ensures again { shown_alone worked.type_1 ≡ Begins }
    ensures other { shown_alone worked.second_token ≡ Bad }
    ensures last { final_token [] alone_logon false ≡ [] }
{}

/// TREE_CONNECT and its response as they are before they are sealed; and the server's step over a signed one.
pub fn worked_tree_example()
    ensures asked { request_text (sent 3 first_id 0 (TreeConnect share_name)) 1 false ≡ worked.tree_asked }
    ensures told { tree_told ≡ worked.tree_told }
    ensures signed { signed_tree_heard.frames ≡ worked.signed_tree_told ∷ [] }
{}

/// A CREATE of a persistent open and its response, before they are sealed.
pub fn worked_create_example()
    ensures asked { request_text (sent 4 first_id 1 create_asked) 1 false ≡ worked.create_asked }
    ensures told { create_told ≡ worked.create_told }
{}
