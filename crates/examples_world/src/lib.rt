//! Published and worked examples of ciphers, sessions, commands, runs over bytes and settings, computed by the checker
//! on the definitions. It is a room because these definitions are checked here against values from outside. Nothing
//! stands on it.
#![tactic(auto)]

mod ciphers;
mod commands;
mod connections;
mod repeats;
mod runs;
mod sessions;
mod settings;

pub use ciphers::{
    aes_128, aes_256, ccm_1, ccm_2, ccm_3, cmac_block, cmac_empty, cmac_forty, gcm_added,
    gcm_block, gcm_empty,
};
pub use commands::{
    attributes_example, close_example, create_example, file_ids_example, interface_example,
    listing_example, tree_connect_example, unreadable_example, write_reply_example,
};
pub use connections::{
    absent_reply_example, accepted_session_example, begun_again_example, binding_client_example,
    binding_server_example, noted_response_example, noted_seal_example, paid_request_example,
    session_flags_example, session_id_example, turn_example,
};
pub use repeats::{
    client_secrets_example, given_twice_example, misread_example, put_up_example,
    redirected_example, server_places_example, server_secrets_example,
};
pub use runs::{
    binding_example, cancel_example, first_related_example, given_example, id_taken_twice_example,
    made_and_closed_example, no_credit_example, no_memory_example, no_mishap_example,
    refused_create_example, related_messages_example, related_session_example,
    sealed_reply_example, sealing_owed_example, setups_example, short_request_example,
    signed_reply_example, stopped_example, two_echoes_example, worked_bare_example,
    worked_create_example, worked_greeting_example, worked_setup_example, worked_tree_example,
};
pub use sessions::{
    answer_example, chain_example, choice_example, derivation_example, hint_example, nonce_example,
    signature_example,
};
pub use settings::settings_fit_example;
