//! What a server chose of the client's offer.
ghost use Rattle.std.specs.Prelude.{◌≡◌, option_map};
ghost use Rattle.spec_wire.specs.messages.Offer.{has_id as has_id_of};
ghost use Rattle.spec_world.specs.Dialog.{first_or as first_due, was_offered as offered_due};
ghost use Rattle.client_values.specs.outcomes.Meaning.{refusal_of};
ghost use Rattle.client_ends.specs.ends.Shown.{settings_of};
ghost use Rattle.client_ends.specs.dialog_responses.Greeting.{choice_by, chosen_by};

use crate::ends::ClientConfig;
use spec_crypto::Chosen;
use wire_bytes::{Choice, Offer, Refusal};

#[tactic(auto, unfolding(spec_wire::specs::messages::Offer::has_id))]
fn has_id(ids: &[u16], id: u16) -> bool
    ensures { result ≡ has_id_of id ids.now }
{
    for one in ids {
        if *one == id {
            return true;
        }
    }
    false
}

/// No algorithm, or one that was offered.
fn was_offered(offered: &[u16], told: &[u16]) -> bool
    ensures { result ≡ offered_due offered.now told.now }
{
    if told.is_empty() {
        return true;
    }
    if told.len() != 1 {
        return false;
    }
    has_id(offered, told[0])
}

/// The first fault of what was chosen, if there is one.
pub(crate) fn choice_refusal(
    config: &ClientConfig,
    dialect: u16,
    hashes: u16,
    told: &Offer,
) -> Option<Refusal>
    ensures { option_map refusal_of result
        ≡ choice_by (settings_of config.now) dialect told.now.sha512 hashes told.now.ciphers told.now.signings }
{
    if dialect != 0x311 {
        return Some(Refusal::BadChoice(Choice::Dialect));
    }
    if !told.sha512 {
        return Some(Refusal::NoSha512);
    }
    if hashes != 1 {
        return Some(Refusal::BadChoice(Choice::Hash));
    }
    if !was_offered(config.ciphers.as_slice(), told.ciphers.as_slice()) {
        return Some(Refusal::BadChoice(Choice::Cipher));
    }
    if !was_offered(config.signings.as_slice(), told.signings.as_slice()) {
        return Some(Refusal::BadChoice(Choice::Signing));
    }
    None
}

/// The first of a list, or another number.
fn first_or(other: u16, ids: &[u16]) -> u16
    ensures { result ≡ first_due other ids.now }
{
    if ids.is_empty() {
        return other;
    }
    ids[0]
}

/// No cipher, and AES-CMAC, where none is told.
pub(crate) fn chosen_of(told: &Offer) -> Chosen
    ensures { result ≡ chosen_by told.now.ciphers told.now.signings }
{
    Chosen {
        cipher: first_or(0, told.ciphers.as_slice()),
        signing: first_or(1, told.signings.as_slice()),
        signing_told: !told.signings.is_empty(),
    }
}
