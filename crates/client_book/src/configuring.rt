//! Who a client is, of a script's settings.
ghost use Rattle.std.specs.Prelude.{◌≡◌, IfOk};
ghost use Rattle.client_ends.specs.dialog_requests.Dialogs.{CanOffer};
ghost use Rattle.law_scripts.specs.script_setup.Scripts.{ciphers_of, signings_of};
ghost use Rattle.client_book.specs.Configuring.{IsClientOf};

use client_ends::ClientConfig;
use script_words::text_lines::Settings;
use script_words::{Cipher, Signing, User};
use std::alloc::{AllocError, Global};
use wire_bytes::Numbers;

/// AES-128-CCM, AES-128-GCM, AES-256-CCM and AES-256-GCM are 1 to 4 (MS-SMB2 2.2.3.1.2); the one that is named comes first.
fn offered_ciphers(alloc: Global, cipher: Cipher) -> Result<Numbers, AllocError>
    ensures { IfOk result (λ ns. ns ≡ ciphers_of cipher) }
{
    match cipher {
        Cipher::None => Ok(Numbers::new(alloc)),
        Cipher::Ccm => Numbers::from_slice(alloc, &[1, 2, 4, 3]),
        Cipher::Gcm => Numbers::from_slice(alloc, &[2, 1, 4, 3]),
        Cipher::Ccm256 => Numbers::from_slice(alloc, &[3, 2, 1, 4]),
        Cipher::Gcm256 => Numbers::from_slice(alloc, &[4, 2, 1, 3]),
    }
}

/// AES-CMAC 1 and AES-GMAC 2 (MS-SMB2 2.2.3.1.7).
fn offered_signings(alloc: Global, signing: Signing) -> Result<Numbers, AllocError>
    ensures { IfOk result (λ ns. ns ≡ signings_of signing) }
{
    match signing {
        Signing::Cmac => Numbers::from_slice(alloc, &[1, 2]),
        Signing::Gmac => Numbers::from_slice(alloc, &[2, 1]),
    }
}

/// What a client is configured with, of a script's settings, which logs on as this user under this ClientGuid.
pub fn client_config(
    alloc: Global,
    settings: &Settings,
    user: &User,
    guid: [u8; 16],
) -> Result<ClientConfig, AllocError>
    ensures is { IfOk result (λ config. IsClientOf settings.now user.now guid config) }
    ensures offers { IfOk result (λ config. CanOffer config) }
{
    let ciphers = offered_ciphers(alloc, settings.cipher)?;
    let signings = offered_signings(alloc, settings.signing)?;
    Ok(ClientConfig {
        user: user.name.copy()?,
        password: user.password.copy()?,
        share: settings.share.copy()?,
        ciphers,
        signings,
        guid,
    })
}
