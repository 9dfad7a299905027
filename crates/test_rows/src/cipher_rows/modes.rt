// GCM and CCM. What is sealed is opened again, and not with another last byte or without it; of the rows that give their bytes, in place
// too.
use crate::words::{Fault, Words, kept, push_digits};
use crypto_ciphers::{
    Aes, ccm_fits, ccm_open, ccm_open_in_place, ccm_seal, ccm_seal_in_place, gcm_open,
    gcm_open_in_place, gcm_seal, gcm_seal_in_place, gmac,
};
use std::alloc::Global;
use wire_bytes::Bytes;

// Longer ones are of no row.
const LONGEST: usize = 1_000_000;

const LENGTHS: Fault = Fault::Other("lengths that do not fit");

/// AES with a key of 16 or 32 bytes.
pub fn aes_with(key: &[u8]) -> Result<Aes, Fault> {
    if let Ok(short) = <[u8; 16]>::try_from(key) {
        return Ok(Aes::new_128(&short));
    }
    match <[u8; 32]>::try_from(key) {
        Ok(long) => Ok(Aes::new_256(&long)),
        Err(_) => Err(LENGTHS),
    }
}

/// What is sealed with: `gcm` or `ccm`, and of the latter the number of the tag's bytes.
#[derive(Drop)]
pub struct Given<'a> {
    pub mode: &'a str,
    pub aes: Aes,
    pub nonce: Vec<u8>,
    pub added: Vec<u8>,
    pub tag: usize,
}

fn nonce_of(given: &Given<'_>) -> Result<[u8; 12], Fault> {
    match <[u8; 12]>::try_from(given.nonce.as_slice()) {
        Ok(nonce) => Ok(nonce),
        Err(_) => Err(LENGTHS),
    }
}

fn seal(alloc: Global, given: &Given<'_>, text: &[u8]) -> Result<Bytes, Fault> {
    let added = given.added.as_slice();
    if given.mode == "ccm" {
        if !ccm_fits(&given.nonce, text.len(), given.tag) {
            return Err(LENGTHS);
        }
        return kept(ccm_seal(alloc, &given.aes, &given.nonce, added, text, given.tag));
    }
    if added.len() >= LONGEST || text.len() >= LONGEST {
        return Err(LENGTHS);
    }
    kept(gcm_seal(alloc, &given.aes, &nonce_of(given)?, added, text))
}

fn open(alloc: Global, given: &Given<'_>, sealed: &[u8]) -> Result<Option<Bytes>, Fault> {
    let added = given.added.as_slice();
    if given.mode == "ccm" {
        let length = sealed.len().saturating_sub(given.tag);
        if !ccm_fits(&given.nonce, length, given.tag) {
            return Err(LENGTHS);
        }
        return kept(ccm_open(alloc, &given.aes, &given.nonce, added, sealed, given.tag));
    }
    if added.len() >= LONGEST || sealed.len() >= LONGEST {
        return Err(LENGTHS);
    }
    kept(gcm_open(alloc, &given.aes, &nonce_of(given)?, added, sealed))
}

/// What is sealed of a text, and opens again.
pub fn sealed(alloc: Global, given: &Given<'_>, text: &[u8]) -> Result<Bytes, Fault> {
    let sealed = seal(alloc, given, text)?;
    match open(alloc, given, sealed.as_slice())? {
        Some(opened) if opened.as_slice() == text => {}
        _ => return Err(Fault::Other("it does not open again")),
    }
    check_refused(alloc, given, sealed.as_slice())?;
    Ok(sealed)
}

// What was sealed doesn't open with its last byte changed or cut off.
fn check_refused(alloc: Global, given: &Given<'_>, sealed: &[u8]) -> Result<(), Fault> {
    let mut changed = Vec::from_slice(alloc, sealed)?;
    if let Some(last) = changed.pop() {
        let cut = open(alloc, given, &changed)?;
        changed.push(last ^ 1)?;
        let other = open(alloc, given, &changed)?;
        if cut.is_none() && other.is_none() {
            return Ok(());
        }
    }
    Err(Fault::Other("another text opens"))
}

// Whether GCM opens this in place under a tag.
fn gcm_opens(given: &Given<'_>, nonce: &[u8; 12], tag: &[u8; 16], text: &mut [u8]) -> bool {
    if given.added.len() >= LONGEST || text.len() >= LONGEST {
        return false;
    }
    gcm_open_in_place(&given.aes, nonce, &given.added, tag, text)
}

// Whether CCM opens this in place under a tag.
fn ccm_opens(given: &Given<'_>, tag: &[u8], text: &mut [u8]) -> bool {
    if !ccm_fits(&given.nonce, text.len(), tag.len()) {
        return false;
    }
    ccm_open_in_place(&given.aes, &given.nonce, &given.added, tag, text)
}

// An error where what was sealed in place isn't what was sealed.
fn check_same(sealed: &[u8], text: &[u8], tag: &[u8]) -> Result<(), Fault> {
    match sealed.strip_prefix(text) {
        Some(rest) if rest == tag => Ok(()),
        _ => Err(Fault::Other("another in place")),
    }
}

// A text is sealed in a place of its own, doesn't open there under another tag, and opens to what it was.
fn check_gcm_in_place(
    alloc: Global,
    given: &Given<'_>,
    text: &[u8],
    sealed: &[u8],
) -> Result<(), Fault> {
    let nonce = nonce_of(given)?;
    let mut place = Vec::from_slice(alloc, text)?;
    if given.added.len() >= LONGEST || place.len() >= LONGEST {
        return Err(LENGTHS);
    }
    let tag = gcm_seal_in_place(&given.aes, &nonce, &given.added, &mut place);
    check_same(sealed, &place, &tag)?;
    let mut other = tag;
    other[15] ^= 1;
    if gcm_opens(given, &nonce, &other, &mut place) {
        return Err(Fault::Other("opened under another tag"));
    }
    if !gcm_opens(given, &nonce, &tag, &mut place) || place.as_slice() != text {
        return Err(Fault::Other("doesn't open"));
    }
    Ok(())
}

fn check_ccm_in_place(
    alloc: Global,
    given: &Given<'_>,
    text: &[u8],
    sealed: &[u8],
) -> Result<(), Fault> {
    let count = given.tag;
    if count > 16 {
        return Err(LENGTHS);
    }
    let mut place = Vec::from_slice(alloc, text)?;
    if !ccm_fits(&given.nonce, place.len(), count) {
        return Err(LENGTHS);
    }
    let tag = ccm_seal_in_place(&given.aes, &given.nonce, &given.added, &mut place, count);
    check_same(sealed, &place, &tag[..count])?;
    let mut other = tag;
    other[0] ^= 1;
    if ccm_opens(given, &other[..count], &mut place) {
        return Err(Fault::Other("opened under another tag"));
    }
    if !ccm_opens(given, &tag[..count], &mut place) || place.as_slice() != text {
        return Err(Fault::Other("doesn't open"));
    }
    Ok(())
}

/// `gcm KEY NONCE ADDED TEXT`, `ccm KEY NONCE ADDED TEXT TAG`, the last the number of the tag's bytes.
pub fn push_sealed(
    said: &mut String,
    alloc: Global,
    mode: &str,
    words: &mut Words<'_>,
) -> Result<(), Fault> {
    let aes = aes_with(words.bytes(alloc)?.as_slice())?;
    let nonce = words.bytes(alloc)?;
    let added = words.bytes(alloc)?;
    let text = words.bytes(alloc)?;
    let tag = words.number() as usize;
    let given = Given {
        mode,
        aes,
        nonce,
        added,
        tag,
    };
    let sealed = sealed(alloc, &given, &text)?;
    if mode == "ccm" {
        check_ccm_in_place(alloc, &given, &text, sealed.as_slice())?;
    } else {
        check_gcm_in_place(alloc, &given, &text, sealed.as_slice())?;
    }
    Ok(push_digits(said, sealed.as_slice())?)
}

/// What GMAC makes of a text.
pub fn by_gmac(alloc: Global, given: &Given<'_>, text: &[u8]) -> Result<Bytes, Fault> {
    if text.len() >= LONGEST {
        return Err(LENGTHS);
    }
    let tag = gmac(&given.aes, &nonce_of(given)?, text);
    kept(Bytes::from_slice(alloc, &tag))
}
