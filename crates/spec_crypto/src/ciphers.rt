//! What the ciphers, the keyed hashes and the key derivation compute, as functions on byte lists, one file
//! of `specs/` for each subject: AES and its modes CMAC, CCM, GCM and GMAC; MD4, RC4, HMAC, and key
//! derivation in counter mode. SHA-256 and MD5 are those of the crates `sha2` and `md5`. There is no code
//! here.
