//! What the tokens of a logon are: SPNEGO (RFC 4178, MS-SPNG) over DER, NTLM's three messages and NTLMv2's formulas
//! (MS-NLMP), and what a token shows to a server, as functions on byte lists. The definitions stand in `specs/`; here
//! are the plain types that they speak of.

mod der;
mod ntlm;

pub use der::DerError;
pub use ntlm::{LogonError, NtlmError, NtlmField, Type1};
