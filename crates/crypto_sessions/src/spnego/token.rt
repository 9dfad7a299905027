use wire_bytes::Bytes;

/// The value of a NegTokenInit (RFC 4178 4.2.1).
#[derive(Debug, Drop)]
pub struct InitToken {
    /// The SEQUENCE of mechTypes as it stands in the token, over which a mechListMIC is taken.
    pub mech_list: Bytes,
    /// Whether the first mechanism is NTLMSSP.
    pub ntlm_first: bool,
    /// The mechToken.
    pub token: Option<Bytes>,
    /// The mechListMIC.
    pub mic: Option<Bytes>,
}

/// The value of a NegTokenResp (RFC 4178 4.2.2).
#[derive(Debug, Drop)]
pub struct RespToken {
    /// The negState: accept-completed 0, accept-incomplete 1, reject 2, request-mic 3.
    pub state: Option<u8>,
    /// Whether the supportedMech is NTLMSSP.
    pub ntlm: bool,
    /// The responseToken.
    pub token: Option<Bytes>,
    /// The mechListMIC.
    pub mic: Option<Bytes>,
}
