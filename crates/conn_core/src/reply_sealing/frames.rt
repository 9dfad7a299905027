//! Replies joined in frames, signed or sealed (MS-SMB2 3.3.4.1).
use crate::end::ConnEnd;
use crate::reply_sealing::putting::{
    gap_if, header_of, put_length, put_message, put_zeros, seal, sign_if, whole_size,
};
use crate::reply_sealing::said::Said;
use crypto_sessions::Nonces;
use spec_crypto::{Keys, Signer};
use std::alloc::AllocError;
use wire_bytes::Span;

/// The most bytes of a frame's message, of which 52 are the transform header's where it is sealed.
const MOST: usize = 1_114_112;

const TRANSFORM: usize = 52;

/// Frames, each behind its length in four bytes (MS-SMB2 2.1), the last of them still open or not.
#[derive(Drop)]
pub struct Frames {
    out: Vec<u8>,
    sealed: bool,
    /// Where the last frame's text begins.
    text: usize,
    open: bool,
}

/// A reply that was put into a frame: where it stands, and whether the next one goes on behind it.
#[derive(Clone, Copy)]
pub struct Placed {
    pub span: Span,
    pub more: bool,
}

impl Frames {
    ghost use Rattle.std.specs.Prelude.{◌≡◌, ℕ, List, [], ◌∷◌, ◌+◌, ◌-◌, ◌≤◌, ◌++◌, nat_le, true, false, length, Some};
    ghost use Rattle.std.specs.Prelude.{take, drop, None, Option, option_copied, if◌then◌else◌, OnOk, IfOk};
    ghost use Rattle.spec_world.specs.Answering as answering;
    ghost use Rattle.conn_core.specs.reply_sealing.Saying.{CanPut, CanPutIf, IsReplySaid, framed, front_size};
    ghost use Rattle.spec_crypto.specs.sessions.Nonces.{NonceState};
    ghost use Rattle.spec_crypto.specs.declared.sessions.material.Keys.{Keys};
    ghost use Rattle.conn_core.specs.reply_sealing.Joining.{ReplyEndsBy, ReplyFinishes, FitsOpen, HasNext, HasReplyRoom};
    ghost use Rattle.conn_core.specs.reply_sealing.Joining.{IsReplyBegun, IsPlaced, IsWritten, ReplyJoins, NextIs};
    ghost use Rattle.conn_core.specs.reply_sealing.Joining.{RoomBehind};

    /// No frames, in a vector that has no bytes.
    pub fn new(out: Vec<u8>, sealed: bool) -> Frames
        ensures { (result.out ≡ out) × (result.sealed ≡ sealed) × (result.text ≡ 0) × (result.open ≡ false) }
    {
        Frames {
            out,
            sealed,
            text: 0,
            open: false,
        }
    }

    pub fn into_bytes(self) -> Vec<u8>
        ensures { result ≡ self.out }
    {
        self.out
    }

    /// What stands in front of a frame's text: its length, and the transform header of a sealed one.
    fn front(&self) -> u8
        ensures { result ≡ front_size self.now.sealed }
    {
        if self.sealed { 56 } else { 4 }
    }

    fn limit(&self) -> usize
        ensures { result ≡ answering.text_limit self.now.sealed }
    {
        if self.sealed { MOST - TRANSFORM } else { MOST }
    }

    /// The bytes of a message that was put, as they are before its frame is sealed.
    pub fn bytes(&self, span: Span) -> &[u8]
        requires { (span.start ≤ span.end) × (span.end ≤ length self.now.out.items) }
        ensures { result.now ≡ take (span.end - span.start) (drop span.start self.now.out.items) }
    {
        &self.out[span.start..span.end]
    }

    /// Begins a frame where none is open.
    fn begin(&mut self) -> Result<(), AllocError>
        ensures sealed { self.new.sealed ≡ self.old.sealed }
        ensures room { (size : ℕ) → size ≤ 1114060 → FitsOpen self.old size → OnOk result (HasReplyRoom self.new size) }
        ensures begun { (keys : Option Keys) (first nonces : NonceState) (done front : List (List ℕ))
            → IsWritten keys first self.old nonces done front → OnOk result (IsReplyBegun keys first self.new nonces done front) }
    {
        if self.open {
            return Ok(());
        }
        let front = self.front();
        put_zeros(&mut self.out, front)?;
        self.text = self.out.len();
        self.open = true;
        Ok(())
    }

    fn has_room(&self, said: &Said<'_>, next: &Said<'_>) -> bool
        requires text { self.now.text ≤ length self.now.out.items }
        requires said { CanPut said.now }
        requires next { CanPut next.now }
        ensures room { result ≡ true
            → HasNext (length self.now.out.items - self.now.text) (answering.text_limit self.now.sealed) said.now (Some next.now) }
        ensures is { (r n : answering.SaidReply) → IsReplySaid said.now r → IsReplySaid next.now n → result
            ≡ nat_le (length self.now.out.items - self.now.text + answering.whole_size r + answering.said_size n)
            (answering.text_limit self.now.sealed) }
    {
        let size = self.out.len() - self.text + whole_size(said.size());
        size + next.size() <= self.limit()
    }

    /// Whether the next reply has room in the frame behind this one.
    fn joins(&self, said: &Said<'_>, next: Option<&Said<'_>>) -> bool
        requires text { self.now.text ≤ length self.now.out.items }
        requires said { CanPut said.now }
        requires next { CanPutIf (option_copied next) }
        ensures room { result ≡ true
            → HasNext (length self.now.out.items - self.now.text) (answering.text_limit self.now.sealed) said.now
            (option_copied next.entry) }
        ensures is { (r : answering.SaidReply) (n : Option answering.SaidReply) → IsReplySaid said.now r
            → ReplyJoins (length self.now.out.items - self.now.text) (answering.text_limit self.now.sealed) r (option_copied next.entry)
            n result }
    {
        match next {
            None => false,
            Some(next) => self.has_room(said, next),
        }
    }

    /// Who signs a reply: nobody one that is sealed.
    fn signer(&self, said: &Said<'_>) -> Option<Signer>
        ensures { result ≡ (if self.now.sealed then None else said.now.signer) }
    {
        if self.sealed { None } else { said.signer }
    }

    /// Puts a reply at the end of the frame. Tells where it stands.
    fn put(&mut self, said: &Said<'_>, more: bool) -> Result<Span, AllocError>
        requires { CanPut said.now }
        ensures same { (self.new.sealed ≡ self.old.sealed) × (self.new.text ≡ self.old.text) × (self.new.open ≡ self.old.open) }
        ensures told { IfOk result (λ span. (span.start ≡ length self.old.out.items) × (span.end ≡ length self.new.out.items)) }
        ensures size { OnOk result (length self.new.out.items ≡ length self.old.out.items
            + (64 + length said.now.body.now + answering.padding_if more (64 + length said.now.body.now))) }
        ensures put { (r : answering.SaidReply) → IsReplySaid said.now r
            → OnOk result (self.new.out.items ≡ self.old.out.items ++ answering.said_text self.old.sealed more r) }
    {
        let start = self.out.len();
        let signer = self.signer(said);
        let header = header_of(said, more, signer.is_some());
        let gap = gap_if(more, said.size());
        put_message(&mut self.out, &header, said.body, gap)?;
        sign_if(&mut self.out, start, signer);
        Ok(Span {
            start,
            end: self.out.len(),
        })
    }

    /// Puts a reply into the frame that is open, or into a new one, and tells whether the next one goes on behind it.
    pub fn place(&mut self, said: &Said<'_>, next: Option<&Said<'_>>) -> Result<Placed, AllocError>
        requires fits { CanPut said.now × CanPutIf (option_copied next) }
        requires room { FitsOpen self.old (64 + length said.now.body.now) }
        ensures sealed { self.new.sealed ≡ self.old.sealed }
        ensures room { IfOk result (λ p. RoomBehind self.new p.more (option_copied next.entry)) }
        ensures inside { IfOk result (λ p. (p.span.start ≤ p.span.end) × (p.span.end ≤ length self.new.out.items)) }
        ensures placed { (keys : Option Keys) (first nonces : NonceState) (done front : List (List ℕ)) (r : answering.SaidReply)
            (n : Option answering.SaidReply) → IsWritten keys first self.old nonces done front → IsReplySaid said.now r
            → NextIs (option_copied next.entry) n
            → IfOk result (λ p. IsPlaced keys first self.old.sealed self.new nonces done front r n p) }
    {
        self.begin()?;
        let more = self.joins(said, next);
        let span = self.put(said, more)?;
        Ok(Placed { span, more })
    }

    /// Ends the frame whose length stands at this place.
    fn close(&mut self, front: usize)
        requires { front + 4 ≤ length self.old.out.items }
        ensures out { self.new.out.items ≡ take front self.old.out.items ++ framed (drop (front + 4) self.old.out.items) }
        ensures closed { (self.new.open ≡ false) × (self.new.sealed ≡ self.old.sealed) }
    {
        put_length(&mut self.out, front);
        self.open = false;
    }

    /// The same of a frame that is to be sealed under the next nonce.
    fn close_sealed(
        &mut self,
        front: usize,
        keys: Option<Keys>,
        nonces: &mut Nonces,
    ) -> Result<(), ConnEnd>
        requires sealed { self.old.sealed ≡ true }
        requires text { self.old.text ≡ front + 56 }
        requires whole { self.old.text ≤ length self.old.out.items }
        requires short { length self.old.out.items - self.old.text ≤ 1114060 }
        ensures { ReplyFinishes self.old nonces.old keys self.new nonces.new result }
    {
        match seal(&mut self.out, front + 4, keys, nonces) {
            Ok(()) => {
                self.close(front);
                Ok(())
            }
            Err(cause) => Err(cause),
        }
    }

    /// Ends the frame that is open: it is sealed where it is to be, under the next nonce, and has its length. `Unsealable`
    /// comes exactly where these keys don't seal, and `Spent` where no nonce is left.
    fn finish(&mut self, keys: Option<Keys>, nonces: &mut Nonces) -> Result<(), ConnEnd>
        requires front { (front_size self.old.sealed ≤ self.old.text) × (self.old.text ≤ length self.old.out.items) }
        requires short { length self.old.out.items - self.old.text ≤ answering.text_limit self.old.sealed }
        ensures { ReplyFinishes self.old nonces.old keys self.new nonces.new result }
    {
        let front = self.text - self.front() as usize;
        if self.sealed {
            return self.close_sealed(front, keys, nonces);
        }
        self.close(front);
        Ok(())
    }

    /// Ends the frame behind a reply where the next one doesn't go on in it. `Unsealable` comes exactly where it is to be
    /// sealed and these keys don't seal, and `Spent` where no nonce is left.
    pub fn end(
        &mut self,
        more: bool,
        keys: Option<Keys>,
        nonces: &mut Nonces,
    ) -> Result<(), ConnEnd>
        requires { more ≡ false → HasReplyRoom self.old 0 }
        ensures goes_on { more ≡ true → (self.new ≡ self.old) × (nonces.new ≡ nonces.old) }
        ensures shut { more ≡ false → OnOk result ((self.new.open ≡ false) × (self.new.sealed ≡ self.old.sealed)) }
        ensures ends { (first : NonceState) (done front : List (List ℕ)) (t : List ℕ)
            → IsReplyBegun keys first self.old nonces.old done (front ++ t ∷ [])
            → ReplyEndsBy keys first self.old.sealed more nonces.old self.new nonces.new done front t result }
    {
        if more {
            return Ok(());
        }
        self.finish(keys, nonces)
    }
}
