ghost use Rattle.std.specs.Prelude.{◌≡◌, ◌++◌, ℕ, List, None};
ghost use Rattle.spec_wire.specs.messages.Contexts.{IsContextList};
ghost use Rattle.spec_wire.specs.messages.Offer.{OfferValue, offer_fault, offer_in, offer_count, offer_spelling};
ghost use Rattle.law_wire.specs.messages.Offers.{IsWritableOffer};

/// The laws of the contexts of a NEGOTIATE: what is written is so many contexts, and, whatever follows
/// it, reads back as the offer that it was made of.
pub fn offer_law()
    ensures list { (v : OfferValue) (salt : List ℕ) → IsWritableOffer v salt → IsContextList (offer_spelling v salt) (offer_count v) }
    ensures whole { (v : OfferValue) (salt rest : List ℕ) → IsWritableOffer v salt
        → offer_fault (offer_spelling v salt ++ rest) (offer_count v) ≡ None }
    ensures again { (v : OfferValue) (salt rest : List ℕ) → IsWritableOffer v salt
        → offer_in (offer_spelling v salt ++ rest) (offer_count v) ≡ v }
{}
