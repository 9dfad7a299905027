//! What fits its fields: the commands of operations, and what the server's checks give. Each law is the contract of a function
//! that does nothing.

mod listing;

ghost use Rattle.std.specs.Prelude.{◌≡◌, ◌<◌, ◌^◌, ℕ, Bool, true, Option, None, List, IsUtf8};
ghost use Rattle.spec_exchange.specs.Commands.{form, Read, ListDirectory, QueryFile, QueryVolume};
ghost use Rattle.spec_exchange.specs.State.{Server, Reply, Info, Named, Content, Listing, FileInfo, VolumeInfo};
ghost use Rattle.spec_exchange.specs.Operations.{Op, keeps_limits, request_of, reconnect_of};
ghost use Rattle.spec_exchange.specs.Verdict.{Tell, Show, Place};
ghost use Rattle.spec_exchange.specs.CheckOpen.{read_check, file_query_check, list_check};
ghost use Rattle.spec_commands.specs.Fits.{FitsAsked, FitsSuccess, FitsReply};
ghost use Rattle.law_commands.specs.commands.Fitting.{IsFittingAnswer, AreTexts};

pub use listing::listing_reply_law;

/// An operation's commands can be written where the operation keeps the limits at which it is taken, a slot's index is below
/// 2^28 and its number below 16; and so can a reply to one, with the body that its success has.
pub fn operation_fits_law()
    ensures asked { (op : Op) (guid file slot number : ℕ) → keeps_limits op ≡ true → slot < 2 ^ 28 → number < 16
        → FitsAsked (request_of op guid file slot number) }
    ensures attach { (op : Op) (guid file : ℕ) → keeps_limits op ≡ true → FitsAsked (reconnect_of op guid file) }
    ensures answered { (token : List ℕ) (op : Op) (guid file slot number : ℕ) (r : Reply) → IsFittingAnswer op r.body
        → FitsReply token (request_of op guid file slot number) r }
{}

/// What the server's checks give for a command that keeps its form can be written: what was read, a listing of names that are
/// text, and what is told of a file whose path is text, or of the volume. Any other success can be, but for a token's length.
pub fn success_fits_law()
    ensures read { (token : List ℕ) (s : Server) (o at size minimum channel : ℕ) (bytes : List ℕ)
        → form (Read o at size minimum channel) ≡ None → read_check s o at size minimum ≡ Tell o (Content bytes)
        → FitsSuccess token (Read o at size minimum channel) (Content bytes) }
    ensures list { (token : List ℕ) (s : Server) (o class : ℕ) (restart single : Bool) (pattern : List ℕ) (room told : ℕ)
        (place : Place) (entries : List Named) → form (ListDirectory o class restart single pattern room) ≡ None
        → list_check s o class restart single pattern room ≡ Show o place (Listing told entries) → AreTexts entries
        → FitsSuccess token (ListDirectory o class restart single pattern room) (Listing told entries) }
    ensures file { (token : List ℕ) (s : Server) (o class room told : ℕ) (path : List ℕ) (info : Info) (access options position : ℕ)
        → form (QueryFile o class room) ≡ None
        → file_query_check s o class room ≡ Tell o (FileInfo told path info access options position) → IsUtf8 path
        → FitsSuccess token (QueryFile o class room) (FileInfo told path info access options position) }
    ensures volume { (token : List ℕ) (file class room told size used : ℕ)
        → FitsSuccess token (QueryVolume file class room) (VolumeInfo told size used) }
{}
