ghost use Rattle.std.specs.Prelude.{◌≡◌, ◌^◌, ◌<◌, ◌++◌, ℕ, Bool, List, [], length, Some};
ghost use Rattle.spec_wire.specs.declared.messages.header.Header.{Header};
ghost use Rattle.spec_exchange.specs.Status.{success};
ghost use Rattle.spec_exchange.specs.Operations.{Op, request_of};
ghost use Rattle.spec_exchange.specs.Commands.{Setting, Element, CreateRequest, Create, Close, Flush, Read, Write, Lock};
ghost use Rattle.spec_exchange.specs.Commands.{ListDirectory, QueryFile, SetInfo};
ghost use Rattle.spec_exchange.specs.State.{Info, Named, CreateReply, Reply, Empty, Content, Count, Created, FileInfo, Listing};
ghost use Rattle.spec_commands.specs.Infos.{listing_bytes};
ghost use Rattle.spec_commands.specs.ReplyBody.{reply_body, success_body};
ghost use Rattle.spec_commands.specs.ReplyOf.{reply_of, body_in, of_length};
ghost use Rattle.law_commands.specs.commands.Fitting.{IsInfo, IsCreated, AreFittingNames, IsFittingAnswer, IsHeardAlike};
ghost use Rattle.law_commands.specs.commands.Fitting.{as_created, as_named};

use law_wire::{
    close_response_law, create_response_law, directory_entry_law, file_standard_information_law,
    flush_response_law, listing_law, lock_response_law, query_directory_response_law,
    query_info_response_law, read_response_law, reply_contexts_law, set_info_response_law,
    write_response_law,
};

// CLOSE, FLUSH, LOCK and SET_INFO
pub fn empty_replies()
    ensures close { (header rest token : List ℕ) (file : ℕ) (query : Bool) → length header ≡ 64
        → body_in (Close file query) (header ++ (success_body token (Close file query) Empty ++ rest)) ≡ Some Empty }
    ensures flush { (header rest token : List ℕ) (file : ℕ) → length header ≡ 64
        → body_in (Flush file) (header ++ (success_body token (Flush file) Empty ++ rest)) ≡ Some Empty }
    ensures lock { (header rest token : List ℕ) (file index number : ℕ) (elements : List Element) → length header ≡ 64
        → body_in (Lock file index number elements)
        (header ++ (success_body token (Lock file index number elements) Empty ++ rest)) ≡ Some Empty }
    ensures set { (header rest token : List ℕ) (file : ℕ) (setting : Setting) → length header ≡ 64
        → body_in (SetInfo file setting) (header ++ (success_body token (SetInfo file setting) Empty ++ rest))
        ≡ Some Empty }
{
    close_response_law();
    flush_response_law();
    lock_response_law();
    set_info_response_law();
}

// READ and WRITE
pub fn transfer_replies()
    ensures read { (header rest token : List ℕ) (file at size minimum channel : ℕ) (bytes : List ℕ) → length header ≡ 64
        → length bytes < 256 ^ 4
        → body_in (Read file at size minimum channel)
        (header ++ (success_body token (Read file at size minimum channel) (Content bytes) ++ rest))
        ≡ Some (Content bytes) }
    ensures write { (header rest token : List ℕ) (file at : ℕ) (bytes : List ℕ) (channel count : ℕ) → length header ≡ 64
        → count < 256 ^ 4
        → body_in (Write file at bytes channel)
        (header ++ (success_body token (Write file at bytes channel) (Count count) ++ rest)) ≡ Some (Count count) }
{
    read_response_law();
    write_response_law();
}

// CREATE
pub fn created_reply()
    ensures { (header rest token : List ℕ) (request : CreateRequest) (r : CreateReply) → length header ≡ 64
        → IsCreated r → body_in (Create request) (header ++ (success_body token (Create request) (Created r) ++ rest))
        ≡ Some (Created (as_created r)) }
{
    create_response_law();
    reply_contexts_law();
}

// QUERY_INFO of class 5
pub fn stat_reply()
    ensures { (header rest token : List ℕ) (file room : ℕ) (path : List ℕ) (info : Info) (access options position : ℕ)
        → length header ≡ 64 → IsInfo info
        → body_in (QueryFile file 5 room)
        (header ++ (success_body token (QueryFile file 5 room) (FileInfo 5 path info access options position) ++ rest))
        ≡ Some (FileInfo 5 [] (of_length info.size) 0 0 0) }
{
    query_info_response_law();
    file_standard_information_law();
}

// QUERY_DIRECTORY of class 12
pub fn list_reply()
    ensures { (header rest token : List ℕ) (file : ℕ) (restart single : Bool) (pattern : List ℕ) (room : ℕ)
        (ns : List Named) → length header ≡ 64 → AreFittingNames ns → length (listing_bytes 12 ns) < 256 ^ 4
        → body_in (ListDirectory file 12 restart single pattern room)
        (header ++ (success_body token (ListDirectory file 12 restart single pattern room) (Listing 12 ns) ++ rest))
        ≡ Some (Listing 12 (as_named ns)) }
{
    query_directory_response_law();
    directory_entry_law();
    listing_law();
}

/// What the server writes for the success of an operation's command, with a body that such a success has
/// and its numbers within their fields, is heard as that body in all that a client looks at: behind any
/// header of 64 bytes that has its status, whatever follows it.
pub fn reply_law()
    ensures { (h : Header) (header rest token : List ℕ) (op : Op) (guid file slot number : ℕ) (r : Reply)
        → length header ≡ 64 → r.status ≡ success → h.status ≡ r.status → IsFittingAnswer op r.body
        → IsHeardAlike op
        (reply_of (request_of op guid file slot number) h
        (header ++ (reply_body token (request_of op guid file slot number) r ++ rest))).body r.body }
{
    empty_replies();
    transfer_replies();
    created_reply();
    stat_reply();
    list_reply();
}
