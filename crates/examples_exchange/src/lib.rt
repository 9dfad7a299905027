//! Runs of the model of values, computed by the checker: scripts of one client and one server, and what single steps
//! answer. It is a room because the model is checked here against rows that were worked by hand, before any law or code
//! leans on it. Nothing stands on it.
//!
//! Worked examples of the exchange model, computed: scripts of one client and one server, how each operation settles,
//! the order of each open that denies writers, the files that stay, and what single steps answer.
#![tactic(auto, unfolding(crate::specs::Computed::computed))]

ghost use Rattle.std.specs.Prelude.{◌≡◌, ℕ, List, [], ◌∷◌, ◌++◌, true, false, replicate};
ghost use Rattle.spec_exchange.specs.Operations.{Unsettled, NoSession, HadStatus, OpCreate, OpWrite, OpTime, OpRename};
ghost use Rattle.spec_exchange.specs.Operations.{OpRemove, WasOk, WasRefused, NoSlot, NoOpen, Unknown, SessionLost};
ghost use Rattle.spec_exchange.specs.Operations.{WithStatus, IsDone, Action, IsCount, IsContent, Length, Names};
ghost use Rattle.std.specs.Prelude.{Some, None};
ghost use Rattle.spec_exchange.specs.State.{Accept, Heard, End, SetUp, Connected, VolumeInfo, FileInfo, Listing};
ghost use Rattle.spec_exchange.specs.State.{Interfaces, ObjectId, DeleteRecord, RemoveRecord, CloseRecord, ExpireRecord};
ghost use Rattle.spec_exchange.specs.State.{VersionRecord, EpochRecord, CreateRecord};
ghost use Rattle.spec_exchange.specs.Commands.{Begins, Close, Create, Ioctl, ListDirectory, Lock, Logon, QueryFile, QueryVolume, Read, TreeConnect, Write, create_form, list_form, no_file, path_form, SetInfo, SetEnd, SetDelete, TreeDisconnect, Rename, SetPosition, SetMode};
ghost use Rattle.spec_exchange.specs.CheckOpen.{is_stale, get_object_id, query_interfaces};
ghost use Rattle.spec_exchange.specs.CheckSetup.{pipes_name};
ghost use Rattle.spec_exchange.specs.Listing.{matches};
ghost use Rattle.spec_exchange.specs.Step.{step};
ghost use Rattle.spec_exchange.specs.Effects.{next_open, deadline_behind};
ghost use Rattle.spec_exchange.specs.Fold.{recovered_from, recovery_records, with_record};
ghost use Rattle.spec_exchange.specs.Schedules.{course, Does, Links, Pushes, Settles as SettlesAll};
ghost use Rattle.spec_exchange.specs.Network.{Cut, Drop, Open, Restart, Wait, Finish, start};
ghost use Rattle.examples_exchange.specs.Servers.{one_session, session, from_client, ask, after_all, status_after};
ghost use Rattle.examples_exchange.specs.Servers.{body_after, records_after, files_after, binding, binding_logon, setup};
ghost use Rattle.examples_exchange.specs.Servers.{in_second, second_id, make, by_guid, lock_of, made_info, first_open};
ghost use Rattle.examples_exchange.specs.Servers.{second_open, with_full_journal, limited_to, counts_of, with_all_expired_guids};
ghost use Rattle.examples_exchange.specs.Servers.{second_session, ask_second, reconnect, unjudged, journal_stands, again, disk_again, on_second_tree, read_nothing, make_below, make_named, full_directory, full_directory_behind, marked_disk, both_marked_disk, moved_in_disk, held_disk};
ghost use Rattle.examples_exchange.specs.Servers.{on_pipes, with_next_tree, on_disk, epoch_on, version_on};
ghost use Rattle.examples_exchange.specs.Servers.{first_version_disk, make_with, closed_file, basic_to, basic_after, access_after, its_origin};
ghost use Rattle.examples_exchange.specs.Laws.{laws_hold};
ghost use Rattle.examples_exchange.specs.Scripts.{beginning, settings, stranger, worn_out, submit, settled_in};
ghost use Rattle.examples_exchange.specs.Scripts.{script_ends, note, acted_on, id_told, retried_create};
ghost use Rattle.examples_exchange.specs.Scripts.{retried_create_until_note, kept_refusal, kept_refusal_until_note};
ghost use Rattle.examples_exchange.specs.Scripts.{replaced_session, replaced_session_until_note, room_counted_once};
ghost use Rattle.examples_exchange.specs.Scripts.{room_counted_once_until_note, held_back_write};
ghost use Rattle.examples_exchange.specs.Scripts.{held_back_write_until_note, held_back_write_until_last};
ghost use Rattle.examples_exchange.specs.Scripts.{restart_persistent, crash_lost, crash_kept, restart_plain};
ghost use Rattle.examples_exchange.specs.Scripts.{all_slots_retried, shared_readers, denied_writer, delayed_reconnect};
ghost use Rattle.examples_exchange.specs.Scripts.{delayed_reconnect_until_note, delayed_reconnect_until_last};
ghost use Rattle.examples_exchange.specs.Scripts.{expired_open, open_before_expiry, expired_create, first_steps};
ghost use Rattle.examples_exchange.specs.Scripts.{end_of_file, gaps_are_zeros, listed_names, renamed_and_removed};
ghost use Rattle.examples_exchange.specs.Scripts.{denied_remover, retry_after_act, retried_close, held_back_end};
ghost use Rattle.examples_exchange.specs.Scripts.{held_back_end_until_note, refusal_adopts, refusal_adopts_until_note};
ghost use Rattle.examples_exchange.specs.Scripts.{restart_keeps_locks, restart_keeps_refused_locks, attached_again};
ghost use Rattle.examples_exchange.specs.Scripts.{plain_open_lost, later_write_waits, retried_overwrite};
ghost use Rattle.examples_exchange.specs.Scripts.{retried_overwrite_until_note, slot_not_used_again};
ghost use Rattle.examples_exchange.specs.Scripts.{slot_not_used_again_until_note, retried_rename};
ghost use Rattle.examples_exchange.specs.Scripts.{retried_rename_until_note, given_up_slots, files_by_bytes};
ghost use Rattle.examples_exchange.specs.Scripts.{repeated_behind_a_lock, repeated_on_a_directory, moment_behind};
ghost use Rattle.examples_exchange.specs.Scripts.{linked_at, taken_of, listings_unheard, listings_heard, listing_asks};
ghost use Rattle.examples_exchange.specs.Scripts.{is_out_behind, purse_behind, links_to};

/// A create is retried on a second channel, its open is closed, and the delayed first copy finds its guid: it acts once.
pub fn retried_create_example()
    ensures script_ends { script_ends 2 268435456 retried_create
        ≡ record {
          settled = WasOk (Action 2) ∷ WasOk IsDone ∷ [];
          printed = [] ∷ [];
          stored = record { path = (97 ∷ []); bytes = [] } ∷ [];
        } }
    ensures note { note 2 268435456 retried_create_until_note 0 ≡ record { status = 0xc000022a; acted = false } }
    ensures acts_1 { acted_on 2 268435456 retried_create 1 ≡ 1 }
    ensures acts_2 { acted_on 2 268435456 retried_create 2 ≡ 1 }
{}

/// A lock is refused, the range becomes free, and the delayed first copy is refused again by its slot.
pub fn kept_refusal_example()
    ensures script_ends { script_ends 2 268435456 kept_refusal
        ≡ record {
          settled = WasOk (Action 2) ∷ WasOk (Action 1) ∷ WasOk IsDone ∷ WasRefused 0xc0000055 ∷ WasOk IsDone
              ∷ WasOk IsDone ∷ [];
          printed = [];
          stored = record { path = (97 ∷ []); bytes = [] } ∷ [];
        } }
    ensures note { note 2 268435456 kept_refusal_until_note 0 ≡ record { status = 0xc0000055; acted = false } }
    ensures acts_3 { acted_on 2 268435456 kept_refusal 3 ≡ 1 }
    ensures acts_4 { acted_on 2 268435456 kept_refusal 4 ≡ 0 }
    ensures acts_5 { acted_on 2 268435456 kept_refusal 5 ≡ 1 }
    ensures acts_6 { acted_on 2 268435456 kept_refusal 6 ≡ 1 }
{}

/// A new session replaces the old one, and a copy of the old one that waits is script_ends so.
pub fn replaced_session_example()
    ensures script_ends { script_ends 2 268435456 replaced_session
        ≡ record {
          settled = WasOk (Action 2) ∷ WasOk (IsCount 3) ∷ [];
          printed = (2 ∷ []) ∷ [];
          stored = record { path = (97 ∷ []); bytes = (111 ∷ 108 ∷ 100 ∷ []) } ∷ [];
        } }
    ensures note { note 2 268435456 replaced_session_until_note 0 ≡ record { status = 0xc0000203; acted = false } }
    ensures acts_1 { acted_on 2 268435456 replaced_session 1 ≡ 1 }
    ensures acts_2 { acted_on 2 268435456 replaced_session 2 ≡ 1 }
{}

/// A write that fills the room is retried: its bytes are not counted twice, and the next write finds no room.
pub fn room_counted_once_example()
    ensures script_ends { script_ends 2 4 room_counted_once
        ≡ record {
          settled = WasOk (Action 2) ∷ WasOk (IsCount 4) ∷ WasRefused 0xc000007f ∷ [];
          printed = (2 ∷ 3 ∷ []) ∷ [];
          stored = record { path = (97 ∷ []); bytes = (97 ∷ 98 ∷ 99 ∷ 100 ∷ []) } ∷ [];
        } }
    ensures note { note 2 4 room_counted_once_until_note 1 ≡ record { status = 0x00000000; acted = false } }
    ensures acts_2 { acted_on 2 4 room_counted_once 2 ≡ 1 }
    ensures acts_3 { acted_on 2 4 room_counted_once 3 ≡ 0 }
{}

/// A write under an older sequence is held back and goes out again; the delayed copy of the other is held back too.
pub fn held_back_write_example()
    ensures script_ends { script_ends 3 268435456 held_back_write
        ≡ record {
          settled = WasOk (Action 2) ∷ WasOk (IsCount 1) ∷ WasOk (IsCount 1) ∷ [];
          printed = (2 ∷ 3 ∷ []) ∷ [];
          stored = record { path = (97 ∷ []); bytes = (97 ∷ 98 ∷ []) } ∷ [];
        } }
    ensures note_1 { note 3 268435456 held_back_write_until_note 2 ≡ record { status = 0xc0000467; acted = false } }
    ensures note_2 { note 3 268435456 held_back_write_until_last 0 ≡ record { status = 0xc0000467; acted = false } }
    ensures acts_2 { acted_on 3 268435456 held_back_write 2 ≡ 1 }
    ensures acts_3 { acted_on 3 268435456 held_back_write 3 ≡ 1 }
{}

/// The server restarts behind a persistent create whose reply is lost: the retry finds the same open.
pub fn restart_persistent_example()
    ensures script_ends { script_ends 1 268435456 restart_persistent ≡ record {
      settled = WasOk (Action 2) ∷ [];
      printed = [] ∷ [];
      stored = record { path = (97 ∷ []); bytes = [] } ∷ [];
    } }
    ensures acts_1 { acted_on 1 268435456 restart_persistent 1 ≡ 1 }
    ensures file { id_told 1 268435456 restart_persistent 1 ≡ 4294967297 }
{}

/// The server dies before it serves a persistent create: the retry makes the open.
pub fn crash_lost_example()
    ensures script_ends { script_ends 1 268435456 crash_lost ≡ record {
      settled = WasOk (Action 2) ∷ [];
      printed = [] ∷ [];
      stored = record { path = (97 ∷ []); bytes = [] } ∷ [];
    } }
    ensures acts_1 { acted_on 1 268435456 crash_lost 1 ≡ 1 }
    ensures file { id_told 1 268435456 crash_lost 1 ≡ 8589934593 }
{}

/// The server dies behind a persistent create whose records stand: the retry finds the same open.
pub fn crash_kept_example()
    ensures script_ends { script_ends 1 268435456 crash_kept ≡ record {
      settled = WasOk (Action 2) ∷ [];
      printed = [] ∷ [];
      stored = record { path = (97 ∷ []); bytes = [] } ∷ [];
    } }
    ensures acts_1 { acted_on 1 268435456 crash_kept 1 ≡ 1 }
    ensures file { id_told 1 268435456 crash_kept 1 ≡ 4294967297 }
{}

/// The server restarts behind a plain create: its session is lost, and the file stays.
pub fn restart_plain_example()
    ensures script_ends { script_ends 1 268435456 restart_plain ≡ record {
      settled = Unknown (SessionLost 1) ∷ [];
      printed = [];
      stored = record { path = (97 ∷ []); bytes = [] } ∷ [];
    } }
    ensures acts_1 { acted_on 1 268435456 restart_plain 1 ≡ 1 }
{}

/// Each of the sixty-four slots was retried in the session: the next lock finds none, and the next session has them again.
pub fn all_slots_retried_example()
    ensures { script_ends 2 268435456 all_slots_retried
        ≡ record {
          settled = WasOk (Action 2) ∷ WasOk IsDone ∷ WasOk IsDone ∷ WasOk IsDone ∷ WasOk IsDone ∷ WasOk IsDone
              ∷ WasOk IsDone ∷ WasOk IsDone ∷ WasOk IsDone ∷ WasOk IsDone ∷ WasOk IsDone ∷ WasOk IsDone ∷ WasOk IsDone
              ∷ WasOk IsDone ∷ WasOk IsDone ∷ WasOk IsDone ∷ WasOk IsDone ∷ WasOk IsDone ∷ WasOk IsDone ∷ WasOk IsDone
              ∷ WasOk IsDone ∷ WasOk IsDone ∷ WasOk IsDone ∷ WasOk IsDone ∷ WasOk IsDone ∷ WasOk IsDone ∷ WasOk IsDone
              ∷ WasOk IsDone ∷ WasOk IsDone ∷ WasOk IsDone ∷ WasOk IsDone ∷ WasOk IsDone ∷ WasOk IsDone ∷ WasOk IsDone
              ∷ WasOk IsDone ∷ WasOk IsDone ∷ WasOk IsDone ∷ WasOk IsDone ∷ WasOk IsDone ∷ WasOk IsDone ∷ WasOk IsDone
              ∷ WasOk IsDone ∷ WasOk IsDone ∷ WasOk IsDone ∷ WasOk IsDone ∷ WasOk IsDone ∷ WasOk IsDone ∷ WasOk IsDone
              ∷ WasOk IsDone ∷ WasOk IsDone ∷ WasOk IsDone ∷ WasOk IsDone ∷ WasOk IsDone ∷ WasOk IsDone ∷ WasOk IsDone
              ∷ WasOk IsDone ∷ WasOk IsDone ∷ WasOk IsDone ∷ WasOk IsDone ∷ WasOk IsDone ∷ WasOk IsDone ∷ WasOk IsDone
              ∷ WasOk IsDone ∷ WasOk IsDone ∷ WasOk IsDone ∷ NoSlot 1 ∷ WasOk IsDone ∷ [];
          printed = [] ∷ [];
          stored = record { path = (97 ∷ []); bytes = [] } ∷ [];
        } }
{}

/// Two opens that share with each other stand together.
pub fn shared_readers_example()
    ensures { script_ends 1 268435456 shared_readers ≡ record {
      settled = WasOk (Action 2) ∷ WasOk (Action 1) ∷ [];
      printed = [] ∷ [];
      stored = record { path = (97 ∷ []); bytes = [] } ∷ [];
    } }
{}

/// A writer is refused beside an open that shares no writing, and what hangs on it has no open.
pub fn denied_writer_example()
    ensures { script_ends 1 268435456 denied_writer
        ≡ record {
          settled = WasOk (Action 2) ∷ WasRefused 0xc0000043 ∷ NoOpen 2 ∷ [];
          printed = [] ∷ [];
          stored = record { path = (97 ∷ []); bytes = [] } ∷ [];
        } }
{}

/// A delayed request to attach an open lowers no sequence, and an older write behind it is held back.
pub fn delayed_reconnect_example()
    ensures script_ends { script_ends 3 268435456 delayed_reconnect
        ≡ record {
          settled = WasOk (Action 2) ∷ WasOk (IsCount 1) ∷ WasOk (IsCount 1) ∷ [];
          printed = (2 ∷ 3 ∷ []) ∷ [];
          stored = record { path = (97 ∷ []); bytes = (98 ∷ []) } ∷ [];
        } }
    ensures note_1 { note 3 268435456 delayed_reconnect_until_note 0 ≡ record { status = 0x00000000; acted = false } }
    ensures note_2 { note 3 268435456 delayed_reconnect_until_last 1 ≡ record { status = 0xc0000467; acted = false } }
    ensures acts_1 { acted_on 3 268435456 delayed_reconnect 1 ≡ 1 }
    ensures acts_2 { acted_on 3 268435456 delayed_reconnect 2 ≡ 1 }
    ensures acts_3 { acted_on 3 268435456 delayed_reconnect 3 ≡ 1 }
{}

/// A persistent open without a session expires: a write that may have acted is unknown, and the file can be opened anew.
pub fn expired_open_example()
    ensures script_ends { script_ends 1 268435456 expired_open
        ≡ record {
          settled = WasOk (Action 2) ∷ Unknown (WithStatus 0xc0000034) ∷ WasOk (Action 1) ∷ [];
          printed = (2 ∷ []) ∷ [] ∷ [];
          stored = record { path = (97 ∷ []); bytes = (97 ∷ []) } ∷ [];
        } }
    ensures acts_1 { acted_on 1 268435456 expired_open 1 ≡ 1 }
    ensures acts_2 { acted_on 1 268435456 expired_open 2 ≡ 1 }
    ensures acts_3 { acted_on 1 268435456 expired_open 3 ≡ 1 }
{}

/// Before its deadline the open stands, is attached again, and denies the other create.
pub fn open_before_expiry_example()
    ensures script_ends { script_ends 1 268435456 open_before_expiry
        ≡ record {
          settled = WasOk (Action 2) ∷ WasOk (IsCount 1) ∷ WasRefused 0xc0000043 ∷ [];
          printed = (2 ∷ []) ∷ [];
          stored = record { path = (97 ∷ []); bytes = (97 ∷ []) } ∷ [];
        } }
    ensures acts_2 { acted_on 1 268435456 open_before_expiry 2 ≡ 1 }
    ensures acts_3 { acted_on 1 268435456 open_before_expiry 3 ≡ 0 }
{}

/// A create whose reply is lost expires: its retry finds its guid expired, so it is unknown.
pub fn expired_create_example()
    ensures script_ends { script_ends 1 268435456 expired_create
        ≡ record {
          settled = Unknown (WithStatus 0xc000022a) ∷ [];
          printed = [];
          stored = record { path = (97 ∷ []); bytes = [] } ∷ [];
        } }
    ensures acts_1 { acted_on 1 268435456 expired_create 1 ≡ 1 }
{}

/// One connection creates, writes, reads and closes.
pub fn first_steps_example()
    ensures { script_ends 1 268435456 first_steps
        ≡ record {
          settled = WasOk (Action 2) ∷ WasOk (IsCount 5) ∷ WasOk (IsContent (104 ∷ 101 ∷ 108 ∷ 108 ∷ 111 ∷ []))
              ∷ WasOk IsDone ∷ [];
          printed = (2 ∷ 3 ∷ []) ∷ [];
          stored = record { path = (97 ∷ 46 ∷ 116 ∷ 120 ∷ 116 ∷ []); bytes = (104 ∷ 101 ∷ 108 ∷ 108 ∷ 111 ∷ []) } ∷ [];
        } }
{}

/// A read of no bytes at the end is a success, and one of a byte is END_OF_FILE.
pub fn end_of_file_example()
    ensures { script_ends 1 268435456 end_of_file
        ≡ record {
          settled = WasOk (Action 2) ∷ WasOk (IsCount 2) ∷ WasOk (IsContent []) ∷ WasRefused 0xc0000011 ∷ [];
          printed = (2 ∷ 3 ∷ 4 ∷ []) ∷ [];
          stored = record { path = (97 ∷ []); bytes = (97 ∷ 98 ∷ []) } ∷ [];
        } }
{}

/// A write behind the end fills the gap with zeros.
pub fn gaps_are_zeros_example()
    ensures { script_ends 1 268435456 gaps_are_zeros
        ≡ record {
          settled = WasOk (Action 2) ∷ WasOk (IsCount 1) ∷ WasOk (IsCount 1) ∷ [];
          printed = (2 ∷ 3 ∷ []) ∷ [];
          stored = record { path = (97 ∷ []); bytes = (0 ∷ 0 ∷ 0 ∷ 122 ∷ 123 ∷ []) } ∷ [];
        } }
{}

/// A directory lists its names in order; files of one path each.
pub fn listed_names_example()
    ensures { script_ends 1 268435456 listed_names
        ≡ record {
          settled = WasOk (Action 2) ∷ WasOk (Action 2) ∷ WasOk (Action 2)
              ∷ WasOk (Names ((97 ∷ []) ∷ (98 ∷ []) ∷ [])) ∷ [];
          printed = [] ∷ [] ∷ [] ∷ [];
          stored = record { path = (100 ∷ 92 ∷ 97 ∷ []); bytes = [] } ∷ record {
            path = (100 ∷ 92 ∷ 98 ∷ []);
            bytes = [];
          } ∷ [];
        } }
{}

/// A file is renamed, stamped and made delete pending, and goes with its last open.
pub fn renamed_and_removed_example()
    ensures { script_ends 1 268435456 renamed_and_removed
        ≡ record {
          settled = WasOk (Action 2) ∷ WasOk (IsCount 2) ∷ WasOk IsDone ∷ WasOk (Length 2) ∷ WasOk IsDone
              ∷ WasOk IsDone ∷ WasOk IsDone ∷ [];
          printed = (2 ∷ []) ∷ [];
          stored = [];
        } }
{}

/// An open that shares nothing keeps out who would delete.
pub fn denied_remover_example()
    ensures { script_ends 1 268435456 denied_remover
        ≡ record {
          settled = WasOk (Action 2) ∷ WasOk (Action 2) ∷ WasRefused 0xc0000043 ∷ NoOpen 3 ∷ [];
          printed = [] ∷ [] ∷ [];
          stored = record { path = (100 ∷ 92 ∷ 97 ∷ []); bytes = [] } ∷ [];
        } }
{}

/// A create acted and its reply is lost with its channel: the retry is given the same answer.
pub fn retry_after_act_example()
    ensures script_ends { script_ends 2 268435456 retry_after_act ≡ record {
      settled = WasOk (Action 2) ∷ [];
      printed = [] ∷ [];
      stored = record { path = (97 ∷ []); bytes = [] } ∷ [];
    } }
    ensures acts_1 { acted_on 2 268435456 retry_after_act 1 ≡ 1 }
{}

/// A close acted and its reply is lost: the retry finds no open, and the close is Ok.
pub fn retried_close_example()
    ensures script_ends { script_ends 2 268435456 retried_close
        ≡ record {
          settled = WasOk (Action 2) ∷ WasOk IsDone ∷ [];
          printed = [] ∷ [];
          stored = record { path = (97 ∷ []); bytes = [] } ∷ [];
        } }
    ensures acts_2 { acted_on 2 268435456 retried_close 2 ≡ 1 }
{}

/// A delayed end is held back, as a write is.
pub fn held_back_end_example()
    ensures script_ends { script_ends 2 268435456 held_back_end
        ≡ record {
          settled = WasOk (Action 2) ∷ WasOk IsDone ∷ WasOk IsDone ∷ [];
          printed = (2 ∷ 3 ∷ []) ∷ [];
          stored = record { path = (97 ∷ []); bytes = (0 ∷ 0 ∷ 0 ∷ []) } ∷ [];
        } }
    ensures note { note 2 268435456 held_back_end_until_note 0 ≡ record { status = 0xc0000467; acted = false } }
    ensures acts_2 { acted_on 2 268435456 held_back_end 2 ≡ 1 }
    ensures acts_3 { acted_on 2 268435456 held_back_end 3 ≡ 1 }
{}

/// A write that finds no room adopts its sequence all the same, so its delayed copy is held back.
pub fn refusal_adopts_example()
    ensures script_ends { script_ends 2 4 refusal_adopts
        ≡ record {
          settled = WasOk (Action 2) ∷ WasRefused 0xc000007f ∷ [];
          printed = (2 ∷ []) ∷ [];
          stored = record { path = (97 ∷ []); bytes = [] } ∷ [];
        } }
    ensures note { note 2 4 refusal_adopts_until_note 0 ≡ record { status = 0xc0000467; acted = false } }
    ensures acts_2 { acted_on 2 4 refusal_adopts 2 ≡ 0 }
{}

/// A lock acted and its reply is lost with the server: the retry is answered by its slot.
pub fn restart_keeps_locks_example()
    ensures script_ends { script_ends 1 268435456 restart_keeps_locks
        ≡ record {
          settled = WasOk (Action 2) ∷ WasOk IsDone ∷ [];
          printed = [] ∷ [];
          stored = record { path = (97 ∷ []); bytes = [] } ∷ [];
        } }
    ensures acts_2 { acted_on 1 268435456 restart_keeps_locks 2 ≡ 1 }
{}

/// A lock of a persistent open is refused, and a restart keeps that.
pub fn restart_keeps_refused_locks_example()
    ensures script_ends { script_ends 2 268435456 restart_keeps_refused_locks
        ≡ record {
          settled = WasOk (Action 2) ∷ WasOk (Action 1) ∷ WasOk IsDone ∷ WasRefused 0xc0000055 ∷ [];
          printed = [];
          stored = record { path = (97 ∷ []); bytes = [] } ∷ [];
        } }
    ensures acts_3 { acted_on 2 268435456 restart_keeps_refused_locks 3 ≡ 1 }
    ensures acts_4 { acted_on 2 268435456 restart_keeps_refused_locks 4 ≡ 0 }
{}

/// An open that is attached again has no deadline any more.
pub fn attached_again_example()
    ensures script_ends { script_ends 1 268435456 attached_again
        ≡ record {
          settled = WasOk (Action 2) ∷ WasOk (IsCount 1) ∷ WasOk (IsCount 1) ∷ [];
          printed = (2 ∷ 3 ∷ []) ∷ [];
          stored = record { path = (97 ∷ []); bytes = (98 ∷ []) } ∷ [];
        } }
    ensures acts_2 { acted_on 1 268435456 attached_again 2 ≡ 1 }
    ensures acts_3 { acted_on 1 268435456 attached_again 3 ≡ 1 }
{}

/// A plain open is lost with its session, and what comes later has no open.
pub fn plain_open_lost_example()
    ensures script_ends { script_ends 1 268435456 plain_open_lost
        ≡ record {
          settled = WasOk (Action 2) ∷ Unknown (SessionLost 1) ∷ NoOpen 1 ∷ NoOpen 1 ∷ [];
          printed = [] ∷ [];
          stored = record { path = (97 ∷ []); bytes = [] } ∷ [];
        } }
    ensures acts_2 { acted_on 1 268435456 plain_open_lost 2 ≡ 0 }
{}

/// A write waits for a lower one that overlaps it as long as that is unsettled, though no copy of it is outstanding.
pub fn later_write_waits_example()
    ensures script_ends { script_ends 3 268435456 later_write_waits
        ≡ record {
          settled = WasOk (Action 2) ∷ WasOk (IsCount 1) ∷ WasOk (IsCount 1) ∷ [];
          printed = (2 ∷ 3 ∷ []) ∷ [];
          stored = record { path = (97 ∷ []); bytes = (98 ∷ []) } ∷ [];
        } }
    ensures acts_2 { acted_on 3 268435456 later_write_waits 2 ≡ 1 }
    ensures acts_3 { acted_on 3 268435456 later_write_waits 3 ≡ 1 }
{}

/// A retried write that did not act before is carried out, though it lies within the file.
pub fn retried_overwrite_example()
    ensures script_ends { script_ends 2 268435456 retried_overwrite
        ≡ record {
          settled = WasOk (Action 2) ∷ WasOk (IsCount 2) ∷ WasOk (IsCount 1) ∷ [];
          printed = (2 ∷ 3 ∷ []) ∷ [];
          stored = record { path = (97 ∷ []); bytes = (98 ∷ 97 ∷ []) } ∷ [];
        } }
    ensures note { note 2 268435456 retried_overwrite_until_note 0 ≡ record { status = 0xc0000467; acted = false } }
    ensures acts_2 { acted_on 2 268435456 retried_overwrite 2 ≡ 1 }
    ensures acts_3 { acted_on 2 268435456 retried_overwrite 3 ≡ 1 }
{}

/// A slot whose lock was retried is used no more in the session, so the delayed copy of that lock is answered by it.
pub fn slot_not_used_again_example()
    ensures script_ends { script_ends 2 268435456 slot_not_used_again
        ≡ record {
          settled = WasOk (Action 2) ∷ WasOk IsDone ∷ WasOk IsDone ∷ [];
          printed = [] ∷ [];
          stored = record { path = (97 ∷ []); bytes = [] } ∷ [];
        } }
    ensures note { note 2 268435456 slot_not_used_again_until_note 0 ≡ record { status = 0x00000000; acted = false } }
    ensures acts_2 { acted_on 2 268435456 slot_not_used_again 2 ≡ 1 }
    ensures acts_3 { acted_on 2 268435456 slot_not_used_again 3 ≡ 1 }
{}

/// The slot of a lock that was given up is used no more, so a later lock never has the number of one that the slot keeps: the
/// last of these locks acts, and it has a slot that no lock before it had.
pub fn given_up_slot_not_used_again_example()
    ensures settled { (course 1 given_up_slots (beginning 268435456)).world.client.outcome 18 ≡ WasOk IsDone }
    ensures given_up { (course 1 given_up_slots (beginning 268435456)).world.client.outcome 17 ≡ Unknown (NoSession (HadStatus 1)) }
    ensures slot { (course 1 given_up_slots (beginning 268435456)).world.client.slot_of 18 ≡ 16 }
    ensures acts_2 { acted_on 1 268435456 given_up_slots 2 ≡ 1 }
    ensures acts_3 { acted_on 1 268435456 given_up_slots 3 ≡ 0 }
    ensures acts_18 { acted_on 1 268435456 given_up_slots 18 ≡ 1 }
{}

/// A rename acted and its reply is lost: the retry finds the file under that very name, and is Ok.
pub fn retried_rename_example()
    ensures script_ends { script_ends 2 268435456 retried_rename
        ≡ record {
          settled = WasOk (Action 2) ∷ WasOk IsDone ∷ [];
          printed = [] ∷ [];
          stored = record { path = (98 ∷ []); bytes = [] } ∷ [];
        } }
    ensures note { note 2 268435456 retried_rename_until_note 1 ≡ record { status = 0x00000000; acted = false } }
{}

/// The files are script_ends in byte order of their paths: B stands before a.
pub fn files_by_bytes_example()
    ensures script_ends { script_ends 1 268435456 files_by_bytes
        ≡ record {
          settled = WasOk (Action 2) ∷ WasOk (Action 2) ∷ [];
          printed = [] ∷ [] ∷ [];
          stored = record { path = (66 ∷ []); bytes = [] } ∷ record { path = (97 ∷ []); bytes = [] } ∷ [];
        } }
{}

/// A write acted and is unheard, a shared lock comes over its range, and its second copy is script_ends that it is done.
pub fn repeated_behind_a_lock_example()
    ensures script_ends { script_ends 2 268435456 repeated_behind_a_lock
        ≡ record {
          settled = WasOk (Action 2) ∷ WasOk (IsCount 1) ∷ WasOk IsDone ∷ [];
          printed = (2 ∷ []) ∷ [];
          stored = record { path = (97 ∷ []); bytes = (97 ∷ []) } ∷ [];
        } }
    ensures acts_2 { acted_on 2 268435456 repeated_behind_a_lock 2 ≡ 1 }
{}

/// A directory's rename and its removal acted and are heard at their second copies alone.
pub fn repeated_on_a_directory_example()
    ensures renamed { settled_in (course 2 (repeated_on_a_directory (OpRename 1 (101 ∷ []))) (beginning 268435456))
        ≡ WasOk (Action 2) ∷ WasOk IsDone ∷ [] }
    ensures removed { settled_in (course 2 (repeated_on_a_directory (OpRemove 1)) (beginning 268435456))
        ≡ WasOk (Action 2) ∷ WasOk IsDone ∷ [] }
    ensures renamed_once { acted_on 2 268435456 (repeated_on_a_directory (OpRename 1 (101 ∷ []))) 2 ≡ 1 }
    ensures removed_once { acted_on 2 268435456 (repeated_on_a_directory (OpRemove 1)) 2 ≡ 1 }
{}

/// A replayed change that would change nothing needs its access all the same.
pub fn repeated_without_access_example()
    ensures end { status_after one_session (ask (make 0x81 7 2 0x40 None) ∷ []) (again (SetInfo first_open (SetEnd 0))) ≡ 0xc000_0022 }
    ensures write { status_after one_session (ask (make 0x81 7 2 0x40 None) ∷ []) (again (Write first_open 0 [] 0)) ≡ 0xc000_0022 }
    ensures delete_pending { status_after one_session (ask (make 0x81 7 2 0x40 None) ∷ []) (again (SetInfo first_open (SetDelete false)))
        ≡ 0xc000_0022 }
    ensures with_access { status_after one_session (ask (make 0x183 7 2 0x40 None) ∷ []) (again (SetInfo first_open (SetEnd 0)))
        ≡ 0x0000_0000 }
{}

/// On the pipes' share each CREATE is OBJECT_NAME_NOT_FOUND, whatever it carries, and nothing is kept or counted of it.
pub fn pipes_keep_nothing_example()
    ensures durable { status_after one_session (ask (TreeConnect pipes_name) ∷ []) (on_pipes (make 0x183 7 2 0x40 (by_guid 5 true)))
        ≡ 0xc000_0034 }
    ensures known_guid { status_after one_session (ask (TreeConnect pipes_name) ∷ ask (make 0x183 7 2 0x40 (by_guid 5 true)) ∷ [])
        (on_pipes (make 0x183 7 2 0x40 (by_guid 5 true))) ≡ 0xc000_0034 }
    ensures attach { status_after one_session (ask (TreeConnect pipes_name) ∷ ask (make 0x183 7 2 0x40 (by_guid 5 true)) ∷ [])
        (on_pipes (reconnect first_open 5)) ≡ 0xc000_0034 }
    ensures unkept { (after_all one_session 100 (ask (TreeConnect pipes_name) ∷ on_pipes (make 0x183 7 2 0x40 (by_guid 5 true))
        ∷ [])).refused session 5 ≡ None }
    ensures uncounted { (after_all one_session 100 (ask (TreeConnect pipes_name) ∷ on_pipes (make 0x183 7 2 0x40 (by_guid 5 true))
        ∷ [])).guids session ≡ 0 }
    ensures on_the_disk { status_after one_session (ask (TreeConnect pipes_name) ∷ on_pipes (make 0x183 7 2 0x40 (by_guid 5 true)) ∷ [])
        (ask (make 0x183 7 2 0x40 (by_guid 5 true))) ≡ 0x0000_0000 }
{}

/// Thirty-two listings of 16 credits each take all that a channel holds: the thirty-third goes out once one was heard.
pub fn push_pays_from_the_purse_example()
    ensures last_paid { is_out_behind listings_unheard 33 ≡ true }
    ensures unpaid { is_out_behind listings_unheard 34 ≡ false }
    ensures spent { purse_behind listings_unheard ≡ 0 }
    ensures given_back { is_out_behind listings_heard 34 ≡ true }
    ensures asks { is_out_behind listing_asks 2 ≡ true }
    ensures asks_for_one { purse_behind listing_asks ≡ 511 }
{}

/// A further channel is bound by a signed request of the session's own client, on another connection.
pub fn binding_refusals_example()
    ensures unsigned { status_after one_session (Accept 1 ∷ []) (Heard (from_client 1 7 3 0 false (binding false))) ≡ 0xc000000d }
    ensures another_client { status_after one_session (Accept 1 ∷ []) (Heard (from_client 1 8 3 0 false (binding true))) ≡ 0xc0000203 }
    ensures same_connection { status_after one_session (Accept 1 ∷ []) (Heard (from_client 0 7 3 0 false (binding true))) ≡ 0xc00000d0 }
    ensures begins { status_after one_session (Accept 1 ∷ []) (Heard (from_client 1 7 3 0 false (binding true))) ≡ 0xc0000016 }
{}

/// Sequences are older by their difference modulo 65,536.
pub fn stale_sequences_example()
    ensures next { is_stale 0 65535 ≡ false }
    ensures half { is_stale 32768 0 ≡ true }
    ensures before_half { is_stale 32767 0 ≡ false }
    ensures same { is_stale 32767 32767 ≡ false }
    ensures back { is_stale 0 32767 ≡ true }
{}

/// The CreateGuid of a live open is answered again with the replay flag alone, and that of a closed open never.
pub fn guid_of_a_closed_open_example()
    ensures live_replayed { status_after one_session (ask (make 0x183 0 2 0x40 (by_guid 5 false)) ∷ [])
        (Heard (from_client 0 7 9 0 true (make 0x183 0 2 0x40 (by_guid 5 false)))) ≡ 0 }
    ensures live_repeated { status_after one_session (ask (make 0x183 0 2 0x40 (by_guid 5 false)) ∷ [])
        (ask (make 0x183 0 2 0x40 (by_guid 5 false))) ≡ 0xc000022a }
    ensures closed { status_after one_session (ask (make 0x183 0 2 0x40 (by_guid 5 false)) ∷ ask (Close first_open false) ∷ [])
        (Heard (from_client 0 7 9 0 true (make 0x183 0 2 0x40 (by_guid 5 false)))) ≡ 0xc000022a }
{}

/// A refused create is refused again by its CreateGuid, though what refused it is gone.
pub fn kept_create_refusal_example()
    ensures denied { status_after one_session (ask (make 0x183 0 2 0x40 (by_guid 5 false)) ∷ [])
        (ask (make 0x183 0 1 0x40 (by_guid 6 false))) ≡ 0xc0000043 }
    ensures again { status_after one_session (ask (make 0x183 0 2 0x40 (by_guid 5 false))
        ∷ ask (make 0x183 0 1 0x40 (by_guid 6 false)) ∷ ask (Close first_open false) ∷ [])
        (Heard (from_client 0 7 9 0 true (make 0x183 0 1 0x40 (by_guid 6 false)))) ≡ 0xc0000043 }
    ensures another_guid { status_after one_session (ask (make 0x183 0 2 0x40 (by_guid 5 false))
        ∷ ask (make 0x183 0 1 0x40 (by_guid 6 false)) ∷ ask (Close first_open false) ∷ [])
        (ask (make 0x183 0 1 0x40 (by_guid 7 false))) ≡ 0 }
{}

/// Nobody empties a file under an open that denies writers.
pub fn emptying_asks_for_writing_example()
    ensures opened { status_after one_session (ask (make 0x81 1 2 0x40 None) ∷ []) (ask (make 0x81 1 1 0x40 None)) ≡ 0 }
    ensures denier_beside_writer { status_after one_session (ask (make 0x183 7 2 0x40 None) ∷ []) (ask (make 0x81 1 1 0x40 None))
        ≡ 0xc0000043 }
    ensures overwritten { status_after one_session (ask (make 0x81 1 2 0x40 None) ∷ []) (ask (make 0x81 1 4 0x40 None)) ≡ 0xc0000043 }
    ensures superseded { status_after one_session (ask (make 0x81 1 2 0x40 None) ∷ []) (ask (make 0x81 1 0 0x40 None)) ≡ 0xc0000043 }
{}

/// An open that deletes on close makes its file delete pending where it leaves, and the file goes with its last open.
pub fn delete_on_close_example()
    ensures pending { status_after one_session (ask (make 0x10183 7 2 0x1040 None) ∷ ask (make 0x10081 7 1 0x40 None)
        ∷ ask (Close first_open false) ∷ []) (ask (make 0x81 7 1 0x40 None)) ≡ 0xc0000056 }
    ensures stays { files_after one_session (ask (make 0x10183 7 2 0x1040 None) ∷ ask (make 0x10081 7 1 0x40 None)
        ∷ ask (Close first_open false) ∷ []) ≡ 1 }
    ensures goes { files_after one_session (ask (make 0x10183 7 2 0x1040 None) ∷ ask (make 0x10081 7 1 0x40 None)
        ∷ ask (Close first_open false) ∷ ask (Close second_open false) ∷ []) ≡ 0 }
    ensures access { status_after one_session [] (ask (make 0x183 7 2 0x1040 None)) ≡ 0xc0000022 }
{}

/// A file that a CREATE makes or empties has the attributes among 3127 that are asked for, and ARCHIVE; a directory those that
/// are asked for, without ARCHIVE and NORMAL (MS-FSA 2.1.5.1.1, 2.1.5.1.2.1). One that is opened keeps its own.
pub fn attributes_of_a_create_example()
    ensures made { (basic_after one_session (ask (make_with 0x80 0x183 7 2 0x40 None) ∷ [])).attributes ≡ 0x20 }
    ensures all { (basic_after one_session (ask (make_with 0xffffffff 0x183 7 2 0x40 None) ∷ [])).attributes ≡ 0x3127 }
    ensures overwritten { (basic_after one_session (closed_file 0x1000 ++ ask (make_with 0x82 0x183 7 5 0x40 None) ∷ [])).attributes ≡ 0x22 }
    ensures superseded { (basic_after one_session (closed_file 0x1000 ++ ask (make_with 0x2010 0x183 7 0 0x40 None) ∷ [])).attributes
        ≡ 0x2020 }
    ensures opened { (basic_after one_session (closed_file 0x1000 ++ ask (make_with 0x4 0x183 7 3 0x40 None) ∷ [])).attributes ≡ 0x1020 }
    ensures directory { (basic_after one_session (ask (make_with 0x20b2 0x81 7 2 0x1 None) ∷ [])).attributes ≡ 0x2012 }
    ensures temporary { status_after one_session [] (ask (make_with 0x100 0x81 7 2 0x1 None)) ≡ 0xc000000d }
    ensures temporary_file { status_after one_session [] (ask (make_with 0x100 0x81 7 2 0x40 None)) ≡ 0 }
    ensures written { (basic_after one_session (ask (make_with 0 0x183 7 2 0x40 None) ∷ ask (basic_to first_open 0x80 0)
        ∷ ask (Write first_open 0 (97 ∷ []) 0) ∷ [])).attributes ≡ 0 }
{}

/// The record of a CREATE has the attributes that the file has behind it. A fold stores those of the record, also where a
/// journal of before tells what was asked for.
pub fn attributes_of_a_record_example()
    ensures made { records_after one_session [] (ask (make_with 0x82 0x183 7 2 0x40 None))
        ≡ CreateRecord (record { session = session; connection = 0; message = 9 }) 2 1 (97 ∷ []) 0x22 false 200 None ∷ [] }
    ensures directory { records_after one_session [] (ask (make_with 0xa2 0x81 7 2 0x1 None))
        ≡ CreateRecord (record { session = session; connection = 0; message = 9 }) 2 1 (97 ∷ []) 0x2 true 200 None ∷ [] }
    ensures opened { records_after one_session (closed_file 0x1000) (ask (make_with 0x4 0x81 7 1 0x40 (by_guid 5 true)))
        ≡ CreateRecord (record { session = session; connection = 0; message = 9 }) 1 1 (97 ∷ []) 0x1020 false 200 (Some (record {
          id = second_open;
          client_guid = 7;
          create_guid = 5;
          user = 117 ∷ [];
          access = 0x81;
          share = 7;
          options = 0x40;
          timeout = 60000;
        })) ∷ [] }
    ensures most { records_after one_session (closed_file 0x1) (ask (make_with 0 0x2000000 7 1 0x40 (by_guid 5 true)))
        ≡ CreateRecord (record { session = session; connection = 0; message = 9 }) 1 1 (97 ∷ []) 0x21 false 200 (Some (record {
          id = second_open;
          client_guid = 7;
          create_guid = 5;
          user = 117 ∷ [];
          access = 0x1f01f9;
          share = 7;
          options = 0x40;
          timeout = 60000;
        })) ∷ [] }
    ensures told_before { ((with_record one_session (CreateRecord its_origin 2 1 (97 ∷ []) 0x480 false 50 None)).basic 1).attributes ≡ 0x480 }
{}

/// A file that is HIDDEN or SYSTEM is emptied by a request that names the bit; names and kinds are judged before, sharing behind.
pub fn hidden_overwritten_example()
    ensures hidden { status_after one_session (closed_file 0x2) (ask (make_with 0x4 0x183 7 5 0x40 None)) ≡ 0xc0000022 }
    ensures system { status_after one_session (closed_file 0x4) (ask (make_with 0x2 0x183 7 4 0x40 None)) ≡ 0xc0000022 }
    ensures superseded { status_after one_session (closed_file 0x6) (ask (make_with 0x4 0x183 7 0 0x40 None)) ≡ 0xc0000022 }
    ensures named { status_after one_session (closed_file 0x6) (ask (make_with 0x6 0x183 7 5 0x40 None)) ≡ 0 }
    ensures opened { status_after one_session (closed_file 0x6) (ask (make_with 0 0x183 7 1 0x40 None)) ≡ 0 }
    ensures behind_names { status_after one_session (closed_file 0x2) (ask (make_with 0 0x183 7 5 0x1 None)) ≡ 0xc0000103 }
    ensures before_sharing { status_after one_session (ask (make_with 0x2 0x183 0 2 0x40 None) ∷ [])
        (ask (make_with 0 0x183 7 5 0x40 None)) ≡ 0xc0000022 }
{}

/// A read-only file is neither opened to write nor emptied, and doesn't go; its maximal access leaves out to write. Who makes
/// it may write.
pub fn read_only_file_example()
    ensures write { status_after one_session (closed_file 0x1) (ask (make_with 0 0x2 7 1 0x40 None)) ≡ 0xc0000022 }
    ensures append { status_after one_session (closed_file 0x1) (ask (make_with 0 0x4 7 1 0x40 None)) ≡ 0xc0000022 }
    ensures mapped { status_after one_session (closed_file 0x1) (ask (make_with 0 0x40000000 7 1 0x40 None)) ≡ 0xc0000022 }
    ensures read { status_after one_session (closed_file 0x1) (ask (make_with 0 0x80000000 7 1 0x40 None)) ≡ 0 }
    ensures most { access_after one_session (closed_file 0x1 ++ ask (make_with 0 0x2000000 7 1 0x40 None) ∷ []) second_open ≡ 0x1f01f9 }
    ensures most_of_another { access_after one_session (closed_file 0x2 ++ ask (make_with 0 0x2000000 7 1 0x40 None) ∷ []) second_open
        ≡ 0x1f01ff }
    ensures most_and_write { status_after one_session (closed_file 0x1) (ask (make_with 0 0x2000002 7 1 0x40 None)) ≡ 0xc0000022 }
    ensures emptied { status_after one_session (closed_file 0x1) (ask (make_with 0x1 0x81 7 5 0x40 None)) ≡ 0xc0000022 }
    ensures closes { status_after one_session (closed_file 0x1) (ask (make_with 0 0x10081 7 1 0x1040 None)) ≡ 0xc0000121 }
    ensures made_to_go { status_after one_session [] (ask (make_with 0x1 0x10081 7 2 0x1040 None)) ≡ 0xc0000121 }
    ensures directory { status_after one_session [] (ask (make_with 0x1 0x10081 7 2 0x1001 None)) ≡ 0 }
    ensures marked { status_after one_session (closed_file 0x1 ++ ask (make_with 0 0x10081 7 1 0x40 None) ∷ [])
        (ask (SetInfo second_open (SetDelete true))) ≡ 0xc0000121 }
    ensures unmarked { status_after one_session (closed_file 0x1 ++ ask (make_with 0 0x10081 7 1 0x40 None) ∷ [])
        (ask (SetInfo second_open (SetDelete false))) ≡ 0 }
    ensures directory_marked { status_after one_session (ask (make_with 0x1 0x10081 7 2 0x1 None) ∷ [])
        (ask (SetInfo first_open (SetDelete true))) ≡ 0 }
    ensures own { status_after one_session (ask (make_with 0x1 0x183 7 2 0x40 None) ∷ []) (ask (Write first_open 0 (97 ∷ []) 0)) ≡ 0 }
    ensures kept { status_after one_session (closed_file 0x1 ++ ask (make_with 0 0x2 7 1 0x40 (by_guid 5 false))
        ∷ ask (make_with 0 0x180 7 1 0x40 None) ∷ ask (basic_to second_open 0x80 0) ∷ [])
        (ask (make_with 0 0x2 7 1 0x40 (by_guid 5 false))) ≡ 0xc0000022 }
{}

/// Attributes of 0 stay and NORMAL alone takes all away; times of 0, -1 and -2 stay, and none is below -2. No directory is
/// TEMPORARY, and no file a DIRECTORY.
pub fn basic_setting_example()
    ensures stays { (basic_after one_session (ask (make_with 0x2 0x183 7 2 0x40 None) ∷ ask (basic_to first_open 0 0) ∷ [])).attributes
        ≡ 0x22 }
    ensures taken_away { (basic_after one_session (ask (make_with 0x2 0x183 7 2 0x40 None) ∷ ask (basic_to first_open 0x80 0)
        ∷ [])).attributes ≡ 0 }
    ensures normal_and_more { (basic_after one_session (ask (make_with 0x2 0x183 7 2 0x40 None) ∷ ask (basic_to first_open 0x81 0)
        ∷ [])).attributes ≡ 0x81 }
    ensures minus_one { (basic_after one_session (ask (make_with 0 0x183 7 2 0x40 None) ∷ ask (basic_to first_open 0 0xffffffffffffffff)
        ∷ [])).created ≡ 100 }
    ensures minus_two { (basic_after one_session (ask (make_with 0 0x183 7 2 0x40 None) ∷ ask (basic_to first_open 0 0xfffffffffffffffe)
        ∷ [])).created ≡ 100 }
    ensures minus_three { status_after one_session (ask (make_with 0 0x183 7 2 0x40 None) ∷ [])
        (ask (basic_to first_open 0 0xfffffffffffffffd)) ≡ 0xc000000d }
    ensures least { status_after one_session (ask (make_with 0 0x183 7 2 0x40 None) ∷ [])
        (ask (basic_to first_open 0 0x8000000000000000)) ≡ 0xc000000d }
    ensures most { (basic_after one_session (ask (make_with 0 0x183 7 2 0x40 None) ∷ ask (basic_to first_open 0 0x7fffffffffffffff)
        ∷ [])).created ≡ 0x7fffffffffffffff }
    ensures file_as_directory { status_after one_session (ask (make_with 0 0x183 7 2 0x40 None) ∷ []) (ask (basic_to first_open 0x10 0))
        ≡ 0xc000000d }
    ensures temporary_directory { status_after one_session (ask (make_with 0 0x183 7 2 0x1 None) ∷ []) (ask (basic_to first_open 0x100 0))
        ≡ 0xc000000d }
    ensures temporary_file { status_after one_session (ask (make_with 0 0x183 7 2 0x40 None) ∷ []) (ask (basic_to first_open 0x100 0)) ≡ 0 }
    ensures directory { status_after one_session (ask (make_with 0 0x183 7 2 0x1 None) ∷ []) (ask (basic_to first_open 0x10 0)) ≡ 0 }
    ensures access_before { status_after one_session (ask (make_with 0 0x81 7 2 0x40 None) ∷ []) (ask (basic_to first_open 0x10 0))
        ≡ 0xc0000022 }
{}

/// A directory that is marked for deletion takes no new name, and where its last open leaves while something stands in it, it
/// stays without its mark.
pub fn a_full_directory_stays_example()
    ensures marked { records_after one_session full_directory (ask (Close first_open false))
        ≡ DeleteRecord (record { session = session; connection = 0; message = 9 }) 1 true ∷ [] }
    ensures no_new_name { status_after one_session (full_directory ++ ask (Close first_open false) ∷ []) (ask (make_below 99 0x81 2))
        ≡ 0xc0000056 }
    ensures no_name { status_after one_session (full_directory ++ ask (Close first_open false) ∷ []) (ask (make_below 98 0x81 1))
        ≡ 0xc0000056 }
    ensures no_rename { status_after one_session (ask (make_named 100) ∷ full_directory_behind ++ ask (Close second_open false) ∷ [])
        (ask (SetInfo first_open (Rename false (97 ∷ 92 ∷ 100 ∷ [])))) ≡ 0xc0000056 }
    ensures cleared { records_after one_session (full_directory ++ ask (Close first_open false) ∷ []) (ask (Close second_open false))
        ≡ DeleteRecord (record { session = session; connection = 0; message = 9 }) 1 false ∷ [] }
    ensures stays { files_after one_session (full_directory ++ ask (Close first_open false) ∷ ask (Close second_open false) ∷ []) ≡ 2 }
    ensures new_name { status_after one_session (full_directory ++ ask (Close first_open false) ∷ ask (Close second_open false) ∷ [])
        (ask (make_below 99 0x81 2)) ≡ 0 }
    ensures marked_and_cleared { records_after one_session (full_directory ++ ask (Close second_open false) ∷ []) (ask (Close first_open false))
        ≡ DeleteRecord (record { session = session; connection = 0; message = 9 }) 1 true
        ∷ DeleteRecord (record { session = session; connection = 0; message = 9 }) 1 false ∷ [] }
    ensures goes_when_empty { files_after one_session (full_directory ++ ask (Close first_open false) ∷ ask (Close second_open false)
        ∷ ask (make_below 98 0x10081 1) ∷ ask (SetInfo 4294967300 (SetDelete true)) ∷ ask (Close 4294967300 false)
        ∷ ask (make 0x10081 7 1 0x1001 None) ∷ ask (Close 4294967301 false) ∷ []) ≡ 0 }
{}

/// A start clears the mark of a directory that has no open and can't go with the new epoch: one in which something stood when
/// its turn came, by its number.
pub fn marks_at_a_start_example()
    ensures cleared { recovery_records marked_disk ≡ EpochRecord 2 ∷ DeleteRecord (record { session = 0; connection = 0; message = 0 }) 1 false ∷ [] }
    ensures again { (on_disk (marked_disk ++ recovery_records marked_disk)).delete_pending 1 ≡ false }
    ensures its_turn { recovery_records both_marked_disk
        ≡ EpochRecord 2 ∷ DeleteRecord (record { session = 0; connection = 0; message = 0 }) 1 false ∷ [] }
    ensures its_turn_left { (on_disk both_marked_disk).entries ≡ record { file = 1; path = 97 ∷ [] } ∷ [] }
    ensures all_go { recovery_records moved_in_disk ≡ EpochRecord 2 ∷ [] }
    ensures none_left { (on_disk moved_in_disk).entries ≡ [] }
    ensures held { recovery_records held_disk ≡ EpochRecord 2 ∷ [] }
    ensures held_pending { (on_disk held_disk).delete_pending 1 ≡ true }
    ensures expired { (step (step (on_disk held_disk) 0 (Accept 0)).server 600000000 (Accept 1)).records
        ≡ ExpireRecord (record { session = 0; connection = 1; message = 0 }) first_open
        ∷ DeleteRecord (record { session = 0; connection = 1; message = 0 }) 1 false ∷ [] }
{}

/// A plain close owes the flag and the removal, and one that leaves nothing owes no record.
pub fn records_of_a_close_example()
    ensures delete_pending { records_after one_session (ask (make 0x10183 7 2 0x1040 None) ∷ []) (ask (Close first_open false))
        ≡ DeleteRecord (record { session = session; connection = 0; message = 9 }) 1 true
        ∷ RemoveRecord (record { session = session; connection = 0; message = 9 }) 1 ∷ [] }
    ensures plain { records_after one_session (ask (make 0x183 7 2 0x40 None) ∷ []) (ask (Close first_open false)) ≡ [] }
    ensures persistent { records_after one_session (ask (make 0x183 7 2 0x40 (by_guid 5 true)) ∷ [])
        (ask (Close first_open false))
        ≡ CloseRecord (record { session = session; connection = 0; message = 9 }) first_open ∷ [] }
{}

/// A lock is refused beside an overlapping range, of the same open too; a range of no bytes overlaps nothing; an unlock
/// takes one equal range.
pub fn ranges_and_slots_example()
    ensures overlap { status_after one_session (ask (make 0x183 7 2 0x40 None) ∷ ask (Lock first_open 0 0 (lock_of 0 0 10 2 0 ∷ []))
        ∷ []) (ask (Lock first_open 0 0 (lock_of 0 9 1 1 0 ∷ []))) ≡ 0xc0000055 }
    ensures apart { status_after one_session (ask (make 0x183 7 2 0x40 None) ∷ ask (Lock first_open 0 0 (lock_of 0 0 10 2 0 ∷ []))
        ∷ []) (ask (Lock first_open 0 0 (lock_of 0 10 1 2 0 ∷ []))) ≡ 0 }
    ensures no_bytes { status_after one_session (ask (make 0x183 7 2 0x40 None) ∷ ask (Lock first_open 0 0 (lock_of 0 0 10 2 0 ∷ []))
        ∷ []) (ask (Lock first_open 0 0 (lock_of 0 5 0 2 0 ∷ []))) ≡ 0 }
    ensures shared_twice { status_after one_session
        (ask (make 0x183 7 2 0x40 None) ∷ ask (Lock first_open 0 0 (lock_of 0 0 10 1 0 ∷ lock_of 0 0 10 1 0 ∷ []))
        ∷ ask (Lock first_open 0 0 (lock_of 0 0 10 4 0 ∷ [])) ∷ [])
        (ask (Lock first_open 0 0 (lock_of 0 0 10 4 0 ∷ []))) ≡ 0 }
    ensures not_locked { status_after one_session (ask (make 0x183 7 2 0x40 None) ∷ ask (Lock first_open 0 0 (lock_of 0 0 10 1 0 ∷ []))
        ∷ ask (Lock first_open 0 0 (lock_of 0 0 10 4 0 ∷ [])) ∷ [])
        (ask (Lock first_open 0 0 (lock_of 0 0 10 4 0 ∷ []))) ≡ 0xc000007e }
    ensures all_or_nothing { status_after one_session
        (ask (make 0x183 7 2 0x40 None) ∷ ask (Lock first_open 0 0 (lock_of 0 0 1 2 0 ∷ lock_of 0 0 1 2 0 ∷ [])) ∷ [])
        (ask (Lock first_open 0 0 (lock_of 0 0 1 2 0 ∷ []))) ≡ 0 }
    ensures kept { status_after one_session
        (ask (make 0x183 7 2 0x40 None) ∷ ask (Lock first_open 3 0 (lock_of 0 0 1 4 0 ∷ []))
        ∷ ask (Lock first_open 4 0 (lock_of 0 0 1 2 0 ∷ [])) ∷ []) (ask (Lock first_open 3 0 (lock_of 0 0 1 4 0 ∷ [])))
        ≡ 0xc000007e }
    ensures mixed { status_after one_session (ask (make 0x183 7 2 0x40 None) ∷ [])
        (ask (Lock first_open 3 0 (lock_of 0 0 1 4 0 ∷ lock_of 0 0 1 2 0 ∷ []))) ≡ 0xc000000d }
    ensures past_the_end { status_after one_session (ask (make 0x183 7 2 0x40 None) ∷ [])
        (ask (Lock first_open 3 0 (lock_of 0 18446744073709551615 2 2 0 ∷ []))) ≡ 0xc00001a1 }
{}

/// Where no record fits, a create is refused and kept so, and a session ends all the same, its files staying as they are.
pub fn full_journal_example()
    ensures create { status_after (with_full_journal one_session) [] (ask (make 0x183 7 2 0x40 (by_guid 5 false))) ≡ 0xc000007f }
    ensures no_record { status_after (with_full_journal (after_all one_session 50 (ask (make 0x10183 7 2 0x1040 None) ∷ []))) []
        (ask (make 0x81 7 1 0x40 None)) ≡ 0 }
    ensures close { status_after (with_full_journal (after_all one_session 50 (ask (make 0x10183 7 2 0x1040 None) ∷ []))) []
        (ask (Close first_open false)) ≡ 0xc000007f }
    ensures end { status_after (with_full_journal (after_all one_session 50 (ask (make 0x10183 7 2 0x1040 None) ∷ []))) [] (End 0) ≡ 0 }
    ensures stays { files_after (with_full_journal (after_all one_session 50 (ask (make 0x10183 7 2 0x1040 None) ∷ []))) (End 0 ∷ []) ≡ 1 }
    ensures goes { files_after one_session (ask (make 0x10183 7 2 0x1040 None) ∷ End 0 ∷ []) ≡ 0 }
{}

/// What the records of events may fill is the server's own limit. A start left 24 bytes, and a create's record of a file with a
/// name of one letter takes 51, in a body of 56: at 80 it fits, and at less it is refused and leaves the state as it was. What
/// writes no record goes on at any limit.
pub fn limited_journal_example()
    ensures fits { status_after (limited_to 80 one_session) [] (ask (make 0x183 7 2 0x40 None)) ≡ 0 }
    ensures filled { counts_of (after_all (limited_to 80 one_session) 100 (ask (make 0x183 7 2 0x40 None) ∷ []))
        ≡ 1 ∷ 2 ∷ 1 ∷ 1 ∷ 80 ∷ 80 ∷ [] }
    ensures one_less { status_after (limited_to 79 one_session) [] (ask (make 0x183 7 2 0x40 None)) ≡ 0xc000007f }
    ensures full { status_after (limited_to 24 one_session) [] (ask (make 0x183 7 2 0x40 None)) ≡ 0xc000007f }
    ensures below { status_after (limited_to 10 one_session) [] (ask (make 0x183 7 2 0x40 None)) ≡ 0xc000007f }
    ensures no_record { records_after (limited_to 10 one_session) [] (ask (make 0x183 7 2 0x40 None)) ≡ [] }
    ensures before { counts_of (limited_to 10 one_session) ≡ 0 ∷ 1 ∷ 0 ∷ 0 ∷ 24 ∷ 10 ∷ [] }
    ensures behind { counts_of (after_all (limited_to 10 one_session) 100 (ask (make 0x183 7 2 0x40 None) ∷ []))
        ≡ 0 ∷ 1 ∷ 0 ∷ 0 ∷ 24 ∷ 10 ∷ [] }
    ensures no_trace { body_after (limited_to 80 (after_all (limited_to 10 one_session) 100 (ask (make 0x183 7 2 0x40 None) ∷ [])))
        [] (ask (make 0x183 7 2 0x40 None)) ≡ body_after (limited_to 80 one_session) [] (ask (make 0x183 7 2 0x40 None)) }
    ensures nothing_to_write { status_after (limited_to 80 one_session) (ask (make 0x183 7 2 0x40 None) ∷ [])
        (ask (make 0x183 7 1 0x40 None)) ≡ 0 }
{}

/// A persistent open without a session leaves at the first event from its deadline on, unless as many guids are kept as there may be.
pub fn expiry_at_its_deadline_example()
    ensures before { records_after (after_all one_session 0 (ask (make 0x183 7 2 0x40 (by_guid 5 true)) ∷ End 0 ∷ [])) [] (Accept 3) ≡ [] }
    ensures at_the_deadline { (step (after_all one_session 0 (ask (make 0x183 7 2 0x40 (by_guid 5 true)) ∷ End 0 ∷ [])) 600000001
        (Accept 3)).records ≡ ExpireRecord (record { session = 0; connection = 3; message = 0 }) first_open ∷ [] }
    ensures one_before { (step (after_all one_session 0 (ask (make 0x183 7 2 0x40 (by_guid 5 true)) ∷ End 0 ∷ [])) 600000000
        (Accept 3)).records ≡ [] }
    ensures all_expired_guids { (step (with_all_expired_guids
        (after_all one_session 0 (ask (make 0x183 7 2 0x40 (by_guid 5 true)) ∷ End 0 ∷ []))) 600000001
        (Accept 3)).records ≡ [] }
{}

/// In a fold too no open expires where as many guids are kept as there may be.
pub fn expired_guids_in_the_fold_example()
    ensures all_expired_guids { (with_record
        (with_all_expired_guids (after_all one_session 0 (ask (make 0x183 7 2 0x40 (by_guid 5 true)) ∷ [])))
        (ExpireRecord (record { session = 0; connection = 3; message = 0 }) first_open)).expired_count ≡ 65536 }
    ensures stands { (with_record
        (with_all_expired_guids (after_all one_session 0 (ask (make 0x183 7 2 0x40 (by_guid 5 true)) ∷ [])))
        (ExpireRecord (record { session = 0; connection = 3; message = 0 }) first_open)).opens ≡ first_open ∷ [] }
    ensures leaves { (with_record (after_all one_session 0 (ask (make 0x183 7 2 0x40 (by_guid 5 true)) ∷ []))
        (ExpireRecord (record { session = 0; connection = 3; message = 0 }) first_open)).opens ≡ [] }
{}

/// A star stands for any characters and a question mark for one, by ASCII case.
pub fn patterns_of_names_example()
    ensures star { matches (97 ∷ 42 ∷ 99 ∷ []) (65 ∷ 98 ∷ 98 ∷ 67 ∷ []) ≡ true }
    ensures star_of_none { matches (97 ∷ 42 ∷ []) (97 ∷ []) ≡ true }
    ensures question { matches (97 ∷ 63 ∷ []) (97 ∷ 195 ∷ 169 ∷ []) ≡ true }
    ensures question_of_none { matches (97 ∷ 63 ∷ []) (97 ∷ []) ≡ false }
    ensures no_match { matches (97 ∷ []) (97 ∷ 98 ∷ []) ≡ false }
{}

/// A pattern has at most 1,024 units: `é` has two bytes and one unit. Its room comes before it.
pub fn forms_of_patterns_example()
    ensures all { list_form (42 ∷ []) 1048576 ≡ None }
    ensures longest { list_form (replicate 1024 63) 65536 ≡ None }
    ensures too_long { list_form (replicate 1025 63) 65536 ≡ Some 0xc0000033 }
    ensures units { list_form (195 ∷ 169 ∷ replicate 1023 63) 65536 ≡ None }
    ensures units_too { list_form (195 ∷ 169 ∷ replicate 1024 63) 65536 ≡ Some 0xc0000033 }
    ensures room { list_form (replicate 1025 63) 1048577 ≡ Some 0xc000000d }
{}

/// A path has components that are no dots and hold no forbidden character.
pub fn forms_of_names_example()
    ensures plain { path_form (100 ∷ 92 ∷ 97 ∷ []) ≡ None }
    ensures root { path_form [] ≡ None }
    ensures leading { path_form (92 ∷ 58 ∷ []) ≡ Some 0xc000000d }
    ensures doubled { path_form (97 ∷ 92 ∷ 92 ∷ 98 ∷ []) ≡ Some 0xc0000033 }
    ensures dots { path_form (97 ∷ 92 ∷ 46 ∷ 46 ∷ []) ≡ Some 0xc0000033 }
    ensures stream { path_form (97 ∷ 58 ∷ 98 ∷ []) ≡ Some 0xc0000033 }
{}

/// Where no session can be had, all that was taken and is unsettled is given up with the refusal, also where the dialog was
/// begun before; what is taken later isn't.
pub fn refused_logon_example()
    ensures given_up { settled_in (course 1 (submit 1 (OpCreate (97 ∷ []) 0x183 0 2 false false) ∷ submit 2 (OpWrite 1 0 (97 ∷ []))
        ∷ SettlesAll ∷ []) stranger)
        ≡ Unknown (NoSession (HadStatus 0xc000006d)) ∷ Unknown (NoSession (HadStatus 0xc000006d)) ∷ [] }
    ensures dialog_begun { settled_in (course 1 (submit 1 (OpCreate (97 ∷ []) 0x183 0 2 false false) ∷ Does (Open 0) ∷ SettlesAll ∷ [])
        stranger) ≡ Unknown (NoSession (HadStatus 0xc000006d)) ∷ [] }
    ensures dialog_of_a_good_logon { settled_in (course 1 (submit 1 (OpCreate (97 ∷ []) 0x183 0 2 false false) ∷ Does (Open 0) ∷ SettlesAll ∷ [])
        (beginning 268435456)) ≡ WasOk (Action 2) ∷ [] }
    ensures not_what_comes_later { (course 1 (Does (Finish (HadStatus 1)) ∷ []) (beginning 268435456)).world.client.outcome 1 ≡ Unsettled }
{}

/// The thirty-third channel of a session is refused and the client closes its end, though nothing was cut: settling drops the
/// server's end, which no line of the script does. What was submitted settles as ever.
pub fn refused_channel_example()
    ensures client_closed { ((course 33 (links_to 33) (beginning 268435456)).world.conns 32).client_open ≡ false }
    ensures server_open { ((course 33 (links_to 33) (beginning 268435456)).world.conns 32).server_open ≡ true }
    ensures dropped { ((course 33 (links_to 33 ++ SettlesAll ∷ []) (beginning 268435456)).world.conns 32).server_open ≡ false }
    ensures settled { settled_in (course 33 (links_to 33 ++ submit 1 (OpCreate (97 ∷ []) 0x183 0 2 false false) ∷ SettlesAll ∷ [])
        (beginning 268435456)) ≡ WasOk (Action 2) ∷ [] }
{}

/// A cut of one of two channels raises the sequence, and at the last sequence it ends the session.
pub fn last_sequence_ends_session_example()
    ensures raised { (course 2 (Links 0 ∷ Links 1 ∷ Does (Cut 0) ∷ []) (beginning 268435456)).world.client.sequence ≡ 1 }
    ensures stays { (course 2 (Links 0 ∷ Links 1 ∷ Does (Cut 0) ∷ []) (beginning 268435456)).world.client.live ≡ true }
    ensures ends { (course 2 (Does (Cut 0) ∷ [])
        (worn_out (course 2 (Links 0 ∷ Links 1 ∷ []) (beginning 268435456)))).world.client.live ≡ false }
    ensures begins_anew { (course 2 (Does (Cut 0) ∷ Does (Drop 0) ∷ Links 0 ∷ [])
        (worn_out (course 2 (Links 0 ∷ Links 1 ∷ []) (beginning 268435456)))).world.client.sequence ≡ 0 }
{}

/// An event that the world cannot meet is none, and one that it meets raises the moment.
pub fn impossible_events_example()
    ensures no_channel { (course 1 (Does (Cut 0) ∷ []) (beginning 268435456)).world.moment ≡ 0 }
    ensures restart { (course 1 (Does Restart ∷ []) (beginning 268435456)).world.moment ≡ 1 }
    ensures link { (course 1 (Links 0 ∷ []) (beginning 268435456)).world.moment ≡ 9 }
    ensures no_finish { settled_in (course 1 (Links 0 ∷ submit 1 (OpCreate (97 ∷ []) 0x183 0 2 false false)
        ∷ Does (Finish (HadStatus 1)) ∷ []) (beginning 268435456)) ≡ Unsettled ∷ [] }
{}

/// A write needs write access, a read meets no range of another open, and a closed open leaves no range.
pub fn access_and_ranges_example()
    ensures no_access { status_after one_session (ask (make 0x81 7 2 0x40 None) ∷ []) (ask (Write first_open 0 (97 ∷ []) 0)) ≡ 0xc0000022 }
    ensures read_conflict { status_after one_session (ask (make 0x183 7 2 0x40 None) ∷ ask (make 0x183 7 1 0x40 None)
        ∷ ask (Lock first_open 0 0 (lock_of 0 0 10 2 0 ∷ [])) ∷ []) (ask (Read second_open 5 1 0 0)) ≡ 0xc0000054 }
    ensures own_read { status_after one_session (ask (make 0x183 7 2 0x40 None) ∷ ask (Write first_open 0 (97 ∷ []) 0)
        ∷ ask (Lock first_open 0 0 (lock_of 0 0 10 2 0 ∷ [])) ∷ []) (ask (Read first_open 0 1 0 0)) ≡ 0 }
    ensures own_shared_write { status_after one_session
        (ask (make 0x183 7 2 0x40 None) ∷ ask (Lock first_open 0 0 (lock_of 0 0 10 1 0 ∷ []))
        ∷ []) (ask (Write first_open 0 (97 ∷ []) 0)) ≡ 0xc0000054 }
    ensures closed { status_after one_session (ask (make 0x183 7 2 0x40 None) ∷ ask (make 0x183 7 1 0x40 None)
        ∷ ask (Lock first_open 0 0 (lock_of 0 0 10 2 0 ∷ [])) ∷ ask (Close first_open false) ∷ [])
        (ask (Lock second_open 0 0 (lock_of 0 0 10 2 0 ∷ []))) ≡ 0 }
    ensures empty_write { records_after one_session (ask (make 0x183 7 2 0x40 None) ∷ []) (ask (Write first_open 9 [] 0)) ≡ [] }
{}

/// What asks to attach asks for no durable open, and nothing else of it is judged.
pub fn attaching_forms_example()
    ensures alone { create_form (unjudged None) ≡ None }
    ensures durable { create_form (unjudged (by_guid 5 true)) ≡ Some 0xc000000d }
    ensures attached { status_after second_session (ask (make 0x183 0 2 0x40 (by_guid 5 true)) ∷ End 0 ∷ [])
        (ask_second true (Create (unjudged None))) ≡ 0 }
{}

/// An open of a live session is given to no other; one whose session is gone is given again, and denies writers meanwhile.
pub fn a_second_session_example()
    ensures attach { status_after second_session (ask (make 0x183 0 2 0x40 (by_guid 5 true)) ∷ [])
        (ask_second true (reconnect first_open 5)) ≡ 0xc0000034 }
    ensures replay { status_after second_session (ask (make 0x183 0 2 0x40 (by_guid 5 true)) ∷ [])
        (ask_second true (make 0x183 0 2 0x40 (by_guid 5 true))) ≡ 0xc000022a }
    ensures attach_when_gone { status_after second_session (ask (make 0x183 0 2 0x40 (by_guid 5 true)) ∷ End 0 ∷ [])
        (ask_second true (reconnect first_open 5)) ≡ 0 }
    ensures replay_when_gone { status_after second_session (ask (make 0x183 0 2 0x40 (by_guid 5 true)) ∷ End 0 ∷ [])
        (ask_second true (make 0x183 0 2 0x40 (by_guid 5 true))) ≡ 0 }
    ensures denied_when_gone { status_after second_session (ask (make 0x183 0 2 0x40 (by_guid 5 true)) ∷ End 0 ∷ [])
        (ask_second false (make 0x183 7 1 0x40 (by_guid 6 false))) ≡ 0xc0000043 }
{}

/// An open is one of the tree under which it was made or attached: a request under another tree of its session doesn't find it.
pub fn an_open_of_a_tree_example()
    ensures own { status_after one_session (disk_again ∷ ask (make 0x183 7 2 0x40 None) ∷ []) (ask (read_nothing first_open)) ≡ 0 }
    ensures other { status_after one_session (disk_again ∷ ask (make 0x183 7 2 0x40 None) ∷ [])
        (on_second_tree false (read_nothing first_open)) ≡ 0xc0000128 }
    ensures made_there { status_after one_session (disk_again ∷ on_second_tree false (make 0x183 7 2 0x40 None) ∷ [])
        (on_second_tree false (read_nothing first_open)) ≡ 0 }
    ensures found_in_its_session { status_after one_session (disk_again ∷ ask (make 0x183 7 2 0x40 (by_guid 5 true))
        ∷ on_second_tree true (make 0x183 7 2 0x40 (by_guid 5 true)) ∷ []) (on_second_tree false (read_nothing first_open))
        ≡ 0xc0000128 }
    ensures attached_there { status_after second_session (ask (make 0x183 0 2 0x40 (by_guid 5 true)) ∷ End 0
        ∷ in_second second_id 1 false (TreeConnect (100 ∷ [])) ∷ in_second second_id 2 true (make 0x183 0 2 0x40 (by_guid 5 true))
        ∷ []) (in_second second_id 2 false (read_nothing first_open)) ≡ 0 }
    ensures attached_elsewhere { status_after second_session (ask (make 0x183 0 2 0x40 (by_guid 5 true)) ∷ End 0
        ∷ in_second second_id 1 false (TreeConnect (100 ∷ [])) ∷ in_second second_id 2 false (reconnect first_open 5)
        ∷ []) (in_second second_id 1 false (read_nothing first_open)) ≡ 0xc0000128 }
{}

/// A TREE_DISCONNECT closes the opens of its tree as their CLOSEs would, and where their records don't fit none of them.
pub fn a_tree_that_goes_example()
    ensures tree { status_after one_session (ask TreeDisconnect ∷ []) (ask (make 0x183 7 2 0x40 None)) ≡ 0xc00000c9 }
    ensures closed { status_after one_session (disk_again ∷ ask (make 0x183 7 2 0x40 None) ∷ ask TreeDisconnect ∷ [])
        (on_second_tree false (make 0x183 0 1 0x40 None)) ≡ 0 }
    ensures other_stays { status_after one_session (disk_again ∷ on_second_tree false (make 0x183 7 2 0x40 None) ∷ ask TreeDisconnect
        ∷ []) (on_second_tree false (read_nothing first_open)) ≡ 0 }
    ensures guid { status_after one_session (disk_again ∷ ask (make 0x183 7 2 0x40 (by_guid 5 true)) ∷ ask TreeDisconnect ∷ [])
        (on_second_tree false (make 0x183 7 1 0x40 (by_guid 5 true))) ≡ 0xc000022a }
    ensures records { records_after one_session (ask (make 0x10183 7 2 0x40 (by_guid 5 true)) ∷ ask (make 0x10183 7 1 0x1040 None)
        ∷ []) (ask TreeDisconnect)
        ≡ CloseRecord (record { session = session; connection = 0; message = 9 }) first_open
        ∷ DeleteRecord (record { session = session; connection = 0; message = 9 }) 1 true
        ∷ RemoveRecord (record { session = session; connection = 0; message = 9 }) 1 ∷ [] }
    ensures file { files_after one_session (ask (make 0x10183 7 2 0x40 (by_guid 5 true)) ∷ ask (make 0x10183 7 1 0x1040 None)
        ∷ ask TreeDisconnect ∷ []) ≡ 0 }
    ensures no_record { records_after one_session (ask (make 0x183 7 2 0x40 None) ∷ []) (ask TreeDisconnect) ≡ [] }
    ensures no_room { status_after (with_full_journal (after_all one_session 50 (ask (make 0x183 7 2 0x40 (by_guid 5 true)) ∷ [])))
        [] (ask TreeDisconnect) ≡ 0xc000007f }
    ensures no_room_no_close { status_after
        (with_full_journal (after_all one_session 50 (ask (make 0x183 7 2 0x40 (by_guid 5 true)) ∷ [])))
        (ask TreeDisconnect ∷ []) (ask (read_nothing first_open)) ≡ 0 }
    ensures nothing_to_write { status_after (with_full_journal (after_all one_session 50 (ask (make 0x183 7 2 0x40 None) ∷ []))) []
        (ask TreeDisconnect) ≡ 0 }
{}

/// A plain open leaves with its session: its lock binds no other, and its CreateGuid can be used again.
pub fn what_a_gone_open_leaves_example()
    ensures lock_while_it_stands { status_after second_session (ask (make 0x183 7 2 0x40 (by_guid 5 false))
        ∷ ask (Lock first_open 0 0 (lock_of 0 0 10 2 0 ∷ [])) ∷ ask_second false (make 0x183 7 1 0x40 (by_guid 6 false))
        ∷ []) (ask_second false (Lock second_open 0 0 (lock_of 0 0 10 2 0 ∷ []))) ≡ 0xc0000055 }
    ensures lock_when_gone { status_after second_session (ask (make 0x183 7 2 0x40 (by_guid 5 false))
        ∷ ask (Lock first_open 0 0 (lock_of 0 0 10 2 0 ∷ [])) ∷ End 0
        ∷ ask_second false (make 0x183 7 1 0x40 (by_guid 6 false)) ∷ [])
        (ask_second false (Lock second_open 0 0 (lock_of 0 0 10 2 0 ∷ []))) ≡ 0 }
    ensures guid_while_it_stands { status_after second_session (ask (make 0x183 7 2 0x40 (by_guid 5 false)) ∷ [])
        (ask_second false (make 0x183 7 1 0x40 (by_guid 5 false))) ≡ 0xc000022a }
    ensures guid_when_gone { status_after second_session (ask (make 0x183 7 2 0x40 (by_guid 5 false)) ∷ End 0 ∷ [])
        (ask_second false (make 0x183 7 1 0x40 (by_guid 5 false))) ≡ 0 }
{}

/// A position is the open's own, 0 at first, and is told by the classes 14 and 18; one of 2^63 or more is refused. Neither it
/// nor a mode that is set is recorded, of a persistent open either, and neither needs an access.
pub fn positions_example()
    ensures at_first { body_after one_session (ask (make 0x10183 7 2 0x40 None) ∷ []) (ask (QueryFile first_open 14 8))
        ≡ FileInfo 14 (97 ∷ []) (made_info false 100) 0x10183 0x40 0 }
    ensures set { body_after one_session (ask (make 0x10183 7 2 0x40 None) ∷ ask (SetInfo first_open (SetPosition 9)) ∷ [])
        (ask (QueryFile first_open 14 8)) ≡ FileInfo 14 (97 ∷ []) (made_info false 100) 0x10183 0x40 9 }
    ensures told_with_all { body_after one_session (ask (make 0x10183 7 2 0x40 None) ∷ ask (SetInfo first_open (SetPosition 9)) ∷ [])
        (ask (QueryFile first_open 18 104)) ≡ FileInfo 18 (97 ∷ []) (made_info false 100) 0x10183 0x40 9 }
    ensures another_open { body_after one_session (ask (make 0x10183 7 2 0x40 None) ∷ ask (make 0x1 7 1 0x40 None)
        ∷ ask (SetInfo second_open (SetPosition 9)) ∷ []) (ask (QueryFile first_open 14 8)) ≡ FileInfo 14 (97 ∷ []) (made_info false 100) 0x10183 0x40 0 }
    ensures highest { status_after one_session (ask (make 0x10183 7 2 0x40 None) ∷ [])
        (ask (SetInfo first_open (SetPosition 0x7fff_ffff_ffff_ffff))) ≡ 0 }
    ensures past_it { status_after one_session (ask (make 0x10183 7 2 0x40 None) ∷ [])
        (ask (SetInfo first_open (SetPosition 0x8000_0000_0000_0000))) ≡ 0xc000000d }
    ensures by_form { status_after one_session [] (ask (SetInfo first_open (SetPosition 0x8000_0000_0000_0000))) ≡ 0xc000000d }
    ensures without_access { status_after one_session (ask (make 0x1 7 2 0x40 None) ∷ [])
        (ask (SetInfo first_open (SetPosition 9))) ≡ 0 }
    ensures no_record { records_after one_session (ask (make 0x183 7 2 0x40 (by_guid 5 true)) ∷ [])
        (ask (SetInfo first_open (SetPosition 9))) ≡ [] }
    ensures mode_without_access { status_after one_session (ask (make 0x1 7 2 0x40 None) ∷ []) (ask (SetInfo first_open SetMode)) ≡ 0 }
    ensures no_record_of_mode { records_after one_session (ask (make 0x183 7 2 0x40 (by_guid 5 true)) ∷ [])
        (ask (SetInfo first_open SetMode)) ≡ [] }
{}

/// Four bytes for what needs four, and a file's stream but none of a directory; no file has a short name, whatever room there
/// is for it. None of these classes needs an access.
pub fn further_classes_example()
    ensures attributes { status_after one_session (ask (make 0x1 7 2 0x40 None) ∷ []) (ask (QueryFile first_open 7 4)) ≡ 0 }
    ensures attributes_short { status_after one_session (ask (make 0x1 7 2 0x40 None) ∷ []) (ask (QueryFile first_open 7 3)) ≡ 0xc0000004 }
    ensures access { status_after one_session (ask (make 0x1 7 2 0x40 None) ∷ []) (ask (QueryFile first_open 8 3)) ≡ 0xc0000004 }
    ensures name { status_after one_session (ask (make 0x1 7 2 0x40 None) ∷ []) (ask (QueryFile first_open 9 8)) ≡ 0 }
    ensures name_short { status_after one_session (ask (make 0x1 7 2 0x40 None) ∷ []) (ask (QueryFile first_open 9 7)) ≡ 0xc0000004 }
    ensures position_short { status_after one_session (ask (make 0x1 7 2 0x40 None) ∷ []) (ask (QueryFile first_open 14 7)) ≡ 0xc0000004 }
    ensures stream { status_after one_session (ask (make 0x1 7 2 0x40 None) ∷ []) (ask (QueryFile first_open 22 38)) ≡ 0 }
    ensures stream_short { status_after one_session (ask (make 0x1 7 2 0x40 None) ∷ []) (ask (QueryFile first_open 22 37)) ≡ 0xc0000004 }
    ensures no_stream { status_after one_session (ask (make 0x1 7 2 1 None) ∷ []) (ask (QueryFile first_open 22 0)) ≡ 0 }
    ensures no_short_name { status_after one_session (ask (make 0x1 7 2 0x40 None) ∷ []) (ask (QueryFile first_open 21 0)) ≡ 0xc0000034 }
    ensures sectors { status_after one_session (ask (make 0x1 7 2 0x40 None) ∷ []) (ask (QueryVolume first_open 11 28)) ≡ 0 }
    ensures sectors_short { status_after one_session (ask (make 0x1 7 2 0x40 None) ∷ []) (ask (QueryVolume first_open 11 27)) ≡ 0xc0000004 }
{}

/// What successes end_of: ENCRYPT_DATA and the channel's number, kind and capabilities of a tree, room and what is used of
/// it, a file's class with the open's access and options, a listing's class, and the server's address.
pub fn told_by_successes_example()
    ensures pipes { body_after one_session [] (ask (TreeConnect pipes_name)) ≡ Connected 2 0 2032127 }
    ensures disk { body_after one_session [] (ask (TreeConnect (100 ∷ []))) ≡ Connected 1 16 2032127 }
    ensures session { body_after one_session (Accept 1 ∷ in_second 0 0 false (setup Begins) ∷ [])
        (in_second second_id 0 false (setup (Logon (117 ∷ [])))) ≡ SetUp true 1 }
    ensures channel { body_after one_session (Accept 1 ∷ Heard (from_client 1 7 9 0 false (binding true)) ∷ [])
        binding_logon ≡ SetUp true 2 }
    ensures volume { body_after one_session (ask (make 0x183 7 2 0x40 (by_guid 5 true)) ∷ ask (Write first_open 3 (1 ∷ 2 ∷ []) 0)
        ∷ []) (ask (QueryVolume first_open 7 32)) ≡ VolumeInfo 7 268435456 5 }
    ensures file { body_after one_session (ask (make 0x10183 7 2 0x1040 None) ∷ []) (ask (QueryFile first_open 18 104))
        ≡ FileInfo 18 (97 ∷ []) (made_info false 100) 0x10183 0x1040 0 }
    ensures listing { body_after one_session (ask (make 0x183 7 2 1 None) ∷ [])
        (ask (ListDirectory first_open 37 true true (42 ∷ []) 200))
        ≡ Listing 37 (record { name = 46 ∷ []; info = made_info true 100 } ∷ []) }
    ensures interfaces { body_after one_session [] (ask (Ioctl no_file query_interfaces 152))
        ≡ Interfaces (record { ip = 2130706433; port = 445 }) }
    ensures interfaces_of_an_open { body_after one_session (ask (make 0x183 7 2 0x40 None) ∷ []) (ask (Ioctl first_open query_interfaces 152))
        ≡ Interfaces (record { ip = 2130706433; port = 445 }) }
    ensures interfaces_after_a_restart { (recovered_from one_session []).address ≡ record { ip = 2130706433; port = 445 } }
{}

/// An object id is told on an open, whatever its access, in 64 bytes, behind the channel's sequence, which it raises. It's the
/// file's, whichever open asks, and nothing is recorded.
pub fn object_ids_example()
    ensures told { body_after one_session (ask (make 0x80 7 2 0x40 None) ∷ []) (ask (Ioctl first_open get_object_id 64)) ≡ ObjectId 1 }
    ensures of_the_file { body_after one_session (ask (make 0x183 7 2 0x40 None) ∷ ask (make 0x80 7 1 0x40 None) ∷ [])
        (ask (Ioctl second_open get_object_id 64)) ≡ ObjectId 1 }
    ensures of_a_directory { body_after one_session (ask (make 0x80 7 2 1 None) ∷ []) (ask (Ioctl first_open get_object_id 1048576)) ≡ ObjectId 1 }
    ensures short { status_after one_session (ask (make 0x80 7 2 0x40 None) ∷ []) (ask (Ioctl first_open get_object_id 63)) ≡ 0xc000000d }
    ensures no_open { status_after one_session [] (ask (Ioctl no_file get_object_id 64)) ≡ 0xc0000128 }
    ensures no_open_and_short { status_after one_session [] (ask (Ioctl no_file get_object_id 63)) ≡ 0xc0000128 }
    ensures another_open { status_after one_session (ask (make 0x80 7 2 0x40 None) ∷ []) (ask (Ioctl second_open get_object_id 63)) ≡ 0xc0000128 }
    ensures late { status_after one_session (ask (make 0x183 7 2 0x40 None) ∷ Heard (from_client 0 7 9 6 false (Ioctl first_open get_object_id 64))
        ∷ []) (Heard (from_client 0 7 9 5 false (Ioctl first_open get_object_id 63))) ≡ 0xc0000467 }
    ensures no_record { records_after one_session (ask (make 0x183 7 2 0x40 (by_guid 5 true)) ∷ [])
        (ask (Ioctl first_open get_object_id 64)) ≡ [] }
{}

/// A new journal, and one of the first version, gets the Version record and the Epoch record; a later one the Epoch record alone.
pub fn a_journal_of_the_first_version_example()
    ensures new { recovery_records [] ≡ VersionRecord 2 ∷ EpochRecord 1 ∷ [] }
    ensures first_version { recovery_records (EpochRecord 1 ∷ []) ≡ VersionRecord 2 ∷ EpochRecord 2 ∷ [] }
    ensures later { recovery_records (VersionRecord 2 ∷ EpochRecord 1 ∷ []) ≡ EpochRecord 2 ∷ [] }
    ensures bytes { (start (settings 268435456)).server.journal ≡ 24 }
{}

/// A server that starts on a disk stands where its records and what it adds to them lead, and gives no id twice.
pub fn recovery_reads_the_disk_example()
    ensures no_records { epoch_on [] ≡ 1 }
    ensures no_records_version { version_on [] ≡ 2 }
    ensures one_epoch { epoch_on (EpochRecord 1 ∷ []) ≡ 2 }
    ensures one_epoch_version { version_on (EpochRecord 1 ∷ []) ≡ 2 }
    ensures first_version { epoch_on first_version_disk ≡ 2 }
    ensures first_version_version { version_on first_version_disk ≡ 2 }
    ensures opens { (on_disk first_version_disk).opens ≡ 4294967297 ∷ [] }
    ensures next_id { next_open (on_disk first_version_disk) ≡ 8589934593 }
    ensures content { (on_disk first_version_disk).content 1 ≡ 104 ∷ 105 ∷ [] }
{}

/// Numbers that the wire or a call bounds have their bound: the moment and deadlines stand still at the last one, the ids of a
/// session's trees and the count of sessions end, and an operation that can't be spelled isn't taken.
pub fn numbers_end_example()
    ensures moment { moment_behind (Does (Wait 1844674407370956) ∷ []) ≡ 18446744073709551615 }
    ensures moment_stays { moment_behind (Does (Wait 1844674407370956) ∷ Links 0 ∷ []) ≡ 18446744073709551615 }
    ensures deadline { deadline_behind 18446744073709551000 60000 ≡ 18446744073709551615 }
    ensures last_tree { status_after (with_next_tree one_session 4294967295) [] (ask (TreeConnect (100 ∷ []))) ≡ 0x0000_0000 }
    ensures no_tree { status_after (with_next_tree one_session 4294967296) [] (ask (TreeConnect (100 ∷ []))) ≡ 0xc000_009a }
    ensures last_session { (linked_at 4294967294).client.ready 0 ≡ true }
    ensures no_session { (linked_at 4294967295).client.ready 0 ≡ false }
    ensures its_end { ((linked_at 4294967295).conns 0).client_open ≡ false }
    ensures its_dialog { (linked_at 4294967295).client.making ≡ None }
    ensures offset { taken_of (OpWrite 1 18446744073709551615 (97 ∷ [])) ≡ 2 }
    ensures past_offset { taken_of (OpWrite 1 18446744073709551616 (97 ∷ [])) ≡ 1 }
    ensures past_byte { taken_of (OpWrite 1 0 (256 ∷ [])) ≡ 1 }
    ensures past_time { taken_of (OpTime 1 18446744073709551616) ≡ 1 }
    ensures past_access { taken_of (OpCreate (97 ∷ []) 4294967296 0 2 false false) ≡ 1 }
    ensures no_text { taken_of (OpCreate (164 ∷ []) 0x81 0 2 false false) ≡ 1 }
{}

/// Each script's run keeps the three statements: once, newer, and one connection's order.
pub fn statements_example()
    ensures retried_create { laws_hold 2 268435456 retried_create ≡ true }
    ensures kept_refusal { laws_hold 2 268435456 kept_refusal ≡ true }
    ensures replaced_session { laws_hold 2 268435456 replaced_session ≡ true }
    ensures room_counted_once { laws_hold 2 4 room_counted_once ≡ true }
    ensures held_back_write { laws_hold 3 268435456 held_back_write ≡ true }
    ensures restart_persistent { laws_hold 1 268435456 restart_persistent ≡ true }
    ensures crash_lost { laws_hold 1 268435456 crash_lost ≡ true }
    ensures crash_kept { laws_hold 1 268435456 crash_kept ≡ true }
    ensures restart_plain { laws_hold 1 268435456 restart_plain ≡ true }
    ensures shared_readers { laws_hold 1 268435456 shared_readers ≡ true }
    ensures denied_writer { laws_hold 1 268435456 denied_writer ≡ true }
    ensures delayed_reconnect { laws_hold 3 268435456 delayed_reconnect ≡ true }
    ensures expired_open { laws_hold 1 268435456 expired_open ≡ true }
    ensures open_before_expiry { laws_hold 1 268435456 open_before_expiry ≡ true }
    ensures expired_create { laws_hold 1 268435456 expired_create ≡ true }
    ensures first_steps { laws_hold 1 268435456 first_steps ≡ true }
    ensures end_of_file { laws_hold 1 268435456 end_of_file ≡ true }
    ensures gaps_are_zeros { laws_hold 1 268435456 gaps_are_zeros ≡ true }
    ensures listed_names { laws_hold 1 268435456 listed_names ≡ true }
    ensures renamed_and_removed { laws_hold 1 268435456 renamed_and_removed ≡ true }
    ensures denied_remover { laws_hold 1 268435456 denied_remover ≡ true }
    ensures retry_after_act { laws_hold 2 268435456 retry_after_act ≡ true }
    ensures retried_close { laws_hold 2 268435456 retried_close ≡ true }
    ensures held_back_end { laws_hold 2 268435456 held_back_end ≡ true }
    ensures refusal_adopts { laws_hold 2 4 refusal_adopts ≡ true }
    ensures restart_keeps_locks { laws_hold 1 268435456 restart_keeps_locks ≡ true }
    ensures restart_keeps_refused_locks { laws_hold 2 268435456 restart_keeps_refused_locks ≡ true }
    ensures attached_again { laws_hold 1 268435456 attached_again ≡ true }
    ensures plain_open_lost { laws_hold 1 268435456 plain_open_lost ≡ true }
    ensures later_write_waits { laws_hold 3 268435456 later_write_waits ≡ true }
    ensures retried_overwrite { laws_hold 2 268435456 retried_overwrite ≡ true }
    ensures slot_not_used_again { laws_hold 2 268435456 slot_not_used_again ≡ true }
    ensures retried_rename { laws_hold 2 268435456 retried_rename ≡ true }
{}

/// Behind each script the fold of the journal's records is the part of the server's state that outlives a restart.
pub fn journal_stands_example()
    ensures retried_create { journal_stands (course 2 retried_create (beginning 268435456)).world ≡ true }
    ensures kept_refusal { journal_stands (course 2 kept_refusal (beginning 268435456)).world ≡ true }
    ensures replaced_session { journal_stands (course 2 replaced_session (beginning 268435456)).world ≡ true }
    ensures room_counted_once { journal_stands (course 2 room_counted_once (beginning 4)).world ≡ true }
    ensures held_back_write { journal_stands (course 3 held_back_write (beginning 268435456)).world ≡ true }
    ensures restart_persistent { journal_stands (course 1 restart_persistent (beginning 268435456)).world ≡ true }
    ensures crash_lost { journal_stands (course 1 crash_lost (beginning 268435456)).world ≡ true }
    ensures crash_kept { journal_stands (course 1 crash_kept (beginning 268435456)).world ≡ true }
    ensures restart_plain { journal_stands (course 1 restart_plain (beginning 268435456)).world ≡ true }
    ensures shared_readers { journal_stands (course 1 shared_readers (beginning 268435456)).world ≡ true }
    ensures denied_writer { journal_stands (course 1 denied_writer (beginning 268435456)).world ≡ true }
    ensures delayed_reconnect { journal_stands (course 3 delayed_reconnect (beginning 268435456)).world ≡ true }
    ensures expired_open { journal_stands (course 1 expired_open (beginning 268435456)).world ≡ true }
    ensures open_before_expiry { journal_stands (course 1 open_before_expiry (beginning 268435456)).world ≡ true }
    ensures expired_create { journal_stands (course 1 expired_create (beginning 268435456)).world ≡ true }
    ensures first_steps { journal_stands (course 1 first_steps (beginning 268435456)).world ≡ true }
    ensures end_of_file { journal_stands (course 1 end_of_file (beginning 268435456)).world ≡ true }
    ensures gaps_are_zeros { journal_stands (course 1 gaps_are_zeros (beginning 268435456)).world ≡ true }
    ensures listed_names { journal_stands (course 1 listed_names (beginning 268435456)).world ≡ true }
    ensures renamed_and_removed { journal_stands (course 1 renamed_and_removed (beginning 268435456)).world ≡ true }
    ensures denied_remover { journal_stands (course 1 denied_remover (beginning 268435456)).world ≡ true }
    ensures retry_after_act { journal_stands (course 2 retry_after_act (beginning 268435456)).world ≡ true }
    ensures retried_close { journal_stands (course 2 retried_close (beginning 268435456)).world ≡ true }
    ensures held_back_end { journal_stands (course 2 held_back_end (beginning 268435456)).world ≡ true }
    ensures refusal_adopts { journal_stands (course 2 refusal_adopts (beginning 4)).world ≡ true }
    ensures restart_keeps_locks { journal_stands (course 1 restart_keeps_locks (beginning 268435456)).world ≡ true }
    ensures restart_keeps_refused_locks { journal_stands (course 2 restart_keeps_refused_locks (beginning 268435456)).world ≡ true }
    ensures attached_again { journal_stands (course 1 attached_again (beginning 268435456)).world ≡ true }
    ensures plain_open_lost { journal_stands (course 1 plain_open_lost (beginning 268435456)).world ≡ true }
    ensures later_write_waits { journal_stands (course 3 later_write_waits (beginning 268435456)).world ≡ true }
    ensures retried_overwrite { journal_stands (course 2 retried_overwrite (beginning 268435456)).world ≡ true }
    ensures slot_not_used_again { journal_stands (course 2 slot_not_used_again (beginning 268435456)).world ≡ true }
    ensures retried_rename { journal_stands (course 2 retried_rename (beginning 268435456)).world ≡ true }
    ensures all_slots_retried { journal_stands (course 2 all_slots_retried (beginning 268435456)).world ≡ true }
{}
