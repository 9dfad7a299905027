//! Each piece of a snapshot by its kind, as it is read. One that no server's snapshot has there is refused.
ghost use Rattle.std.specs.Prelude.{◌≡◌, ◌==◌, ◌&&◌, ◌≤◌, ℕ, nat_lt, nat_le, not, true, IfOk};
ghost use Rattle.std.specs.BTreeSet.{contains};
ghost use Rattle.std.specs.Ordering.{nat_cmp};
ghost use Rattle.spec_exchange.specs.CheckOpen.{is_slot};
ghost use Rattle.spec_exchange.specs.Commands.{deletes_on_close};
ghost use Rattle.spec_exchange.specs.Files.{root, exists};
ghost use Rattle.spec_exchange.specs.State.{Server};
ghost use Rattle.journal_bytes.specs.piece_bytes.Meaning.{piece_of, pieces_of, row_of};
ghost use Rattle.law_server.specs.tables.Fits.{Fits};
ghost use Rattle.law_snapshots.specs.snapshots.Pieces.{BasePiece, BytesPiece, FilePiece, GuidPiece, OpenPiece, RangePiece, SlotPiece};
ghost use Rattle.law_snapshots.specs.snapshots.Pieces.{with_piece, with_pieces};
ghost use Rattle.law_snapshots.specs.snapshots.Taken.{is_unnumbered, takes_pieces};
ghost use Rattle.server_core.specs.durable_state.Durable.{DurableShown, TookPiece, front_parts};

use crate::durable_state::durable::Durable;
use journal_bytes::{FileFront, OpenFront, Piece};
use law_snapshots::piece_fits_law;
use server_checks::deletes_on_close;
use spec_exchange::values;
use spec_exchange::values::Basic;
use std::alloc::AllocError;
use store_files::PlacedFile;
use store_opens::{OpenParts, Range};

// The most guids of expired opens that are kept.
const MAX_EXPIRED: u32 = 65_536;

impl Durable {
    /// Follows pieces of a snapshot, one behind the other. It answers false where one of them can't stand there in a server's
    /// snapshot; then, and where memory runs out, a part of them was followed.
    pub fn with_pieces(&mut self, pieces: &[Piece]) -> Result<bool, AllocError>
        ensures { (s : Server) → Fits s → DurableShown self.old s → IfOk result (λ b. (b ≡ takes_pieces s (pieces_of pieces.now))
            × (b ≡ true → DurableShown self.new (with_pieces s (pieces_of pieces.now)))) }
    {
        piece_fits_law();
        for piece in pieces {
            if !self.with_piece(piece)? {
                return Ok(false);
            }
        }
        Ok(true)
    }

    fn with_piece(&mut self, piece: &Piece) -> Result<bool, AllocError>
        ensures { (s : Server) → Fits s → DurableShown self.old s
            → IfOk result (λ b. TookPiece self.new s (piece_of piece.now) b) }
    {
        match piece {
            Piece::Base {
                version,
                epoch,
                given,
                next_file,
                times,
            } => Ok(self.with_base(*version, *epoch, *given, *next_file, times)),
            Piece::File { file, path, front } => self.with_file(*file, path.as_str(), front),
            Piece::Bytes { file, at, bytes } => self.with_bytes(*file, *at, bytes.as_slice()),
            Piece::Open { id, user, front } => self.with_open(*id, user.as_str(), front),
            Piece::Slot {
                id,
                index,
                number,
                status,
            } => Ok(self.with_slot(*id, *index, *number, *status)),
            Piece::Range { range } => self.with_range(range),
            Piece::Guid { client, guid } => self.with_guid(*client, *guid),
        }
    }

    // The numbers come first.
    fn with_base(
        &mut self,
        version: u32,
        epoch: u32,
        given: u32,
        next_file: u64,
        times: &Basic,
    ) -> bool
        ensures { (s : Server) → DurableShown self.old s
            → TookPiece self.new s (BasePiece version epoch given next_file times.now) result }
    {
        if !self.is_unnumbered() {
            return false;
        }
        if !may_begin(version, epoch, next_file) {
            return false;
        }
        self.begin_numbers(epoch, given, next_file, times);
        true
    }

    // No number was given yet, of an epoch, an open or a file.
    fn is_unnumbered(&self) -> bool
        ensures { (s : Server) → DurableShown self.now s → result ≡ is_unnumbered s }
    {
        if self.epoch != 0 {
            return false;
        }
        if self.opens.given() != 0 {
            return false;
        }
        self.tree.next_file() == 1
    }

    fn begin_numbers(&mut self, epoch: u32, given: u32, next_file: u64, times: &Basic)
        ensures { (s : Server) → DurableShown self.old s → s.next_file ≤ next_file → DurableShown self.new
            (with_piece s (BasePiece 2 epoch given next_file times.now)) }
    {
        self.version = 2;
        self.epoch = epoch;
        self.opens.begin_epoch(epoch);
        self.opens.set_given(given);
        self.tree.set_next(next_file);
        self.tree.set_basic(0, *times);
    }

    fn with_file(&mut self, file: u64, path: &str, front: &FileFront) -> Result<bool, AllocError>
        ensures { (s : Server) → Fits s → DurableShown self.old s → IfOk result (λ b. TookPiece self.new s
            (FilePiece file path.now front.now.directory front.now.pending front.now.basic front.now.size front.now.stored) b) }
    {
        if front.stored > 0 {
            return Ok(false);
        }
        // First, since the set may find no memory: a marked file that it lacks would stay at the next sweep.
        self.note(file, front.pending)?;
        self.place_file(file, path, front)
    }

    // A file of zeros stands at its number.
    fn place_file(&mut self, file: u64, path: &str, front: &FileFront) -> Result<bool, AllocError>
        ensures { (s : Server) → Fits s → DurableShown self.old s
            → (front.now.pending ≡ true → contains nat_cmp self.old.pending file ≡ true) → IfOk result (λ b. TookPiece self.new s
            (FilePiece file path.now front.now.directory front.now.pending front.now.basic front.now.size 0) b) }
    {
        piece_fits_law();
        let placed = PlacedFile {
            file,
            directory: front.directory,
            pending: front.pending,
            basic: front.basic,
            size: front.size,
        };
        match self.tree.place(path, &placed) {
            Ok(may) => Ok(may),
            Err(error) => Err(error),
        }
    }

    fn with_bytes(&mut self, file: u64, at: u64, bytes: &[u8]) -> Result<bool, AllocError>
        ensures { (s : Server) → DurableShown self.old s → IfOk result (λ b. TookPiece self.new s (BytesPiece file at bytes.now) b) }
    {
        match self.tree.restore_bytes(file, at, bytes) {
            Ok(may) => Ok(may),
            Err(error) => Err(error),
        }
    }

    fn with_open(&mut self, id: u64, user: &str, front: &OpenFront) -> Result<bool, AllocError>
        ensures { (s : Server) → Fits s → DurableShown self.old s
            → IfOk result (λ b. TookPiece self.new s (OpenPiece id (row_of user.now front.now)) b) }
    {
        if !self.may_be_open(front) {
            return Ok(false);
        }
        let parts = parts_of(front);
        match self.opens.stand(id, &parts, user) {
            Ok(may) => Ok(may),
            Err(error) => Err(error),
        }
    }

    // Its file is there, and it doesn't delete the root on close.
    fn may_be_open(&self, front: &OpenFront) -> bool
        ensures { (s : Server) → DurableShown self.now s → result
            ≡ (exists s front.now.file && not (deletes_on_close front.now.options && (front.now.file == root))) }
    {
        if !self.tree.exists(front.file) {
            return false;
        }
        !(deletes_on_close(front.options) && front.file == 0)
    }

    fn with_slot(&mut self, id: u64, index: u8, number: u8, status: u32) -> bool
        ensures { (s : Server) → DurableShown self.old s → TookPiece self.new s (SlotPiece id index number status) result }
    {
        if !self.opens.stands(id) {
            return false;
        }
        if index == 0 || index > 64 {
            return false;
        }
        self.opens.keep(id, index, number, status);
        true
    }

    fn with_range(&mut self, range: &values::Range) -> Result<bool, AllocError>
        ensures { (s : Server) → Fits s → DurableShown self.old s → IfOk result (λ b. TookPiece self.new s (RangePiece range.now) b) }
    {
        let held = Range {
            owner: range.owner,
            at: range.at,
            length: range.length,
            exclusive: range.exclusive,
        };
        match self.opens.push_range(held) {
            Ok(may) => Ok(may),
            Err(error) => Err(error),
        }
    }

    fn with_guid(&mut self, client: u128, guid: u128) -> Result<bool, AllocError>
        ensures { (s : Server) → DurableShown self.old s → IfOk result (λ b. TookPiece self.new s (GuidPiece client guid) b) }
    {
        if self.epoch == 0 || self.opens.expired_count() >= MAX_EXPIRED {
            return Ok(false);
        }
        match self.opens.restore_guid(client, guid) {
            Ok(may) => Ok(may),
            Err(error) => Err(error),
        }
    }
}

// The numbers of a server that began an epoch.
fn may_begin(version: u32, epoch: u32, next_file: u64) -> bool
    ensures { result ≡ ((version == 2) && (nat_lt 0 epoch && nat_lt 0 next_file)) }
{
    version == 2 && epoch > 0 && next_file > 0
}

// An open that has no session yet.
fn parts_of(front: &OpenFront) -> OpenParts
    ensures { result ≡ front_parts front.now }
{
    OpenParts {
        file: front.file,
        access: front.access,
        share: front.share,
        options: front.options,
        action: front.action,
        persistent: true,
        client: front.client,
        guid: Some(front.guid),
        session: None,
        tree: 0,
        sequence: 0,
        timeout: front.timeout,
    }
}
