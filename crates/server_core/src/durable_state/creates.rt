//! Create records: what they make of a file, and the open that they restore.
ghost use Rattle.std.specs.Prelude.{◌≡◌, ◌/◌, ◌%◌, ◌==◌, true, false, if◌then◌else◌, None, Some, is_some, length, nat_lt, IfOk, OnOk};
ghost use Rattle.spec_exchange.specs.CheckCreate.{max_opens};
ghost use Rattle.spec_exchange.specs.Files.{empty_file, make_file};
ghost use Rattle.spec_exchange.specs.Fold.{is_file, may_have_open, may_make, may_restore, restore, with_record};
ghost use Rattle.spec_exchange.specs.Opens.{max_ids};
ghost use Rattle.spec_exchange.specs.State.{Origin, Server};
ghost use Rattle.journal_bytes.specs.record_bytes.Meaning.{new_open, opened};
ghost use Rattle.store_files.specs.declared.file_tree.error.StoreError.TheVariants as stores;
ghost use Rattle.store_opens.specs.open_table.Changes.{restore_refusal};
ghost use Rattle.store_opens.specs.declared.open_table.error.OpenError.TheVariants as opens;
ghost use Rattle.server_core.specs.durable_state.Durable.{DurableShown, create_record, file_behind, may_be_made};
ghost use Rattle.law_server.specs.tables.Fits.{Fits};
ghost use Rattle.spec_wire.specs.messages.Places.{number_of};

use crate::durable_state::durable::Durable;
use journal_bytes::{NewOpen, guid_of};
use std::alloc::AllocError;
use store_files::StoreError;
use store_opens::{OpenError, OpenParts};

const MAX_OPENS: usize = 16_384;

// What a Create record says of its file.
#[derive(Clone, Copy)]
pub(crate) struct Made<'a> {
    pub(crate) action: u32,
    pub(crate) file: u64,
    pub(crate) path: &'a str,
    pub(crate) attributes: u32,
    pub(crate) directory: bool,
    pub(crate) time: u64,
}

impl Durable {
    pub(crate) fn create_recorded(
        &mut self,
        made: &Made<'_>,
        new: &Option<NewOpen>,
    ) -> Result<(), AllocError>
        ensures { (s : Server) (origin : Origin) → Fits s → DurableShown self.old s
            → OnOk result (DurableShown self.new (with_record s (create_record origin made.now (opened new.now)))) }
    {
        if !self.may_have_open(new) {
            return Ok(());
        }
        match self.file_recorded(made) {
            Ok(may) => self.restore_if(may, made, new),
            Err(error) => Err(error),
        }
    }

    // The open stands behind a create that may be.
    fn restore_if(
        &mut self,
        may: bool,
        made: &Made<'_>,
        new: &Option<NewOpen>,
    ) -> Result<(), AllocError>
        ensures { (s : Server) (origin : Origin) → Fits s → may_have_open s (opened new.now) ≡ true → may ≡ may_be_made s made.now
            → DurableShown self.old (file_behind s made.now may)
            → OnOk result (DurableShown self.new (with_record s (create_record origin made.now (opened new.now)))) }
    {
        if !may {
            return Ok(());
        }
        match self.restore_new(made, new) {
            Ok(()) => Ok(()),
            Err(error) => Err(error),
        }
    }

    // What a create makes of its file. Tells whether it may be.
    fn file_recorded(&mut self, made: &Made<'_>) -> Result<bool, AllocError>
        ensures { IfOk result (λ b. (s : Server) → Fits s → DurableShown self.old s → (b ≡ may_be_made s made.now)
            × DurableShown self.new (file_behind s made.now b)) }
    {
        if made.action == 2 {
            return match self.make_recorded(made) {
                Ok(may) => Ok(may),
                Err(error) => Err(error),
            };
        }
        if made.action == 1 {
            return Ok(self.tree.exists(made.file));
        }
        if made.action < 4 {
            return Ok(self.empty_recorded(made));
        }
        Ok(false)
    }

    fn empty_recorded(&mut self, made: &Made<'_>) -> bool
        ensures { (s : Server) → DurableShown self.old s → (result ≡ is_file s made.now.file)
            × DurableShown self.new (if result then empty_file s made.now.file made.now.attributes made.now.time else s) }
    {
        if !self.is_file(made.file) {
            return false;
        }
        self.tree.empty(made.file, made.attributes, made.time);
        true
    }

    // The number that the next file gets.
    fn is_next_file(&self, file: u64) -> bool
        ensures { (s : Server) → DurableShown self.now s → result ≡ (file == s.next_file) }
    {
        file == self.tree.next_file()
    }

    fn make_recorded(&mut self, made: &Made<'_>) -> Result<bool, AllocError>
        ensures { IfOk result (λ b. (s : Server) → Fits s → DurableShown self.old s
            → (b ≡ may_make s made.now.file made.now.path.now)
            × DurableShown self.new (if b then make_file s made.now.path.now made.now.directory made.now.attributes made.now.time else s)) }
    {
        if !self.is_next_file(made.file) {
            return Ok(false);
        }
        match self
            .tree
            .make(made.path, made.directory, made.attributes, made.time)
        {
            Ok(_) => Ok(true),
            Err(error) => refused(&error),
        }
    }

    fn may_have_open(&self, new: &Option<NewOpen>) -> bool
        ensures { (s : Server) → DurableShown self.now s → result ≡ may_have_open s (opened new.now) }
    {
        match new {
            Some(new) => self.may_restore(new),
            None => true,
        }
    }

    fn is_of_epoch(&self, id: u64) -> bool
        ensures { (s : Server) → DurableShown self.now s → result ≡ (id / 0x1_0000_0000 == s.epoch) }
    {
        id / 0x1_0000_0000 == u64::from(self.epoch)
    }

    // Ids of the epoch are left.
    fn has_ids(&self) -> bool
        ensures { (s : Server) → DurableShown self.now s → result ≡ nat_lt s.open_ids_given max_ids }
    {
        self.opens.next_id().is_some()
    }

    // A live open of the client has the guid.
    fn has_guid(&self, new: &NewOpen) -> bool
        ensures { (s : Server) → DurableShown self.now s
            → result ≡ is_some (s.by_guid (number_of new.now.client) (number_of new.now.guid)) }
    {
        self.opens
            .by_guid(guid_of(&new.client), guid_of(&new.guid))
            .is_some()
    }

    fn has_open_room(&self) -> bool
        ensures { (s : Server) → DurableShown self.now s → result ≡ nat_lt (length s.opens) max_opens }
    {
        self.opens.count() < MAX_OPENS
    }

    // An id of this epoch that isn't live, a guid that no live open of the client has, and room in the counts.
    fn may_restore(&self, new: &NewOpen) -> bool
        ensures { (s : Server) → DurableShown self.now s → result ≡ may_restore s (new_open new.now) }
    {
        if !self.is_of_epoch(new.id) {
            return false;
        }
        if !has_counter(new.id) {
            return false;
        }
        if !self.has_ids() {
            return false;
        }
        if self.opens.stands(new.id) {
            return false;
        }
        if self.has_guid(new) {
            return false;
        }
        self.has_open_room()
    }

    fn restore_new(&mut self, made: &Made<'_>, new: &Option<NewOpen>) -> Result<(), AllocError>
        ensures { (s : Server) → Fits s → DurableShown self.old s → may_have_open s (opened new.now) ≡ true
            → OnOk result (DurableShown self.new (restore s made.now.file made.now.action (opened new.now))) }
    {
        match new {
            Some(new) => self.restore(made, new),
            None => Ok(()),
        }
    }

    fn restore(&mut self, made: &Made<'_>, new: &NewOpen) -> Result<(), AllocError>
        ensures { (s : Server) → Fits s → DurableShown self.old s → restore_refusal s new.now.id ≡ None
            → OnOk result (DurableShown self.new (restore s made.now.file made.now.action (Some (new_open new.now)))) }
    {
        let parts = OpenParts {
            file: made.file,
            access: new.access,
            share: new.share,
            options: new.options,
            action: made.action,
            persistent: true,
            client: guid_of(&new.client),
            guid: Some(guid_of(&new.guid)),
            session: None,
            tree: 0,
            sequence: 0,
            timeout: new.timeout,
        };
        match self.opens.restore(new.id, &parts, new.user.as_str()) {
            Ok(()) => Ok(()),
            Err(error) => turned_away(&error),
        }
    }
}

// Ids of an epoch count from 1.
fn has_counter(id: u64) -> bool
    ensures { result ≡ nat_lt 0 (id % 0x1_0000_0000) }
{
    id % 0x1_0000_0000 > 0
}

// A file that may not be made is not made.
fn refused(error: &StoreError) -> Result<bool, AllocError>
    ensures { IfOk result (λ b. (b ≡ false) × (error.now ≡ stores.Memory → ⊥)) }
{
    match error {
        StoreError::Memory => Err(AllocError),
        StoreError::Status(_) => Ok(false),
    }
}

fn turned_away(error: &OpenError) -> Result<(), AllocError>
    ensures { OnOk result (error.now ≡ opens.Memory → ⊥) }
{
    match error {
        OpenError::Memory => Err(AllocError),
        OpenError::Status(_) => Ok(()),
    }
}
