//! Opens that leave.
ghost use Rattle.std.specs.Prelude.{◌≡◌, true, if◌then◌else◌, OnOk, nat_lt};
ghost use Rattle.spec_exchange.specs.Commands.{deletes_on_close};
ghost use Rattle.spec_exchange.specs.Files.{set_delete_pending};
ghost use Rattle.spec_exchange.specs.Fold.{shut_recorded, with_record};
ghost use Rattle.spec_exchange.specs.State.{CloseRecord, ExpireRecord, Origin, Server};
ghost use Rattle.spec_exchange.specs.Step.{add_expired_guid, max_expired_guids};
ghost use Rattle.server_core.specs.durable_state.Durable.{DurableShown};
ghost use Rattle.law_server.specs.tables.Fits.{Fits};

use crate::durable_state::durable::Durable;
use server_checks::deletes_on_close;
use std::alloc::AllocError;

const MAX_EXPIRED_GUIDS: u32 = 65_536;

impl Durable {
    pub(crate) fn shut_recorded(&mut self, id: u64) -> Result<(), AllocError>
        ensures { (s : Server) (origin : Origin) → Fits s → DurableShown self.old s
            → OnOk result (DurableShown self.new (with_record s (CloseRecord origin id))) }
    {
        let Some(row) = self.opens.row(id) else {
            return Ok(());
        };
        let file = row.file;
        let options = row.options;
        match self.shut(id, file, options) {
            Ok(()) => Ok(()),
            Err(error) => Err(error),
        }
    }

    pub(crate) fn expire_recorded(&mut self, id: u64) -> Result<(), AllocError>
        ensures { (s : Server) (origin : Origin) → Fits s → DurableShown self.old s
            → OnOk result (DurableShown self.new (with_record s (ExpireRecord origin id))) }
    {
        if !self.has_guid_room() {
            return Ok(());
        }
        let Some(row) = self.opens.row(id) else {
            return Ok(());
        };
        let file = row.file;
        let options = row.options;
        let client = row.client;
        let guid = row.guid;
        self.shut(id, file, options)?;
        match self.keep_guid(client, guid) {
            Ok(()) => Ok(()),
            Err(error) => Err(error),
        }
    }

    // One more guid may be kept as expired.
    fn has_guid_room(&self) -> bool
        ensures { (s : Server) → DurableShown self.now s → result ≡ nat_lt s.expired_count max_expired_guids }
    {
        self.opens.expired_count() < MAX_EXPIRED_GUIDS
    }

    fn keep_guid(&mut self, client: u128, guid: Option<u128>) -> Result<(), AllocError>
        ensures { (s : Server) → DurableShown self.old s → nat_lt s.expired_count max_expired_guids ≡ true
            → OnOk result (DurableShown self.new (add_expired_guid s client guid)) }
    {
        self.opens.reserve_expired()?;
        self.opens.expire_guid(client, guid);
        Ok(())
    }

    // The open of this file and with these options leaves.
    fn shut(&mut self, id: u64, file: u64, options: u32) -> Result<(), AllocError>
        ensures { (s : Server) → Fits s → DurableShown self.old s → s.standing id ≡ true → (s.opened id).file ≡ file
            → (s.opened id).options ≡ options → OnOk result (DurableShown self.new (shut_recorded s id)) }
    {
        self.mark_left(file, options)?;
        self.opens.leave(id);
        Ok(())
    }

    fn mark_left(&mut self, file: u64, options: u32) -> Result<(), AllocError>
        ensures { (s : Server) → DurableShown self.old s → OnOk result (DurableShown self.new
            (if deletes_on_close options then set_delete_pending s file true else s)) }
    {
        if !deletes_on_close(options) {
            return Ok(());
        }
        match self.mark(file, true) {
            Ok(()) => Ok(()),
            Err(error) => Err(error),
        }
    }
}
