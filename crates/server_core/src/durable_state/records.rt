//! Each record by its kind. One that a call would refuse changes nothing.
ghost use Rattle.std.specs.Prelude.{◌≡◌, OnOk};
ghost use Rattle.spec_exchange.specs.Fold.{with_record};
ghost use Rattle.spec_exchange.specs.State.{EpochRecord, Server, VersionRecord};
ghost use Rattle.journal_bytes.specs.record_bytes.Grammar.{kind};
ghost use Rattle.journal_bytes.specs.record_bytes.Meaning.{record_of};
ghost use Rattle.server_core.specs.durable_state.Durable.{DurableShown};
ghost use Rattle.law_server.specs.tables.Fits.{Fits};

use crate::durable_state::creates::Made;
use crate::durable_state::durable::Durable;
use journal_bytes::Record;
use std::alloc::AllocError;

impl Durable {
    pub(crate) fn with_record(&mut self, one: &Record) -> Result<(), AllocError>
        ensures { (s : Server) → Fits s → DurableShown self.old s
            → OnOk result (DurableShown self.new (with_record s (record_of one.now))) }
    {
        match one {
            Record::Epoch { number } => self.with_epoch(*number),
            Record::Version { number } => self.with_version(*number),
            Record::Create { .. } => self.with_create(one),
            Record::Write { .. } => self.with_write(one),
            Record::SetEnd { .. } => self.with_end(one),
            Record::SetBasic { file, basic, .. } => self.with_basic(*file, basic),
            Record::SetDelete { file, marked, .. } => self.mark_recorded(*file, *marked),
            Record::Rename { .. } => self.with_rename(one),
            Record::Remove { file, .. } => self.with_remove(*file),
            Record::Lock { .. } => self.with_lock(one),
            Record::Shut { id, .. } => self.shut_recorded(*id),
            Record::Expire { id, .. } => self.expire_recorded(*id),
        }
    }

    fn with_epoch(&mut self, number: u32) -> Result<(), AllocError>
        ensures { (s : Server) → Fits s → DurableShown self.old s
            → OnOk result (DurableShown self.new (with_record s (EpochRecord number))) }
    {
        self.begin_epoch(number);
        Ok(())
    }

    fn with_version(&mut self, number: u32) -> Result<(), AllocError>
        ensures { (s : Server) → DurableShown self.old s
            → OnOk result (DurableShown self.new (with_record s (VersionRecord number))) }
    {
        self.set_version(number);
        Ok(())
    }

    fn with_create(&mut self, one: &Record) -> Result<(), AllocError>
        requires kind { kind one.now ≡ 2 }
        ensures { (s : Server) → Fits s → DurableShown self.old s
            → OnOk result (DurableShown self.new (with_record s (record_of one.now))) }
    {
        let Record::Create {
            action,
            file,
            path,
            attributes,
            directory,
            time,
            opened,
            ..
        } = one
        else {
            unreachable!()
        };
        let made = Made {
            action: *action,
            file: *file,
            path: path.as_str(),
            attributes: *attributes,
            directory: *directory,
            time: *time,
        };
        self.create_recorded(&made, opened)
    }

    fn with_write(&mut self, one: &Record) -> Result<(), AllocError>
        requires kind { kind one.now ≡ 3 }
        ensures { (s : Server) → DurableShown self.old s
            → OnOk result (DurableShown self.new (with_record s (record_of one.now))) }
    {
        let Record::Write {
            file,
            at,
            time,
            bytes,
            ..
        } = one
        else {
            unreachable!()
        };
        self.write_recorded(*file, *at, bytes.as_slice(), *time)
    }

    fn with_end(&mut self, one: &Record) -> Result<(), AllocError>
        requires kind { kind one.now ≡ 4 }
        ensures { (s : Server) → DurableShown self.old s
            → OnOk result (DurableShown self.new (with_record s (record_of one.now))) }
    {
        let Record::SetEnd {
            file,
            length,
            time,
            ..
        } = one
        else {
            unreachable!()
        };
        self.end_recorded(*file, *length, *time)
    }

    fn with_rename(&mut self, one: &Record) -> Result<(), AllocError>
        requires kind { kind one.now ≡ 7 }
        ensures { (s : Server) → DurableShown self.old s
            → OnOk result (DurableShown self.new (with_record s (record_of one.now))) }
    {
        let Record::Rename {
            file,
            replaced,
            path,
            ..
        } = one
        else {
            unreachable!()
        };
        self.rename_recorded(*file, *replaced, path.as_str())
    }

    fn with_lock(&mut self, one: &Record) -> Result<(), AllocError>
        requires kind { kind one.now ≡ 9 }
        ensures { (s : Server) → Fits s → DurableShown self.old s
            → OnOk result (DurableShown self.new (with_record s (record_of one.now))) }
    {
        let Record::Lock {
            id,
            index,
            number,
            status,
            elements,
            ..
        } = one
        else {
            unreachable!()
        };
        self.lock_recorded(*id, *index, *number, *status, elements.as_slice())
    }
}
