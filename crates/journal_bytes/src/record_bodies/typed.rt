//! What the types of their fields say of records: numbers fit, and texts are UTF-8.
ghost use Rattle.std.specs.Prelude.{◌≡◌, ◌<◌, ◌^◌, ◌++◌, ◌∷◌, [], IsUtf8, Some, length};
ghost use Rattle.journal_bytes.specs.record_bytes.Grammar.{AreInRange, HasUser, IsInRange, basic_table, kind, open_numbers, origin_table};
ghost use Rattle.spec_wire.specs.messages.Table.{AreWritable, Num};

use crate::record_bytes::{Basic, NewOpen, Origin, Record};
use wire_bytes::Text;

pub(crate) fn is_wide(_number: u64)
    ensures { _number < 256 ^ 8 }
{}

pub(crate) fn is_long(_number: u32)
    ensures { _number < 256 ^ 4 }
{}

fn is_byte(_number: u8)
    ensures { _number < 256 ^ 1 }
{}

pub(crate) fn is_text(text: &Text)
    ensures { IsUtf8 text.now }
{
    let _text = text.as_str();
}

fn is_origin(origin: &Origin)
    ensures { AreWritable (origin_table origin.now) }
{
    is_wide(origin.session);
    is_long(origin.connection);
    is_wide(origin.message);
}

pub(crate) fn is_basic(basic: &Basic)
    ensures { AreWritable (basic_table basic.now) }
{
    is_wide(basic.created);
    is_wide(basic.accessed);
    is_wide(basic.written);
    is_wide(basic.changed);
    is_long(basic.attributes);
}

fn is_guid(guid: &[u8; 16])
    ensures { length guid.now ≡ 16 }
{
    let _guid = *guid;
}

#[tactic(auto, using(crate::proofs::record_bodies::Values::open_typed))]
fn is_new_open(new: &NewOpen)
    ensures numbers { AreWritable (open_numbers (Some new.now)) }
    ensures user { IsUtf8 new.now.user }
{
    is_wide(new.id);
    is_guid(&new.client);
    is_guid(&new.guid);
    is_long(new.access);
    is_long(new.share);
    is_long(new.options);
    is_long(new.timeout);
    is_text(&new.user);
}

fn is_open(opened: &Option<NewOpen>)
    ensures numbers { AreWritable (open_numbers opened.now) }
    ensures user { HasUser opened.now }
{
    match opened {
        Some(new) => is_new_open(new),
        None => {}
    }
}

#[tactic(auto, using(crate::proofs::record_bodies::Values::create_typed))]
fn is_create(one: &Record)
    requires kind { kind one.now ≡ 2 }
    ensures { IsInRange one.now }
{
    let Record::Create {
        origin,
        action,
        file,
        path,
        attributes,
        time,
        opened,
        ..
    } = one
    else {
        unreachable!()
    };
    is_origin(origin);
    is_long(*action);
    is_wide(*file);
    is_text(path);
    is_long(*attributes);
    is_wide(*time);
    is_open(opened);
}

#[tactic(auto, using(crate::proofs::record_bodies::Values::lock_typed))]
fn is_lock(one: &Record)
    requires kind { kind one.now ≡ 9 }
    ensures { IsInRange one.now }
{
    let Record::Lock {
        origin,
        id,
        index,
        number,
        status,
        ..
    } = one
    else {
        unreachable!()
    };
    is_origin(origin);
    is_wide(*id);
    is_byte(*index);
    is_byte(*number);
    is_long(*status);
}

#[tactic(auto, using(crate::proofs::record_bodies::Values::rename_typed))]
fn is_rename(one: &Record)
    requires kind { kind one.now ≡ 7 }
    ensures { IsInRange one.now }
{
    let Record::Rename {
        origin,
        file,
        replaced,
        path,
    } = one
    else {
        unreachable!()
    };
    is_origin(origin);
    is_wide(*file);
    is_wide(*replaced);
    is_text(path);
}

#[tactic(auto, using(crate::proofs::record_bodies::Values::write_typed))]
fn is_write(one: &Record)
    requires kind { kind one.now ≡ 3 }
    ensures { IsInRange one.now }
{
    let Record::Write {
        origin,
        file,
        at,
        time,
        ..
    } = one
    else {
        unreachable!()
    };
    is_origin(origin);
    is_wide(*file);
    is_wide(*at);
    is_wide(*time);
}

#[tactic(auto, using(crate::proofs::record_bodies::Values::end_typed))]
fn is_end(one: &Record)
    requires kind { kind one.now ≡ 4 }
    ensures { IsInRange one.now }
{
    let Record::SetEnd {
        origin,
        file,
        length,
        time,
    } = one
    else {
        unreachable!()
    };
    is_origin(origin);
    is_wide(*file);
    is_wide(*length);
    is_wide(*time);
}

#[tactic(auto, using(crate::proofs::record_bodies::Values::basic_typed))]
fn is_basic_record(one: &Record)
    requires kind { kind one.now ≡ 5 }
    ensures { IsInRange one.now }
{
    let Record::SetBasic {
        origin,
        file,
        basic,
    } = one
    else {
        unreachable!()
    };
    is_origin(origin);
    is_wide(*file);
    is_basic(basic);
}

fn is_named(origin: &Origin, number: u64)
    ensures { AreWritable (origin_table origin.now ++ Num 8 number ∷ []) }
{
    is_origin(origin);
    is_wide(number);
}

#[tactic(auto, using(crate::proofs::record_bodies::Values::epoch_typed, crate::proofs::record_bodies::Values::version_typed, crate::proofs::record_bodies::Values::delete_typed, crate::proofs::record_bodies::Values::remove_typed, crate::proofs::record_bodies::Values::shut_typed, crate::proofs::record_bodies::Values::expire_typed))]
fn is_typed(one: &Record)
    ensures { IsInRange one.now }
{
    match one {
        Record::Epoch { number } => is_long(*number),
        Record::Create { .. } => is_create(one),
        Record::Write { .. } => is_write(one),
        Record::SetEnd { .. } => is_end(one),
        Record::SetBasic { .. } => is_basic_record(one),
        Record::SetDelete { origin, file, .. } => is_named(origin, *file),
        Record::Rename { .. } => is_rename(one),
        Record::Remove { origin, file } => is_named(origin, *file),
        Record::Lock { .. } => is_lock(one),
        Record::Shut { origin, id } => is_named(origin, *id),
        Record::Version { number } => is_long(*number),
        Record::Expire { origin, id } => is_named(origin, *id),
    }
}

/// Numbers fit the fields of their types, and texts are UTF-8. It does nothing when it runs.
pub(crate) fn are_typed(records: &[Record])
    ensures { AreInRange records.now }
{
    for one in records {
        is_typed(one);
    }
}
