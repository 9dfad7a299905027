//! What a SET_INFO makes of what a file has (MS-FSCC 2.4).
ghost use Rattle.std.specs.Prelude.{◌≡◌};
ghost use Rattle.spec_exchange.specs.CheckOpen.{target_of};
ghost use Rattle.spec_exchange.specs.Files.{may_set_attributes, may_set_time, may_set_times, set_attributes, set_basic, set_time};

use crate::verdicts::bits::has_bit;
use wire_commands::Basic;

/// The times and attributes behind a FileBasicInformation (MS-FSCC 2.4.7).
#[tactic(auto, unfolding(spec_exchange::specs::Files::set_basic))]
pub fn set_basic(old: &Basic, asked: &Basic) -> Basic
    ensures { result ≡ set_basic old.now asked.now }
{
    Basic {
        created: set_time(old.created, asked.created),
        accessed: set_time(old.accessed, asked.accessed),
        written: set_time(old.written, asked.written),
        changed: set_time(old.changed, asked.changed),
        attributes: set_attributes(old.attributes, asked.attributes),
    }
}

// Attributes of 0 stay; NORMAL, alone, takes all of them away.
#[tactic(auto, unfolding(spec_exchange::specs::Files::set_attributes))]
fn set_attributes(old: u32, asked: u32) -> u32
    ensures { result ≡ set_attributes old asked }
{
    if asked == 0 {
        return old;
    }
    if asked == 0x80 {
        return 0;
    }
    asked
}

// A time of 0, -1 or -2 stays.
#[tactic(auto, unfolding(spec_exchange::specs::Files::set_time))]
fn set_time(old: u64, time: u64) -> u64
    ensures { result ≡ set_time old time }
{
    if time == 0 {
        return old;
    }
    if time >= 0xffff_ffff_ffff_fffe {
        return old;
    }
    time
}

/// Whether these attributes can be told of a file or directory: no directory can be made TEMPORARY, and no file a DIRECTORY.
#[tactic(auto, unfolding(spec_exchange::specs::Files::may_set_attributes))]
pub fn may_set_attributes(directory: bool, asked: u32) -> bool
    ensures { result ≡ may_set_attributes directory asked }
{
    if directory {
        !has_bit(asked, 0x100)
    } else {
        !has_bit(asked, 0x10)
    }
}

/// Whether none of the times, of 64 bits with a sign, is below -2.
#[tactic(auto, unfolding(spec_exchange::specs::Files::may_set_times))]
pub fn may_set_times(asked: &Basic) -> bool
    ensures { result ≡ may_set_times asked.now }
{
    may_set_time(asked.created)
        && (may_set_time(asked.accessed)
            && (may_set_time(asked.written) && may_set_time(asked.changed)))
}

#[tactic(auto, unfolding(spec_exchange::specs::Files::may_set_time))]
fn may_set_time(time: u64) -> bool
    ensures { result ≡ may_set_time time }
{
    time < 0x8000_0000_0000_0000 || time >= 0xffff_ffff_ffff_fffe
}

/// What a rename takes the place of: the file itself is nothing to replace.
pub fn target_of(file: u64, found: Option<u64>) -> Option<u64>
    ensures { result ≡ target_of file found }
{
    match found {
        Some(target) => if target == file { None } else { Some(target) },
        None => None,
    }
}
