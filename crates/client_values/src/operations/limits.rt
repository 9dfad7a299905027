// What an operation may be, and what it pays.
ghost use Rattle.std.specs.Prelude.{◌≡◌, ◌≤◌, ◌&&◌, nat_le, length};
ghost use Rattle.spec_exchange.specs.Operations.{keeps_limits, is_spelled_path, are_below, fits_32, fits_64, weight, charge};
ghost use Rattle.client_values.specs.operations.Meaning.{op_of};

use crate::operations::values::OpKind;
use store_files::units;

/// Whether what an operation asks can be spelled, and is no more than a script's line gives: paths of 1,024 UTF-16 units,
/// reads and writes of 1,048,577 bytes.
pub fn keeps_limits(kind: &OpKind) -> bool
    ensures { result ≡ keeps_limits (op_of kind.now) }
{
    match kind {
        OpKind::Create {
            path,
            access,
            share,
            disposition,
            ..
        } => { is_short(path.as_str()) && fit(*access, *share, *disposition) }
        OpKind::Rename { path, .. } => is_short(path.as_str()),
        OpKind::Write { at, bytes, .. } => fits(*at) && are_few(bytes.as_slice()),
        OpKind::Read { at, length, .. } => fits(*at) && *length <= 1_048_577,
        OpKind::SetEnd { length, .. } => fits(*length),
        OpKind::SetTime { time, .. } => fits(*time),
        OpKind::Lock { at, length, .. } => fits(*at) && fits(*length),
        OpKind::Unlock { at, length, .. } => fits(*at) && fits(*length),
        _ => true,
    }
}

/// What has 8 bytes has no more.
fn fits(number: u64) -> bool
    ensures { result ≡ fits_64 number }
{
    let _any = number;
    true
}

/// What has 4 bytes each has no more.
fn fit(access: u32, share: u32, disposition: u32) -> bool
    ensures { result ≡ (fits_32 access && (fits_32 share && fits_32 disposition)) }
{
    let _any = (access, share, disposition);
    true
}

fn are_few(bytes: &[u8]) -> bool
    ensures { result ≡ (are_below 256 bytes.now && nat_le (length bytes.now) 1048577) }
{
    bytes.len() <= 1_048_577
}

fn is_short(path: &str) -> bool
    ensures { result ≡ is_spelled_path path.now }
{
    units(path.as_bytes()) <= 1024
}

impl OpKind {
    /// The larger of the bytes that it sends and the bytes that it asks for.
    pub fn weight(&self) -> u64
        ensures { result ≡ weight (op_of self.now) }
    {
        match self {
            OpKind::Write { bytes, .. } => bytes.len() as u64,
            OpKind::Read { length, .. } => u64::from(*length),
            OpKind::Stat { .. } => 24,
            OpKind::List { .. } => 1_048_576,
            _ => 0,
        }
    }
}

/// CreditCharge (MS-SMB2 3.1.5.2): one for each 65,536 bytes begun, and one where there are none.
pub fn charge(weight: u64) -> u8
    requires { weight ≤ 1048577 }
    ensures is { result ≡ charge weight }
    ensures few { result ≤ 17 }
{
    if weight == 0 {
        1
    } else {
        ((weight - 1) / 65_536 + 1) as u8
    }
}
