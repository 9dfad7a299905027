/// Where a peer listens: an IPv4 address, its first byte the highest, and a port.
#[derive(Clone, Copy, Debug, PartialEq, Eq)]
pub struct Address {
    pub ip: u32,
    pub port: u16,
}
