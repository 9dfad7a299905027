//! Options of sockets that the standard library has no call for.
use libc::net::{
    IPPROTO_TCP, SO_KEEPALIVE, SO_RCVTIMEO, SOL_SOCKET, TCP_KEEPCNT, TCP_KEEPIDLE, TCP_KEEPINTVL,
    setsockopt,
};
use std::net::{TcpListener, TcpStream};
use std::os::fd::AsRawFd;

// A number of the C type int.
fn int(value: u8) -> [u8; 16] {
    let mut bytes = [0; 16];
    bytes[0] = value;
    bytes
}

/// Has the system ask a silent peer after 60 seconds whether it is still there, three times, 20 seconds apart; then the link fails. A
/// refused option is no fault.
pub(crate) fn keep_alive(stream: &TcpStream) {
    let fd = stream.as_raw_fd();
    unsafe {
        let _ = setsockopt(fd, SOL_SOCKET, SO_KEEPALIVE, &int(1), 4);
        let _ = setsockopt(fd, IPPROTO_TCP, TCP_KEEPIDLE, &int(60), 4);
        let _ = setsockopt(fd, IPPROTO_TCP, TCP_KEEPINTVL, &int(20), 4);
        let _ = setsockopt(fd, IPPROTO_TCP, TCP_KEEPCNT, &int(3), 4);
    }
}

/// Has `accept` answer after a tenth of a second where nobody connects, so that whoever accepts can look at something else.
pub(crate) fn look_up_often(listener: &TcpListener) {
    // A struct timeval: no second, and 100,000 microseconds.
    let mut tenth = [0; 16];
    tenth[8..12].copy_from_slice(&100_000u32.to_le_bytes());
    unsafe {
        let _ = setsockopt(listener.as_raw_fd(), SOL_SOCKET, SO_RCVTIMEO, &tenth, 16);
    }
}
