//! Connections whose other end may go away without a word, as a device server does that loses its power.

use libc::net::{
    IPPROTO_TCP, SO_KEEPALIVE, SOL_SOCKET, TCP_KEEPCNT, TCP_KEEPIDLE, TCP_KEEPINTVL, setsockopt,
};
use std::net::TcpStream;
use std::os::fd::AsRawFd;

/// After how many seconds in which nothing came the system asks the other end whether it is there.
const IDLE: i32 = 30;

/// How many seconds lie between two such questions.
const BETWEEN: i32 = 10;

/// So many of them in a row without an answer end the connection.
const MOST: i32 = 3;

/// The bytes of a number, as an option of a socket is told.
fn number(value: i32) -> [u8; 16] {
    let mut bytes = [0; 16];
    bytes[..4].copy_from_slice(&value.to_ne_bytes());
    bytes
}

/// Has the system end a connection whose other end has been silent for 30 seconds and does not answer for 30 more. A read of it fails then.
/// Whether the system does so.
pub fn keep_alive(stream: &TcpStream) -> bool {
    let fd = stream.as_raw_fd();
    let told = unsafe {
        [
            setsockopt(fd, IPPROTO_TCP, TCP_KEEPIDLE, &number(IDLE), 4),
            setsockopt(fd, IPPROTO_TCP, TCP_KEEPINTVL, &number(BETWEEN), 4),
            setsockopt(fd, IPPROTO_TCP, TCP_KEEPCNT, &number(MOST), 4),
            setsockopt(fd, SOL_SOCKET, SO_KEEPALIVE, &number(1), 4),
        ]
    };
    told.iter().all(|status| *status == 0)
}
