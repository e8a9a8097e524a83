//! How a connection ends.
use std::io::{Read, Write};
use std::net::{OpenStream, Shutdown};
use std::time::Duration;

/// How many seconds a read waits for what is still on its way.
const MOST_SECONDS: u64 = 2;

/// How many reads are dropped, and how many bytes each gives at most.
const MOST_READS: u32 = 256;

const ROOM: usize = 16_384;

/// Ends a connection: tells its peer that nothing more comes, reads and drops what the peer still
/// sends, up to its end or a bound, and closes it. A connection that is closed while bytes are
/// unread is reset, which takes from a peer that was still sending the last reply.
pub(crate) fn part<S: Read + Write + OpenStream + Drop>(stream: S) {
    let mut stream = stream;
    let most = Duration::from_secs(MOST_SECONDS);
    let is_told = stream.shutdown(Shutdown::Write).is_ok();
    if is_told && stream.set_read_timeout(Some(most)).is_ok() {
        drop_rest(&mut stream);
    }
}

fn drop_rest<S: Read>(stream: &mut S) {
    let mut room = [0u8; ROOM];
    for _ in 0..MOST_READS {
        match stream.read(&mut room) {
            Ok(count) if count > 0 => {}
            _ => return,
        }
    }
}
