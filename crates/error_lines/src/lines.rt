//! Lines that are put together on the stack.
ghost use Rattle.std.specs.Prelude.{◌≡◌, ◌+◌, ◌≤◌, ◌++◌, decimal, length};

use arrayvec::ArrayVec;
use itoa::Buffer;

/// More than the longest line has.
const ROOM: usize = 320;

/// A line, or the front of one.
pub type Line = ArrayVec<u8, ROOM>;

/// Puts a text behind a line.
pub fn put(line: &mut Line, text: &str)
    requires { length line.old.items + length text.now ≤ ROOM }
    ensures { line.new.items ≡ line.old.items ++ text.now }
{
    let _ = line.try_extend_from_slice(text.as_bytes());
}

/// Puts a text and a number behind a line.
pub fn put_number(line: &mut Line, text: &str, number: u64)
    requires { length line.old.items + length text.now + 20 ≤ ROOM }
    ensures items { line.new.items ≡ line.old.items ++ (text.now ++ decimal number) }
    ensures len { length line.new.items ≤ length line.old.items + length text.now + 20 }
{
    put(line, text);
    put(line, Buffer::new().format(number));
}
