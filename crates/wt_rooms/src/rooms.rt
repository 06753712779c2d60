//! What is put into the rooms of a caller, and the lengths that are said of it.

ghost use Rattle.std.specs.Prelude.{◌≡◌, ◌≤◌, ◌++◌, ◌&&◌, nat_le, drop, length};
ghost use Rattle.wt_rooms.specs.Rooms.{room, IsHandedBack};
ghost use Rattle.wt_rooms.specs.ReplyView.{told_of};

use crate::reply::{Reply, SHORT};

/// Puts a text at the front of a room.
fn put(text: &[u8], room: &mut [u8])
    requires { length text.now ≤ length room.old }
    ensures { room.new ≡ text.now ++ drop (length text.now) room.old }
{
    room[..text.len()].copy_from_slice(text);
}

fn fit(reply: &Reply, out: &[u8], line: &[u8], missing: &[u8]) -> bool
    ensures { result ≡ (nat_le (length reply.now.out) (length out.now)
        && (nat_le (length reply.now.line) (length line.now)
        && nat_le (length reply.now.missing) (length missing.now))) }
{
    reply.out.len() <= out.len()
        && reply.line.len() <= line.len()
        && reply.missing.len() <= missing.len()
}

/// Says how long each text is, and puts all into their rooms where each fits. The result is the status
/// with which the call ends.
pub fn hand_back(
    reply: &Reply,
    out: &mut [u8],
    out_length: &mut usize,
    line: &mut [u8],
    line_length: &mut usize,
    missing: &mut [u8],
    missing_length: &mut usize,
) -> u8
    ensures { IsHandedBack (told_of reply.now) (room out.old out.new out_length.new)
        (room line.old line.new line_length.new) (room missing.old missing.new missing_length.new) result }
{
    *out_length = reply.out.len();
    *line_length = reply.line.len();
    *missing_length = reply.missing.len();
    if !fit(reply, out, line, missing) {
        return SHORT;
    }
    put(reply.out.as_slice(), out);
    put(reply.line.as_slice(), line);
    put(reply.missing.as_slice(), missing);
    reply.status
}

/// Says that no text is given: memory ran out.
pub fn hand_nothing(out_length: &mut usize, line_length: &mut usize, missing_length: &mut usize)
    ensures out { out_length.new ≡ 0 }
    ensures line { line_length.new ≡ 0 }
    ensures missing { missing_length.new ≡ 0 }
{
    *out_length = 0;
    *line_length = 0;
    *missing_length = 0;
}
