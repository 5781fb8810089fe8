// The line that tells of a refusal.
ghost use Rattle.std.specs.Prelude.{◌≡◌, ◌≤◌, true, length, is_some};
ghost use Rattle.text.specs.Lines.{refused_room, refused_text};
ghost use Rattle.text.specs.Written.{left_if_fits, length_if_fits};

use crate::write::put_only_line;
use faults::fault::Fault;

// Room that the line always fits: every number has at most 20 digits.
pub const REFUSED_ROOM: usize = 134;

// REFUSED and the number of the reason, its layer, and the offset, account, node and hour of its place.
// Where the buffer is too short nothing is written.
pub fn put_refused(buffer: &mut [u8], fault: &Fault) -> Option<usize>
    ensures answer { result ≡ length_if_fits (refused_text fault.now) buffer.old }
    ensures after { buffer.new ≡ left_if_fits (refused_text fault.now) buffer.old }
    ensures fits { refused_room ≤ length buffer.old → is_some result ≡ true }
{
    let place = fault.place;
    put_only_line(
        buffer,
        b"REFUSED",
        &[
            u64::from(fault.number()),
            u64::from(u8::from(fault.layer())),
            place.offset as u64,
            u64::from(place.account),
            u64::from(place.node),
            u64::from(place.hour),
        ],
    )
}
