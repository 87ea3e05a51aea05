// Open: the recording and the counts are written, and nothing else.
ghost use Rattle.std.specs.Prelude.{◌≡◌, ◌++◌, ◌≤◌, length, drop};
ghost use Rattle.layout.specs.Memory.{memory};
ghost use Rattle.interface.specs.Effects.{Opens};

use crate::lent::fits;
use language::limits::Table;
use language::refusals::Refusal;

// The recording at the front of the readings; those behind it keep their contents. The library may need memcpy and memset alone, and
// copy_from_slice would need memmove here.
fn copy(recording: &[i32], readings: &mut [i32])
    requires { length recording.now ≤ length readings.old }
    ensures { readings.new ≡ recording.now ++ drop (length recording.now) readings.old }
{
    for i in 0..recording.len() {
        readings[i] = recording[i];
    }
}

// Refusal 2, over 1,024 readings; then 3, memory under its size.
pub fn open(
    recording: &[i32],
    readings: &mut [i32],
    heads: &mut [u32],
    links: &[u16],
    cells: &[u64],
) -> Result<(), Refusal>
    ensures { Opens
        (memory readings.old heads.old links.now cells.now)
        recording.now
        (memory readings.new heads.new links.now cells.now) result }
{
    let n = recording.len();
    if Table::READINGS < n {
        return Err(Refusal::RecordingTooLong);
    }
    if !fits(readings, heads, links, cells) {
        return Err(Refusal::MemoryTooSmall);
    }
    copy(recording, readings);
    heads[0] = 0;
    heads[1] = n as u32;
    Ok(())
}
