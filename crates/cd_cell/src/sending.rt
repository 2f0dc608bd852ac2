//! Notes, sent to the cells of their keys.
ghost use Rattle.std.specs.Prelude.{◌<◌, IsOk};
ghost use Rattle.cd_cell.specs.Sending.{SendsNotes};

use cd_actor::Outbox;
use cd_base::Memory;
use cd_context::Note;

/// Appends the notes, each for the cell of its key among so many. Linear in the notes and their keys. `Memory` leaves some of them behind.
pub(crate) fn send_all(cells: u32, notes: Vec<Note>, out: &mut Outbox<Note>) -> Result<(), Memory>
    requires { 0 < cells }
    ensures { SendsNotes cells (IsOk result) notes.items out.old out.new }
{
    for note in notes {
        let cell = note.key.place(cells);
        out.put(cell, note)?;
    }
    Ok(())
}
