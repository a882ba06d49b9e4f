//! Laws of archives that are checked.

ghost use Rattle.ix_own_archive.specs.Laws.{ExportedIsNotRefused, StreamIsOfItsBytes};

use ix_receive::law;

/// States that the archive of a job within its limit, as it is exported, is refused for no reason but a
/// missing block that may not be, a root that can't be exported, or memory: over any store, whatever is
/// skipped, and whichever way the job was traversed.
pub fn exported_is_not_refused()
    ensures { ExportedIsNotRefused }
{
    law::archive_is_its_own();
}

/// States that a stream that goes on is the same however it was cut into pieces: which of its bytes are
/// checked, and how many sections, depends on its bytes alone.
pub fn stream_is_of_its_bytes()
    ensures { StreamIsOfItsBytes }
{}
