// Entries put into lent memory, three numbers each.
ghost use Rattle.std.specs.Prelude.{◌≡◌, ◌+◌, ◌*◌, ◌%◌, ◌≤◌, length};
ghost use Rattle.buffers.specs.Painted.{painted};
ghost use Rattle.marks.specs.Summaries.{number_of, entries_length};
ghost use Rattle.marks.specs.inner.Shown.{number_by};

use crate::entry::Entry;
use crate::judged::Judged;
use crate::tables::Tables;

// Entry r.
pub fn put_entry(out: &mut [u16], r: usize, entry: Entry)
    requires { 3 * r + 3 ≤ length out.old }
    ensures { out.new ≡ painted out.old (3 * r) (3 * r + 3) (λ k. number_of entry (k % 3)) }
{
    // One by one: must-fail/least_kept leaves out the second.
    out[3 * r] = entry.count;
    out[3 * r + 1] = entry.least;
    out[3 * r + 2] = entry.greatest;
}

// The entries of all displayed rasters.
pub fn put_entries(picture: &Judged, tables: &Tables, out: &mut [u16])
    requires { (tables.now.depth ≡ picture.now.s.depth) × (entries_length picture.now.s ≤ length out.old) }
    ensures { out.new
        ≡ painted out.old 0 (entries_length picture.now.s)
        (number_by tables.now.shades.greys tables.now.shades.bright picture.now.s picture.now.video.now picture.now.cursor.now) }
{
    for r in 0..picture.rasters() {
        put_entry(out, r, picture.by_words(tables, r));
    }
}
