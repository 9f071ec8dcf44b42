#![tactic(auto)]
// The notes by the table of other_table, for C.
ghost use Rattle.writing.specs.Over.{Wrote};
ghost use Rattle.other_table.specs.OtherTable.{notes_text};

// The notes of a set with a trailer, from the start of what is lent, as far as they fit; their full length is returned.
#[unsafe(no_mangle)]
pub extern "C" fn x12_other_table_notes(set: &[u8], out: &mut [u8]) -> usize
    ensures { Wrote (notes_text set.now) result out.old out.new }
{
    other_table::x12_other_table_notes(set, out)
}
