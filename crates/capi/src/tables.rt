//! The table file, for C.
ghost use Rattle.std.specs.Prelude.{◌≡◌};
ghost use Rattle.table.specs.Format.{load_of, said_of, handed_out};
ghost use Rattle.table.specs.Writing.{write_of};
ghost use Rattle.cstructs.specs.Answers.{loaded_c, written_c, handed_output, wrote_c};

use cstructs::{TableLoaded, TableWritten};
use layout::Table;
use table::{load, table_check, write};

/// 0 where the file is accepted, else the number of the refusal.
#[unsafe(no_mangle)]
pub extern "C" fn strip_table_check(bytes: &[u8]) -> u32
    ensures { result ≡ (said_of (load_of bytes.now)).number }
{
    table_check(bytes)
}

/// The table of a file, or the refusal and a table with no rectangle.
#[unsafe(no_mangle)]
pub extern "C" fn strip_table_load(bytes: &[u8]) -> TableLoaded
    ensures { result ≡ loaded_c (handed_out (load_of bytes.now)) }
{
    load(bytes).into()
}

/// The length of the file written to the start of out, or the refusal.
#[unsafe(no_mangle)]
pub extern "C" fn strip_table_write(table: Table, out: &mut [u8]) -> TableWritten
    ensures { handed_output result out.new ≡ wrote_c written_c (write_of table out.old) }
{
    write(table, out).into()
}
