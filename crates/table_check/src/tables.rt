// What an accepted check hands on: the lent tables, known to be good, with the places of their sections.
ghost use Rattle.table_check.specs.Laid.{GoodAt};

use crate::Places;
use format::module::Module;
use format::types::File;

// Tables that were found good, and where their sections stand.
#[derive(Clone, Copy)]
pub struct Tables<'a> {
    pub module: Module,
    pub file: File<'a>,
    pub words: &'a [i32],
    pub places: Places,
    ghost good: { GoodAt «module» file.bytes.now words.now places },
}
