// An event in tables that the check found good: the export's record, and the handlers.
ghost use Rattle.std.specs.Prelude.{◌≡◌, Ok};
ghost use Rattle.format.specs.Walk as Spec;

use format::module::EXPORT_WIDTH;
use format::refusal::Refusal;
use format::walk::{State, Stayed, Stop};
use table_check::tables::Tables;
use table_names::export_there;
use walk_moves::{caught, exported, standing_in};
use walk_search::search;

// 25, or where the export leads.
#[tactic(auto, using(crate::proofs::Events::exports_whole, crate::proofs::Events::export_room))]
pub fn export_in(tables: Tables, k: u32, state: State) -> Result<State, Stayed>
    ensures { Spec.walk_of tables.entry.«module» tables.entry.file.bytes.now tables.entry.words.now (Spec.export k) state ≡ result }
{
    let places = tables.places;
    let counts = places.counts;
    let number = k as usize;
    if counts.exports <= number {
        return Err(Stayed {
            why: Refusal::NoExport { number: k },
            state,
        });
    }
    let export = export_there(tables.words, places.at_exports + EXPORT_WIDTH * number);
    Ok(exported(counts.sizes(), export))
}

// Where a raised name leads, from a pc that the module has.
#[tactic(auto, using(crate::proofs::Events::handlers_whole))]
pub fn raise_in(tables: Tables, raised: &[u8], state: State) -> State
    ensures { Spec.walk_of tables.entry.«module» tables.entry.file.bytes.now tables.entry.words.now (Spec.raise raised.now) state ≡ Ok result }
{
    let places = tables.places;
    let counts = places.counts;
    match standing_in(counts.sizes(), state) {
        Err(same) => same,
        Ok((pc, _)) => {
            match search(
                tables.file.bytes,
                tables.words,
                counts.handlers,
                places.at_handlers,
                raised,
                pc,
            ) {
                None => State::Stopped(Stop::Uncaught),
                Some(chosen) => caught(counts.sizes(), chosen.descriptor, chosen.last, chosen.pc),
            }
        }
    }
}
