// The walk: entry, export k, next and raise, over lent tables and a lent state. Each refuses by 1 and 22 first, and a refusal hands the state back.
#![tactic(auto)]

mod known;

ghost use Rattle.std.specs.Prelude.{◌≡◌, IfOk};
ghost use Rattle.format.specs.Walk as Spec;
ghost use Rattle.walk.specs.Known.{Known};

use crate::known::{export_in, raise_in};
use format::module::Module;
use format::walk::{State, Stayed};
use table_check::check;
use table_check::tables::Tables;
use walk_moves::{entered, stepped};

// What every event asks first; a refusal hands the state back.
fn checked<'a>(
    m: Module,
    file: &'a [u8],
    words: &'a [i32],
    state: State,
) -> Result<Tables<'a>, Stayed>
    ensures same { IfOk result (λ t. (t.«module» ≡ m) × (t.file.bytes ≡ file.entry) × (t.words ≡ words.entry)) }
    ensures says { Known m file.entry.now words.entry.now state result }
{
    check(m, file, words).map_err(|why| Stayed { why, state })
}

#[tactic(auto, using(crate::proofs::Events::entry_is))]
pub fn entry(m: Module, file: &[u8], words: &[i32], state: State) -> Result<State, Stayed>
    ensures { Spec.walk_of m file.now words.now Spec.entry state ≡ result }
{
    let tables = checked(m, file, words, state)?;
    Ok(entered(tables.places.counts.sizes(), m.header))
}

pub fn export(m: Module, file: &[u8], words: &[i32], k: u32, state: State) -> Result<State, Stayed>
    ensures { Spec.walk_of m file.now words.now (Spec.export k) state ≡ result }
{
    export_in(checked(m, file, words, state)?, k, state)
}

#[tactic(auto, using(crate::proofs::Events::next_is, crate::proofs::Events::code_fits))]
pub fn next(m: Module, file: &[u8], words: &[i32], state: State) -> Result<State, Stayed>
    ensures { Spec.walk_of m file.now words.now Spec.next state ≡ result }
{
    let tables = checked(m, file, words, state)?;
    Ok(stepped(tables.places.counts.sizes(), state))
}

pub fn raise(
    m: Module,
    file: &[u8],
    words: &[i32],
    name: &[u8],
    state: State,
) -> Result<State, Stayed>
    ensures { Spec.walk_of m file.now words.now (Spec.raise name.now) state ≡ result }
{
    let tables = checked(m, file, words, state)?;
    Ok(raise_in(tables, name, state))
}
