// Import modules with their functions, handlers with their cases: groups of records, each kind in a section under its flag.
ghost use Rattle.std.specs.Prelude.{◌≡◌};
ghost use Rattle.rows.specs.Groups.{section_of, flag_of};

use format::module::Flag;
use values::module::contains;

#[derive(Clone, Copy)]
pub enum Group {
    Imports,
    Handlers,
}

pub fn section_of(group: Group) -> u8
    ensures { result ≡ section_of group }
{
    match group {
        Group::Imports => 7,
        Group::Handlers => 8,
    }
}

pub fn flag_of(group: Group, flags: i32) -> bool
    ensures { result ≡ flag_of group flags }
{
    match group {
        Group::Imports => contains(flags, Flag::HasImport),
        Group::Handlers => contains(flags, Flag::HasHandler),
    }
}
