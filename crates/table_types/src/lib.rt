// 3: a type of the table words.
#![tactic(auto)]

ghost use Rattle.std.specs.Prelude.{◌≡◌, ◌+◌, ◌≤◌, length};
ghost use Rattle.format.specs.Words.{type_width};
ghost use Rattle.format.specs.WellFormed.{type_there, type_from};
ghost use Rattle.table_types.specs.Tests.{map_right};
ghost use Rattle.law_format.specs.Views.{record_at};

use bits::as_natural;
use format::module::TYPE_WIDTH;
use format::types::{Span, TypeDescriptor};
use spans::count_pointers;
use table_pieces::{has_room, is_span};

// As the words stand.
pub fn type_there(words: &[i32], w: usize) -> TypeDescriptor
    requires { w + type_width ≤ length words.now }
    ensures { result ≡ type_there words.now w }
{
    TypeDescriptor {
        id: words[w],
        size: words[w + 1],
        map: Span {
            start: words[w + 2],
            len: words[w + 3],
        },
        pointers: words[w + 4],
    }
}

// The map lies inside the file, and the pointer count is the number of its ones.
fn map_right(file: &[u8], t: TypeDescriptor) -> bool
    ensures { result ≡ map_right file.now t }
{
    is_span(file, t.map)
        && as_natural(t.pointers).is_some_and(|count| count == count_pointers(file, t.map))
}

#[tactic(auto, unfolding(format::specs::WellFormed::type_from))]
pub fn type_from(file: &[u8], words: &[i32], w: usize) -> Option<TypeDescriptor>
    ensures { record_at type_width w result ≡ type_from file.now words.now w }
{
    if !has_room(words, TYPE_WIDTH, w) {
        return None;
    }
    let descriptor = type_there(words, w);
    map_right(file, descriptor).then_some(descriptor)
}
