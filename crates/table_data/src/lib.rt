// 4: a data item of the table words. The kind is in range, what a kind fixes is as it fixes it, and the value's length is right for kind and count.
#![tactic(auto)]

ghost use Rattle.std.specs.Prelude.{◌≡◌, ◌+◌, ◌≤◌, ◌<◌, ◌^◌, length};
ghost use Rattle.format.specs.Records.{shape_of};
ghost use Rattle.format.specs.Words.{item_width};
ghost use Rattle.format.specs.WellFormed.{item_from};
ghost use Rattle.table_data.specs.Tests.{item_there, kind_there, shape_right, value_right, item_right, item_said};
ghost use Rattle.format.specs.Views.{maybe};
ghost use Rattle.law_format.specs.Views.{record_at};

use bits::as_natural;
use format::module::{DataItem, DataKind, ITEM_WIDTH, Shape};
use format::types::Span;
use table_pieces::{byte_of, has_room, is_span};
use values::module::shape_of;

// Of a kind, as the words stand.
fn item_of(words: &[i32], kind: DataKind, w: usize) -> DataItem
    requires { w + item_width ≤ length words.now }
    ensures { result ≡ item_there words.now kind w }
{
    DataItem {
        kind,
        offset: words[w + 1],
        count: words[w + 2],
        value: Span {
            start: words[w + 3],
            len: words[w + 4],
        },
    }
}

// As the words stand, of which the first is known to say a kind.
#[tactic(auto, using(crate::proofs::Items::kind_says))]
pub fn item_there(words: &[i32], w: usize) -> DataItem
    requires { w + item_width ≤ length words.now }
    ensures { result ≡ item_there words.now (kind_there words.now w) w }
{
    let kind = DataKind::try_from(byte_of(words[w])).unwrap_or(DataKind::Bytes);
    item_of(words, kind, w)
}

// Kind 7 has offset 0, count 1 and an empty value at place 0.
fn nothing_right(offset: usize, n: usize, start: usize, len: usize) -> bool
    ensures { result ≡ shape_right Shape.Nothing offset n start len }
{
    offset == 0 && n == 1 && start == 0 && len == 0
}

// What the kind fixes of offset, count n, and the value's start and length.
fn shape_right(kind: DataKind, offset: usize, n: usize, start: usize, len: usize) -> bool
    requires { n < 2 ^ 31 }
    ensures { result ≡ shape_right (shape_of kind) offset n start len }
{
    match shape_of(kind) {
        Shape::Bytes => n == len,
        Shape::Words(k) => k * n * 4 == len,
        Shape::Single(k) => 1 == n && k * 4 == len,
        Shape::Nothing => nothing_right(offset, n, start, len),
    }
}

fn value_right(d: DataItem) -> bool
    ensures { result ≡ value_right d }
{
    let Some(offset) = as_natural(d.offset) else {
        return false;
    };
    let Some(count) = as_natural(d.count) else {
        return false;
    };
    let Some(start) = as_natural(d.value.start) else {
        return false;
    };
    let Some(len) = as_natural(d.value.len) else {
        return false;
    };
    shape_right(d.kind, offset, count, start, len)
}

fn item_right(file: &[u8], d: DataItem) -> bool
    ensures { result ≡ item_right file.now d }
{
    value_right(d) && is_span(file, d.value)
}

// What the five words say.
#[tactic(auto, using(crate::proofs::Items::kind_says))]
fn item_said(file: &[u8], words: &[i32], w: usize) -> Option<DataItem>
    requires { w + item_width ≤ length words.now }
    ensures { maybe result ≡ item_said file.now words.now w }
{
    let kind = DataKind::try_from(byte_of(words[w])).ok()?;
    let item = item_of(words, kind, w);
    item_right(file, item).then_some(item)
}

#[tactic(auto, using(crate::proofs::Items::item_says))]
pub fn item_from(file: &[u8], words: &[i32], w: usize) -> Option<DataItem>
    ensures { record_at item_width w result ≡ item_from file.now words.now w }
{
    if !has_room(words, ITEM_WIDTH, w) {
        return None;
    }
    item_said(file, words, w)
}
