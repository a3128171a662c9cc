// The functions of crate `abi` for C, declared in include/dis.h: the static library that C programs link with.
#![tactic(auto)]

ghost use Rattle.std.specs.Prelude.{◌≡◌};
ghost use Rattle.format.specs.Walk as Walk;
ghost use Rattle.abi.specs.Boundary as Spec;

// A file, into words and a module's numbers.
#[unsafe(no_mangle)]
pub extern "C" fn dis_load(
    file: &[u8],
    words: &mut [i32],
    numbers: &mut [i32],
    answer: &mut [i64],
) -> i32
    ensures { Spec.dis_load file.now words.old numbers.old answer.old ≡ (result, words.new, numbers.new, answer.new) }
{
    abi::dis_load(file, words, numbers, answer)
}

// A module, into bytes.
#[unsafe(no_mangle)]
pub extern "C" fn dis_write(
    numbers: &[i32],
    file: &[u8],
    words: &[i32],
    out: &mut [u8],
    answer: &mut [i64],
) -> i32
    ensures { Spec.dis_write numbers.now file.now words.now out.old answer.old ≡ (result, out.new, answer.new) }
{
    abi::dis_write(numbers, file, words, out, answer)
}

// The walk: to the module's entry.
#[unsafe(no_mangle)]
pub extern "C" fn dis_entry(
    numbers: &[i32],
    file: &[u8],
    words: &[i32],
    state: &mut [i32],
    answer: &mut [i64],
) -> i32
    ensures { Spec.dis_walk Walk.entry numbers.now file.now words.now state.old answer.old ≡ (result, state.new, answer.new) }
{
    abi::dis_entry(numbers, file, words, state, answer)
}

// The walk: to export k.
#[unsafe(no_mangle)]
pub extern "C" fn dis_export(
    numbers: &[i32],
    file: &[u8],
    words: &[i32],
    k: u32,
    state: &mut [i32],
    answer: &mut [i64],
) -> i32
    ensures { Spec.dis_walk (Walk.export k) numbers.now file.now words.now state.old answer.old ≡ (result, state.new, answer.new) }
{
    abi::dis_export(numbers, file, words, k, state, answer)
}

// The walk: to the next instruction.
#[unsafe(no_mangle)]
pub extern "C" fn dis_next(
    numbers: &[i32],
    file: &[u8],
    words: &[i32],
    state: &mut [i32],
    answer: &mut [i64],
) -> i32
    ensures { Spec.dis_walk Walk.next numbers.now file.now words.now state.old answer.old ≡ (result, state.new, answer.new) }
{
    abi::dis_next(numbers, file, words, state, answer)
}

// The walk: a name is raised.
#[unsafe(no_mangle)]
pub extern "C" fn dis_raise(
    numbers: &[i32],
    file: &[u8],
    words: &[i32],
    name: &[u8],
    state: &mut [i32],
    answer: &mut [i64],
) -> i32
    ensures { Spec.dis_walk (Walk.raise name.now) numbers.now file.now words.now state.old answer.old ≡ (result, state.new, answer.new) }
{
    abi::dis_raise(numbers, file, words, name, state, answer)
}
