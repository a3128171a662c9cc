// Writing at a place of a lent run.
ghost use Rattle.std.specs.Prelude.{◌≡◌, ◌+◌, ◌≤◌, length};
ghost use Rattle.format.specs.Put.{put};

// So many values at a place, and the place after them.
pub fn put_all<T: Copy, const N: usize>(run: &mut [T], at: usize, values: [T; N]) -> usize
    requires { at + N ≤ length run.old }
    ensures place { result ≡ at + N }
    ensures stored { run.new ≡ put at values run.old }
{
    run[at..at + N].copy_from_slice(&values);
    at + N
}
