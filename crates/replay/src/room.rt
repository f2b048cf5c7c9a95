// The memory that the program lends, in arrays of its own.
ghost use Rattle.std.specs.Prelude.{◌≡◌, length};

pub(crate) fn zeros<T: Copy + Default, const N: usize>() -> [T; N]
    ensures { N ≡ length result }
{
    [T::default(); N]
}
