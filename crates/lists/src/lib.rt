// Tables by block number or by arm, read without a bound to show; and, in proofs/, the laws on lists as tables.
#![tactic(auto)]

ghost use Rattle.std.specs.Prelude.{◌≡◌, get_or};

// What a table has for number n, `none` past its end.
pub fn at<T: Copy, const N: usize>(table: &[T; N], n: u16, none: T) -> T
    ensures { result ≡ get_or table.now n none }
{
    table.get(usize::from(n)).copied().unwrap_or(none)
}
