// Where the row of a stretch stands in the table: by length, then by beginning.
ghost use Rattle.std.specs.Prelude.{◌≡◌, ◌≤◌};
ghost use Rattle.plain.specs.Table as table;

// The most tokens.
pub const TOKENS: usize = 64;

// How many stretches of `n` tokens have at most `m` tokens.
pub fn stretches_up_to(n: usize, m: usize) -> usize
    requires { (m ≤ n) × (n ≤ table.max_tokens) }
    ensures { result ≡ table.stretches_up_to n m }
{
    (m * (2 * n + 1) - m * m) / 2
}

// The row of the stretch of `l` tokens behind the first `i`, of `n` tokens.
pub fn place(n: usize, l: usize, i: usize) -> usize
    requires { table.Stretch n l i × (n ≤ table.max_tokens) }
    ensures { result ≡ table.place n l i }
{
    stretches_up_to(n, l - 1) + i
}
