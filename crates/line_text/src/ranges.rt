//! Ranges of the numbers of a text.
ghost use Rattle.std.specs.Prelude.{◌≡◌};
ghost use Rattle.std.specs.List.{list_any};
ghost use Rattle.line_text.specs.Common.{is_out_of_range};

/// Whether a number is 0 or over `n`. Takes no memory.
pub fn is_out_of_range(n: u32, v: u32) -> bool
    ensures { result ≡ is_out_of_range n v }
{
    v == 0 || v > n
}

/// Whether one of the numbers is 0 or over `n`. Takes no memory, and O(k) time for k numbers.
pub fn has_out_of_range(n: u32, numbers: &[u32]) -> bool
    ensures { result ≡ list_any (is_out_of_range n) numbers.now }
{
    numbers.iter().any(|v| *v == 0 || *v > n)
}
