// Fields joined by '_': what stands after the next ones.
ghost use Rattle.std.specs.Prelude.{◌≡◌};
ghost use Rattle.receipt.specs.Separated.{after, skip};

// What follows the next '_'; nothing if there is none.
pub(crate) fn after(text: &[u8]) -> &[u8]
    ensures { result.now ≡ after text.now }
{
    match text.iter().position(|b| *b == b'_') {
        Some(n) => &text[n + 1..],
        None => &[],
    }
}

// What follows the first n of them.
pub(crate) fn skip(text: &[u8], n: usize) -> &[u8]
    ensures { result.now ≡ skip n text.now }
{
    let mut rest = text;
    for _ in 0..n {
        rest = after(rest);
    }
    rest
}
