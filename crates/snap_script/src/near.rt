// Texts that are one edit apart.
ghost use Rattle.std.specs.Prelude.{◌≡◌};
ghost use Rattle.snap_script.specs.Near.{are_swapped, is_near};

/// Whether the first two bytes of the texts are swapped, and the rest is the same.
fn are_swapped(text: &[u8], other: &[u8]) -> bool
    ensures { result ≡ are_swapped text.now other.now }
{
    let [a, b, rest @ ..] = text else {
        return false;
    };
    let [c, d, others @ ..] = other else {
        return false;
    };
    *a == *d && *b == *c && rest == others
}

/// Whether one text becomes the other when one byte is changed, left out or put in, or two neighbours are
/// swapped. The cost grows with the shorter one.
pub(crate) fn is_near(mut text: &[u8], mut other: &[u8]) -> bool
    ensures { result ≡ is_near text.entry.now other.entry.now }
{
    while let [a, rest @ ..] = text {
        let [b, others @ ..] = other else {
            return rest.is_empty();
        };
        if *a != *b {
            return rest == others || text == others || rest == other || are_swapped(text, other);
        }
        text = rest;
        other = others;
    }
    other.len() == 1
}
