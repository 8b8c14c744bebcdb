ghost use Rattle.std.specs.Prelude.{◌≡◌};

use std::marker::Model;

/// A text that is lent: by a line, or where it has escapes by the scratch of the line's read. Contracts see its bytes.
#[derive(Drop)]
pub struct LentText<'line> {
    text: &'line str,
}

impl<'line> Model for LentText<'line> {
    ghost use Rattle.std.specs.Prelude.{List, ℕ};

    ghost Value = { List ℕ };

    ghost view = { λ t. t.text.now };
}

impl<'line> LentText<'line> {
    /// Lends the text. Takes no memory.
    pub fn new(text: &'line str) -> LentText<'line>
        ensures { result ≡ text.now }
    {
        LentText { text }
    }

    /// The text. Takes no memory. The cost is constant.
    pub fn as_str(&self) -> &'line str
        ensures { result.now ≡ self.now }
    {
        self.text
    }
}
