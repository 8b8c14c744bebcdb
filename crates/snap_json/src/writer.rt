// Text that grows by a token.
ghost use Rattle.std.specs.Prelude.{◌≡◌, ◌∷◌, [], decimal, IfOk, OnOk, string_bytes};
ghost use Rattle.json.specs.Print.{IsPrintable};
ghost use Rattle.json.specs.Reads.{token_of};
ghost use Rattle.json.specs.Token.{number};
ghost use Rattle.serde_json.specs.Data.{Data};
ghost use Rattle.serde_json.specs.Written.{compact_text};
ghost use Rattle.snap_json.specs.Tokens.{with_value};

use json::Token;
use std::alloc::{AllocError, Global};
use std::marker::Model;

/// JSON text that is being written, a token at a time. It places the commas and the colons. It keeps its
/// allocator.
///
/// Contracts see the tokens, the last one first. After an error nothing is said of them.
pub struct Writer {
    out: json::Writer,
}

// By hand: a derived one is proved anew, part by part, wherever a value is let go.
impl Drop for Writer {
    fn drop(self) {
        let Writer { out: _ } = self;
    }
}

impl Model for Writer {
    ghost use Rattle.std.specs.Prelude.{List};
    ghost use Rattle.json.specs.Token.{Token, tokens_code};

    ghost Value = { List Token };

    ghost coded = { tokens_code };

    ghost use Rattle.snap_json.specs.Writer.{writer_view, IsAlone};

    ghost view = { writer_view };

    ghost invariant = { IsAlone };
}

impl Writer {
    /// No token. Takes memory for a text of 128 bytes, and fails only where that is refused.
    pub fn new(alloc: Global) -> Result<Writer, AllocError>
        ensures { IfOk result (λ out. out ≡ []) }
    {
        let bytes = Vec::with_capacity(alloc, 128)?;
        Ok(Writer {
            out: json::Writer::new(bytes),
        })
    }

    /// Writes a token. Fails only where memory is wanting, which its text takes where there is no more
    /// room. Its cost grows with its text, on average.
    pub fn token(&mut self, token: Token<'_>) -> Result<(), AllocError>
        requires { IsPrintable (token_of token) }
        ensures { OnOk result (self.new ≡ token_of token.entry ∷ self.old) }
    {
        self.out.token(token)
    }

    /// Writes a number in decimal, as `token` writes.
    pub fn number(&mut self, n: u64) -> Result<(), AllocError>
        ensures { OnOk result (self.new ≡ number (decimal n) ∷ self.old) }
    {
        self.out.u64(n)
    }

    /// The text, where the tokens are those of a value: compact JSON, texts escaped as `serde_json` escapes
    /// them. Takes no memory. Its cost grows with the text, which is tested for UTF-8 once more.
    pub fn finish(self) -> String
        ensures { (d : Data) → self ≡ with_value d [] → string_bytes result ≡ compact_text d }
    {
        let Writer { out } = self;
        match String::from_utf8(out.into_inner()) {
            Ok(text) => text,
            Err(_) => unreachable!(),
        }
    }
}
