ghost use Rattle.std.specs.Prelude.{◌≡◌, ◌≢◌, ◌++◌, IfOk, OnOk, OnErr, IsUtf8, encode_utf8, string_bytes};
ghost use Rattle.std.specs.Str.{IsAscii};

use std::alloc::{AllocError, Global};
use std::fmt;
use std::hash::{Hash, Hasher};
use std::marker::Model;
use thiserror::Error;

/// A `String` that contracts see as the list of its UTF-8 bytes.
#[derive(Debug, Drop)]
pub struct Text {
    inner: String,
}

/// Why bytes make no text.
#[derive(Clone, Copy, Debug, PartialEq, Eq, Error)]
pub enum TextMakeFault {
    #[error("the bytes are no UTF-8")]
    NotUtf8,
    #[error(transparent)]
    Memory(AllocError),
}

impl Model for Text {
    ghost use Rattle.std.specs.Prelude.{List, ℕ, string_bytes};

    ghost Value = { List ℕ };

    ghost view = { λ t. string_bytes t.inner };
}

impl Text {
    pub fn from_text(alloc: Global, text: &str) -> Result<Text, AllocError>
        ensures { IfOk result (λ t. t ≡ text.now) }
    {
        let inner = String::from_str(alloc, text)?;
        Ok(Text { inner })
    }

    /// Copies bytes that are UTF-8.
    pub fn from_bytes(alloc: Global, bytes: &[u8]) -> Result<Text, TextMakeFault>
        ensures ok { IfOk result (λ t. t ≡ bytes.now) }

        // Exactly the bytes that are no UTF-8 are refused as such.
        ensures utf8 { result ≢ Err TextMakeFault.NotUtf8 → IsUtf8 bytes.now }
        ensures not_utf8 { result ≡ Err TextMakeFault.NotUtf8 → ¬ (IsUtf8 bytes.now) }
    {
        match std::str::from_utf8(bytes) {
            Ok(text) => Text::from_text(alloc, text).map_err(TextMakeFault::Memory),
            Err(_) => Err(TextMakeFault::NotUtf8),
        }
    }

    /// Copies bytes that are known to be ASCII.
    pub fn from_ascii(alloc: Global, bytes: &[u8]) -> Result<Text, AllocError>
        requires { IsAscii bytes.now }
        ensures { IfOk result (λ t. t ≡ bytes.now) }
    {
        Text::from_text(alloc, std::str::from_utf8(bytes).unwrap())
    }

    pub fn from_string(inner: String) -> Text
        ensures { result ≡ string_bytes inner }
    {
        Text { inner }
    }

    pub fn bytes(&self) -> &[u8]
        ensures same { result.now ≡ self.now }
        ensures utf8 { IsUtf8 result.now }
    {
        self.inner.as_str().as_bytes()
    }

    pub fn as_str(&self) -> &str
        ensures { result.now ≡ self.now }
    {
        self.inner.as_str()
    }

    /// Appends the character, or changes nothing.
    pub fn push(&mut self, character: char) -> Result<(), AllocError>
        ensures ok { OnOk result (self.new ≡ self.old ++ encode_utf8 character) }
        ensures err { OnErr result (self.new ≡ self.old) }
    {
        self.inner.push(character)
    }

    pub fn copy(&self, alloc: Global) -> Result<Text, AllocError>
        ensures { IfOk result (λ t. t ≡ self.now) }
    {
        Text::from_text(alloc, self.inner.as_str())
    }
}

impl fmt::Display for Text {
    ghost use Rattle.std.specs.Prelude.{Some};

    ghost output = { λ t. Some t };

    fn fmt<W: fmt::Write>(&self, f: &mut fmt::Formatter<W>) -> fmt::Result {
        f.write_str(self.inner.as_str())
    }
}

/// Texts are compared and hashed as their bytes.
impl PartialEq for Text {
    ghost use Rattle.std.specs.Str.{bytes_eq};
    ghost use Rattle.std.specs.Cmp.{partial_equiv_from_equiv};
    ghost use Rattle.std.specs.Cmp.Lexicographic.{nat_list_eq_equiv};

    ghost eq = { λ a b. bytes_eq a b };

    ghost laws = { partial_equiv_from_equiv nat_list_eq_equiv };

    fn eq(&self, other: &Text) -> bool {
        self.as_str() == other.as_str()
    }
}

impl Eq for Text {
    ghost use Rattle.std.specs.Cmp.Lexicographic.{nat_list_eq_equiv};

    ghost laws = { nat_list_eq_equiv };
}

impl Hash for Text {
    ghost use Rattle.std.proofs.Common.{rules};
    ghost use Rattle.std.specs.Hash as hashed;
    ghost use Rattle.std.specs.Cmp.Rules.{hashing};

    ghost hash_input = { λ text. hashed.str text };

    ghost respects_eq = { Prim.search (hashing, rules) };

    fn hash<H: Hasher>(&self, state: &mut H) {
        self.as_str().hash(state);
    }
}
