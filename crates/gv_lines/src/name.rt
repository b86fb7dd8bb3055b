//! Names of buffers.
ghost use Rattle.std.specs.Prelude.{◌≡◌, nat_eq};
ghost use Rattle.std.specs.List.{list_all};
ghost use Rattle.std.specs.Cmp.{partial_equiv_from_equiv};
ghost use Rattle.std.specs.Cmp.Lexicographic.{pointwise, nat_list_eq_equiv};
ghost use Rattle.std.specs.Cmp.Rules.{hashing};
ghost use Rattle.std.specs.Hash as fed;
ghost use Rattle.std.proofs.Common.{rules};
ghost use Rattle.gv_lines.specs.Words.{is_name, is_name_byte, name_read};

use arrayvec::ArrayString;
use std::hash::{Hash, Hasher};
use std::marker::Model;
use std::str;

const NAME_LEN: usize = 16;

/// A name: a lower-case letter, then up to 15 lower-case letters, digits and underscores; `zero` is
/// none.
#[derive(Drop, Debug)]
pub struct Name {
    text: ArrayString<NAME_LEN>,
}

impl Model for Name {
    ghost use Rattle.std.specs.Prelude.{List, ℕ};

    ghost Value = { List ℕ };

    ghost view = { λ name. name.text.bytes };
}

impl Name {
    /// The name that a word is, if it is one.
    pub fn from_word(word: &[u8]) -> Option<Name>
        ensures { result ≡ name_read word.now }
    {
        if !is_name(word) {
            return None;
        }
        let Ok(text) = str::from_utf8(word) else {
            return None;
        };
        let text = ArrayString::from(text).ok()?;
        Some(Name { text })
    }

    /// Its text.
    pub fn as_str(&self) -> &str
        ensures { result.now ≡ self.now }
    {
        self.text.as_str()
    }
}

impl PartialEq for Name {
    ghost eq = { pointwise nat_eq };

    ghost laws = { partial_equiv_from_equiv nat_list_eq_equiv };

    fn eq(&self, other: &Self) -> bool {
        self.text == other.text
    }
}

impl Eq for Name {
    ghost laws = { nat_list_eq_equiv };
}

impl Hash for Name {
    ghost hash_input = { fed.str };

    ghost respects_eq = { Prim.search (hashing, rules) };

    fn hash<H: Hasher>(&self, state: &mut H) {
        self.text.hash(state);
    }
}

fn is_name(word: &[u8]) -> bool
    ensures { result ≡ is_name word.now }
{
    let Some((first, rest)) = word.split_first() else {
        return false;
    };
    if !first.is_ascii_lowercase() || rest.len() >= NAME_LEN {
        return false;
    }
    if !are_name_bytes(rest) {
        return false;
    }
    word != b"zero".as_slice()
}

fn are_name_bytes(bytes: &[u8]) -> bool
    ensures { result ≡ list_all is_name_byte bytes.now }
{
    bytes.iter().all(is_name_byte)
}

fn is_name_byte(byte: &u8) -> bool
    ensures { result ≡ is_name_byte byte.now }
{
    byte.is_ascii_lowercase() || byte.is_ascii_digit() || *byte == b'_'
}
