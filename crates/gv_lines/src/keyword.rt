//! The words that lines begin with.
ghost use Rattle.std.specs.Prelude.{◌≡◌};
ghost use Rattle.gv_lines.specs.Grammar.{keyword_of, keyword_from_timeline, keyword_from_map, keyword_from_withdraw};

use super::words::is_word;

/// The first word of a line.
#[derive(Clone, Copy)]
pub enum Keyword {
    Space,
    Limits,
    Buffer,
    Destroy,
    Uses,
    Timeline,
    Raise,
    Value,
    Bind,
    Plan,
    Map,
    At,
    Tables,
    Rewind,
    Journal,
    Withdraw,
    Settle,
    Told,
    Job,
    End,
}

impl Keyword {
    /// The keyword that a word is, if it is one. Its words are looked at five by five: the proof of a long row takes long.
    pub fn from_word(word: &[u8]) -> Option<Keyword>
        ensures { result ≡ keyword_of word.now }
    {
        if is_word(word, b"space") {
            Some(Keyword::Space)
        } else if is_word(word, b"limits") {
            Some(Keyword::Limits)
        } else if is_word(word, b"buffer") {
            Some(Keyword::Buffer)
        } else if is_word(word, b"destroy") {
            Some(Keyword::Destroy)
        } else if is_word(word, b"uses") {
            Some(Keyword::Uses)
        } else {
            Keyword::from_timeline(word)
        }
    }

    /// The same of a word that is none of the first five.
    fn from_timeline(word: &[u8]) -> Option<Keyword>
        ensures { result ≡ keyword_from_timeline word.now }
    {
        if is_word(word, b"timeline") {
            Some(Keyword::Timeline)
        } else if is_word(word, b"raise") {
            Some(Keyword::Raise)
        } else if is_word(word, b"value") {
            Some(Keyword::Value)
        } else if is_word(word, b"bind") {
            Some(Keyword::Bind)
        } else if is_word(word, b"plan") {
            Some(Keyword::Plan)
        } else {
            Keyword::from_map(word)
        }
    }

    /// The same of a word that is none of the first ten.
    fn from_map(word: &[u8]) -> Option<Keyword>
        ensures { result ≡ keyword_from_map word.now }
    {
        if is_word(word, b"map") {
            Some(Keyword::Map)
        } else if is_word(word, b"at") {
            Some(Keyword::At)
        } else if is_word(word, b"tables") {
            Some(Keyword::Tables)
        } else if is_word(word, b"rewind") {
            Some(Keyword::Rewind)
        } else if is_word(word, b"journal") {
            Some(Keyword::Journal)
        } else {
            Keyword::from_withdraw(word)
        }
    }

    /// The same of a word that is none of the first fifteen.
    fn from_withdraw(word: &[u8]) -> Option<Keyword>
        ensures { result ≡ keyword_from_withdraw word.now }
    {
        if is_word(word, b"withdraw") {
            Some(Keyword::Withdraw)
        } else if is_word(word, b"settle") {
            Some(Keyword::Settle)
        } else if is_word(word, b"told") {
            Some(Keyword::Told)
        } else if is_word(word, b"job") {
            Some(Keyword::Job)
        } else if is_word(word, b"end") {
            Some(Keyword::End)
        } else {
            None
        }
    }
}
