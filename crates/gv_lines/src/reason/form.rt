//! Words that are of no form.
use super::shown::{Shown, write_word};
use std::fmt;

/// Why words are of no form. `form` is the whole form of a line or of a clause, and `part` one of its words.
#[derive(Clone, Copy)]
pub enum Form<'a> {
    /// The line or clause ends before this part.
    Missing {
        part: &'static [u8],
        form: &'static str,
    },
    /// The line or clause goes on after its form.
    TooMany {
        word: &'a [u8],
        form: &'static str,
    },
    /// After the form only `ro` may follow, and this does.
    NotReadOnly {
        word: &'a [u8],
    },
    /// One side of a separator is empty.
    NoClause,
    /// A separator is in a line that has no clauses.
    StraySeparator,
    /// Two clauses name a queue.
    SecondQueue,
}

impl fmt::Display for Form<'_> {
    fn fmt<W: fmt::Write>(&self, f: &mut fmt::Formatter<W>) -> fmt::Result {
        match *self {
            Form::Missing { part, form } => write_missing(f, part, form),
            Form::TooMany { word, form } => {
                write_word(f, word, "; nothing may follow ")?;
                f.write_str(form)
            }
            Form::NotReadOnly { word } => write_word(f, word, "; only ro is allowed here"),
            Form::NoClause => f.write_str("an empty clause; each side of ; needs one"),
            Form::StraySeparator => f.write_str("; separates only clauses and accesses"),
            Form::SecondQueue => f.write_str("a second queue clause; there is at most one"),
        }
    }
}

fn write_missing<W: fmt::Write>(f: &mut fmt::Formatter<W>, part: &[u8], form: &str) -> fmt::Result {
    let part = Shown(part);
    write!(f, "no {part}; the form is {form}")
}
