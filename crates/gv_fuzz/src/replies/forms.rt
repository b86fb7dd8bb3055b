//! The text of each JSON object that a reply may be, or have in it.

/// A kind of object, and what one of just the members in braces says. A member has its key, and how it is written: `n` a number, `s`
/// text, `a` an address of 16 digits, `x` one as short as can be, `t` nothing but true, `5` five numbers, and for true or not `f` the
/// word of flags, `r` a further word for read-only pages or none, `k` such a word for what is kept, `w` the word of a state; a kind; or
/// `+` or `*` and the kind of each object of a list, on a line of its own, where `+` says that a list is empty.
pub type Form = (&'static str, &'static str);

/// What a reply to a line that begins with a word is; `lone` where none with this word fits.
pub const FORMS: [Form; 50] = [
    ("map", "{mappings + mapping}"),
    ("journal", "{items + item}"),
    ("told", "{outcomes + outcome}"),
    ("plan", "{steps + step}"),
    ("show", "{operations + operation}"),
    ("past", "{past * turn}under {under place}\n"),
    ("job", "job {job n}\n{places * place}"),
    ("lone", "{place place}\n"),
    ("lone", "{tables 5}\n"),
    ("lone", "withdrawal of {withdrawal n}\n"),
    ("lone", "{timeline s} {value n}\n"),
    ("lone", "uses {uses n} kept {kept n}\n"),
    ("lone", "withdrawn {withdrawn n} as {as n}\n"),
    ("lone", "ok{ok t}\n"),
    ("lone", "idle{idle t}\n"),
    ("lone", "trimmed{trimmed t}\n"),
    ("lone", "accepted {accepted n}\n"),
    ("lone", "put {put n}\n"),
    ("lone", "rewound {rewound n}\n"),
    ("lone", "settled {settled n}\n"),
    ("lone", "forgot {forgot n}\n"),
    ("lone", "ended {ended n}\n"),
    ("lone", "refused {refused refusal}\n"),
    ("lone", "notready {notready wait}\n"),
    ("lone", "waits {waits wait}\n"),
    ("outcome", "{number n} accepted {accepted n}"),
    ("outcome", "{number n} refused {refused refusal}"),
    ("outcome", "{number n} notready {notready wait}"),
    ("refusal", "{fault s}"),
    ("refusal", "{fault s} {number n}"),
    ("refusal", "{op n} {fault s}"),
    ("refusal", "{op n} {fault s} {number n}"),
    ("wait", "{timeline s} {value n} have {have n}"),
    ("item", "{item n} withdrawal of {withdrawal n}"),
    ("item", "{item n} bind {queue n} {number n} {live w}"),
    ("turn", "{item n} {live w} {place place}"),
    ("place", "zero{zero t} {ro f}"),
    ("place", "{buffer s} {offset a} {ro f}"),
    ("mapping", "{start a} {end a} zero{zero t} {ro f}"),
    ("mapping", "{start a} {end a} {buffer s} {offset a} {ro f}"),
    ("step", "map {map mapping}"),
    ("step", "unmap {unmap mapping}{keep k}"),
    (
        "step",
        "remap {remap mapping} prev {prev mapping} next {next mapping}{keep k}",
    ),
    ("operation", "unmapall {unmapall s}"),
    ("operation", "unmap {unmap unmap}"),
    ("operation", "zero {zero zero}"),
    ("operation", "map {map buffer}"),
    ("unmap", "{addr x} {len x}"),
    ("zero", "{addr x} {len x}{ro r}"),
    ("buffer", "{addr x} {len x} {buffer s} {offset x}{ro r}"),
];
