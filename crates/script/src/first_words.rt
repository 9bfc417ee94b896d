// A line's first words: held and open, which may stand before a question, and the verb.
use crate::text::Words;
use crate::verbs::Verb;
use crate::wrong::Why;

// The verb, what stands before it, and the words behind it. Behind held or open it is a question.
#[derive(Clone, Copy)]
pub struct Said<'a> {
    pub is_held: bool,
    pub is_open: bool,
    pub verb: Verb,
    pub words: Words<'a>,
}

// What a line says, if it says anything; else what is wrong.
pub fn said_from<'a>(line: Words<'a>) -> Result<Option<Said<'a>>, Why<'a>> {
    let mut words = line;
    let Some(first) = words.next() else {
        return Ok(None);
    };
    let is_held = first == b"held".as_slice();
    let second = if is_held { words.next() } else { Some(first) };
    let is_open = second == Some(b"open".as_slice());
    let third = if is_open { words.next() } else { second };
    let verb = if is_held | is_open {
        question(third)?
    } else {
        Verb::try_from(first)?
    };
    Ok(Some(Said {
        is_held,
        is_open,
        verb,
        words,
    }))
}

// The question that stands behind held or open; else what is wrong.
fn question<'a>(word: Option<&'a [u8]>) -> Result<Verb, Why<'a>> {
    match word {
        None => Err(Why::NoQuestion),
        Some(b"ask") => Ok(Verb::Ask),
        Some(b"equal") => Ok(Verb::Equal),
        Some(b"held" | b"open") => Err(Why::NotOnce),
        Some(word) => Err(Why::NotBefore(word)),
    }
}
