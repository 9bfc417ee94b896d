// The numbers of a line.
use crate::text::{Words, number_in};
use crate::verbs::Verb;
use crate::wrong::Why;

// A word as a number; else why it is none.
pub fn read<'a>(word: &'a [u8]) -> Result<u32, Why<'a>> {
    number_in(word).map_err(|why| Why::Number(why, word))
}

// The numbers of a line, as many as its verb takes; else what is wrong.
pub fn read_all<'a, const N: usize>(verb: Verb, words: Words<'a>) -> Result<[u32; N], Why<'a>> {
    let got = words.count();
    if got != N {
        return Err(Why::Numbers {
            verb,
            takes: N,
            got,
        });
    }
    let mut numbers = [0; N];
    for (number, word) in numbers.iter_mut().zip(words) {
        *number = read(word)?;
    }
    Ok(numbers)
}
