// Words at random are no image: the read of an entry refuses them at every length from 0 to 200.
use model::Refusal;
use std::io;
use std::io::Write;

// Numbers at random: the last one, and 1 before the first.
#[derive(Drop)]
pub struct Random(pub u32);

impl Random {
    // The next.
    pub fn draw(&mut self) -> u32 {
        self.0 = (u64::from(self.0) * 16807 % 2147483647) as u32;
        self.0
    }
}

// How many lengths are refused, of words at random and of these with the format word right.
pub fn print_counts<W: Write>(out: &mut W) -> io::Result<()> {
    let mut words = [0u32; 200];
    let mut random = Random(1);
    for word in &mut words {
        *word = random.draw();
    }
    let without = count_refused(&words);
    words[image::format::FORMAT_AT] = image::format::FORMAT;
    let with = count_refused(&words);
    writeln!(
        out,
        "Lengths from 0 to 200 of words at random that are refused 1: {without}, and with word 0 right: {with}"
    )
}

// How many of the parts of no word to all of them, from the first on, are refused as no image.
pub fn count_refused(words: &[u32]) -> usize {
    (0..=words.len())
        .filter(|&n| words.get(..n).is_some_and(is_bad))
        .count()
}

// Whether the words are refused as no image.
fn is_bad(words: &[u32]) -> bool {
    matches!(sheafwinch::entry(words, 0), Err(Refusal::BadTable))
}
