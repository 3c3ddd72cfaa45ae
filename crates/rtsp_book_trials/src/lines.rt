//! The lines of a dialogue. One that begins with `> ` asks for something, by a word and numbers;
//! the lines behind it are what is answered.

/// What a line asks for. Numbers that the line doesn't have are 0.
#[derive(Clone, Copy)]
pub struct Line<'a> {
    pub word: &'a str,
    pub numbers: [u64; 5],
}

/// Reads what stands behind `> `.
pub fn read_line(text: &str) -> Line<'_> {
    let mut words = text.split_whitespace();
    let word = words.next().unwrap_or("");
    let mut numbers = [0; 5];
    for number in numbers.iter_mut() {
        *number = words.next().unwrap_or("0").parse().unwrap_or(0);
    }
    Line { word, numbers }
}
