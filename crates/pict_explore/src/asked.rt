// What the words ask for.

/// How many configurations are found at most, unless the words say otherwise.
const MOST: usize = 20_000;

/// What is written of a program.
#[derive(Clone, Copy, Debug, PartialEq, Eq)]
pub enum Wanted {
    /// How many configurations there are, and all outcomes.
    Outcomes,
    /// A replay file of a way to the outcome of this number, from 1 on.
    Way(usize),
    /// The graph of configurations, for Graphviz.
    Dot,
    /// A picture of the graph, in SVG.
    Svg,
    /// The graph of configurations, in the Aldebaran format.
    Aut,
}

/// What the words before a file ask for.
#[derive(Clone, Copy, Debug, PartialEq, Eq)]
pub struct Asked {
    /// Whether the file stands alone, without the prelude.
    pub bare: bool,
    /// How many configurations are found at most.
    pub limit: usize,
    /// What is written.
    pub wanted: Wanted,
    /// The number of the outcome to which the way is marked in a graph, from 1 on.
    pub mark: Option<usize>,
    /// How many words these are, with all before them.
    pub words: usize,
}

impl Asked {
    /// What no word asks for: all outcomes of a file behind the prelude.
    pub fn plain() -> Asked {
        Asked {
            bare: false,
            limit: MOST,
            wanted: Wanted::Outcomes,
            mark: None,
            words: 0,
        }
    }

    /// The same where so many words more are read.
    pub fn behind(self, words: usize) -> Asked {
        Asked {
            bare: self.bare,
            limit: self.limit,
            wanted: self.wanted,
            mark: self.mark,
            words: self.words.saturating_add(words),
        }
    }

    fn alone(self) -> Asked {
        Asked {
            bare: true,
            limit: self.limit,
            wanted: self.wanted,
            mark: self.mark,
            words: self.words,
        }
    }

    fn with_limit(self, limit: usize) -> Asked {
        Asked {
            bare: self.bare,
            limit,
            wanted: self.wanted,
            mark: self.mark,
            words: self.words,
        }
    }

    fn with(self, wanted: Wanted) -> Asked {
        Asked {
            bare: self.bare,
            limit: self.limit,
            wanted,
            mark: self.mark,
            words: self.words,
        }
    }

    fn marking(self, number: usize) -> Asked {
        Asked {
            bare: self.bare,
            limit: self.limit,
            wanted: self.wanted,
            mark: Some(number),
            words: self.words,
        }
    }
}

// The number that the word at this index writes; nothing where it writes none.
fn number_at(words: &[String], index: usize) -> Option<usize> {
    match words.get(index) {
        None => None,
        Some(word) => match word.as_str().parse::<usize>() {
            Ok(number) => Some(number),
            Err(_) => None,
        },
    }
}

// Whether the word is an option.
fn is_option(word: &str) -> bool {
    match word.as_bytes().first() {
        None => true,
        Some(first) => *first == b'-',
    }
}

// The same with an option of one word, if it is one.
fn with_word(asked: Asked, word: &str) -> Option<Asked> {
    if word == "--bare" {
        Some(asked.alone())
    } else if word == "--dot" {
        Some(asked.with(Wanted::Dot))
    } else if word == "--svg" {
        Some(asked.with(Wanted::Svg))
    } else if word == "--aut" {
        Some(asked.with(Wanted::Aut))
    } else {
        None
    }
}

// The same with an option of a word and a number, if it is one.
fn with_number(asked: Asked, word: &str, number: usize) -> Option<Asked> {
    if word == "--limit" {
        Some(asked.with_limit(number))
    } else if word == "--way" {
        Some(asked.with(Wanted::Way(number)))
    } else if word == "--mark" {
        Some(asked.marking(number))
    } else {
        None
    }
}

// The same with the option that comes next; nothing where its word is no option, or its number is missing.
fn with_option(asked: Asked, words: &[String]) -> Option<Asked> {
    let word = match words.get(asked.words) {
        None => return None,
        Some(word) => word.as_str(),
    };
    if let Some(more) = with_word(asked, word) {
        return Some(more.behind(1));
    }
    let number = match number_at(words, asked.words.saturating_add(1)) {
        None => return None,
        Some(number) => number,
    };
    match with_number(asked, word, number) {
        None => None,
        Some(more) => Some(more.behind(2)),
    }
}

// Whether the next word is there, and an option.
fn has_option(asked: Asked, words: &[String]) -> bool {
    match words.get(asked.words) {
        None => false,
        Some(word) => is_option(word.as_str()),
    }
}

/// What the words before the next file ask for, behind those that are read; nothing where one of them is no option, or lacks its
/// number, or where there is no file.
pub fn options_before(asked: Asked, words: &[String]) -> Option<Asked> {
    let mut asked = asked;
    for _ in 0..words.len() {
        if has_option(asked, words) {
            asked = match with_option(asked, words) {
                None => return None,
                Some(more) => more,
            };
        }
    }
    if asked.words < words.len() {
        Some(asked)
    } else {
        None
    }
}

/// Whether the words are files, each with options before it, of which there may be none.
pub fn are_asked_well(words: &[String]) -> bool {
    let mut asked = Asked::plain();
    for _ in 0..words.len() {
        if asked.words < words.len() {
            asked = match options_before(asked, words) {
                None => return false,
                Some(more) => more.behind(1),
            };
        }
    }
    !words.is_empty()
}
