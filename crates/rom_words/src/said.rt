//! Words behind a command's name: plain ones, and options with their values.
ghost use Rattle.std.specs.Prelude.{◌≡◌, ◌⊎◌, ◌<◌, [], ◌∷◌, ◌++◌, length, None, IfNone, IfSome, IsNone, IsSome, Some};
ghost use Rattle.rom_words.specs.Wanted.{sort_at, sorted, told};
ghost use Rattle.rom_words.specs.Words.{begins_with_dash, behind_dashes, said};
ghost use Rattle.rom_words.specs.Words as spec;

use arrayvec::ArrayVec;
use rom_text::Name;

/// The most plain words of a command: a file, and then scripts.
const MOST_PLAIN: usize = 17;

/// The most options of a command.
const MOST_OPTIONS: usize = 2;

/// Plain words of a command.
pub type Plain<'a> = ArrayVec<&'a str, MOST_PLAIN>;

/// What a word before a `--` is.
enum Sort<'a> {
    /// `--`: all later words are plain.
    Ends,
    /// `--NAME=VALUE`.
    Gives(&'a str, &'a str),
    /// `--NAME`, which has the next word as its value.
    Opens(&'a str),
    /// A plain word.
    Stands,
    /// A longer word that begins with one dash.
    Refused,
}

/// What words behind a command's name say, each part in order.
#[derive(Drop)]
pub struct Said<'a> {
    pub plain: Plain<'a>,
    pub options: ArrayVec<(&'a str, &'a str), MOST_OPTIONS>,
}

impl<'a> Said<'a> {
    fn new() -> Said<'a>
        ensures plain { result.plain.items ≡ [] }
        ensures options { result.options.items ≡ [] }
    {
        Said {
            plain: ArrayVec::new(),
            options: ArrayVec::new(),
        }
    }

    /// Adds a plain word, where there is room.
    fn add_plain(&mut self, word: &'a str) -> Option<()>
        ensures some { IsSome result → self.new.plain.items
            ≡ self.old.plain.items ++ word.entry ∷ [] }
        ensures none { IsNone result → length self.old.plain.items ≡ MOST_PLAIN }
        ensures options { self.new.options ≡ self.old.options }
    {
        self.plain.try_push(word).ok()
    }

    /// Adds an option, where there is room.
    fn add_option(&mut self, name: &'a str, value: &'a str) -> Option<()>
        ensures some { IsSome result → self.new.options.items
            ≡ self.old.options.items ++ (name.entry, value.entry) ∷ [] }
        ensures none { IsNone result → length self.old.options.items ≡ MOST_OPTIONS }
        ensures plain { self.new.plain ≡ self.old.plain }
    {
        self.options.try_push((name, value)).ok()
    }
}

fn starts_with_dash(word: &str) -> bool
    ensures { result ≡ begins_with_dash word.now }
{
    word.as_bytes().first() == Some(&b'-')
}

/// What a word is with this behind its two dashes.
fn long_sort(rest: &str) -> Sort<'_>
    ensures { sorted result ≡ behind_dashes rest.now }
{
    if rest.is_empty() {
        return Sort::Ends;
    }
    match rest.split_once('=') {
        Some((name, value)) => Sort::Gives(name, value),
        None => Sort::Opens(rest),
    }
}

/// What a word is, where a `--` stands before it or none does.
fn read_sort(ended: bool, word: &str) -> Sort<'_>
    ensures { sorted result ≡ sort_at ended word.now }
{
    if ended {
        return Sort::Stands;
    }
    match word.strip_prefix("--") {
        Some(rest) => long_sort(rest),
        None if starts_with_dash(word) && word.len() > 1 => Sort::Refused,
        None => Sort::Stands,
    }
}

/// What words behind a command's name say, or `None` where they say nothing or more than any command
/// has.
pub fn read_said(words: &[Name]) -> Option<Said<'_>>
    ensures some { IfSome result (λ s. said words.now None ≡ Some (told s)) }
    ensures none { IfNone result ((s : spec.Said) → said words.now None ≡ Some s →
        (17 < length s.plain) ⊎ (2 < length s.options)) }
{
    let mut said = Said::new();
    let mut ended = false;
    let mut rest = words;
    while let Some((word, behind)) = rest.split_first() {
        rest = behind;
        let word = word.as_str();
        match read_sort(ended, word) {
            Sort::Ends => ended = true,
            Sort::Gives(name, value) => said.add_option(name, value)?,
            Sort::Opens(name) => {
                let (value, behind) = rest.split_first()?;
                let value = value.as_str();
                if starts_with_dash(value) {
                    return None;
                }
                said.add_option(name, value)?;
                rest = behind;
            }
            Sort::Stands => said.add_plain(word)?,
            Sort::Refused => return None,
        }
    }
    Some(said)
}
