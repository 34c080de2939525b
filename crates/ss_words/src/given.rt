ghost use Rattle.std.specs.Prelude.{◌≡◌, option_map};
ghost use Rattle.std.specs.Char.{is_ascii_digit};
ghost use Rattle.std.specs.List.{list_all};
ghost use Rattle.ss_words.specs.Words as spec;

const MOST_FILE_BYTES: usize = 200;

const MOST_WORKERS: u32 = 8;

/// The values of the options, where they are given.
#[derive(Clone, Copy)]
pub(crate) struct Given<'a> {
    pub(crate) schedule: Option<&'a str>,
    pub(crate) failures: Option<&'a str>,
    pub(crate) trace: Option<&'a str>,
    pub(crate) workers: Option<&'a str>,
}

impl<'a> Given<'a> {
    ghost use Rattle.ss_words.specs.Answers.{given_text};

    /// Whether none but the schedule is given.
    pub(crate) fn gives_no_run(&self) -> bool
        ensures { result ≡ spec.gives_no_run (given_text self.now) }
    {
        !(self.failures.is_some() || self.trace.is_some() || self.workers.is_some())
    }
}

/// The file of an option that may be left out.
pub(crate) fn file_given(word: Option<&str>) -> Option<Option<&str>>
    ensures { option_map (option_map (λ file. file.now)) result
        ≡ spec.file_given (option_map (λ word. word.now) word.entry) }
{
    match word {
        None => Some(None),
        Some(word) => {
            if is_file_word(word) {
                Some(Some(word))
            } else {
                None
            }
        }
    }
}

/// The number of workers, where it is given.
pub(crate) fn workers_given(word: Option<&str>) -> Option<Option<u32>>
    ensures { result ≡ spec.workers_given (option_map (λ word. word.now) word.entry) }
{
    match word {
        None => Some(None),
        Some(word) => match workers_in(word) {
            Some(workers) => Some(Some(workers)),
            None => None,
        },
    }
}

/// Whether a word may name a file: it has 1 to 200 bytes.
pub(crate) fn is_file_word(word: &str) -> bool
    ensures { result ≡ spec.is_file_word word.now }
{
    !word.is_empty() && word.len() <= MOST_FILE_BYTES
}

/// The number that a word says where it says a number of workers.
fn workers_in(word: &str) -> Option<u32>
    ensures { result ≡ spec.workers_in word.now }
{
    if !is_decimal(word) {
        return None;
    }
    match word.parse::<u32>() {
        Ok(workers) => {
            if 1 <= workers && workers <= MOST_WORKERS {
                Some(workers)
            } else {
                None
            }
        }
        Err(_) => None,
    }
}

/// The number that a word says where it says a seed.
pub(crate) fn seed_in(word: &str) -> Option<u64>
    ensures { result ≡ spec.seed_in word.now }
{
    if word.is_empty() || !is_decimal(word) {
        return None;
    }
    match word.parse::<u64>() {
        Ok(seed) => Some(seed),
        Err(_) => None,
    }
}

/// Whether a word has decimal digits alone.
fn is_decimal(word: &str) -> bool
    ensures { result ≡ list_all is_ascii_digit word.now }
{
    word.as_bytes().iter().all(|byte| byte.is_ascii_digit())
}
