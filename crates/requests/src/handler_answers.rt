//! What the handlers of a chain are to answer.
ghost use Rattle.std.specs.Prelude.{◌≡◌};
ghost use Rattle.requests.specs.Pairs.{answer_code, answer_named, answer_word, value_of};

/// What a handler is to answer, as the kernel's `notifier.h` has it.
#[derive(Clone, Copy, Debug, PartialEq, Eq)]
pub enum Answer {
    /// `NOTIFY_DONE`.
    Done,
    /// `NOTIFY_OK`.
    Ok,
    /// `NOTIFY_STOP`: no further handler is called.
    Stop,
    /// `NOTIFY_BAD`: no further handler is called.
    Bad,
}

impl Answer {
    const ALL: [Answer; 4] = [Answer::Done, Answer::Ok, Answer::Stop, Answer::Bad];

    fn word(self) -> &'static str
        ensures word { result.now ≡ answer_word self }
        ensures found { answer_named result.now ≡ Some self }
    {
        match self {
            Answer::Done => "done",
            Answer::Ok => "ok",
            Answer::Stop => "stop",
            Answer::Bad => "bad",
        }
    }

    /// The answer of this word; `None` where the word is none.
    pub(crate) fn of_word(word: &[u8]) -> Option<Answer>
        ensures { result ≡ answer_named word.now }
    {
        Answer::ALL
            .iter()
            .copied()
            .find(|answer| answer.word().as_bytes() == word)
    }

    /// Its two bits.
    fn code(self) -> u64
        ensures { result ≡ answer_code self }
    {
        match self {
            Answer::Done => 0,
            Answer::Ok => 1,
            Answer::Stop => 2,
            Answer::Bad => 3,
        }
    }
}

/// What each of the sixteen handlers is to answer, by its id.
#[derive(Clone, Copy, Debug, PartialEq, Eq)]
pub struct HandlerAnswers {
    pub by_id: [Answer; 16],
}

impl HandlerAnswers {
    /// The value that tells them: two bits for each handler, those of handler 0 the lowest. They are 0 for `Done`, 1 for
    /// `Ok`, 2 for `Stop` and 3 for `Bad`.
    pub fn value(&self) -> u64
        ensures { result ≡ value_of self.now.by_id }
    {
        let mut value = 0;
        for (id, answer) in self.by_id.iter().enumerate() {
            value += answer.code() << (2 * id);
        }
        value
    }
}
