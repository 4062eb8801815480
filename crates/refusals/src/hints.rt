//! Calls that tell of a line which isn't taken.

use rls_hints::{COMMAND, Fault, Place, Placed, find_fault, hint_of, label_hint, read_words};
use rls_session::rls_core::rls_guard::rls_catalog::rls_value::Refusal;
use scenario::{Scenario, play};
use std::alloc::Global;

/// A line whose fourth word is none that may stand there, and its command.
const LINE: &str = "p: CREATE ROLE bob LOGN";

const COMMAND_OF_LINE: &str = "CREATE ROLE bob LOGN";

const WORDS: usize = 4;

const WRONG: usize = 3;

/// What is told of it.
const HINT: &str =
    "S:2:20: syntax error at `LOGN`; did you mean LOGIN?\n  here may stand: BYPASSRLS, LOGIN, NOBYPASSRLS, NOLOGIN, NOSUPERUSER, SUPERUSER, WITH, `;`, the end\n";

/// A line that no role's name follows, with what stands there, and what is told of it.
const CONNECT: &str = "p: \\connect CREATE";

const COMMAND_OF_CONNECT: &str = "\\connect CREATE";

const HINT_OF_CONNECT: &str =
    "S:2:13: syntax error at `CREATE`; `CREATE` is a reserved word, and no name\n  here may stand: a name\n";

/// A command whose name is too long, and what is told of it.
const LONG: &str = "SELECT a FROM a234567890123456789012345678901234567890123456789012345678901234";

const HINT_OF_LONG: &str = "S:2:1: name too long\n";

/// What is told of a line without a label.
const NO_LABEL: &str = "S:6:1: no label: a line is `LABEL: STATEMENT`\n";

/// What is asked of a line.
#[derive(Clone, Copy)]
enum Ask {
    Words,
    Fault,
    /// What is told of a command, of what follows `\connect`, and of a name over its limit.
    Command,
    Connect,
    Long,
    Label,
}

const ASKS: [(&str, Ask); 6] = [
    ("read_words", Ask::Words),
    ("find_fault", Ask::Fault),
    ("hint_of", Ask::Command),
    ("hint_of", Ask::Connect),
    ("hint_of", Ask::Long),
    ("label_hint", Ask::Label),
];

/// What comes of it.
#[derive(Drop)]
enum Given {
    Words(Vec<Placed>),
    Fault(Option<Fault>),
    Hint(Option<String>),
    Text(String),
}

#[derive(Drop)]
struct Asking {
    ask: Ask,
    words: Vec<Placed>,
}

impl Asking {
    fn new(alloc: Global, ask: Ask) -> Result<Asking, Refusal> {
        Ok(Asking {
            ask,
            words: read_words(alloc, COMMAND_OF_LINE)?,
        })
    }

    /// The hint that is expected.
    fn hint(&self) -> &'static str {
        match self.ask {
            Ask::Connect => HINT_OF_CONNECT,
            Ask::Long => HINT_OF_LONG,
            _ => HINT,
        }
    }
}

/// The second line of the script `S`.
fn second(text: &str) -> Place<'_> {
    Place {
        file: "S",
        line: 2,
        text,
    }
}

impl Scenario for Asking {
    type Answer = Given;

    fn call(&mut self, alloc: Global) -> Result<Given, Refusal> {
        Ok(match self.ask {
            Ask::Words => Given::Words(read_words(alloc, COMMAND_OF_LINE)?),
            Ask::Fault => Given::Fault(find_fault(alloc, &COMMAND, self.words.as_slice())?),
            Ask::Command => Given::Hint(hint_of(alloc, second(LINE), COMMAND_OF_LINE)?),
            Ask::Connect => Given::Hint(hint_of(alloc, second(CONNECT), COMMAND_OF_CONNECT)?),
            Ask::Long => Given::Hint(hint_of(alloc, second(LONG), LONG)?),
            Ask::Label => Given::Text(label_hint(alloc, "S", 6)?),
        })
    }

    fn is_answer(&self, answer: &Given, _alloc: Global) -> Result<bool, Refusal> {
        Ok(match answer {
            Given::Words(words) => words.len() == WORDS,
            Given::Fault(Some(fault)) => fault.place == WRONG,
            Given::Hint(Some(hint)) => hint.as_str() == self.hint(),
            Given::Text(text) => text.as_str() == NO_LABEL,
            Given::Fault(None) | Given::Hint(None) => false,
        })
    }
}

pub fn play_all(rt: &impl Print, alloc: Global) {
    for (call, ask) in ASKS {
        play(
            rt,
            alloc,
            call,
            Asking::new(alloc, ask),
            Asking::new(alloc, ask),
        );
    }
}
