//! What came of a call, and the lines that tell it.

ghost use Rattle.std.specs.Prelude.{◌≡◌};
ghost use Rattle.scenario.specs.Endings as spec;

/// What came of a call.
#[derive(Clone, Copy)]
pub enum Ending {
    /// Its object wasn't made.
    NotMade,
    /// It was made, and gave what is expected, or something else.
    Done,
    AnotherAnswer,
    /// It was refused for another cause than want of memory.
    OtherCause,
    /// It was refused, and the object is another one than its twin.
    Changed,
    /// It was refused, the object was as it was, and then the call, made again, ended so.
    DoneAgain,
    AnotherAnswerAgain,
    RefusedAgain,
}

impl Ending {
    /// How it is told.
    fn text(self) -> &'static str {
        match self {
            Ending::NotMade => "NOT MADE",
            Ending::Done => "done",
            Ending::AnotherAnswer => "ANOTHER ANSWER",
            Ending::OtherCause => "REFUSED FOR ANOTHER CAUSE",
            Ending::Changed => "refused, CHANGED",
            Ending::DoneAgain => "refused, as it was, then done",
            Ending::AnotherAnswerAgain => "refused, as it was, then ANOTHER ANSWER",
            Ending::RefusedAgain => "refused, as it was, then REFUSED AGAIN",
        }
    }
}

/// How a call ends that was made, by whether it gave what is expected.
pub fn made(is_expected: bool) -> Ending
    ensures { result ≡ spec.made_as is_expected }
{
    if is_expected {
        Ending::Done
    } else {
        Ending::AnotherAnswer
    }
}

/// The same of one that was refused once.
pub fn made_again(is_expected: bool) -> Ending
    ensures { result ≡ spec.made_again_as is_expected }
{
    if is_expected {
        Ending::DoneAgain
    } else {
        Ending::AnotherAnswerAgain
    }
}

/// From here on the requests for memory are the call's.
pub fn begin(rt: &impl Print, call: &str) {
    let _ = println!(rt; "? {call}");
}

/// Up to here.
pub fn end(rt: &impl Print) {
    let _ = println!(rt; ".");
}

/// Tells what came of the call.
pub fn tell(rt: &impl Print, call: &str, ending: Ending) {
    let told = ending.text();
    let _ = println!(rt; "{call}: {told}");
}
