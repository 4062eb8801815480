//! A script that is held in memory.

ghost use Rattle.std.specs.Prelude.{◌≡◌, []};
ghost use Rattle.rls_transcript.specs.Memory.{given_of, is_ended};

use rls_script::{Failed, ScriptIn};

/// A script to read.
#[derive(Drop)]
pub struct ScriptText<'a> {
    script: &'a [u8],
    // That of the next byte, until the end was reached.
    place: Option<usize>,
}

impl<'a> ScriptText<'a> {
    pub fn new(script: &'a [u8]) -> ScriptText<'a>
        ensures fresh { given_of result.script.now result.place ≡ [] }
        ensures whole { result.script.now ≡ script.now }
    {
        ScriptText {
            script,
            place: Some(0),
        }
    }

    /// All of it.
    pub fn script(&self) -> &'a [u8]
        ensures { result.now ≡ self.now.script.now }
    {
        self.script
    }
}

impl<'a> ScriptIn for ScriptText<'a> {
    ghost failures = { λ _. 0 };

    ghost given = { λ it. given_of it.script.now it.place };

    ghost ended = { λ it. is_ended it.place };

    fn next_byte(&mut self) -> Result<Option<u8>, Failed> {
        let Some(place) = self.place else {
            return Ok(None);
        };
        if place < self.script.len() {
            self.place = Some(place + 1);
            return Ok(Some(self.script[place]));
        }
        self.place = None;
        Ok(None)
    }
}
