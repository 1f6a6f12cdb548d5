// What a take tells.
ghost use Rattle.std.specs.Prelude.{◌≡◌};
ghost use Rattle.interpreter.specs.Outcomes.{number_told};

use command::Refusal;

#[derive(Clone, Copy, Debug, PartialEq, Eq)]
pub struct Taken {
    // How many of the bytes are used up.
    pub used: usize,
    // Accepted, or why not.
    pub outcome: Result<(), Refusal>,
    // How many bytes of the area are the reply: none is 0, so no Option.
    pub reply: usize,
    // How many marks are on the open or latest page.
    pub marks: usize,
}

impl Taken {
    // The refusal's number; 0 where the command was accepted, as the rules tell an outcome. `outcome` says it in full.
    pub fn number(self) -> u8
        ensures { result ≡ number_told self.outcome }
    {
        match self.outcome {
            Ok(()) => 0,
            Err(refusal) => refusal.number(),
        }
    }
}
