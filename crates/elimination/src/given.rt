// An automaton as a file gives it.
ghost use Rattle.std.specs.Prelude.{◌≡◌, map, Ok, Err, MatchResult};
ghost use Rattle.automaton.specs.Answers.{held_by, placed_row, read_answer, read_of};
ghost use Rattle.automaton.specs.Handed.{Handed};
ghost use Rattle.automaton.proofs.Props.{handed-prop};

use automaton::{Automaton, Refused, Row};
use ground::Wide;

// Its value says something that a file can hold.
#[derive(Clone, Copy)]
pub struct Given {
    pub value: Automaton,
    ghost handed: { Handed value } by { handed-prop value },
}

impl Given {
    // What a file gives.
    pub fn read(file: &[u8]) -> Result<Given, Refused>
        ensures { MatchResult result (λ given. read_of (Ok given.value) ≡ read_answer file.now) (λ reason. read_of (Err reason) ≡ read_answer file.now) }
    {
        let value = automaton::read(file)?;
        Ok(Given { value })
    }

    // How many states it has.
    #[tactic(auto, unfolding(automaton::specs::Answers::held_by))]
    pub fn states(&self) -> u32
        ensures { result ≡ (held_by self.now.value).states }
    {
        self.value.states.wide()
    }

    // Its rules.
    pub fn rules(&self) -> &[Row]
        ensures { result.now ≡ map placed_row (held_by self.now.value).rules }
    {
        &self.value.rows[..ground::index(self.value.count)]
    }
}
