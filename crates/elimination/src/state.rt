// A state that is taken out.
ghost use Rattle.std.specs.Prelude.{◌<◌};
ghost use Rattle.sets.specs.Members.{state_width};

// Its number is below the width of a set of states.
#[derive(Clone, Copy)]
pub struct State {
    pub number: u32,
    ghost below_width: { number < state_width },
}
