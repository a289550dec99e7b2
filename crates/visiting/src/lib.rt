// The names in scope around a block and a function's body.
#![tactic(auto)]

ghost use Rattle.std.specs.Prelude.{◌≡◌, ◌+◌, ◌<◌, ◌^◌};
ghost use Rattle.visiting.specs.Blocks.{left_of, inner_of};

use scope::Names;
use visit::State;

// The state with the names in scope of one before: a block ends, or a function's body.
pub fn left(st: State, before: State) -> State
    ensures { result ≡ left_of st before }
{
    State {
        names: before.names,
        ..st
    }
}

// The state in which a function's body begins: "a function body sees only its arguments".
pub fn inner(st: State) -> State
    requires { st.names.base + st.names.depth < 2 ^ 40 }
    ensures { result ≡ inner_of st }
{
    State {
        names: Names {
            base: st.names.base + st.names.depth,
            depth: 0,
        },
        ..st
    }
}
