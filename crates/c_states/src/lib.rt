// The carried state as it crosses to C: nine numbers in a lent slice, read and written.
#![tactic(auto)]

ghost use Rattle.std.specs.Prelude.{◌≡◌, length};
ghost use Rattle.carried_state.specs.Numbers.{numbers_of};

use carried_state::State;

// The state that nine numbers are.
pub fn load(numbers: &[i32]) -> State
    requires { length numbers.now ≡ 9 }
    ensures { numbers_of result ≡ numbers.now }
{
    State {
        count: numbers[0],
        words: [numbers[1], numbers[2], numbers[3], numbers[4]],
        backoffs: [numbers[5], numbers[6], numbers[7], numbers[8]],
    }
}

// Writes a state as nine numbers.
pub fn store(state: State, numbers: &mut [i32])
    requires { length numbers.old ≡ 9 }
    ensures { numbers.new ≡ numbers_of state }
{
    numbers[0] = state.count;
    numbers[1..5].copy_from_slice(&state.words);
    numbers[5..].copy_from_slice(&state.backoffs);
}
