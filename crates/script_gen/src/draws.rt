//! The draws: a linear congruence.

ghost use Rattle.std.specs.Prelude.{◌≡◌};
ghost use Rattle.script_gen.specs.Draw.{next_state, given_by};

/// The next draw, from 0 to 32,767; the state moves on. The numbers of the rule are this project's own choice.
#[tactic(auto, unfolding(crate::specs::Draw::next_state, crate::specs::Draw::given_by))]
pub(crate) fn draw(state: &mut u32) -> u32
    ensures drawn { result ≡ given_by (next_state state.old) }
    ensures state { state.new ≡ next_state state.old }
{
    let grown = u64::from(*state) * 1_103_515_245 + 12_345;
    *state = (grown % 2_147_483_648) as u32;
    *state / 65_536
}
