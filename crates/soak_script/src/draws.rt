//! Numbers drawn from a seed, and what a step does by its draw.
ghost use Rattle.std.specs.Prelude.{◌≡◌, ◌<◌};
ghost use Rattle.std.specs.Option.{option_map};
ghost use Rattle.soak_script.specs.Draws as draws;

/// The draw behind another one, by a linear congruence.
pub(crate) fn next_draw(draw: u64) -> u64
    requires { draw < 2_147_483_648 }
    ensures next { result ≡ draws.next_draw draw }
    ensures small { result < 2_147_483_648 }
{
    (draw * 1_103_515_245 + 12_345) % 2_147_483_648
}

/// The template of the run that a draw decides on, or None, where it decides on a reservation.
pub(crate) fn template_of(draw: u64) -> Option<&'static str>
    ensures { option_map (λ name. name.now) result ≡ draws.template_of draw }
{
    match draw / 65_536 % 4 {
        0 => Some("a"),
        1 => Some("b"),
        2 => Some("c"),
        _ => None,
    }
}
