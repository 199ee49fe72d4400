// Known values of the definitions that the contracts cite, computed by hand.
#![tactic(auto)]

ghost use Rattle.std.specs.Prelude.{◌≡◌, ◌*◌, replicate};
ghost use Rattle.known.specs.Known.{Known, all_after};

// How many polls a lone seat needs for each of its heights; and the known values stand.
pub fn known_values() -> u8
    ensures polls { all_after (result * 2) ≡ replicate 9 2 }
    ensures values { Known }
{
    polls_a_height()
}

// Enter by one's way, become king, and win the gate.
fn polls_a_height() -> u8
    ensures { result ≡ 3 }
{
    3
}
