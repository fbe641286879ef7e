// Network A, on which the reference figures are worked out.
//
//           2,4         2,5
//     0 ─────────► 1 ─────────► 3
//     │                        ▲ ▲
//     │     4,1         1,2    │ │
//     ├─────────► 2 ───────────┘ │
//     │            9,1           │
//     └──────────────────────────┘
//
// A leg shows its fee and its delay.
ghost use Rattle.std.specs.Prelude.{◌≡◌};
ghost use Rattle.figures.specs.Figures.{network_a, legs_a, leg as leg_of};

use network::legs::*;

// How many sites and legs it has.
pub fn network_a() -> Network
    ensures { result ≡ network_a }
{
    Network { sites: 4, legs: 5 }
}

// A leg with the medium 0.
pub fn leg(tail: u16, head: u16, fee: u32, grade: u8, stated: u32) -> Leg
    ensures { result ≡ leg_of tail head fee grade stated 0 }
{
    Leg {
        tail,
        head,
        fee,
        grade,
        stated,
        medium: 0,
    }
}

// Its legs.
pub fn legs_a() -> [Leg; 5]
    ensures { result ≡ legs_a }
{
    [
        leg(0, 1, 2, 3, 4),
        leg(1, 3, 2, 1, 5),
        leg(0, 2, 4, 2, 1),
        leg(2, 3, 1, 2, 2),
        leg(0, 3, 9, 1, 1),
    ]
}
