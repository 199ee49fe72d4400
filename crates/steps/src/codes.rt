ghost use Rattle.std.specs.Prelude.{◌≡◌, ◌<◌, ◌≤◌, Some, None, MatchResult};
ghost use Rattle.steps.specs.Codes.{mark_number, mark_of, pair, taken_number, role_number, role_of};
ghost use Rattle.steps.specs.Polls.{coin_of};

use layout::Passage;

// The state in a pair of passage number and state.
#[derive(Clone, Copy, PartialEq, Eq, Debug)]
pub enum Mark {
    Empty,
    // it waits
    Reg,
    // it is promoted, or no longer waits for it
    Pro,
    // it is struck out
    Abort,
}

impl Mark {
    // The state in a pair. No `From`, since the pair has a number too.
    pub(crate) fn of(pair: u16) -> Mark
        ensures { result ≡ mark_of pair }
    {
        match pair % 4 {
            0 => Mark::Empty,
            1 => Mark::Reg,
            2 => Mark::Pro,
            _ => Mark::Abort,
        }
    }
}

// The word of a passage number and a state.
pub(crate) fn pair(number: Passage, mark: Mark) -> u64
    ensures { result ≡ pair number.0 (mark_number mark) }
{
    u64::from(number.0) * 4 + mark as u64
}

// Who has taken a gate: the word in Count.
#[derive(Clone, Copy, PartialEq, Eq, Debug)]
pub enum Taken {
    ByNobody,
    ByKing,
    // by king and queen, or by who came after them
    ByBoth,
}

impl From<Taken> for u64 {
    ghost from_gives = { λ taken word. word ≡ taken_number taken };

    fn from(taken: Taken) -> Self {
        taken as u64
    }
}

// What a seat has become at a gate: the word in Role.
#[derive(Clone, Copy, PartialEq, Eq, Debug)]
pub enum Role {
    Nobody,
    King,
    Queen,
    Pawn,
    PromotedPawn,
}

// A word that means no role.
#[derive(Clone, Copy, PartialEq, Eq, Debug)]
pub struct UnknownRole(pub u64);

impl From<Role> for u64 {
    ghost from_gives = { λ role word. word ≡ role_number role };

    fn from(role: Role) -> Self {
        role as u64
    }
}

impl TryFrom<u64> for Role {
    type Error = UnknownRole;

    ghost try_from_gives = { λ word r. MatchResult r (λ role. role_of word ≡ Some role) (λ e. (role_of word ≡ None) × (e.0 ≡ word)) };

    fn try_from(word: u64) -> Result<Self, UnknownRole> {
        match word {
            0 => Ok(Role::Nobody),
            1 => Ok(Role::King),
            2 => Ok(Role::Queen),
            3 => Ok(Role::Pawn),
            4 => Ok(Role::PromotedPawn),
            _ => Err(UnknownRole(word)),
        }
    }
}

// The role that a poll tries for.
#[derive(Clone, Copy, PartialEq, Eq, Debug)]
pub enum Coin {
    TryKing,
    TryQueen,
    TryPawn,
}

// A number that means no coin.
#[derive(Clone, Copy, PartialEq, Eq, Debug)]
pub struct UnknownCoin(pub u8);

impl TryFrom<u8> for Coin {
    type Error = UnknownCoin;

    ghost try_from_gives = { λ number r. MatchResult r (λ coin. (number ≤ 2) × (coin ≡ coin_of number)) (λ e. (2 < number) × (e.0 ≡ number)) };

    fn try_from(number: u8) -> Result<Self, UnknownCoin> {
        match number {
            0 => Ok(Coin::TryKing),
            1 => Ok(Coin::TryQueen),
            2 => Ok(Coin::TryPawn),
            _ => Err(UnknownCoin(number)),
        }
    }
}
