ghost use Rattle.std.specs.Prelude.{◌≡◌};
ghost use Rattle.seats.specs.Places.{place_number};

// The step that a seat's next poll does, numbered after the lines of the algorithm.
#[derive(Clone, Copy, PartialEq, Eq)]
pub enum Place {
    // no step is due: the seat is away or holding
    Rest = 0,

    // lock: win the gate
    ClaimApply = 2,
    RaceForRole = 5,
    AwaitPromotion = 7,
    RecheckCount = 8,
    AwaitKing = 14,
    MarkApply = 16,

    // abort: give up at the gate
    CloseApply = 19,
    AbortPawn = 21,
    AbortQueen = 26,
    AcceptGate = 27,
    WithdrawApply = 32,

    // release: give the gate back
    ReadRole = 35,
    OpenAlone = 36,
    HandOver = 37,
    ReadApply = 48,
    ClearApply = 49,

    // collect: register the pawns that wait
    ScanApply = 52,
    CollectPawns = 55,

    // help release: of king and queen, the second to come frees the gate
    RaceToClose = 56,
    ClearSyncOne = 58,
    ReadSyncTwo = 59,
    ClearSyncTwo = 60,
    StrikeOut = 61,

    // promote: pass the gate to a pawn, or open it
    StrikeSelf = 64,
    PromotePawn = 65,
    ResetPawns = 67,
    OpenGate = 68,
    MarkPromoted = 70,
}

impl Place {
    // The place's number. A method, since it ends chains such as `seat.place.number()`.
    pub fn number(self) -> u8
        ensures { result ≡ place_number self }
    {
        self as u8
    }
}
