// The runs. A seat on its way out takes the most polls at a gate that it closes second and where no pawn waits. A queen
// who gives up, and a king who hands over, scan all ways besides. Who hands a gate over has nothing to do above it.

// Four ways: seat 0 gives up at height 3, and is away 50 polls later.
pub const GIVE_UP_FOUR: &str = "\
ways 4
apply 16           # passage 1: king at all heights, holds
poll 16 1 0 x9
apply 0            # passage 2: king at heights 1 and 2, queen at height 3, waits
poll 0 2 0 x7
poll 0 2 1
apply 1            # passage 3: queen at height 1, quits and closes first
poll 1 3 1 x2
give-up 1 3
poll 1 3 0 x9
apply 4            # passage 4: queen at height 2, waits
poll 4 4 0 x4
poll 4 4 1
give-up 0 2
poll 0 2 0 x2      # quits at height 3
leave 16 1
poll 16 1 0 x14    # closes height 3 first
poll 0 2 0 x32     # backs out of height 3, leaves height 1, hands height 2 over
poll 4 4 0 x2      # has height 2
give-up 4 4
poll 4 4 0 x8      # closes height 2 first
poll 0 2 0 x16
";

// Four ways: seat 0 leaves, and is away 47 polls later.
pub const LEAVE_FOUR: &str = "\
ways 4
apply 0            # passage 1: king at all heights, holds
poll 0 1 0 x9
apply 1            # passage 2: queen at height 1, quits and closes first
poll 1 2 1 x2
give-up 1 2
poll 1 2 0 x9
apply 4            # passage 3: queen at height 2, quits and closes first
poll 4 3 0 x4
poll 4 3 1
give-up 4 3
poll 4 3 0 x13
apply 16           # passage 4: queen at height 3, waits
poll 16 4 0 x7
poll 16 4 1
leave 0 1
poll 0 1 0 x31     # leaves heights 1 and 2, hands height 3 over
poll 16 4 0 x2     # the queen holds
leave 16 4
poll 16 4 0 x12    # closes height 3 first
poll 0 1 0 x16
";

// Three ways: seat 0 gives up at height 2, and is away 34 polls later.
pub const GIVE_UP_THREE: &str = "\
ways 3
apply 3            # passage 1: king at both heights, holds
poll 3 1 0 x6
apply 0            # passage 2: king at height 1, queen at height 2, waits
poll 0 2 0 x4
poll 0 2 1
apply 1            # passage 3: queen at height 1, waits
poll 1 3 1 x2
give-up 0 2
poll 0 2 0 x2      # quits at height 2
leave 3 1
poll 3 1 0 x10     # closes height 2 first
poll 0 2 0 x17     # backs out of height 2, hands height 1 over
poll 1 3 0 x2      # has height 1
give-up 1 3
poll 1 3 0 x4      # closes height 1 first
poll 0 2 0 x15
";

// Three ways: seat 0 leaves, and is away 32 polls later.
pub const LEAVE_THREE: &str = "\
ways 3
apply 0            # passage 1: king at both heights, holds
poll 0 1 0 x6
apply 1            # passage 2: queen at height 1, quits and closes first
poll 1 2 1 x2
give-up 1 2
poll 1 2 0 x8
apply 3            # passage 3: queen at height 2, waits
poll 3 3 0 x4
poll 3 3 1
leave 0 1
poll 0 1 0 x17     # leaves height 1, hands height 2 over
poll 3 3 0 x2      # the queen holds
leave 3 3
poll 3 3 0 x8      # closes height 2 first
poll 0 1 0 x15
";

// Two ways: seat 1 gives up, and is away 15 polls later.
pub const GIVE_UP_TWO: &str = "\
ways 2
apply 0          # passage 1: king, holds
poll 0 1 0 x3
apply 1          # passage 2: queen, waits
poll 1 2 1 x2
give-up 1 2
poll 1 2 0 x2    # quits
leave 0 1
poll 0 1 0 x6    # closes first
poll 1 2 0 x13
";

// Two ways: seat 0 leaves, and is away 17 polls later.
pub const LEAVE_TWO: &str = "\
ways 2
apply 0          # passage 1: king, holds
poll 0 1 0 x3
apply 1          # passage 2: queen, waits
poll 1 2 1 x2
leave 0 1
poll 0 1 0 x3    # hands over to the queen
poll 1 2 0 x2    # she holds
leave 1 2
poll 1 2 0 x4    # closes first
poll 0 1 0 x14
";
